//! A day that is refused: what was made of it goes.
ghost use Rattle.std.specs.Prelude.{◌≡◌, [], true};
ghost use Rattle.msr_tree.specs.Calls.{Goes};
ghost use Rattle.msr_tree.specs.Folders.{ChangesFiles};
ghost use Rattle.msr_making.specs.Clearing.{EndsRefused, EndsSwept, FindsNone, GivesUp, SaysEnd, SweepsDay};
ghost use Rattle.msr_making.specs.Told.{stays_for};
ghost use Rattle.msr_making.specs.Places.{paths_at, paths_of};
ghost use Rattle.msr_making.specs.declared.answer.DayFault.TheVariants.{ClaimedByAnother};

use crate::answer::{DayEnd, DayFault, DayOutcome, Left};
use crate::hold::Hold;
use crate::looks::look_at_day;
use crate::places::{Places, places_of};
use msr_naming::{DayFiles, clear_files};
use msr_options::DayOptions;
use msr_tree::{Tree, TreeFault};
use std::alloc::AllocError;

impl Left {
    /// What is left where all was removed, or not.
    fn of_swept(is_swept: bool) -> Left
        ensures { result ≡ Left.Stamp → ⊥ }
    {
        if is_swept { Left::Nothing } else { Left::Parts }
    }

    /// What is left where this is, and what stands beside the names was removed, or not.
    fn beside(self, is_swept: bool) -> Left
        ensures stamp { result ≡ Left.Stamp → self ≡ Left.Stamp }
        ensures rest { result ≡ Left.Nothing → is_swept ≡ true }
    {
        if is_swept { self } else { Left::Parts }
    }

    /// What is left of a day that was not touched: if a walk was killed that had it, that is known by the claim alone.
    pub(crate) fn of_untouched(was_left: bool) -> Left
        ensures { result ≡ Left.Stamp → ⊥ }
    {
        Left::of_swept(!was_left)
    }

    /// The same of a day that ended so. If an earlier walk did it, what is left is seen.
    pub(crate) fn of_ended(outcome: DayOutcome, was_left: bool) -> Left
        ensures { result ≡ Left.Stamp → ⊥ }
    {
        match outcome {
            DayOutcome::Same(_) => Left::Nothing,
            _ => Left::of_untouched(was_left),
        }
    }
}

/// Removes what stands beside the names of a day, and tells whether nothing is there any more.
fn sweep<T: Tree>(tree: &mut T, files: &DayFiles) -> bool
    ensures { Goes (T.went tree.old) (T.went tree.new) (SweepsDay files.now result) }
{
    let records = tree.remove(files.records.part.as_str()).is_ok();
    let report = tree.remove(files.report.part.as_str()).is_ok();
    let stamp = tree.remove(files.stamp.part.as_str()).is_ok();
    records & report & stamp
}

/// Whether nothing is seen of what is made of a day, nor may come back after a crash.
fn is_gone<T: Tree>(tree: &mut T, places: Places<'_>, was_left: bool) -> Result<bool, AllocError>
    ensures { Goes (T.went tree.old) (T.went tree.new) (FindsNone (paths_at places.entry) result) }
{
    if was_left {
        return Ok(false);
    }
    let look = look_at_day(tree, places)?;
    Ok(look.is_free())
}

/// Whether something is seen of what is made of a day, so that the next walk sees it too.
fn is_seen<T: Tree>(tree: &mut T, places: Places<'_>) -> bool
    ensures { Goes (T.went tree.old) (T.went tree.new) (ChangesFiles []) }
{
    match look_at_day(tree, places) {
        Ok(look) => !look.is_free(),
        Err(_) => false,
    }
}

/// What was made of a day goes.
fn clear_made<T: Tree>(tree: &mut T, input: &str, files: &DayFiles, why: DayFault) -> DayEnd
    ensures told { SaysEnd why result }
    ensures goes { Goes (T.went tree.old) (T.went tree.new) (GivesUp (paths_of input.now files.now) files.now why result) }
{
    let naming = clear_files(tree, files);
    match naming.answer {
        Ok(()) => DayEnd {
            outcome: Ok(DayOutcome::Refused(why)),
            left: Left::Nothing,
            is_stored: naming.is_stored,
        },
        Err(stopped) => match stopped.fault {
            TreeFault::Failed => DayEnd {
                outcome: Ok(DayOutcome::Refused(why)),
                left: Left::of_swept(is_seen(tree, places_of(input, files))),
                is_stored: naming.is_stored,
            },
            TreeFault::Memory => DayEnd {
                outcome: Err(AllocError),
                left: Left::Parts,
                is_stored: naming.is_stored,
            },
        },
    }
}

/// What was made of a day goes, unless nothing is there.
fn clear_day<T: Tree>(
    tree: &mut T,
    input: &str,
    files: &DayFiles,
    was_left: bool,
    why: DayFault,
) -> DayEnd
    ensures told { SaysEnd why result }
    ensures goes { Goes (T.went tree.old) (T.went tree.new) (GivesUp (paths_of input.now files.now) files.now why result) }
{
    match is_gone(tree, places_of(input, files), was_left) {
        Ok(true) => DayEnd {
            outcome: Ok(DayOutcome::Refused(why)),
            left: Left::Nothing,
            is_stored: true,
        },
        Ok(false) => clear_made(tree, input, files, why),
        Err(_) => DayEnd {
            outcome: Err(AllocError),
            left: Left::Parts,
            is_stored: true,
        },
    }
}

/// Whether the next walk sees that something may be left of a day: if a walk was killed that had it, only if something is
/// seen. Else that is known by the claim alone.
fn shows_left<T: Tree>(tree: &mut T, places: Places<'_>, was_left: bool) -> bool
    ensures { Goes (T.went tree.old) (T.went tree.new) (ChangesFiles []) }
{
    if !was_left {
        return true;
    }
    is_seen(tree, places)
}

/// Whether what an earlier walk left of a day stays that is refused for that: not if it is only no smaller.
fn stays(asked: &DayOptions, why: DayFault) -> bool
    ensures { result ≡ stays_for asked.now why }
{
    match why {
        DayFault::Larger(_) => false,
        _ => asked.keep_old,
    }
}

/// Whether another walk has a day that is refused for that.
fn is_lost<H: Hold>(hold: &H, why: DayFault) -> bool
    ensures { why ≡ ClaimedByAnother → result ≡ true }
{
    match why {
        DayFault::ClaimedByAnother => true,
        _ => !hold.is_held(),
    }
}

/// A day is refused: if it is this walk's still, what has its names goes, unless that is to stay.
fn end_refused<T: Tree, H: Hold>(
    tree: &mut T,
    input: &str,
    files: &DayFiles,
    hold: &H,
    was_left: bool,
    asked: &DayOptions,
    why: DayFault,
) -> DayEnd
    ensures told { SaysEnd why result }
    ensures goes { Goes (T.went tree.old) (T.went tree.new) (EndsRefused (paths_of input.now files.now) files.now asked.now why result) }
{
    if is_lost(hold, why) {
        return DayEnd {
            outcome: Ok(DayOutcome::Refused(DayFault::ClaimedByAnother)),
            left: Left::Nothing,
            is_stored: true,
        };
    }
    if stays(asked, why) {
        let is_shown = shows_left(tree, places_of(input, files), was_left);
        return DayEnd {
            outcome: Ok(DayOutcome::Refused(why)),
            left: Left::of_swept(is_shown),
            is_stored: true,
        };
    }
    clear_day(tree, input, files, was_left, why)
}

/// The same, and what stands beside its names goes.
pub(crate) fn give_up<T: Tree, H: Hold>(
    tree: &mut T,
    input: &str,
    files: &DayFiles,
    hold: &H,
    was_left: bool,
    asked: &DayOptions,
    why: DayFault,
) -> DayEnd
    ensures told { SaysEnd why result }
    ensures goes { Goes (T.went tree.old) (T.went tree.new) (EndsSwept (paths_of input.now files.now) files.now asked.now why result) }
{
    let end = end_refused(tree, input, files, hold, was_left, asked, why);
    let is_swept = sweep(tree, files);
    DayEnd {
        outcome: end.outcome,
        left: end.left.beside(is_swept),
        is_stored: end.is_stored,
    }
}
