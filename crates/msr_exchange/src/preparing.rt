//! What stands ready beside the day's name, and what goes when a day is given up.
ghost use Rattle.std.specs.Prelude.{[], ◌∷◌};
ghost use Rattle.msr_tree.specs.Acts.{Acts};
ghost use Rattle.msr_tree.specs.Calls.{Goes};
ghost use Rattle.msr_exchange.specs.Moves.{Anything, PreparesIf, PreparesIfNone, ShowsIf};
ghost use Rattle.msr_exchange.specs.Names.{AreNames, path_at};
ghost use Rattle.msr_exchange.specs.declared.names.Place.TheVariants.{DayPart, Note, NotePart, Original, Records};

use crate::moves::{Dress, Hindrance, copy_stored, look_alike};
use crate::names::{DayNames, Place};
use crate::told::GivenUp;
use msr_tree::{Facts, Kind, Time, Tree, TreeFault};

/// A day that was verified: what its file and its records were before that.
#[derive(Clone, Copy)]
pub struct Verified {
    pub file: Facts,
    pub records: Facts,
    /// Whether the records get the time of now, and not that of the file.
    pub touch: bool,
}

/// Whether it is the same regular file as before, with the same size and time of last change.
fn is_still(now: Option<Facts>, before: &Facts) -> bool {
    match now {
        Some(now) => {
            let is_one = now.device == before.device && now.number == before.number;
            let is_unchanged = now.bytes == before.bytes && now.changed == before.changed;
            now.kind == Kind::Regular && is_one && is_unchanged
        }
        None => false,
    }
}

/// Whether nobody has touched it since, not even given it another name or other rights.
fn is_untouched(now: Option<Facts>, before: &Facts) -> bool {
    match now {
        Some(now) => now.touched == before.touched && is_still(Some(now), before),
        None => false,
    }
}

/// Whether file and records are those that were verified.
pub(crate) fn are_still<T: Tree>(
    tree: &mut T,
    names: &DayNames,
    verified: &Verified,
) -> Result<bool, TreeFault>
    ensures { Goes (T.went tree.old) (T.went tree.new) (Acts [] Anything result) }
{
    let file = tree.look(names.at(Place::Day))?;
    let records = tree.look(names.at(Place::Records))?;
    Ok(is_untouched(file, &verified.file) & is_untouched(records, &verified.records))
}

/// Whether the original was written to since it was verified: it has another size or time.
pub(crate) fn was_written<T: Tree>(
    tree: &mut T,
    names: &DayNames,
    verified: &Verified,
) -> Result<bool, TreeFault>
    ensures { Goes (T.went tree.old) (T.went tree.new) (Acts [] Anything result) }
{
    let original = tree.look(names.at(Place::Original))?;
    Ok(!is_alike(original, &verified.file))
}

/// Whether a file has that size and time.
fn is_alike(now: Option<Facts>, before: &Facts) -> bool {
    match now {
        Some(now) => now.bytes == before.bytes && now.changed == before.changed,
        None => false,
    }
}

/// Whether what has a name is the file that was verified.
fn is_still_at<T: Tree>(
    tree: &mut T,
    names: &DayNames,
    place: Place,
    before: &Facts,
) -> Result<bool, TreeFault>
    ensures { Goes (T.went tree.old) (T.went tree.new) (Acts [] Anything result) }
{
    let now = tree.look(names.at(place))?;
    Ok(is_still(now, before))
}

/// An empty file with the time of now.
fn make_note<T: Tree>(tree: &mut T, names: &DayNames) -> Result<Option<Time>, TreeFault>
    ensures { Goes (T.went tree.old) (T.went tree.new) (Acts (path_at names.now NotePart ∷ []) Anything result) }
{
    let writer = tree.make(names.at(Place::NotePart))?;
    tree.finish(names.at(Place::NotePart), writer)?;
    let noted = tree.look(names.at(Place::NotePart))?;
    Ok(noted.map(|facts| facts.changed))
}

/// It gets its name in ASIDE, on the disk.
fn name_note<T: Tree>(tree: &mut T, names: &DayNames) -> Result<(), TreeFault>
    ensures { Goes (T.went tree.old) (T.went tree.new)
        (Acts (path_at names.now Note ∷ path_at names.now NotePart ∷ []) Anything result) }
{
    tree.store_file(names.at(Place::NotePart))?;
    tree.rename(names.at(Place::NotePart), names.at(Place::Note))?;
    tree.store_folder(names.folder(Place::Note))
}

/// The time that the records get: that of now, which is noted, or that of the file, and no older note stays.
fn time_for<T: Tree>(
    tree: &mut T,
    names: &DayNames,
    verified: &Verified,
) -> Result<Option<Time>, TreeFault>
    ensures { Goes (T.went tree.old) (T.went tree.new)
        (Acts (path_at names.now Note ∷ path_at names.now NotePart ∷ []) Anything result) }
{
    if !verified.touch {
        tree.remove(names.at(Place::Note))?;
        return Ok(Some(verified.file.changed));
    }
    let time = make_note(tree, names)?;
    name_note(tree, names)?;
    Ok(time)
}

/// Gives the records beside the day's name its file's owner, group and mode, and this time; they may not be had.
fn is_dressed<T: Tree>(
    tree: &mut T,
    names: &DayNames,
    verified: &Verified,
    time: Option<Time>,
) -> Result<bool, TreeFault>
    ensures { Goes (T.went tree.old) (T.went tree.new) (Acts [] Anything result) }
{
    match tree.dress(names.at(Place::DayPart), &verified.file, time) {
        Ok(()) => Ok(true),
        Err(TreeFault::Failed) => Ok(false),
        Err(TreeFault::Memory) => Err(TreeFault::Memory),
    }
}

/// The records beside the day's name are dressed as its file, and on the disk, or they cannot be.
fn dress_records<T: Tree>(
    tree: &mut T,
    names: &DayNames,
    verified: &Verified,
) -> Result<bool, TreeFault>
    requires { AreNames names.now }
    ensures { Goes (T.went tree.old) (T.went tree.new)
        (Acts (path_at names.now Note ∷ path_at names.now NotePart ∷ [])
        (PreparesIf (path_at names.now DayPart) (path_at names.now DayPart)) result) }
{
    let time = time_for(tree, names, verified)?;
    if !is_dressed(tree, names, verified, time)? {
        return Ok(false);
    }
    tree.store_file(names.at(Place::DayPart))?;
    Ok(true)
}

/// The records stand beside the day's name too, if they are those that were verified. They may be one file under two
/// names, so this is looked at before they are dressed.
fn copy_records<T: Tree>(
    tree: &mut T,
    names: &DayNames,
    verified: &Verified,
) -> Result<bool, TreeFault>
    ensures { Goes (T.went tree.old) (T.went tree.new) (Acts (path_at names.now DayPart ∷ [])
        (ShowsIf (path_at names.now Records) (path_at names.now DayPart)) result) }
{
    tree.copy(names.at(Place::Records), names.at(Place::DayPart))?;
    is_still_at(tree, names, Place::Records, &verified.records)
}

/// The records are ready, and the day's file is the one that was verified; or why not.
fn dress_checked<T: Tree>(
    tree: &mut T,
    names: &DayNames,
    verified: &Verified,
) -> Result<Option<GivenUp>, TreeFault>
    requires { AreNames names.now }
    ensures { Goes (T.went tree.old) (T.went tree.new)
        (Acts (path_at names.now Note ∷ path_at names.now NotePart ∷ [])
        (PreparesIfNone (path_at names.now DayPart) (path_at names.now DayPart)) result) }
{
    if !dress_records(tree, names, verified)? {
        return Ok(Some(GivenUp::Undressed));
    }
    if !is_still_at(tree, names, Place::Day, &verified.file)? {
        return Ok(Some(GivenUp::Changed));
    }
    Ok(None)
}

/// The records are ready to take the place of the day's file, and both are those that were verified; or why not.
pub(crate) fn prepare_records<T: Tree>(
    tree: &mut T,
    names: &DayNames,
    verified: &Verified,
) -> Result<Option<GivenUp>, TreeFault>
    requires { AreNames names.now }
    ensures { Goes (T.went tree.old) (T.went tree.new)
        (Acts (path_at names.now DayPart ∷ path_at names.now Note ∷ path_at names.now NotePart ∷ [])
        (PreparesIfNone (path_at names.now Records) (path_at names.now DayPart)) result) }
{
    if !copy_records(tree, names, verified)? {
        return Ok(Some(GivenUp::Changed));
    }
    dress_checked(tree, names, verified)
}

/// The original in ASIDE goes, and the time that was noted of its records.
pub(crate) fn forget<T: Tree>(tree: &mut T, names: &DayNames) -> Result<(), TreeFault>
    ensures { Goes (T.went tree.old) (T.went tree.new)
        (Acts (path_at names.now Note ∷ path_at names.now Original ∷ []) Anything result) }
{
    tree.remove(names.at(Place::Note))?;
    tree.remove(names.at(Place::Original))
}

/// What was made of a day goes whose original has its place.
pub(crate) fn leave<T: Tree>(tree: &mut T, names: &DayNames) -> Result<(), TreeFault>
    ensures { Goes (T.went tree.old) (T.went tree.new)
        (Acts (path_at names.now DayPart ∷ path_at names.now Note ∷ path_at names.now Original ∷ []) Anything result) }
{
    tree.remove(names.at(Place::DayPart))?;
    forget(tree, names)
}

/// The original is ready to take the place of the records in ROOT, or cannot be as it was.
pub(crate) fn prepare_original<T: Tree>(
    tree: &mut T,
    names: &DayNames,
) -> Result<Option<Hindrance>, TreeFault>
    ensures { Goes (T.went tree.old) (T.went tree.new) (Acts (path_at names.now DayPart ∷ [])
        (PreparesIfNone (path_at names.now Original) (path_at names.now DayPart)) result) }
{
    copy_stored(tree, names, Place::Original, Place::DayPart)?;
    if look_alike(tree, names, Place::Original, Place::DayPart, Dress::Same)? {
        return Ok(None);
    }
    tree.remove(names.at(Place::DayPart))?;
    Ok(Some(Hindrance::Dress))
}

/// Whether the records in ROOT have another time than they were given: that of the original, or the one that was noted.
pub(crate) fn was_touched<T: Tree>(tree: &mut T, names: &DayNames) -> Result<bool, TreeFault>
    ensures { Goes (T.went tree.old) (T.went tree.new) (Acts [] Anything result) }
{
    let given = time_given(tree, names)?;
    let day = tree.look(names.at(Place::Day))?;
    Ok(!has_time(day, given))
}

fn time_given<T: Tree>(tree: &mut T, names: &DayNames) -> Result<Option<Facts>, TreeFault>
    ensures { Goes (T.went tree.old) (T.went tree.new) (Acts [] Anything result) }
{
    if let Some(note) = tree.look(names.at(Place::Note))? {
        return Ok(Some(note));
    }
    tree.look(names.at(Place::Original))
}

fn has_time(now: Option<Facts>, given: Option<Facts>) -> bool {
    match (now, given) {
        (Some(now), Some(given)) => now.changed == given.changed,
        _ => false,
    }
}
