//! A day that this walk has: what becomes of it.
ghost use Rattle.std.specs.Prelude.{IfOk};
ghost use Rattle.msr_tree.specs.Calls.{Goes};
ghost use Rattle.msr_making.specs.Day.{IsDayOutcome};
ghost use Rattle.msr_making.specs.Ending.{DoesFound, IsNamedAs, IsRepackedAs, MakesDay, PreparesDay, SeeksDay, WasFound};
ghost use Rattle.msr_making.specs.Making.{DoesDay};
ghost use Rattle.msr_making.specs.Parts.{IsMadeSide};
ghost use Rattle.msr_making.specs.Places.{paths_at};

use crate::answer::{DayEnd, DayFault, DayOutcome, Left, Repacked, Stop};
use crate::clearing::give_up;
use crate::hold::Hold;
use crate::kept::kept;
use crate::looks::{DayLook, is_shared, look_at_day};
use crate::places::{Places, places_of};
use crate::shrinking::write_held;
use crate::stamping::stamp_asked;
use crate::verifying::verify_asked;
use msr_naming::{Act, DayFiles, Name, Naming, name_files};
use msr_options::{DayOptions, Side, Unopened};
use msr_tree::{Tree, TreeFault};
use std::alloc::{AllocError, Global};

/// What was found of a day.
#[derive(Clone, Copy)]
pub(crate) enum Found {
    /// It is left as it is.
    Ended(DayOutcome),
    /// It is to be made.
    Open(DayLook),
}

/// What was made of a day.
#[derive(Clone, Copy)]
pub(crate) struct Making {
    pub(crate) result: Result<Repacked, Stop>,
    /// Whether each folder was stored that was to be.
    pub(crate) is_stored: bool,
}

/// Looks at a day. If its own file may be one of those that are made, it is refused; and it is left alone if an earlier walk
/// did it, and that is asked for.
fn find_day<T: Tree>(
    tree: &mut T,
    alloc: Global,
    places: Places<'_>,
    asked: &DayOptions,
) -> Result<Found, AllocError>
    ensures told { IfOk result (WasFound asked.now) }
    ensures goes { Goes (T.went tree.old) (T.went tree.new) (SeeksDay (paths_at places.entry) asked.now result) }
{
    let look = look_at_day(tree, places)?;
    let refusal = Found::Ended(DayOutcome::Refused(DayFault::CannotOpen(Unopened::OUTPUTS)));
    if look.is_uncertain() {
        return Ok(refusal);
    }
    if is_shared(tree, places, &look)? {
        return Ok(refusal);
    }
    if !asked.resume {
        return Ok(Found::Open(look));
    }
    match kept(tree, alloc, places, &look, asked)? {
        Some(repacked) => Ok(Found::Ended(DayOutcome::Same(repacked))),
        None => Ok(Found::Open(look)),
    }
}

/// Writes what is made of a day beside its names, and verifies it if that is asked for.
fn prepare_day<T: Tree, H: Hold>(
    tree: &mut T,
    alloc: Global,
    input: &str,
    look: &DayLook,
    files: &DayFiles,
    hold: &mut H,
    asked: &DayOptions,
) -> Result<Repacked, Stop>
    ensures told { IsRepackedAs asked.now result }
    ensures goes { Goes (T.went tree.old) (T.went tree.new) (PreparesDay input.now look.now files.now asked.now result) }
{
    let repacked = write_held(tree, alloc, input, look, files, hold, asked)?;
    match verify_asked(tree, alloc, input, look.input, files, asked) {
        Ok(()) => {}
        Err(stop) => return Err(stop),
    }
    if !hold.is_held() {
        return Err(Stop::Refused(DayFault::ClaimedByAnother));
    }
    Ok(repacked)
}

/// What is told where the names were given, or not.
fn named<T: Tree>(tree: &T, naming: Naming, repacked: Repacked) -> Result<Repacked, Stop>
    ensures { IsNamedAs naming repacked result }
{
    match naming.answer {
        Ok(()) => Ok(repacked),
        Err(stopped) => match stopped.fault {
            TreeFault::Failed => Err(Stop::Refused(DayFault::CannotOpen(Unopened {
                side: side_of(stopped.act),
                why: tree.reason(),
            }))),
            TreeFault::Memory => Err(Stop::Memory),
        },
    }
}

/// Of which file something could not be done.
fn side_of(act: Act) -> Side
    ensures { IsMadeSide result }
{
    match act {
        Act::Remove(name) | Act::Store(name) | Act::Rename(_, name) => match name {
            Name::Records | Name::RecordsPart => Side::Records,
            Name::Report | Name::ReportPart | Name::Stamp | Name::StampPart => Side::Report,
        },
    }
}

/// Makes the records and the report of a day, and gives them their names.
fn make_day<T: Tree, H: Hold>(
    tree: &mut T,
    alloc: Global,
    input: &str,
    look: &DayLook,
    files: &DayFiles,
    hold: &mut H,
    is_free: bool,
    asked: &DayOptions,
) -> Making
    ensures told { IsRepackedAs asked.now result.result }
    ensures goes { Goes (T.went tree.old) (T.went tree.new) (MakesDay input.now look.now files.now is_free asked.now result) }
{
    match prepare_day(tree, alloc, input, look, files, hold, asked) {
        Ok(repacked) => {
            let naming = name_files(tree, files, is_free);
            Making {
                result: named(tree, naming, repacked),
                is_stored: naming.is_stored,
            }
        }
        Err(stop) => Making {
            result: Err(stop),
            is_stored: true,
        },
    }
}

/// Does a day of which a look told.
fn do_found<T: Tree, H: Hold>(
    tree: &mut T,
    alloc: Global,
    input: &str,
    look: &DayLook,
    files: &DayFiles,
    hold: &mut H,
    was_left: bool,
    asked: &DayOptions,
) -> DayEnd
    ensures told { IfOk result.outcome (IsDayOutcome asked.now) }
    ensures goes { Goes (T.went tree.old) (T.went tree.new) (DoesFound input.now look.now files.now was_left asked.now result) }
{
    let is_free = look.is_untouched(was_left);
    let making = make_day(tree, alloc, input, look, files, hold, is_free, asked);
    match making.result {
        Ok(repacked) => DayEnd {
            outcome: Ok(DayOutcome::Done(repacked)),
            left: stamp_asked(
                tree,
                alloc,
                input,
                look.input,
                files,
                making.is_stored,
                asked,
            ),
            is_stored: making.is_stored,
        },
        Err(stop) => match stop {
            Stop::Refused(why) => {
                let end = give_up(tree, input, files, &*hold, was_left, asked, why);
                DayEnd {
                    outcome: end.outcome,
                    left: end.left,
                    is_stored: end.is_stored & making.is_stored,
                }
            }
            Stop::Memory => DayEnd {
                outcome: Err(AllocError),
                left: Left::Parts,
                is_stored: making.is_stored,
            },
        },
    }
}

/// Does a day that this walk has: leaves it alone if an earlier walk did it and that is asked for, or repacks it. If it is
/// refused or not to be kept, no records and no report of it are left, unless those of an earlier walk are to stay, or its own
/// file may be one of those: then nothing is touched.
pub fn do_day<T: Tree, H: Hold>(
    tree: &mut T,
    alloc: Global,
    input: &str,
    files: &DayFiles,
    hold: &mut H,
    was_left: bool,
    asked: &DayOptions,
) -> DayEnd
    ensures told { IfOk result.outcome (IsDayOutcome asked.now) }
    ensures goes { Goes (T.went tree.old) (T.went tree.new) (DoesDay input.now files.now was_left asked.now result) }
{
    match find_day(tree, alloc, places_of(input, files), asked) {
        Ok(Found::Ended(outcome)) => DayEnd {
            outcome: Ok(outcome),
            left: Left::of_ended(outcome, was_left),
            is_stored: true,
        },
        Ok(Found::Open(look)) => {
            do_found(tree, alloc, input, &look, files, hold, was_left, asked)
        }
        Err(_) => DayEnd {
            outcome: Err(AllocError),
            left: Left::of_untouched(was_left),
            is_stored: true,
        },
    }
}
