//! What was written of a day is read again.
ghost use Rattle.std.specs.Prelude.{◌≡◌, [], IfErr, IfOk, IsTrue, false};
ghost use Rattle.msr_devices.specs.Device.{CanCountCall};
ghost use Rattle.msr_tree.specs.Folders.{ActsOnFiles, ChangesFiles};
ghost use Rattle.msr_options.specs.declared.hint.Side.TheVariants.{File};
ghost use Rattle.msr_tree.specs.Calls.{Goes, Opens, Tells};
ghost use Rattle.msr_making.specs.Parts.{IsUnopened, called_told};
ghost use Rattle.msr_making.specs.Verifying.{IsSaidAgain, OpensAt, VerifiesAsked, VerifiesParts, WasVerifiedAs};

use crate::answer::{DayFault, Stop};
use crate::looks::{Sight, look_at};
use crate::parts::called;
use crate::repacking::require_verified;
use msr_naming::{DayFiles, Stamp};
use msr_options::{DayOptions, Options, Side};
use msr_tree::{Facts, Tree};
use std::alloc::{AllocError, Global};

/// Opens a file of a day, links followed.
pub(crate) fn open_again<T: Tree>(tree: &mut T, side: Side, path: &str) -> Result<T::Reader, Stop>
    ensures count { IfOk result (λ reader. CanCountCall (T.Reader.device reader)) }
    ensures refuses { IfErr result (IsUnopened side) }
    ensures goes { Goes (T.went tree.old) (T.went tree.new)
        (ActsOnFiles [] (OpensAt path.now (λ reader. T.Reader.device reader)) (called_told result)) }
{
    let opened = tree.follow(path);
    let why = tree.reason();
    called(side, opened, why)
}

/// Opens the day's own file, of which a look told.
pub(crate) fn open_own<T: Tree>(tree: &mut T, input: &str, facts: &Facts) -> Result<T::Reader, Stop>
    ensures count { IfOk result (λ reader. CanCountCall (T.Reader.device reader)) }
    ensures refuses { IfErr result (IsUnopened File) }
    ensures goes { Goes (T.went tree.old) (T.went tree.new)
        (Tells (λ past reader. Opens input.now past (T.Reader.device reader)) (called_told result)) }
{
    let opened = tree.open_found(input, facts);
    let why = tree.reason();
    called(Side::File, opened, why)
}

/// Opens the day's own file, by what a look told of it before the day was repacked.
fn open_own_again<T: Tree>(tree: &mut T, input: &str, sight: Sight) -> Result<T::Reader, Stop>
    ensures count { IfOk result (λ reader. CanCountCall (T.Reader.device reader)) }
    ensures refuses { IfErr result (IsUnopened File) }
    ensures goes { Goes (T.went tree.old) (T.went tree.new)
        (ActsOnFiles [] (OpensAt input.now (λ reader. T.Reader.device reader)) (called_told result)) }
{
    match sight {
        Sight::Found(facts) => open_own(tree, input, &facts),
        Sight::Nothing | Sight::Unknown => open_again(tree, Side::File, input),
    }
}

/// Reads the records and the report again that were written, and the day's own file, and holds the records against the other
/// two.
fn verify_parts<T: Tree>(
    tree: &mut T,
    alloc: Global,
    input: &str,
    sight: Sight,
    files: &DayFiles,
    options: Options,
) -> Result<(), Stop>
    ensures told { WasVerifiedAs options result }
    ensures goes { Goes (T.went tree.old) (T.went tree.new) (VerifiesParts input.now files.now options result) }
{
    let mut records = open_again(tree, Side::Records, files.records.part.as_str())?;
    let mut report = open_again(tree, Side::Report, files.report.part.as_str())?;
    let mut own = open_own_again(tree, input, sight)?;
    match require_verified(alloc, &mut own, &mut records, &mut report, options) {
        Ok(()) => Ok(()),
        Err(fault) => Err(Stop::Refused(fault)),
    }
}

/// Whether a look tells another size or time than that one of a day's own file, or no file any more.
fn was_changed<T: Tree>(tree: &mut T, input: &str, sight: Sight) -> Result<bool, AllocError>
    ensures { Goes (T.went tree.old) (T.went tree.new) (ChangesFiles []) }
{
    let Some(facts) = sight.regular() else {
        return Ok(false);
    };
    match look_at(tree, input)? {
        Sight::Found(found) => Ok(Stamp::of(&found) != Stamp::of(&facts)),
        Sight::Nothing => Ok(true),
        Sight::Unknown => Ok(false),
    }
}

/// What is told of a day whose records differ from its file: that this was changed since that look, if it was.
fn told_again<T: Tree>(
    tree: &mut T,
    input: &str,
    sight: Sight,
    said: Result<(), Stop>,
) -> Result<(), Stop>
    ensures said { IsSaidAgain said result }
    ensures goes { Goes (T.went tree.old) (T.went tree.new) (ChangesFiles []) }
{
    match said {
        Err(Stop::Refused(DayFault::Differs)) => match was_changed(tree, input, sight) {
            Ok(true) => Err(Stop::Refused(DayFault::Changed)),
            Ok(false) => Err(Stop::Refused(DayFault::Differs)),
            Err(_) => Err(Stop::Memory),
        },
        _ => said,
    }
}

/// The same, if that is asked for. The look was before the day was repacked.
pub(crate) fn verify_asked<T: Tree>(
    tree: &mut T,
    alloc: Global,
    input: &str,
    sight: Sight,
    files: &DayFiles,
    asked: &DayOptions,
) -> Result<(), Stop>
    ensures told { IsTrue asked.now.check → WasVerifiedAs asked.now.options result }
    ensures unasked { asked.now.check ≡ false → result ≡ Ok tt }
    ensures goes { Goes (T.went tree.old) (T.went tree.new) (VerifiesAsked input.now files.now asked.now result) }
{
    if !asked.check {
        return Ok(());
    }
    let said = verify_parts(tree, alloc, input, sight, files, asked.options);
    told_again(tree, input, sight, said)
}
