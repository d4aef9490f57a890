//! What an earlier walk left of a day.
ghost use Rattle.std.specs.Prelude.{◌≡◌, IfOk, IfSome, true};
ghost use Rattle.msr_tree.specs.Calls.{Goes};
ghost use Rattle.msr_naming.specs.Stamp.{stamp_text};
ghost use Rattle.msr_making.specs.Day.{IsKeptEither, IsReportKept, IsSame};
ghost use Rattle.msr_making.specs.Keeping.{AsksForKept, AsksForReport, AsksForText, IsKeptBy, stamped_by};
ghost use Rattle.msr_making.specs.Making.{LooksForSame};
ghost use Rattle.msr_making.specs.Places.{paths_at};

use crate::answer::Repacked;
use crate::hold::Hold;
use crate::looks::{DayLook, Sight, is_shared, look_at, look_beside};
use crate::places::Places;
use crate::repacking::counts_kept;
use msr_naming::{Stamp, StampOf, gives_text};
use msr_options::DayOptions;
use msr_tree::{Facts, Kind, Tree, TreeFault};
use std::alloc::{AllocError, Global};

/// Whether what was found under a name is a stamp, and nothing else.
fn has_stamp<T: Tree>(
    tree: &mut T,
    alloc: Global,
    path: &str,
    facts: &Facts,
    of: StampOf,
    stamp: Stamp,
) -> Result<bool, AllocError>
    ensures { Goes (T.went tree.old) (T.went tree.new) (AsksForText path.now (stamp_text of stamp) result) }
{
    let text = stamp.text(alloc, of)?;
    if facts.bytes != text.len() as u64 {
        return Ok(false);
    }
    match tree.open_found(path, facts) {
        Ok(mut source) => Ok(gives_text(&mut source, text.as_bytes())),
        Err(TreeFault::Failed) => Ok(false),
        Err(TreeFault::Memory) => Err(AllocError),
    }
}

/// The counts of the report that was found under a name, if it is one of these options.
fn kept_counts<T: Tree>(
    tree: &mut T,
    alloc: Global,
    path: &str,
    facts: &Facts,
    asked: &DayOptions,
    bytes_read: u64,
) -> Result<Option<Repacked>, AllocError>
    ensures told { IfOk result (λ found. IfSome found (IsReportKept asked.now)) }
    ensures goes { Goes (T.went tree.old) (T.went tree.new) (AsksForReport path.now asked.now bytes_read result) }
{
    match tree.open_found(path, facts) {
        Ok(mut source) => Ok(counts_kept(alloc, &mut source, asked, bytes_read)),
        Err(TreeFault::Failed) => Ok(None),
        Err(TreeFault::Memory) => Err(AllocError),
    }
}

/// Which file the stamp of a day is of, by what was found of its records.
fn stamped_by(records: Sight) -> StampOf
    ensures { result ≡ stamped_by records }
{
    match records {
        Sight::Nothing => StampOf::Records,
        Sight::Found(_) | Sight::Unknown => StampOf::Input,
    }
}

/// What is kept of a day, if it is whole, was made with these options, and from the input as it is; or the input is what was
/// made.
pub(crate) fn kept<T: Tree>(
    tree: &mut T,
    alloc: Global,
    places: Places<'_>,
    look: &DayLook,
    asked: &DayOptions,
) -> Result<Option<Repacked>, AllocError>
    ensures told { IfOk result (λ found. IfSome found (IsKeptEither asked.now)) }
    ensures goes { Goes (T.went tree.old) (T.went tree.new) (AsksForKept (paths_at places.entry) look.now asked.now result) }
{
    let Some(facts) = look.regular() else {
        return Ok(None);
    };
    let of = stamped_by(look.records);
    let stamp = Stamp::of(&facts.input);
    let is_stamped = has_stamp(tree, alloc, places.stamp, &facts.stamp, of, stamp)?;
    if !is_stamped {
        return Ok(None);
    }
    let bytes = facts.input.bytes;
    let found = kept_counts(tree, alloc, places.report, &facts.report, asked, bytes)?;
    let Some(repacked) = found else {
        return Ok(None);
    };
    if !is_kept(asked, repacked, look.records) {
        return Ok(None);
    }
    Ok(Some(repacked))
}

/// Whether as many bytes of records are kept, and if that is asked for, they are fewer than were read; or they are what was
/// read.
fn is_kept(asked: &DayOptions, repacked: Repacked, records: Sight) -> bool
    ensures { result ≡ true → IsKeptBy asked.now repacked records }
{
    match records {
        Sight::Found(facts) => {
            facts.kind == Kind::Regular
                && facts.bytes == repacked.bytes_written
                && (!asked.only_smaller || repacked.bytes_written < repacked.bytes_read)
        }
        Sight::Nothing => repacked.bytes_written == repacked.bytes_read,
        Sight::Unknown => false,
    }
}

/// The same as is kept of a day that nobody has claimed, if that is asked for and no walk has the day or left something.
pub fn same_day<T: Tree, H: Hold>(
    tree: &mut T,
    alloc: Global,
    places: Places<'_>,
    hold: &H,
    asked: &DayOptions,
) -> Result<Option<Repacked>, AllocError>
    ensures told { IfOk result (λ found. IfSome found (IsSame asked.now)) }
    ensures goes { Goes (T.went tree.old) (T.went tree.new) (LooksForSame (paths_at places.entry) asked.now result) }
{
    if !asked.resume {
        return Ok(None);
    }
    let stamp = look_at(tree, places.stamp)?;
    if stamp.regular().is_none() {
        return Ok(None);
    }
    let look = look_beside(tree, places, stamp)?;
    if look.is_uncertain() {
        return Ok(None);
    }
    if is_shared(tree, places, &look)? {
        return Ok(None);
    }
    if !hold.is_held() {
        return Ok(None);
    }
    kept(tree, alloc, places, &look, asked)
}
