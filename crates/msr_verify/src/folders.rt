//! The walk through the folders of an archive, and then through those of its records.
ghost use Rattle.std.specs.Prelude.{◌↔◌, IfErr, IfOk, IsErrOf, OnOk};
ghost use Rattle.msr_devices.specs.Device.{CanCountCall, HasFailed};
ghost use Rattle.msr_folders.specs.Entries.{AreEntriesOf};
ghost use Rattle.msr_folders.specs.Walks.{TellsWalk};
ghost use Rattle.msr_tree.specs.Calls.{Goes};
ghost use Rattle.msr_tree.specs.Reads.{OnlyReads};
ghost use Rattle.msr_verify.specs.Files.{IsToldOfOut, IsToldOfRoot, names_asked};
ghost use Rattle.msr_verify.specs.Walk.{StopsTellingJudged, TellsArchive, TellsEntries, Verifies, VerifiesTree};

use crate::tally::VerifyTally;
use crate::visitors::{Judging, Searching};
use msr_devices::{DeviceFault, Sink};
use msr_folders::{EntryWalk, WalkFound, visit_entries};
use msr_options::Verifying;
use msr_tool::ToolFault;
use msr_tree::Tree;
use std::alloc::Global;

/// Tells of each entry of the archive.
fn walk_archive<'a, T: Tree, O: Sink>(
    tree: &mut T,
    alloc: Global,
    archive: &'a Verifying<'a>,
    out: &mut O,
    tally: &mut VerifyTally,
) -> Result<(), DeviceFault>
    requires { CanCountCall (O.device out.old) }
    ensures told { OnOk result (TellsWalk (TellsEntries archive.now)
        (IsToldOfRoot archive.now.known (names_asked archive.now.names) archive.now.folders.root.now archive.now.folders.out.now archive.now.folders.reports.now) OnlyReads OnlyReads (Unit {0})
        archive.now.folders.root.now (λ past new. AreEntriesOf past archive.now.folders.root.now archive.now.below.items)
        (T.went tree.old) (T.went tree.new) (O.device out.old) (O.device out.new) tally.old tally.new) }
    ensures stops { IfErr result (StopsTellingJudged archive.now (O.device out.old) (O.device out.new)) }
    ensures reads { Goes (T.went tree.old) (T.went tree.new) OnlyReads }
{
    let walk = EntryWalk {
        alloc,
        root: archive.folders.root,
        below: archive.below.as_slice(),
        visitor: &Judging { alloc, archive },
    };
    visit_entries(&walk, tree, out, tally)
}

/// Tells of the days of the records that the archive does not have.
fn walk_records<'a, T: Tree, O: Sink>(
    tree: &mut T,
    alloc: Global,
    archive: &'a Verifying<'a>,
    out: &mut O,
    tally: &mut VerifyTally,
) -> Result<(), DeviceFault>
    requires { CanCountCall (O.device out.old) }
    ensures told { OnOk result (TellsWalk (TellsEntries archive.now)
        (IsToldOfOut archive.now.known archive.now.folders.root.now archive.now.folders.out.now) OnlyReads OnlyReads (Unit {0})
        archive.now.folders.out.now (λ past new. AreEntriesOf past archive.now.folders.out.now archive.now.below.items)
        (T.went tree.old) (T.went tree.new) (O.device out.old) (O.device out.new) tally.old tally.new) }
    ensures stops { IfErr result (StopsTellingJudged archive.now (O.device out.old) (O.device out.new)) }
    ensures reads { Goes (T.went tree.old) (T.went tree.new) OnlyReads }
{
    let walk = EntryWalk {
        alloc,
        root: archive.folders.out,
        below: archive.below.as_slice(),
        visitor: &Searching { alloc, archive },
    };
    visit_entries(&walk, tree, out, tally)
}

/// Tells of the archive, and then of its records.
fn walk_both<'a, T: Tree, O: Sink>(
    tree: &mut T,
    alloc: Global,
    archive: &'a Verifying<'a>,
    out: &mut O,
    tally: &mut VerifyTally,
) -> Result<(), DeviceFault>
    requires { CanCountCall (O.device out.old) }
    ensures told { OnOk result (TellsArchive archive.now (T.went tree.old) (T.went tree.new)
        (O.device out.old) (O.device out.new) tally.old tally.new) }
    ensures stops { IfErr result (StopsTellingJudged archive.now (O.device out.old) (O.device out.new)) }
    ensures reads { Goes (T.went tree.old) (T.went tree.new) OnlyReads }
{
    walk_archive(tree, alloc, archive, out, tally)?;
    walk_records(tree, alloc, archive, out, tally)
}

/// Walks the archive, or the folders of it that are asked for, and then the same folders of its records, and tells
/// whether there is anything but days that are verified and what is skipped or known, and whether there is a day.
pub fn verify<'a, T: Tree, O: Sink>(
    tree: &mut T,
    alloc: Global,
    archive: &'a Verifying<'a>,
    out: &mut O,
) -> Result<WalkFound, ToolFault>
    requires { CanCountCall (O.device out.old) }
    ensures answer { Verifies archive.now (O.device out.old) (O.device out.new) result }

    // A failure of the sink is answered as such, and nothing else is.
    ensures write { IsErrOf result ToolFault.Write ↔ HasFailed (O.device out.old) (O.device out.new) }

    // What is told is so of what the names lead to, and of each entry.
    ensures tree { IfOk result (VerifiesTree archive.now (T.went tree.old) (T.went tree.new)
        (O.device out.old) (O.device out.new)) }

    // Nothing is changed.
    ensures reads { Goes (T.went tree.old) (T.went tree.new) OnlyReads }
{
    let mut tally = VerifyTally::new();
    walk_both(tree, alloc, archive, out, &mut tally)?;
    tally.write(alloc, archive, out)?;
    let well = tally.verified.saturating_add(tally.known);
    Ok(WalkFound::of(tally.unverified, well))
}
