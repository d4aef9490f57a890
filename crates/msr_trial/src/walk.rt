//! The walk through the folders of an archive.
ghost use Rattle.std.specs.Prelude.{◌≢◌, ◌↔◌, ◌∷◌, [], IfErr, IfOk, IsErrOf, OnOk};
ghost use Rattle.msr_devices.specs.Device.{CanCountCall, HasFailed};
ghost use Rattle.msr_folders.proofs.ReadingLemmas.{none_holds, reading_laws};
ghost use Rattle.msr_folders.specs.Entries.{Entry as Found};
ghost use Rattle.msr_folders.specs.Walks.{TellsVisit, VisitDoes};
ghost use Rattle.msr_outcomes.specs.Entries.{Entry, IsTally};
ghost use Rattle.msr_sds.specs.SdsPath.{ReadsAsDay};
ghost use Rattle.msr_tree.specs.Calls.{Goes};
ghost use Rattle.msr_tree.specs.Reads.{OnlyReads};
ghost use Rattle.msr_tree.specs.declared.kind.FileKind.{FileKind};
ghost use Rattle.msr_tree.specs.declared.kind.FileKind.TheVariants.{Gone};
ghost use Rattle.msr_trial.specs.Entries.{IsTrialOfVisit, IsTrialEntry, IsTriedAs};
ghost use Rattle.msr_trial.specs.Lines.{IsTrialLine};
ghost use Rattle.msr_trial.specs.Walk.{StopsTrial, TellsTrialOf, TellsTrial, Tries, TriesTree};

use crate::day::try_day;
use crate::line::line_of;
use msr_devices::{DeviceFault, Sink, write_all};
use msr_folders::{EntryVisitor, EntryWalk, WalkFound, join, told_folder, visit_entries};
use msr_making::DayFault;
use msr_options::{Trying, Unopened};
use msr_outcomes::{Outcome, Tally, channel_text, write_sums};
use msr_sds::SdsName;
use msr_tool::ToolFault;
use msr_tree::{FileKind, Time, Tree};
use std::alloc::Global;
use std::io;

/// What a dry run found that came to its end.
#[derive(Clone, Copy)]
pub struct Tried {
    pub found: WalkFound,
    /// What could not be opened of the first day that was refused for that.
    pub unopened: Option<Unopened>,
}

/// Tries each day of the archive.
#[derive(Clone, Copy)]
pub(crate) struct Trier<'a> {
    pub(crate) alloc: Global,
    pub(crate) asked: &'a Trying<'a>,
    /// The time by which it is told how old files are.
    pub(crate) begun: Time,
}

/// Prints the line of an entry, unless it is left out, and counts it. The channel is that of a day, the reason that of the
/// system, if it did not list a folder.
fn tell<O: Sink>(
    trier: &Trier<'_>,
    path: &str,
    channel: &str,
    outcome: Outcome,
    listing: Option<io::Error>,
    out: &mut O,
    tally: &mut Tally,
) -> Result<(), DeviceFault>
    requires { CanCountCall (O.device out.old) }
    ensures told { IsTriedAs trier.now.asked.now.days path.now channel.now outcome →
        OnOk result (TellsTrial trier.now.asked.now.days
        (record { path = path.now; channel = channel.now; outcome = outcome } ∷ [])
        (O.device out.old) (O.device out.new) tally.old tally.new) }
    ensures stops { IsTriedAs trier.now.asked.now.days path.now channel.now outcome →
        IfErr result (StopsTrial trier.now.asked.now.days (O.device out.old) (O.device out.new)) }
{
    let line = line_of(trier.alloc, &trier.asked.days, path, outcome, listing)?;
    write_all(out, line.as_bytes())?;
    tally.add(channel, outcome)?;
    Ok(())
}

impl Trier<'_> {
    /// Tries a day; prints its line and counts it.
    fn visit_day<T: Tree, O: Sink>(
        &self,
        tree: &mut T,
        path: &str,
        name: &SdsName<'_>,
        out: &mut O,
        tally: &mut Tally,
    ) -> Result<(), DeviceFault>
        requires day { ReadsAsDay path.now name.now }
        requires count { CanCountCall (O.device out.old) }
        ensures told { (kind : FileKind) → kind ≢ Gone → OnOk result (TellsVisit (TellsTrial self.now.asked.now.days)
            (IsTrialOfVisit self.now.asked.now.root.now self.now.asked.now.days) OnlyReads (Unit {0}) (Found path.now kind)
            (T.went tree.old) (T.went tree.new) (O.device out.old) (O.device out.new) tally.old tally.new) }
        ensures stops { IfErr result (StopsTrial self.now.asked.now.days (O.device out.old) (O.device out.new)) }
        ensures does { Goes (T.went tree.old) (T.went tree.new) (VisitDoes OnlyReads (Unit {0})) }
    {
        let channel = channel_text(self.alloc, name)?;
        let input = join(self.alloc, self.asked.root, path)?;
        let outcome = try_day(
            tree,
            self.alloc,
            input.as_str(),
            &self.asked.days,
            self.begun,
        )?;
        tell(self, path, channel.as_str(), outcome, None, out, tally)
    }

    /// Handles an entry that is there.
    fn visit_found<T: Tree, O: Sink>(
        &self,
        tree: &mut T,
        path: &str,
        out: &mut O,
        tally: &mut Tally,
    ) -> Result<(), DeviceFault>
        requires { CanCountCall (O.device out.old) }
        ensures told { (kind : FileKind) → kind ≢ Gone → OnOk result (TellsVisit (TellsTrial self.now.asked.now.days)
            (IsTrialOfVisit self.now.asked.now.root.now self.now.asked.now.days) OnlyReads (Unit {0}) (Found path.now kind)
            (T.went tree.old) (T.went tree.new) (O.device out.old) (O.device out.new) tally.old tally.new) }
        ensures stops { IfErr result (StopsTrial self.now.asked.now.days (O.device out.old) (O.device out.new)) }
        ensures does { Goes (T.went tree.old) (T.went tree.new) (VisitDoes OnlyReads (Unit {0})) }
    {
        match SdsName::parse(path) {
            Ok(name) => self.visit_day(tree, path, &name, out, tally),
            Err(fault) => tell(self, path, "", Outcome::Skipped(fault), None, out, tally),
        }
    }
}

impl EntryVisitor for Trier<'_> {
    type Tally = Tally;

    type Folder = ();

    ghost Line = { Entry };

    ghost tells = { λ trier. TellsTrial trier.asked.now.days };

    ghost stops = { λ trier. StopsTrial trier.asked.now.days };

    ghost says = { λ trier. IsTrialOfVisit trier.asked.now.root.now trier.asked.now.days };

    ghost does = { λ _ _. OnlyReads };

    ghost between = { λ _. OnlyReads };

    ghost holds = { λ _ _ _. Unit {0} };

    ghost listless = { λ _. Unit {0} };

    ghost root = { λ trier. trier.asked.now.root.now };

    ghost laws = { reading_laws (λ trier. IsTrialEntry trier.asked.now.days) (λ trier. IsTrialLine trier.asked.now.days) IsTally };

    ghost listed = { none_holds };

    fn enter_folder<T: Tree, O: Sink>(
        &self,
        _tree: &mut T,
        _folder: &str,
        _levels: u8,
        _out: &mut O,
        _tally: &mut Tally,
    ) -> Result<Option<()>, DeviceFault> {
        Ok(Some(()))
    }

    fn visit_entry<T: Tree, O: Sink>(
        &self,
        tree: &mut T,
        _entered: &(),
        path: &str,
        kind: FileKind,
        out: &mut O,
        tally: &mut Tally,
    ) -> Result<(), DeviceFault> {
        match kind {
            FileKind::Gone => {
                let gone = Outcome::Refused(DayFault::Gone);
                tell(self, path, "", gone, None, out, tally)
            }
            _ => self.visit_found(tree, path, out, tally),
        }
    }

    fn visit_unlisted<T: Tree, O: Sink>(
        &self,
        tree: &mut T,
        folder: &str,
        _place: &str,
        out: &mut O,
        tally: &mut Tally,
    ) -> Result<(), DeviceFault> {
        let refused = Outcome::Refused(DayFault::Listing);
        let reason = tree.reason();
        tell(self, told_folder(folder), "", refused, reason, out, tally)
    }

    fn leave_folder<T: Tree, O: Sink>(
        &self,
        _tree: &mut T,
        _folder: &str,
        _levels: u8,
        _out: &mut O,
        _tally: &mut Tally,
    ) -> Result<(), DeviceFault> {
        Ok(())
    }
}

/// Tells of each entry of the archive.
fn visit_archive<T: Tree, O: Sink>(
    tree: &mut T,
    trier: &Trier<'_>,
    out: &mut O,
    tally: &mut Tally,
) -> Result<(), DeviceFault>
    requires { CanCountCall (O.device out.old) }
    ensures told { OnOk result (TellsTrialOf trier.now.asked.now (T.went tree.old) (T.went tree.new)
        (O.device out.old) (O.device out.new) tally.old tally.new) }
    ensures stops { IfErr result (StopsTrial trier.now.asked.now.days (O.device out.old) (O.device out.new)) }
    ensures reads { Goes (T.went tree.old) (T.went tree.new) OnlyReads }
{
    let walk = EntryWalk {
        alloc: trier.alloc,
        root: trier.asked.root,
        below: trier.asked.below.as_slice(),
        visitor: trier,
    };
    visit_entries(&walk, tree, out, tally)
}

/// Walks the archive, or the folders of it that are asked for, and tells what repacking each day would give, whether an entry
/// was refused, whether there was a day, and what of the first one could not be opened. By the time of now it is told how
/// old files are.
pub fn trial<'a, T: Tree, O: Sink>(
    tree: &mut T,
    alloc: Global,
    asked: &'a Trying<'a>,
    now: Time,
    out: &mut O,
) -> Result<Tried, ToolFault>
    requires { CanCountCall (O.device out.old) }
    ensures answer { Tries asked.now.days (O.device out.old) (O.device out.new) result }

    // A failure of the sink is answered as such, and nothing else is.
    ensures write { IsErrOf result ToolFault.Write ↔ HasFailed (O.device out.old) (O.device out.new) }

    // What is told is so of what the names lead to, and of each entry.
    ensures tree { IfOk result (TriesTree asked.now (T.went tree.old) (T.went tree.new)
        (O.device out.old) (O.device out.new)) }

    // Nothing is changed.
    ensures reads { Goes (T.went tree.old) (T.went tree.new) OnlyReads }
{
    let mut tally = Tally::new(alloc);
    let trier = Trier {
        alloc,
        asked,
        begun: now,
    };
    visit_archive(tree, &trier, out, &mut tally)?;
    write_sums(alloc, out, &asked.days, false, &tally)?;
    Ok(Tried {
        found: WalkFound::of(tally.refused, tally.done.saturating_add(tally.young)),
        unopened: tally.unopened,
    })
}
