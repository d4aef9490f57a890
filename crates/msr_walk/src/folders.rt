//! The walk through the folders of an archive.
ghost use Rattle.std.specs.Prelude.{◌≡◌, ◌≢◌, ◌↔◌, ◌∷◌, [], false, IfErr, IfOk, IfSome, IsErrOf, OnOk, is_ok, true};
ghost use Rattle.std.specs.String.{string_bytes};
ghost use Rattle.msr_devices.specs.Device.{CanCountCall, HasFailed};
ghost use Rattle.msr_sds.specs.SdsPath.{HasForm, ReadsAsDay};
ghost use Rattle.msr_folders.specs.Entries.{AreEntriesOf, Entry as Found};
ghost use Rattle.msr_folders.specs.Within.{ChangesWithin};
ghost use Rattle.msr_folders.specs.Days.{IsDay};
ghost use Rattle.msr_folders.specs.Walks.{HoldsAt, TellsVisit, TellsWalk as TellsVisits};
ghost use Rattle.msr_options.specs.Tasks.{StandApart};
ghost use Rattle.msr_making.specs.Day.{AsksForAge};
ghost use Rattle.msr_tree.specs.Calls.{Goes};
ghost use Rattle.msr_tree.specs.Folders.{ChangesFiles};
ghost use Rattle.msr_tree.specs.Steps.{Path};
ghost use Rattle.msr_tree.specs.declared.kind.FileKind.{FileKind};
ghost use Rattle.msr_tree.specs.declared.kind.FileKind.TheVariants.{Gone};
ghost use Rattle.msr_outcomes.specs.Entries.{Entry, IsOutcomeOf, IsTally};
ghost use Rattle.msr_outcomes.specs.Known.{IsEntry, known_as};
ghost use Rattle.msr_walk.specs.Waiting.{AreWaiting, AreWaitingAt, IsNoneWaiting, WaitsAs};
ghost use Rattle.msr_walk.specs.Kills.{KeepsReports};
ghost use Rattle.msr_walk.specs.Laws.{days_laws, waiting_listed};
ghost use Rattle.msr_walk.specs.Losses.{ChangesDays, KeepsDays, RestsDays};
ghost use Rattle.msr_outcomes.specs.Lines.{IsEntryLine};
ghost use Rattle.msr_outcomes.specs.Outcomes.{IsOutcomeOfDay};
ghost use Rattle.msr_folders.specs.Names.{day_name};
ghost use Rattle.msr_options.specs.Days.{with_name};
ghost use Rattle.msr_walk.specs.Told.{IsToldOfVisit, RestsWithin, SettlesWaiting, StaysWithin, TellsDay, TellsOutcomesOf, WalksTree, WorksFor};
ghost use Rattle.msr_walk.specs.Walk.{StopsTellingOutcomes, Walks};

use crate::batch::Batch;
use crate::claims::Claims;
use crate::day::{Day, Work};
use crate::walker::Walker;
use msr_devices::{DeviceFault, Sink, write_all};
use msr_folders::{
    EntryVisitor, EntryWalk, WalkFound, join, names_for, told_folder, visit_entries,
};
use msr_making::{DayFault, DayOutcome, day_length, is_young};
use msr_naming::Waiting;
use msr_options::{Archiving, DayOptions, Unopened};
use msr_outcomes::{Outcome, Tally, channel_text, write_summary};
use msr_sds::SdsName;
use msr_tool::ToolFault;
use msr_tree::{FileKind, Time, Tree};
use std::alloc::{AllocError, Global};
use std::io;

/// What a walk found that came to its end.
#[derive(Clone, Copy)]
pub struct Walked {
    pub found: WalkFound,
    /// What could not be opened of the first day that was refused for that.
    pub unopened: Option<Unopened>,
}

/// What is counted, and the days whose stamps wait.
#[derive(Drop)]
pub(crate) struct Progress<K> {
    pub(crate) tally: Tally,
    pub(crate) batch: Batch<K>,
    /// The folder of reports that was made last.
    made: String,
}

/// What became of a day, as it is told, and what waits for its stamp to get its name.
#[derive(Drop)]
struct Told<K> {
    outcome: Outcome,
    waiting: Option<Waiting<K>>,
}

impl<K: Drop> Progress<K> {
    fn new(alloc: Global) -> Progress<K>
        ensures empty { IsTally [] result.tally }
        ensures waits { result.batch.days.items ≡ [] }
    {
        Progress {
            tally: Tally::new(alloc),
            batch: Batch::new(alloc),
            made: String::new(alloc),
        }
    }

    /// The day with this path waits, if there is something to wait for.
    fn wait<T: Tree, C: Claims<Claim = K>>(
        &mut self,
        tree: &mut T,
        walker: &Walker<'_, C>,
        path: &str,
        waiting: Option<Waiting<K>>,
    )
        requires days { AreWaitingAt (T.went tree.old) walker.now.archive.now (string_bytes self.old.batch.folder) self.old.batch.days.items }
        requires day { IfSome waiting (λ day. HoldsAt (T.went tree.old) (WaitsAs walker.now.archive.now path.now day.files)) }
        requires path { IsDay path.now }
        requires none { HoldsAt (T.went tree.old) (λ past. IsNoneWaiting walker.now.archive.now path.now self.old.batch.days.items) }
        ensures tally { self.new.tally ≡ self.old.tally }
        ensures days { AreWaitingAt (T.went tree.new) walker.now.archive.now (string_bytes self.new.batch.folder) self.new.batch.days.items }
        ensures works { Goes (T.went tree.old) (T.went tree.new) (SettlesWaiting walker.now.archive.now) }
    {
        if let Some(day) = waiting {
            self.batch.add(tree, walker, path, day);
        }
    }
}

/// Prints the line of an entry, as known if it is, unless it is left out, and counts it. The channel is that of a day, the
/// reason that of the system, if it did not list a folder.
fn tell<K, C, O: Sink>(
    walker: &Walker<'_, C>,
    path: &str,
    channel: &str,
    outcome: Outcome,
    listing: Option<io::Error>,
    out: &mut O,
    progress: &mut Progress<K>,
) -> Result<(), DeviceFault>
    requires { CanCountCall (O.device out.old) }
    ensures told { IsOutcomeOf walker.now.archive.now.days path.now channel.now outcome →
        OnOk result (TellsOutcomesOf (λ of. of.tally) walker.now.archive.now
        (record { path = path.now; channel = channel.now; outcome = known_as walker.now.archive.now.known path.now outcome } ∷ [])
        (O.device out.old) (O.device out.new) progress.old progress.new) }
    ensures stops { IsOutcomeOf walker.now.archive.now.days path.now channel.now outcome →
        IfErr result (StopsTellingOutcomes walker.now.archive.now (O.device out.old) (O.device out.new)) }
    ensures batch { progress.new.batch ≡ progress.old.batch }
{
    let archive = walker.archive;
    let outcome = outcome.known_as(walker.alloc, archive.known, path)?;
    let line = outcome.told(walker.alloc, &archive.days, path, listing)?;
    write_all(out, line.as_bytes())?;
    progress.tally.add(channel, outcome)?;
    Ok(())
}

/// What is asked of the day with this path.
fn asked_of(archive: &Archiving<'_>, name: &SdsName<'_>) -> DayOptions
    requires { HasForm name.now }
    ensures { result ≡ with_name (day_name name.now) archive.now.days }
{
    DayOptions {
        names: names_for(archive.days.names, name),
        ..archive.days
    }
}

impl<'a, C: Claims> Walker<'a, C> {
    /// Whether the file of a day was changed too late.
    fn is_young<T: Tree>(&self, tree: &mut T, path: &str) -> Result<bool, AllocError>
        ensures asked { IfOk result (λ young. young ≡ true → AsksForAge self.now.archive.now.days) }
        ensures goes { Goes (T.went tree.old) (T.went tree.new) (ChangesFiles []) }
    {
        let archive = self.archive;
        if archive.days.older_than == 0 {
            return Ok(false);
        }
        let input = join(self.alloc, archive.folders.root, path)?;
        is_young(tree, input.as_str(), archive.days.older_than, self.begun)
    }

    /// Handles a day, unless its file was changed too late; refuses it if what is made of it may stand in the archive.
    fn handle<T: Tree>(
        &self,
        tree: &mut T,
        path: &str,
        name: &SdsName<'_>,
        apart: bool,
        made: &mut String,
    ) -> Result<Told<C::Claim>, AllocError>
        requires { ReadsAsDay path.now name.now }
        ensures told { IfOk result (λ told. IsOutcomeOfDay (with_name (day_name name.now) self.now.archive.now.days) told.outcome) }
        ensures waits { IfOk result (λ told. IfSome told.waiting (λ day. HoldsAt (T.went tree.new) (WaitsAs self.now.archive.now path.now day.files))) }
        ensures goes { Goes (T.went tree.old) (T.went tree.new) (TellsDay (λ told. told.outcome) self.now.archive.now (with_name (day_name name.now) self.now.archive.now.days) path.now result) }
    {
        if self.is_young(tree, path)? {
            return Ok(Told {
                outcome: Outcome::of_day(DayOutcome::Young),
                waiting: None,
            });
        }
        if !apart {
            let refusal = DayFault::CannotOpen(Unopened::OUTPUTS);
            return Ok(Told {
                outcome: Outcome::Refused(refusal),
                waiting: None,
            });
        }
        let days = asked_of(self.archive, name);
        let day = Day::new(self.alloc, self.archive.folders, path)?;
        let length = day_length(tree, self.alloc, day.input(), &days)?;
        let work = Work {
            claims: self.claims,
            alloc: self.alloc,
            asked: days.in_length(length),
        };
        let handled = day.handle(tree, &work, made)?;
        Ok(Told {
            outcome: Outcome::of_day(handled.outcome),
            waiting: handled.waiting,
        })
    }

    /// Handles a day; prints its line and counts it. Its stamp may wait then.
    fn visit_day<T: Tree, O: Sink>(
        &self,
        tree: &mut T,
        path: &str,
        name: &SdsName<'_>,
        apart: bool,
        out: &mut O,
        progress: &mut Progress<C::Claim>,
    ) -> Result<(), DeviceFault>
        requires day { ReadsAsDay path.now name.now }
        requires count { CanCountCall (O.device out.old) }
        requires days { AreWaitingAt (T.went tree.old) self.now.archive.now (string_bytes progress.old.batch.folder) progress.old.batch.days.items }
        ensures told { (kind : FileKind) → kind ≢ Gone → OnOk result (TellsVisit (TellsOutcomesOf (λ of. of.tally) self.now.archive.now)
            (IsToldOfVisit self.now.archive.now.folders.root.now self.now.archive.now.folders.out.now self.now.archive.now.folders.reports.now self.now.archive.now) (ChangesDays true self.now.archive.now) (Unit {0}) (Found path.now kind)
            (T.went tree.old) (T.went tree.new) (O.device out.old) (O.device out.new) progress.old progress.new) }
        ensures stops { IfErr result (StopsTellingOutcomes self.now.archive.now (O.device out.old) (O.device out.new)) }
        ensures works { Goes (T.went tree.old) (T.went tree.new) (WorksFor (is_ok result) self.now.archive.now) }
        ensures days { AreWaitingAt (T.went tree.new) self.now.archive.now (string_bytes progress.new.batch.folder) progress.new.batch.days.items }
    {
        let channel = channel_text(self.alloc, name)?;
        progress.batch.make_way(tree, self, path);
        let handled = self.handle(tree, path, name, apart, &mut progress.made)?;
        let told = tell(
            self,
            path,
            channel.as_str(),
            handled.outcome,
            None,
            out,
            progress,
        );
        progress.wait(tree, self, path, handled.waiting);
        told
    }

    /// Handles an entry that is there.
    fn visit_found<T: Tree, O: Sink>(
        &self,
        tree: &mut T,
        path: &str,
        apart: bool,
        out: &mut O,
        progress: &mut Progress<C::Claim>,
    ) -> Result<(), DeviceFault>
        requires count { CanCountCall (O.device out.old) }
        requires days { AreWaitingAt (T.went tree.old) self.now.archive.now (string_bytes progress.old.batch.folder) progress.old.batch.days.items }
        ensures told { (kind : FileKind) → kind ≢ Gone → OnOk result (TellsVisit (TellsOutcomesOf (λ of. of.tally) self.now.archive.now)
            (IsToldOfVisit self.now.archive.now.folders.root.now self.now.archive.now.folders.out.now self.now.archive.now.folders.reports.now self.now.archive.now) (ChangesDays true self.now.archive.now) (Unit {0}) (Found path.now kind)
            (T.went tree.old) (T.went tree.new) (O.device out.old) (O.device out.new) progress.old progress.new) }
        ensures stops { IfErr result (StopsTellingOutcomes self.now.archive.now (O.device out.old) (O.device out.new)) }
        ensures works { Goes (T.went tree.old) (T.went tree.new) (WorksFor (is_ok result) self.now.archive.now) }
        ensures days { AreWaitingAt (T.went tree.new) self.now.archive.now (string_bytes progress.new.batch.folder) progress.new.batch.days.items }
    {
        match SdsName::parse(path) {
            Ok(name) => self.visit_day(tree, path, &name, apart, out, progress),
            Err(fault) => tell(self, path, "", Outcome::Skipped(fault), None, out, progress),
        }
    }

    /// Visits the archive, or the folders of it that are asked for, and then settles what waits, even if the visit stopped.
    fn visit<T: Tree, O: Sink>(
        &self,
        tree: &mut T,
        out: &mut O,
        progress: &mut Progress<C::Claim>,
    ) -> Result<(), DeviceFault>
        requires count { CanCountCall (O.device out.old) }
        requires days { AreWaitingAt (T.went tree.old) self.now.archive.now (string_bytes progress.old.batch.folder) progress.old.batch.days.items }
        ensures told { OnOk result (TellsVisits (TellsOutcomesOf (λ of. of.tally) self.now.archive.now) (IsToldOfVisit self.now.archive.now.folders.root.now self.now.archive.now.folders.out.now self.now.archive.now.folders.reports.now self.now.archive.now) (ChangesWithin self.now.archive.now.folders.out.now self.now.archive.now.folders.reports.now)
            (RestsWithin self.now.archive.now.folders.root.now self.now.archive.now.folders.out.now self.now.archive.now.folders.reports.now) (Unit {0}) self.now.archive.now.folders.root.now
            (λ past new. AreEntriesOf past self.now.archive.now.folders.root.now self.now.archive.now.below.items)
            (T.went tree.old) (T.went tree.new) (O.device out.old) (O.device out.new) progress.old progress.new) }
        ensures stops { IfErr result (StopsTellingOutcomes self.now.archive.now (O.device out.old) (O.device out.new)) }
        ensures does { Goes (T.went tree.old) (T.went tree.new) (ChangesDays (is_ok result) self.now.archive.now) }
    {
        let archive = self.archive;
        let walk = EntryWalk {
            alloc: self.alloc,
            root: archive.folders.root,
            below: archive.below.as_slice(),
            visitor: self,
        };
        let visited = visit_entries(&walk, tree, out, progress);
        progress.batch.settle(tree, self);
        visited
    }
}

impl<'a, C: Claims> EntryVisitor for Walker<'a, C> {
    type Tally = Progress<C::Claim>;

    /// Whether what is made of the days of the folder stands outside the archive.
    type Folder = bool;

    ghost Line = { Entry };

    ghost tells = { λ walker. TellsOutcomesOf (λ of. of.tally) walker.archive.now };

    ghost stops = { λ walker. StopsTellingOutcomes walker.archive.now };

    ghost says = { λ walker. IsToldOfVisit walker.archive.now.folders.root.now walker.archive.now.folders.out.now walker.archive.now.folders.reports.now walker.archive.now };

    ghost does = { λ walker goes_on. ChangesDays goes_on walker.archive.now };

    ghost between = { λ walker. RestsDays walker.archive.now };

    ghost holds = { λ walker progress past. AreWaiting walker.archive.now (string_bytes progress.batch.folder) progress.batch.days.items past };

    ghost listless = { λ _. Unit {0} };

    ghost root = { λ walker. walker.archive.now.folders.root.now };

    ghost laws = { days_laws (λ walker. IsEntry walker.archive.now) (λ walker. IsEntryLine walker.archive.now)
        (λ entries of. IsTally entries of.tally) (λ walker. walker.archive.now) (λ walker. walker.separate) };

    ghost listed = { record { stays = λ walker progress past place. waiting_listed place walker.archive.now (string_bytes progress.batch.folder) progress.batch.days.items past } };

    fn enter_folder<T: Tree, O: Sink>(
        &self,
        _tree: &mut T,
        folder: &str,
        levels: u8,
        _out: &mut O,
        _progress: &mut Progress<C::Claim>,
    ) -> Result<Option<bool>, DeviceFault> {
        // No folder above has days.
        if 0 < levels {
            return Ok(Some(true));
        }
        let folders = self.archive.folders;
        let apart = self.claims.stand_apart(self.alloc, folders, folder)?;
        Ok(Some(apart))
    }

    fn visit_entry<T: Tree, O: Sink>(
        &self,
        tree: &mut T,
        apart: &bool,
        path: &str,
        kind: FileKind,
        out: &mut O,
        progress: &mut Progress<C::Claim>,
    ) -> Result<(), DeviceFault> {
        match kind {
            FileKind::Gone => {
                let gone = Outcome::Refused(DayFault::Gone);
                tell(self, path, "", gone, None, out, progress)
            }
            _ => self.visit_found(tree, path, *apart, out, progress),
        }
    }

    fn visit_unlisted<T: Tree, O: Sink>(
        &self,
        tree: &mut T,
        folder: &str,
        _place: &str,
        out: &mut O,
        progress: &mut Progress<C::Claim>,
    ) -> Result<(), DeviceFault> {
        let refused = Outcome::Refused(DayFault::Listing);
        let reason = tree.reason();
        tell(
            self,
            told_folder(folder),
            "",
            refused,
            reason,
            out,
            progress,
        )
    }

    fn leave_folder<T: Tree, O: Sink>(
        &self,
        tree: &mut T,
        _folder: &str,
        _levels: u8,
        _out: &mut O,
        progress: &mut Progress<C::Claim>,
    ) -> Result<(), DeviceFault> {
        progress.batch.settle(tree, self);
        Ok(())
    }
}

/// Walks the archive, or the folders of it that are asked for, and tells whether an entry was refused, whether there
/// was a day, and what of the first one could not be opened. By the time of now it is told how old files are.
pub fn walk<'a, T: Tree, C: Claims, O: Sink>(
    tree: &mut T,
    claims: &'a C,
    alloc: Global,
    archive: &'a Archiving<'a>,
    now: Time,
    out: &mut O,
) -> Result<Walked, ToolFault>
    requires apart { StandApart archive.now.folders }
    requires count { CanCountCall (O.device out.old) }
    ensures answer { Walks archive.now (O.device out.old) (O.device out.new) result }

    // A failure of the sink is answered as such, and nothing else is.
    ensures write { IsErrOf result ToolFault.Write ↔ HasFailed (O.device out.old) (O.device out.new) }

    // What is told is so of what the names lead to, and of each entry.
    ensures tree { IfOk result (WalksTree archive.now (T.went tree.old) (T.went tree.new)
        (O.device out.old) (O.device out.new)) }

    // At each moment the archive is as it was.
    ensures root { Goes (T.went tree.old) (T.went tree.new) (StaysWithin archive.now.folders.root.now) }

    // At each moment, also if it is killed then, the records of each day have their own report, if they had it before.
    ensures killed { Goes (T.went tree.old) (T.went tree.new) (KeepsReports archive.now) }

    // If no call fails, each day has its own at each moment, also if the power is cut then, if it had its own before, and
    // what is not seen of it could not come back.
    ensures safe { Goes (T.went tree.old) (T.went tree.new) (KeepsDays false archive.now) }
{
    let mut progress = Progress::new(alloc);
    let walker = Walker {
        claims,
        alloc,
        archive,
        begun: now,
    };
    walker.visit(tree, out, &mut progress)?;
    let tally = &progress.tally;
    write_summary(alloc, out, archive, tally)?;
    let made = tally.done.saturating_add(tally.larger);
    let days = made.saturating_add(tally.young);
    let days = days.saturating_add(tally.known);
    Ok(Walked {
        found: WalkFound::of(tally.refused, days),
        unopened: tally.unopened,
    })
}
