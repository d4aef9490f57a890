//! What is done of an entry of a folder, and told of it.
ghost use Rattle.std.specs.Prelude.{◌≡◌, ◌≢◌, ◌∷◌, ◌++◌, [], IfErr, IfOk, IfSome, List, OnOk, false, true};
ghost use Rattle.std.specs.List.{AllByRecursion};
ghost use Rattle.msr_devices.specs.Device.{CanCountCall};
ghost use Rattle.msr_devices.specs.declared.fault.DeviceFault.TheVariants.{Memory};
ghost use Rattle.msr_folders.proofs.ReadingLemmas.{none_holds};
ghost use Rattle.msr_folders.specs.Days.{IsDay, IsNoDay};
ghost use Rattle.msr_folders.specs.Entries.{Entry};
ghost use Rattle.msr_folders.specs.Walks.{TellsVisit, VisitDoes};
ghost use Rattle.msr_replace.specs.Entries.{ExchangeEntry, IsExchangeEntry, IsExchangeEntryLine, IsExchangeTally, IsExchangeOf, IsStoppedAt, entry_of, has_failed};
ghost use Rattle.msr_replace.specs.Said.{DoesFor, IsOfDay, IsOfReplaced, IsOfRestored, IsSaid, PassesFolder, Said, SearchesDay, TellsOther, TellsSaid, only_line, other_outcome, walked};
ghost use Rattle.msr_replace.specs.Touching.{touching_laws};
ghost use Rattle.msr_replace.specs.Touched.{TouchesDays};
ghost use Rattle.msr_replace.specs.Walk.{Prints, StopsTellingExchanges};
ghost use Rattle.msr_sds.specs.declared.SdsFault.{SdsFault};
ghost use Rattle.msr_exchange.specs.Work.{AreThreeFolders};
ghost use Rattle.msr_tree.specs.Calls.{Goes};
ghost use Rattle.msr_tree.specs.Listing.{is_there};
ghost use Rattle.msr_tree.specs.Reads.{OnlyLooks};
ghost use Rattle.msr_tree.specs.declared.kind.FileKind.{FileKind};

use crate::day::{replace_path, restore_path};
use crate::lines::{EntryRefusal, Outcome};
use crate::locks::FolderLocks;
use crate::progress::Progress;
use crate::replacer::{Course, Replacer};
use crate::ways::{begin_folder, end_folder};
use msr_devices::{DeviceFault, Sink, write_all};
use msr_exchange::DayWork;
use msr_folders::{EntryVisitor, join, told_folder};
use msr_sds::{SdsFault, SdsName};
use msr_tree::{FileKind, Tree, TreeFault};
use std::alloc::{AllocError, Global};

const BUSY: Outcome = Outcome::Refused(EntryRefusal::Busy);

const NO_FOLDER: Outcome = Outcome::Refused(EntryRefusal::NoFolder);

/// Prints the line of an entry, and counts it.
fn print<O: Sink>(
    alloc: Global,
    path: &str,
    outcome: Outcome,
    out: &mut O,
    progress: &mut Progress,
) -> Result<(), DeviceFault>
    requires { CanCountCall (O.device out.old) }
    ensures printed { OnOk result (Prints path.now outcome (O.device out.old) (O.device out.new)) }
    ensures counted { OnOk result ((before : List ExchangeEntry) → IsExchangeTally before progress.old.tally
        → IsExchangeTally (before ++ entry_of path.now outcome ∷ []) progress.new.tally) }
    ensures stops { IsExchangeOf path.now outcome →
        IfErr result (StopsTellingExchanges (O.device out.old) (O.device out.new)) }
    ensures kept { progress.new.failed ≡ progress.old.failed }
{
    let line = outcome.line(alloc, path)?;
    write_all(out, line.as_bytes())?;
    progress.tally.add(outcome);
    Ok(())
}

/// The path in which the tree failed, if it did.
fn failed_at(alloc: Global, path: &str, outcome: Outcome) -> Result<Option<String>, AllocError>
    ensures { IfOk result (λ failed. (before : List ExchangeEntry)
        → AllByRecursion (λ entry. has_failed entry.outcome ≡ false) before
        → IsStoppedAt (before ++ entry_of path.now outcome ∷ []) failed) }
{
    if !outcome.has_failed() {
        return Ok(None);
    }
    let at = String::from_str(alloc, path)?;
    Ok(Some(at))
}

/// Tells of an entry. If the tree failed in it, nothing more is begun.
fn tell<O: Sink>(
    alloc: Global,
    path: &str,
    outcome: Outcome,
    out: &mut O,
    progress: &mut Progress,
) -> Result<(), DeviceFault>
    requires count { CanCountCall (O.device out.old) }
    requires entry { IsExchangeOf path.now outcome }
    requires going { progress.old.failed ≡ None }
    ensures told { OnOk result (TellsSaid (only_line path.now outcome) (O.device out.old) (O.device out.new)
        progress.old progress.new) }
    ensures stops { IfErr result (StopsTellingExchanges (O.device out.old) (O.device out.new)) }
{
    let failed = failed_at(alloc, path, outcome)?;
    print(alloc, path, outcome, out, progress)?;
    progress.failed = failed;
    Ok(())
}

/// Gives a day's records the place of its file.
fn replaced<T: Tree>(tree: &mut T, work: &DayWork<'_>, path: &str) -> Result<Outcome, DeviceFault>
    requires apart { AreThreeFolders work.now }
    requires day { IsDay path.now }
    ensures goes { Goes (T.went tree.old) (T.went tree.new) (DoesFor Course.Root work.now (λ outcome. IsOfReplaced work.now path.now outcome) result) }
    ensures of { IfOk result (IsExchangeOf path.now) }
    ensures memory { IfErr result (λ fault. fault ≡ Memory) }
{
    match replace_path(tree, work, path) {
        Ok(answer) => Ok(Outcome::Day(answer)),
        Err(TreeFault::Failed) => Ok(Outcome::DayFailed),
        Err(TreeFault::Memory) => Err(DeviceFault::Memory),
    }
}

/// Gives a day's original its place again.
fn restored<T: Tree>(tree: &mut T, work: &DayWork<'_>, path: &str) -> Result<Outcome, DeviceFault>
    requires apart { AreThreeFolders work.now }
    requires day { IsDay path.now }
    ensures goes { Goes (T.went tree.old) (T.went tree.new) (DoesFor Course.Aside work.now (λ outcome. IsOfRestored work.now path.now outcome) result) }
    ensures of { IfOk result (IsExchangeOf path.now) }
    ensures memory { IfErr result (λ fault. fault ≡ Memory) }
{
    match restore_path(tree, work, path) {
        Ok(answer) => Ok(Outcome::Undone(answer)),
        Err(TreeFault::Failed) => Ok(Outcome::DayFailed),
        Err(TreeFault::Memory) => Err(DeviceFault::Memory),
    }
}

/// Looks whether the archive has a day of the records, as far as the tree tells.
fn searched<T: Tree>(
    tree: &mut T,
    work: &DayWork<'_>,
    path: &str,
) -> Result<Option<Outcome>, DeviceFault>
    requires { IsDay path.now }
    ensures goes { Goes (T.went tree.old) (T.went tree.new) (DoesFor Course.Out work.now (λ outcome. SearchesDay work.now path.now outcome) result) }
    ensures of { IfOk result (λ outcome. IfSome outcome (IsExchangeOf path.now)) }
    ensures memory { IfErr result (λ fault. fault ≡ Memory) }
{
    let file = join(work.alloc, work.root, path)?;
    match tree.has(file.as_str()) {
        Ok(true) => Ok(None),
        Ok(false) => Ok(Some(Outcome::Orphan)),
        Err(TreeFault::Failed) => Ok(None),
        Err(TreeFault::Memory) => Err(DeviceFault::Memory),
    }
}

/// What is told of what is no day.
fn other_outcome(kind: FileKind, fault: SdsFault) -> Outcome
    ensures { result ≡ other_outcome kind fault }
{
    match kind {
        FileKind::Gone => Outcome::Refused(EntryRefusal::FileUnopened),
        FileKind::Folder | FileKind::Other => Outcome::Skipped(fault),
    }
}

impl<L: FolderLocks> Replacer<'_, L> {
    /// The folder of the archive with that path, locked if the system has locks; nothing if another process has it.
    fn lock(&self, folder: &str) -> Result<Option<L::Lock>, AllocError> {
        let place = join(self.work.alloc, self.work.root, folder)?;
        Ok(self.locks.lock(place.as_str()))
    }

    /// What is told of a day, if anything is, once it is done.
    fn handle<T: Tree>(&self, tree: &mut T, path: &str) -> Result<Option<Outcome>, DeviceFault>
        requires { IsDay path.now }
        ensures goes { Goes (T.went tree.old) (T.went tree.new)
            (DoesFor self.now.course self.now.work (λ outcome. IsOfDay self.now.course self.now.work path.now outcome) result) }
        ensures of { IfOk result (λ outcome. IfSome outcome (IsExchangeOf path.now)) }
        ensures memory { IfErr result (λ fault. fault ≡ Memory) }
    {
        match self.course {
            Course::Root => Ok(Some(replaced(tree, &self.work, path)?)),
            Course::Out => searched(tree, &self.work, path),
            Course::Aside => Ok(Some(restored(tree, &self.work, path)?)),
        }
    }

    /// Handles a day; prints its line and counts it.
    fn tell_day<T: Tree, O: Sink>(
        &self,
        tree: &mut T,
        path: &str,
        out: &mut O,
        progress: &mut Progress,
    ) -> Result<(), DeviceFault>
        requires day { IsDay path.now }
        requires going { progress.old.failed ≡ None }
        requires count { CanCountCall (O.device out.old) }
        ensures told { (kind : FileKind) → OnOk result (TellsVisit TellsSaid (IsSaid self.now.course self.now.work) (TouchesDays self.now.course self.now.work) ⊥ (Entry path.now kind)
            (T.went tree.old) (T.went tree.new) (O.device out.old) (O.device out.new) progress.old progress.new) }
        ensures stops { IfErr result (StopsTellingExchanges (O.device out.old) (O.device out.new)) }
        ensures does { Goes (T.went tree.old) (T.went tree.new) (VisitDoes (TouchesDays self.now.course self.now.work) ⊥) }
    {
        match self.handle(tree, path)? {
            Some(outcome) => tell(self.work.alloc, path, outcome, out, progress),
            None => Ok(()),
        }
    }

    /// Tells of what is no day: of the archive alone.
    fn tell_other<O: Sink>(
        &self,
        path: &str,
        kind: FileKind,
        fault: SdsFault,
        out: &mut O,
        progress: &mut Progress,
    ) -> Result<(), DeviceFault>
        requires other { IsNoDay path.now fault }
        requires going { progress.old.failed ≡ None }
        requires count { CanCountCall (O.device out.old) }
        ensures told { OnOk result (TellsOther self.now.course path.now kind (O.device out.old) (O.device out.new)
            progress.old progress.new) }
        ensures stops { IfErr result (StopsTellingExchanges (O.device out.old) (O.device out.new)) }
    {
        match self.course {
            Course::Root => {
                let outcome = other_outcome(kind, fault);
                tell(self.work.alloc, path, outcome, out, progress)
            }
            Course::Out => Ok(()),
            Course::Aside => Ok(()),
        }
    }

    /// What is told of a folder that is left alone for no way leads there.
    fn passed(&self, leads_back: bool) -> Option<Outcome>
        ensures { IfSome result (λ outcome. (outcome ≡ Outcome.Refused EntryRefusal.NoFolder) × (self.now.course ≢ Course.Root) × (leads_back ≡ false)) }
    {
        if leads_back || self.course == Course::Root {
            return None;
        }
        Some(NO_FOLDER)
    }

    /// Begins with a folder of days that this process has; what is told of it, if it is left alone.
    fn begin<T: Tree>(&self, tree: &mut T, folder: &str) -> Result<Option<Outcome>, DeviceFault>
        ensures goes { Goes (T.went tree.old) (T.went tree.new) (DoesFor self.now.course self.now.work
            (λ outcome past new. IfSome outcome (λ why. PassesFolder self.now.course self.now.work folder.now why past new)) result) }
        ensures of { IfOk result (λ outcome. IfSome outcome (IsExchangeOf folder.now)) }
        ensures memory { IfErr result (λ fault. fault ≡ Memory) }
    {
        match begin_folder(tree, &self.work, folder) {
            Ok(leads_back) => Ok(self.passed(leads_back)),
            Err(TreeFault::Failed) => Ok(Some(Outcome::FolderFailed)),
            Err(TreeFault::Memory) => Err(DeviceFault::Memory),
        }
    }

    /// Whether a folder of records or originals is not there.
    fn may_lack<T: Tree>(&self, tree: &mut T, place: &str) -> Result<bool, DeviceFault>
        ensures goes { Goes (T.went tree.old) (T.went tree.new)
            (DoesFor self.now.course self.now.work (λ lacks past new. OnlyLooks past new × (lacks ≡ true → (self.now.course ≢ Course.Root) × (is_there past place.now ≡ false))) result) }
        ensures memory { IfErr result (λ fault. fault ≡ Memory) }
    {
        if self.course == Course::Root {
            return Ok(false);
        }
        match tree.has(place) {
            Ok(true) => Ok(false),
            Ok(false) => Ok(true),
            Err(TreeFault::Failed) => Ok(false),
            Err(TreeFault::Memory) => Err(DeviceFault::Memory),
        }
    }
}

impl<L: FolderLocks> EntryVisitor for Replacer<'_, L> {
    type Tally = Progress;

    /// The folder of the archive, which is locked while its days are worked on.
    type Folder = Option<L::Lock>;

    ghost Line = { Said };

    ghost tells = { λ _. TellsSaid };

    ghost stops = { λ _. StopsTellingExchanges };

    ghost says = { λ replacer. IsSaid replacer.course replacer.work };

    ghost does = { λ replacer _. TouchesDays replacer.course replacer.work };

    ghost between = { λ replacer. TouchesDays replacer.course replacer.work };

    ghost listless = { λ _. ⊥ };

    ghost holds = { λ _ _ _. Unit {0} };

    ghost root = { λ replacer. walked replacer.course replacer.work };

    ghost laws = { touching_laws (λ replacer. replacer.course) (λ replacer. replacer.work) };

    ghost listed = { none_holds };

    fn enter_folder<T: Tree, O: Sink>(
        &self,
        tree: &mut T,
        folder: &str,
        levels: u8,
        out: &mut O,
        progress: &mut Progress,
    ) -> Result<Option<Option<L::Lock>>, DeviceFault> {
        if progress.failed.is_some() {
            return Ok(None);
        }
        // No folder above has days.
        if 0 < levels || self.course == Course::Out {
            return Ok(Some(None));
        }
        let Some(locked) = self.lock(folder)? else {
            tell(self.work.alloc, folder, BUSY, out, progress)?;
            return Ok(None);
        };
        if let Some(outcome) = self.begin(tree, folder)? {
            tell(self.work.alloc, folder, outcome, out, progress)?;
            return Ok(None);
        }
        Ok(Some(Some(locked)))
    }

    fn visit_entry<T: Tree, O: Sink>(
        &self,
        tree: &mut T,
        _locked: &Option<L::Lock>,
        path: &str,
        kind: FileKind,
        out: &mut O,
        progress: &mut Progress,
    ) -> Result<(), DeviceFault> {
        if progress.failed.is_some() {
            return Ok(());
        }
        match SdsName::parse(path) {
            Ok(_) => self.tell_day(tree, path, out, progress),
            Err(fault) => self.tell_other(path, kind, fault, out, progress),
        }
    }

    /// A folder of records or originals that is not there has no list to tell of.
    fn visit_unlisted<T: Tree, O: Sink>(
        &self,
        tree: &mut T,
        folder: &str,
        place: &str,
        out: &mut O,
        progress: &mut Progress,
    ) -> Result<(), DeviceFault> {
        if progress.failed.is_some() {
            return Ok(());
        }
        if self.may_lack(tree, place)? {
            return Ok(());
        }
        let outcome = Outcome::Refused(self.course.unlisted());
        tell(self.work.alloc, told_folder(folder), outcome, out, progress)
    }

    fn leave_folder<T: Tree, O: Sink>(
        &self,
        tree: &mut T,
        folder: &str,
        levels: u8,
        out: &mut O,
        progress: &mut Progress,
    ) -> Result<(), DeviceFault> {
        if 0 < levels || self.course != Course::Aside || progress.failed.is_some() {
            return Ok(());
        }
        match end_folder(tree, &self.work, folder) {
            Ok(()) => Ok(()),
            Err(TreeFault::Memory) => Err(DeviceFault::Memory),
            Err(TreeFault::Failed) => {
                let outcome = Outcome::FolderFailed;
                tell(self.work.alloc, folder, outcome, out, progress)
            }
        }
    }
}
