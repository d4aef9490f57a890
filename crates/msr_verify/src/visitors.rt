//! What is told of an entry of the archive, and of one of its records.
ghost use Rattle.std.specs.Prelude.{◌≡◌, ◌∷◌, [], IfErr, OnOk};
ghost use Rattle.msr_devices.specs.Device.{CanCountCall};
ghost use Rattle.msr_folders.proofs.ReadingLemmas.{none_holds, reading_laws};
ghost use Rattle.msr_folders.specs.Names.{day_name};
ghost use Rattle.msr_options.specs.Days.{names_for};
ghost use Rattle.msr_sds.specs.SdsPath.{HasForm};
ghost use Rattle.msr_sds.specs.declared.SdsFault.{SdsFault};
ghost use Rattle.msr_tree.specs.Reads.{OnlyReads};
ghost use Rattle.msr_verify.specs.Entries.{IsJudgementOf, IsVerifyTally, JudgedEntry};
ghost use Rattle.msr_verify.specs.Files.{IsToldOfOut, IsToldOfRoot, names_asked, other_judgement};
ghost use Rattle.msr_verify.specs.Known.{IsJudgedEntry, judged_known_as};
ghost use Rattle.msr_verify.specs.Lines.{IsToldLine};
ghost use Rattle.msr_verify.specs.Walk.{StopsTellingJudged, TellsEntries};

use crate::day::{judge_day, may_have};
use crate::judgement::{Judgement, Refusal};
use crate::tally::VerifyTally;
use msr_devices::{DeviceFault, Sink, write_all};
use msr_folders::{EntryVisitor, join, names_for, told_folder};
use msr_options::{Names, Verifying};
use msr_sds::{SdsFault, SdsName};
use msr_tree::{FileKind, Tree};
use std::alloc::Global;
use std::io;

/// Prints the line of an entry, as known if it is, unless it is left out, and counts it. The reason is that of the call of the system that
/// failed, if one did.
fn tell<O: Sink>(
    alloc: Global,
    archive: &Verifying<'_>,
    path: &str,
    judgement: Judgement,
    reason: Option<io::Error>,
    out: &mut O,
    tally: &mut VerifyTally,
) -> Result<(), DeviceFault>
    requires { CanCountCall (O.device out.old) }
    ensures told { IsJudgementOf path.now judgement → OnOk result (TellsEntries archive.now
        (record { path = path.now; judgement = judged_known_as archive.now.known path.now judgement } ∷ []) (O.device out.old) (O.device out.new) tally.old tally.new) }
    ensures stops { IsJudgementOf path.now judgement →
        IfErr result (StopsTellingJudged archive.now (O.device out.old) (O.device out.new)) }
{
    let judgement = judgement.known_as(alloc, archive.known, path)?;
    let line = judgement.told(alloc, archive, path, reason)?;
    write_all(out, line.as_bytes())?;
    tally.add(judgement);
    Ok(())
}

/// What is told of what is no day.
fn other_judgement(kind: FileKind, fault: SdsFault) -> Judgement
    ensures { result ≡ other_judgement kind fault }
{
    match kind {
        FileKind::Gone => Judgement::Refused(Refusal::FileUnopened),
        FileKind::Folder | FileKind::Other => Judgement::Skipped(fault),
    }
}

/// The names that the segments of the day with this path have to have.
fn names_of(archive: &Verifying<'_>, name: &SdsName<'_>) -> Names
    requires { HasForm name.now }
    ensures { result ≡ names_for (day_name name.now) (names_asked archive.now.names) }
{
    names_for(Names::asked(archive.names), name)
}

/// Judges each day of the archive.
#[derive(Clone, Copy)]
pub(crate) struct Judging<'a> {
    pub(crate) alloc: Global,
    pub(crate) archive: &'a Verifying<'a>,
}

impl EntryVisitor for Judging<'_> {
    type Tally = VerifyTally;

    type Folder = ();

    ghost Line = { JudgedEntry };

    ghost tells = { λ judging. TellsEntries judging.archive.now };

    ghost stops = { λ judging. StopsTellingJudged judging.archive.now };

    ghost says = { λ judging. IsToldOfRoot judging.archive.now.known (names_asked judging.archive.now.names) judging.archive.now.folders.root.now judging.archive.now.folders.out.now judging.archive.now.folders.reports.now };

    ghost does = { λ _ _. OnlyReads };

    ghost between = { λ _. OnlyReads };

    ghost holds = { λ _ _ _. Unit {0} };

    ghost listless = { λ _. Unit {0} };

    ghost root = { λ judging. judging.archive.now.folders.root.now };

    ghost laws = { reading_laws (λ judging. IsJudgedEntry judging.archive.now) (λ judging. IsToldLine judging.archive.now) IsVerifyTally };

    ghost listed = { none_holds };

    fn enter_folder<T: Tree, O: Sink>(
        &self,
        _tree: &mut T,
        _folder: &str,
        _levels: u8,
        _out: &mut O,
        _tally: &mut VerifyTally,
    ) -> Result<Option<()>, DeviceFault> {
        Ok(Some(()))
    }

    fn visit_entry<T: Tree, O: Sink>(
        &self,
        tree: &mut T,
        _entered: &(),
        path: &str,
        kind: FileKind,
        out: &mut O,
        tally: &mut VerifyTally,
    ) -> Result<(), DeviceFault> {
        match SdsName::parse(path) {
            Ok(name) => {
                let archive = self.archive;
                let names = names_of(archive, &name);
                let judgement = judge_day(tree, self.alloc, archive.folders, path, names)?;
                let reason = tree.reason();
                tell(
                    self.alloc,
                    self.archive,
                    path,
                    judgement,
                    reason,
                    out,
                    tally,
                )
            }
            Err(fault) => {
                tell(
                    self.alloc,
                    self.archive,
                    path,
                    other_judgement(kind, fault),
                    None,
                    out,
                    tally,
                )
            }
        }
    }

    fn visit_unlisted<T: Tree, O: Sink>(
        &self,
        tree: &mut T,
        folder: &str,
        _place: &str,
        out: &mut O,
        tally: &mut VerifyTally,
    ) -> Result<(), DeviceFault> {
        let refused = Judgement::Refused(Refusal::Listing);
        let reason = tree.reason();
        tell(
            self.alloc,
            self.archive,
            told_folder(folder),
            refused,
            reason,
            out,
            tally,
        )
    }

    fn leave_folder<T: Tree, O: Sink>(
        &self,
        _tree: &mut T,
        _folder: &str,
        _levels: u8,
        _out: &mut O,
        _tally: &mut VerifyTally,
    ) -> Result<(), DeviceFault> {
        Ok(())
    }
}

/// Searches the records for days that the archive does not have.
#[derive(Clone, Copy)]
pub(crate) struct Searching<'a> {
    pub(crate) alloc: Global,
    pub(crate) archive: &'a Verifying<'a>,
}

impl EntryVisitor for Searching<'_> {
    type Tally = VerifyTally;

    type Folder = ();

    ghost Line = { JudgedEntry };

    ghost tells = { λ searching. TellsEntries searching.archive.now };

    ghost stops = { λ searching. StopsTellingJudged searching.archive.now };

    ghost says = { λ searching. IsToldOfOut searching.archive.now.known searching.archive.now.folders.root.now searching.archive.now.folders.out.now };

    ghost does = { λ _ _. OnlyReads };

    ghost between = { λ _. OnlyReads };

    ghost holds = { λ _ _ _. Unit {0} };

    ghost listless = { λ _. Unit {0} };

    ghost root = { λ searching. searching.archive.now.folders.out.now };

    ghost laws = { reading_laws (λ searching. IsJudgedEntry searching.archive.now) (λ searching. IsToldLine searching.archive.now) IsVerifyTally };

    ghost listed = { none_holds };

    fn enter_folder<T: Tree, O: Sink>(
        &self,
        _tree: &mut T,
        _folder: &str,
        _levels: u8,
        _out: &mut O,
        _tally: &mut VerifyTally,
    ) -> Result<Option<()>, DeviceFault> {
        Ok(Some(()))
    }

    /// What is no day is not told.
    fn visit_entry<T: Tree, O: Sink>(
        &self,
        tree: &mut T,
        _entered: &(),
        path: &str,
        _kind: FileKind,
        out: &mut O,
        tally: &mut VerifyTally,
    ) -> Result<(), DeviceFault> {
        match SdsName::parse(path) {
            Ok(_) => {
                let archive = self.archive;
                let file = join(self.alloc, archive.folders.root, path)?;
                if may_have(tree, file.as_str())? {
                    return Ok(());
                }
                tell(
                    self.alloc,
                    self.archive,
                    path,
                    Judgement::Orphan,
                    None,
                    out,
                    tally,
                )
            }
            Err(_) => Ok(()),
        }
    }

    /// A folder that is not there has no list to tell of.
    fn visit_unlisted<T: Tree, O: Sink>(
        &self,
        tree: &mut T,
        folder: &str,
        place: &str,
        out: &mut O,
        tally: &mut VerifyTally,
    ) -> Result<(), DeviceFault> {
        if !may_have(tree, place)? {
            return Ok(());
        }
        let refused = Judgement::Refused(Refusal::RecordsListing);
        let reason = tree.reason();
        tell(
            self.alloc,
            self.archive,
            told_folder(folder),
            refused,
            reason,
            out,
            tally,
        )
    }

    fn leave_folder<T: Tree, O: Sink>(
        &self,
        _tree: &mut T,
        _folder: &str,
        _levels: u8,
        _out: &mut O,
        _tally: &mut VerifyTally,
    ) -> Result<(), DeviceFault> {
        Ok(())
    }
}
