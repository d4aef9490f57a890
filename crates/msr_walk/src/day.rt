//! One day file: whose it is, and what is done with it.
ghost use Rattle.std.specs.Prelude.{◌≡◌, IfOk, IfSome, None};
ghost use Rattle.msr_making.specs.Clearing.{beside_paths};
ghost use Rattle.msr_making.specs.Day.{IsDayOutcome, IsSame};
ghost use Rattle.msr_making.specs.Making.{LooksForSame};
ghost use Rattle.msr_making.specs.Places.{paths_at};
ghost use Rattle.msr_tree.specs.Calls.{Goes};
ghost use Rattle.msr_tree.specs.Folders.{ChangesFiles};
ghost use Rattle.msr_tree.specs.Steps.{Path};
ghost use Rattle.msr_walk.specs.Files.{day_names, file_beside, files_of, paths_of_names};
ghost use Rattle.msr_folders.specs.Walks.{HoldsAt};
ghost use Rattle.msr_walk.specs.Handling.{AreNamesWithin, ChangesNames, IsSameBut, IsUnclaimed};
ghost use Rattle.msr_walk.specs.Waiting.{AwaitsName};
ghost use Rattle.msr_walk.specs.Told.{HandlesDay};

use crate::claims::{Asked, ClaimFault, Claims};
use msr_folders::{ended, folder_of, join};
use msr_making::{DayFault, DayOutcome, Hold, Left, Places, Repacked, do_day, same_day};
use msr_naming::{DayFiles, NewName, Waiting};
use msr_options::{DayOptions, Folders, Side, Unopened};
use msr_tree::Tree;
use std::alloc::{AllocError, Global};
use std::marker::Model;
use std::{io, mem};

/// The names of the files of a day.
#[derive(Drop)]
pub(crate) struct Day {
    input: String,
    records: String,
    report: String,
    stamp: String,
    /// That of the file that says whose the day is.
    claim: String,
}

impl Model for Day {
    ghost use Rattle.std.specs.String.{string_bytes};
    ghost use Rattle.msr_walk.specs.Files.{DayNames};

    ghost Value = { DayNames };

    ghost view = { λ day. record {
      input = string_bytes day.input;
      records = string_bytes day.records;
      report = string_bytes day.report;
      stamp = string_bytes day.stamp;
      claim = string_bytes day.claim;
    } };
}

/// What is asked of a day, and with what it is done.
#[derive(Drop)]
pub(crate) struct Work<'a, C> {
    pub claims: &'a C,
    pub alloc: Global,
    pub asked: DayOptions,
}

/// A day that this walk has, and the folder of its report.
#[derive(Drop)]
struct Held<'a, C: Claims> {
    claims: &'a C,
    claim: &'a C::Claim,
    alloc: Global,
    folder: &'a str,
    /// The folder of a report that was made last.
    made: String,
    /// Why this one was not made, if the system gave a reason.
    unmade: Option<io::Error>,
}

/// Whether a path is that of the folder. Each has a lifetime of its own, which the proof of a comparison in place lacks.
fn is_folder(path: &str, folder: &str) -> bool {
    path == folder
}

impl<C: Claims> Hold for Held<'_, C> {
    fn is_held(&self) -> bool {
        self.claims.is_ours(self.claim)
    }

    fn make_folder(&mut self) {
        if is_folder(self.made.as_str(), self.folder) {
            return;
        }
        match self.claims.make_folder(self.folder) {
            Ok(()) => {
                if let Ok(name) = String::from_str(self.alloc, self.folder) {
                    self.made = name;
                }
            }
            Err(why) => self.unmade = Some(why),
        }
    }
}

/// A day that nobody may have.
#[derive(Drop)]
struct Unclaimed<'a, C> {
    claims: &'a C,
    path: &'a str,
}

impl<C: Claims> Hold for Unclaimed<'_, C> {
    fn is_held(&self) -> bool {
        self.claims.is_free(self.path)
    }

    fn make_folder(&mut self) {}
}

/// A day that this walk has, and whether a walk was killed that had it.
#[derive(Drop)]
struct Claimed<C> {
    claim: C,
    was_left: bool,
}

/// What came of asking for a day once.
#[derive(Drop)]
enum Tried<C> {
    Ours(C),
    /// What a killed walk left of it is gone.
    Cleared,
    Again,
}

/// What became of a day, and what waits for its stamp to get its name.
#[derive(Drop)]
pub(crate) struct Handled<C> {
    pub outcome: DayOutcome,
    pub waiting: Option<Waiting<C>>,
}

impl<C> Handled<C> {
    /// Of a day of which nothing waits.
    pub(crate) fn of(outcome: DayOutcome) -> Handled<C>
        ensures outcome { result.outcome ≡ outcome }
        ensures waits { result.waiting ≡ None }
    {
        Handled {
            outcome,
            waiting: None,
        }
    }
}

/// How often a day is asked for in which other walks end or clear meanwhile.
const TRIES: u8 = 8;

/// The names of a new file. It is written under the one with the ending.
fn new_name(alloc: Global, path: &str, ending: &str) -> Result<NewName, AllocError>
    ensures { IfOk result (λ name. name ≡ file_beside path.now ending.now) }
{
    Ok(NewName {
        path: String::from_str(alloc, path)?,
        part: ended(alloc, path, ending)?,
    })
}

/// Removes what stands beside the names of a day, and tells whether nothing is there any more.
fn sweep<T: Tree>(tree: &mut T, files: &DayFiles) -> bool
    ensures { Goes (T.went tree.old) (T.went tree.new) (ChangesFiles (beside_paths files.now)) }
{
    let records = tree.remove(files.records.part.as_str()).is_ok();
    let report = tree.remove(files.report.part.as_str()).is_ok();
    let stamp = tree.remove(files.stamp.part.as_str()).is_ok();
    records & report & stamp
}

/// What became of a day for whose report there is no folder for that reason.
fn because(outcome: DayOutcome, why: Option<io::Error>) -> DayOutcome
    ensures { IsSameBut outcome result }
{
    match outcome {
        DayOutcome::Refused(
            DayFault::CannotOpen(
                Unopened {
                    side: Side::Report,
                    why: told,
                },
            ),
        ) => DayOutcome::Refused(DayFault::CannotOpen(Unopened {
            side: Side::Report,
            why: why.or(told),
        })),
        other => other,
    }
}

/// Why a day is refused that is not claimed.
fn refusal_of(fault: ClaimFault) -> Result<DayFault, AllocError>
    ensures { IfOk result IsUnclaimed }
{
    match fault {
        ClaimFault::CannotOpen(why) => {
            let side = Side::Records;
            Ok(DayFault::CannotOpen(Unopened { side, why }))
        }
        ClaimFault::ClaimedByAnother => Ok(DayFault::ClaimedByAnother),
        ClaimFault::Memory => Err(AllocError),
    }
}

impl Day {
    /// The names of the day with this path in the archive.
    pub(crate) fn new(alloc: Global, folders: Folders<'_>, path: &str) -> Result<Day, AllocError>
        ensures { IfOk result (λ day.
            day ≡ day_names folders.entry.root.now folders.entry.out.now folders.entry.reports.now path.now) }
    {
        let records = join(alloc, folders.out, path)?;
        let report = join(alloc, folders.reports, path)?;
        Ok(Day {
            input: join(alloc, folders.root, path)?,
            report: ended(alloc, report.as_str(), ".txt")?,
            stamp: ended(alloc, report.as_str(), ".from")?,
            claim: ended(alloc, records.as_str(), ".claim")?,
            records,
        })
    }

    /// That of the day's own file.
    pub(crate) fn input(&self) -> &str
        ensures { result.now ≡ self.now.input }
    {
        self.input.as_str()
    }

    fn places(&self) -> Places<'_>
        ensures { paths_at result ≡ paths_of_names self.now }
    {
        Places {
            input: self.input.as_str(),
            records: self.records.as_str(),
            report: self.report.as_str(),
            stamp: self.stamp.as_str(),
        }
    }

    /// The files that the walk makes whose claim has that number. Each is written under a name with this number, which no
    /// other walk uses.
    fn files(&self, alloc: Global, number: u64) -> Result<DayFiles, AllocError>
        ensures { IfOk result (λ files. files ≡ files_of self.now number) }
    {
        let ending = format!(in alloc; ".{number}.part")?;
        Ok(DayFiles {
            records: new_name(alloc, self.records.as_str(), ending.as_str())?,
            report: new_name(alloc, self.report.as_str(), ending.as_str())?,
            stamp: new_name(alloc, self.stamp.as_str(), ending.as_str())?,
        })
    }

    /// Removes what a killed walk left of the day, by the number of its claim, and then the claim.
    fn clear_left<T: Tree, C: Claims>(
        &self,
        tree: &mut T,
        work: &Work<'_, C>,
        left: C::Left,
    ) -> Result<(), ClaimFault>
        ensures { Goes (T.went tree.old) (T.went tree.new) (ChangesNames beside_paths self.now) }
    {
        let Some(number) = work.claims.left_number(&left) else {
            return Ok(());
        };
        let Ok(files) = self.files(work.alloc, number) else {
            return Err(ClaimFault::Memory);
        };
        // Without the claim nobody would know what to remove.
        if !sweep(tree, &files) {
            return Err(ClaimFault::CannotOpen(None));
        }
        work.claims.clear(left)
    }

    /// Asks for the day once, and clears what a killed walk left of it.
    fn try_claim<T: Tree, C: Claims>(
        &self,
        tree: &mut T,
        work: &Work<'_, C>,
    ) -> Result<Tried<C::Claim>, ClaimFault>
        ensures { Goes (T.went tree.old) (T.went tree.new) (ChangesNames beside_paths self.now) }
    {
        match work.claims.ask(work.alloc, self.claim.as_str())? {
            Asked::Ours(claim) => Ok(Tried::Ours(claim)),
            Asked::Left(left) => {
                self.clear_left(tree, work, left)?;
                Ok(Tried::Cleared)
            }
            Asked::Again => Ok(Tried::Again),
        }
    }

    /// Claims the day.
    fn claim<T: Tree, C: Claims>(
        &self,
        tree: &mut T,
        work: &Work<'_, C>,
    ) -> Result<Claimed<C::Claim>, ClaimFault>
        ensures { Goes (T.went tree.old) (T.went tree.new) (ChangesNames beside_paths self.now) }
    {
        let mut was_left = false;
        for _ in 0..TRIES {
            match self.try_claim(tree, work)? {
                Tried::Ours(claim) => return Ok(Claimed { claim, was_left }),
                Tried::Cleared => was_left = true,
                Tried::Again => {}
            }
        }
        Err(ClaimFault::ClaimedByAnother)
    }

    /// The same as is kept of a day, if that is asked for and no walk has the day or left something.
    fn same<T: Tree, C: Claims>(
        &self,
        tree: &mut T,
        work: &Work<'_, C>,
    ) -> Result<Option<Repacked>, AllocError>
        ensures told { IfOk result (λ found. IfSome found (IsSame work.now.asked)) }
        ensures goes { Goes (T.went tree.old) (T.went tree.new) (LooksForSame (paths_of_names self.now) work.now.asked result) }
    {
        let unclaimed = Unclaimed {
            claims: work.claims,
            path: self.claim.as_str(),
        };
        same_day(tree, work.alloc, self.places(), &unclaimed, &work.asked)
    }

    /// Does a day that this walk has, and lets it go, unless its stamp waits; the claim stays beside what could not be
    /// removed, since by its number the next walk finds that.
    fn do_claimed<T: Tree, C: Claims>(
        &self,
        tree: &mut T,
        work: &Work<'_, C>,
        claimed: Claimed<C::Claim>,
        made: &mut String,
    ) -> Result<Handled<C::Claim>, AllocError>
        ensures told { IfOk result (λ handled. IsDayOutcome work.now.asked handled.outcome) }
        ensures waits { IfOk result (λ handled. IfSome handled.waiting (λ day.
            HoldsAt (T.went tree.new) (AwaitsName self.now work.now.asked day.files))) }
        ensures goes { (out reports : Path) → AreNamesWithin out reports self.now → Goes (T.went tree.old) (T.went tree.new)
            (HandlesDay (λ handled. handled.outcome) self.now out reports work.now.asked result) }
    {
        let Claimed { claim, was_left } = claimed;
        let Ok(files) = self.files(work.alloc, work.claims.number(&claim)) else {
            // Nothing was written.
            work.claims.release(&claim);
            return Err(AllocError);
        };
        let mut held = Held {
            claims: work.claims,
            claim: &claim,
            alloc: work.alloc,
            folder: folder_of(self.report.as_str()),
            made: mem::replace(made, String::new(work.alloc)),
            unmade: None,
        };
        let end = do_day(
            tree,
            work.alloc,
            self.input.as_str(),
            &files,
            &mut held,
            was_left,
            &work.asked,
        );
        let Held {
            made: last,
            unmade,
            ..
        } = held;
        *made = last;
        let waiting = match end.left {
            Left::Stamp => Some(Waiting { files, claim }),
            Left::Nothing => {
                work.claims.release(&claim);
                None
            }
            Left::Parts => None,
        };
        let outcome = because(end.outcome?, unmade);
        Ok(Handled { outcome, waiting })
    }

    /// Does what is asked of the day: leaves it alone if an earlier walk did it and that is asked for, or claims and repacks
    /// it. If it is refused or not to be kept, no records and no report of it are left, unless the day cannot be claimed,
    /// or its own file may be one of those: then nothing is touched.
    pub(crate) fn handle<T: Tree, C: Claims>(
        &self,
        tree: &mut T,
        work: &Work<'_, C>,
        made: &mut String,
    ) -> Result<Handled<C::Claim>, AllocError>
        ensures told { IfOk result (λ handled. IsDayOutcome work.now.asked handled.outcome) }
        ensures waits { IfOk result (λ handled. IfSome handled.waiting (λ day.
            HoldsAt (T.went tree.new) (AwaitsName self.now work.now.asked day.files))) }
        ensures goes { (out reports : Path) → AreNamesWithin out reports self.now → Goes (T.went tree.old) (T.went tree.new)
            (HandlesDay (λ handled. handled.outcome) self.now out reports work.now.asked result) }
    {
        if let Some(repacked) = self.same(tree, work)? {
            return Ok(Handled::of(DayOutcome::Same(repacked)));
        }
        match self.claim(tree, work) {
            Ok(claimed) => self.do_claimed(tree, work, claimed, made),
            Err(fault) => Ok(Handled::of(DayOutcome::Refused(refusal_of(fault)?))),
        }
    }
}
