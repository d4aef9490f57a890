//! The walk of a replace: through the folders of an archive, and then through those of its records; or through those of
//! the originals that were set aside.
ghost use Rattle.std.specs.Prelude.{◌↔◌, [], IfErr, IfOk, IsErrOf, OnOk, false};
ghost use Rattle.msr_devices.specs.Device.{CanCountCall, HasFailed};
ghost use Rattle.msr_exchange.specs.Work.{AreThreeFolders};
ghost use Rattle.msr_folders.specs.Walks.{TellsWalk};
ghost use Rattle.msr_folders.specs.Entries.{AreEntriesBetween};
ghost use Rattle.msr_tree.specs.Calls.{Goes};
ghost use Rattle.msr_options.specs.Tasks.{AreApartFrom, StandApart};
ghost use Rattle.msr_replace.specs.Said.{IsSaid, TellsSaid, walked};
ghost use Rattle.msr_replace.specs.Touched.{TouchesDays, course_of};
ghost use Rattle.msr_replace.specs.Tree.{ChangesAsked, IsWorkOf, ReplacesTree, TellsCourses};
ghost use Rattle.msr_replace.specs.Walk.{HasCome, ReplacesDays, StopsTellingExchanges};

use crate::locks::FolderLocks;
use crate::progress::Progress;
use crate::replacer::{Course, Replacer};
use crate::tally::Tally;
use msr_devices::{DeviceFault, Sink};
use msr_exchange::DayWork;
use msr_folders::{EntryWalk, WalkFound, days_before, visit_entries};
use msr_options::Replacing;
use msr_tree::{Time, Tree};
use std::alloc::Global;

/// How a walk ended.
#[derive(Drop)]
pub struct Replaced {
    /// The path of the day, or of the folder, in which the tree failed, so that nothing more was begun.
    pub failed: Option<String>,
    pub found: Result<WalkFound, DeviceFault>,
}

/// What is to be done with each day, at that time.
fn work_of<'a>(alloc: Global, asked: &Replacing<'a>, now: Time) -> DayWork<'a>
    requires apart { StandApart asked.now.folders }
    requires aside { AreApartFrom asked.now.aside.now asked.now.folders }
    ensures three { AreThreeFolders result }
    ensures work { IsWorkOf asked.now result }
{
    DayWork {
        alloc,
        root: asked.folders.root,
        out: asked.folders.out,
        reports: asked.folders.reports,
        aside: asked.aside,
        only_smaller: asked.only_smaller,
        changed_before: days_before(now, asked.older_than),
        touch: asked.touch,
        int24: asked.int24,
    }
}

/// Walks those folders.
fn walk_course<L: FolderLocks, T: Tree, O: Sink>(
    locks: &L,
    tree: &mut T,
    work: &DayWork<'_>,
    below: &[&str],
    course: Course,
    out: &mut O,
    progress: &mut Progress,
) -> Result<(), DeviceFault>
    requires apart { AreThreeFolders work.now }
    requires count { CanCountCall (O.device out.old) }
    ensures told { OnOk result (TellsWalk TellsSaid (IsSaid course work.now) (TouchesDays course work.now) (TouchesDays course work.now) ⊥ (walked course work.now)
        (λ past new. AreEntriesBetween (TouchesDays course work.now) past new (walked course work.now) below.now)
        (T.went tree.old) (T.went tree.new) (O.device out.old) (O.device out.new) progress.old progress.new) }
    ensures stops { IfErr result (StopsTellingExchanges (O.device out.old) (O.device out.new)) }
    ensures changes { Goes (T.went tree.old) (T.went tree.new) (TouchesDays course work.now) }
{
    let walk = EntryWalk {
        alloc: work.alloc,
        root: course.folder(work),
        below,
        visitor: &Replacer {
            locks,
            work: *work,
            course,
        },
    };
    visit_entries(&walk, tree, out, progress)
}

/// Walks the archive, and then its records.
fn walk_both<L: FolderLocks, T: Tree, O: Sink>(
    locks: &L,
    tree: &mut T,
    work: &DayWork<'_>,
    below: &[&str],
    out: &mut O,
    progress: &mut Progress,
) -> Result<(), DeviceFault>
    requires apart { AreThreeFolders work.now }
    requires count { CanCountCall (O.device out.old) }
    ensures told { OnOk result (TellsCourses false work.now below.now
        (T.went tree.old) (T.went tree.new) (O.device out.old) (O.device out.new) progress.old progress.new) }
    ensures stops { IfErr result (StopsTellingExchanges (O.device out.old) (O.device out.new)) }
    ensures changes { Goes (T.went tree.old) (T.went tree.new) (TouchesDays Course.Root work.now) }
{
    walk_course(locks, tree, work, below, Course::Root, out, progress)?;
    walk_course(locks, tree, work, below, Course::Out, out, progress)
}

/// Walks all that is asked for.
fn walk_all<L: FolderLocks, T: Tree, O: Sink>(
    locks: &L,
    tree: &mut T,
    work: &DayWork<'_>,
    asked: &Replacing<'_>,
    out: &mut O,
    progress: &mut Progress,
) -> Result<(), DeviceFault>
    requires apart { AreThreeFolders work.now }
    requires count { CanCountCall (O.device out.old) }
    ensures told { OnOk result (TellsCourses asked.now.undo work.now asked.now.below.items
        (T.went tree.old) (T.went tree.new) (O.device out.old) (O.device out.new) progress.old progress.new) }
    ensures stops { IfErr result (StopsTellingExchanges (O.device out.old) (O.device out.new)) }
    ensures changes { Goes (T.went tree.old) (T.went tree.new) (TouchesDays (course_of asked.now.undo) work.now) }
{
    let below = asked.below.as_slice();
    if asked.undo {
        return walk_course(locks, tree, work, below, Course::Aside, out, progress);
    }
    walk_both(locks, tree, work, below, out, progress)
}

/// Walks all that is asked for, and tells the sums.
fn walk<L: FolderLocks, T: Tree, O: Sink>(
    locks: &L,
    tree: &mut T,
    work: &DayWork<'_>,
    asked: &Replacing<'_>,
    out: &mut O,
    progress: &mut Progress,
) -> Result<WalkFound, DeviceFault>
    requires apart { AreThreeFolders work.now }
    requires work { IsWorkOf asked.now work.now }
    requires empty { HasCome [] progress.old }
    requires count { CanCountCall (O.device out.old) }
    ensures answer { ReplacesDays asked.now.undo (O.device out.old) (O.device out.new) progress.new.failed result }
    ensures write { IsErrOf result DeviceFault.Failed ↔ HasFailed (O.device out.old) (O.device out.new) }
    ensures tree { IfOk result (ReplacesTree asked.now (T.went tree.old) (T.went tree.new)
        (O.device out.old) (O.device out.new) progress.new.failed) }
    ensures changes { Goes (T.went tree.old) (T.went tree.new) (TouchesDays (course_of asked.now.undo) work.now) }
{
    walk_all(locks, tree, work, asked, out, progress)?;
    let tally = &progress.tally;
    tally.write(work.alloc, asked.undo, out)?;
    Ok(WalkFound::of(tally.unwell, tally.well))
}

/// Replaces the days of the archive, or of the folders of it that are asked for, one after another, and tells then the
/// days of the same folders of the records that the archive does not have; or restores the days that were set aside. Tells
/// last whether there is anything but days that are as they should be and what is skipped, and whether there is a day.
pub fn replace<L: FolderLocks, T: Tree, O: Sink>(
    locks: &L,
    alloc: Global,
    tree: &mut T,
    asked: &Replacing<'_>,
    now: Time,
    out: &mut O,
) -> Replaced
    requires apart { StandApart asked.now.folders }
    requires aside { AreApartFrom asked.now.aside.now asked.now.folders }
    requires count { CanCountCall (O.device out.old) }
    ensures answer { ReplacesDays asked.now.undo (O.device out.old) (O.device out.new) result.failed result.found }

    // A failure of the sink is answered as such, and nothing else is.
    ensures write { IsErrOf result.found DeviceFault.Failed ↔ HasFailed (O.device out.old) (O.device out.new) }

    // What is told is so of what the names lead to, and of each entry.
    ensures tree { IfOk result.found (ReplacesTree asked.now (T.went tree.old) (T.went tree.new)
        (O.device out.old) (O.device out.new) result.failed) }

    // However it ends, days are replaced, or restored, one after another, and nothing else is changed.
    ensures changes { Goes (T.went tree.old) (T.went tree.new) (ChangesAsked asked.now) }
{
    let work = work_of(alloc, asked, now);
    let mut progress = Progress {
        tally: Tally::new(),
        failed: None,
    };
    let found = walk(locks, tree, &work, asked, out, &mut progress);
    let Progress { failed, .. } = progress;
    Replaced { failed, found }
}
