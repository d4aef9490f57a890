//! The stamps of days get their names together.
ghost use Rattle.std.specs.Prelude.{[], ◌∷◌, map};
ghost use Rattle.msr_tree.specs.Calls.{Goes};
ghost use Rattle.msr_tree.specs.Steps.{FolderStored, Renamed};
ghost use Rattle.msr_naming.specs.Naming.{Performs};
ghost use Rattle.msr_naming.specs.Promise.{NamesStamps};

use crate::files::{DayFiles, Name};
use msr_tree::{Tree, TreeFault};

/// A day that is done but for the name of its stamp, and what is held until then.
#[derive(Drop)]
pub struct Waiting<C> {
    pub files: DayFiles,
    pub claim: C,
}

/// The stamps of days get their names, once what stands in the folders of their records and of their reports is on the
/// disk.
pub fn name_stamps<T: Tree, C>(
    tree: &mut T,
    out: &str,
    reports: &str,
    days: &[Waiting<C>],
) -> Result<(), TreeFault>
    ensures { Goes (T.went tree.old) (T.went tree.new) (NamesStamps out.now reports.now (map (λ day. day.files) days.now) result) }
{
    store_both(tree, out, reports)?;
    stamp_all(tree, days)
}

fn store_both<T: Tree>(tree: &mut T, out: &str, reports: &str) -> Result<(), TreeFault>
    ensures { Goes (T.went tree.old) (T.went tree.new)
        (Performs (FolderStored out.now ∷ FolderStored reports.now ∷ []) result) }
{
    tree.store_folder(out)?;
    tree.store_folder(reports)
}

fn stamp_all<T: Tree, C>(tree: &mut T, days: &[Waiting<C>]) -> Result<(), TreeFault>
    ensures { Goes (T.went tree.old) (T.went tree.new) (Performs (map (λ day. Renamed day.files.stamp.part day.files.stamp.path) days.now) result) }
{
    for day in days {
        let files = &day.files;
        tree.rename(files.at(Name::StampPart), files.at(Name::Stamp))?;
    }
    Ok(())
}
