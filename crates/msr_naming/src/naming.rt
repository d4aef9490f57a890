//! In which order the files of a day get their names.
ghost use Rattle.std.specs.Prelude.{◌≡◌, None, Some, codes, map};
ghost use Rattle.msr_tree.specs.Calls.{DoesStep, Goes};
ghost use Rattle.msr_tree.specs.Steps.{MayLeave};
ghost use Rattle.msr_naming.specs.Comes.{as_they_come, records_name, report_name};
ghost use Rattle.msr_naming.specs.Naming.{Performs, act_step, told};

use crate::files::{DayFiles, Name};
use msr_tree::{Tree, TreeFault, folder_above};

/// What is done with the names of a day.
#[derive(Clone, Copy)]
pub enum Act {
    Remove(Name),
    /// Waits until the names in its folder are on the disk.
    Store(Name),
    Rename(Name, Name),
}

/// What could not be done with the names of a day, and why.
#[derive(Clone, Copy)]
pub struct Stopped {
    pub act: Act,
    pub fault: TreeFault,
}

/// Does what is to be done in order, up to what fails first.
pub(crate) fn perform<T: Tree>(tree: &mut T, files: &DayFiles, acts: &[Act]) -> Result<(), Stopped>
    ensures { Goes (T.went tree.old) (T.went tree.new) (Performs (map (act_step files.now) acts.now) (told result)) }
{
    for act in acts {
        perform_one(tree, files, *act)?;
    }
    Ok(())
}

fn perform_one<T: Tree>(tree: &mut T, files: &DayFiles, act: Act) -> Result<(), Stopped>
    ensures { Goes (T.went tree.old) (T.went tree.new) (DoesStep (act_step files.now act) (told result)) }
{
    match call(tree, files, act) {
        Ok(()) => Ok(()),
        Err(fault) => Err(Stopped { act, fault }),
    }
}

fn call<T: Tree>(tree: &mut T, files: &DayFiles, act: Act) -> Result<(), TreeFault>
    ensures { Goes (T.went tree.old) (T.went tree.new) (DoesStep (act_step files.now act) result) }
{
    match act {
        Act::Remove(name) => tree.remove(files.at(name)),
        Act::Store(name) => tree.store_folder(folder_above(files.at(name))),
        Act::Rename(from, to) => tree.rename(files.at(from), files.at(to)),
    }
}

/// A law: where the report and the records of a day get their names as they come, and no folder is stored between, a crash
/// may leave the records without the report.
pub fn records_without_a_report()
    ensures records { MayLeave as_they_come records_name (Some (codes "records")) }
    ensures report { MayLeave as_they_come report_name None }
{}
