//! The files of a day get their names, or go, also where a folder cannot be stored: then as it is right for kills.
ghost use Rattle.std.specs.Prelude.{◌≡◌, [], false, map, true};
ghost use Rattle.msr_tree.specs.Calls.{Goes};
ghost use Rattle.msr_naming.specs.Following.{FollowsPlan, over_gone_acts, over_report_acts, report_acts, unstored_acts};
ghost use Rattle.msr_naming.specs.Naming.{Performs, act_step, told};
ghost use Rattle.msr_naming.specs.Promise.{ClearsDay, NamesDay};

use crate::files::{DayFiles, Name};
use crate::naming::{Act, Stopped, perform};
use msr_tree::{Tree, TreeFault};

impl Stopped {
    /// Whether a folder could not be stored.
    fn is_unstored(self) -> bool
        ensures { result ≡ true → self.fault ≡ TreeFault.Failed }
    {
        match self.act {
            Act::Store(_) => self.fault == TreeFault::Failed,
            Act::Remove(_) | Act::Rename(_, _) => false,
        }
    }
}

/// What was done with the names of a day.
#[derive(Clone, Copy)]
pub struct Naming {
    /// Whether each folder was stored that was to be.
    pub is_stored: bool,
    pub answer: Result<(), Stopped>,
}

/// Records and report get their names, where nothing has these, nor may after a crash, or perhaps older files.
pub fn name_files<T: Tree>(tree: &mut T, files: &DayFiles, is_free: bool) -> Naming
    ensures { Goes (T.went tree.old) (T.went tree.new) (NamesDay files.now is_free result) }
{
    let anew = [
        Act::Rename(Name::ReportPart, Name::Report),
        Act::Rename(Name::RecordsPart, Name::Records),
    ];
    if is_free {
        Naming {
            is_stored: true,
            answer: perform(tree, files, &anew),
        }
    } else {
        name_over(tree, files)
    }
}

/// The old stamp and the old records go, and then report and records get their names.
fn name_over<T: Tree>(tree: &mut T, files: &DayFiles) -> Naming
    ensures { Goes (T.went tree.old) (T.went tree.new) (NamesDay files.now false result) }
{
    let older = [
        Act::Remove(Name::Stamp),
        Act::Store(Name::Report),
        Act::Remove(Name::Records),
        Act::Store(Name::Records),
    ];
    match perform(tree, files, &older) {
        Ok(()) => name_gone(tree, files),
        Err(stopped) => {
            if stopped.is_unstored() {
                Naming {
                    is_stored: false,
                    answer: name_unstored(tree, files),
                }
            } else {
                Naming {
                    is_stored: true,
                    answer: Err(stopped),
                }
            }
        }
    }
}

/// The report and then the records get their names, where no folder can be stored.
fn name_unstored<T: Tree>(tree: &mut T, files: &DayFiles) -> Result<(), Stopped>
    ensures { Goes (T.went tree.old) (T.went tree.new) (Performs (map (act_step files.now) unstored_acts) (told result)) }
{
    let unstored = [
        Act::Remove(Name::Stamp),
        Act::Remove(Name::Records),
        Act::Rename(Name::ReportPart, Name::Report),
        Act::Rename(Name::RecordsPart, Name::Records),
    ];
    perform(tree, files, &unstored)
}

/// The report gets its name, and then the records, where these and the stamp are gone.
fn name_gone<T: Tree>(tree: &mut T, files: &DayFiles) -> Naming
    ensures { Goes (T.went tree.old) (T.went tree.new) (FollowsPlan files.now over_gone_acts report_acts result) }
{
    match perform(tree, files, &[Act::Rename(Name::ReportPart, Name::Report)]) {
        Ok(()) => name_records(tree, files),
        Err(stopped) => Naming {
            is_stored: true,
            answer: Err(stopped),
        },
    }
}

/// The records get their name, once that of the report is stored, if it can be.
fn name_records<T: Tree>(tree: &mut T, files: &DayFiles) -> Naming
    ensures { Goes (T.went tree.old) (T.went tree.new) (FollowsPlan files.now over_report_acts [] result) }
{
    let last = [Act::Rename(Name::RecordsPart, Name::Records)];
    match perform(tree, files, &[Act::Store(Name::Report)]) {
        Ok(()) => Naming {
            is_stored: true,
            answer: perform(tree, files, &last),
        },
        Err(stopped) => {
            if stopped.is_unstored() {
                Naming {
                    is_stored: false,
                    answer: perform(tree, files, &last),
                }
            } else {
                Naming {
                    is_stored: true,
                    answer: Err(stopped),
                }
            }
        }
    }
}

/// What stands under the names of a day goes.
pub fn clear_files<T: Tree>(tree: &mut T, files: &DayFiles) -> Naming
    ensures { Goes (T.went tree.old) (T.went tree.new) (ClearsDay files.now result) }
{
    let gone = [
        Act::Remove(Name::Stamp),
        Act::Store(Name::Report),
        Act::Remove(Name::Records),
        Act::Store(Name::Records),
        Act::Remove(Name::Report),
        Act::Store(Name::Report),
    ];
    let rest = [
        Act::Remove(Name::Stamp),
        Act::Remove(Name::Records),
        Act::Remove(Name::Report),
    ];
    match perform(tree, files, &gone) {
        Ok(()) => Naming {
            is_stored: true,
            answer: Ok(()),
        },
        Err(stopped) => {
            if stopped.is_unstored() {
                Naming {
                    is_stored: false,
                    answer: perform(tree, files, &rest),
                }
            } else {
                Naming {
                    is_stored: true,
                    answer: Err(stopped),
                }
            }
        }
    }
}
