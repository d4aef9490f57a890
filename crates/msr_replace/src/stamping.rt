//! The stamp of a day whose files have changed places, by which `archive` leaves it alone. If it cannot be written, none is
//! left, or an old one that tells of another file.
ghost use Rattle.msr_tree.specs.Calls.{Goes};
ghost use Rattle.msr_exchange.specs.Stamped.{StampsRecords};
ghost use Rattle.msr_replace.specs.Stamping.{StampsRestored};

use crate::answers::{DayAnswer, DayRestored};
use msr_exchange::{DayNames, StampNames, stamp_day, stamp_records};
use msr_naming::StampOf;
use msr_tree::Tree;
use std::alloc::Global;

/// Whether a day of which that was told may have its records in ROOT.
fn may_be_in_place(answer: DayAnswer) -> bool {
    match answer {
        DayAnswer::Replaced { .. } | DayAnswer::Same => true,
        DayAnswer::Young
        | DayAnswer::Larger { .. }
        | DayAnswer::Changed
        | DayAnswer::Missing
        | DayAnswer::NotShown
        | DayAnswer::Differs
        | DayAnswer::Refused(_) => false,
    }
}

/// Stamps a day of which that was told, if its records are in ROOT.
pub(crate) fn stamp_replaced<T: Tree>(
    tree: &mut T,
    alloc: Global,
    names: &DayNames,
    stamp: &StampNames,
    answer: DayAnswer,
)
    ensures { Goes (T.went tree.old) (T.went tree.new) (StampsRecords names.now stamp.now) }
{
    if !may_be_in_place(answer) {
        return;
    }
    stamp_records(tree, alloc, names, stamp);
}

/// The same, if its original is.
pub(crate) fn stamp_restored<T: Tree>(
    tree: &mut T,
    alloc: Global,
    names: &DayNames,
    stamp: &StampNames,
    answer: DayRestored,
)
    ensures { Goes (T.went tree.old) (T.went tree.new) (StampsRestored names.now stamp.now answer) }
{
    match answer {
        DayRestored::Restored => stamp_day(tree, alloc, names, stamp, StampOf::Input),
        DayRestored::Changed => {}
        DayRestored::Refused(_) => {}
    }
}
