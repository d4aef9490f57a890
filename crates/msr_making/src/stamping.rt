//! The stamp of a day is written beside its name.
ghost use Rattle.std.specs.Prelude.{[]};
ghost use Rattle.msr_tree.specs.Calls.{Goes};
ghost use Rattle.msr_tree.specs.Folders.{ChangesFiles};
ghost use Rattle.msr_making.specs.Stamping.{StampsAsked};

use crate::answer::Left;
use crate::looks::{Sight, look_at};
use msr_naming::{DayFiles, Stamp, StampOf, write_stamp};
use msr_options::DayOptions;
use msr_tree::Tree;
use std::alloc::Global;

/// Writes the stamp of a day whose file is as a look found it, if that is asked for and each folder was stored that was to be;
/// without a stamp the next walk repacks it again.
pub(crate) fn stamp_asked<T: Tree>(
    tree: &mut T,
    alloc: Global,
    input: &str,
    sight: Sight,
    files: &DayFiles,
    is_stored: bool,
    asked: &DayOptions,
) -> Left
    ensures { Goes (T.went tree.old) (T.went tree.new) (StampsAsked sight files.now is_stored result) }
{
    if !asked.resume {
        return Left::Nothing;
    }
    if !is_stored {
        return Left::Nothing;
    }
    let Some(facts) = sight.regular() else {
        return Left::Nothing;
    };
    let stamp = Stamp::of(&facts);
    if !is_still(tree, input, stamp) {
        return Left::Nothing;
    }
    let part = files.stamp.part.as_str();
    if write_stamp(tree, alloc, part, StampOf::Input, stamp) {
        return Left::Stamp;
    }
    match tree.remove(part) {
        Ok(()) => Left::Nothing,
        Err(_) => Left::Parts,
    }
}

/// Whether a day's own file has that stamp still.
fn is_still<T: Tree>(tree: &mut T, input: &str, stamp: Stamp) -> bool
    ensures { Goes (T.went tree.old) (T.went tree.new) (ChangesFiles []) }
{
    match look_at(tree, input) {
        Ok(Sight::Found(facts)) => Stamp::of(&facts) == stamp,
        _ => false,
    }
}
