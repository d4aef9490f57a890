//! The stamp of a day whose files have changed places, by which `archive` leaves it alone. If it cannot be written, none is
//! left, or an old one that tells of another file.
ghost use Rattle.std.specs.Prelude.{◌≡◌, ◌↔◌, [], IfOk, IfSome, IsOkAnd, IsSome, IsTrue, None, Ok};
ghost use Rattle.msr_tree.specs.Calls.{Goes};
ghost use Rattle.msr_tree.specs.Steps.{ChangesOnly};
ghost use Rattle.msr_exchange.specs.Work.{stamp_in};
ghost use Rattle.msr_exchange.specs.Stamped.{DropsStamp, FindsStamp, GivesStamp, IsStampOfFound, NamesStamp, StampsDay, StampsRecords, TellsGone};

use crate::names::{DayNames, Place};
use crate::work::DayWork;
use msr_naming::{Stamp, StampOf, gives_text, write_stamp};
use msr_tree::{Facts, Kind, Tree, TreeFault, folder_above};
use std::alloc::{AllocError, Global};
use std::marker::Model;

/// The name of a day's stamp, and the one beside it under which it is made.
#[derive(Drop)]
pub struct StampNames {
    path: String,
    part: String,
}

impl Model for StampNames {
    ghost use Rattle.std.specs.String.{string_bytes};
    ghost use Rattle.msr_exchange.specs.Names.{StampPlaces};

    ghost Value = { StampPlaces };

    ghost view = { λ names. record {
      path = string_bytes names.path;
      part = string_bytes names.part;
    } };
}

impl StampNames {
    /// Those of the day with this path from ROOT.
    pub fn new(work: &DayWork<'_>, path: &str) -> Result<StampNames, AllocError>
        ensures { IfOk result (λ names. names ≡ stamp_in work.now path.now) }
    {
        let (reports, folder) = (work.reports, folder_above(path));
        let path = format!(in work.alloc; "{reports}/{path}.from")?;
        let part = format!(in work.alloc; "{reports}/{folder}/.msrepack-replace.stamp")?;
        Ok(StampNames { path, part })
    }
}

/// The stamp of what was found, if it is a regular file.
fn regular_stamp(facts: &Facts) -> Option<Stamp>
    ensures { IfSome result (IsStampOfFound facts.now) }
{
    match facts.kind {
        Kind::Regular => Some(Stamp::of(facts)),
        Kind::Folder | Kind::Link | Kind::Other => None,
    }
}

/// The stamp of the file that has the day's place, if it is a regular one.
fn stamp_of_file<T: Tree>(tree: &mut T, names: &DayNames) -> Option<Stamp>
    ensures { Goes (T.went tree.old) (T.went tree.new) (FindsStamp names.now.day result) }
{
    match tree.look(names.at(Place::Day)) {
        Ok(Some(facts)) => regular_stamp(&facts),
        Ok(None) => None,
        Err(_) => None,
    }
}

/// Whether the stamp's name has that stamp.
fn has_stamp<T: Tree>(
    tree: &mut T,
    alloc: Global,
    names: &StampNames,
    of: StampOf,
    stamp: Stamp,
) -> bool
    ensures { Goes (T.went tree.old) (T.went tree.new) (ChangesOnly []) }
{
    let Ok(text) = stamp.text(alloc, of) else {
        return false;
    };
    match tree.open(names.path.as_str()) {
        Ok(mut source) => gives_text(&mut source, text.as_bytes()),
        Err(_) => false,
    }
}

/// What was made beside the stamp's name gets it, or goes.
fn name_stamp<T: Tree>(tree: &mut T, stamp: &StampNames)
    ensures { Goes (T.went tree.old) (T.went tree.new) (NamesStamp stamp.now) }
{
    let path = stamp.path.as_str();
    let renamed = tree.rename(stamp.part.as_str(), path);
    let _ = tree.store_folder(folder_above(path));
    if renamed.is_err() {
        let _ = tree.remove(stamp.part.as_str());
    }
}

fn drop_stamp<T: Tree>(tree: &mut T, names: &DayNames, stamp: &StampNames)
    ensures { Goes (T.went tree.old) (T.went tree.new) (DropsStamp names.now stamp.now) }
{
    let _ = tree.remove(stamp.part.as_str());
    let _ = tree.remove(stamp.path.as_str());
}

/// Writes that stamp, or leaves none.
fn give_stamp<T: Tree>(
    tree: &mut T,
    alloc: Global,
    names: &DayNames,
    stamp: &StampNames,
    of: StampOf,
    value: Stamp,
)
    ensures { Goes (T.went tree.old) (T.went tree.new) (GivesStamp names.now stamp.now of value) }
{
    if has_stamp(tree, alloc, stamp, of, value) {
        return;
    }
    if write_stamp(tree, alloc, stamp.part.as_str(), of, value) {
        name_stamp(tree, stamp);
        return;
    }
    drop_stamp(tree, names, stamp);
}

/// The stamp of a day becomes that of the file that has its place, or none is left.
pub fn stamp_day<T: Tree>(
    tree: &mut T,
    alloc: Global,
    names: &DayNames,
    stamp: &StampNames,
    of: StampOf,
)
    ensures { Goes (T.went tree.old) (T.went tree.new) (StampsDay names.now stamp.now of) }
{
    match stamp_of_file(tree, names) {
        Some(value) => give_stamp(tree, alloc, names, stamp, of, value),
        None => drop_stamp(tree, names, stamp),
    }
}

/// Whether a look found nothing.
fn is_nothing(found: Result<Option<Facts>, TreeFault>) -> bool
    ensures { IsTrue result ↔ found ≡ Ok None }
{
    match found {
        Ok(None) => true,
        Ok(Some(_)) | Err(_) => false,
    }
}

/// Whether a look found something.
fn is_something(found: Result<Option<Facts>, TreeFault>) -> bool
    ensures { IsTrue result ↔ IsOkAnd found IsSome }
{
    match found {
        Ok(Some(_)) => true,
        Ok(None) | Err(_) => false,
    }
}

/// Whether ASIDE has the day's original, and OUT no records of it.
fn are_gone<T: Tree>(tree: &mut T, names: &DayNames) -> bool
    ensures { Goes (T.went tree.old) (T.went tree.new) (TellsGone names.now.records result) }
{
    let original = tree.look(names.at(Place::Original));
    let records = tree.look(names.at(Place::Records));
    is_something(original) & is_nothing(records)
}

/// The stamp of a day becomes that of the records in ROOT, if ASIDE has its original, and OUT has none.
pub fn stamp_records<T: Tree>(tree: &mut T, alloc: Global, names: &DayNames, stamp: &StampNames)
    ensures { Goes (T.went tree.old) (T.went tree.new) (StampsRecords names.now stamp.now) }
{
    if !are_gone(tree, names) {
        return;
    }
    stamp_day(tree, alloc, names, stamp, StampOf::Records);
}
