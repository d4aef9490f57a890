//! The way back: the original takes the place of the records, which go back to OUT.
ghost use Rattle.msr_tree.specs.Calls.{Goes};
ghost use Rattle.msr_exchange.specs.Names.{AreNames};
ghost use Rattle.msr_exchange.specs.Phases.{AreHome, AreSeenApart, HasReturned, HaveOneContent, HavePlaces, IsAside, IsInPlace, IsPrepared, IsReadyToReturn, Waits};
ghost use Rattle.msr_exchange.specs.Promise.{AreKept, Keeps, KeepsAll, PutsBack, Restores};
ghost use Rattle.msr_exchange.specs.declared.names.Place.TheVariants.{Original, Records};

use crate::moves::{Dress, Hindrance, keep_as, look_alike, name_new, settle, take_place};
use crate::names::{DayNames, Place};
use crate::preparing::{forget, prepare_original, was_touched};
use crate::told::{Refusal, Told};
use msr_tree::{Kind, Tree, TreeFault};

/// The original of a day in ASIDE takes the place of its records in ROOT, which go back to OUT; or its own place, if no file
/// has that.
pub fn restore_day<T: Tree>(tree: &mut T, names: &DayNames) -> Result<Told, TreeFault>
    requires { AreNames names.now }
    ensures { Goes (T.went tree.old) (T.went tree.new)
        (Restores names.now Records Original (AreKept names.now Records Original) result) }
{
    let Some(day) = tree.look(names.at(Place::Day))? else {
        return put_back(tree, names);
    };
    match day.kind {
        Kind::Regular => change_back(tree, names),
        _ => Ok(Told::Refused(Refusal::Day(Hindrance::Link))),
    }
}

/// No file has the place of the original.
fn put_back<T: Tree>(tree: &mut T, names: &DayNames) -> Result<Told, TreeFault>
    requires { AreNames names.now }
    ensures { Goes (T.went tree.old) (T.went tree.new) (PutsBack names.now Original (Waits names.now Original) result) }
{
    let waiting = Place::Original;
    settle(tree, names, waiting)?;
    prepare_gone(tree, names)
}

fn prepare_gone<T: Tree>(tree: &mut T, names: &DayNames) -> Result<Told, TreeFault>
    requires { AreNames names.now }
    ensures { Goes (T.went tree.old) (T.went tree.new) (PutsBack names.now Original (Waits names.now Original) result) }
{
    match prepare_original(tree, names)? {
        Some(hindrance) => Ok(Told::Refused(Refusal::Day(hindrance))),
        None => take_free(tree, names),
    }
}

/// If a link has its place by now, the original stays in ASIDE.
fn take_free<T: Tree>(tree: &mut T, names: &DayNames) -> Result<Told, TreeFault>
    requires { AreNames names.now }
    ensures { Goes (T.went tree.old) (T.went tree.new) (PutsBack names.now Original (IsReadyToReturn names.now Original) result) }
{
    if !name_new(tree, names, Place::DayPart, Place::Day)? {
        return Ok(Told::Refused(Refusal::Day(Hindrance::Link)));
    }
    forget_returned(tree, names)
}

fn forget_returned<T: Tree>(tree: &mut T, names: &DayNames) -> Result<Told, TreeFault>
    requires { AreNames names.now }
    ensures { Goes (T.went tree.old) (T.went tree.new) (PutsBack names.now Original (HasReturned names.now) result) }
{
    forget(tree, names)?;
    Ok(Told::Done)
}

/// ROOT has a file of the day.
fn change_back<T: Tree>(tree: &mut T, names: &DayNames) -> Result<Told, TreeFault>
    requires { AreNames names.now }
    ensures { Goes (T.went tree.old) (T.went tree.new)
        (KeepsAll names.now Records Original (AreKept names.now Records Original) result) }
{
    if !look_alike(tree, names, Place::Day, Place::Original, Dress::Any)? {
        return Ok(Told::Refused(Refusal::Day(Hindrance::Link)));
    }
    if tree.is_same(names.at(Place::Day), names.at(Place::Original))? {
        return forget_same(tree, names);
    }
    settle_both(tree, names)
}

/// ROOT has the original already, perhaps from a run that was killed: it leaves ASIDE.
fn forget_same<T: Tree>(tree: &mut T, names: &DayNames) -> Result<Told, TreeFault>
    requires { AreNames names.now }
    ensures { Goes (T.went tree.old) (T.went tree.new)
        (KeepsAll names.now Records Original (HaveOneContent names.now Records Original) result) }
{
    settle(tree, names, Place::Day)?;
    forget_settled(tree, names)
}

fn forget_settled<T: Tree>(tree: &mut T, names: &DayNames) -> Result<Told, TreeFault>
    requires { AreNames names.now }
    ensures { Goes (T.went tree.old) (T.went tree.new)
        (KeepsAll names.now Records Original (IsInPlace names.now Records Original) result) }
{
    forget(tree, names)?;
    Ok(Told::Same)
}

/// Records and original are on the disk before anything goes on: an earlier run may not have stored them.
fn settle_both<T: Tree>(tree: &mut T, names: &DayNames) -> Result<Told, TreeFault>
    requires { AreNames names.now }
    ensures { Goes (T.went tree.old) (T.went tree.new)
        (KeepsAll names.now Records Original (AreSeenApart names.now Records Original) result) }
{
    settle(tree, names, Place::Day)?;
    settle(tree, names, Place::Original)?;
    give_back(tree, names)
}

/// If somebody has written to the records in ROOT, they stay there.
fn give_back<T: Tree>(tree: &mut T, names: &DayNames) -> Result<Told, TreeFault>
    requires { AreNames names.now }
    ensures { Goes (T.went tree.old) (T.went tree.new)
        (KeepsAll names.now Records Original (AreHome names.now Records Original) result) }
{
    if was_touched(tree, names)? {
        return Ok(Told::Changed);
    }
    keep_records(tree, names)
}

fn keep_records<T: Tree>(tree: &mut T, names: &DayNames) -> Result<Told, TreeFault>
    requires { AreNames names.now }
    ensures { Goes (T.went tree.old) (T.went tree.new)
        (KeepsAll names.now Records Original (AreHome names.now Records Original) result) }
{
    match keep_as(tree, names, Place::Records, Place::RecordsPart, Dress::Any)? {
        Some(hindrance) => Ok(Told::Refused(Refusal::Records(hindrance))),
        None => prepare(tree, names),
    }
}

fn prepare<T: Tree>(tree: &mut T, names: &DayNames) -> Result<Told, TreeFault>
    requires { AreNames names.now }
    ensures { Goes (T.went tree.old) (T.went tree.new)
        (Keeps names.now Records Original (IsAside names.now Records Original) result) }
{
    match prepare_original(tree, names)? {
        Some(hindrance) => Ok(Told::Refused(Refusal::Day(hindrance))),
        None => take(tree, names),
    }
}

fn take<T: Tree>(tree: &mut T, names: &DayNames) -> Result<Told, TreeFault>
    requires { AreNames names.now }
    ensures { Goes (T.went tree.old) (T.went tree.new)
        (Keeps names.now Records Original (IsPrepared names.now Records Original) result) }
{
    take_place(tree, names)?;
    finish(tree, names)
}

fn finish<T: Tree>(tree: &mut T, names: &DayNames) -> Result<Told, TreeFault>
    requires { AreNames names.now }
    ensures { Goes (T.went tree.old) (T.went tree.new)
        (Keeps names.now Records Original (HavePlaces names.now Records Original) result) }
{
    forget(tree, names)?;
    Ok(Told::Done)
}
