//! Two files of a day change places: the one has the day's name in ROOT, the other waits under a name of its own. At each
//! moment each crash leaves one of the two in ROOT, whole, and each of the two in ROOT or under its own name.
ghost use Rattle.msr_tree.specs.Calls.{Goes};
ghost use Rattle.msr_exchange.specs.Names.{AreNames};
ghost use Rattle.msr_exchange.specs.Phases.{AreHome, HaveOneContent, AreSeenApart, HavePlaces, IsAside, IsInPlace, IsPrepared, MayGoBack};
ghost use Rattle.msr_exchange.specs.Promise.{AreKept, Keeps, KeepsAll};
ghost use Rattle.msr_exchange.specs.declared.names.Place.TheVariants.{Original, Records};

use crate::moves::{Dress, copy_stored, keep_as, settle, take_place};
use crate::names::{DayNames, Place};
use crate::preparing::{Verified, are_still, leave, prepare_records, was_written};
use crate::told::{GivenUp, Refusal, Told};
use msr_tree::{Tree, TreeFault};

/// The records of a day that were verified take the place of its file, which is set aside.
pub fn replace_day<T: Tree>(
    tree: &mut T,
    names: &DayNames,
    verified: &Verified,
) -> Result<Told, TreeFault>
    requires { AreNames names.now }
    ensures { Goes (T.went tree.old) (T.went tree.new)
        (KeepsAll names.now Original Records (AreKept names.now Original Records) result) }
{
    if !are_still(tree, names, verified)? {
        return Ok(Told::Changed);
    }
    if tree.is_same(names.at(Place::Day), names.at(Place::Records))? {
        return drop_same(tree, names);
    }
    settle_both(tree, names, verified)
}

/// ROOT has the records already, perhaps from a run that was killed: they leave OUT.
fn drop_same<T: Tree>(tree: &mut T, names: &DayNames) -> Result<Told, TreeFault>
    requires { AreNames names.now }
    ensures { Goes (T.went tree.old) (T.went tree.new)
        (KeepsAll names.now Original Records (HaveOneContent names.now Original Records) result) }
{
    settle(tree, names, Place::Day)?;
    drop_settled(tree, names)
}

/// Without the original in ASIDE, it is the records in ROOT that were repacked.
fn drop_settled<T: Tree>(tree: &mut T, names: &DayNames) -> Result<Told, TreeFault>
    requires { AreNames names.now }
    ensures { Goes (T.went tree.old) (T.went tree.new)
        (KeepsAll names.now Original Records (IsInPlace names.now Original Records) result) }
{
    if tree.look(names.at(Place::Original))?.is_some() {
        tree.remove(names.at(Place::Records))?;
    }
    Ok(Told::Same)
}

/// File and records are on the disk before anything goes on: an earlier run may not have stored them.
fn settle_both<T: Tree>(
    tree: &mut T,
    names: &DayNames,
    verified: &Verified,
) -> Result<Told, TreeFault>
    requires { AreNames names.now }
    ensures { Goes (T.went tree.old) (T.went tree.new)
        (KeepsAll names.now Original Records (AreSeenApart names.now Original Records) result) }
{
    settle(tree, names, Place::Day)?;
    settle(tree, names, Place::Records)?;
    set_aside(tree, names, verified)
}

fn set_aside<T: Tree>(
    tree: &mut T,
    names: &DayNames,
    verified: &Verified,
) -> Result<Told, TreeFault>
    requires { AreNames names.now }
    ensures { Goes (T.went tree.old) (T.went tree.new)
        (KeepsAll names.now Original Records (AreHome names.now Original Records) result) }
{
    let hindrance = keep_as(
        tree,
        names,
        Place::Original,
        Place::OriginalPart,
        Dress::Same,
    )?;
    match hindrance {
        Some(hindrance) => Ok(Told::Refused(Refusal::Aside(hindrance))),
        None => prepare(tree, names, verified),
    }
}

fn prepare<T: Tree>(tree: &mut T, names: &DayNames, verified: &Verified) -> Result<Told, TreeFault>
    requires { AreNames names.now }
    ensures { Goes (T.went tree.old) (T.went tree.new)
        (Keeps names.now Original Records (IsAside names.now Original Records) result) }
{
    match prepare_records(tree, names, verified)? {
        Some(given_up) => give_up(tree, names, given_up),
        None => take(tree, names, verified),
    }
}

/// The original has its place.
fn give_up<T: Tree>(tree: &mut T, names: &DayNames, given_up: GivenUp) -> Result<Told, TreeFault>
    requires { AreNames names.now }
    ensures { Goes (T.went tree.old) (T.went tree.new)
        (Keeps names.now Original Records (AreHome names.now Original Records) result) }
{
    leave(tree, names)?;
    Ok(given_up.told())
}

fn take<T: Tree>(tree: &mut T, names: &DayNames, verified: &Verified) -> Result<Told, TreeFault>
    requires { AreNames names.now }
    ensures { Goes (T.went tree.old) (T.went tree.new)
        (Keeps names.now Original Records (IsPrepared names.now Original Records) result) }
{
    take_place(tree, names)?;
    finish(tree, names, verified)
}

/// The records leave OUT, unless the original was written to until they took its place: that is not in them.
fn finish<T: Tree>(tree: &mut T, names: &DayNames, verified: &Verified) -> Result<Told, TreeFault>
    requires { AreNames names.now }
    ensures { Goes (T.went tree.old) (T.went tree.new)
        (Keeps names.now Original Records (HavePlaces names.now Original Records) result) }
{
    if was_written(tree, names, verified)? {
        return put_back(tree, names);
    }
    tree.remove(names.at(Place::Records))?;
    Ok(Told::Done)
}

/// The original gets its place again.
fn put_back<T: Tree>(tree: &mut T, names: &DayNames) -> Result<Told, TreeFault>
    requires { AreNames names.now }
    ensures { Goes (T.went tree.old) (T.went tree.new)
        (Keeps names.now Original Records (HavePlaces names.now Original Records) result) }
{
    copy_stored(tree, names, Place::Original, Place::DayPart)?;
    take_back(tree, names)
}

fn take_back<T: Tree>(tree: &mut T, names: &DayNames) -> Result<Told, TreeFault>
    requires { AreNames names.now }
    ensures { Goes (T.went tree.old) (T.went tree.new)
        (Keeps names.now Original Records (MayGoBack names.now Original Records) result) }
{
    take_place(tree, names)?;
    give_up(tree, names, GivenUp::Changed)
}
