//! What is done with the names of a day, before and after its two files change places.
ghost use Rattle.std.specs.Prelude.{[], ◌∷◌};
ghost use Rattle.msr_tree.specs.Acts.{Acts};
ghost use Rattle.msr_tree.specs.Calls.{Goes};
ghost use Rattle.msr_exchange.specs.Moves.{Anything, GivesName, IsKeptAs, IsSeenAs, KeepsAs, KeepsName, NamesIfNone, Prepares, Stores, TakesName};
ghost use Rattle.msr_exchange.specs.Names.{AreNames, path_at};
ghost use Rattle.msr_exchange.specs.declared.names.Place.TheVariants.{Day, DayPart};

use crate::names::{DayNames, Place};
use msr_tree::{Facts, Kind, Tree, TreeFault};

/// Why a file is not given a name.
#[derive(Clone, Copy, PartialEq, Eq)]
pub enum Hindrance {
    /// A link, or what is no folder, is in the way.
    Link,
    /// Another file has it.
    Taken,
    /// Owner, group, mode or time cannot be kept.
    Dress,
}

/// What two files have to have in common beside their bytes.
#[derive(Clone, Copy, PartialEq, Eq)]
pub(crate) enum Dress {
    /// Owner, group, mode and time of last change.
    Same,
    Any,
}

/// Waits until a file and its name are on the disk.
pub(crate) fn settle<T: Tree>(tree: &mut T, names: &DayNames, place: Place) -> Result<(), TreeFault>
    requires { AreNames names.now }
    ensures { Goes (T.went tree.old) (T.went tree.new) (Acts [] (Stores (path_at names.now place)) result) }
{
    tree.store_file(names.at(place))?;
    tree.store_folder(names.folder(place))
}

/// A file gets a second name that none has, and is on the disk.
pub(crate) fn copy_stored<T: Tree>(
    tree: &mut T,
    names: &DayNames,
    from: Place,
    to: Place,
) -> Result<(), TreeFault>
    ensures { Goes (T.went tree.old) (T.went tree.new)
        (Acts (path_at names.now to ∷ []) (Prepares (path_at names.now from) (path_at names.now to)) result) }
{
    tree.copy(names.at(from), names.at(to))?;
    tree.store_file(names.at(to))
}

/// A file gets its own name on the disk in place of that of its part, or is removed if something has the name.
pub(crate) fn name_new<T: Tree>(
    tree: &mut T,
    names: &DayNames,
    part: Place,
    place: Place,
) -> Result<bool, TreeFault>
    requires { AreNames names.now }
    ensures { Goes (T.went tree.old) (T.went tree.new)
        (Acts (path_at names.now place ∷ path_at names.now part ∷ [])
        (GivesName (path_at names.now part) (path_at names.now place)) result) }
{
    if tree.rename_new(names.at(part), names.at(place))? {
        tree.store_folder(names.folder(place))?;
        return Ok(true);
    }
    tree.remove(names.at(part))?;
    Ok(false)
}

/// Whether two names lead to regular files, dressed alike if that is asked for.
pub(crate) fn look_alike<T: Tree>(
    tree: &mut T,
    names: &DayNames,
    one: Place,
    other: Place,
    dress: Dress,
) -> Result<bool, TreeFault>
    ensures { Goes (T.went tree.old) (T.went tree.new) (Acts [] Anything result) }
{
    let one = tree.look(names.at(one))?;
    let other = tree.look(names.at(other))?;
    Ok(are_alike(one, other, dress))
}

fn are_alike(one: Option<Facts>, other: Option<Facts>, dress: Dress) -> bool {
    match (one, other) {
        (Some(one), Some(other)) => {
            let are_regular = one.kind == Kind::Regular && other.kind == Kind::Regular;
            let is_dressed = one.rights == other.rights && one.changed == other.changed;
            are_regular && (dress == Dress::Any || is_dressed)
        }
        _ => false,
    }
}

/// Whether two names lead to regular files with the same bytes, dressed alike if that is asked for.
fn is_copy<T: Tree>(
    tree: &mut T,
    names: &DayNames,
    one: Place,
    other: Place,
    dress: Dress,
) -> Result<bool, TreeFault>
    ensures { Goes (T.went tree.old) (T.went tree.new)
        (Acts [] (IsSeenAs (path_at names.now one) (path_at names.now other)) result) }
{
    if !look_alike(tree, names, one, other, dress)? {
        return Ok(false);
    }
    tree.is_same(names.at(one), names.at(other))
}

/// The file that has a name is the day's, on the disk, or it is another.
fn is_kept<T: Tree>(
    tree: &mut T,
    names: &DayNames,
    place: Place,
    dress: Dress,
) -> Result<Option<Hindrance>, TreeFault>
    requires { AreNames names.now }
    ensures { Goes (T.went tree.old) (T.went tree.new)
        (Acts [] (IsKeptAs (path_at names.now Day) (path_at names.now place)) result) }
{
    if !is_copy(tree, names, Place::Day, place, dress)? {
        return Ok(Some(Hindrance::Taken));
    }
    settle(tree, names, place)?;
    Ok(None)
}

/// The day's file gets another name that none has, on the disk.
fn copy_as<T: Tree>(
    tree: &mut T,
    names: &DayNames,
    place: Place,
    part: Place,
    dress: Dress,
) -> Result<Option<Hindrance>, TreeFault>
    requires { AreNames names.now }
    ensures { Goes (T.went tree.old) (T.went tree.new)
        (Acts (path_at names.now place ∷ path_at names.now part ∷ [])
        (KeepsAs (path_at names.now Day) (path_at names.now place)) result) }
{
    copy_stored(tree, names, Place::Day, part)?;
    if look_alike(tree, names, Place::Day, part, dress)? {
        return named_as(tree, names, part, place);
    }
    tree.remove(names.at(part))?;
    Ok(Some(Hindrance::Dress))
}

fn named_as<T: Tree>(
    tree: &mut T,
    names: &DayNames,
    part: Place,
    place: Place,
) -> Result<Option<Hindrance>, TreeFault>
    requires { AreNames names.now }
    ensures { Goes (T.went tree.old) (T.went tree.new)
        (Acts (path_at names.now place ∷ path_at names.now part ∷ [])
        (NamesIfNone (path_at names.now part) (path_at names.now place)) result) }
{
    if name_new(tree, names, part, place)? {
        return Ok(None);
    }
    Ok(Some(Hindrance::Taken))
}

/// The day's file also has another name, on the disk, or it is told why not.
fn keep_at<T: Tree>(
    tree: &mut T,
    names: &DayNames,
    place: Place,
    part: Place,
    dress: Dress,
) -> Result<Option<Hindrance>, TreeFault>
    requires { AreNames names.now }
    ensures { Goes (T.went tree.old) (T.went tree.new)
        (KeepsName (path_at names.now Day) (path_at names.now place) (path_at names.now part) result) }
{
    if tree.look(names.at(place))?.is_some() {
        return is_kept(tree, names, place, dress);
    }
    copy_as(tree, names, place, part, dress)
}

/// The same, in a folder that is made if it is not there.
pub(crate) fn keep_as<T: Tree>(
    tree: &mut T,
    names: &DayNames,
    place: Place,
    part: Place,
    dress: Dress,
) -> Result<Option<Hindrance>, TreeFault>
    requires { AreNames names.now }
    ensures { Goes (T.went tree.old) (T.went tree.new)
        (KeepsName (path_at names.now Day) (path_at names.now place) (path_at names.now part) result) }
{
    if tree.make_folders(names.top(place), names.folder(place))? {
        return keep_at(tree, names, place, part, dress);
    }
    Ok(Some(Hindrance::Link))
}

/// The records, or the original, get the name of the day in ROOT, on the disk.
pub(crate) fn take_place<T: Tree>(tree: &mut T, names: &DayNames) -> Result<(), TreeFault>
    requires { AreNames names.now }
    ensures { Goes (T.went tree.old) (T.went tree.new) (TakesName (path_at names.now DayPart) (path_at names.now Day) result) }
{
    tree.rename(names.at(Place::DayPart), names.at(Place::Day))?;
    tree.store_folder(names.folder(Place::Day))
}
