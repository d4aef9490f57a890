//! What stands in a folder of a tree in memory.
ghost use Rattle.std.specs.Prelude.{◌≡◌, ◌↔◌, List, ℕ, Some, true, IfOk, IfSome, option_map};
ghost use Rattle.std.specs.Cmp.Lexicographic.{slice_cmp};
ghost use Rattle.std.specs.List.Sorted.{IsStrictlySortedBy};
ghost use Rattle.std.specs.Ordering.{nat_cmp};
ghost use Rattle.msr_tree.specs.Calls.{TellsOneFile};
ghost use Rattle.msr_tree.specs.Listing.{IsListing, IsEntryName, has_folder, is_there, kind_now, listed, path_in};
ghost use Rattle.msr_tree.specs.Memory.{IsEntryOf, step_of, steps_kept};

use crate::kind::FileKind;
use crate::memory::deed::Deed;
use crate::memory::deeds::find;
use crate::order::in_order;
use std::alloc::{AllocError, Global};

/// Whether a folder was made there.
pub(super) fn has_folder(deeds: &[Deed], path: &str) -> bool
    ensures { result ≡ has_folder (steps_kept deeds.now) path.now }
{
    let mut rest = deeds;
    while let Some((deed, before)) = rest.split_last() {
        match deed {
            Deed::FolderMade(at) => {
                if path == at.as_str() {
                    return true;
                }
            }
            _ => {}
        }
        rest = before;
    }
    false
}

/// Whether a file or a folder stands there.
pub(super) fn is_there(deeds: &[Deed], path: &str) -> bool
    ensures { result ≡ is_there (steps_kept deeds.now) path.now }
{
    has_folder(deeds, path) || find(deeds, path).is_some()
}

/// Whether two names lead to one file.
pub(super) fn are_one(deeds: &[Deed], one: &str, other: &str) -> bool
    ensures { TellsOneFile one.now other.now (steps_kept deeds.now) result }
{
    match (find(deeds, one), find(deeds, other)) {
        (Some(first), Some(second)) => first.made == second.made && first.bytes == second.bytes,
        _ => false,
    }
}

/// What stands there.
pub(super) fn kind_at(deeds: &[Deed], path: &str) -> FileKind
    ensures { result ≡ kind_now (steps_kept deeds.now) path.now }
{
    if has_folder(deeds, path) {
        return FileKind::Folder;
    }
    match find(deeds, path) {
        Some(_) => FileKind::Other,
        None => FileKind::Gone,
    }
}

/// The name of what stands in a folder.
fn name_in<'a>(folder: &str, path: &'a str) -> Option<&'a str>
    ensures all { (name : List ℕ) → IsEntryName name → path.now ≡ path_in folder.now name
        → option_map (λ found. found.now) result ≡ Some name }
    ensures only { IfSome result (λ name. IsEntryName name.now × (path.now ≡ path_in folder.now name.now)) }
{
    let (above, name) = path.rsplit_once('/')?;
    if above == folder && !name.is_empty() {
        Some(name)
    } else {
        None
    }
}

/// The name in a folder that a step gave to something that is still there.
fn entry_of<'a>(deeds: &[Deed], deed: &'a Deed, folder: &str) -> Option<&'a str>
    ensures all { (name : List ℕ) → IsEntryOf (steps_kept deeds.now) folder.now (step_of deed.now) name
        → option_map (λ found. found.now) result ≡ Some name }
    ensures only { IfSome result (λ name. IsEntryOf (steps_kept deeds.now) folder.now (step_of deed.now) name.now) }
{
    let path = deed.place()?;
    let name = name_in(folder, path)?;
    if is_there(deeds, path) {
        Some(name)
    } else {
        None
    }
}

/// The names in a folder that is there.
pub(super) fn names_in(
    alloc: Global,
    deeds: &[Deed],
    folder: &str,
) -> Result<Vec<String>, AllocError>
    requires { has_folder (steps_kept deeds.now) folder.now ≡ true }
    ensures { IfOk result (λ names. IsListing (steps_kept deeds.now) folder.now (listed names.items)) }
{
    let mut names = Vec::new(alloc);
    let mut rest = deeds;
    while let Some((deed, before)) = rest.split_last() {
        if let Some(name) = entry_of(deeds, deed, folder) {
            names.push(String::from_str(alloc, name)?)?;
        }
        rest = before;
    }
    in_order(&mut names);
    Ok(names)
}
