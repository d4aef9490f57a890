//! The names in one of the system's folders, and what stands under them.
ghost use Rattle.std.specs.Prelude.{IfOk};
ghost use Rattle.std.specs.Cmp.Lexicographic.{slice_cmp};
ghost use Rattle.std.specs.List.Sorted.{IsStrictlySortedBy};
ghost use Rattle.std.specs.Ordering.{nat_cmp};
ghost use Rattle.msr_tree.specs.Listing.{listed};

use msr_tree::{FileKind, in_order};
use std::alloc::{Alloc, Global};
use std::io::ErrorKind;
use std::rt::Files;
use std::{fs, io};

/// The names in the folder, in the order of their bytes. If memory is not refused, an error tells that the folder
/// cannot be read, or that a name in it is not UTF-8. A folder that goes away while it is listed has no list: the system
/// gives its end in place of what is left.
pub(crate) fn names_in<R: Files>(rt: &R, alloc: Global, folder: &str) -> io::Result<Vec<String>>
    ensures { IfOk result (λ names. IsStrictlySortedBy (slice_cmp nat_cmp) (listed names.items)) }
{
    let mut names = Vec::new(alloc);
    list(&(rt, alloc), folder, &mut names)?;
    fs::metadata(rt, folder)?;
    in_order(&mut names);
    Ok(names)
}

/// Appends the names in the folder, as the system gives them. It is generic over what reads them, since each call that
/// names a pair as the files is dear to prove.
fn list<F: Files + Alloc<A = Global> + Clone + Drop>(
    files: &F,
    folder: &str,
    names: &mut Vec<String>,
) -> io::Result<()> {
    for entry in fs::read_dir(files, folder)? {
        push_name(names, files.alloc(), entry?.file_name())?;
    }
    Ok(())
}

fn push_name(names: &mut Vec<String>, alloc: Global, name: &str) -> io::Result<()> {
    Ok(names.push(String::from_str(alloc, name)?)?)
}

/// Links are followed, and one that leads nowhere is an entry. What the system does not tell of may be a folder: then
/// it is refused if it has no list, and no part of the archive is taken for something else.
pub(crate) fn kind_of<R: Files>(rt: &R, path: &str) -> FileKind {
    match fs::metadata(rt, path) {
        Ok(metadata) if metadata.is_dir() => FileKind::Folder,
        Ok(_) => FileKind::Other,
        Err(error) if error.kind() != ErrorKind::NotFound => FileKind::Folder,
        Err(_) if fs::symlink_metadata(rt, path).is_ok() => FileKind::Other,
        Err(_) => FileKind::Gone,
    }
}
