//! Where folders stand: whether one is another or stands below it, by whatever links, mounts and names.
use crate::files::{FileId, Look};
use crate::paths::folder_of;
use std::alloc::{AllocError, Global};
use std::fs;
use std::rt::Files;

/// Where a folder stands, seen from another.
#[derive(Clone, Copy, PartialEq, Eq)]
pub enum Place {
    /// It is that one, or stands below it.
    Within,
    Apart,
    /// The system does not tell.
    Unknown,
}

/// How many folders one goes up from a folder at most: no path has more names.
const MOST_LEVELS: u16 = 4096;

/// A folder that is there.
#[derive(Clone, Copy)]
struct Folder<'a> {
    path: &'a str,
    id: FileId,
}

/// Goes up from a folder by `..`, to the top of all, which is its own parent.
fn climb<R: Files>(
    rt: &R,
    alloc: Global,
    folder: Folder<'_>,
    others: &[FileId],
) -> Result<Place, AllocError> {
    let mut place = String::from_str(alloc, folder.path)?;
    let mut id = folder.id;
    for _ in 0..MOST_LEVELS {
        if others.contains(&id) {
            return Ok(Place::Within);
        }
        place.push_str("/..")?;
        let Ok(metadata) = fs::metadata(rt, place.as_str()) else {
            return Ok(Place::Unknown);
        };
        let above = FileId::of(&metadata);
        if above == id {
            return Ok(Place::Apart);
        }
        id = above;
    }
    Ok(Place::Unknown)
}

/// The folder that is there in which a path stands, or will stand when its folders are made: itself if it is one.
/// `None` if the system does not tell.
fn nearest_folder<'a, R: Files>(rt: &R, path: &'a str) -> Option<Folder<'a>> {
    let mut place = path;
    for _ in 0..=path.len() {
        match Look::at(rt, place) {
            Look::Found(metadata) if metadata.is_dir() => return Some(Folder {
                path: place,
                id: FileId::of(&metadata),
            }),
            Look::Found(_) | Look::Nothing => {}
            Look::Unknown => return None,
        }
        place = above(place);
    }
    None
}

/// The folder of a path, as it is written.
fn above(path: &str) -> &str {
    let folder = folder_of(path);
    if !folder.is_empty() {
        folder
    } else if path.starts_with('/') {
        "/"
    } else {
        "."
    }
}

/// Where a path stands, or will stand, seen from these folders: within one of them, or apart from all.
pub fn place_of<R: Files>(
    rt: &R,
    alloc: Global,
    path: &str,
    others: &[FileId],
) -> Result<Place, AllocError> {
    match nearest_folder(rt, path) {
        Some(folder) => climb(rt, alloc, folder, others),
        None => Ok(Place::Unknown),
    }
}

/// Whether the folder is certainly the other, or stands or will stand below it.
fn is_within<R: Files>(
    rt: &R,
    alloc: Global,
    folder: &str,
    other: &str,
) -> Result<bool, AllocError> {
    let Ok(metadata) = fs::metadata(rt, other) else {
        return Ok(false);
    };
    let place = place_of(rt, alloc, folder, &[FileId::of(&metadata)])?;
    Ok(place == Place::Within)
}

/// Whether one of two folders is the other, or stands below it.
fn are_entangled<R: Files>(rt: &R, alloc: Global, a: &str, b: &str) -> Result<bool, AllocError> {
    Ok(is_within(rt, alloc, a, b)? || is_within(rt, alloc, b, a)?)
}

/// Whether one of three folders is another, or stands below it, whatever links and mounts lead there, as far as the
/// system tells.
pub fn folders_overlap<R: Files>(
    rt: &R,
    alloc: Global,
    first: &str,
    second: &str,
    third: &str,
) -> Result<bool, AllocError> {
    Ok(
        are_entangled(rt, alloc, first, second)?
            || are_entangled(rt, alloc, first, third)?
            || are_entangled(rt, alloc, second, third)?,
    )
}
