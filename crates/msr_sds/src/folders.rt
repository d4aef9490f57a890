//! The paths of an archive's folders.
ghost use Rattle.std.specs.Prelude.{◌≡◌, ◌↔◌, IsTrue, All, count_by};
ghost use Rattle.msr_sds.specs.Folders.{IsDepthBelow, IsName, is_slash, names_of};

/// How many folders a path of a day file has: year, network, station, and channel with the type of its data.
pub const FOLDERS: u8 = 4;

/// Whether a file or folder has such a name: `.` and `..` are other names of folders that have names of their own.
fn is_name(name: &str) -> bool
    ensures { IsTrue result ↔ IsName name.now }
{
    !matches!(name, "" | "." | "..")
}

fn slashes_in(path: &str) -> usize
    ensures { result ≡ count_by is_slash path.now }
{
    path.as_bytes().iter().filter(|byte| **byte == b'/').count()
}

/// Whether what stands between the slashes of a path are names.
fn has_names(path: &str) -> bool
    ensures { IsTrue result ↔ All IsName (names_of path.now) }
{
    path.split('/').all(is_name)
}

/// How many levels of folders a walk goes below the folder with this path from the archive's own. `None` if it is no
/// path of names with `/` between them, or has more names than the folders of a day file's path.
pub fn levels_below(folder: &str) -> Option<u8>
    ensures { IsDepthBelow folder.now result }
{
    let slashes = slashes_in(folder);
    if slashes < FOLDERS as usize && has_names(folder) {
        Some(FOLDERS - 1 - slashes as u8)
    } else {
        None
    }
}
