//! The folders of paths.
ghost use Rattle.std.specs.Prelude.{◌≡◌};
ghost use Rattle.msr_tree.specs.Listing.{is_within};
ghost use Rattle.msr_tree.specs.Steps.{folder_above};

/// The folder of a path, empty if it has no slash.
pub fn folder_above(path: &str) -> &str
    ensures { result.now ≡ folder_above path.now }
{
    match path.rsplit_once('/') {
        Some((folder, _)) => folder,
        None => "",
    }
}

/// Whether a path is a folder's own, or leads through it.
pub fn is_within(folder: &str, path: &str) -> bool
    ensures { result ≡ is_within folder.now path.now }
{
    let (folder, path) = (folder.as_bytes(), path.as_bytes());
    path.starts_with(folder) && (path.len() == folder.len() || path[folder.len()] == b'/')
}
