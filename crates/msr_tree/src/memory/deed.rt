//! A step of a tree in memory.
ghost use Rattle.std.specs.Prelude.{◌≡◌, option_map};

/// Something that was done, with what it was done to.
#[derive(Drop)]
pub(crate) enum Deed {
    Made(String, Vec<u8>),
    Linked(String, String),
    Renamed(String, String),
    Removed(String),
    FileStored(String),
    FolderStored(String),
    FolderMade(String),
    Unlisted(String),
    Failed,
}

impl Deed {
    ghost use Rattle.msr_tree.specs.Memory.{made_at, step_of, target_of};

    /// The name that gets a file.
    pub(super) fn target(&self) -> Option<&str>
        ensures { option_map (λ name. name.now) result ≡ target_of (step_of self.now) }
    {
        match self {
            Deed::Made(at, _) => Some(at.as_str()),
            Deed::Linked(_, to) | Deed::Renamed(_, to) => Some(to.as_str()),
            _ => None,
        }
    }

    /// The name that gets a file or a folder.
    pub(super) fn place(&self) -> Option<&str>
        ensures { option_map (λ name. name.now) result ≡ made_at (step_of self.now) }
    {
        match self {
            Deed::FolderMade(at) => Some(at.as_str()),
            _ => self.target(),
        }
    }
}
