//! The steps of a tree in memory, and what names lead to after them.
ghost use Rattle.std.specs.Prelude.{◌≡◌, option_map};
ghost use Rattle.msr_tree.specs.Memory.{file_of, steps_kept};
ghost use Rattle.msr_tree.specs.Steps.{now};

use crate::memory::deed::Deed;

/// A file: its bytes, and how many steps came before it was made.
#[derive(Clone, Copy)]
pub(crate) struct Found<'a> {
    pub(crate) bytes: &'a [u8],
    pub(crate) made: usize,
}

impl<'a> Found<'a> {
    /// The file with no more than its first bytes.
    pub(super) fn cut(self, count: usize) -> Found<'a> {
        Found {
            bytes: self.bytes.get(..count).unwrap_or(self.bytes),
            made: self.made,
        }
    }
}

/// The file that a name leads to after these steps.
pub(crate) fn find<'a>(deeds: &'a [Deed], name: &str) -> Option<Found<'a>>
    ensures { option_map file_of result ≡ now (steps_kept deeds.now) name.now }
{
    let mut wanted = name;
    let mut rest = deeds;
    while let Some((deed, before)) = rest.split_last() {
        match deed {
            Deed::Made(at, bytes) => {
                if wanted == at.as_str() {
                    return Some(Found {
                        bytes: bytes.as_slice(),
                        made: before.len(),
                    });
                }
            }
            Deed::Linked(from, to) => {
                if wanted == to.as_str() {
                    wanted = from.as_str();
                }
            }
            Deed::Renamed(from, to) => {
                if wanted == to.as_str() {
                    wanted = from.as_str();
                } else if wanted == from.as_str() {
                    return None;
                }
            }
            Deed::Removed(at) => {
                if wanted == at.as_str() {
                    return None;
                }
            }
            Deed::FileStored(_)
            | Deed::FolderStored(_)
            | Deed::FolderMade(_)
            | Deed::Unlisted(_)
            | Deed::Failed => {}
        }
        rest = before;
    }
    None
}
