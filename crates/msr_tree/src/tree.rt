//! What is done with names.
ghost use Rattle.std.specs.Prelude.{◌≡◌, List, IfOk};
ghost use Rattle.std.specs.Cmp.Lexicographic.{slice_cmp};
ghost use Rattle.std.specs.List.Sorted.{IsStrictlySortedBy};
ghost use Rattle.std.specs.Ordering.{nat_cmp};
ghost use Rattle.msr_devices.specs.Device.{CanCountCall};
ghost use Rattle.msr_tree.specs.Calls.{Begins, Copies, DoesStep, Finishes, FinishesStored, Goes, IsSameAs, Looks, MakesFolders, Opens, RenamesNew, Tells, TellsOneFile};
ghost use Rattle.msr_tree.specs.Listing.{IsTold, ListsFolder, is_there, listed};
ghost use Rattle.msr_tree.specs.Steps.{FileStored, FolderStored, Removed, Renamed, Step};
ghost use Rattle.msr_tree.specs.declared.tree.TreeFault.TheVariants.{Memory};

use crate::facts::{Facts, Time};
use crate::kind::FileKind;
use msr_devices::{Sink, Source};
use std::alloc::AllocError;
use std::io;
use std::io::ErrorKind;
use thiserror::Error;

/// Why a call has not done what it was to do.
#[derive(Clone, Copy, Debug, PartialEq, Eq, Error)]
pub enum TreeFault {
    #[error("out of memory")]
    Memory,
    /// The system refused it.
    #[error("the file system failed")]
    Failed,
}

impl From<AllocError> for TreeFault {
    ghost from_gives = { λ _ fault. fault ≡ Memory };

    fn from(_: AllocError) -> TreeFault {
        TreeFault::Memory
    }
}

impl From<io::Error> for TreeFault {
    fn from(error: io::Error) -> TreeFault {
        match error.kind() {
            ErrorKind::OutOfMemory => TreeFault::Memory,
            _ => TreeFault::Failed,
        }
    }
}

/// The names of a file system. Nobody else changes what they lead to. A call that fails has done its step or not.
pub trait Tree {
    /// An open file to be read.
    type Reader: Source + Drop;

    /// A file that is being made.
    type Writer: Sink + Drop;

    /// The steps so far may be these, the last one first. A tree of which no steps are known may have none.
    ghost went: { Self → List Step → Type 0 };

    /// Why a call failed the last time that one did, if the system gave a reason or the tree has one. Of `kind` none is kept.
    fn reason(&self) -> Option<io::Error>;

    /// What stands under a name, links not followed.
    fn look(&mut self, path: &str) -> Result<Option<Facts>, TreeFault>
        ensures { Goes (went self.old) (went self.new) (Tells (Looks path.now) result) };

    /// What stands under a name, links followed. One that leads nowhere is nothing.
    fn look_through(&mut self, path: &str) -> Result<Option<Facts>, TreeFault>
        ensures { Goes (went self.old) (went self.new) (Tells (Looks path.now) result) };

    /// The names of what stands in a folder, in the order of their bytes, each once. A folder that goes away meanwhile has
    /// no list, nor has one with a name that is not UTF-8.
    fn list(&mut self, folder: &str) -> Result<Vec<String>, TreeFault>
        ensures went { Goes (went self.old) (went self.new)
            (ListsFolder folder.now (λ names. listed names.items) result) }
        ensures ascend { IfOk result (λ names. IsStrictlySortedBy (slice_cmp nat_cmp) (listed names.items)) };

    /// What stands under a name, links followed. What the system does not tell of may be a folder.
    fn kind(&self, path: &str) -> FileKind
        ensures { (past : List Step) → went self.now past → IsTold past path.now result };

    /// Whether something stands under a name, links not followed.
    fn has(&mut self, path: &str) -> Result<bool, TreeFault>
        ensures { Goes (went self.old) (went self.new) (Tells (λ past answer. answer ≡ is_there past path.now) result) };

    /// Whether two names lead to one file, links followed.
    fn is_one(&mut self, one: &str, other: &str) -> Result<bool, TreeFault>
        ensures { Goes (went self.old) (went self.new) (Tells (TellsOneFile one.now other.now) result) };

    /// Opens the regular file to which a name leads, links followed, to be read from its start.
    fn follow(&mut self, path: &str) -> Result<Self::Reader, TreeFault>
        ensures went { Goes (went self.old) (went self.new)
            (Tells (λ past reader. Opens path.now past (Self.Reader.device reader)) result) }
        ensures count { IfOk result (λ reader. CanCountCall (Self.Reader.device reader)) };

    /// Opens what a look found under that name, links followed, to be read from its start, if it is a regular file.
    fn open_found(&mut self, path: &str, facts: &Facts) -> Result<Self::Reader, TreeFault>
        ensures went { Goes (went self.old) (went self.new)
            (Tells (λ past reader. Opens path.now past (Self.Reader.device reader)) result) }
        ensures count { IfOk result (λ reader. CanCountCall (Self.Reader.device reader)) };

    /// Opens a regular file to be read from its start.
    fn open(&mut self, path: &str) -> Result<Self::Reader, TreeFault>
        ensures went { Goes (went self.old) (went self.new)
            (Tells (λ past reader. Opens path.now past (Self.Reader.device reader)) result) }
        ensures count { IfOk result (λ reader. CanCountCall (Self.Reader.device reader)) };

    /// Makes a file under a name that nothing has. Until it is finished it has any bytes.
    fn make(&mut self, path: &str) -> Result<Self::Writer, TreeFault>
        ensures went { Goes (went self.old) (went self.new)
            (Begins path.now (λ writer. Self.Writer.device writer) result) }
        ensures count { IfOk result (λ writer. CanCountCall (Self.Writer.device writer)) };

    /// Ends the making of the file of that name: it has the bytes that its writer took.
    fn finish(&mut self, path: &str, writer: Self::Writer) -> Result<(), TreeFault>
        ensures { Goes (went self.old) (went self.new) (Finishes path.now (Self.Writer.device writer) result) };

    /// The same, and waits until they are on the disk.
    fn finish_stored(&mut self, path: &str, writer: Self::Writer) -> Result<(), TreeFault>
        ensures { Goes (went self.old) (went self.new) (FinishesStored path.now (Self.Writer.device writer) result) };

    /// Whether two regular files have the same bytes.
    fn is_same(&mut self, one: &str, other: &str) -> Result<bool, TreeFault>
        ensures { Goes (went self.old) (went self.new) (Tells (IsSameAs one.now other.now) result) };

    /// Gives a file another name, if nothing has it: by a link, or else by a copy, which is whole and keeps owner, group,
    /// mode and time as far as the system lets it.
    fn copy(&mut self, from: &str, to: &str) -> Result<(), TreeFault>
        ensures { Goes (went self.old) (went self.new) (Copies from.now to.now result) };

    /// Gives a file another name in place of its own and of what has it.
    fn rename(&mut self, from: &str, to: &str) -> Result<(), TreeFault>
        ensures { Goes (went self.old) (went self.new) (DoesStep (Renamed from.now to.now) result) };

    /// Gives a file another name in place of its own, or tells that something has that one.
    fn rename_new(&mut self, from: &str, to: &str) -> Result<bool, TreeFault>
        ensures { Goes (went self.old) (went self.new) (RenamesNew from.now to.now result) };

    /// Takes a name away, if something has it.
    fn remove(&mut self, path: &str) -> Result<(), TreeFault>
        ensures { Goes (went self.old) (went self.new) (DoesStep (Removed path.now) result) };

    /// Waits until the bytes of a file are on the disk. A file system that cannot wait for that fails.
    fn store_file(&mut self, path: &str) -> Result<(), TreeFault>
        ensures { Goes (went self.old) (went self.new) (DoesStep (FileStored path.now) result) };

    /// Waits until the names in a folder are on the disk.
    fn store_folder(&mut self, folder: &str) -> Result<(), TreeFault>
        ensures { Goes (went self.old) (went self.new) (DoesStep (FolderStored folder.now) result) };

    /// Makes a folder below another one, with all that lead to it, and stores them; or tells that a link, or what is no
    /// folder, is in the way.
    fn make_folders(&mut self, top: &str, folder: &str) -> Result<bool, TreeFault>
        ensures { Goes (went self.old) (went self.new) (MakesFolders result) };

    /// Takes a folder away if it is empty, and tells whether it is gone.
    fn remove_folder(&mut self, folder: &str) -> Result<bool, TreeFault>
        ensures { Goes (went self.old) (went self.new) (Tells (λ _ _. Unit {0}) result) };

    /// Gives a file the owner, group, mode and time that are asked for.
    fn dress(&mut self, path: &str, facts: &Facts, time: Option<Time>) -> Result<(), TreeFault>
        ensures { Goes (went self.old) (went self.new) (Tells (λ _ _. Unit {0}) result) };
}
