//! Claims by files and locks, and folders, of the system.
use crate::claims::{Asked, ClaimFault, Claims};
use msr_folders::{FileId, Lock, LockFile, Place, folder_of, join, place_of};
use msr_options::Folders;
use msr_sds::FOLDERS;
use msr_tree::TreeFault;
use std::alloc::{AllocError, Global};
use std::fs::{File, OpenFile, OpenOptions};
use std::io::ErrorKind;
use std::rt::Files;
use std::{fs, io};

/// The claims of a walk over the system's files.
#[derive(Clone, Copy)]
pub struct SystemClaims<'a, R> {
    rt: &'a R,
}

/// A day that this walk has. Its file stands under the name of the day's claim, open and locked; a process that ends,
/// however it ends, has it no longer. While it has that name nobody else has the day, since only who locked it removes
/// it.
#[derive(Drop)]
pub struct SystemClaim<F> {
    /// The name of its file.
    path: String,
    /// Its file, open, so that it is locked.
    _file: F,
    /// Which file it is. No other file that is there has its number.
    id: FileId,
}

/// The open file of a claim that was left, which is locked.
#[derive(Drop)]
pub struct SystemLeft<F> {
    path: String,
    /// Its file, open, so that it is locked.
    _file: F,
    id: Option<FileId>,
}

impl<'a, R: Files> SystemClaims<'a, R> {
    pub fn new(rt: &'a R) -> SystemClaims<'a, R> {
        SystemClaims { rt }
    }

    /// The file that stands under a name, if it is that open one.
    fn leads_to(&self, path: &str, file: &R::File) -> Option<FileId> {
        let found = FileId::of(&fs::symlink_metadata(self.rt, path).ok()?);
        let opened = FileId::of(&file.metadata().ok()?);
        (found == opened).then_some(opened)
    }

    /// Makes a file, if nothing has its name, not even a link, and before that its folder if it is missing.
    fn create_new(&self, path: &str) -> io::Result<R::File> {
        match File::create_new(self.rt, path) {
            Err(error) if error.kind() == ErrorKind::NotFound => {}
            result => return result,
        }
        match fs::create_dir_all(self.rt, folder_of(path)) {
            Ok(()) => File::create_new(self.rt, path),
            // A link that leads nowhere has the folder's name. Nothing has the file's.
            Err(error) if error.kind() == ErrorKind::AlreadyExists => {
                Err(ErrorKind::NotFound.into())
            }
            Err(error) => Err(error),
        }
    }

    /// The file of a claim that was left, or that another walk has; `None` if it is gone. What is no regular file is no
    /// claim, and is not opened.
    fn open_claim(&self, path: &str) -> Result<Option<R::File>, ClaimFault> {
        let answer = match fs::symlink_metadata(self.rt, path) {
            Ok(metadata) if metadata.is_file() => {
                OpenOptions::new().write(true).open(self.rt, path)
            }
            Ok(_) => return Err(ClaimFault::CannotOpen(None)),
            Err(error) => Err(error),
        };
        match answer {
            Ok(file) => Ok(Some(file)),
            Err(error) if error.kind() == ErrorKind::NotFound => Ok(None),
            Err(error) => Err(ClaimFault::CannotOpen(Some(error))),
        }
    }

    /// Stores the names of the folders that lead to that with this path below OUT or REPORTS, from its own upwards to the
    /// first that leads to the last one too.
    fn store_above(
        &self,
        alloc: Global,
        top: &str,
        below: &str,
        last: Option<&str>,
    ) -> Result<(), TreeFault> {
        let mut folder = below;
        for _ in 0..FOLDERS {
            folder = folder_of(folder);
            let path = join(alloc, top, folder)?;
            File::open(self.rt, path.as_str())?.sync_all()?;
            if let Some(last) = last
                && is_below(last, folder)
            {
                return Ok(());
            }
        }
        self.store_top(alloc, top)
    }

    /// Stores the name of OUT or REPORTS. Where the folder in which it stands may not be read, others made it.
    fn store_top(&self, alloc: Global, top: &str) -> Result<(), TreeFault> {
        let above = format!(in alloc; "{top}/..")?;
        match File::open(self.rt, above.as_str()) {
            Ok(folder) => Ok(folder.sync_all()?),
            Err(error) if error.kind() == ErrorKind::PermissionDenied => Ok(()),
            Err(error) => Err(error.into()),
        }
    }

    /// Where a folder with that path from a root stands, or will stand, seen from the archive's own.
    fn place_in(
        &self,
        alloc: Global,
        root: &str,
        folder: &str,
        own: &[FileId],
    ) -> Result<Place, AllocError> {
        let path = join(alloc, root, folder)?;
        place_of(self.rt, alloc, path.as_str(), own)
    }
}

impl<'a, R: Files> SystemClaims<'a, R>
where
    R::File: LockFile,
{
    /// Makes the file of a claim; `None` if there is one, or another walk took it for one that was left before it was
    /// locked.
    fn claim_anew(
        &self,
        alloc: Global,
        path: &str,
    ) -> Result<Option<SystemClaim<R::File>>, ClaimFault> {
        let Ok(name) = String::from_str(alloc, path) else {
            return Err(ClaimFault::Memory);
        };
        let file = match self.create_new(path) {
            Ok(file) => file,
            Err(error) if error.kind() == ErrorKind::AlreadyExists => return Ok(None),
            Err(error) => return Err(ClaimFault::CannotOpen(Some(error))),
        };
        if file.lock() == Lock::Others {
            return Ok(None);
        }
        let Some(id) = self.leads_to(path, &file) else {
            return Ok(None);
        };
        Ok(Some(SystemClaim {
            path: name,
            _file: file,
            id,
        }))
    }

    /// Takes an open file for the claim of a killed walk, unless a walk at work has locked it. Without locks nothing tells
    /// whether one is.
    fn left_of(
        &self,
        alloc: Global,
        path: &str,
        file: R::File,
    ) -> Result<SystemLeft<R::File>, ClaimFault> {
        if file.lock() != Lock::Ours {
            return Err(ClaimFault::ClaimedByAnother);
        }
        let Ok(name) = String::from_str(alloc, path) else {
            return Err(ClaimFault::Memory);
        };
        Ok(SystemLeft {
            id: self.leads_to(path, &file),
            path: name,
            _file: file,
        })
    }
}

impl<'a, R: Files> Claims for SystemClaims<'a, R>
where
    R::File: LockFile,
{
    type Claim = SystemClaim<R::File>;

    type Left = SystemLeft<R::File>;

    fn is_free(&self, path: &str) -> bool {
        fs::symlink_metadata(self.rt, path).is_err()
    }

    fn ask(
        &self,
        alloc: Global,
        path: &str,
    ) -> Result<Asked<SystemClaim<R::File>, SystemLeft<R::File>>, ClaimFault> {
        if let Some(claim) = self.claim_anew(alloc, path)? {
            return Ok(Asked::Ours(claim));
        }
        match self.open_claim(path)? {
            Some(file) => Ok(Asked::Left(self.left_of(alloc, path, file)?)),
            None => Ok(Asked::Again),
        }
    }

    fn left_number(&self, left: &SystemLeft<R::File>) -> Option<u64> {
        let id = left.id?;
        Some(id.number)
    }

    fn clear(&self, left: SystemLeft<R::File>) -> Result<(), ClaimFault> {
        match fs::remove_file(self.rt, left.path.as_str()) {
            Ok(()) => Ok(()),
            Err(error) => Err(ClaimFault::CannotOpen(Some(error))),
        }
    }

    fn number(&self, claim: &SystemClaim<R::File>) -> u64 {
        claim.id.number
    }

    fn is_ours(&self, claim: &SystemClaim<R::File>) -> bool {
        match fs::symlink_metadata(self.rt, claim.path.as_str()) {
            Ok(metadata) => FileId::of(&metadata) == claim.id,
            Err(_) => false,
        }
    }

    fn release(&self, claim: &SystemClaim<R::File>) {
        if self.is_ours(claim) {
            fs::remove_file(self.rt, claim.path.as_str()).ok();
        }
    }

    fn stand_apart(
        &self,
        alloc: Global,
        folders: Folders<'_>,
        folder: &str,
    ) -> Result<bool, AllocError> {
        let Ok(root) = fs::metadata(self.rt, folders.root) else {
            return Ok(false);
        };
        let days = fs::metadata(self.rt, join(alloc, folders.root, folder)?.as_str());
        let Ok(days) = days else {
            return Ok(false);
        };
        let own = [FileId::of(&root), FileId::of(&days)];
        Ok(
            self.place_in(alloc, folders.out, folder, &own)? == Place::Apart
                && self.place_in(alloc, folders.reports, folder, &own)? == Place::Apart,
        )
    }

    fn make_folder(&self, folder: &str) -> io::Result<()> {
        fs::create_dir_all(self.rt, folder)
    }

    fn store_names(
        &self,
        alloc: Global,
        folders: Folders<'_>,
        folder: &str,
        last: Option<&str>,
    ) -> Result<(), TreeFault> {
        self.store_above(alloc, folders.out, folder, last)?;
        self.store_above(alloc, folders.reports, folder, last)
    }
}

/// Whether a path leads through that folder; all lead through the one with no name.
fn is_below(path: &str, folder: &str) -> bool {
    match path.strip_prefix(folder) {
        Some(rest) => folder.is_empty() || rest.starts_with('/'),
        None => false,
    }
}
