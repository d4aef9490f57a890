//! The system's files, but for one folder, some names, and what standard input and output are redirected to.

use std::alloc::{Allocator, Global};
use std::fs::{Metadata, OpenFile, OpenOptions};
use std::io::{ErrorKind, Read};
use std::os::unix::fs::MetadataExt;
use std::rt::Files;
use std::time::{Clock, Duration};
use std::{fs, io};

/// Linux' number for want of permission.
const EACCES: i32 = 13;

/// What another program writes to a file that it took.
const TAKEN: &[u8] = b"another's";

/// What is odd in the files that a run sees. In `made`, `when` and `stays` a `*` stands for any text.
#[derive(Clone, Copy)]
pub struct OddFiles<'a> {
    rt: &'a HostRuntime,
    /// `folder=FOLDER/ names=KIND`: the folder has names of nothing.
    path: &'a str,
    /// The names, each ended by a NUL: without any the folder cannot be opened, and if the last one is cut short, it
    /// cannot be read to its end.
    names: &'static [u8],
    /// `earlier=FILE later=FILE gone=FILE`: a file gets the name `later` only if `earlier` is there and `gone` is not.
    earlier: &'a str,
    later: &'a str,
    /// `made=FILE other=FILE`: once `made` is there, `other` is opened in its place.
    made: &'a str,
    other: &'a str,
    gone: &'a str,
    /// `taken=FILE when=FILE`: when a file `when` is made, `taken` is replaced, as another program would.
    taken: &'a str,
    when: &'a str,
    /// `linked=FILE`: when a claim is made, it also gets the name of the day's unfinished records.
    linked: &'a str,
    /// `stays=FILE`: it cannot be removed.
    stays: &'a str,
    /// `redirected=FILE`: standard input seems redirected from it.
    redirected: &'a str,
    /// `redirecting=FILE`: standard output seems redirected to it.
    redirecting: &'a str,
}

impl<'a> OddFiles<'a> {
    /// Files of which nothing is odd.
    pub fn new(rt: &'a HostRuntime) -> OddFiles<'a> {
        OddFiles {
            rt,
            path: "",
            names: b"",
            earlier: "",
            later: "",
            made: "",
            other: "",
            gone: "",
            taken: "",
            when: "",
            linked: "",
            stays: "",
            redirected: "",
            redirecting: "",
        }
    }

    /// Adds one thing that is odd, by its name and value, if there are such.
    pub fn set(&mut self, name: &str, value: &'a str) -> bool {
        match name {
            "folder" => self.path = value,
            "names" => return self.set_names(value),
            "earlier" => self.earlier = value,
            "later" => self.later = value,
            "made" => self.made = value,
            "other" => self.other = value,
            "gone" => self.gone = value,
            "taken" => self.taken = value,
            "when" => self.when = value,
            "linked" => self.linked = value,
            "stays" => self.stays = value,
            "redirected" => self.redirected = value,
            "redirecting" => self.redirecting = value,
            _ => return false,
        }
        true
    }

    /// `names=KIND`: `closed` if the folder cannot be opened, `cut` if it cannot be read to its end, `latin` if it has
    /// a name that is not UTF-8, `marked` for names with control characters and one without, `day` for that of a day.
    fn set_names(&mut self, kind: &str) -> bool {
        self.names = match kind {
            "closed" => b"",
            "cut" => b"XX.TEST.00.BHN",
            "latin" => b"a\0\xff\0",
            "marked" => b"a\nrefused b\0\t\0\x7f\x1f\0\xc3\xa9 ~\0",
            "day" => b"XX.TEST.00.BHZ.D.2020.001\0",
            _ => return false,
        };
        true
    }

    /// The path of a file, also if it is that of standard input or output.
    fn followed<'p>(&'p self, path: &'p str) -> &'p str {
        match path {
            "/dev/stdin" if !self.redirected.is_empty() => self.redirected,
            "/dev/stdout" if !self.redirecting.is_empty() => self.redirecting,
            _ => path,
        }
    }

    /// What other programs do once a file is made.
    fn others_do(&self, path: &str, file: &<HostRuntime as Files>::File) -> io::Result<()> {
        if matches(self.when, path) {
            self.rt.remove_file(self.taken)?;
            fs::write(self.rt, self.taken, TAKEN)?;
        }
        match path.strip_suffix(".claim") {
            Some(records) if !self.linked.is_empty() => self.link(records, file.metadata()?.ino()),
            _ => Ok(()),
        }
    }

    /// Gives the linked file the name under which the records are written by the walk whose claim has that number.
    fn link(&self, records: &str, number: u64) -> io::Result<()> {
        let part = format!(in self.rt.alloc(); "{records}.{number}.part")?;
        fs::hard_link(self.rt, self.linked, part.as_str())
    }
}

/// Whether a path is that one, or begins and ends as the pattern does before and after its `*`.
fn matches(pattern: &str, path: &str) -> bool {
    let Some((head, tail)) = pattern.split_once('*') else {
        return path == pattern;
    };
    match path.strip_prefix(head) {
        Some(rest) => rest.ends_with(tail),
        None => false,
    }
}

/// The names of a folder.
#[derive(Drop)]
pub enum Names {
    Host(<HostRuntime as Files>::Dir),
    Odd(&'static [u8]),
}

impl Read for Names {
    fn read(&mut self, buf: &mut [u8]) -> io::Result<usize> {
        match self {
            Names::Host(dir) => dir.read(buf),
            Names::Odd(names) => {
                if !names.is_empty() && !names.ends_with(b"\0") {
                    return Err(ErrorKind::Other.into());
                }
                names.read(buf)
            }
        }
    }
}

impl<'a> Alloc for OddFiles<'a> {
    type A = Global;

    fn alloc(&self) -> Global {
        self.rt.alloc()
    }
}

impl<'a> Files for OddFiles<'a> {
    type File = <HostRuntime as Files>::File;

    type Dir = Names;

    fn open_file(&self, how: &OpenOptions, path: &str) -> io::Result<Self::File> {
        if matches(self.made, path) && self.rt.metadata(path).is_ok() {
            return self.rt.open_file(how, self.other);
        }
        let file = self.rt.open_file(how, self.followed(path))?;
        if how.asks_create_new() {
            self.others_do(path, &file)?;
        }
        Ok(file)
    }

    fn open_dir(&self, path: &str) -> io::Result<Names> {
        if path != self.path {
            return Ok(Names::Host(self.rt.open_dir(path)?));
        }
        if self.names.is_empty() {
            return Err(io::Error::from_raw_os_error(EACCES));
        }
        Ok(Names::Odd(self.names))
    }

    fn metadata(&self, path: &str) -> io::Result<Metadata> {
        self.rt.metadata(self.followed(path))
    }

    fn symlink_metadata(&self, path: &str) -> io::Result<Metadata> {
        self.rt.symlink_metadata(path)
    }

    fn copy(&self, from: &str, to: &str) -> io::Result<u64> {
        self.rt.copy(from, to)
    }

    fn rename(&self, from: &str, to: &str) -> io::Result<()> {
        if to == self.later {
            self.rt.metadata(self.earlier)?;
            if self.rt.metadata(self.gone).is_ok() {
                return Err(ErrorKind::Other.into());
            }
        }
        self.rt.rename(from, to)
    }

    fn remove_file(&self, path: &str) -> io::Result<()> {
        if matches(self.stays, path) {
            return Err(ErrorKind::PermissionDenied.into());
        }
        self.rt.remove_file(path)
    }

    fn create_dir(&self, path: &str) -> io::Result<()> {
        self.rt.create_dir(path)
    }

    fn remove_dir(&self, path: &str) -> io::Result<()> {
        self.rt.remove_dir(path)
    }

    fn remove_dir_all<B: Allocator>(&self, alloc: B, path: &str) -> io::Result<()> {
        self.rt.remove_dir_all(alloc, path)
    }

    fn hard_link(&self, original: &str, link: &str) -> io::Result<()> {
        self.rt.hard_link(original, link)
    }

    fn lchown(&self, path: &str, uid: Option<u32>, gid: Option<u32>) -> io::Result<()> {
        self.rt.lchown(path, uid, gid)
    }
}

impl<'a> Clock for OddFiles<'a> {
    fn monotonic(&self) -> io::Result<Duration> {
        self.rt.monotonic()
    }

    fn since_1970(&self) -> io::Result<Duration> {
        self.rt.since_1970()
    }
}
