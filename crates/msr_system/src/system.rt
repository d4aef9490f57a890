//! The names of the system's files. No contract can say what a file gives, so that each call makes what it notes is read
//! here, and not proved: README.md, "What is trusted of the system's tree".
ghost use Rattle.std.specs.Prelude.{IfOk};
ghost use Rattle.msr_devices.specs.Device.{CanCountCall};

use crate::anew::Anew;
use crate::copying::{compare, dress};
use crate::listing::{kind_of, names_in};
use crate::made::Made;
use crate::making::make_stored;
use crate::naming::{copy_file, remove, remove_folder, rename_free, rename_over};
use crate::opening::{
    are_one, followed, followed_regular, found, is_there, known_regular, long_regular, store,
    store_bytes,
};
use crate::reader::SystemReader;
use crate::watch::Watch;
use crate::writer::SystemWriter;
use msr_devices::{Sink, Source};
use msr_tree::{Facts, FileKind, Kind, Time, Tree, TreeFault};
use std::alloc::Global;
use std::fs::File;
use std::io;
use std::io::{Read, Stderr, Write};
use std::rt::Files;
use std::time::Clock;

/// The system's files.
#[derive(Drop)]
pub struct SystemTree<R: Files + Copy> {
    rt: R,
    alloc: Global,
    reason: Option<io::Error>,
    /// Whether a file may have both names of a rename.
    has_links: bool,
    /// The folder that was made last, if it was there and stored then, with all that lead to it.
    stored: Option<String>,
    made: Made,
    watch: Watch,
    anew: Anew,
}

impl<R: Files + Copy> SystemTree<R> {
    pub fn new(rt: R, alloc: Global) -> SystemTree<R> {
        SystemTree {
            rt,
            alloc,
            reason: None,
            has_links: true,
            stored: None,
            made: Made::none(),
            watch: Watch::none(alloc),
            anew: Anew::new(),
        }
    }

    /// The same, where no file that is renamed has the other name already: then a rename need not look whether it was done.
    pub fn unlinked(rt: R, alloc: Global) -> SystemTree<R> {
        SystemTree {
            rt,
            alloc,
            reason: None,
            has_links: false,
            stored: None,
            made: Made::none(),
            watch: Watch::none(alloc),
            anew: Anew::new(),
        }
    }
}

impl<R: Files + Copy> SystemTree<R> {
    /// How many days of a walk were made anew, although their file was unchanged: their reports told other options or records.
    pub fn days_anew(&self) -> u64 {
        self.anew.days
    }
}

impl<R: Files + Clock + Copy> SystemTree<R> {
    /// The same, and a person sees on that screen, if there is one, how far the walk of a folder is.
    pub fn watched(self, root: &str, screen: Option<Stderr>) -> SystemTree<R> {
        match screen {
            Some(screen) => SystemTree {
                watch: Watch::new(&self.rt, self.alloc, root, screen),
                ..self
            },
            None => self,
        }
    }

    /// The walk has ended: nothing of it stays on the screen.
    pub fn clear(&mut self) {
        self.watch.clear();
    }
}

/// Keeps the reason of a call that fails.
fn told<T>(reason: &mut Option<io::Error>, answer: io::Result<T>) -> Result<T, TreeFault> {
    match answer {
        Ok(value) => Ok(value),
        Err(error) => {
            *reason = Some(error);
            Err(error.into())
        }
    }
}

fn reader<F: Read>(
    reason: &mut Option<io::Error>,
    opened: io::Result<(F, u64)>,
) -> Result<SystemReader<F>, TreeFault>
    ensures { IfOk result (λ reader. CanCountCall (⟦<SystemReader<F> as Source>⟧.device reader)) }
{
    match opened {
        Ok((file, bytes)) => Ok(SystemReader::new(file, bytes)),
        Err(error) => {
            *reason = Some(error);
            Err(error.into())
        }
    }
}

fn writer<F: Write>(
    reason: &mut Option<io::Error>,
    path: String,
    made: io::Result<F>,
) -> Result<SystemWriter<F>, TreeFault>
    ensures { IfOk result (λ writer. CanCountCall (⟦<SystemWriter<F> as Sink>⟧.device writer)) }
{
    match made {
        Ok(file) => Ok(SystemWriter::new(path, file)),
        Err(error) => {
            *reason = Some(error);
            Err(error.into())
        }
    }
}

#[tactic(auto, using(crate::proofs::Unknown::unknown))]
impl<R: Files + Clock + Copy> Tree for SystemTree<R> {
    type Reader = SystemReader<R::File>;

    type Writer = SystemWriter<R::File>;

    // No memory has its steps.
    ghost went = { λ _ _. ⊥ };

    fn reason(&self) -> Option<io::Error> {
        self.reason
    }

    fn look(&mut self, path: &str) -> Result<Option<Facts>, TreeFault> {
        let answer = found(&self.rt, path);
        told(&mut self.reason, answer)
    }

    fn look_through(&mut self, path: &str) -> Result<Option<Facts>, TreeFault> {
        let answer = followed(&self.rt, path);
        told(&mut self.reason, answer)
    }

    fn list(&mut self, folder: &str) -> Result<Vec<String>, TreeFault> {
        self.watch.note_folder(&self.rt, self.alloc, folder);
        match names_in(&self.rt, self.alloc, folder) {
            Ok(names) => Ok(names),
            Err(error) => {
                self.reason = Some(error);
                Err(error.into())
            }
        }
    }

    fn kind(&self, path: &str) -> FileKind {
        kind_of(&self.rt, path)
    }

    fn has(&mut self, path: &str) -> Result<bool, TreeFault> {
        let answer = is_there(&self.rt, path);
        told(&mut self.reason, answer)
    }

    fn is_one(&mut self, one: &str, other: &str) -> Result<bool, TreeFault> {
        let answer = are_one(&self.rt, one, other);
        told(&mut self.reason, answer)
    }

    fn follow(&mut self, path: &str) -> Result<SystemReader<R::File>, TreeFault> {
        let opened = match self.made.bytes_of(path) {
            Some(bytes) => known_regular(&self.rt, path, bytes),
            None => followed_regular(&self.rt, path),
        };
        self.watch
            .note_file(&self.rt, self.alloc, path, opened.is_ok());
        reader(&mut self.reason, opened)
    }

    // Nothing else is opened, since opening a pipe waits for somebody who writes to it; nor has the system a reason then.
    fn open_found(
        &mut self,
        path: &str,
        facts: &Facts,
    ) -> Result<SystemReader<R::File>, TreeFault> {
        if facts.kind != Kind::Regular {
            self.reason = None;
            return Err(TreeFault::Failed);
        }
        let opened = known_regular(&self.rt, path, facts.bytes);
        self.anew.note_opened(self.alloc, path);
        self.watch
            .note_file(&self.rt, self.alloc, path, opened.is_ok());
        reader(&mut self.reason, opened)
    }

    fn open(&mut self, path: &str) -> Result<SystemReader<R::File>, TreeFault> {
        let opened = long_regular(&self.rt, path);
        self.watch
            .note_file(&self.rt, self.alloc, path, opened.is_ok());
        reader(&mut self.reason, opened)
    }

    fn make(&mut self, path: &str) -> Result<SystemWriter<R::File>, TreeFault> {
        let path = String::from_str(self.alloc, path)?;
        let made = File::create_new(&self.rt, path.as_str());
        writer(&mut self.reason, path, made)
    }

    fn finish(&mut self, path: &str, writer: SystemWriter<R::File>) -> Result<(), TreeFault> {
        let answer = writer.require_of(path);
        told(&mut self.reason, answer)
    }

    fn finish_stored(
        &mut self,
        path: &str,
        writer: SystemWriter<R::File>,
    ) -> Result<(), TreeFault> {
        let answer = writer.store_of(path);
        if answer.is_ok() {
            let (name, bytes) = writer.into_made();
            self.made.note(name, bytes);
        }
        told(&mut self.reason, answer)
    }

    fn is_same(&mut self, one: &str, other: &str) -> Result<bool, TreeFault> {
        let answer = compare(&self.rt, self.alloc, one, other);
        told(&mut self.reason, answer)
    }

    fn copy(&mut self, from: &str, to: &str) -> Result<(), TreeFault> {
        self.made.forget();
        let answer = copy_file(&self.rt, from, to);
        told(&mut self.reason, answer)
    }

    fn rename(&mut self, from: &str, to: &str) -> Result<(), TreeFault> {
        self.made.forget();
        let answer = rename_over(&self.rt, from, to, self.has_links);
        if answer.is_ok() {
            self.anew.note_named(to);
        }
        told(&mut self.reason, answer)
    }

    fn rename_new(&mut self, from: &str, to: &str) -> Result<bool, TreeFault> {
        self.made.forget();
        let answer = rename_free(&self.rt, from, to);
        told(&mut self.reason, answer)
    }

    fn remove(&mut self, path: &str) -> Result<(), TreeFault> {
        self.made.forget();
        let answer = remove(&self.rt, path);
        told(&mut self.reason, answer)
    }

    fn store_file(&mut self, path: &str) -> Result<(), TreeFault> {
        let answer = store_bytes(&self.rt, path);
        told(&mut self.reason, answer)
    }

    fn store_folder(&mut self, folder: &str) -> Result<(), TreeFault> {
        let answer = store(&self.rt, folder);
        told(&mut self.reason, answer)
    }

    fn make_folders(&mut self, top: &str, folder: &str) -> Result<bool, TreeFault> {
        let answer = make_stored(&self.rt, self.alloc, &mut self.stored, top, folder);
        told(&mut self.reason, answer)
    }

    fn remove_folder(&mut self, folder: &str) -> Result<bool, TreeFault> {
        self.stored = None;
        let answer = remove_folder(&self.rt, folder);
        told(&mut self.reason, answer)
    }

    fn dress(&mut self, path: &str, facts: &Facts, time: Option<Time>) -> Result<(), TreeFault> {
        let answer = dress(&self.rt, path, facts, time);
        told(&mut self.reason, answer)
    }
}
