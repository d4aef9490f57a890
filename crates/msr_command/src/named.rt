//! The files that a task names.
ghost use Rattle.std.specs.Borrow.{Lends, sem};
ghost use Rattle.std.specs.Prelude.{◌≡◌, List, IfErr, IfOk, Some};
ghost use Rattle.msr_devices.specs.Device.{CanCountCall};
ghost use Rattle.msr_tree.specs.Calls.{Goes};
ghost use Rattle.msr_tree.specs.Steps.{Step};
ghost use Rattle.msr_command.specs.Named.{Cuts, Empties, IsReaderOf, KeepsTaken, OpensUncut};

use msr_devices::{DeviceFault, FromRead, FromWrite, Sink, Source};
use msr_folders::{FileId, settle};
use msr_system::SystemTree;
use msr_tree::Tree;
use std::alloc::Global;
use std::fs::{File, OpenFile, OpenOptions};
use std::io;
use std::io::Stderr;
use std::rt::Files;
use std::time::Clock;

/// The files that a task names, and the system that has them. Nobody else changes what their names lead to.
pub trait NamedFiles {
    /// The system that has the files.
    type System: Files + Clock + Copy;

    /// An open file to be read.
    type Reader: Source + Drop;

    /// An open file that can be written, and has what it had.
    type Uncut: Drop;

    /// An open file that is written from its start.
    type Writer: Sink + Drop;

    /// The names of the files, by which a walk finds them. A file that it renames may have both names.
    type Names: Tree;

    /// The same, where a file that the walk renames never has both.
    type Unlinked: Tree;

    /// The steps so far may be these, the last one first. Of files of which no steps are known there may be none.
    ghost went: { Self → List Step → Type 0 };

    /// The files once these are their names.
    ghost with_names: { Self → Self.Names → Self };

    ghost with_unlinked: { Self → Self.Unlinked → Self };

    fn system(&self) -> &Self::System;

    /// Lends a walk the names: what is done by them is done with the files. If a folder is watched, a person may see how
    /// far the walk through it is.
    fn lend(&mut self, alloc: Global, watched: Option<&str>) -> &mut Self::Names
        ensures* writes_back { sem 𝓛 (Lends Self.row Self.Names.row self.entry result (with_names self.old)) }
        ensures lends { Goes (went self.old) (Self.Names.went result.now) (λ old new. new ≡ old) }
        ensures keeps { (names : Self.Names) →
            Goes (Self.Names.went names) (went (with_names self.old names)) (λ old new. new ≡ old) };

    /// The same.
    fn lend_unlinked(&mut self, alloc: Global, watched: Option<&str>) -> &mut Self::Unlinked
        ensures* writes_back { sem 𝓛 (Lends Self.row Self.Unlinked.row self.entry result (with_unlinked self.old)) }
        ensures lends { Goes (went self.old) (Self.Unlinked.went result.now) (λ old new. new ≡ old) }
        ensures keeps { (names : Self.Unlinked) →
            Goes (Self.Unlinked.went names) (went (with_unlinked self.old names)) (λ old new. new ≡ old) };

    /// The walk has ended: nothing of it stays on the screen.
    fn clear(&mut self)
        ensures { Goes (went self.old) (went self.new) (λ old new. new ≡ old) };

    /// How many days a walk made anew, although their file was unchanged: their reports told other options or records.
    fn days_anew(&self) -> u64;

    /// Opens what a name leads to, links followed, to be read from its start, and tells which regular file it is. What
    /// comes through a pipe or a device is what its name leads to.
    fn open(&self, name: &str) -> io::Result<(Self::Reader, Option<FileId>)>
        ensures reads { IfOk result (λ opened. IsReaderOf (went self.now) name.now (Self.Reader.device opened.0)) }
        ensures count { IfOk result (λ opened. CanCountCall (Self.Reader.device opened.0)) };

    /// Opens what a name leads to, links followed, to be written, or makes a file with that name, and tells which regular
    /// file it is. It keeps what it has.
    fn open_uncut(&mut self, name: &str) -> io::Result<(Self::Uncut, Option<FileId>)>
        ensures { Goes (went self.old) (went self.new) (OpensUncut name.now) };

    /// Cuts to nothing what was opened with that name, if it is a regular file. What a pipe or a device takes is what its
    /// name leads to.
    fn cut(&mut self, name: &str, file: Self::Uncut) -> io::Result<Self::Writer>
        ensures went { Goes (went self.old) (went self.new) (Cuts name.now (λ writer. Self.Writer.device writer) result) }
        ensures count { IfOk result (λ writer. CanCountCall (Self.Writer.device writer)) };

    /// Waits until the system has stored what was written.
    fn settle(&self, writer: &Self::Writer) -> Result<(), DeviceFault>
        ensures { IfErr result (λ fault. fault ≡ DeviceFault.Failed) };

    /// Closes the writer that was opened with that name: it leads to the bytes that the writer took.
    fn leave(&mut self, name: &str, writer: Self::Writer)
        ensures { Goes (went self.old) (went self.new) (KeepsTaken name.now (Self.Writer.device writer)) };

    /// The same, but takes the bytes away again, if the system lets it.
    fn empty(&mut self, name: &str, writer: Self::Writer)
        ensures { Goes (went self.old) (went self.new) (Empties name.now (Self.Writer.device writer)) };
}

/// The system's files. No contract can say what a file gives: that each call makes what it notes is read here, and not
/// proved.
#[derive(Drop)]
pub struct SystemFiles<R: Files + Copy> {
    rt: R,
    screen: Option<Stderr>,
    /// What a walk has, or had last.
    names: Option<SystemTree<R>>,
}

impl<R: Files + Clock + Copy> SystemFiles<R> {
    pub fn new(rt: R) -> SystemFiles<R> {
        SystemFiles::watched(rt, None)
    }

    /// The same, and a person sees on that screen, if there is one, how far a walk is.
    pub fn watched(rt: R, screen: Option<Stderr>) -> SystemFiles<R> {
        SystemFiles {
            rt,
            screen,
            names: None,
        }
    }

    /// The names of a walk that begins, and a person sees how far it is, if a folder is watched.
    fn shown(&self, names: SystemTree<R>, watched: Option<&str>) -> SystemTree<R> {
        match watched {
            Some(root) => names.watched(root, self.screen),
            None => names,
        }
    }
}

/// One of the system's files that can be written.
#[derive(Drop)]
pub struct SystemUncut<W> {
    file: W,
    is_regular: bool,
}

#[tactic(auto, using(crate::proofs::Inputs::unknown))]
impl<R: Files + Clock + Copy> NamedFiles for SystemFiles<R> {
    type System = R;

    type Reader = FromRead<R::File>;

    type Uncut = SystemUncut<R::File>;

    type Writer = FromWrite<R::File>;

    type Names = SystemTree<R>;

    type Unlinked = SystemTree<R>;

    // No memory has their steps.
    ghost went = { λ _ _. ⊥ };

    ghost with_names = { λ files names. record files { names = Some names } };

    ghost with_unlinked = { λ files names. record files { names = Some names } };

    fn system(&self) -> &R {
        &self.rt
    }

    fn lend(&mut self, alloc: Global, watched: Option<&str>) -> &mut SystemTree<R> {
        let names = self.shown(SystemTree::new(self.rt, alloc), watched);
        self.names.insert(names)
    }

    fn lend_unlinked(&mut self, alloc: Global, watched: Option<&str>) -> &mut SystemTree<R> {
        let names = self.shown(SystemTree::unlinked(self.rt, alloc), watched);
        self.names.insert(names)
    }

    fn clear(&mut self) {
        if let Some(names) = &mut self.names {
            names.clear();
        }
    }

    fn days_anew(&self) -> u64 {
        match &self.names {
            Some(names) => names.days_anew(),
            None => 0,
        }
    }

    fn open(&self, name: &str) -> io::Result<(FromRead<R::File>, Option<FileId>)> {
        let file = File::open(&self.rt, name)?;
        let id = FileId::of_regular(&file.metadata()?);
        Ok((FromRead::new(file), id))
    }

    fn open_uncut(&mut self, name: &str) -> io::Result<(SystemUncut<R::File>, Option<FileId>)> {
        let file = OpenOptions::new()
            .write(true)
            .create(true)
            .open(&self.rt, name)?;
        let id = FileId::of_regular(&file.metadata()?);
        let is_regular = id.is_some();
        Ok((SystemUncut { file, is_regular }, id))
    }

    fn cut(&mut self, _name: &str, file: SystemUncut<R::File>) -> io::Result<FromWrite<R::File>> {
        let SystemUncut { file, is_regular } = file;
        if is_regular {
            file.set_len(0)?;
        }
        Ok(FromWrite::new(file))
    }

    fn settle(&self, writer: &FromWrite<R::File>) -> Result<(), DeviceFault> {
        settle(writer.get_ref())
    }

    fn leave(&mut self, _name: &str, _writer: FromWrite<R::File>) {}

    fn empty(&mut self, _name: &str, writer: FromWrite<R::File>) {
        writer.get_ref().set_len(0).ok();
    }
}
