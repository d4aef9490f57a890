//! Making one of the system's files.
ghost use Rattle.msr_devices.specs.Device.{CanCountCall};

use crate::opening::refusal;
use msr_devices::{FromWrite, Sink};
use std::fs::OpenFile;
use std::io;
use std::io::{ErrorKind, Write};

/// A file that is being made. It takes no more than 2^64 - 1 bytes, and then fails.
#[derive(Drop)]
pub struct SystemWriter<W: Write> {
    path: String,
    /// How many bytes it took.
    bytes: u64,
    sink: FromWrite<W>,
}

impl<W: Write> SystemWriter<W> {
    /// A file of that name that has no bytes.
    pub(crate) fn new(path: String, file: W) -> SystemWriter<W>
        ensures { CanCountCall (⟦<SystemWriter<W> as Sink>⟧.device result) }
    {
        SystemWriter {
            path,
            bytes: 0,
            sink: FromWrite::new(file),
        }
    }

    /// It has to be the file of that name.
    pub(crate) fn require_of(&self, path: &str) -> io::Result<()> {
        if self.path.as_str() == path {
            Ok(())
        } else {
            Err(refusal("another file was made"))
        }
    }
}

impl<W: Write + Drop> SystemWriter<W> {
    /// Closes it, and tells its name and how many bytes it took.
    pub(crate) fn into_made(self) -> (String, u64) {
        let SystemWriter { path, bytes, .. } = self;
        (path, bytes)
    }
}

impl<W: Write + OpenFile> SystemWriter<W> {
    /// The same, and its bytes are stored. A file system that cannot wait for that tells nothing.
    pub(crate) fn store_of(&self, path: &str) -> io::Result<()> {
        match self.require_of(path) {
            Ok(()) => unless_it_cannot(self.sink.get_ref().sync_data()),
            refused => refused,
        }
    }
}

fn unless_it_cannot(stored: io::Result<()>) -> io::Result<()> {
    match stored {
        Ok(()) => Ok(()),
        Err(error) => match error.kind() {
            ErrorKind::InvalidInput | ErrorKind::Unsupported => Ok(()),
            _ => Err(error),
        },
    }
}

impl<W: Write> Sink for SystemWriter<W> {
    ghost device = { λ writer. ⟦<FromWrite<W> as Sink>⟧.device writer.sink };

    fn write(&mut self, buf: &[u8]) -> io::Result<usize> {
        match self.sink.write(buf) {
            Ok(n) => {
                self.bytes = self.bytes.saturating_add(n as u64);
                Ok(n)
            }
            Err(error) => Err(error),
        }
    }
}
