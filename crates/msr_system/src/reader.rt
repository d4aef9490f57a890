//! Reading one of the system's files.
ghost use Rattle.msr_devices.specs.Device.{CanCountCall};

use msr_devices::{FromRead, Source};
use std::io;
use std::io::Read;
use std::marker::Model;

/// An open file of which a look told how many bytes it has. If a read gives the last of these, and the system had room for
/// more, it came to the file's end: the next one answers so, and the system is not asked again. A file that got longer or
/// shorter since the look is read until the system tells the end.
#[derive(Drop)]
pub struct SystemReader<R: Read> {
    source: FromRead<R>,
    /// How many bytes the look told.
    told: u64,
    given: u64,
    has_ended: bool,
}

impl<R: Read> Model for SystemReader<R> {
    ghost use Rattle.std.specs.Prelude.{◌≡◌, ◌<◌, ◌^◌, None, true};
    ghost use Rattle.msr_devices.specs.Device.{Device};

    ghost Value = { Device };

    ghost view = { λ reader. record {
      bytes = None;
      moved = reader.source.moved;
      failures = reader.source.failures;
      interruptions = reader.source.interruptions;
    } };

    ghost invariant = { λ reader. (reader.source.moved < 2 ^ 64)
        × (reader.has_ended ≡ true → reader.source.interruptions ≡ 0) };
}

impl<R: Read> SystemReader<R> {
    /// The file from its start, with what a look told.
    pub(crate) fn new(file: R, told: u64) -> SystemReader<R>
        ensures { CanCountCall (⟦<SystemReader<R> as Source>⟧.device result) }
    {
        SystemReader {
            source: FromRead::new(file),
            told,
            given: 0,
            has_ended: false,
        }
    }
}

impl<R: Read> Source for SystemReader<R> {
    ghost device = { λ reader. reader };

    fn read(&mut self, buf: &mut [u8]) -> io::Result<usize> {
        if self.has_ended {
            return Ok(0);
        }
        match self.source.read(buf) {
            Ok(n) => {
                self.given = self.given.saturating_add(n as u64);
                self.has_ended = n < buf.len() && self.given == self.told;
                Ok(n)
            }
            Err(error) => Err(error),
        }
    }
}
