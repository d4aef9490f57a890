//! Readers and writers of std as sources and sinks, which count.
ghost use Rattle.std.specs.Prelude.{◌≡◌, ◌≢◌, ◌<◌, ◌+◌, ◌^◌, ◌-◌, take};
ghost use Rattle.std.specs.IoError.{error_kind};
ghost use Rattle.std.specs.Option.{option_map};
ghost use Rattle.msr_devices.specs.Device.{unused};

use crate::device::{Sink, Source};
use std::io;
use std::io::{ErrorKind, Read, Write};
use std::marker::Model;

/// Counts an interruption, or else a failure, which ends a row of interruptions.
pub(crate) fn count_error(error: &io::Error, failures: &mut u64, interruptions: &mut u64)
    requires { (failures.old < 2 ^ 64 - 1) × (interruptions.old < 2 ^ 64 - 1) }
    ensures interrupted { error_kind error.now ≡ ErrorKind.Interrupted
        → (failures.new ≡ failures.old) × (interruptions.new ≡ interruptions.old + 1) }
    ensures failed { error_kind error.now ≢ ErrorKind.Interrupted
        → (failures.new ≡ failures.old + 1) × (interruptions.new ≡ 0) }
{
    if error.kind() == ErrorKind::Interrupted {
        *interruptions += 1;
    } else {
        *failures += 1;
        *interruptions = 0;
    }
}

/// A reader as a source. It gives no more than 2^64 - 1 bytes, and then fails.
#[derive(Drop)]
pub struct FromRead<R: Read> {
    inner: R,
    given: u64,
    failures: u64,
    interruptions: u64,
}

impl<R: Read> Model for FromRead<R> {
    ghost use Rattle.std.specs.Prelude.{◌-◌, ◌^◌, take};
    ghost use Rattle.std.specs.Option.{option_map};
    ghost use Rattle.msr_devices.specs.Device.{Device};

    ghost Value = { Device };

    ghost view = { λ s. record {
      bytes = option_map (λ xs. take (2 ^ 64 - 1 - s.given) xs) (R.remaining s.inner);
      moved = s.given;
      failures = s.failures;
      interruptions = s.interruptions;
    } };
}

impl<R: Read> FromRead<R> {
    /// A source of the reader's bytes, with all counts 0.
    pub fn new(inner: R) -> FromRead<R>
        ensures { ⟦<FromRead<R> as Source>⟧.device result
            ≡ unused (option_map (λ xs. take (2 ^ 64 - 1) xs) (R.remaining inner)) }
    {
        FromRead {
            inner,
            given: 0,
            failures: 0,
            interruptions: 0,
        }
    }
}

impl<R: Read> Source for FromRead<R> {
    ghost device = { λ source. source };

    fn read(&mut self, buf: &mut [u8]) -> io::Result<usize> {
        let left = u64::MAX - self.given;
        if left == 0 && 0 < buf.len() {
            self.failures += 1;
            self.interruptions = 0;
            return Err(ErrorKind::FileTooLarge.into());
        }
        let most = buf.len().min(left as usize);
        match self.inner.read(&mut buf[..most]) {
            Ok(n) => {
                self.given += n as u64;
                self.interruptions = 0;
                Ok(n)
            }
            Err(error) => {
                count_error(&error, &mut self.failures, &mut self.interruptions);
                Err(error)
            }
        }
    }
}

/// A writer as a sink. It accepts no more than 2^64 - 1 bytes, and then fails.
#[derive(Drop)]
pub struct FromWrite<W: Write> {
    inner: W,
    accepted: u64,
    failures: u64,
    interruptions: u64,
}

impl<W: Write> Model for FromWrite<W> {
    ghost use Rattle.msr_devices.specs.Device.{Device};

    ghost Value = { Device };

    ghost view = { λ s. record {
      bytes = W.contents s.inner;
      moved = s.accepted;
      failures = s.failures;
      interruptions = s.interruptions;
    } };
}

impl<W: Write> FromWrite<W> {
    /// A sink that holds the writer's bytes, with all counts 0.
    pub fn new(inner: W) -> FromWrite<W>
        ensures { ⟦<FromWrite<W> as Sink>⟧.device result ≡ unused (W.contents inner) }
    {
        FromWrite {
            inner,
            accepted: 0,
            failures: 0,
            interruptions: 0,
        }
    }

    /// The writer, which holds the sink's bytes.
    pub fn get_ref(&self) -> &W
        ensures { W.contents result.now ≡ (⟦<FromWrite<W> as Sink>⟧.device self.now).bytes }
    {
        &self.inner
    }
}

impl<W: Write> Sink for FromWrite<W> {
    ghost device = { λ sink. sink };

    fn write(&mut self, buf: &[u8]) -> io::Result<usize> {
        let left = u64::MAX - self.accepted;
        if left == 0 && 0 < buf.len() {
            self.failures += 1;
            self.interruptions = 0;
            return Err(ErrorKind::FileTooLarge.into());
        }
        let most = buf.len().min(left as usize);
        match self.inner.write(&buf[..most]) {
            Ok(n) => {
                self.accepted += n as u64;
                self.interruptions = 0;
                if n == 0 && 0 < buf.len() {
                    self.failures += 1;
                }
                Ok(n)
            }
            Err(error) => {
                count_error(&error, &mut self.failures, &mut self.interruptions);
                Err(error)
            }
        }
    }
}
