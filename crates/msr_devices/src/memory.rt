//! Devices in memory, for tests: they move few bytes in a call, are interrupted, and fail once.
ghost use Rattle.std.specs.Prelude.{◌≡◌, ◌-◌, ◌<◌, ◌≤◌, length, drop, Some};
ghost use Rattle.msr_devices.specs.Device.{unused};

use crate::adapters::count_error;
use crate::device::{Sink, Source};
use std::io;
use std::io::ErrorKind;
use std::marker::Model;

/// How a test device behaves.
#[derive(Clone, Copy, Debug, PartialEq, Eq)]
pub struct Behavior {
    /// The greatest number of bytes that one call moves; 0 stands for 1.
    pub most: usize,
    /// How many interruptions come before each call that succeeds.
    pub interruptions: u32,
    /// The one call that fails, counted from 0 among those that are not interrupted.
    pub fails_at: Option<u64>,
}

/// A behavior, and how far it has gone.
#[derive(Clone, Copy)]
struct Script {
    behavior: Behavior,
    waited: u32,
}

impl Script {
    fn new(behavior: Behavior) -> Script {
        Script {
            behavior,
            waited: 0,
        }
    }

    /// The error of the next call, if it does not succeed.
    fn next_error(&mut self) -> Option<ErrorKind> {
        if self.behavior.fails_at == Some(0) {
            self.behavior.fails_at = None;
            return Some(ErrorKind::Other);
        }
        if self.waited < self.behavior.interruptions {
            self.waited += 1;
            return Some(ErrorKind::Interrupted);
        }
        self.waited = 0;
        if let Some(n) = self.behavior.fails_at {
            self.behavior.fails_at = n.checked_sub(1);
        }
        None
    }

    /// How many of `len` bytes one call moves.
    fn share_of(self, len: usize) -> usize
        ensures within { result ≤ len }
        ensures some { 0 < len → 0 < result }
    {
        len.min(self.behavior.most.max(1))
    }
}

/// A source over a slice.
#[derive(Drop)]
pub struct TestSource<'a> {
    bytes: &'a [u8],
    at: usize,
    failures: u64,
    interruptions: u64,
    script: Script,
}

impl<'a> Model for TestSource<'a> {
    ghost use Rattle.std.specs.Prelude.{◌≤◌, length, drop, Some};
    ghost use Rattle.msr_devices.specs.Device.{Device};

    ghost Value = { Device };

    ghost view = { λ s. record {
      bytes = Some (drop s.at s.bytes.now);
      moved = s.at;
      failures = s.failures;
      interruptions = s.interruptions;
    } };

    ghost invariant = { λ s. s.at ≤ length s.bytes.now };
}

impl<'a> TestSource<'a> {
    /// A source of these bytes, with all counts 0.
    pub fn new(bytes: &'a [u8], behavior: Behavior) -> TestSource<'a>
        ensures { ⟦<TestSource<'a> as Source>⟧.device result ≡ unused (Some bytes.entry.now) }
    {
        TestSource {
            bytes,
            at: 0,
            failures: 0,
            interruptions: 0,
            script: Script::new(behavior),
        }
    }
}

impl Source for TestSource<'_> {
    ghost device = { λ source. source };

    fn read(&mut self, buf: &mut [u8]) -> io::Result<usize> {
        if let Some(kind) = self.script.next_error() {
            let error = kind.into();
            count_error(&error, &mut self.failures, &mut self.interruptions);
            return Err(error);
        }
        let n = self
            .script
            .share_of(buf.len())
            .min(self.bytes.len() - self.at);
        buf[..n].copy_from_slice(&self.bytes[self.at..self.at + n]);
        self.at += n;
        self.interruptions = 0;
        Ok(n)
    }
}

/// A sink over a `Vec`. A refused growth of the `Vec` is a failure.
#[derive(Drop)]
pub struct TestSink {
    bytes: Vec<u8>,
    begun: usize,
    failures: u64,
    interruptions: u64,
    script: Script,
    accepts_nothing: bool,
}

impl Model for TestSink {
    ghost use Rattle.std.specs.Prelude.{◌-◌, ◌≤◌, length, Some};
    ghost use Rattle.msr_devices.specs.Device.{Device};

    ghost Value = { Device };

    ghost view = { λ s. record {
      bytes = Some s.bytes.items;
      moved = length s.bytes.items - s.begun;
      failures = s.failures;
      interruptions = s.interruptions;
    } };

    ghost invariant = { λ s. s.begun ≤ length s.bytes.items };
}

impl TestSink {
    /// A sink that holds these bytes, with all counts 0. At the call that fails it answers an error.
    pub fn new(bytes: Vec<u8>, behavior: Behavior) -> TestSink
        ensures { ⟦<TestSink as Sink>⟧.device result ≡ unused (Some bytes.items) }
    {
        TestSink {
            begun: bytes.len(),
            bytes,
            failures: 0,
            interruptions: 0,
            script: Script::new(behavior),
            accepts_nothing: false,
        }
    }

    /// A sink that holds these bytes, with all counts 0. At the call that fails it accepts 0 bytes.
    pub fn accepting_nothing(bytes: Vec<u8>, behavior: Behavior) -> TestSink
        ensures { ⟦<TestSink as Sink>⟧.device result ≡ unused (Some bytes.items) }
    {
        let mut sink = TestSink::new(bytes, behavior);
        sink.accepts_nothing = true;
        sink
    }

    /// The bytes that it holds.
    pub fn bytes(&self) -> &[u8]
        ensures { (⟦<TestSink as Sink>⟧.device self.now).bytes ≡ Some result.now }
    {
        self.bytes.as_slice()
    }
}

impl Sink for TestSink {
    ghost device = { λ sink. sink };

    fn write(&mut self, buf: &[u8]) -> io::Result<usize> {
        if let Some(kind) = self.script.next_error() {
            if self.accepts_nothing && kind != ErrorKind::Interrupted {
                self.interruptions = 0;
                self.failures += u64::from(!buf.is_empty());
                return Ok(0);
            }
            let error = kind.into();
            count_error(&error, &mut self.failures, &mut self.interruptions);
            return Err(error);
        }
        self.interruptions = 0;
        let n = self.script.share_of(buf.len());
        if self.bytes.extend_from_slice(&buf[..n]).is_err() {
            self.failures += 1;
            return Err(ErrorKind::OutOfMemory.into());
        }
        Ok(n)
    }
}
