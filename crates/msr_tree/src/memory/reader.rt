//! Reading a file of a tree in memory.
ghost use Rattle.std.specs.Prelude.{◌≡◌, Some};
ghost use Rattle.msr_devices.specs.Device.{unused};

use msr_devices::Source;
use std::io;
use std::marker::Model;

/// The bytes of a file as they were when it was opened.
#[derive(Drop)]
pub struct MemoryReader {
    bytes: Vec<u8>,
    at: usize,
}

impl Model for MemoryReader {
    ghost use Rattle.std.specs.Prelude.{◌≤◌, drop, length, Some};
    ghost use Rattle.msr_devices.specs.Device.{Device};

    ghost Value = { Device };

    ghost view = { λ reader. record {
      bytes = Some (drop reader.at reader.bytes.items);
      moved = reader.at;
      failures = 0;
      interruptions = 0;
    } };

    ghost invariant = { λ reader. reader.at ≤ length reader.bytes.items };
}

impl MemoryReader {
    /// A source of these bytes.
    pub(crate) fn new(bytes: Vec<u8>) -> MemoryReader
        ensures { ⟦<MemoryReader as Source>⟧.device result ≡ unused (Some bytes.items) }
    {
        MemoryReader { bytes, at: 0 }
    }
}

impl Source for MemoryReader {
    ghost device = { λ reader. reader };

    fn read(&mut self, buf: &mut [u8]) -> io::Result<usize> {
        let n = buf.len().min(self.bytes.len() - self.at);
        buf[..n].copy_from_slice(&self.bytes[self.at..self.at + n]);
        self.at += n;
        Ok(n)
    }
}
