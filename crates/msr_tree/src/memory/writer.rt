//! Making a file of a tree in memory.
ghost use Rattle.std.specs.Prelude.{◌≡◌, [], Some};
ghost use Rattle.msr_devices.specs.Device.{unused};

use msr_devices::Sink;
use std::alloc::Global;
use std::io;
use std::io::ErrorKind;
use std::marker::Model;

/// A file that is being made. A refused growth is a failure.
#[derive(Drop)]
pub struct MemoryWriter {
    pub(super) path: String,
    bytes: Vec<u8>,
    failures: u64,
}

impl Model for MemoryWriter {
    ghost use Rattle.std.specs.Prelude.{length, Some};
    ghost use Rattle.msr_devices.specs.Device.{Device};

    ghost Value = { Device };

    ghost view = { λ writer. record {
      bytes = Some writer.bytes.items;
      moved = length writer.bytes.items;
      failures = writer.failures;
      interruptions = 0;
    } };
}

impl MemoryWriter {
    /// A file without bytes.
    pub(super) fn new(alloc: Global, path: String) -> MemoryWriter
        ensures { ⟦<MemoryWriter as Sink>⟧.device result ≡ unused (Some []) }
    {
        MemoryWriter {
            path,
            bytes: Vec::new(alloc),
            failures: 0,
        }
    }

    /// The bytes that it took.
    pub(super) fn into_bytes(self) -> Vec<u8>
        ensures { (⟦<MemoryWriter as Sink>⟧.device self).bytes ≡ Some result.items }
    {
        let MemoryWriter { bytes, .. } = self;
        bytes
    }
}

impl Sink for MemoryWriter {
    ghost device = { λ writer. writer };

    fn write(&mut self, buf: &[u8]) -> io::Result<usize> {
        if self.bytes.extend_from_slice(buf).is_err() {
            self.failures += 1;
            return Err(ErrorKind::OutOfMemory.into());
        }
        Ok(buf.len())
    }
}
