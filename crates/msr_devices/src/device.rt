//! A source and a sink of bytes.
ghost use Rattle.std.specs.Prelude.{◌^◌, ◌<◌};
ghost use Rattle.msr_devices.specs.Device.{Device, CanCount, Reads, Writes};

use std::io;

/// Bytes to read, of which there are fewer than 2^64, with the answers of `std::io::Read`.
pub trait Source {
    /// The bytes that are left, and the counts.
    ghost device: { Self → Device };

    /// Reads some bytes into the start of `buf`. `Ok(0)` says that none are left, or that `buf` is empty.
    fn read(&mut self, buf: &mut [u8]) -> io::Result<usize>
        requires { CanCount (device self.old) }
        ensures reads { Reads (device self.old) (device self.new) result buf.new }
        ensures few { (device self.new).moved < 2 ^ 64 };
}

/// A place for bytes, of which it accepts fewer than 2^64, with the answers of `std::io::Write`.
pub trait Sink {
    /// The bytes that it holds, and the counts.
    ghost device: { Self → Device };

    /// Writes some bytes from the start of `buf`. `Ok(0)` says that none were accepted, which is a failure
    /// unless `buf` is empty.
    fn write(&mut self, buf: &[u8]) -> io::Result<usize>
        requires { CanCount (device self.old) }
        ensures writes { Writes (device self.old) (device self.new) result buf.now }
        ensures few { (device self.new).moved < 2 ^ 64 };
}
