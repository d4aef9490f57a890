//! Bytes that are read ahead of their use.
ghost use Rattle.std.specs.Prelude.{◌≡◌, ◌⊎◌, ◌≤◌, ◌+◌, ◌-◌, [], length, take, drop, slice_range, true, false, IsOk, OnOk, OnErr, MatchResult};
ghost use Rattle.msr_devices.specs.Device.{CanCountCall, CountsFew};
ghost use Rattle.msr_devices.specs.ReadBuffer.{IsFilled, StopsFilling, room_for};

use crate::device::Source;
use crate::fault::DeviceFault;
use crate::loops::read_until;
use std::alloc::{AllocError, Global};
use std::marker::Model;

/// For how many bytes memory is taken at first.
const PIECE: usize = 65_536;

/// Bytes that were read from a source and are not yet consumed. All calls take the same source.
#[derive(Drop)]
pub struct ReadBuffer {
    memory: Vec<u8>,
    start: usize,
    end: usize,
    ended: bool,
}

impl Model for ReadBuffer {
    ghost use Rattle.std.specs.Prelude.{◌≤◌, length, slice_range};
    ghost use Rattle.msr_devices.specs.ReadBuffer.{Window};

    ghost Value = { Window };

    ghost view = { λ b. record {
      bytes = slice_range b.memory.items b.start b.end;
      ended = b.ended;
      room = length b.memory.items;
    } };

    ghost invariant = { λ b. (b.start ≤ b.end) × (b.end ≤ length b.memory.items) };
}

impl ReadBuffer {
    /// A buffer before the first read. It takes no memory yet.
    pub fn new(alloc: Global) -> ReadBuffer
        ensures { result ≡ record { bytes = []; ended = false; room = 0 } }
    {
        ReadBuffer {
            memory: Vec::new(alloc),
            start: 0,
            end: 0,
            ended: false,
        }
    }

    /// The bytes that were read and not yet consumed.
    pub fn bytes(&self) -> &[u8]
        ensures { result.now ≡ self.now.bytes }
    {
        &self.memory.as_slice()[self.start..self.end]
    }

    /// Whether the source has no bytes left after them. Before the last byte was read this may still be false.
    pub fn has_ended(&self) -> bool
        ensures { result ≡ self.now.ended }
    {
        self.ended
    }

    /// Reads until at least `want` bytes stand there or no more are left, and makes no further read then. Each
    /// read may bring as many as there is room for, and this grows only if those wanted do not fit. At an
    /// `Err` the bytes that came stand there, and a further call goes on.
    pub fn fill<R: Source>(&mut self, source: &mut R, want: usize) -> Result<(), DeviceFault>
        requires { CanCountCall (R.device source.old) }
        ensures filled { MatchResult result (λ _. IsFilled want (R.device source.old)
            (R.device source.new) self.old self.new) (StopsFilling want (R.device source.old) (R.device
            source.new) self.old self.new) }
        ensures ready { (want ≤ length self.old.bytes) ⊎ (self.old.ended ≡ true)
            → IsOk result × (R.device source.new ≡ R.device source.old) × (self.new ≡ self.old) }
        ensures room { self.new.room ≤ room_for want self.old.room }
        ensures few { CountsFew (R.device source.old) (R.device source.new) }
    {
        if self.ended || want <= self.end - self.start {
            return Ok(());
        }
        grow(&mut self.memory, want)?;
        move_to_front(&mut self.memory, self.start, self.end);
        self.end -= self.start;
        self.start = 0;
        self.ended = read_until(source, self.memory.as_mut_slice(), &mut self.end, want)?;
        Ok(())
    }

    /// Takes `n` bytes from the start.
    pub fn consume(&mut self, n: usize)
        requires { n ≤ length self.old.bytes }
        ensures { self.new ≡ record { bytes = drop n self.old.bytes; ended = self.old.ended; room = self.old.room } }
    {
        self.start += n;
    }
}

/// Makes the memory long enough for `want` bytes, if it is not: at least twice as long, so that few bytes are moved.
fn grow(memory: &mut Vec<u8>, want: usize) -> Result<(), AllocError>
    ensures keeps { take (length memory.old.items) memory.new.items ≡ memory.old.items }
    ensures longer { OnOk result (want ≤ length memory.new.items) }
    ensures least { length memory.old.items ≤ length memory.new.items }
    ensures most { length memory.new.items ≤ room_for want (length memory.old.items) }
    ensures err { OnErr result (memory.new.items ≡ memory.old.items) }
    ensures small { want ≤ length memory.old.items → IsOk result }
{
    if memory.len() < want {
        let len = want.max(memory.len().saturating_mul(2)).max(PIECE);
        memory.resize(len, 0)?;
    }
    Ok(())
}

/// Moves the bytes between these places to the start. Those of a record that comes in many small reads are moved
/// once, and not at each read.
fn move_to_front(memory: &mut Vec<u8>, start: usize, end: usize)
    requires ordered { start ≤ end }
    requires within { end ≤ length memory.old.items }
    ensures front { take (end - start) memory.new.items ≡ slice_range memory.old.items start end }
    ensures size { length memory.new.items ≡ length memory.old.items }
{
    if start > 0 {
        memory.copy_within(start..end, 0);
    }
}
