//! Bytes that wait to be written.
ghost use Rattle.std.specs.Prelude.{◌≡◌, ◌<◌, [], length, OnOk, OnErr, IsOk};
ghost use Rattle.msr_devices.specs.Device.{CanCountCall, CountsFew, HasFailed, IsCalm};
ghost use Rattle.msr_devices.specs.WriteBuffer.{Passes};

use crate::device::Sink;
use crate::fault::DeviceFailed;
use crate::loops::write_counted;
use std::alloc::Global;

/// Fewer bytes than this wait after `flush_full` has ended well.
const PIECE: usize = 65_536;

/// Bytes that wait to be written to a sink. All calls take the same sink.
#[derive(Drop)]
pub struct WriteBuffer {
    /// The bytes that wait. More may be put after them; `flush_full` then writes them if they are many.
    pub bytes: Vec<u8>,
}

impl WriteBuffer {
    /// A buffer in which nothing waits. It takes no memory yet.
    pub fn new(alloc: Global) -> WriteBuffer
        ensures { result.bytes.items ≡ [] }
    {
        WriteBuffer {
            bytes: Vec::new(alloc),
        }
    }

    /// Writes all that waits if it is 64 KiB or more.
    pub fn flush_full<W: Sink>(&mut self, sink: &mut W) -> Result<(), DeviceFailed>
        requires { CanCountCall (W.device sink.old) }
        ensures passes { Passes (W.device sink.old) (W.device sink.new) self.old.bytes.items [] self.new.bytes.items }
        ensures calm { OnOk result (IsCalm (W.device sink.old) (W.device sink.new)) }
        ensures failed { OnErr result (HasFailed (W.device sink.old) (W.device sink.new)) }
        ensures few_wait { OnOk result (length self.new.bytes.items < 65536) }
        ensures waits { length self.old.bytes.items < 65536
            → IsOk result × (W.device sink.new ≡ W.device sink.old) × (self.new ≡ self.old) }
        ensures few { CountsFew (W.device sink.old) (W.device sink.new) }
    {
        if self.bytes.len() < PIECE {
            return Ok(());
        }
        self.flush(sink)
    }

    /// Writes all that waits. At an `Err` what was not written waits.
    pub fn flush<W: Sink>(&mut self, sink: &mut W) -> Result<(), DeviceFailed>
        requires { CanCountCall (W.device sink.old) }
        ensures passes { Passes (W.device sink.old) (W.device sink.new) self.old.bytes.items [] self.new.bytes.items }
        ensures empty { OnOk result (self.new.bytes.items ≡ []) }
        ensures calm { OnOk result (IsCalm (W.device sink.old) (W.device sink.new)) }
        ensures failed { OnErr result (HasFailed (W.device sink.old) (W.device sink.new)) }
        ensures few { CountsFew (W.device sink.old) (W.device sink.new) }
    {
        let written = write_counted(sink, self.bytes.as_slice());
        let left = self.bytes.len() - written;
        self.bytes.copy_within(written.., 0);
        self.bytes.truncate(left);
        if left > 0 {
            return Err(DeviceFailed);
        }
        Ok(())
    }
}
