//! The bytes of two sources beside each other.
ghost use Rattle.std.specs.Prelude.{◌≡◌};

use msr_devices::{DeviceFault, ReadBuffer, Source};
use std::alloc::Global;

/// How many bytes are compared at once.
const PIECE: usize = 65_536;

/// Whether two sources have the same bytes.
pub(crate) fn has_same_bytes<S: Source>(
    alloc: Global,
    one: &mut S,
    other: &mut S,
) -> Result<bool, DeviceFault>
    requires one { ((S.device one.old).failures ≡ 0) × ((S.device one.old).interruptions ≡ 0) }
    requires other { ((S.device other.old).failures ≡ 0) × ((S.device other.old).interruptions ≡ 0) }
{
    let mut first = ReadBuffer::new(alloc);
    let mut second = ReadBuffer::new(alloc);
    for piece in 0..u64::MAX {
        first.fill(one, PIECE)?;
        second.fill(other, PIECE)?;
        if first.bytes() != second.bytes() {
            return Ok(false);
        }
        let length = first.bytes().len();
        if length < PIECE {
            return Ok(true);
        }
        first.consume(length);
        second.consume(second.bytes().len());
    }
    Err(DeviceFault::Failed)
}
