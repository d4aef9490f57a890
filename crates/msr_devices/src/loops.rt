//! The loops over a source and a sink: 64 interruptions in a row are a failure.
ghost use Rattle.std.specs.Prelude.{◌≡◌, ◌+◌, ◌<◌, ◌≤◌, ◌^◌, ℕ, [], length, take, IfOk, OnOk, OnErr, true, false};
ghost use Rattle.msr_devices.specs.Device.{CanCountCall, HasLeft, Gives, GivesOnto, Takes, Moves, HasFailed, IsCalm, IsSteady, CountsFew};

use crate::device::{Sink, Source};
use crate::fault::DeviceFailed;
use std::io::ErrorKind;

/// A device that is interrupted so often in a row has failed.
const MOST_INTERRUPTIONS: u32 = 64;

/// Reads some bytes into the start of `buf`, again after an interruption. `Ok(0)` says that none are left, or
/// that `buf` is empty.
pub fn read_some<R: Source>(source: &mut R, buf: &mut [u8]) -> Result<usize, DeviceFailed>
    requires { CanCountCall (R.device source.old) }
    ensures within { IfOk result (λ n. n ≤ length buf.new) }
    ensures bytes { IfOk result (λ n. Gives (R.device source.old) (R.device source.new) (take n buf.new)) }
    ensures end { IfOk result (λ n. n ≡ 0 → 0 < length buf.new → HasLeft (R.device source.new) []) }
    ensures moves { IfOk result (Moves (R.device source.old) (R.device source.new)) }
    ensures failed { OnErr result (HasFailed (R.device source.old) (R.device source.new)) }
    ensures none { OnErr result (Gives (R.device source.old) (R.device source.new) []) }
    ensures still { OnErr result ((R.device source.new).moved ≡ (R.device source.old).moved) }
    ensures few { CountsFew (R.device source.old) (R.device source.new) }
    ensures short { OnOk result ((R.device source.new).moved < 2 ^ 64) }
{
    for tried in 0..MOST_INTERRUPTIONS {
        match source.read(buf) {
            Ok(n) => return Ok(n),
            Err(error) => {
                if error.kind() != ErrorKind::Interrupted {
                    return Err(DeviceFailed);
                }
            }
        }
    }
    Err(DeviceFailed)
}

/// Reads after the first `filled` bytes of `room` until `want` are filled, or no bytes are left: then it gives `true`.
pub(crate) fn read_until<R: Source>(
    source: &mut R,
    room: &mut [u8],
    filled: &mut usize,
    want: usize,
) -> Result<bool, DeviceFailed>
    requires count { CanCountCall (R.device source.old) }
    requires within { filled.old ≤ length room.old }
    requires want { want ≤ length room.old }
    ensures within { filled.new ≤ length room.new }
    ensures onto { GivesOnto (R.device source.old) (R.device source.new) (take filled.old room.old)
        (take filled.new room.new) }
    ensures short { filled.old < filled.new → (R.device source.new).moved < 2 ^ 64 }
    ensures enough { IfOk result (λ ended. ended ≡ false → want ≤ filled.new) }
    ensures lacking { IfOk result (λ ended. ended ≡ true → filled.new < want) }
    ensures end { IfOk result (λ ended. ended ≡ true → HasLeft (R.device source.new) []) }
    ensures calm { IfOk result (λ ended. ended ≡ false → IsCalm (R.device source.old) (R.device source.new)) }
    ensures steady { OnOk result (IsSteady (R.device source.old) (R.device source.new)) }
    ensures failed { OnErr result (HasFailed (R.device source.old) (R.device source.new)) }
    ensures fewer { OnErr result (filled.new < want) }
    ensures few { CountsFew (R.device source.old) (R.device source.new) }
{
    while *filled < want {
        let n = read_some(source, &mut room[*filled..])?;
        if n == 0 {
            return Ok(true);
        }
        *filled += n;
    }
    Ok(false)
}

/// Writes some bytes from the start of `buf`, again after an interruption. A call that accepts none is a failure.
pub fn write_some<W: Sink>(sink: &mut W, buf: &[u8]) -> Result<usize, DeviceFailed>
    requires count { CanCountCall (W.device sink.old) }
    requires some { 0 < length buf.now }
    ensures within { IfOk result (λ n. n ≤ length buf.now) }
    ensures some { IfOk result (λ n. 0 < n) }
    ensures bytes { IfOk result (λ n. Takes (W.device sink.old) (W.device sink.new) (take n buf.now)) }
    ensures moves { IfOk result (Moves (W.device sink.old) (W.device sink.new)) }
    ensures failed { OnErr result (HasFailed (W.device sink.old) (W.device sink.new)) }
    ensures none { OnErr result (Takes (W.device sink.old) (W.device sink.new) []) }
    ensures still { OnErr result ((W.device sink.new).moved ≡ (W.device sink.old).moved) }
    ensures few { CountsFew (W.device sink.old) (W.device sink.new) }
    ensures short { OnOk result ((W.device sink.new).moved < 2 ^ 64) }
{
    for tried in 0..MOST_INTERRUPTIONS {
        match sink.write(buf) {
            Ok(0) => return Err(DeviceFailed),
            Ok(n) => return Ok(n),
            Err(error) => {
                if error.kind() != ErrorKind::Interrupted {
                    return Err(DeviceFailed);
                }
            }
        }
    }
    Err(DeviceFailed)
}

/// Writes all of `buf`. At an `Err` a prefix of it was written, and how much is not told: `WriteBuffer` keeps
/// what was not.
pub fn write_all<W: Sink>(sink: &mut W, buf: &[u8]) -> Result<(), DeviceFailed>
    requires { CanCountCall (W.device sink.old) }
    ensures all { OnOk result (Takes (W.device sink.old) (W.device sink.new) buf.now) }
    ensures calm { OnOk result (IsCalm (W.device sink.old) (W.device sink.new)) }
    ensures failed { OnErr result (HasFailed (W.device sink.old) (W.device sink.new)) }
    ensures part { OnErr result ((n : ℕ) × Takes (W.device sink.old) (W.device sink.new) (take n buf.now)) }
    ensures few { CountsFew (W.device sink.old) (W.device sink.new) }
{
    if write_counted(sink, buf) < buf.len() {
        return Err(DeviceFailed);
    }
    Ok(())
}

/// Writes all of `buf`, or as much as the sink takes before it fails, and tells how much that is.
pub(crate) fn write_counted<W: Sink>(sink: &mut W, buf: &[u8]) -> usize
    requires { CanCountCall (W.device sink.old) }
    ensures within { result ≤ length buf.now }
    ensures bytes { Takes (W.device sink.old) (W.device sink.new) (take result buf.now) }
    ensures calm { result ≡ length buf.now → IsCalm (W.device sink.old) (W.device sink.new) }
    ensures failed { result < length buf.now → HasFailed (W.device sink.old) (W.device sink.new) }
    ensures moved { (W.device sink.new).moved ≡ (W.device sink.old).moved + result }
    ensures short { 0 < result → (W.device sink.new).moved < 2 ^ 64 }
    ensures few { CountsFew (W.device sink.old) (W.device sink.new) }
{
    let mut written = 0;
    while written < buf.len() {
        match write_some(sink, &buf[written..]) {
            Ok(n) => written += n,
            Err(DeviceFailed) => return written,
        }
    }
    written
}
