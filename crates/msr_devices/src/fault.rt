//! What a loop over a device answers when the device failed, and why reading or writing stops.
ghost use Rattle.std.specs.Prelude.{◌≡◌};
ghost use Rattle.msr_devices.specs.declared.fault.DeviceFault.TheVariants.{Failed, Memory};

use std::alloc::AllocError;
use thiserror::Error;

/// The device failed, or was interrupted 64 times in a row; a sink also if it accepted 0 bytes of a write that was not
/// empty.
#[derive(Clone, Copy, Debug, PartialEq, Eq, Error)]
#[error("the device failed")]
pub struct DeviceFailed;

/// Why a buffer was not filled from a source, or records or a text were not written whole to a sink.
#[derive(Clone, Copy, Debug, PartialEq, Eq, Error)]
pub enum DeviceFault {
    /// As in [`DeviceFailed`].
    #[error("the device failed")]
    Failed,
    /// Memory was refused.
    #[error("out of memory")]
    Memory,
}

impl From<DeviceFailed> for DeviceFault {
    ghost from_gives = { λ _ e. e ≡ Failed };

    fn from(_: DeviceFailed) -> DeviceFault {
        DeviceFault::Failed
    }
}

impl From<AllocError> for DeviceFault {
    ghost from_gives = { λ _ e. e ≡ Memory };

    fn from(_: AllocError) -> DeviceFault {
        DeviceFault::Memory
    }
}
