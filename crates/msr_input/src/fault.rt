//! Why reading stops.
ghost use Rattle.std.specs.Prelude.{◌≡◌};
ghost use Rattle.msr_input.specs.Steps.{fault_of_fill, fault_at};

use msr_devices::DeviceFault;
use msr_rows::FaultKind;
use thiserror::Error;

/// A refusal of the record that begins at the offset.
#[derive(Clone, Copy, Debug, PartialEq, Eq, Error)]
#[error("offset {offset}: {kind}")]
pub struct Fault {
    /// How many bytes stand before the record in the input.
    pub offset: u64,
    /// Why it is refused; never `FaultKind::Memory`.
    pub kind: FaultKind,
}

/// Why no further segment is read.
#[derive(Clone, Copy, Debug, PartialEq, Eq, Error)]
pub enum ReadFault {
    /// The input has this first fault.
    #[error("{0}")]
    Input(Fault),
    /// The source failed, or was interrupted 64 times in a row.
    #[error("read fault")]
    Read,
    /// There is no memory for the bytes of a record, or for samples.
    #[error("out of memory")]
    Memory,
}

impl From<DeviceFault> for ReadFault {
    ghost from_gives = { λ fill fault. fault ≡ fault_of_fill fill };

    fn from(fault: DeviceFault) -> ReadFault {
        match fault {
            DeviceFault::Failed => ReadFault::Read,
            DeviceFault::Memory => ReadFault::Memory,
        }
    }
}

/// The fault of a record that begins at the offset.
pub(crate) fn fault_at(offset: u64, kind: FaultKind) -> ReadFault
    ensures { result ≡ fault_at offset kind }
{
    match kind {
        FaultKind::Memory => ReadFault::Memory,
        kind => ReadFault::Input(Fault { offset, kind }),
    }
}
