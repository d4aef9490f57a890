//! Why the tool stops.
ghost use Rattle.std.specs.Prelude.{◌≡◌};
ghost use Rattle.msr_tool.specs.Fault.{fault_of_reading, fault_of_report, fault_of_writing};
ghost use Rattle.msr_tool.specs.declared.fault.ToolFault.TheVariants.{Write, Memory};

use msr_devices::{DeviceFailed, DeviceFault};
use msr_input::{Fault, ReadFault};
use msr_report_reader::ReportFault;
use std::alloc::{AllocError, AllocFailed};
use thiserror::Error;

/// Why the tool stops.
#[derive(Clone, Copy, Debug, PartialEq, Eq, Error)]
pub enum ToolFault {
    /// The input has this first fault.
    #[error("{0}")]
    Input(Fault),
    /// The text is no report, and this line, from 1, is the first at fault.
    #[error("report line {0}")]
    Report(u64),
    /// A source failed, or was interrupted 64 times in a row.
    #[error("read fault")]
    Read,
    /// The sink failed, accepted nothing, or was interrupted 64 times in a row.
    #[error("write fault")]
    Write,
    /// A growth of memory was refused.
    #[error("out of memory")]
    Memory,
}

impl ToolFault {
    /// The exit status of a program that stops so.
    pub fn status(&self) -> u8
        ensures { result ≡ 1 }
    {
        1
    }
}

impl From<ReadFault> for ToolFault {
    ghost from_gives = { λ fault e. e ≡ fault_of_reading fault };

    fn from(fault: ReadFault) -> ToolFault {
        match fault {
            ReadFault::Input(fault) => ToolFault::Input(fault),
            ReadFault::Read => ToolFault::Read,
            ReadFault::Memory => ToolFault::Memory,
        }
    }
}

impl From<ReportFault> for ToolFault {
    ghost from_gives = { λ fault e. e ≡ fault_of_report fault };

    fn from(fault: ReportFault) -> ToolFault {
        match fault {
            ReportFault::Line(line) => ToolFault::Report(line),
            ReportFault::Read => ToolFault::Read,
            ReportFault::Memory => ToolFault::Memory,
        }
    }
}

impl From<DeviceFault> for ToolFault {
    ghost from_gives = { λ fault e. e ≡ fault_of_writing fault };

    fn from(fault: DeviceFault) -> ToolFault {
        match fault {
            DeviceFault::Failed => ToolFault::Write,
            DeviceFault::Memory => ToolFault::Memory,
        }
    }
}

impl From<DeviceFailed> for ToolFault {
    ghost from_gives = { λ _ e. e ≡ Write };

    fn from(_: DeviceFailed) -> ToolFault {
        ToolFault::Write
    }
}

impl From<AllocError> for ToolFault {
    ghost from_gives = { λ _ e. e ≡ Memory };

    fn from(_: AllocError) -> ToolFault {
        ToolFault::Memory
    }
}

impl<T: Drop> From<AllocFailed<T>> for ToolFault {
    ghost from_gives = { λ _ e. e ≡ Memory };

    fn from(_: AllocFailed<T>) -> ToolFault {
        ToolFault::Memory
    }
}
