//! Why a report is not read.
ghost use Rattle.std.specs.Prelude.{◌≡◌};
ghost use Rattle.msr_report_reader.specs.declared.fault.ReportFault.TheVariants.{Read, Memory};
ghost use Rattle.msr_report_reader.specs.Reading.{report_fault_of_fill};

use msr_devices::DeviceFault;
use std::alloc::{AllocError, AllocFailed};
use thiserror::Error;

/// Why a report was not read.
#[derive(Clone, Copy, Debug, PartialEq, Eq, Error)]
pub enum ReportFault {
    /// The number of the first line, from 1, that no report has after the lines before it.
    #[error("report line {0}")]
    Line(u64),
    /// The source failed, or was interrupted 64 times in a row.
    #[error("read fault")]
    Read,
    /// Memory was refused.
    #[error("out of memory")]
    Memory,
}

impl From<AllocError> for ReportFault {
    ghost from_gives = { λ _ e. e ≡ Memory };

    fn from(_: AllocError) -> ReportFault {
        ReportFault::Memory
    }
}

impl<T: Drop> From<AllocFailed<T>> for ReportFault {
    ghost from_gives = { λ _ e. e ≡ Memory };

    fn from(_: AllocFailed<T>) -> ReportFault {
        ReportFault::Memory
    }
}

impl From<DeviceFault> for ReportFault {
    ghost from_gives = { λ fill e. e ≡ report_fault_of_fill fill };

    fn from(fault: DeviceFault) -> ReportFault {
        match fault {
            DeviceFault::Failed => ReportFault::Read,
            DeviceFault::Memory => ReportFault::Memory,
        }
    }
}
