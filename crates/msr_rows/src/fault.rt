//! Why a record is refused.
use msr_header::HeaderFault;
use thiserror::Error;

/// Why a record is refused: the first of these that applies. Those of the header come first, then
/// `NoRate`, `OtherEncoding`, `BadDataOffset`, then `DataShort` or `BadCode`, then `ReverseMismatch` if the reader
/// is strict, then `TimeRange`.
#[derive(Clone, Copy, Debug, PartialEq, Eq, Error)]
pub enum FaultKind {
    /// The header has this fault.
    #[error("{0}")]
    Header(HeaderFault),
    /// The data area has too few samples or differences.
    #[error("12 DataShort")]
    DataShort,
    /// The word with this number, from 0, is undefined, and comes before the last sample.
    #[error("13 BadCode {0}")]
    BadCode(u32),
    /// The sample rate factor or multiplier is 0.
    #[error("14 NoRate")]
    NoRate,
    /// The samples have this encoding, which is not read.
    #[error("15 OtherEncoding {0}")]
    OtherEncoding(u8),
    /// The data area begins before the end of the blockettes, or after the record.
    #[error("16 BadDataOffset")]
    BadDataOffset,
    /// The first or the last sample is not of the years 1900 to 2100.
    #[error("17 TimeRange")]
    TimeRange,
    /// The last sample is not the reverse constant. Only a strict reader refuses that, never `decode_record`.
    #[error("18 ReverseMismatch")]
    ReverseMismatch,
    /// There is no memory for the samples.
    #[error("out of memory")]
    Memory,
}

impl From<HeaderFault> for FaultKind {
    ghost use Rattle.std.specs.Prelude.{◌≡◌};
    ghost use Rattle.msr_rows.specs.declared.fault.FaultKind.TheVariants.{Header};

    ghost from_gives = { λ fault kind. kind ≡ Header fault };

    fn from(fault: HeaderFault) -> FaultKind {
        FaultKind::Header(fault)
    }
}
