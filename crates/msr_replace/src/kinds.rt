//! Whether records have 24-bit integers.
ghost use Rattle.msr_devices.specs.Device.{CanCountCall};
ghost use Rattle.msr_replace.specs.Kinds.{TellsInt24, TellsOfRow};

use msr_base::Kind;
use msr_devices::Source;
use msr_input::{NextRecord, ReadFault, RowReader, Settings};
use std::alloc::Global;

fn is_int24(next: &NextRecord) -> bool
    ensures { TellsOfRow next.now result }
{
    match &next.row {
        Some(next) => next.row.kind == Kind::Int24,
        None => false,
    }
}

/// Whether a record of the source has 24-bit integers.
pub(crate) fn has_int24<S: Source>(alloc: Global, source: &mut S) -> Result<bool, ReadFault>
    requires { CanCountCall (S.device source.old) }
    ensures { TellsInt24 (S.device source.old) result }
{
    let settings = Settings {
        tolerance: 1,
        strict: false,
    };
    let mut reader = RowReader::new(alloc, settings);
    'records: while let Some(next) = reader.next_record(source)? {
        let is_found = is_int24(&next);
        reader.give_back(next);
        if is_found {
            return Ok(true);
        }
    }
    Ok(false)
}
