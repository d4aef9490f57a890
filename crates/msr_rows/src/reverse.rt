//! The reverse constant of a record that may be out of time.
ghost use Rattle.std.specs.Prelude.{IfNone, IfSome};
ghost use Rattle.msr_rows.specs.Records.{HasReverse, IsRefusedBeforeTime};

use crate::reading::{area_of, open_record};
use crate::samples::view_area;

/// Whether the last sample of the record that the bytes begin with is its reverse constant, as `Record` says, or would
/// say of one that is out of time; `None` if another fault refuses it. Takes no memory.
pub fn reverse_in(rest: &[u8]) -> Option<bool>
    ensures some { IfSome result (HasReverse rest.now) }
    ensures none { IfNone result (IsRefusedBeforeTime rest.now) }
{
    let Ok(opened) = open_record(rest) else {
        return None;
    };
    let Some((_, kind)) = opened.fields else {
        return Some(true);
    };
    let area = area_of(&opened, rest);
    match view_area(
        kind.storage(),
        opened.header.data_order,
        area,
        opened.header.samples,
    ) {
        Ok(samples) => Some(samples.reverse_agrees()),
        Err(_) => None,
    }
}
