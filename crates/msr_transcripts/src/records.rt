//! Records, and changes of their fields by name.

use crate::stage::Stage;
use msr_base::Order;
use msr_fixtures::{edit_by_name, int32_record, record, steim_record};

/// `record NAME FILE`: writes 256 bytes of msr_fixtures: `plain` is a header and bytes of 0, `steim` 301 samples of 0
/// as Steim-2, `int32` 48 as integers of 32 bits.
pub fn write(stage: &mut Stage<'_>, name: &str, path: &str) {
    let bytes = match name {
        "plain" => record(&[]),
        "steim" => steim_record(&[]),
        "int32" => int32_record(&[]),
        _ => return stage.note(false),
    };
    stage.write(path, &bytes);
}

/// One change, by the name of a field or by a place, `NAME=VALUE`.
fn change(bytes: &mut [u8], word: &str) -> Option<()> {
    let (name, value) = word.split_once('=')?;
    edit_by_name(Order::Big, bytes, name, value)
}

/// `set FILE NAME=VALUE ..`: changes fields of the file's first record, as `day=2020,1`, `clock=23:59:29.9500` and
/// `rate=20/1`. A text has its full width, with `_` for a space. Bytes from a place on are `72=00000001`.
pub fn set(stage: &mut Stage<'_>, path: &str, changes: &str) {
    let mut bytes = stage.read(path);
    for word in changes.split_whitespace() {
        stage.note(change(bytes.as_mut_slice(), word).is_some());
    }
    stage.write(path, bytes.as_slice());
}
