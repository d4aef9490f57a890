//! How a test tells which row of a table is wrong.

use std::test::Fail;

/// Fails with the row's name unless what is expected of the row holds. A test asserts by this alone: its proof then
/// costs one call for a row, whatever is compared.
pub fn expect(holds: bool, name: &str) -> Result<(), Fail> {
    if holds { Ok(()) } else { Err(Fail::new(name)) }
}
