//! How a test says what it expects.

use msr_fixtures::expect;
use std::alloc::AllocError;
use std::test::Fail;

/// Fails with the name of the first fact that does not hold.
pub fn expect_all(facts: &[(bool, &str)]) -> Result<(), Fail> {
    for (holds, name) in facts {
        if !*holds {
            return expect(false, name);
        }
    }
    Ok(())
}

/// Whether a text was made, and is the one that is expected.
pub fn is_text(made: Result<String, AllocError>, expected: &str) -> bool {
    match made {
        Ok(text) => text.as_str() == expected,
        Err(_) => false,
    }
}
