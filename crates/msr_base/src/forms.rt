//! The form of written records.

ghost use Rattle.std.specs.Prelude.{◌≡◌};
ghost use Rattle.msr_base.specs.Forms.{all_kinds};

use crate::kinds::Kinds;
use crate::lengths::Length;

/// How long written records are, and of which kinds they may be.
#[derive(Clone, Copy, Debug, PartialEq, Eq)]
pub struct Form {
    pub length: Length,
    pub kinds: Kinds,
}

impl Form {
    /// Records of that length, of any of the five kinds.
    pub fn all_kinds(record_length: Length) -> Form
        ensures { result ≡ all_kinds record_length }
    {
        Form {
            length: record_length,
            kinds: Kinds::All,
        }
    }
}
