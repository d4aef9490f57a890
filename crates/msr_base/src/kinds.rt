//! The kinds of records.
ghost use Rattle.std.specs.Prelude.{◌≡◌, ◌↔◌, Some};
ghost use Rattle.msr_base.specs.Kinds.{code_of, contains};
ghost use Rattle.msr_base.specs.Storage.{storage_of};

use crate::storage::{Storage, Version, Width};

/// How a record stores its samples (SEED 2.4, blockette 1000: encoding format).
#[derive(Clone, Copy, Debug, PartialEq, Eq)]
pub enum Kind {
    Int16,
    Int24,
    Int32,
    Steim1,
    Steim2,
}

impl Kind {
    ghost use Rattle.msr_base.specs.declared.kinds.Kind.{Kind};

    /// The number of its encoding.
    pub fn code(self) -> u8
        ensures { result ≡ code_of self }
    {
        match self {
            Kind::Int16 => 1,
            Kind::Int24 => 2,
            Kind::Int32 => 3,
            Kind::Steim1 => 10,
            Kind::Steim2 => 11,
        }
    }

    /// How it stores them.
    pub fn storage(self) -> Storage
        ensures { result ≡ storage_of self }
    {
        match self {
            Kind::Int16 => Storage::Integers(Width::Two),
            Kind::Int24 => Storage::Integers(Width::Three),
            Kind::Int32 => Storage::Integers(Width::Four),
            Kind::Steim1 => Storage::Frames(Version::One),
            Kind::Steim2 => Storage::Frames(Version::Two),
        }
    }

    /// The kind with that encoding.
    pub fn of_code(code: u8) -> Option<Kind>
        ensures { (kind : Kind) → (result ≡ Some kind ↔ code_of kind ≡ code) }
    {
        match code {
            1 => Some(Kind::Int16),
            2 => Some(Kind::Int24),
            3 => Some(Kind::Int32),
            10 => Some(Kind::Steim1),
            11 => Some(Kind::Steim2),
            _ => None,
        }
    }
}

/// A choice of kinds: those of which records are written. Each choice has 32-bit integers, which fit every run of one
/// sample.
#[derive(Clone, Copy, Debug, PartialEq, Eq)]
pub enum Kinds {
    All,
    /// All but 24-bit integers, which libmseed 2 and the tools built on it do not read.
    WithoutInt24,
}

impl Kinds {
    /// Whether the kind is one of them.
    pub fn contains(self, kind: Kind) -> bool
        ensures { result ≡ contains self kind }
    {
        match self {
            Kinds::All => true,
            Kinds::WithoutInt24 => kind != Kind::Int24,
        }
    }
}
