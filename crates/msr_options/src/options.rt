//! How an input is repacked: the length and the kinds of the records, the tolerance by which rows are joined, and
//! whether reading is strict.
ghost use Rattle.std.specs.Prelude.{◌≡◌, ◌↔◌, ◌≤◌, false, IsSome, IfSome};

use msr_base::{Form, Kinds, Length};
use std::marker::Model;

const LEAST_TOLERANCE: u32 = 1;

const MOST_TOLERANCE: u32 = 1_000_000;

/// The length and the kinds of the written records, the tolerance by which rows are joined, and whether reading is
/// strict.
#[derive(Clone, Copy, PartialEq, Eq)]
pub struct Options {
    length: Length,
    kinds: Kinds,
    tolerance: u32,
    strict: bool,
}

impl Model for Options {
    ghost use Rattle.std.specs.Prelude.{◌≤◌};
    ghost use Rattle.msr_options.specs.Choice.{Choice};

    ghost Value = { Choice };

    ghost view = { λ o. record
        { record_length = o.length; kinds = o.kinds; tolerance = o.tolerance; strict = o.strict } };

    ghost inverse = { λ c. record
        { length = c.record_length; kinds = c.kinds; tolerance = c.tolerance; strict = c.strict } };

    ghost invariant = { λ o. (1 ≤ o.tolerance) × (o.tolerance ≤ 1_000_000) };
}

impl Options {
    ghost use Rattle.msr_options.specs.Choice.{as_strict, form_chosen, of_kinds, record_size};

    /// Options for all five kinds that are not strict; `None` if the tolerance in microseconds is not from 1 to
    /// 1,000,000.
    pub fn new(length: Length, tolerance: u32) -> Option<Options>
        ensures some { IsSome result ↔ (1 ≤ tolerance) × (tolerance ≤ 1_000_000) }
        ensures same { IfSome result (λ options. options
            ≡ record { record_length = length; kinds = Kinds.All; tolerance = tolerance; strict = false }) }
    {
        if !(LEAST_TOLERANCE..=MOST_TOLERANCE).contains(&tolerance) {
            return None;
        }
        Some(Options {
            length,
            kinds: Kinds::All,
            tolerance,
            strict: false,
        })
    }

    /// The same options for records of these kinds.
    pub fn kinds(self, kinds: Kinds) -> Options
        ensures { result ≡ of_kinds kinds self }
    {
        Options { kinds, ..self }
    }

    /// The same options, strict or not. A strict reading refuses a record whose last sample is not its reverse
    /// constant.
    pub fn strict(self, strict: bool) -> Options
        ensures { result ≡ as_strict strict self }
    {
        Options { strict, ..self }
    }

    /// The length and the kinds of the written records.
    pub fn form(self) -> Form
        ensures { result ≡ form_chosen self }
    {
        Form {
            length: self.length,
            kinds: self.kinds,
        }
    }

    /// The length of the written records.
    pub fn length(self) -> Length
        ensures same { result ≡ self.record_length }
        ensures least { 256 ≤ record_size self }
    {
        self.length
    }

    /// The tolerance, in microseconds.
    pub fn tolerance(self) -> u32
        ensures same { result ≡ self.tolerance }
        ensures in_range { (1 ≤ result) × (result ≤ 1_000_000) }
    {
        self.tolerance
    }

    /// Whether a record is refused whose last sample is not its reverse constant.
    pub fn is_strict(self) -> bool
        ensures { result ≡ self.strict }
    {
        self.strict
    }
}
