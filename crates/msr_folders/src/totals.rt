//! Totals by name, in the order in which the names came first.
ghost use Rattle.std.specs.Prelude.{◌≡◌, ◌+◌, ◌++◌, ◌∷◌, [], List, OnOk, OnErr, slice_get};
ghost use Rattle.std.specs.Option.{option_map};
ghost use Rattle.msr_folders.specs.Totals.{Add, totals_of, saturated};

use indexmap::IndexMap;
use std::alloc::{AllocError, Global};
use std::marker::Model;

/// The number of the adds of a name, and the two sums of what was added. Each stops at the greatest number of 64 bits.
#[derive(Clone, Copy, PartialEq, Eq)]
pub struct Total {
    pub files: u64,
    pub read: u64,
    pub written: u64,
}

impl Total {
    /// The total of no add.
    const NONE: Total = Total {
        files: 0,
        read: 0,
        written: 0,
    };

    /// The total after one add more.
    fn plus(self, read: u64, written: u64) -> Total
        ensures files { result.files ≡ saturated (self.files + 1) }
        ensures read { result.read ≡ saturated (self.read + read) }
        ensures written { result.written ≡ saturated (self.written + written) }
    {
        Total {
            files: self.files.saturating_add(1),
            read: self.read.saturating_add(read),
            written: self.written.saturating_add(written),
        }
    }
}

/// Totals by name, in the order of the names' first adds.
#[derive(Drop)]
pub struct Totals {
    alloc: Global,
    by_name: IndexMap<String, Total>,
}

impl Model for Totals {
    ghost use Rattle.std.specs.Prelude.{List, ℕ};
    ghost use Rattle.msr_folders.specs.declared.totals.Total.{Total};
    ghost use Rattle.msr_folders.specs.Named.{named};

    ghost Value = { List (List ℕ × Total) };

    ghost view = { λ totals. named totals.by_name.entries };
}

impl Totals {
    /// No totals yet.
    pub fn new(alloc: Global) -> Totals
        ensures { result ≡ totals_of [] }
    {
        Totals {
            alloc,
            by_name: IndexMap::new(alloc),
        }
    }

    /// Adds one file to the total of a name, with what was read and written.
    pub fn add(&mut self, name: &str, read: u64, written: u64) -> Result<(), AllocError>
        // Whatever was added before.
        ensures added { (adds : List Add) → self.old ≡ totals_of adds
            → OnOk result (self.new ≡ totals_of (adds
            ++ (record { name = name.now; read = read; written = written }) ∷ [])) }
        ensures err { OnErr result (self.new ≡ self.old) }
    {
        let before = self.by_name.get(name).copied().unwrap_or(Total::NONE);
        let name = String::from_str(self.alloc, name)?;
        self.by_name.insert(name, before.plus(read, written))?;
        Ok(())
    }

    /// The name at a place, counted from 0, and its total.
    pub fn get(&self, place: usize) -> Option<(&str, Total)>
        ensures { option_map (λ found. (found.0.now, found.1)) result ≡ slice_get self.now place }
    {
        let (name, total) = self.by_name.get_index(place)?;
        Some((name.as_str(), *total))
    }
}
