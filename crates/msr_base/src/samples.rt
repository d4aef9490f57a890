//! The list of samples.

ghost use Rattle.std.specs.Prelude.{◌≡◌, ◌++◌, ◌∷◌, [], length, IfOk, OnErr, OnOk};

use std::alloc::{AllocError, Global};
use std::marker::Model;

/// The samples of an area, a row or a segment, in order. Contracts see the list of their values.
#[derive(Debug, Drop)]
pub struct SampleVec {
    values: Vec<i32>,
}

impl Model for SampleVec {
    ghost use Rattle.std.specs.Prelude.{List, ℤ};

    ghost Value = { List ℤ };

    ghost view = { λ samples. samples.values.items };
}

impl SampleVec {
    /// An empty list. It takes no memory.
    pub fn new(alloc: Global) -> SampleVec
        ensures { result ≡ [] }
    {
        SampleVec {
            values: Vec::new(alloc),
        }
    }

    /// The samples of a vector, in the vector's memory.
    pub fn from_vec(values: Vec<i32>) -> SampleVec
        ensures { result ≡ values.items }
    {
        SampleVec { values }
    }

    /// The vector of these samples, in their memory.
    pub fn into_vec(self) -> Vec<i32>
        ensures { result.items ≡ self }
    {
        let SampleVec { values } = self;
        values
    }

    /// A vector of that many places to be filled, in the memory of these samples: what stands in them does not matter.
    /// Memory is taken only for more places than it has room for, and then for so many.
    pub fn into_places(self, count: usize) -> Result<Vec<i32>, AllocError>
        ensures { IfOk result (λ places. length places.items ≡ count) }
    {
        let mut places = self.into_vec();
        places.reserve_exact(count.saturating_sub(places.len()))?;
        places.resize(count, 0)?;
        Ok(places)
    }

    /// A view of the samples.
    pub fn as_slice(&self) -> &[i32]
        ensures { result.now ≡ self.now }
    {
        self.values.as_slice()
    }

    /// The number of samples.
    pub fn len(&self) -> usize
        ensures { result ≡ length self.now }
    {
        self.values.len()
    }

    /// Appends a sample.
    pub fn push(&mut self, sample: i32) -> Result<(), AllocError>
        ensures ok { OnOk result (self.new ≡ self.old ++ sample ∷ []) }
        ensures err { OnErr result (self.new ≡ self.old) }
    {
        self.values.push(sample)?;
        Ok(())
    }

    /// Appends these samples in order, all or none.
    pub fn extend_from_slice(&mut self, samples: &[i32]) -> Result<(), AllocError>
        ensures ok { OnOk result (self.new ≡ self.old ++ samples.now) }
        ensures err { OnErr result (self.new ≡ self.old) }
    {
        self.values.extend_from_slice(samples)
    }
}

impl PartialEq for SampleVec {
    ghost use Rattle.std.specs.Cmp.Lexicographic.{pointwise};
    ghost use Rattle.std.specs.Cmp.Rules.{comparing};
    ghost use Rattle.std.specs.Ordering.{int_eq};
    ghost use Rattle.std.proofs.Common.{rules};

    ghost eq = { pointwise int_eq };

    ghost laws = { Prim.search (comparing, rules) };

    fn eq(&self, other: &SampleVec) -> bool {
        self.as_slice() == other.as_slice()
    }
}

impl Eq for SampleVec {
    ghost use Rattle.std.specs.Cmp.Rules.{comparing};
    ghost use Rattle.std.proofs.Common.{rules};

    ghost laws = { Prim.search (comparing, rules) };
}
