//! The last samples of a segment.

ghost use Rattle.std.specs.Prelude.{◌≡◌, ◌≤◌, ◌++◌, ℤ, List, [], drop, length, OnErr, OnOk};

use std::alloc::{AllocError, Global};
use std::marker::Model;

/// Fewer forgotten samples than that stand before those that are held: they are removed together, so that what is held
/// does not move at each run.
const FORGOTTEN_LIMIT: usize = 4096;

/// Removes the first `count` samples.
fn remove_front(samples: &mut Vec<i32>, count: usize)
    requires { count ≤ length samples.old.items }
    ensures { samples.new.items ≡ drop count samples.old.items }
{
    let left = samples.len() - count;
    samples.copy_within(count.., 0);
    samples.truncate(left);
}

/// Holds samples from some one on.
#[derive(Drop)]
pub(crate) struct Held {
    samples: Vec<i32>,
    forgotten: usize,
}

impl Model for Held {
    ghost Value = { List ℤ };

    ghost view = { λ h. drop h.forgotten h.samples.items };
}

impl Held {
    /// Nothing is held, and no memory taken.
    pub(crate) fn new(alloc: Global) -> Held
        ensures { result ≡ [] }
    {
        Held {
            samples: Vec::new(alloc),
            forgotten: 0,
        }
    }

    /// What is held.
    pub(crate) fn as_slice(&self) -> &[i32]
        ensures { result.now ≡ self.now }
    {
        match self.samples.as_slice().get(self.forgotten..) {
            Some(held) => held,
            None => &[],
        }
    }

    /// Forgets all, and keeps the memory.
    pub(crate) fn clear(&mut self)
        ensures { self.new ≡ [] }
    {
        self.samples.clear();
        self.forgotten = 0;
    }

    /// Forgets the first `count` samples.
    pub(crate) fn forget(&mut self, count: usize)
        ensures { self.new ≡ drop count self.old }
    {
        let front = self.forgotten.saturating_add(count).min(self.samples.len());
        if front < FORGOTTEN_LIMIT {
            self.forgotten = front;
        } else {
            remove_front(&mut self.samples, front);
            self.forgotten = 0;
        }
    }

    /// Holds these samples too. If memory is refused, nothing changed.
    pub(crate) fn extend(&mut self, samples: &[i32]) -> Result<(), AllocError>
        ensures taken { OnOk result (self.new ≡ self.old ++ samples.now) }
        ensures unchanged { OnErr result (self.new ≡ self.old) }
    {
        self.forgotten = self.forgotten.min(self.samples.len());
        // Two runs are the most that is held; a vector that doubles would take the room of four.
        self.samples.reserve_exact(samples.len())?;
        self.samples.extend_from_slice(samples)?;
        Ok(())
    }
}
