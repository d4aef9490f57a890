//! The sizes and words of the groups of Steim-2 that the steps found, for whoever writes their runs.

ghost use Rattle.std.specs.Prelude.{◌≡◌, ℕ, ℤ, List, IsFalse, IsTrue};
ghost use Rattle.msr_packer.specs.Steps.{HaveSizes};

use std::alloc::{AllocError, Global};
use std::mem;

/// Places for the sizes and the words of the groups of a run, of which the first `count` are told: all, or none.
#[derive(Drop)]
pub(crate) struct GroupSizes {
    pub places: Vec<u8>,
    pub words: Vec<u32>,
    pub count: usize,
}

impl GroupSizes {
    /// No places. It takes no memory.
    fn none(alloc: Global) -> GroupSizes
        ensures { result.count ≡ 0 }
    {
        GroupSizes {
            places: Vec::new(alloc),
            words: Vec::new(alloc),
            count: 0,
        }
    }

    /// Takes so many places, if there are fewer. Then none is told.
    fn take_places(&mut self, places: usize) -> Result<(), AllocError>
        ensures { (samples : List ℤ) (a b : ℕ)
            → HaveSizes samples a b self.old.count self.old.places.items self.old.words.items
            → HaveSizes samples a b self.new.count self.new.places.items self.new.words.items }
    {
        if self.words.len() < places {
            self.count = 0;
            self.places.resize(places, 0)?;
            self.words.resize(places, 0)?;
        }
        Ok(())
    }
}

/// The sizes and words of the groups of the step whose piece comes next, and of the piece that is shown. Each step
/// walks into the places of the piece that is shown no longer then, and they change places.
#[derive(Drop)]
pub(crate) struct StepSizes {
    pub next: GroupSizes,
    pub shown: GroupSizes,
}

impl StepSizes {
    /// No places. It takes no memory.
    pub(crate) fn none(alloc: Global) -> StepSizes
        ensures next { result.next.count ≡ 0 }
        ensures shown { result.shown.count ≡ 0 }
    {
        StepSizes {
            next: GroupSizes::none(alloc),
            shown: GroupSizes::none(alloc),
        }
    }

    /// Takes so many places for each, if that was not done.
    pub(crate) fn take_places(&mut self, places: usize) -> Result<(), AllocError>
        ensures next { (samples : List ℤ) (a b : ℕ)
            → HaveSizes samples a b self.old.next.count self.old.next.places.items self.old.next.words.items
            → HaveSizes samples a b self.new.next.count self.new.next.places.items self.new.next.words.items }
        ensures shown { (samples : List ℤ) (a b : ℕ)
            → HaveSizes samples a b self.old.shown.count self.old.shown.places.items self.old.shown.words.items
            → HaveSizes samples a b self.new.shown.count self.new.shown.places.items self.new.shown.words.items }
    {
        self.next.take_places(places)?;
        self.shown.take_places(places)
    }

    /// Goes on to a step that told so many groups. Those of the step before it are shown, if its run is
    /// `whole`; one that is cut has other groups.
    pub(crate) fn go_on(&mut self, groups: usize, whole: bool)
        ensures next_places { self.new.next.places ≡ self.old.shown.places }
        ensures next_words { self.new.next.words ≡ self.old.shown.words }
        ensures next_count { self.new.next.count ≡ groups }
        ensures shown_places { self.new.shown.places ≡ self.old.next.places }
        ensures shown_words { self.new.shown.words ≡ self.old.next.words }
        ensures whole { IsTrue whole → self.new.shown.count ≡ self.old.next.count }
        ensures cut { IsFalse whole → self.new.shown.count ≡ 0 }
    {
        mem::swap(&mut self.next, &mut self.shown);
        self.next.count = groups;
        if !whole {
            self.shown.count = 0;
        }
    }
}
