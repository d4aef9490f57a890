//! How far a Steim-2 record reaches, group by group.

ghost use Rattle.std.specs.Prelude.{◌≡◌, ◌<◌, ◌≤◌, IsTrue, length};
ghost use Rattle.msr_base.specs.declared.kinds.Kind.TheVariants.{Steim2 as SecondSteim};
ghost use Rattle.msr_base.specs.Lengths.{bytes_of};
ghost use Rattle.msr_words.specs.Bounds.{AreNarrowThrough, IsEnd};
ghost use Rattle.msr_words.specs.Laws.{IsNarrow};
ghost use Rattle.msr_words.specs.Segment.{difference_at};

use crate::bounds::steim2_greedy_reach;
use crate::counts::is_narrow;
use crate::kinds::{Fitting, difference};
use crate::window::Window;
use msr_base::{Kind, Length};

/// How far Steim-2 reaches from a sample on.
#[derive(Clone, Copy)]
pub struct Steim2Reach {
    /// The greatest end of a run.
    pub end: usize,
    /// How many groups that run has, if their sizes were told, else 0.
    pub groups: usize,
    /// If it is set, all differences of that run and the one after it are narrow.
    pub narrow: bool,
}

impl Steim2Reach {
    /// What a walk came to. `shared` says that each of its groups has two differences or more: such are narrow.
    pub fn of_walk(samples: &[i32], end: usize, groups: usize, shared: bool) -> Steim2Reach
        ensures end { result.end ≡ end }
        ensures number { result.groups ≡ groups }
        ensures groups { IsTrue result.narrow → IsTrue shared }
        ensures after { IsTrue result.narrow → end < length samples.now → IsNarrow (difference_at samples.now end) }
        ensures all { IsTrue shared → (end < length samples.now → IsNarrow (difference_at samples.now end))
            → IsTrue result.narrow }
    {
        Steim2Reach {
            end,
            groups,
            narrow: shared && (end >= samples.len() || is_narrow(difference(samples, end))),
        }
    }
}

/// How far Steim-2 reaches from `start` on: as many of the longest groups as there are words, of no more samples than a
/// record has. The groups are not told.
pub fn steim2_reach(samples: &[i32], record_length: Length, start: usize) -> Steim2Reach
    requires { start ≤ length samples.now }
    ensures end { IsEnd SecondSteim (bytes_of record_length) samples.now start result.end }
    ensures narrow { IsTrue result.narrow → AreNarrowThrough samples.now start result.end }
    ensures untold { result.groups ≡ 0 }
{
    steim2_greedy_reach();
    let latest = start + Kind::Steim2.most(record_length).min(samples.len() - start);
    let seen = &samples[..latest];
    let words = record_length.data_words() as usize;
    let mut window = Window::new();
    let mut at = start;
    let mut shared = true;
    for _word in 0..words {
        let size = window.longest_steim2_group(None, seen, at);
        if size < 2 {
            if size == 0 {
                return Steim2Reach::of_walk(samples, at, 0, shared);
            }
            shared = false;
        }
        at += size;
    }
    Steim2Reach::of_walk(samples, at, 0, shared)
}
