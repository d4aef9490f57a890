//! How far Steim-1 or Steim-2 reaches, found once: for a run, and for what separates its first sample from the next
//! separator.

ghost use Rattle.std.specs.Prelude.{IfSome, IsTrue};
ghost use Rattle.msr_base.specs.Lengths.{bytes_of};
ghost use Rattle.msr_words.specs.Bounds.{IsEnd};
ghost use Rattle.msr_check.specs.Known.{IsKnown, MeetsNarrow};

use msr_base::{Kind, Length};
use msr_words::{Run, steim1_reach, steim2_reach};

/// Where the longest run of a kind from a sample on ends.
#[derive(Clone, Copy)]
pub(crate) struct Reach {
    pub kind: Kind,
    pub start: usize,
    pub end: usize,
    /// Whether it is of Steim-2, and known to meet narrow differences alone, up to the first that it does not reach.
    pub narrow: bool,
}

/// How far some kind reaches from some sample on, if that was found.
pub(crate) type Known = Option<Reach>;

/// How far the run's kind reaches from where it starts, if that is a kind of Steim and the run starts in the segment.
pub(crate) fn reach_of(samples: &[i32], record_length: Length, run: &Run) -> Known
    ensures { IsKnown (bytes_of record_length) samples.now result }
{
    if run.start > samples.len() as u64 {
        return None;
    }
    let start = run.start as usize;
    match run.kind {
        Kind::Steim1 => Some(Reach {
            kind: Kind::Steim1,
            start,
            end: steim1_reach(samples, record_length, start),
            narrow: false,
        }),
        Kind::Steim2 => {
            let reach = steim2_reach(samples, record_length, start);
            Some(Reach {
                kind: Kind::Steim2,
                start,
                end: reach.end,
                narrow: reach.narrow,
            })
        }
        _ => None,
    }
}

/// Where the longest run of that kind from that sample on ends, if that is known.
pub(crate) fn known_end(
    samples: &[i32],
    record_length: Length,
    kind: Kind,
    start: usize,
    known: Known,
) -> Option<usize>
    requires { IsKnown (bytes_of record_length) samples.now known }
    ensures { IfSome result (IsEnd kind (bytes_of record_length) samples.now start) }
{
    let reach = known?;
    if reach.kind != kind || reach.start != start {
        return None;
    }
    Some(reach.end)
}

/// Whether it is known that Steim-2 from that sample on meets narrow differences alone, up to the first that it does not
/// reach. The contract promises nothing if the answer is `false`.
pub(crate) fn meets_narrow(
    samples: &[i32],
    record_length: Length,
    start: usize,
    known: Known,
) -> bool
    requires { IsKnown (bytes_of record_length) samples.now known }
    ensures { IsTrue result → MeetsNarrow (bytes_of record_length) samples.now start }
{
    let Some(reach) = known else {
        return false;
    };
    reach.start == start && reach.narrow
}

/// Whether it is known how far Steim-2 reaches, from whatever sample on.
pub(crate) fn is_of_steim2(known: Known) -> bool {
    match known {
        Some(reach) => reach.kind == Kind::Steim2,
        None => false,
    }
}
