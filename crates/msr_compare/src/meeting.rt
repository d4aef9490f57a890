//! Comparing what is ahead of two inputs.
ghost use Rattle.std.specs.Prelude.{◌≡◌};
ghost use Rattle.msr_compare.specs.Meetings.{BeginsNext, HoldsNext, Meets, place_of};

use crate::ahead::Next;
use crate::comparison::{Difference, DifferenceKind, Which};
use crate::side::Side;
use msr_rows::Key;
use msr_segments::first_unequal;

/// What was found.
#[derive(Clone, Copy)]
pub(crate) enum Met {
    /// The same was ahead of both, and is passed.
    Agree,
    /// Nothing is ahead of either.
    End,
    /// What is ahead differs.
    Differ(Difference),
}

/// The segment of a side is the first that differs, and in that.
fn differs(side: &Side, kind: DifferenceKind) -> Met
    ensures { result ≡ Met.Differ (record { segment = side.now.tally.segments; kind = kind }) }
{
    Met::Differ(Difference {
        segment: side.tally().segments,
        kind,
    })
}

/// Samples are ahead of this side, and none of the other.
fn holds_more(side: &Side, which: Which) -> Met
    ensures { result ≡ Met.Differ (record {
      segment = side.now.tally.segments;
      kind = DifferenceKind.SampleOnlyIn (place_of side.now) which;
    }) }
{
    differs(
        side,
        DifferenceKind::SampleOnlyIn {
            number: side.place(),
            which,
        },
    )
}

/// Samples are ahead of both sides.
fn meet_samples(one: &mut Side, other: &mut Side) -> Met
    requires one { HoldsNext one.old.ahead }
    requires other { HoldsNext other.old.ahead }
    ensures { Meets one.old other.old result one.new other.new }
{
    if let Some(unequal) = first_unequal(one.ahead().samples(), other.ahead().samples()) {
        return differs(
            one,
            DifferenceKind::Sample {
                number: one.place().saturating_add(unequal.at as u64),
                one: unequal.one,
                other: unequal.other,
            },
        );
    }
    let count = one
        .ahead()
        .samples()
        .len()
        .min(other.ahead().samples().len());
    one.pass(count);
    other.pass(count);
    Met::Agree
}

/// Both sides begin a segment.
fn meet_beginnings(one: &mut Side, other: &mut Side, keys: (Key, Key), starts: (i64, i64)) -> Met
    requires one { BeginsNext keys.0 starts.0 one.old.ahead }
    requires other { BeginsNext keys.1 starts.1 other.old.ahead }
    ensures { Meets one.old other.old result one.new other.new }
{
    if keys.0 != keys.1 {
        return differs(one, DifferenceKind::Key);
    }
    if starts.0 != starts.1 {
        return differs(one, DifferenceKind::Start);
    }
    one.open();
    other.open();
    Met::Agree
}

/// Compares what is ahead of both sides, as far as it can be, and passes what is the same.
#[inline(always)]
pub(crate) fn meet(one: &mut Side, other: &mut Side) -> Met
    ensures { Meets one.old other.old result one.new other.new }
{
    match one.ahead().next() {
        Next::Begins(key, start) => match other.ahead().next() {
            Next::Begins(other_key, other_start) => {
                meet_beginnings(one, other, (key, other_key), (start, other_start))
            }
            Next::Samples => holds_more(other, Which::Other),
            Next::Nothing => differs(one, DifferenceKind::SegmentOnlyIn(Which::One)),
        },
        Next::Samples => match other.ahead().next() {
            Next::Samples => meet_samples(one, other),
            _ => holds_more(one, Which::One),
        },
        Next::Nothing => match other.ahead().next() {
            Next::Begins(_, _) => differs(other, DifferenceKind::SegmentOnlyIn(Which::Other)),
            Next::Samples => holds_more(other, Which::Other),
            Next::Nothing => Met::End,
        },
    }
}
