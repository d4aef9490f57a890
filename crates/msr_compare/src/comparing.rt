//! Comparing the segments of two inputs.
ghost use Rattle.std.specs.Prelude.{◌↔◌, ◌≤◌, ℕ, List, [], IsErrOf, MatchResult};
ghost use Rattle.msr_devices.specs.Device.{Device, CanCountCall, CountsFew, HasFailed, HasLeft};
ghost use Rattle.msr_input.specs.declared.settings.Settings.{Settings as How};
ghost use Rattle.msr_compare.specs.Answers.{CompareAnswers};
ghost use Rattle.msr_compare.specs.Seen.{SeenIfRead, first_following, nothing_seen};
ghost use Rattle.msr_compare.specs.Symbols.{Symbol};
ghost use Rattle.msr_compare.specs.Sides.{HasSource, HasTaken};
ghost use Rattle.msr_compare.specs.Meetings.{AnswersInputs, BothBegin, HaveMet, HaveTaken, ReadsFirst, StopsMeeting};

use crate::comparison::{Comparison, Difference, SameSegments};
use crate::fault::CompareFault;
use crate::meeting::{Met, meet};
use crate::observer::Observer;
use crate::side::Side;
use msr_devices::Source;
use msr_input::{ReadFault, Settings};
use std::alloc::Global;

/// Reads two sides as far as their segments are the same: the first difference, or `None` if both ended.
fn agree<One: Source, Other: Source, O: Observer>(
    one_side: &mut Side,
    one: &mut One,
    other_side: &mut Side,
    other: &mut Other,
    observer: &mut O,
) -> Result<Option<Difference>, CompareFault>
    requires one { CanCountCall (One.device one.old) }
    requires other { CanCountCall (Other.device other.old) }
    ensures met { (begun : O) (settings : How) (start_one start_other : Device)
        → HaveTaken (O.has_seen begun observer.old) settings start_one (One.device one.old) start_other
        (Other.device other.old) one_side.old other_side.old
        → MatchResult result
        (HaveMet (O.has_seen begun observer.new) settings start_one (One.device one.new) start_other (Other.device other.new)
        one_side.new other_side.new)
        (StopsMeeting (O.has_seen begun observer.new) settings start_one (One.device one.new) start_other
        (Other.device other.new) one_side.new) }
    ensures few_one { CountsFew (One.device one.old) (One.device one.new) }
    ensures few_other { CountsFew (Other.device other.old) (Other.device other.new) }
{
    'meetings: loop {
        if let Err(fault) = one_side.fetch(one, observer) {
            return Err(CompareFault::One(fault));
        }
        if let Err(fault) = other_side.fetch(other, &mut ()) {
            return Err(CompareFault::Other(fault));
        }
        match meet(one_side, other_side) {
            Met::Agree => {}
            Met::End => return Ok(None),
            Met::Differ(difference) => return Ok(Some(difference)),
        }
    }
}

/// Reading the other input stopped. If it is refused, the first one is read to its end: it may be refused too.
fn refuse<One: Source, O: Observer>(
    side: &mut Side,
    one: &mut One,
    observer: &mut O,
    why: ReadFault,
) -> CompareFault
    requires { HasSource (One.device one.old) side.old }
    ensures refused { (begun : O) (settings : How) (start : Device) (done : List Symbol)
        → HasTaken (O.has_seen begun observer.old) settings start (One.device one.old) side.old done
        → ReadsFirst (O.has_seen begun observer.new) settings start (One.device one.new) why result }
    ensures few { (settings : How) (start : Device) (done : List Symbol)
        → HasTaken nothing_seen settings start (One.device one.old) side.old done
        → CountsFew start (One.device one.new) }
{
    match why {
        ReadFault::Input(found) => match side.drain(one, observer) {
            Ok(()) => CompareFault::Other(ReadFault::Input(found)),
            Err(first) => CompareFault::One(first),
        },
        ReadFault::Read => CompareFault::Other(ReadFault::Read),
        ReadFault::Memory => CompareFault::Other(ReadFault::Memory),
    }
}

/// What is answered for two sides before their first records.
fn answer<One: Source, Other: Source, O: Observer>(
    one_side: &mut Side,
    one: &mut One,
    other_side: &mut Side,
    other: &mut Other,
    observer: &mut O,
) -> Result<Comparison, CompareFault>
    requires one { CanCountCall (One.device one.old) }
    requires other { CanCountCall (Other.device other.old) }
    requires begins { BothBegin (O.has_seen observer.old observer.old) (One.device one.old) (Other.device other.old)
        one_side.old other_side.old }
    ensures { (begun : O) (settings : How)
        → HaveTaken (O.has_seen begun observer.old) settings (One.device one.old) (One.device one.old)
        (Other.device other.old) (Other.device other.old) one_side.old other_side.old
        → AnswersInputs (O.has_seen begun observer.new) settings (One.device one.old) (One.device one.new)
        (Other.device other.old) (Other.device other.new) result }
{
    match agree(one_side, one, other_side, other, observer) {
        Ok(None) => {
            let first = one_side.tally();
            let second = other_side.tally();
            Ok(Comparison::Same(SameSegments {
                segments: first.segments,
                samples: first.samples,
                moved_one: first.moved,
                moved_other: second.moved,
            }))
        }
        Ok(Some(difference)) => {
            // Both inputs are read to their ends: a later record may be refused.
            if let Err(fault) = one_side.drain(one, observer) {
                return Err(CompareFault::One(fault));
            }
            if let Err(fault) = other_side.drain(other, &mut ()) {
                return Err(CompareFault::Other(fault));
            }
            Ok(Comparison::Differ(difference))
        }
        Err(CompareFault::One(why)) => Err(CompareFault::One(why)),
        Err(CompareFault::Other(why)) => Err(refuse(one_side, one, observer, why)),
    }
}

/// Reads both inputs to their ends, and says whether they have the same segments, or which is the first difference. If
/// an input is refused, that is the answer, also if a segment before it differs; if both are, the first one's. Of each
/// input the samples of one record are kept.
pub fn compare<One: Source, Other: Source>(
    alloc: Global,
    one: &mut One,
    other: &mut Other,
    settings: Settings,
) -> Result<Comparison, CompareFault>
    requires one { CanCountCall (One.device one.old) }
    requires other { CanCountCall (Other.device other.old) }
    requires tolerance { (1 ≤ settings.tolerance) × (settings.tolerance ≤ 1_000_000) }

    // What is answered, for the bytes that the sources have.
    ensures answer { (first second : List ℕ) × HasLeft (One.device one.old) first
        × HasLeft (Other.device other.old) second × CompareAnswers settings first second result }

    // A failure of a source is answered as such, and nothing else is.
    ensures read_one { IsErrOf result (CompareFault.One ReadFault.Read)
        ↔ HasFailed (One.device one.old) (One.device one.new) }
    ensures read_other { IsErrOf result (CompareFault.Other ReadFault.Read)
        ↔ HasFailed (Other.device other.old) (Other.device other.new) }
    ensures few_one { CountsFew (One.device one.old) (One.device one.new) }
    ensures few_other { CountsFew (Other.device other.old) (Other.device other.new) }
{
    compare_observed(alloc, one, other, settings, &mut ())
}

/// The same, while the observer sees each record of the first input, before its samples are compared: all of them,
/// unless that input is at fault, or a source or memory failed.
pub fn compare_observed<One: Source, Other: Source, O: Observer>(
    alloc: Global,
    one: &mut One,
    other: &mut Other,
    settings: Settings,
    observer: &mut O,
) -> Result<Comparison, CompareFault>
    requires one { CanCountCall (One.device one.old) }
    requires other { CanCountCall (Other.device other.old) }
    requires tolerance { (1 ≤ settings.tolerance) × (settings.tolerance ≤ 1_000_000) }
    requires observer { O.has_seen observer.old observer.old (first_following settings) [] }

    // What is answered, for the bytes that the sources have, and what was seen of the first.
    ensures answer { (first second : List ℕ) × HasLeft (One.device one.old) first
        × HasLeft (Other.device other.old) second × CompareAnswers settings first second result
        × SeenIfRead (O.has_seen observer.old observer.new) settings first result }

    // A failure of a source is answered as such, and nothing else is.
    ensures read_one { IsErrOf result (CompareFault.One ReadFault.Read)
        ↔ HasFailed (One.device one.old) (One.device one.new) }
    ensures read_other { IsErrOf result (CompareFault.Other ReadFault.Read)
        ↔ HasFailed (Other.device other.old) (Other.device other.new) }
    ensures few_one { CountsFew (One.device one.old) (One.device one.new) }
    ensures few_other { CountsFew (Other.device other.old) (Other.device other.new) }
{
    let mut one_side = Side::new(alloc, settings);
    let mut other_side = Side::new(alloc, settings);
    answer(&mut one_side, one, &mut other_side, other, observer)
}
