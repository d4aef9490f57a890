//! Laws of comparing what was repacked.
ghost use Rattle.msr_verify.specs.Exact.{VerifiedIsExact};
ghost use Rattle.msr_verify.specs.Laws.{OneOutputHasSameInputs, ReadableIsSame, RepackedComparesAsSame, RepackedIsSame, SameInputsHaveOneOutput};

use msr_compare::same_is_exact;
use msr_record::one_output;
use msr_tool::repacked_has_segments;

/// What `repack` wrote has the segments of its input, if none of them ends in the last microsecond of the supported
/// years; and `compare` of the two answers `Same`, unless a source fails or memory is refused. Without that condition it
/// has them if it is readable, as what `check_packed` calls `Least` is.
pub fn repacked_is_same()
    ensures has { RepackedIsSame }
    ensures readable { ReadableIsSame }
    ensures answers { RepackedComparesAsSame }
{
    repacked_has_segments();
    same_is_exact();
}

/// Two inputs with the same segments are repacked to the same records; and inputs that are repacked to the same records
/// have the same segments, under the condition of [`repacked_is_same`].
pub fn same_inputs_have_one_output()
    ensures output { SameInputsHaveOneOutput }
    ensures inputs { OneOutputHasSameInputs }
{
    repacked_is_same();
    one_output();
}

/// A day whose files show what they have to is told as verified, and as nothing else, unless it is misplaced, a call failed,
/// or a file could not be read to its end.
pub fn verified_is_exact()
    ensures { VerifiedIsExact }
{}
