//! Laws of answers, each the contract of a function that does nothing.
ghost use Rattle.msr_tool.specs.Laws.{OneRefusal, OneRepacking, ReadableIsListed, ReadableIsRepacked, StrictWritesTheSame};
ghost use Rattle.msr_tool.specs.Repacked.{ReadableHasSegments, RepackedHasSegments};
ghost use Rattle.msr_tool.specs.Shown.{RepackedIsLeast, RepackedIsShown};

use msr_input::{one_first_fault, one_list_of_records, readable_has_no_fault};
use msr_record::one_output;
use msr_report_reader::{one_report, text_is_read_back};
use msr_verdict::shown_is_fewest;

/// On a readable input, if no device fails, `repack` succeeds, or answers that memory ran out.
pub fn readable_is_repacked()
    ensures { ReadableIsRepacked }
{
    readable_has_no_fault();
}

/// On a readable input, if no device fails, `list_segments` succeeds, or answers that memory ran out.
pub fn readable_is_listed()
    ensures { ReadableIsListed }
{
    readable_has_no_fault();
}

/// What `repack` writes when it succeeds is determined by the input and the options.
pub fn one_repacking()
    ensures { OneRepacking }
{
    one_list_of_records();
    one_output();
}

/// The fault that `repack` answers when it refuses the input is determined by the input and the options.
pub fn one_refusal()
    ensures { OneRefusal }
{
    one_first_fault();
}

/// A strict repack writes what another writes, and succeeds exactly when the other does and counts no record whose
/// reverse constant does not agree.
pub fn strict_writes_the_same()
    ensures { StrictWritesTheSame }
{}

/// What `repack` wrote is readable, and its own report shows that each of its segments stands in the fewest
/// records, if no segment of the input ends in the last microsecond of the supported years.
pub fn repacked_is_shown()
    ensures { RepackedIsShown }
{
    one_list_of_records();
}

/// `check_packed` of what `repack` wrote and of its report's text answers `Least` if no source fails and no memory
/// is refused, under the condition of [`repacked_is_shown`].
pub fn repacked_is_least()
    ensures { RepackedIsLeast }
{
    repacked_is_shown();
    shown_is_fewest();
    one_report();
    text_is_read_back();
    readable_has_no_fault();
}

/// What `repack` wrote is readable, strictly or not, and has the segments of the input, under the condition of
/// [`repacked_is_shown`]; without it, it has these segments if it is readable.
pub fn repacked_has_segments()
    ensures within { RepackedHasSegments }
    ensures readable { ReadableHasSegments }
{
    one_list_of_records();
}
