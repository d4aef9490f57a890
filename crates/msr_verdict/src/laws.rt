//! What a verdict means, as the contract of a function that does nothing.
ghost use Rattle.msr_verdict.specs.Packed.{ShownIsFewest, ShownIsReadable};

/// If a report shows it, the input is readable, and no packing of a segment has fewer records than the segment
/// stands in.
pub fn shown_is_fewest()
    ensures fewest { ShownIsFewest }
    ensures readable { ShownIsReadable }
{}
