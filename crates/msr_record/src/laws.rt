//! Laws of outputs, each the contract of a function that does nothing.
ghost use Rattle.msr_record.specs.Output.{OneOutput, OutputKeepsSegments, OutputHasSize, SegmentsHaveOutput, FirstRecordsArePrefix, RecordsStay};

/// Segments have at most one output in records of one form.
pub fn one_output()
    ensures { OneOutput }
{}

/// What was written has the same segments when it is read.
pub fn output_keeps_segments()
    ensures { OutputKeepsSegments }
{}

/// An output has as many bytes as its records have in all.
pub fn output_has_size()
    ensures { OutputHasSize }
{}

/// Segments that can be written have an output, and the records of some first runs are a prefix of one; these stay
/// when their segment grows.
pub fn segments_have_output()
    ensures whole { SegmentsHaveOutput }
    ensures prefix { FirstRecordsArePrefix }
    ensures stay { RecordsStay }
{}
