//! Laws of inputs, each the contract of a function that does nothing.
ghost use Rattle.msr_input.specs.Input.{OneListOfRecords, OneFirstFault, ReadableHasNoFault, MemoryIsNoFault};
ghost use Rattle.msr_input.specs.Rows.{AllRowsAreReadable};

/// A readable input has one list of records, and one list of segments.
pub fn one_list_of_records()
    ensures { OneListOfRecords }
{}

/// An input has at most one first fault, with one list of records before it.
pub fn one_first_fault()
    ensures { OneFirstFault }
{}

/// A readable input has no fault.
pub fn readable_has_no_fault()
    ensures { ReadableHasNoFault }
{}

/// The first fault of an input is never running out of memory.
pub fn memory_is_no_fault()
    ensures { MemoryIsNoFault }
{}

/// Once a reader has answered `None` the input is readable: its segments are those of the rows that were given, and its
/// counts are the reader's.
pub fn all_rows_are_readable()
    ensures { AllRowsAreReadable }
{}
