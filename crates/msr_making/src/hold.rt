//! What else a day depends on: other processes, of which no clause speaks.

/// Whether a day may be touched still, and where its report is to stand.
pub trait Hold {
    /// Whether the day is this walk's still, or, of a day that nobody has claimed, whether nobody has it.
    fn is_held(&self) -> bool;

    /// Makes the folder of the day's report, with those that lead to it, if it is missing. If that fails, so does making the
    /// report.
    fn make_folder(&mut self);
}
