//! What sees the records of an input while it is compared.
ghost use Rattle.std.specs.Prelude.{◌≡◌, [], ◌∷◌, ◌++◌, false, List, OnOk};
ghost use Rattle.msr_rows.specs.declared.row.Record.{Record as Found};
ghost use Rattle.msr_segments.specs.Spans.{Following};
ghost use Rattle.msr_compare.specs.Seen.{IsToldOf, Sight, nothing_seen};

use msr_input::NextRecord;
use std::alloc::AllocError;

/// Sees the records of an input, one after another, each before its samples are compared.
pub trait Observer {
    /// What is known of the records that came since it was as the first of the two.
    ghost has_seen: { Self → Self → Sight };

    /// Whether it has to see the records; if not, they may be passed over.
    fn is_watching(&self) -> bool
        ensures { result ≡ false → (begun : Self) (following : Following) (records : List Found)
            → has_seen begun self.now following records };

    /// Sees the next record. An `Err` is want of memory.
    fn see(&mut self, next: &NextRecord) -> Result<(), AllocError>
        ensures { (begun : Self) (old new : Following) (records : List Found) (found : Found)
            → has_seen begun self.old old records
            → IsToldOf old new next.now found
            → OnOk result (has_seen begun self.new new (records ++ found ∷ [])) };
}

/// Nobody sees anything.
impl Observer for () {
    ghost has_seen = { λ _ _. nothing_seen };

    fn is_watching(&self) -> bool {
        false
    }

    fn see(&mut self, _next: &NextRecord) -> Result<(), AllocError> {
        Ok(())
    }
}
