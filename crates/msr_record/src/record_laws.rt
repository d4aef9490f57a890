//! What holds of written records.
ghost use Rattle.std.specs.Prelude.{◌≡◌, ℕ, ℤ, List, Option};
ghost use Rattle.msr_base.specs.declared.kinds.Kind.{Kind};
ghost use Rattle.msr_record.specs.Written.{IsWrittenRecord, RunHasRecord};
ghost use Rattle.msr_rows.specs.declared.row.Key.{Key};

/// What is written is determined: one text of bytes for a key, a start, a sequence number, a run with
/// the sample before it, a kind and a length.
pub fn one_written()
    ensures { (bytes others : List ℕ) (key : Key) (start : ℤ) (sequence : ℕ) (before : Option ℤ) (samples : List ℤ)
        (kind : Kind) (size : ℕ)
        → IsWrittenRecord bytes key start sequence before samples kind size
        → IsWrittenRecord others key start sequence before samples kind size → bytes ≡ others }
{}

/// Each run that fits a record of a kind has one written record of it.
pub fn run_has_record()
    ensures { RunHasRecord }
{}
