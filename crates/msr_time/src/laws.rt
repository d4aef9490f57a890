//! Laws of times and rates, each the contract of a function that does nothing.
ghost use Rattle.std.specs.Prelude.{ℕ, ℤ};
ghost use Rattle.msr_time.specs.Instant.{IsInstant, IsSplit};
ghost use Rattle.msr_time.specs.SampleRate.{OneNominalInstant};
ghost use Rattle.msr_time.specs.declared.btime.BTime.{BTime};

/// A sample has at most one rounded nominal instant, which [`Rate::nominal`](crate::Rate::nominal)
/// gives if it is in range.
pub fn one_nominal_instant()
    ensures { OneNominalInstant }
{}

/// Each instant in range is that of a time, with some microseconds below its fraction.
pub fn time_exists()
    ensures { (t : ℤ) → IsInstant t → (time : BTime) × (micros : ℕ) × IsSplit t time micros }
{}
