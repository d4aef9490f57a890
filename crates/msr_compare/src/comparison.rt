//! What is said of two inputs.
use std::fmt;

/// One of the two inputs.
#[derive(Clone, Copy, Debug, PartialEq, Eq)]
pub enum Which {
    One,
    Other,
}

/// In what two lists of segments differ: in the first of these in which they do.
#[derive(Clone, Copy, Debug, PartialEq, Eq)]
pub enum DifferenceKind {
    /// The segments have other keys.
    Key,
    /// They begin at other instants.
    Start,
    /// The samples of that number, counted from 0, are these.
    Sample {
        /// How many samples before them are the same.
        number: u64,
        /// The sample of the first input.
        one: i32,
        /// The sample of the other input.
        other: i32,
    },
    /// The segment of one input has more samples.
    SampleOnlyIn {
        /// How many samples both segments have.
        number: u64,
        /// Whose segment has more.
        which: Which,
    },
    /// One input has more segments.
    SegmentOnlyIn(Which),
}

/// The first difference of two lists of segments.
#[derive(Clone, Copy, Debug, PartialEq, Eq)]
pub struct Difference {
    /// The number of the segment, counted from 1.
    pub segment: u64,
    /// In what it differs.
    pub kind: DifferenceKind,
}

/// What is told of two inputs with the same segments.
#[derive(Clone, Copy, Debug, PartialEq, Eq)]
pub struct SameSegments {
    /// How many segments there are.
    pub segments: u64,
    /// How many samples they have in all.
    pub samples: u128,
    /// How far a record's time of the first input lies from the nominal instant of its first sample at most, in
    /// microseconds, rounded up.
    pub moved_one: u64,
    /// The same of the other input.
    pub moved_other: u64,
}

/// Whether two inputs have the same segments.
#[derive(Clone, Copy, Debug, PartialEq, Eq)]
pub enum Comparison {
    /// They have.
    Same(SameSegments),
    /// They have not.
    Differ(Difference),
}

impl Comparison {
    ghost use Rattle.std.specs.Prelude.{◌≡◌, false, true};
    ghost use Rattle.msr_compare.specs.declared.comparison.SameSegments.{SameSegments as Told};
    ghost use Rattle.msr_compare.specs.declared.comparison.Difference.{Difference as Found};

    /// Whether the two inputs have the same segments.
    pub fn is_same(&self) -> bool
        ensures same { (told : Told) → self.now ≡ Comparison.Same told → result ≡ true }
        ensures differ { (difference : Found) → self.now ≡ Comparison.Differ difference → result ≡ false }
    {
        matches!(self, Comparison::Same(_))
    }

    /// The exit status of a program that ends with this answer.
    pub fn status(&self) -> u8
        ensures same { (told : Told) → self.now ≡ Comparison.Same told → result ≡ 0 }
        ensures differ { (difference : Found) → self.now ≡ Comparison.Differ difference → result ≡ 3 }
    {
        if self.is_same() { 0 } else { 3 }
    }
}

impl fmt::Display for Which {
    ghost use Rattle.std.specs.Prelude.{Some};
    ghost use Rattle.msr_compare.specs.Texts.{which_text};

    ghost output = { λ which. Some (which_text which) };

    fn fmt<W: fmt::Write>(&self, f: &mut fmt::Formatter<W>) -> fmt::Result {
        f.write_str(match self {
            Which::One => "ONE",
            Which::Other => "OTHER",
        })
    }
}

impl fmt::Display for DifferenceKind {
    ghost use Rattle.std.specs.Prelude.{Some};
    ghost use Rattle.msr_compare.specs.Texts.{kind_text};

    ghost output = { λ kind. Some (kind_text kind) };

    fn fmt<W: fmt::Write>(&self, f: &mut fmt::Formatter<W>) -> fmt::Result {
        match self {
            DifferenceKind::Key => f.write_str("key"),
            DifferenceKind::Start => f.write_str("start"),
            DifferenceKind::Sample { number, one, other } => {
                write!(f, "sample {number} values {one} {other}")
            }
            DifferenceKind::SampleOnlyIn { number, which } => {
                write!(f, "sample {number} only in {which}")
            }
            DifferenceKind::SegmentOnlyIn(which) => write!(f, "only in {which}"),
        }
    }
}

impl fmt::Display for Difference {
    ghost use Rattle.std.specs.Prelude.{Some};
    ghost use Rattle.msr_compare.specs.Texts.{difference_text};

    ghost output = { λ difference. Some (difference_text difference) };

    fn fmt<W: fmt::Write>(&self, f: &mut fmt::Formatter<W>) -> fmt::Result {
        write!(f, "differ segment {} {}", self.segment, self.kind)
    }
}

impl fmt::Display for SameSegments {
    ghost use Rattle.std.specs.Prelude.{Some};
    ghost use Rattle.msr_compare.specs.Texts.{same_text};

    ghost output = { λ told. Some (same_text told) };

    fn fmt<W: fmt::Write>(&self, f: &mut fmt::Formatter<W>) -> fmt::Result {
        write!(
            f,
            "same segments {} samples {}\nmoved {} {}",
            self.segments, self.samples, self.moved_one, self.moved_other
        )
    }
}

impl fmt::Display for Comparison {
    ghost use Rattle.std.specs.Prelude.{Some};
    ghost use Rattle.msr_compare.specs.Texts.{comparison_text};

    ghost output = { λ comparison. Some (comparison_text comparison) };

    fn fmt<W: fmt::Write>(&self, f: &mut fmt::Formatter<W>) -> fmt::Result {
        match self {
            Comparison::Same(told) => write!(f, "{told}"),
            Comparison::Differ(difference) => write!(f, "{difference}"),
        }
    }
}
