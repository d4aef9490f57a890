//! How the samples of a record stand in its data area.

ghost use Rattle.std.specs.Prelude.{◌≡◌};
ghost use Rattle.msr_base.specs.Storage.{size_of};

/// How many bytes a number takes: SEED's encodings 1, 2 and 3.
#[derive(Clone, Copy, Debug, PartialEq, Eq)]
pub enum Width {
    /// 16-bit integers.
    Two,
    /// 24-bit integers.
    Three,
    /// 32-bit integers.
    Four,
}

impl Width {
    /// That number.
    pub fn bytes(self) -> usize
        ensures { result ≡ size_of self }
    {
        match self {
            Width::Two => 2,
            Width::Three => 3,
            Width::Four => 4,
        }
    }
}

/// The version of the compression: SEED's encodings 10 (Steim-1) and 11 (Steim-2).
#[derive(Clone, Copy, Debug, PartialEq, Eq)]
pub enum Version {
    /// Steim-1.
    One,
    /// Steim-2.
    Two,
}

/// What a data area is made of.
#[derive(Clone, Copy, Debug, PartialEq, Eq)]
pub enum Storage {
    /// Integers of that width, one for each sample.
    Integers(Width),
    /// Frames of differences, compressed so.
    Frames(Version),
}
