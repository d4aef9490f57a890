//! What became of a day.
ghost use Rattle.std.specs.Prelude.{◌≢◌};
ghost use Rattle.msr_exchange.specs.declared.told.Told.TheVariants.{Done, Same};

use crate::moves::Hindrance;

/// Why a day is refused: the name that cannot be given, and what is in the way.
#[derive(Clone, Copy, PartialEq, Eq)]
pub enum Refusal {
    /// The one in ROOT.
    Day(Hindrance),
    /// The original's in ASIDE.
    Aside(Hindrance),
    /// The records' in OUT.
    Records(Hindrance),
}

/// What became of a day.
#[derive(Clone, Copy, PartialEq, Eq)]
pub enum Told {
    Done,
    /// ROOT has the other file's bytes already.
    Same,
    /// A file was changed meanwhile; the day's has its place.
    Changed,
    Refused(Refusal),
}

/// Why a day is given up whose original has its place.
#[derive(Clone, Copy, PartialEq, Eq)]
pub(crate) enum GivenUp {
    Changed,
    Undressed,
}

impl GivenUp {
    pub(crate) fn told(self) -> Told
        ensures done { result ≢ Done }
        ensures same { result ≢ Same }
    {
        match self {
            GivenUp::Changed => Told::Changed,
            GivenUp::Undressed => Told::Refused(Refusal::Day(Hindrance::Dress)),
        }
    }
}
