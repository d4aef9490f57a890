//! Which names the segments of a day have to have.
ghost use Rattle.std.specs.Prelude.{◌≡◌, false, true};

/// A channel, each code in the width that it has room for in a path, with spaces after it, and a day of it.
#[derive(Clone, Copy, PartialEq, Eq)]
pub struct DayName {
    pub network: [u8; 8],
    pub station: [u8; 8],
    pub location: [u8; 8],
    pub channel: [u8; 8],
    pub year: u16,
    /// The day of the year, from 1 for 1 January.
    pub day: u16,
}

/// The name that the segments of a day have to have.
#[derive(Clone, Copy, PartialEq, Eq)]
pub enum Names {
    /// Any.
    Any,
    /// That of the path of each day.
    Own,
    /// This one.
    Of(DayName),
}

impl Names {
    /// Those of each day's path, if that is asked for.
    pub fn asked(own: bool) -> Names
        ensures own { own ≡ true → result ≡ Names.Own }
        ensures any { own ≡ false → result ≡ Names.Any }
    {
        if own { Names::Own } else { Names::Any }
    }
}
