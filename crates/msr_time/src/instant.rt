//! Instants: microseconds of the years 1900 to 2100.
ghost use Rattle.std.specs.Prelude.{◌↔◌, IsTrue};
ghost use Rattle.msr_time.specs.Instant.{IsInstant};

/// 1900-01-01 00:00:00.000000.
pub(crate) const FIRST_INSTANT: i64 = -2_208_988_800_000_000;

/// 2100-12-31 23:59:59.999999.
pub(crate) const LAST_INSTANT: i64 = 4_133_980_799_999_999;

/// Whether that many microseconds from 1970-01-01 00:00:00 are an instant of the years 1900 to 2100.
pub fn is_instant(t: i64) -> bool
    ensures { IsTrue result ↔ IsInstant t }
{
    FIRST_INSTANT <= t && t <= LAST_INSTANT
}
