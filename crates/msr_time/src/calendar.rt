//! Days of the calendar by their number from 1970-01-01, through `jiff`.
ghost use Rattle.std.specs.Prelude.{◌≡◌, ◌≤◌, ◌↔◌, IsTrue, pos, neg_ℤ, ◌*ℤ◌};
ghost use Rattle.jiff_core.specs.Calendar.{IsBetween, days_in_year};
ghost use Rattle.msr_time.specs.Instant.{day_number};

use jiff::civil::date;
use jiff_core::civil::{Date, days_in_year};

pub(crate) const MICROS_PER_DAY: i64 = 86_400_000_000;

/// Whether it is a day of a year from 1900 to 2100.
pub(crate) fn has_day(year: u16, day: u16) -> bool
    ensures { IsTrue result ↔
        (((1900 ≤ year) × (year ≤ 2100)) × ((1 ≤ day) × (day ≤ days_in_year (pos year)))) }
{
    if year < 1900 || year > 2100 || day < 1 {
        return false;
    }
    // Only a day 366 needs the calendar.
    day <= 365 || day <= days_in_year(year as i16)
}

/// The instant at which that day of the year begins.
pub(crate) fn midnight(year: u16, day: u16) -> i64
    requires year { (1900 ≤ year) × (year ≤ 2100) }
    requires day { (1 ≤ day) × (day ≤ days_in_year (pos year)) }
    ensures { result ≡ pos 86_400_000_000 *ℤ day_number year day }
{
    let first = date(year as i16, 1, 1).to_plain().to_unix_epoch_day();
    MICROS_PER_DAY * (first as i64 + (day as i64 - 1))
}

/// The year and the day of the year of that day number.
pub(crate) fn calendar_day(day: i64) -> (u16, u16)
    requires { IsBetween (neg_ℤ (pos 25_567)) (pos 47_846) day }
    ensures year { (1900 ≤ result.0) × (result.0 ≤ 2100) }
    ensures day { (1 ≤ result.1) × (result.1 ≤ days_in_year (pos result.0)) }
    ensures number { day_number result.0 result.1 ≡ day }
{
    let date = Date::from_unix_epoch_day(day).unwrap();
    (date.year as u16, date.day_of_year())
}
