//! How long files were not changed.
ghost use Rattle.std.specs.Prelude.{◌≡◌, ◌↔◌, ◌<◌, IsTrue, None, Some};
ghost use Rattle.msr_folders.specs.Ages.{IsLater, before};

use msr_tree::Time;

const SECONDS_PER_DAY: i64 = 86_400;

/// Whether a time is later than the other.
pub fn is_later(time: Time, other: Time) -> bool
    ensures { IsTrue result ↔ IsLater time other }
{
    if time.seconds == other.seconds {
        return other.nanoseconds < time.nanoseconds;
    }
    other.seconds < time.seconds
}

/// The time so many days of 86,400 s before another; none for 0 days. It is never before the first that has a number.
pub fn days_before(time: Time, days: u32) -> Option<Time>
    ensures none { days ≡ 0 → result ≡ None }
    ensures some { 0 < days → result ≡ Some (before time days) }
{
    if days == 0 {
        return None;
    }
    let seconds = i64::from(days) * SECONDS_PER_DAY;
    Some(Time {
        seconds: time.seconds.saturating_sub(seconds),
        nanoseconds: time.nanoseconds,
    })
}
