//! The time of now.

use msr_tree::Time;
use std::time::{Clock, SystemTime, UNIX_EPOCH};

/// The time that a clock tells, from 1970 on.
fn time_told<C: Clock>(clock: &C) -> Option<Time> {
    let since = SystemTime::now(clock)
        .ok()?
        .duration_since(UNIX_EPOCH)
        .ok()?;
    Some(Time {
        seconds: i64::try_from(since.as_secs()).ok()?,
        nanoseconds: i64::from(since.subsec_nanos()),
    })
}

/// The time of now. If a clock tells none, it is 1970, and each file was changed later.
pub(crate) fn time_of_now<C: Clock>(clock: &C) -> Time {
    time_told(clock).unwrap_or(Time {
        seconds: 0,
        nanoseconds: 0,
    })
}
