//! Times, instants and rates; paths that have days in them.

use crate::line::Line;
use msr_sds::SdsName;
use msr_time::{BTime, Rate, is_instant, split};

/// `time YEAR DAY HOUR MINUTE SECOND FRACTION`: the instant of a time.
pub fn time(line: &mut Line<'_>) {
    let time = BTime {
        year: line.number(),
        day: line.number(),
        hour: line.number(),
        minute: line.number(),
        second: line.number(),
        fract: line.number(),
    };
    line.show(&time.micros());
}

/// `instant INSTANT`: whether it is in range, and its time with the microseconds below it.
pub fn instant(line: &mut Line<'_>) {
    let instant = line.number();
    line.put_before(is_instant(instant), ' ');
    line.show(&split(instant));
}

/// A rate, if there is one of that factor and multiplier, which it has.
fn rate(line: &mut Line<'_>) -> Option<Rate> {
    let factor = line.number();
    let multiplier = line.number();
    let rate = Rate::new(factor, multiplier);
    if let Some(rate) = &rate {
        line.agree((rate.factor() == factor) & (rate.multiplier() == multiplier));
    }
    rate
}

/// `period FACTOR MULTIPLIER`: the numerator and the denominator of the period in microseconds.
pub fn period(line: &mut Line<'_>) {
    match rate(line) {
        Some(rate) => line.show(&rate.period()),
        None => line.put_text("None"),
    }
}

/// `nominal FACTOR MULTIPLIER START NUMBER`: the instant of the sample of that number after a start.
pub fn nominal(line: &mut Line<'_>) {
    let rate = rate(line);
    let start = line.number();
    let number = line.number();
    match rate {
        Some(rate) => line.show(&rate.nominal(start, number)),
        None => line.is_bad = true,
    }
}

/// `near FACTOR MULTIPLIER NUMBER INSTANT TOLERANCE`: whether the instant is near to the sample of that number after
/// instant 0.
pub fn near(line: &mut Line<'_>) {
    let rate = rate(line);
    let number = line.number();
    let instant = line.number();
    let tolerance = line.number();
    match rate {
        Some(rate) => line.put(rate.near(0, number, instant, tolerance)),
        None => line.is_bad = true,
    }
}

/// `path PATH`: the network, station, location and channel of a day file of an archive, and its path as it is written; or
/// why it is none.
pub fn path(line: &mut Line<'_>) {
    match SdsName::parse(line.word()) {
        Ok(name) => put_name(line, &name),
        Err(fault) => line.put(fault),
    }
}

fn put_name(line: &mut Line<'_>, name: &SdsName<'_>) {
    line.put_before(name.network(), '.');
    line.put_before(name.station(), '.');
    line.put_before(name.location(), '.');
    line.put_before(name.channel(), ' ');
    match name.path_text(line.alloc) {
        Ok(path) => line.put_text(path.as_str()),
        Err(_) => line.is_bad = true,
    }
}
