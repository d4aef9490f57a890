//! What is found of the segments of a day.
ghost use Rattle.std.specs.Prelude.{◌≡◌, IfNone, IfSome, IsTrue, All, false, true};
ghost use Rattle.msr_time.specs.Instant.{IsInstant};
ghost use Rattle.msr_report.specs.Proper.{IsProper, IsProperLine};
ghost use Rattle.msr_folders.specs.Belonging.{HaveSampleOn, IsFirstOfAnother, IsFoundAsAsked, IsFoundOf, IsNameOf, told_segments, told_segment};
ghost use Rattle.msr_folders.specs.Names.{IsOfChannel};
ghost use Rattle.msr_folders.specs.Times.{HasSampleOn};

use crate::names::{is_of_channel, padded};
use crate::times::has_sample_on;
use msr_options::{DayName, Names};
use msr_report::{ListedSegment, Report, SegmentLine};
use msr_time::split;

/// The segment of a line.
fn told_segment(line: &SegmentLine) -> ListedSegment
    ensures { result ≡ told_segment line.now }
{
    ListedSegment {
        key: line.key,
        start: line.start,
        count: line.samples,
    }
}

/// The name of a segment.
fn name_of(segment: &ListedSegment) -> DayName
    requires { IsInstant segment.now.start }
    ensures { IsNameOf segment.now result }
{
    let (time, _) = split(segment.start).unwrap();
    let key = &segment.key;
    DayName {
        network: padded(&key.network),
        station: padded(&key.station),
        location: padded(&key.location),
        channel: padded(&key.channel),
        year: time.year,
        day: time.day,
    }
}

/// The name of the first segment that is of another channel, if one is.
fn first_of_another(name: &DayName, lines: &[SegmentLine]) -> Option<DayName>
    requires { All IsProperLine lines.now }
    ensures another { IfSome result (λ found. IsFirstOfAnother name.now (told_segments lines.now) found) }
    ensures same { IfNone result (All (IsOfChannel name.now) (told_segments lines.now)) }
{
    for line in lines {
        let segment = told_segment(line);
        if !is_of_channel(name, &segment) {
            return Some(name_of(&segment));
        }
    }
    None
}

/// Whether one of the segments has a sample on the day.
fn have_sample_on(name: &DayName, lines: &[SegmentLine]) -> bool
    ensures one { result ≡ true → HaveSampleOn name.now (told_segments lines.now) }
    ensures none { result ≡ false → All (λ segment. HasSampleOn name.now.year name.now.day segment → ⊥) (told_segments lines.now) }
{
    for line in lines {
        if has_sample_on(&told_segment(line), name.year, name.day) {
            return true;
        }
    }
    false
}

/// By which segment those of these lines do not belong to the day of that name, if they do not.
fn found_of(name: &DayName, lines: &[SegmentLine]) -> Option<DayName>
    requires { All IsProperLine lines.now }
    ensures { IsFoundOf name.now (told_segments lines.now) result }
{
    if let Some(found) = first_of_another(name, lines) {
        return Some(found);
    }
    let first = lines.first()?;
    if have_sample_on(name, lines) {
        return None;
    }
    Some(name_of(&told_segment(first)))
}

/// By which segment those of a report do not belong to the day that is asked for, if they do not.
pub fn misplaced(report: &Report, names: Names) -> Option<DayName>
    requires { IsProper report.now }
    ensures { IsFoundAsAsked names (told_segments report.now.segments.items) result }
{
    match names {
        Names::Of(name) => found_of(&name, report.segments.as_slice()),
        Names::Any | Names::Own => None,
    }
}
