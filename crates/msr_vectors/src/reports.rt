//! Reports that are read from their text, and written again; and laws.

ghost use Rattle.msr_report.specs.Proper.{IsProper};

use crate::inputs::{behavior, behaviors};
use crate::line::Line;
use msr_devices::{Behavior, TestSink, TestSource};
use msr_record::{one_output, output_has_size, output_keeps_segments};
use msr_report::{Report, has_text, one_text};
use msr_report_reader::{one_report, read_report, report_in_range, report_of, text_is_read_back};
use msr_sds::one_reading;
use msr_tool::{
    one_refusal, one_repacking, readable_is_listed, readable_is_repacked, repacked_is_least,
    repacked_is_shown, strict_writes_the_same,
};
use msr_verdict::shown_is_fewest;

/// What the report says that a device gives, or why it is none.
fn put_report(line: &mut Line<'_>, text: &[u8], behavior: Behavior) {
    let mut source = TestSource::new(text, behavior);
    match read_report(line.alloc, &mut source) {
        Ok(report) => {
            report_in_range(&report);
            line.show(&report);
        }
        Err(fault) => line.put(fault),
    }
}

/// Notes whether the text at once says so.
fn agree_report(line: &mut Line<'_>, text: &[u8]) {
    match report_of(line.alloc, text) {
        Ok(report) => line.agree_with(format_args!("{report:?}")),
        Err(fault) => line.agree_with(fault),
    }
}

/// `report MOST INTERRUPTIONS FAILS MORE TEXT`: what the report says whose text, with these bytes after it, comes so; or
/// why it is none.
pub fn read(line: &mut Line<'_>) {
    let behavior = behavior(line);
    let more = line.bytes();
    let mut text = line.text();
    line.extend(&mut text, &more);
    put_report(line, &text, behavior);
    if behavior.fails_at.is_none() {
        agree_report(line, &text);
    }
}

/// For each sink how many bytes of the report's text it takes, and why not all.
fn put_taken(line: &mut Line<'_>, report: &Report, text: &[u8], behaviors: &[Behavior])
    requires { IsProper report.now }
{
    let mut all = Vec::new(line.alloc);
    for behavior in behaviors {
        let mut sink = TestSink::new(Vec::new(line.alloc), *behavior);
        let fault = report.write_text(line.alloc, &mut sink).err();
        line.agree(text.starts_with(sink.bytes()));
        line.push(&mut all, (sink.bytes().len(), fault));
    }
    line.show(&all);
}

/// `retold MOST INTERRUPTIONS FAILS TEXT`: how many bytes of the text of that report are written, and why not all.
pub fn written(line: &mut Line<'_>) {
    let behaviors = behaviors(line);
    let text = line.text();
    match report_of(line.alloc, &text) {
        Ok(report) => put_taken(line, &report, &text, &behaviors),
        Err(_) => line.is_bad = true,
    }
}

/// `laws`: the laws can be called.
pub fn laws(line: &mut Line<'_>) {
    one_text();
    has_text();
    one_report();
    text_is_read_back();
    shown_is_fewest();
    one_output();
    output_has_size();
    output_keeps_segments();
    one_refusal();
    one_repacking();
    readable_is_listed();
    readable_is_repacked();
    repacked_is_shown();
    repacked_is_least();
    strict_writes_the_same();
    one_reading();
    line.put_text("called");
}
