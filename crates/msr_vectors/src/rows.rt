//! Which row is answered by which call.

use crate::line::{Line, NONE};
use crate::{areas, filling, fitting, growing, inputs, packing, records, reports, times, tools};
use msr_base::Length;
use std::io;

/// Answers a row of times, or another.
fn answer_times(name: &str, line: &mut Line<'_>) {
    match name {
        "time" => times::time(line),
        "instant" => times::instant(line),
        "period" => times::period(line),
        "nominal" => times::nominal(line),
        "near" => times::near(line),
        "path" => times::path(line),
        _ => answer_areas(name, line),
    }
}

/// Answers a row of areas and of words, or another.
fn answer_areas(name: &str, line: &mut Line<'_>) {
    match name {
        "samples" => areas::grown(line),
        "plain" => areas::plain(line),
        "steim" => areas::steim(line),
        "frames" => areas::frames(line),
        "word" => areas::written(line),
        "read" => areas::held(line),
        "width" => areas::width(line),
        "group" => areas::is_one(line),
        _ => answer_fitting(name, line),
    }
}

/// Answers a row of what fits a record, or another.
fn answer_fitting(name: &str, line: &mut Line<'_>) {
    match name {
        "taken" => fitting::taken(line),
        "kind" => fitting::kind(line),
        "encoding" => fitting::encoding(line),
        "length" => fitting::length(line),
        "longest" => fitting::longest(line),
        "fits" => fitting::fits(line),
        "run" => fitting::run(line),
        "difference" => fitting::difference_at(line),
        _ => answer_groups(name, line),
    }
}

/// Answers a row of groups or of packings, or another.
fn answer_groups(name: &str, line: &mut Line<'_>) {
    match name {
        "word_size" => fitting::word_size(line),
        "groups" => fitting::divided(line),
        "count" => fitting::counted(line),
        "pack" => packing::packed(line),
        "separates" => packing::separated(line),
        "least" => packing::is_least(line),
        _ => answer_records(name, line),
    }
}

/// Answers a row of records, or another.
fn answer_records(name: &str, line: &mut Line<'_>) {
    match name {
        "header" => records::header(line),
        "record" => records::decoded(line),
        "encode" => records::encoded(line),
        "area1" => filling::steim1(line),
        "area2" => filling::steim2(line),
        "told" => filling::by_told_words(line),
        _ => answer_inputs(name, line),
    }
}

/// Answers a row of inputs or of reports, or another.
fn answer_inputs(name: &str, line: &mut Line<'_>) {
    match name {
        "join" => inputs::joined(line),
        "input" => inputs::read(line),
        "compare" => inputs::compared(line),
        "report" => reports::read(line),
        "retold" => reports::written(line),
        "laws" => reports::laws(line),
        _ => answer_tools(name, line),
    }
}

/// Answers a row of tools, or another.
fn answer_tools(name: &str, line: &mut Line<'_>) {
    match name {
        "tool" => tools::called(line),
        "options" => tools::options(line),
        "fault" => tools::fault(line),
        "memory" => tools::memory(line),
        _ => answer_growing(name, line),
    }
}

/// Answers a row of what grows.
fn answer_growing(name: &str, line: &mut Line<'_>) {
    match name {
        "push" => growing::push(line),
        "extend" => growing::extend(line),
        "stream" => growing::stream(line),
        "append" => growing::records(line),
        "joins" => growing::joins(line),
        "totals" => growing::totals(line),
        _ => line.is_bad = true,
    }
}

/// Prints a line, and what is answered to it if it is a row.
pub fn tell(rt: &HostRuntime, text: &str) -> io::Result<()> {
    println!(rt; "{text}")?;
    if text.is_empty() || text.starts_with('#') {
        return Ok(());
    }
    match Length::new(256) {
        Some(length) => tell_answer(rt, &mut Line::new(rt.alloc(), text, length)),
        None => println!(rt; "{NONE}"),
    }
}

/// Answers a row, and prints that.
fn tell_answer(rt: &HostRuntime, line: &mut Line<'_>) -> io::Result<()> {
    let name = line.word();
    answer_times(name, line);
    println!(rt; "{}", line.told())
}
