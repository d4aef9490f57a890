//! Laws of reports and their texts, each the contract of a function that does nothing.
ghost use Rattle.std.specs.Prelude.{◌<◌, ◌^◌, All, IsTrue};
ghost use Rattle.msr_header.specs.Reading.{is_quality};
ghost use Rattle.msr_report.specs.Proper.{IsProper, IsProperLine};
ghost use Rattle.msr_report_reader.specs.Content.{IsContent, IsContentLine, IsReportKey, content_line, content_of};
ghost use Rattle.msr_report_reader.specs.Laws.{NoLineAtFault, OneReport, TextIsReadBack};

use msr_base::Counts;
use msr_report::{Report, SegmentLine};
use msr_rows::Key;

/// Two reports with the same text say the same.
pub fn one_report()
    ensures { OneReport }
{}

/// The text of a report has no line at fault, so it is read as that report if no source fails and no memory is refused.
pub fn text_is_read_back()
    ensures no_fault { NoLineAtFault }
    ensures back { TextIsReadBack }
{}

/// Each field of a report is in the range of its type, so what is said of such contents is so of each proper report.
pub fn report_in_range(report: &Report)
    ensures { IsProper report.now → IsContent (content_of report.now) }
{
    counts_in_range(report.counts);
    for line in &report.segments {
        line_in_range(line);
    }
}

/// Each field of a segment's lines is in the range of its type.
pub fn line_in_range(line: &SegmentLine)
    ensures { IsProperLine line.now → IsContentLine (content_line line.now) }
{
    key_in_range(line.key);
    numbers_in_range(&line.separators);
    let _samples = line.samples;
    let _records = line.records;
}

fn key_in_range(key: Key)
    ensures { IsTrue (is_quality key.quality) → IsReportKey key }
{}

fn numbers_in_range(numbers: &[u64])
    ensures { All (λ n. n < 2 ^ 64) numbers.now }
{}

fn counts_in_range(counts: Counts)
    ensures read { counts.read < 2 ^ 64 }
    ensures empty { counts.empty < 2 ^ 64 }
    ensures mismatched { counts.mismatched < 2 ^ 64 }
{}
