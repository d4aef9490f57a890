//! Repacking an input, whole or while it comes.
ghost use Rattle.std.specs.Prelude.{◌≡◌, ◌≤◌, ◌↔◌, [], None, IsErrOf, false};
ghost use Rattle.msr_devices.specs.Device.{CanCountCall};
ghost use Rattle.msr_input.specs.Reading.{HoldsRecord};
ghost use Rattle.msr_input.specs.Rows.{HasReadRows};
ghost use Rattle.msr_options.specs.Choice.{form_chosen};
ghost use Rattle.msr_tool.specs.Answer.{Answers};
ghost use Rattle.msr_tool.specs.Fault.{ReadsAndWrites};
ghost use Rattle.msr_tool.specs.KeepingUp.{HasKeptUp};
ghost use Rattle.msr_tool.specs.Settings.{settings_of};
ghost use Rattle.msr_tool.specs.Writing.{HasLined};

use crate::fault::ToolFault;
use crate::lined_writer::LinedWriter;
use msr_devices::{Sink, Source};
use msr_input::{RowReader, Settings};
use msr_options::Options;
use msr_record::{output_has_size, output_keeps_segments};
use msr_report::Report;
use std::alloc::Global;

/// When the records that wait are written.
#[derive(Clone, Copy, PartialEq, Eq)]
enum Flush {
    /// When they are 64 KiB or more.
    Full,
    /// Before each read of the source, too.
    BeforeReads,
}

/// How an input is read with these options.
pub(crate) fn settings_of(options: Options) -> Settings
    ensures same { result ≡ settings_of options }
    ensures in_range { (1 ≤ result.tolerance) × (result.tolerance ≤ 1_000_000) }
{
    Settings {
        tolerance: options.tolerance(),
        strict: options.is_strict(),
    }
}

/// Reads all records of the source, joins their rows into segments, and writes each segment again in the fewest records
/// of the length and the kinds that are asked for, while its samples come. It holds no segment, and a line for each.
pub fn repack<R: Source, W: Sink>(
    alloc: Global,
    source: &mut R,
    sink: &mut W,
    options: Options,
) -> Result<Report, ToolFault>
    requires source { CanCountCall (R.device source.old) }
    requires sink { CanCountCall (W.device sink.old) }
    ensures { ReadsAndWrites (Answers options) (R.device source.old) (R.device source.new)
        (W.device sink.old) (W.device sink.new) result }
{
    repack_with(alloc, source, sink, options, Flush::Full)
}

/// Repacks as `repack` does, a source whose bytes come little by little: whenever it reads, all records are written
/// but those of the last samples of a segment that goes on, at most twice as many as the longest record holds.
pub fn feed<R: Source, W: Sink>(
    alloc: Global,
    source: &mut R,
    sink: &mut W,
    options: Options,
) -> Result<Report, ToolFault>
    requires source { CanCountCall (R.device source.old) }
    requires sink { CanCountCall (W.device sink.old) }
    ensures does { ReadsAndWrites (Answers options) (R.device source.old) (R.device source.new)
        (W.device sink.old) (W.device sink.new) result }

    // When a read fails, which may be any, all was written but at most two longest runs of samples at the end.
    ensures kept_up { IsErrOf result ToolFault.Read
        → HasKeptUp options (R.device source.old) (R.device source.new) (W.device sink.old) (W.device sink.new) }
{
    repack_with(alloc, source, sink, options, Flush::BeforeReads)
}

/// Whether what waits is to be written now, since the next step may read.
fn must_flush(flush: Flush, reader: &RowReader) -> bool
    ensures full { flush ≡ Flush.Full → result ≡ false }
    ensures before_reads { flush ≡ Flush.BeforeReads → (result ≡ false ↔ HoldsRecord reader.now.position.waiting) }
{
    flush == Flush::BeforeReads && !reader.holds_record()
}

fn repack_with<R: Source, W: Sink>(
    alloc: Global,
    source: &mut R,
    sink: &mut W,
    options: Options,
    flush: Flush,
) -> Result<Report, ToolFault>
    requires source { CanCountCall (R.device source.old) }
    requires sink { CanCountCall (W.device sink.old) }
    ensures { ReadsAndWrites (Answers options) (R.device source.old) (R.device source.new)
        (W.device sink.old) (W.device sink.new) result × (flush ≡ Flush.BeforeReads → IsErrOf result ToolFault.Read
        → HasKeptUp options (R.device source.old) (R.device source.new) (W.device sink.old) (W.device sink.new)) }
{
    let mut reader = RowReader::new(alloc, settings_of(options));
    let mut lined = LinedWriter::new(alloc, options.form());
    repack_records(source, sink, options, flush, &mut reader, &mut lined)
}

/// Repacks with a reader and a writer that are new. They are lent, so that each is dropped at one place.
fn repack_records<R: Source, W: Sink>(
    source: &mut R,
    sink: &mut W,
    options: Options,
    flush: Flush,
    reader: &mut RowReader,
    writer: &mut LinedWriter,
) -> Result<Report, ToolFault>
    requires count { CanCountCall (R.device source.old) × CanCountCall (W.device sink.old) }
    requires reader { HasReadRows (R.device source.old) (R.device source.old) reader.old [] []
        × (reader.old.following ≡ record { tolerance = options.tolerance; current = None })
        × (reader.old.position.strict ≡ options.strict) }
    requires writer { (writer.old.last ≡ None) × (writer.old.writing.form ≡ form_chosen options)
        × (writer.old.writing.waiting ≡ []) × HasLined (W.device sink.old) (W.device sink.old) writer.old [] None }
    ensures { ReadsAndWrites (Answers options) (R.device source.old) (R.device source.new)
        (W.device sink.old) (W.device sink.new) result × (flush ≡ Flush.BeforeReads → IsErrOf result ToolFault.Read
        → HasKeptUp options (R.device source.old) (R.device source.new) (W.device sink.old) (W.device sink.new)) }
{
    'records: while let Some(next) = reader.next_record(source)? {
        writer.take(sink, &next)?;
        reader.give_back(next);
        if must_flush(flush, reader) {
            writer.flush(sink)?;
        }
    }
    let counts = reader.counts();
    let segments = writer.finish(sink)?;
    output_keeps_segments();
    output_has_size();
    Ok(Report {
        length: options.length(),
        kinds: options.form().kinds,
        tolerance: options.tolerance(),
        counts,
        segments,
    })
}
