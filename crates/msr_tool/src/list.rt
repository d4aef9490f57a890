//! Listing the segments of an input.
ghost use Rattle.std.specs.Prelude.{◌≡◌, ◌<◌, [], length, None};
ghost use Rattle.msr_devices.specs.Device.{CanCountCall};
ghost use Rattle.msr_input.specs.Rows.{HasReadRows, row_settings};
ghost use Rattle.msr_tool.specs.Fault.{ReadsAndWrites};
ghost use Rattle.msr_tool.specs.Listing.{ListAnswers};
ghost use Rattle.msr_tool.specs.ListWriting.{HasListed};
ghost use Rattle.msr_tool.specs.Settings.{settings_of};

use crate::fault::ToolFault;
use crate::list_writer::ListWriter;
use crate::repacking::settings_of;
use msr_base::Counts;
use msr_devices::{Sink, Source};
use msr_input::RowReader;
use msr_options::{ListForm, Options};
use std::alloc::Global;

/// Reads all records of the source, and writes a line for each segment of their rows and a last line with the
/// counts of the records, in that form. Of the options it takes all but the length. It holds no samples.
pub fn list_segments<R: Source, W: Sink>(
    alloc: Global,
    source: &mut R,
    sink: &mut W,
    options: Options,
    form: ListForm,
) -> Result<Counts, ToolFault>
    requires source { CanCountCall (R.device source.old) }
    requires sink { CanCountCall (W.device sink.old) }
    ensures { ReadsAndWrites (ListAnswers form (settings_of options)) (R.device source.old) (R.device source.new)
        (W.device sink.old) (W.device sink.new) result }
{
    let mut reader = RowReader::new(alloc, settings_of(options));
    let mut writer = ListWriter::new(alloc, form);
    list_rows(source, sink, &mut reader, &mut writer)
}

/// Lists with a reader and a writer that are new. They are lent, so that each is dropped at one place.
fn list_rows<R: Source, W: Sink>(
    source: &mut R,
    sink: &mut W,
    reader: &mut RowReader,
    writer: &mut ListWriter,
) -> Result<Counts, ToolFault>
    requires count { CanCountCall (R.device source.old) × CanCountCall (W.device sink.old) }
    requires reader { HasReadRows (R.device source.old) (R.device source.old) reader.old [] []
        × (reader.old.following.current ≡ None) }
    requires writer { (writer.old.last ≡ None) × (length writer.old.waiting < 65536)
        × HasListed writer.old.form (W.device sink.old) (W.device sink.old) writer.old.waiting writer.old.before [] }
    ensures { ReadsAndWrites (ListAnswers writer.old.form (row_settings reader.old)) (R.device source.old)
        (R.device source.new) (W.device sink.old) (W.device sink.new) result }
{
    'rows: while let Some(next) = reader.next_outline(source)? {
        writer.take(sink, &next)?;
    }
    let counts = reader.counts();
    writer.finish(sink, &counts)?;
    Ok(counts)
}
