//! The last lines: the channels, and the counts.
ghost use Rattle.std.specs.Prelude.{◌≡◌, List, IfErr, IfOk, OnOk};
ghost use Rattle.std.specs.List.{flat_map};
ghost use Rattle.std.specs.String.{string_bytes};
ghost use Rattle.msr_devices.specs.Device.{CanCountCall, IsCalm, Takes};
ghost use Rattle.msr_folders.specs.Visits.{StopsPrefix};
ghost use Rattle.msr_outcomes.specs.Entries.{Entry, IsTally};
ghost use Rattle.msr_outcomes.specs.Summary.{channel_json, channel_line, channel_words, count_json, count_told, files_json, files_line, files_words, summary, summary_by, with_bytes};

use crate::outcome::{bytes_json, bytes_told};
use crate::tally::Tally;
use msr_devices::{DeviceFault, Sink, write_all};
use msr_folders::{JsonText, Total, Totals};
use msr_options::{Archiving, DayOptions, ListForm};
use std::alloc::{AllocError, Global};

/// The line of a channel in words, with the totals of its records and of its bytes.
fn channel_words(
    alloc: Global,
    told: bool,
    name: &str,
    total: Total,
    bytes: Total,
) -> Result<String, AllocError>
    ensures { IfOk result (λ line. string_bytes line ≡ channel_words told ((name.now, total), bytes)) }
{
    let (files, read, written) = (total.files, total.read, total.written);
    let size = bytes_told(alloc, told, bytes.read, bytes.written)?;
    format!(in alloc; "channel {name} files {files} read {read} written {written}{size}\n")
}

/// The same in JSON.
fn channel_json(
    alloc: Global,
    told: bool,
    name: &str,
    total: Total,
    bytes: Total,
) -> Result<String, AllocError>
    ensures { IfOk result (λ line. string_bytes line ≡ channel_json told ((name.now, total), bytes)) }
{
    let (files, read, written) = (total.files, total.read, total.written);
    let size = bytes_json(alloc, told, bytes.read, bytes.written)?;
    let id = JsonText { text: name };
    format!(in alloc;
        "{{\"what\":\"channel\",\"id\":\"{id}\",\"files\":{files},\"read\":{read},\"written\":{written}{size}}}\n"
    )
}

/// The line of a channel.
fn channel_line(
    alloc: Global,
    asked: &DayOptions,
    name: &str,
    total: Total,
    bytes: Total,
) -> Result<String, AllocError>
    ensures { IfOk result (λ line. string_bytes line ≡ channel_line asked.now ((name.now, total), bytes)) }
{
    match asked.telling.form {
        ListForm::Words => channel_words(alloc, asked.bytes, name, total, bytes),
        ListForm::Json => channel_json(alloc, asked.bytes, name, total, bytes),
    }
}

fn write_channels<O: Sink>(
    alloc: Global,
    out: &mut O,
    asked: &DayOptions,
    totals: &Totals,
    bytes: &Totals,
) -> Result<(), DeviceFault>
    requires { CanCountCall (O.device out.old) }
    ensures all { OnOk result (Takes (O.device out.old) (O.device out.new)
        (flat_map (channel_line asked.now) (with_bytes totals.now bytes.now))) }
    ensures calm { OnOk result (IsCalm (O.device out.old) (O.device out.new)) }
    ensures stops { IfErr result (StopsPrefix (O.device out.old) (O.device out.new)
        (flat_map (channel_line asked.now) (with_bytes totals.now bytes.now))) }
{
    for place in 0..usize::MAX {
        let Some((name, total)) = totals.get(place) else {
            return Ok(());
        };
        let Some((_, size)) = bytes.get(place) else {
            return Ok(());
        };
        let line = channel_line(alloc, asked, name, total, size)?;
        write_all(out, line.as_bytes())?;
    }
    // No memory holds `usize::MAX` channels.
    Err(DeviceFault::Memory)
}

/// What the last line says of days that are counted only if that is asked for.
fn count_told(alloc: Global, told: bool, word: &str, days: u64) -> Result<String, AllocError>
    ensures { IfOk result (λ text. string_bytes text ≡ count_told told word.now days) }
{
    if !told {
        return Ok(String::new(alloc));
    }
    format!(in alloc; " {word} {days}")
}

/// The member of JSON that tells them.
fn count_json(alloc: Global, told: bool, word: &str, days: u64) -> Result<String, AllocError>
    ensures { IfOk result (λ text. string_bytes text ≡ count_json told word.now days) }
{
    if !told {
        return Ok(String::new(alloc));
    }
    format!(in alloc; ",\"{word}\":{days}")
}

/// The last line in words.
fn files_words(
    alloc: Global,
    days: &DayOptions,
    known: bool,
    tally: &Tally,
) -> Result<String, AllocError>
    ensures { IfOk result (λ line. string_bytes line ≡ files_words days.now known tally.now) }
{
    let (files, skipped, refused) = (tally.done, tally.skipped, tally.refused);
    let known = count_told(alloc, known, "known", tally.known)?;
    let larger = count_told(alloc, days.only_smaller, "larger", tally.larger)?;
    let young = count_told(alloc, 0 < days.older_than, "young", tally.young)?;
    let size = bytes_told(alloc, days.bytes, tally.bytes_read, tally.bytes_written)?;
    format!(in alloc;
        "files {files} skipped {skipped} refused {refused}{known}{larger}{young}{size}\n"
    )
}

/// The last line in JSON.
fn files_json(
    alloc: Global,
    days: &DayOptions,
    known: bool,
    tally: &Tally,
) -> Result<String, AllocError>
    ensures { IfOk result (λ line. string_bytes line ≡ files_json days.now known tally.now) }
{
    let (files, skipped, refused) = (tally.done, tally.skipped, tally.refused);
    let known = count_json(alloc, known, "known", tally.known)?;
    let larger = count_json(alloc, days.only_smaller, "larger", tally.larger)?;
    let young = count_json(alloc, 0 < days.older_than, "young", tally.young)?;
    let size = bytes_json(alloc, days.bytes, tally.bytes_read, tally.bytes_written)?;
    format!(in alloc;
        "{{\"what\":\"files\",\"files\":{files},\"skipped\":{skipped},\"refused\":{refused}{known}{larger}{young}{size}}}\n"
    )
}

/// The last line.
fn files_line(
    alloc: Global,
    days: &DayOptions,
    known: bool,
    tally: &Tally,
) -> Result<String, AllocError>
    ensures { IfOk result (λ line. string_bytes line ≡ files_line days.now known tally.now) }
{
    match days.telling.form {
        ListForm::Words => files_words(alloc, days, known, tally),
        ListForm::Json => files_json(alloc, days, known, tally),
    }
}

/// Writes a line for each channel, in the order of their first files that were done, and the line of the counts, with that
/// of what is known if that is told.
pub fn write_sums<O: Sink>(
    alloc: Global,
    out: &mut O,
    days: &DayOptions,
    known: bool,
    tally: &Tally,
) -> Result<(), DeviceFault>
    requires { CanCountCall (O.device out.old) }
    ensures all { (entries : List Entry) → IsTally entries tally.now →
        OnOk result (Takes (O.device out.old) (O.device out.new) (summary_by days.now known entries)) }
    ensures calm { OnOk result (IsCalm (O.device out.old) (O.device out.new)) }
    ensures stops { (entries : List Entry) → IsTally entries tally.now →
        IfErr result (StopsPrefix (O.device out.old) (O.device out.new) (summary_by days.now known entries)) }
{
    write_channels(alloc, out, days, &tally.channels, &tally.bytes)?;
    let line = files_line(alloc, days, known, tally)?;
    write_all(out, line.as_bytes())?;
    Ok(())
}

/// The same of a walk over an archive.
pub fn write_summary<O: Sink>(
    alloc: Global,
    out: &mut O,
    asked: &Archiving<'_>,
    tally: &Tally,
) -> Result<(), DeviceFault>
    requires { CanCountCall (O.device out.old) }
    ensures all { (entries : List Entry) → IsTally entries tally.now →
        OnOk result (Takes (O.device out.old) (O.device out.new) (summary asked.now entries)) }
    ensures calm { OnOk result (IsCalm (O.device out.old) (O.device out.new)) }
    ensures stops { (entries : List Entry) → IsTally entries tally.now →
        IfErr result (StopsPrefix (O.device out.old) (O.device out.new) (summary asked.now entries)) }
{
    write_sums(alloc, out, &asked.days, asked.known.is_asked(), tally)
}
