//! The names of days and of segments, and their texts.
ghost use Rattle.std.specs.Prelude.{◌≡◌, ◌++◌, ◌≤◌, ◌<◌, ◌↔◌, IfOk, IsTrue, OnOk, false, length, string_bytes};
ghost use Rattle.msr_folders.specs.Names.{IsOfChannel, code_text, day_name, day_text, found_json, found_words, id_text, padded};
ghost use Rattle.msr_options.specs.Days.{names_for};
ghost use Rattle.msr_sds.specs.SdsPath.{HasForm};

use msr_options::{DayName, Names};
use msr_report::{ListedSegment, push_field, push_padded, unpadded};
use msr_sds::SdsName;
use std::alloc::{AllocError, Global};

/// A code with spaces after it.
pub(crate) fn padded(code: &[u8]) -> [u8; 8]
    requires { length code.now ≤ 8 }
    ensures { result ≡ padded code.now }
{
    let mut wide = [b' '; 8];
    wide[..code.len()].copy_from_slice(code);
    wide
}

/// The name of the day with this path.
fn day_name(path: &SdsName<'_>) -> DayName
    requires { HasForm path.now }
    ensures { result ≡ day_name path.now }
{
    DayName {
        network: padded(path.network().as_bytes()),
        station: padded(path.station().as_bytes()),
        location: padded(path.location().as_bytes()),
        channel: padded(path.channel().as_bytes()),
        year: path.year(),
        day: path.day(),
    }
}

/// The names that are asked of the day with this path. The path's own is made only if that is asked for.
pub fn names_for(names: Names, path: &SdsName<'_>) -> Names
    requires { HasForm path.now }
    ensures { result ≡ names_for (day_name path.now) names }
{
    match names {
        Names::Any => Names::Any,
        Names::Own => Names::Of(day_name(path)),
        Names::Of(other) => Names::Of(other),
    }
}

/// Whether a segment is of the channel of that name.
pub(crate) fn is_of_channel(name: &DayName, segment: &ListedSegment) -> bool
    ensures { IsTrue result ↔ IsOfChannel name.now segment.now }
{
    let key = &segment.key;
    padded(&key.network) == name.network
        && padded(&key.station) == name.station
        && padded(&key.location) == name.location
        && padded(&key.channel) == name.channel
}

/// The text of a code.
fn code_text(alloc: Global, code: &[u8]) -> Result<String, AllocError>
    ensures { IfOk result (λ text. string_bytes text ≡ code_text code.now) }
{
    let mut text = String::new(alloc);
    push_field(&mut text, unpadded(code))?;
    Ok(text)
}

/// NET.STA.LOC.CHAN
fn id_text(alloc: Global, name: &DayName) -> Result<String, AllocError>
    ensures { IfOk result (λ text. string_bytes text ≡ id_text name.now) }
{
    let network = code_text(alloc, &name.network)?;
    let station = code_text(alloc, &name.station)?;
    let location = code_text(alloc, &name.location)?;
    let channel = code_text(alloc, &name.channel)?;
    format!(in alloc; "{network}.{station}.{location}.{channel}")
}

/// YEAR,DAY
fn day_text(alloc: Global, name: &DayName) -> Result<String, AllocError>
    ensures { IfOk result (λ text. string_bytes text ≡ day_text name.now) }
{
    let mut text = String::new(alloc);
    push_padded(&mut text, u32::from(name.year), 4)?;
    text.push(',')?;
    push_padded(&mut text, u32::from(name.day), 3)?;
    Ok(text)
}

/// What a line says of a segment that does not belong to a day, in words.
pub fn found_words(alloc: Global, found: &DayName) -> Result<String, AllocError>
    ensures { IfOk result (λ text. string_bytes text ≡ found_words found.now) }
{
    let id = id_text(alloc, found)?;
    let day = day_text(alloc, found)?;
    format!(in alloc; " {id} {day}")
}

/// The members of JSON that tell it.
pub fn found_json(alloc: Global, found: &DayName) -> Result<String, AllocError>
    ensures { IfOk result (λ text. string_bytes text ≡ found_json found.now) }
{
    let id = id_text(alloc, found)?;
    let DayName { year, day, .. } = *found;
    format!(in alloc; ",\"id\":\"{id}\",\"year\":{year},\"day\":{day}")
}
