//! What a record is to carry, and its data area.
ghost use Rattle.std.specs.Prelude.{◌≡◌, ◌-◌, ◌*◌, ◌/◌, ◌%◌, ◌^◌, ◌<◌, ◌≤◌, All, FitsSigned, IfOk, OnOk, length};
ghost use Rattle.std.specs.Int.{w32};
ghost use Rattle.msr_steim.specs.Area.{CarriesSteim, ReverseAgrees as FramesAgree};
ghost use Rattle.msr_base.specs.declared.storage.Version.TheVariants.{Two};
ghost use Rattle.msr_words.specs.Division.{CanDivide};
ghost use Rattle.msr_filling.specs.Filled.{IsFilledArea};
ghost use Rattle.msr_words.specs.Fit.{HasRoom};
ghost use Rattle.msr_base.specs.RecordLength.{words_of};
ghost use Rattle.msr_base.specs.Lengths.{bytes_of};
ghost use Rattle.msr_words.specs.Segment.{differences, points};
ghost use Rattle.msr_rows.specs.Area.{Carries, ReverseAgreesIfAny};
ghost use Rattle.msr_record.specs.Written.{AreFrames, IsWrittenArea, KnowsGroups, frame_count};

use msr_base::{Kind, Length, Order, Storage, Version};
use msr_filling::{fill_steim1, fill_steim2, fill_steim2_told};
use msr_plain::fill_plain;
use msr_rows::Key;
use std::alloc::{AllocError, Global};

/// A run of samples as a record is to carry it.
#[derive(Drop)]
pub struct WrittenRun<'a> {
    pub key: &'a Key,
    /// The instant of the first sample, in microseconds from 1970-01-01 00:00:00.
    pub start: i64,
    pub sequence: u32,
    /// The sample before the run, or none at the start of a segment.
    pub before: Option<i32>,
    pub samples: &'a [i32],
    pub kind: Kind,
    /// The sizes of the run's Steim-2 groups, or none if they are not known.
    pub group_sizes: &'a [u8],
    /// The words of these groups, as they stand in a big-endian record, or none if they are not known.
    pub group_words: &'a [u32],
}

/// Each sample has 32 bits. A proof knows the range of a number in a slice only once it was read, so this reads each.
pub fn samples_have_32_bits(run: &[i32])
    ensures { All (FitsSigned w32) run.now }
{
    for sample in run {
        let _sample = *sample;
    }
}

/// Gives the frame count for `groups` groups of differences.
fn frame_count(groups: usize) -> u8
    requires { groups < 2 ^ 32 }
    ensures { result ≡ frame_count groups }
{
    let frames = (groups + 2 + 14) / 15;
    if frames <= 255 { frames as u8 } else { 0 }
}

/// Fills the area, of whole frames, with the Steim-2 words of the differences of the run, which may be known, and gives
/// the number of groups.
fn fill_steim2_words(run: &WrittenRun<'_>, area: &mut [u8]) -> usize
    requires some { 1 ≤ length run.now.samples.now }
    requires frames { length area.old % 64 ≡ 0 }
    requires fits { CanDivide Two (15 * (length area.old / 64) - 2) (differences run.now.before run.now.samples.now) }
    requires groups { KnowsGroups run.now.before run.now.samples.now run.now.group_sizes.now run.now.group_words.now }
    ensures { IsFilledArea Two run.now.before run.now.samples.now (length area.old / 64) area.new result }
{
    if run.group_words.is_empty() {
        return fill_steim2(run.before, run.samples, area);
    }
    let (sizes, words) = (run.group_sizes, run.group_words);
    fill_steim2_told(run.before, run.samples, sizes, words, area)
}

/// Fills the area, of whole frames, with the words of the differences of the run, and gives the number of groups.
fn fill_words(
    alloc: Global,
    version: Version,
    run: &WrittenRun<'_>,
    area: &mut [u8],
) -> Result<usize, AllocError>
    requires some { 1 ≤ length run.now.samples.now }
    requires frames { length area.old % 64 ≡ 0 }
    requires fits { CanDivide version (15 * (length area.old / 64) - 2) (differences run.now.before run.now.samples.now) }
    requires groups { KnowsGroups run.now.before run.now.samples.now run.now.group_sizes.now run.now.group_words.now }
    ensures { IfOk result (IsFilledArea version run.now.before run.now.samples.now (length area.old / 64) area.new) }
{
    match version {
        Version::One => fill_steim1(alloc, run.before, run.samples, area),
        Version::Two => Ok(fill_steim2_words(run, area)),
    }
}

/// Fills the area with frames of the differences of the run, and gives their number.
fn fill_steim_area(
    alloc: Global,
    version: Version,
    run: &WrittenRun<'_>,
    record_length: Length,
    area: &mut [u8],
) -> Result<u8, AllocError>
    requires some { 1 ≤ length run.now.samples.now }
    requires range { All (FitsSigned w32) run.now.samples.now }
    requires fits { CanDivide version (words_of (bytes_of record_length)) (differences run.now.before run.now.samples.now) }
    requires groups { KnowsGroups run.now.before run.now.samples.now run.now.group_sizes.now run.now.group_words.now }
    requires size { length area.old ≡ bytes_of record_length - 64 }
    ensures written { IfOk result (λ frames. AreFrames version run.now.before run.now.samples.now
        (bytes_of record_length - 64) frames area.new) }
    ensures carried { OnOk result (CarriesSteim version Order.Big area.new run.now.samples.now) }
    ensures reverse { OnOk result (FramesAgree Order.Big area.new run.now.samples.now) }
{
    let _bytes = record_length.bytes();
    let groups = fill_words(alloc, version, run, area)?;
    Ok(frame_count(groups))
}

/// Fills the area of a record of that length, which stores its samples so, with the run, and gives the frame count that
/// blockette 1001 has for it.
pub(crate) fn fill_area(
    alloc: Global,
    run: &WrittenRun<'_>,
    storage: Storage,
    record_length: Length,
    area: &mut [u8],
) -> Result<u8, AllocError>
    requires some { 1 ≤ length run.now.samples.now }
    requires fits { HasRoom storage (bytes_of record_length) (points run.now.before run.now.samples.now) }
    requires groups { KnowsGroups run.now.before run.now.samples.now run.now.group_sizes.now run.now.group_words.now }
    requires size { length area.old ≡ bytes_of record_length - 64 }
    ensures written { IfOk result (λ frames. IsWrittenArea storage run.now.before run.now.samples.now
        (bytes_of record_length - 64) frames area.new) }
    ensures carried { OnOk result (Carries storage Order.Big area.new run.now.samples.now) }
    ensures reverse { OnOk result (ReverseAgreesIfAny storage Order.Big area.new run.now.samples.now) }
{
    samples_have_32_bits(run.samples);
    match storage {
        Storage::Integers(width) => {
            fill_plain(width, run.samples, area);
            Ok(0)
        }
        Storage::Frames(version) => fill_steim_area(alloc, version, run, record_length, area),
    }
}
