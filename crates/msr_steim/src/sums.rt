//! Writes the samples of words into a slice that the caller has.

ghost use Rattle.std.specs.Prelude.{◌≡◌, ◌<◌, ◌≤◌, ◌+◌, ◌-◌, ◌*◌, ◌/◌, ◌%◌, ◌^◌, pos, IfSome, IsNone, MatchOption, length, slice_index_or, take};
ghost use Rattle.msr_steim.specs.Area.{sums_after};
ghost use Rattle.msr_steim.specs.Sums.{IsGroupWritten, IsInnerWritten, IsWritten, ReachesEnd};
ghost use Rattle.msr_steim.specs.Word.{IsUndefinedWord, numbers_in, signed_of};

use crate::lanes::{has_lanes, write_lanes};
use crate::word::{difference_at, layout_for};
use msr_base::Version;

/// How far the samples are written.
#[derive(Clone, Copy)]
pub(crate) struct Progress {
    /// The next sample's place.
    pub place: usize,
    /// The sample that the next one's difference is added to.
    pub last: i32,
}

/// Fills `out` with the sums of the first fields of a word. Inlined with literals for count, width and length,
/// no loop is left.
#[inline(always)]
fn write_sums(word: u32, count: u32, width: u32, before: i32, out: &mut [i32]) -> i32
    requires positive { 0 < width }
    requires within { count * width ≤ 32 }
    requires some { 0 < length out.old }
    requires few { length out.old ≤ count }
    ensures samples { out.new ≡ sums_after before (take (length out.old) (numbers_in word width count)) }
    ensures last { result ≡ slice_index_or out.new (length out.old - 1) (pos 0) }
{
    let mut last = before;
    for index in 0..out.len() {
        last = last.wrapping_add(difference_at(word, count - 1 - index as u32, width));
        out[index] = last;
    }
    last
}

/// Writes the samples of a word that is laid out so, if a place is left after them. Else nothing is written.
#[inline(always)]
fn write_group(word: u32, count: u32, width: u32, at: Progress, out: &mut [i32]) -> Option<Progress>
    requires layout { (0 < count) × (0 < width) × (count * width ≤ 32) }
    requires room { at.place < length out.old }
    ensures { MatchOption result
        ((length out.old ≤ at.place + count) × (out.new ≡ out.old))
        (IsGroupWritten word count width at out.old out.new) }
{
    let end = at.place + count as usize;
    if end >= out.len() {
        return None;
    }
    let last = write_sums(word, count, width, at.last, &mut out[at.place..end]);
    Some(Progress { place: end, last })
}

/// Writes the samples of a word, if a place is left after them. Else nothing is written: the word reaches the end,
/// or it is undefined. The word is as a big-endian frame has it.
#[inline(always)]
pub(crate) fn write_inner_word(
    version: Version,
    code: u8,
    word: u32,
    at: Progress,
    out: &mut [i32],
) -> Option<Progress>
    requires code { code < 4 }
    requires room { at.place < length out.old }
    ensures { MatchOption result
        (ReachesEnd version code word at.place (length out.old) × (out.new ≡ out.old))
        (IsInnerWritten version code word at out.old out.new) }
{
    match version {
        Version::One => match code {
            0 => Some(at),
            1 => write_group(word, 4, 8, at, out),
            2 => write_group(word, 2, 16, at, out),
            _ => write_group(word, 1, 32, at, out),
        },
        // Each value has an arm of its own: only then LLVM makes one jump by a table of the match. That no other value can
        // come spares a test before it.
        Version::Two => match 4 * u32::from(code) + (word >> 30) {
            0 => Some(at),
            1 => Some(at),
            2 => Some(at),
            3 => Some(at),
            4 => write_group(word, 4, 8, at, out),
            5 => write_group(word, 4, 8, at, out),
            6 => write_group(word, 4, 8, at, out),
            7 => write_group(word, 4, 8, at, out),
            8 => None,
            9 => write_group(word, 1, 30, at, out),
            10 => write_group(word, 2, 15, at, out),
            11 => write_group(word, 3, 10, at, out),
            12 => write_group(word, 5, 6, at, out),
            13 => write_group(word, 6, 5, at, out),
            14 => write_group(word, 7, 4, at, out),
            15 => None,
            _ => unreachable!(),
        },
    }
}

/// The first number of a word of Steim-1 with two fields or one, without a jump by how many.
#[inline(always)]
fn first_of_pair(code: u8, word: u32) -> i32
    requires code { (2 ≤ code) × (code < 4) }
    ensures two { code ≡ 2 → result ≡ signed_of 16 (word / 2 ^ (1 * 16) % 2 ^ 16) }
    ensures one { code ≡ 3 → result ≡ signed_of 32 (word / 2 ^ (0 * 32) % 2 ^ 32) }
{
    word.cast_signed() >> (16 * (3 - u32::from(code)))
}

/// Writes the samples of a word of Steim-1 with two fields or one, without a jump by how many: the place after that of a
/// single one is written too, and again by the word that follows.
#[inline(always)]
fn write_pair(code: u8, word: u32, at: Progress, out: &mut [i32]) -> Progress
    requires code { (2 ≤ code) × (code < 4) }
    requires room { at.place + 2 < length out.old }
    ensures two { code ≡ 2 → IsGroupWritten word 2 16 at out.old out.new result }
    ensures one { code ≡ 3 → IsGroupWritten word 1 32 at out.old out.new result }
{
    let first = at.last.wrapping_add(first_of_pair(code, word));
    let second = first.wrapping_add(difference_at(word, 0, 16));
    out[at.place] = first;
    out[at.place + 1] = second;
    Progress {
        place: at.place + 4 - usize::from(code),
        last: if code == 2 { second } else { first },
    }
}

/// Writes the samples of a word of Steim-1 with two fields or one, or of Steim-2 with three or more, without a jump by how
/// many it has, if places are left after them. Else nothing is written.
#[inline(always)]
fn write_without_jump(
    version: Version,
    code: u8,
    word: u32,
    at: Progress,
    out: &mut [i32],
) -> Option<Progress>
    requires code { code < 4 }
    requires room { at.place < length out.old }
    ensures { MatchOption result (out.new ≡ out.old) (IsInnerWritten version code word at out.old out.new) }
{
    match version {
        Version::One => {
            if code < 2 || at.place + 2 >= out.len() {
                return None;
            }
            Some(write_pair(code, word, at, out))
        }
        Version::Two => {
            let key = 4 * usize::from(code) + (word >> 30) as usize;
            if !has_lanes(key) || at.place + 8 > out.len() {
                return None;
            }
            Some(write_lanes(key, word, at, out))
        }
    }
}

/// As `write_inner_word`. `MIXED` says that the sizes of groups mix, so that a jump by them could not be predicted: then it
/// is made only where it has to be.
#[inline(always)]
pub(crate) fn write_next_word<const MIXED: bool>(
    version: Version,
    code: u8,
    word: u32,
    at: Progress,
    out: &mut [i32],
) -> Option<Progress>
    requires code { code < 4 }
    requires room { at.place < length out.old }
    ensures { MatchOption result
        (ReachesEnd version code word at.place (length out.old) × (out.new ≡ out.old))
        (IsInnerWritten version code word at out.old out.new) }
{
    if MIXED {
        if let Some(next) = write_without_jump(version, code, word, at, out) {
            return Some(next);
        }
    }
    write_inner_word(version, code, word, at, out)
}

/// Writes the samples of a word, as far as there are places, or gives `None` if it is undefined. The
/// word is as a big-endian frame has it.
#[cold]
#[inline(never)]
pub(crate) fn write_last_word(
    version: Version,
    code: u8,
    word: u32,
    at: Progress,
    out: &mut [i32],
) -> Option<Progress>
    requires code { code < 4 }
    requires room { at.place < length out.old }
    ensures some { IfSome result (IsWritten version code word at out.old out.new) }
    ensures none { IsNone result → IsUndefinedWord version code word }
{
    let layout = layout_for(version, code, word >> 30)?;
    if layout.count == 0 {
        return Some(at);
    }
    let end = out.len().min(at.place + layout.count as usize);
    let last = write_sums(
        word,
        layout.count,
        layout.width,
        at.last,
        &mut out[at.place..end],
    );
    Some(Progress { place: end, last })
}
