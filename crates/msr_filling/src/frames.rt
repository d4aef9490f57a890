//! The words of a run, written frame by frame.

ghost use Rattle.std.specs.Prelude.{◌≡◌, ◌<◌, ◌≤◌, ◌+◌, ◌-◌, ◌*◌, ◌/◌, ◌%◌, ◌++◌, ℤ, List, IfSome, IsNone, length, drop, take, pos, slice_index_or};
ghost use Rattle.std.specs.List.{AllByRecursion};
ghost use Rattle.byteorder.specs.Endian.{big_bytes};
ghost use Rattle.msr_steim.specs.Frames.{frame_bytes};
ghost use Rattle.msr_steim.specs.Word.{FitsBits};
ghost use Rattle.msr_words.specs.Canonical.{IsCanonicalDivision};
ghost use Rattle.msr_words.specs.FirstGroup.{AreSizes};
ghost use Rattle.msr_filling.specs.NextWord.{IsNextWord};
ghost use Rattle.msr_words.specs.Segment.{differences};
ghost use Rattle.msr_filling.specs.Sizing.{IsUntold, version_of};
ghost use Rattle.msr_words.specs.Window.{IsWindow};

use crate::filling::{SteimWord, steim2_word};
use crate::steim1_filling::{steim1_word, steim1_word_ahead};
use byteorder::{BigEndian, ByteOrder};
use msr_words::Window;

/// How the size of the next group is found.
#[derive(Clone, Copy)]
pub(crate) enum Sizing {
    /// A Steim-2 group is the longest that fits a word.
    Longest,
    /// The size of a Steim-1 group is told by the next differences, unless they do not tell it.
    Ahead,
    /// The sizes of all Steim-1 groups are given.
    Given,
}

/// Writes a word, big-endian, at its number.
pub(crate) fn put_word(area: &mut [u8], number: usize, word: u32)
    requires { 4 * number + 4 ≤ length area.old }
    ensures { area.new ≡ take (4 * number) area.old ++ (big_bytes 4 word ++ drop (4 * number + 4) area.old) }
{
    BigEndian::write_u32(&mut area[4 * number..], word);
}

/// Writes the constants after the codes of the first frame, and gives how many words of this frame they take.
pub(crate) fn put_constants(area: &mut [u8], frame: usize, first: u32, last: u32) -> usize
    requires { 64 * frame + 64 ≤ length area.old }
    ensures most { result ≤ 2 }
    ensures first { frame ≡ 0 → let one = take (4 * (16 * frame + 1)) area.old
        ++ (big_bytes 4 first ++ drop (4 * (16 * frame + 1) + 4) area.old) in
        (result ≡ 2) × (area.new ≡ take (4 * (16 * frame + 2)) one
        ++ (big_bytes 4 last ++ drop (4 * (16 * frame + 2) + 4) one)) }
    ensures others { 0 < frame → (result ≡ 0) × (area.new ≡ area.old) }
{
    if frame > 0 {
        return 0;
    }
    put_word(area, 16 * frame + 1, first);
    put_word(area, 16 * frame + 2, last);
    2
}

/// The word of the group that begins with that difference, if its size is told.
#[inline(always)]
fn next_word(
    sizing: Sizing,
    before: Option<i32>,
    run: &[i32],
    sizes: &[u8],
    window: &mut Window,
    at: usize,
) -> Option<SteimWord>
    requires within { at < length run.now }
    requires window { IsWindow run.now at window.old }
    requires sizes { sizing ≡ Sizing.Given → AreSizes (differences before run.now) 0 sizes.now }
    requires fits { sizing ≡ Sizing.Ahead → AllByRecursion (FitsBits 32) (differences before run.now) }
    ensures window { IsWindow run.now at window.new }
    ensures next { IfSome result (IsNextWord (version_of sizing) (drop at (differences before run.now))) }
    ensures untold { IsNone result → IsUntold sizing (differences before run.now) }
{
    match sizing {
        Sizing::Longest => Some(steim2_word(before, run, window, at)),
        Sizing::Ahead => steim1_word_ahead(before, run, window, at),
        Sizing::Given => Some(steim1_word(before, run, sizes, window, at)),
    }
}

/// Fills the area, of whole frames, with the words of the run's differences, big-endian: the groups of the division
/// that is written, and as constants the first and the last sample. Gives the number of groups, or none if the next
/// differences do not tell the size of each. Inlined where the sizing is a literal, it is not tested for each word.
#[inline(always)]
pub(crate) fn fill_frames(
    sizing: Sizing,
    before: Option<i32>,
    run: &[i32],
    sizes: &[u8],
    area: &mut [u8],
) -> Option<usize>
    requires some { 1 ≤ length run.now }
    requires frames { length area.old % 64 ≡ 0 }
    requires sizes { sizing ≡ Sizing.Given → AreSizes (differences before run.now) 0 sizes.now }
    requires fits { sizing ≡ Sizing.Ahead → AllByRecursion (FitsBits 32) (differences before run.now) }
    ensures filled { IfSome result (λ used. (groups : List (List ℤ))
        → IsCanonicalDivision (version_of sizing) groups (differences before
        run.now) → length groups + 2 ≤ 15 * (length area.old / 64)
        → (area.new ≡ frame_bytes (version_of sizing) (slice_index_or run.now 0 (pos 0))
        (slice_index_or run.now (length run.now - 1) (pos 0)) groups (length area.old / 64)) × (used
        ≡ length groups)) }
    ensures untold { IsNone result → IsUntold sizing (differences before run.now) }
{
    let first = run[0].cast_unsigned();
    let last = run[run.len() - 1].cast_unsigned();
    let mut window = Window::new();
    let mut at = 0;
    let mut used = 0;
    let mut frame = 0;
    while frame < area.len() / 64 && at < run.len() {
        let mut codes: u32 = 0;
        put_word(area, 16 * frame, 0);
        let from = put_constants(area, frame, first, last);
        let mut slot = from;
        while slot < 15 && at < run.len() {
            let Some(next) = next_word(sizing, before, run, sizes, &mut window, at) else {
                return None;
            };
            put_word(area, 16 * frame + slot + 1, next.word);
            codes = codes * 4 + next.code;
            at += next.size;
            used += 1;
            slot += 1;
        }
        // Once the run has ended, no next word is asked for.
        for spare in slot..15 {
            put_word(area, 16 * frame + spare + 1, 0);
            codes *= 4;
        }
        put_word(area, 16 * frame, codes);
        frame += 1;
    }
    area[64 * frame..].fill(0);
    Some(used)
}
