//! The Steim-2 words of a run that are told, put in place.

ghost use Rattle.std.specs.Prelude.{◌≡◌, ◌<◌, ◌≤◌, ◌-◌, ◌*◌, ◌/◌, ◌%◌, length};
ghost use Rattle.msr_base.specs.declared.storage.Version.TheVariants.{Two};
ghost use Rattle.msr_steim.specs.Word.{group_code};
ghost use Rattle.msr_words.specs.Division.{CanDivide};
ghost use Rattle.msr_words.specs.Groups.{AreGroupSizes};
ghost use Rattle.msr_words.specs.Segment.{differences};
ghost use Rattle.msr_filling.specs.Filled.{IsFilledArea};
ghost use Rattle.msr_filling.specs.GroupWords.{AreGroupWords};

use crate::frames::{put_constants, put_word};

/// The code of the word of a group, by its number of differences. A table, since a jump by sizes that mix cannot be
/// predicted.
const CODES: [u32; 8] = [0, 2, 2, 2, 1, 3, 3, 3];

/// The code of the word of a group of so many differences.
#[inline(always)]
fn code_of(size: u8) -> u32
    requires full { 1 ≤ size }
    requires most { size ≤ 7 }
    ensures code { result ≡ group_code Two size }
    ensures small { result < 4 }
{
    CODES[usize::from(size)]
}

/// Fills the area as `fill_steim2` does, by the sizes of the groups and their words.
#[inline(never)]
pub fn fill_steim2_told(
    before: Option<i32>,
    run: &[i32],
    sizes: &[u8],
    words: &[u32],
    area: &mut [u8],
) -> usize
    requires some { 1 ≤ length run.now }
    requires frames { length area.old % 64 ≡ 0 }
    requires sizes { AreGroupSizes (differences before run.now) sizes.now }
    requires words { AreGroupWords (differences before run.now) sizes.now words.now }
    ensures filled { CanDivide Two (15 * (length area.old / 64) - 2) (differences before run.now)
        → IsFilledArea Two before run.now (length area.old / 64) area.new result }
{
    let first = run[0].cast_unsigned();
    let last = run[run.len() - 1].cast_unsigned();
    let mut number = 0;
    for frame in 0..area.len() / 64 {
        let mut codes: u32 = 0;
        put_word(area, 16 * frame, 0);
        let from = put_constants(area, frame, first, last);
        let to = from + (15 - from).min(sizes.len() - number);
        for slot in from..to {
            put_word(area, 16 * frame + slot + 1, words[number]);
            codes = codes * 4 + code_of(sizes[number]);
            number += 1;
        }
        for spare in to..15 {
            put_word(area, 16 * frame + spare + 1, 0);
            codes *= 4;
        }
        put_word(area, 16 * frame, codes);
    }
    number
}
