//! Tells whether an area carries a given number of samples, without memory for them.

ghost use Rattle.std.specs.Prelude.{◌≡◌, ◌≤◌, IfErr, IfOk, IsTrue, length};
ghost use Rattle.msr_base.specs.declared.order.Order.{Order};
ghost use Rattle.msr_steim.specs.Area.{HasFault};
ghost use Rattle.msr_steim.specs.InOrder.{CarriesCount};

use crate::area::{
    Reading, SteimFault, arranged_word_at, by_reading, constant_at, first_slot, is_last,
    reading_for, whole_word_at,
};
use crate::borrowed::before_first;
use crate::fours::write_sixteen;
use crate::sums::{Progress, write_next_word};
use msr_base::{Order, Version};

/// Reads word after word until it has seen `count` samples; it keeps the samples of one word at a time. `MIXED` and
/// `FOURS` are as of `decode_words`. Inlined with literals for version and order, each word is read without a test of them.
#[inline(always)]
fn check_words<const MIXED: bool, const FOURS: bool>(
    version: Version,
    order: Order,
    area: &[u8],
    count: u16,
) -> Result<bool, SteimFault>
    requires { (1 ≤ count) × (length area.now ≤ 1048576) × (IsTrue FOURS → order ≡ Order.Big) }
    ensures samples { IfOk result (CarriesCount version order area.now count) }
    ensures fault { IfErr result (HasFault version order area.now count) }
{
    let frames = area.len() / 64;
    if frames == 0 {
        return Err(SteimFault::DataShort);
    }
    let mut last = before_first(version, order, area);
    let mut left = usize::from(count);
    // Four words of code 1 have sixteen samples, other words at most seven, so that a place is left after them.
    let mut samples = [0; 17];
    for frame in 0..frames {
        let mut slot = first_slot(frame);
        // The code of the next word stands in the highest bits, and zeros come after that of the last.
        let mut codes = whole_word_at(order, area, 16 * frame) << (2 * slot);
        while slot < 16 {
            let number = 16 * frame + slot;
            let at = Progress { place: 0, last };
            if FOURS && codes >> 24 == 0x55 && left > 16 {
                last = write_sixteen(area, 4 * number, at, &mut samples).last;
                codes <<= 8;
                slot += 4;
                left -= 16;
                continue;
            }
            let code = (codes >> 30) as u8;
            let word = arranged_word_at(version, order, code, area, number);
            let Some(next) = write_next_word::<MIXED>(version, code, word, at, &mut samples) else {
                return Err(SteimFault::BadCode(number as u32));
            };
            if next.place >= left {
                return Ok(is_last(&samples[..left], constant_at(order, area, 2)));
            }
            codes <<= 2;
            slot += 1;
            left -= next.place;
            last = next.last;
        }
    }
    Err(SteimFault::DataShort)
}

/// Tells whether the last of the first `count` samples that the area carries is the reverse
/// constant, or why it does not carry `count` samples.
pub(crate) fn check_area(
    version: Version,
    order: Order,
    area: &[u8],
    count: u16,
) -> Result<bool, SteimFault>
    requires some { 1 ≤ count }
    requires small { length area.now ≤ 1048576 }
    ensures samples { IfOk result (CarriesCount version order area.now count) }
    ensures fault { IfErr result (HasFault version order area.now count) }
{
    by_reading!(check_words, version, order, area, count)
}
