//! The samples that a data area of Steim frames carries.

ghost use Rattle.std.specs.Prelude.{◌≡◌, ◌≢◌, ◌<◌, ◌≤◌, ◌↔◌, ℕ, ℤ, List, ◌+◌, ◌-◌, ◌*◌, IfErr, IfOk, IsTrue, OnOk, Some, length, slice_get};
ghost use Rattle.msr_base.specs.declared.order.Order.{Order};
ghost use Rattle.msr_base.specs.declared.storage.Version.{Version};
ghost use Rattle.msr_steim.specs.Area.{CarriesSteim, EndsBefore, HasFault, IsUndefinedBefore, ReverseAgrees, arranged_word, constant, whole_word};

use crate::borrowed::before_first;
use crate::fours::write_sixteen;
use crate::sums::{Progress, write_last_word, write_next_word};
use byteorder::{BigEndian, ByteOrder, LittleEndian};
use msr_base::{Order, SampleVec, Version};
use std::alloc::{AllocError, Global};
use thiserror::Error;

/// What a data area carries.
#[derive(Debug, Drop, PartialEq, Eq)]
pub struct Decoded {
    /// The samples, in order.
    pub samples: SampleVec,
    /// Whether the last sample is the reverse constant.
    pub reverse_agrees: bool,
}

/// Why the samples of an area were not given.
#[derive(Clone, Copy, Debug, PartialEq, Eq, Error)]
pub enum SteimFault {
    /// The words of its whole frames end before the last sample.
    #[error("the frames end before the last sample")]
    DataShort,
    /// The word with this number is undefined, and stands before the last sample. Words are counted
    /// from 0, sixteen in a frame.
    #[error("word {0} is undefined")]
    BadCode(u32),
    /// There is no memory for the samples.
    #[error("out of memory")]
    Memory,
}

impl From<AllocError> for SteimFault {
    ghost use Rattle.msr_steim.specs.declared.area.SteimFault.TheVariants.{Memory};

    ghost from_gives = { λ _ fault. fault ≡ Memory };

    fn from(_: AllocError) -> SteimFault {
        SteimFault::Memory
    }
}

/// The word with this number, read as one 32-bit number.
pub(crate) fn whole_word_at(order: Order, area: &[u8], number: usize) -> u32
    requires { 4 * number + 4 ≤ length area.now }
    ensures { result ≡ whole_word order area.now number }
{
    match order {
        Order::Big => BigEndian::read_u32(&area[4 * number..]),
        Order::Little => LittleEndian::read_u32(&area[4 * number..]),
    }
}

/// The first word of a frame that has differences: its first word has the codes, and two more of the
/// first frame are the constants.
pub(crate) fn first_slot(frame: usize) -> usize
    ensures first { frame ≡ 0 → result ≡ 3 }
    ensures others { 0 < frame → result ≡ 1 }
{
    if frame == 0 { 3 } else { 1 }
}

/// A word with this code as a big-endian frame has it.
pub(crate) fn arranged_word_at(
    version: Version,
    order: Order,
    code: u8,
    area: &[u8],
    number: usize,
) -> u32
    requires { 4 * number + 4 ≤ length area.now }
    ensures { result ≡ arranged_word version order code area.now number }
{
    match (version, order, code) {
        (_, Order::Big, _) | (_, _, 1) => whole_word_at(Order::Big, area, number),
        (Version::One, Order::Little, 2) => {
            let first = LittleEndian::read_u16(&area[4 * number..]);
            let second = LittleEndian::read_u16(&area[4 * number + 2..]);
            (u32::from(first) << 16) + u32::from(second)
        }
        _ => whole_word_at(Order::Little, area, number),
    }
}

/// A constant of the first frame.
pub(crate) fn constant_at(order: Order, area: &[u8], number: usize) -> i32
    requires { 4 * number + 4 ≤ length area.now }
    ensures { result ≡ constant order area.now number }
{
    whole_word_at(order, area, number).cast_signed()
}

/// Whether the last of these samples is this one.
pub(crate) fn is_last(samples: &[i32], sample: i32) -> bool
    ensures { IsTrue result ↔ (slice_get samples.now (length samples.now - 1) ≡ Some sample) }
{
    samples.last().copied() == Some(sample)
}

/// How many of a frame's codes are 1, 2 and 3.
fn count_codes(codes: u32) -> (u32, u32, u32)
    ensures { (result.0 ≤ 32) × (result.1 ≤ 32) × (result.2 ≤ 32) }
{
    let low = codes & 0x5555_5555;
    let high = codes >> 1 & 0x5555_5555;
    (
        (low & !high).count_ones(),
        (high & !low).count_ones(),
        (low & high).count_ones(),
    )
}

/// How the words of an area are read. No sample depends on it.
#[derive(Clone, Copy)]
pub(crate) enum Reading {
    /// With a jump by the size of each group.
    ByJumps,
    /// Without one: the sizes mix, so that it could not be predicted.
    ByLanes,
    /// Without one, and four words of code 1 at once.
    ByFours,
}

/// How an area is to be read: a guess, by the codes of its first frame and of one in the middle. Little-endian areas are
/// read by jumps. From one word in seven of another code on, the jump is dearer; four of the 28 are enough. Four words of
/// code 1 follow one another often enough if half of all have it.
pub(crate) fn reading_for(version: Version, order: Order, area: &[u8]) -> Reading
    ensures { result ≢ Reading.ByJumps → order ≡ Order.Big }
{
    if order == Order::Little || area.len() < 64 {
        return Reading::ByJumps;
    }
    let (ones, twos, threes) = count_codes(whole_word_at(order, area, 0));
    let (more_ones, more_twos, more_threes) = count_codes(whole_word_at(
        order,
        area,
        area.len() / 128 * 16,
    ));
    let many_ones = ones + more_ones >= 4;
    let many_twos = twos + more_twos >= 4;
    let many_threes = threes + more_threes >= 4;
    let mixed = match version {
        Version::One => many_twos && many_threes,
        // Code 3 has groups of five, six and seven, which all go by lanes; of code 2 only three do.
        Version::Two => many_threes || many_ones && many_twos,
    };
    if ones + more_ones >= 14 {
        Reading::ByFours
    } else if mixed {
        Reading::ByLanes
    } else {
        Reading::ByJumps
    }
}

/// Calls a function of `MIXED` and `FOURS` as the area is to be read, with literals for version and order.
macro_rules! by_reading {
    ($words:ident, $version:expr, $order:expr, $area:expr, $out:expr) => {
        match (reading_for($version, $order, $area), $version, $order) {
            (Reading::ByFours, Version::One, _) => $words::<true, true>(Version::One, Order::Big, $area, $out),
            (Reading::ByFours, Version::Two, _) => $words::<true, true>(Version::Two, Order::Big, $area, $out),
            (Reading::ByLanes, Version::One, _) => $words::<true, false>(Version::One, Order::Big, $area, $out),
            (Reading::ByLanes, Version::Two, _) => $words::<true, false>(Version::Two, Order::Big, $area, $out),
            (Reading::ByJumps, Version::One, Order::Big) => $words::<false, false>(Version::One, Order::Big, $area, $out),
            (Reading::ByJumps, Version::One, Order::Little) => $words::<false, false>(Version::One, Order::Little, $area, $out),
            (Reading::ByJumps, Version::Two, Order::Big) => $words::<false, false>(Version::Two, Order::Big, $area, $out),
            (Reading::ByJumps, Version::Two, Order::Little) => $words::<false, false>(Version::Two, Order::Little, $area, $out),
        }
    };
}

pub(crate) use by_reading;

/// Reads word after word until `out` is full. `MIXED` is as of `write_next_word`, and `FOURS` takes four words of code 1 at
/// once. Inlined with literals for version and order, each word is read without a test of them.
#[inline(always)]
fn decode_words<const MIXED: bool, const FOURS: bool>(
    version: Version,
    order: Order,
    area: &[u8],
    out: &mut [i32],
) -> Result<bool, SteimFault>
    requires { (1 ≤ length out.old) × (length area.now ≤ 1048576) × (IsTrue FOURS → order ≡ Order.Big) }
    ensures samples { OnOk result (CarriesSteim version order area.now out.new) }
    ensures reverse { IfOk result (λ agrees. IsTrue agrees ↔ ReverseAgrees order area.now out.new) }
    ensures fault { IfErr result (HasFault version order area.now (length out.old)) }
{
    let frames = area.len() / 64;
    if frames == 0 {
        return Err(SteimFault::DataShort);
    }
    let last = before_first(version, order, area);
    let mut at = Progress { place: 0, last };
    for frame in 0..frames {
        let mut slot = first_slot(frame);
        // The code of the next word stands in the highest bits, and zeros come after that of the last.
        let mut codes = whole_word_at(order, area, 16 * frame) << (2 * slot);
        while slot < 16 {
            let number = 16 * frame + slot;
            if FOURS && codes >> 24 == 0x55 && at.place + 16 < out.len() {
                at = write_sixteen(area, 4 * number, at, out);
                codes <<= 8;
                slot += 4;
                continue;
            }
            let code = (codes >> 30) as u8;
            let word = arranged_word_at(version, order, code, area, number);
            let Some(next) = write_next_word::<MIXED>(version, code, word, at, out) else {
                return match write_last_word(version, code, word, at, out) {
                    Some(_) => Ok(is_last(out, constant_at(order, area, 2))),
                    None => Err(SteimFault::BadCode(number as u32)),
                };
            };
            codes <<= 2;
            slot += 1;
            at = next;
        }
    }
    Err(SteimFault::DataShort)
}

/// Fills `out` with the first samples that the area carries, and says whether the last of them is the
/// reverse constant. The frames are the whole pieces of 64 bytes; a rest is not looked at. Sums are modulo
/// 2^32, and the first difference is not used. Takes no memory, and there is one outcome: `one_outcome`.
/// After an `Err` some places of `out` may be written.
pub fn decode_steim_into(
    version: Version,
    order: Order,
    area: &[u8],
    out: &mut [i32],
) -> Result<bool, SteimFault>
    requires some { 1 ≤ length out.old }
    requires small { length area.now ≤ 1048576 }
    ensures samples { OnOk result (CarriesSteim version order area.now out.new) }
    ensures reverse { IfOk result (λ agrees. IsTrue agrees ↔ ReverseAgrees order area.now out.new) }
    ensures fault { IfErr result (HasFault version order area.now (length out.old)) }
{
    by_reading!(decode_words, version, order, area, out)
}

/// The first `count` samples that the area carries, by `decode_steim_into` in memory of their own. If memory is not
/// refused, there is one outcome: `one_outcome`.
pub fn decode_steim(
    alloc: Global,
    version: Version,
    order: Order,
    area: &[u8],
    count: u16,
) -> Result<Decoded, SteimFault>
    requires some { 1 ≤ count }
    requires small { length area.now ≤ 1048576 }
    ensures samples { IfOk result (λ d. CarriesSteim version order area.now d.samples) }
    ensures count { IfOk result (λ d. length d.samples ≡ count) }
    ensures reverse { IfOk result (λ d. IsTrue d.reverse_agrees ↔ ReverseAgrees order area.now d.samples) }
    ensures fault { IfErr result (λ f. f ≢ SteimFault.Memory → HasFault version order area.now count f) }
{
    let mut values = SampleVec::new(alloc).into_places(usize::from(count))?;
    let reverse_agrees = decode_steim_into(version, order, area, values.as_mut_slice())?;
    Ok(Decoded {
        samples: SampleVec::from_vec(values),
        reverse_agrees,
    })
}

/// For each number of samples, an area carries one list of this length, or its words end first, or
/// one undefined word comes first.
pub fn one_outcome()
    ensures samples { (version : Version) (order : Order) (area : List ℕ) (xs ys : List ℤ)
        → CarriesSteim version order area xs → CarriesSteim version order area ys → length xs ≡ length ys
        → xs ≡ ys }
    ensures not_short { (version : Version) (order : Order) (area : List ℕ) (samples : List ℤ)
        → CarriesSteim version order area samples → EndsBefore version order area (length samples)
        → ⊥ }
    ensures not_undefined { (version : Version) (order : Order) (area : List ℕ) (samples : List ℤ) (number : ℕ)
        → CarriesSteim version order area samples → IsUndefinedBefore version order area (length samples) number
        → ⊥ }
    ensures short_or_undefined { (version : Version) (order : Order) (area : List ℕ) (count number : ℕ)
        → EndsBefore version order area count → IsUndefinedBefore version order area count number
        → ⊥ }
    ensures one_undefined { (version : Version) (order : Order) (area : List ℕ) (count m n : ℕ)
        → IsUndefinedBefore version order area count m → IsUndefinedBefore version order area count n
        → m ≡ n }
{}
