//! The samples of a data area of Steim frames, one after the other, without memory.

ghost use Rattle.std.specs.Prelude.{◌≡◌, ◌<◌, ◌≤◌, ◌↔◌, ◌++◌, ◌-◌, ◌*◌, ◌/◌, ◌%◌, ◌^◌, ℤ, IfErr, IfOk, IfSome, IsNone, IsTrue, [], length};
ghost use Rattle.std.specs.Iterator.{item_count};
ghost use Rattle.msr_steim.specs.Area.{CarriesSteim, HasFault, IsUndefined, ReverseAgrees, word_code, word_count};
ghost use Rattle.msr_steim.specs.InOrder.{BeginsAfter, GivesFirst, HasFields, differences_from};
ghost use Rattle.msr_steim.specs.Word.{numbers_in};

use crate::area::{SteimFault, arranged_word_at, constant_at, whole_word_at};
use crate::carried::check_area;
use crate::word::{difference_at, layout_for};
use msr_base::{Order, Version};
use std::alloc::AllocError;
use std::marker::Model;

/// The fields of `word` that are left: `count` fields of `width` bits each, in its lowest bits.
#[derive(Clone, Copy)]
struct Fields {
    word: u32,
    count: u32,
    width: u32,
}

/// The samples of an area, read from its words one by one. Contracts see those that are left, and whether
/// the last of all is the reverse constant. A clone takes no memory.
#[derive(Drop)]
pub struct SteimSamples<'a> {
    version: Version,
    order: Order,
    area: &'a [u8],
    /// The next word.
    number: usize,
    /// What is left of the word before.
    fields: Fields,
    /// The sample before, to which the next difference is added.
    last: i32,
    left: u16,
    /// Whether the last of all samples is the reverse constant.
    agrees: bool,
}

impl<'a> Model for SteimSamples<'a> {
    ghost use Rattle.std.specs.Prelude.{◌≤◌, ◌<◌, ◌*◌, length};
    ghost use Rattle.msr_steim.specs.InOrder.{SamplesLeft};

    ghost Value = { SamplesLeft };

    ghost use Rattle.msr_steim.specs.SumsLeft.{samples_left};

    ghost view = { samples_left };

    ghost invariant = { λ s. (length s.area.now ≤ 1048576)
        × (0 < s.fields.count → 0 < s.fields.width)
        × (s.fields.count * s.fields.width ≤ 32) };
}

/// The code of the word with this number. A word that has no differences has code 0.
#[inline(always)]
fn code_at(order: Order, area: &[u8], number: usize) -> u8
    requires { number < word_count area.now }
    ensures value { result ≡ word_code order area.now number }
    ensures small { result < 4 }
{
    if number < 3 || number % 16 == 0 {
        return 0;
    }
    let codes = whole_word_at(order, area, number / 16 * 16);
    ((codes << (2 * (number % 16))) >> 30) as u8
}

/// The fields of the word with this number, or `None` if it is undefined.
#[inline(always)]
fn fields_at(version: Version, order: Order, area: &[u8], number: usize) -> Option<Fields>
    requires { number < word_count area.now }
    ensures some { IfSome result (HasFields version order area.now number) }
    ensures none { IsNone result → IsUndefined version order area.now number }
    ensures positive { IfSome result (λ fields. 0 < fields.count → 0 < fields.width) }
    ensures within { IfSome result (λ fields. fields.count * fields.width ≤ 32) }
{
    let code = code_at(order, area, number);
    let word = arranged_word_at(version, order, code, area, number);
    let layout = layout_for(version, code, word >> 30)?;
    Some(Fields {
        word,
        count: layout.count,
        width: layout.width,
    })
}

/// The first fields from a word on, and the number of the word after theirs. Undefined words are passed over.
fn next_fields(version: Version, order: Order, area: &[u8], from: usize) -> Option<(Fields, usize)>
    requires { length area.now ≤ 1048576 }
    ensures some { IfSome result (λ next. differences_from version order area.now from
        ≡ numbers_in next.0.word next.0.width next.0.count ++ differences_from version order area.now next.1) }
    ensures none { IsNone result → differences_from version order area.now from ≡ [] }
    ensures fields { IfSome result (λ next. 0 < next.0.count) }
    ensures positive { IfSome result (λ next. 0 < next.0.width) }
    ensures within { IfSome result (λ next. next.0.count * next.0.width ≤ 32) }
{
    for number in from..area.len() / 64 * 16 {
        let Some(fields) = fields_at(version, order, area, number) else {
            continue;
        };
        if fields.count > 0 {
            return Some((fields, number + 1));
        }
    }
    None
}

/// What the first difference of an area is added to, so that the first sample is the forward constant.
pub(crate) fn before_first(version: Version, order: Order, area: &[u8]) -> i32
    requires some { 64 ≤ length area.now }
    requires small { length area.now ≤ 1048576 }
    ensures { BeginsAfter version order area.now result }
{
    let first = constant_at(order, area, 1);
    match next_fields(version, order, area, 0) {
        Some((fields, _)) => {
            first.wrapping_sub(difference_at(fields.word, fields.count - 1, fields.width))
        }
        None => first,
    }
}

impl<'a> Clone for SteimSamples<'a> {
    ghost use Rattle.std.specs.Prelude.{◌≡◌, ⊤};

    ghost is_clone = { λ samples copy. copy ≡ samples };

    ghost is_infallible = { λ _. ⊤ };

    fn clone(&self) -> Result<SteimSamples<'a>, AllocError> {
        Ok(SteimSamples { ..*self })
    }
}

impl<'a> Iterator for SteimSamples<'a> {
    type Item = i32;

    ghost next_gives = { GivesFirst };

    ghost remaining = { item_count {A = ℤ} (λ left. left.samples) };

    fn next(&mut self) -> Option<i32> {
        if self.left == 0 {
            return None;
        }
        if self.fields.count == 0 {
            let (fields, number) = next_fields(self.version, self.order, self.area, self.number)?;
            self.fields = fields;
            self.number = number;
        }
        self.fields.count -= 1;
        let difference = difference_at(self.fields.word, self.fields.count, self.fields.width);
        self.last = self.last.wrapping_add(difference);
        self.left -= 1;
        Some(self.last)
    }
}

impl<'a> SteimSamples<'a> {
    /// Whether the last sample of the area is the reverse constant.
    pub fn reverse_agrees(&self) -> bool
        ensures { result ≡ self.now.agrees }
    {
        self.agrees
    }
}

/// The first `count` samples that the area carries, as `decode_steim` gives them. Takes no memory, and
/// there is one outcome: `one_outcome`.
pub fn steim_samples<'a>(
    version: Version,
    order: Order,
    area: &'a [u8],
    count: u16,
) -> Result<SteimSamples<'a>, SteimFault>
    requires some { 1 ≤ count }
    requires small { length area.now ≤ 1048576 }
    ensures samples { IfOk result (λ s. CarriesSteim version order area.now s.samples) }
    ensures count { IfOk result (λ s. length s.samples ≡ count) }
    ensures reverse { IfOk result (λ s. IsTrue s.agrees ↔ ReverseAgrees order area.now s.samples) }
    ensures fault { IfErr result (HasFault version order area.now count) }
{
    let agrees = check_area(version, order, area, count)?;
    Ok(SteimSamples {
        version,
        order,
        area,
        number: 0,
        fields: Fields {
            word: 0,
            count: 0,
            width: 0,
        },
        last: before_first(version, order, area),
        left: count,
        agrees,
    })
}
