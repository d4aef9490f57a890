//! The differences that a 32-bit word holds.

ghost use Rattle.std.specs.Prelude.{◌≡◌, ◌<◌, ◌≤◌, ℕ, ◌+◌, ◌*◌, ◌/◌, ◌%◌, ◌^◌, ◌↔◌, ℤ, List, IfOk, IsErr, IsSome, IfSome, MatchOption, Some, None, length};
ghost use Rattle.msr_steim.specs.Word.{AreFields, FitsBits, HasNoOtherBits, Holds, IsGroup, IsLayoutFor, IsUndefinedWord, as_read, layout_of, group_code, group_top, group_width, group_word, joined_fields, signed_of, twos_complement};
ghost use Rattle.msr_base.specs.declared.storage.Version.{Version};
ghost use Rattle.std.specs.List.{AllByRecursion};

use arrayvec::ArrayVec;
use msr_base::Version;
use thiserror::Error;

/// The differences of one word.
pub type Group = ArrayVec<i32, 7>;

/// How a word is laid out: `count` fields of `width` bits each, in its lowest bits.
#[derive(Clone, Copy)]
pub(crate) struct WordLayout {
    /// The number of fields.
    pub count: u32,
    /// The bits of each.
    pub width: u32,
}

/// How a group is written.
#[derive(Clone, Copy)]
pub(crate) struct GroupLayout {
    /// The code of its word.
    pub code: u8,
    /// The top two bits of its word.
    pub top: u32,
    /// The bits of each of its fields.
    pub width: u32,
    /// How many fields below them are left 0.
    pub padding: u32,
}

/// A word with this code is undefined.
#[derive(Clone, Copy, Debug, PartialEq, Eq, Error)]
#[error("the word is undefined")]
pub struct BadCode;

/// How a word with this code and these top two bits is laid out.
pub(crate) fn layout_for(version: Version, code: u8, top: u32) -> Option<WordLayout>
    ensures { result ≡ layout_of version code top }
{
    let (count, width) = match (version, code, top) {
        (_, 0, _) => (0, 0),
        (_, 1, _) => (4, 8),
        (Version::One, 2, _) => (2, 16),
        (Version::One, 3, _) => (1, 32),
        (Version::Two, 2, 1) => (1, 30),
        (Version::Two, 2, 2) => (2, 15),
        (Version::Two, 2, 3) => (3, 10),
        (Version::Two, 3, 0) => (5, 6),
        (Version::Two, 3, 1) => (6, 5),
        (Version::Two, 3, 2) => (7, 4),
        _ => return None,
    };
    Some(WordLayout { count, width })
}

/// The number in the field of `width` bits with `below` fields below it: the field is shifted up to the
/// highest bit, and down again with its sign.
#[inline(always)]
pub(crate) fn difference_at(word: u32, below: u32, width: u32) -> i32
    requires positive { 0 < width }
    requires within { (below + 1) * width ≤ 32 }
    ensures { result ≡ signed_of width (word / 2 ^ (below * width) % 2 ^ width) }
{
    (word << (32 - (below + 1) * width)).cast_signed() >> (32 - width)
}

/// The numbers in the fields of a word.
fn fields_of(word: u32, layout: WordLayout) -> Group
    requires count { layout.count ≤ 7 }
    requires width { 0 < layout.count → 0 < layout.width }
    requires within { layout.count * layout.width ≤ 32 }
    ensures { AreFields word result.items layout }
{
    let mut group = Group::new();
    for below in (0..layout.count).rev() {
        group.push(difference_at(word, below, layout.width));
    }
    group
}

/// The differences that a word with this code holds. The word is as a big-endian frame has it. Bits
/// beside the top two and the fields are not looked at.
pub fn read_word(version: Version, code: u8, word: u32) -> Result<Group, BadCode>
    requires { code < 4 }
    ensures ok { IfOk result (λ group. Holds version code word group.items) }
    ensures err { IsErr result ↔ IsUndefinedWord version code word }
{
    let layout = layout_for(version, code, word >> 30).ok_or(BadCode)?;
    Ok(fields_of(word, layout))
}

/// How a group of `count` differences is written.
pub(crate) fn layout_of_group(version: Version, count: usize) -> Option<GroupLayout>
    ensures { MatchOption result
        ((group_width version count ≡ None) × (group_code version count ≡ 0))
        (λ layout. IsLayoutFor version count layout × (group_width version count ≡ Some layout.width)
        × (group_code version count ≡ layout.code) × (group_top version count ≡ layout.top)) }
{
    let (code, top, width, padding) = match (version, count) {
        (Version::One, 1) => (3, 0, 32, 0),
        (Version::One, 2) => (2, 0, 16, 0),
        (Version::One, 3) => (1, 0, 8, 1),
        (_, 4) => (1, 0, 8, 0),
        (Version::Two, 1) => (2, 1, 30, 0),
        (Version::Two, 2) => (2, 2, 15, 0),
        (Version::Two, 3) => (2, 3, 10, 0),
        (Version::Two, 5) => (3, 0, 6, 0),
        (Version::Two, 6) => (3, 1, 5, 0),
        (Version::Two, 7) => (3, 2, 4, 0),
        _ => return None,
    };
    Some(GroupLayout {
        code,
        top,
        width,
        padding,
    })
}

/// The field of `width` bits that a number is in two's complement, if it fits.
fn field_of(number: i32, width: u32) -> Option<u32>
    requires positive { 0 < width }
    requires small { width ≤ 32 }
    ensures fits { IsSome result ↔ FitsBits width number }
    ensures same { IfSome result (λ field. field ≡ twos_complement width number) }
{
    let most = u32::MAX >> (32 - width);
    let bits = number.cast_unsigned();
    if bits <= most / 2 {
        Some(bits)
    } else if !bits <= most / 2 {
        Some(most - !bits)
    } else {
        None
    }
}

/// The fields of some numbers side by side, if each number fits its field.
fn fields_from(numbers: &[i32], width: u32) -> Option<u32>
    requires positive { 0 < width }
    requires within { length numbers.now * width ≤ 32 }
    ensures fit { IsSome result ↔ AllByRecursion (FitsBits width) numbers.now }
    ensures same { IfSome result (λ fields. fields ≡ joined_fields width numbers.now) }
{
    let mut fields: u64 = 0;
    for number in numbers {
        fields = (fields << width) | u64::from(field_of(*number, width)?);
    }
    Some(fields as u32)
}

/// The code and the word that hold these differences, if one word can; three of Steim-1 are
/// followed by a 0. The word is as a big-endian frame has it, and all bits that are not used are 0.
pub fn write_word(version: Version, differences: &[i32]) -> Option<(u8, u32)>
    ensures group { IsSome result ↔ IsGroup version differences.now }
    ensures code { IfSome result (λ written. written.0 < 4) }
    ensures word { IfSome result (λ written.
        Holds version written.0 written.1 (as_read version differences.now)) }
    ensures zeros { IfSome result (λ written. HasNoOtherBits version written.0 written.1) }
    ensures same { IfSome result (λ written. (written.0 ≡ group_code version (length differences.now))
        × (written.1 ≡ group_word version differences.now)) }
{
    let layout = layout_of_group(version, differences.len())?;
    let fields = fields_from(differences, layout.width)?;
    Some((
        layout.code,
        (layout.top << 30) + (fields << (layout.padding * layout.width)),
    ))
}

/// No word holds two lists, and an undefined word holds none. So a group that was written is read back,
/// followed by a 0 if it is three of Steim-1.
pub fn holds_one_list()
    ensures one { (version : Version) (code word : ℕ) (xs ys : List ℤ)
        → Holds version code word xs → Holds version code word ys → xs ≡ ys }
    ensures none { (version : Version) (code word : ℕ) (xs : List ℤ)
        → IsUndefinedWord version code word → Holds version code word xs → ⊥ }
{}
