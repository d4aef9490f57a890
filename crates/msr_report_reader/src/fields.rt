//! The fields at the start of a text: each reader answers the field and the text after it.
ghost use Rattle.std.specs.Prelude.{◌≡◌, ◌<◌, ◌≤◌, ◌^◌, ◌++◌, ℕ, ℤ, List, IfSome, IsSomeAnd, true, false, length};
ghost use Rattle.std.specs.Fmt.{decimal, signed_decimal, digit_glyph};
ghost use Rattle.std.specs.Int.{w16, w32};
ghost use Rattle.std.specs.Int.RustNames.{FitsSigned};
ghost use Rattle.std.specs.Char.{is_ascii_digit};
ghost use Rattle.std.specs.List.{prefix_len};
ghost use Rattle.msr_report.specs.Text.{hex_text, byte_text, field_text};
ghost use Rattle.msr_report_reader.specs.Fields.{AreBytes, EndsNumber, signed_len};

use itoa::Buffer;
use msr_base::number_of;
use std::str;

/// The text after the given word.
pub(crate) fn after<'a>(text: &'a [u8], word: &[u8]) -> Option<&'a [u8]>
    ensures found { IfSome result (λ rest. text.now ≡ word.now ++ rest.now) }
    ensures only { (rest : List ℕ) → text.now ≡ word.now ++ rest → IsSomeAnd result (λ x. x.now ≡ rest) }
{
    text.strip_prefix(word)
}

/// Whether a text that begins with this one may begin with the word.
pub(crate) fn may_begin(text: &[u8], word: &[u8]) -> bool
    ensures { (more rest : List ℕ) → text.now ++ more ≡ word.now ++ rest → result ≡ true }
{
    text.starts_with(word) | word.starts_with(text)
}

/// Whether a text that begins with this one may begin with a number.
pub(crate) fn may_be_number(text: &[u8]) -> bool
    ensures { (n : ℕ) (more rest : List ℕ) → n < 2 ^ 64 → text.now ++ more ≡ decimal n ++ rest → result ≡ true }
{
    let Some((byte, _)) = text.split_first() else {
        return true;
    };
    byte.is_ascii_digit()
}

/// How many digits the text begins with.
fn count_digits(text: &[u8]) -> usize
    ensures within { result ≤ length text.now }
    ensures count { result ≡ prefix_len is_ascii_digit text.now }
{
    let mut count = 0;
    while count < text.len() && text[count].is_ascii_digit() {
        count += 1;
    }
    count
}

/// A number in decimal.
pub(crate) fn number(text: &[u8]) -> Option<(u64, &[u8])>
    ensures found { IfSome result (λ x. text.now ≡ decimal x.0 ++ x.1.now) }
    ensures only { (n : ℕ) (rest : List ℕ) → n < 2 ^ 64 → EndsNumber rest → text.now ≡ decimal n ++ rest
        → IsSomeAnd result (λ x. (x.0 ≡ n) × (x.1.now ≡ rest)) }
{
    let (digits, rest) = text.split_at(count_digits(text));
    let n = number_of(digits)?;
    Some((n, rest))
}

/// The number that stands after the word.
pub(crate) fn counted<'a>(text: &'a [u8], word: &[u8]) -> Option<(u64, &'a [u8])>
    ensures found { IfSome result (λ x. text.now ≡ word.now ++ (decimal x.0 ++ x.1.now)) }
    ensures only { (n : ℕ) (rest : List ℕ) → n < 2 ^ 64 → EndsNumber rest → text.now ≡ word.now ++ (decimal n ++ rest)
        → IsSomeAnd result (λ x. (x.0 ≡ n) × (x.1.now ≡ rest)) }
{
    let text = after(text, word)?;
    number(text)
}

/// A lower-case hexadecimal digit.
fn hex_digit(byte: u8) -> Option<u8>
    ensures found { IfSome result (λ n. (n < 16) × (byte ≡ digit_glyph false n)) }
    ensures only { (n : ℕ) → n < 16 → byte ≡ digit_glyph false n → IsSomeAnd result (λ x. x ≡ n) }
{
    let digit = byte.wrapping_sub(b'0');
    if digit < 10 {
        return Some(digit);
    }
    let letter = byte.wrapping_sub(b'a');
    if letter < 6 {
        return Some(letter + 10);
    }
    None
}

/// Two lower-case hexadecimal digits.
pub(crate) fn hex_byte(text: &[u8]) -> Option<(u8, &[u8])>
    ensures found { IfSome result (λ x. text.now ≡ hex_text x.0 ++ x.1.now) }
    ensures only { (n : ℕ) (rest : List ℕ) → n < 256 → text.now ≡ hex_text n ++ rest
        → IsSomeAnd result (λ x. (x.0 ≡ n) × (x.1.now ≡ rest)) }
{
    let (first, text) = text.split_first()?;
    let (second, rest) = text.split_first()?;
    let high = hex_digit(*first)?;
    let low = hex_digit(*second)?;
    Some((high * 16 + low, rest))
}

/// A byte of a name.
fn name_byte(text: &[u8]) -> Option<(u8, &[u8])>
    ensures found { IfSome result (λ x. text.now ≡ byte_text x.0 ++ x.1.now) }
    ensures only { (b : ℕ) (rest : List ℕ) → b < 256 → text.now ≡ byte_text b ++ rest
        → IsSomeAnd result (λ x. (x.0 ≡ b) × (x.1.now ≡ rest)) }
{
    let (first, rest) = text.split_first()?;
    match *first {
        b'_' => Some((b' ', rest)),
        b'%' => {
            let (byte, rest) = hex_byte(rest)?;
            if byte.is_ascii_alphanumeric() || byte == b' ' {
                return None;
            }
            Some((byte, rest))
        }
        byte if byte.is_ascii_alphanumeric() => Some((byte, rest)),
        _ => None,
    }
}

/// So many bytes of a name.
pub(crate) fn name_bytes<const N: usize>(text: &[u8]) -> Option<([u8; N], &[u8])>
    ensures found { IfSome result (λ x. text.now ≡ field_text x.0 ++ x.1.now) }
    ensures only { (bytes rest : List ℕ) → AreBytes N bytes → text.now ≡ field_text bytes ++ rest
        → IsSomeAnd result (λ x. (x.0 ≡ bytes) × (x.1.now ≡ rest)) }
{
    let mut bytes = [0; N];
    let mut rest = text;
    'bytes: for at in 0..N {
        let (byte, more) = name_byte(rest)?;
        bytes[at] = byte;
        rest = more;
    }
    Some((bytes, rest))
}

/// The number, with a `-` before a negative one, that the word is the decimal of.
fn signed_of(word: &[u8]) -> Option<i32>
    ensures found { IfSome result (λ z. word.now ≡ signed_decimal z) }
    ensures only { (z : ℤ) → FitsSigned w32 z → word.now ≡ signed_decimal z → IsSomeAnd result (λ x. x ≡ z) }
{
    let Ok(word) = str::from_utf8(word) else {
        return None;
    };
    let Ok(z) = word.parse::<i32>() else {
        return None;
    };
    let mut buffer = Buffer::new();
    if buffer.format(z) == word {
        Some(z)
    } else {
        None
    }
}

/// How many bytes a `-` and digits are that the text begins with.
fn count_signed(text: &[u8]) -> usize
    ensures within { result ≤ length text.now }
    ensures count { result ≡ signed_len text.now }
{
    let Some((first, digits)) = text.split_first() else {
        return 0;
    };
    if *first == b'-' {
        1 + count_digits(digits)
    } else {
        count_digits(text)
    }
}

/// The number in decimal, with a `-` before a negative one, that stands after the word.
pub(crate) fn signed<'a>(text: &'a [u8], word: &[u8]) -> Option<(i32, &'a [u8])>
    ensures found { IfSome result (λ x. text.now ≡ word.now ++ (signed_decimal x.0 ++ x.1.now)) }
    ensures only { (z : ℤ) (rest : List ℕ) → FitsSigned w32 z → EndsNumber rest
        → text.now ≡ word.now ++ (signed_decimal z ++ rest)
        → IsSomeAnd result (λ x. (x.0 ≡ z) × (x.1.now ≡ rest)) }
{
    let text = after(text, word)?;
    let (word, rest) = text.split_at(count_signed(text));
    let z = signed_of(word)?;
    Some((z, rest))
}

/// The number of 16 bits, with a `-` before a negative one, that stands after the word.
pub(crate) fn signed_16<'a>(text: &'a [u8], word: &[u8]) -> Option<(i16, &'a [u8])>
    ensures found { IfSome result (λ x. text.now ≡ word.now ++ (signed_decimal x.0 ++ x.1.now)) }
    ensures only { (z : ℤ) (rest : List ℕ) → FitsSigned w16 z → EndsNumber rest
        → text.now ≡ word.now ++ (signed_decimal z ++ rest)
        → IsSomeAnd result (λ x. (x.0 ≡ z) × (x.1.now ≡ rest)) }
{
    let (z, rest) = signed(text, word)?;
    if z < -32_768 || z > 32_767 {
        return None;
    }
    Some((z as i16, rest))
}
