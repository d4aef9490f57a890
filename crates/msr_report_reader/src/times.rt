//! Times at the start of a text.
ghost use Rattle.std.specs.Prelude.{◌≡◌, ◌<◌, ◌≤◌, ◌^◌, ◌++◌, ◌+◌, ◌*◌, ℕ, ℤ, List, IfSome, IsSomeAnd, SomeIff, true, length};
ghost use Rattle.std.specs.Str.{all_ascii_digits};
ghost use Rattle.msr_report.specs.Text.{padded_decimal, IsTimeText};
ghost use Rattle.msr_report_reader.specs.Fields.{with_digits, date_then, clock_then, split_then};
ghost use Rattle.msr_time.specs.Instant.{IsTime, IsInstant};
ghost use Rattle.msr_time.specs.declared.btime.BTime.{BTime as Time};

use crate::fields::after;
use msr_time::BTime;

/// Gives the number that at most 6 digits make, if all bytes are digits.
fn value_of(digits: &[u8]) -> Option<u32>
    requires { length digits.now ≤ 6 }
    ensures { SomeIff result (all_ascii_digits digits.now ≡ true) (with_digits 0 digits.now) }
{
    let mut value = 0;
    for digit in digits {
        if !digit.is_ascii_digit() {
            return None;
        }
        value = value * 10 + (*digit - b'0') as u32;
    }
    Some(value)
}

/// The number in `width` digits that stands after the word.
fn padded<'a>(text: &'a [u8], word: &[u8], width: usize) -> Option<(u32, &'a [u8])>
    requires some { 1 ≤ width }
    requires few { width ≤ 6 }
    ensures found { IfSome result (λ x. text.now ≡ word.now ++ (padded_decimal width x.0 ++ x.1.now)) }
    ensures small { IfSome result (λ x. x.0 < 10 ^ width) }
    ensures only { (n : ℕ) (rest : List ℕ) → n < 10 ^ width → text.now ≡ word.now ++ (padded_decimal width n ++ rest)
        → IsSomeAnd result (λ x. (x.0 ≡ n) × (x.1.now ≡ rest)) }
{
    let text = after(text, word)?;
    if text.len() < width {
        return None;
    }
    let (digits, rest) = text.split_at(width);
    let value = value_of(digits)?;
    Some((value, rest))
}

/// The year and the day of the year.
fn date(text: &[u8]) -> Option<(u16, u16, &[u8])>
    ensures found { IfSome result (λ x. text.now ≡ date_then x.0 x.1 x.2.now) }
    ensures only { (year day : ℕ) (rest : List ℕ) → year < 10 ^ 4 → day < 10 ^ 3 → text.now ≡ date_then year day rest
        → IsSomeAnd result (λ x. (x.0 ≡ year) × (x.1 ≡ day) × (x.2.now ≡ rest)) }
{
    let (year, text) = padded(text, b"", 4)?;
    let (day, text) = padded(text, b",", 3)?;
    Some((year as u16, day as u16, text))
}

/// The hour, the minute and the second.
fn clock(text: &[u8]) -> Option<(u8, u8, u8, &[u8])>
    ensures found { IfSome result (λ x. text.now ≡ clock_then x.0 x.1 x.2 x.3.now) }
    ensures only { (hour minute second : ℕ) (rest : List ℕ) → hour < 10 ^ 2 → minute < 10 ^ 2 → second < 10 ^ 2
        → text.now ≡ clock_then hour minute second rest
        → IsSomeAnd result (λ x. (x.0 ≡ hour) × (x.1 ≡ minute) × (x.2 ≡ second) × (x.3.now ≡ rest)) }
{
    let Some((hour, text)) = padded(text, b"", 2) else {
        return None;
    };
    let Some((minute, text)) = padded(text, b":", 2) else {
        return None;
    };
    let Some((second, text)) = padded(text, b":", 2) else {
        return None;
    };
    Some((hour as u8, minute as u8, second as u8, text))
}

/// The fields of a time, and the microseconds below its fraction.
fn fields(text: &[u8]) -> Option<(BTime, u8, &[u8])>
    ensures found { IfSome result (λ x. text.now ≡ split_then x.0 x.1 x.2.now) }
    ensures below { IfSome result (λ x. x.1 < 100) }
    ensures only { (time : Time) (micros : ℕ) (rest : List ℕ) → IsTime time → micros < 100
        → text.now ≡ split_then time micros rest
        → IsSomeAnd result (λ x. (x.0 ≡ time) × (x.1 ≡ micros) × (x.2.now ≡ rest)) }
{
    let Some((year, day, text)) = date(text) else {
        return None;
    };
    let Some(text) = after(text, b",") else {
        return None;
    };
    let Some((hour, minute, second, text)) = clock(text) else {
        return None;
    };
    let Some((fraction, text)) = padded(text, b".", 6) else {
        return None;
    };
    let time = BTime {
        year,
        day,
        hour,
        minute,
        second,
        fract: (fraction / 100) as u16,
    };
    Some((time, (fraction % 100) as u8, text))
}

/// An instant of the years 1900 to 2100.
pub(crate) fn instant(text: &[u8]) -> Option<(i64, &[u8])>
    ensures range { IfSome result (λ x. IsInstant x.0) }
    ensures found { IfSome result (λ x. (word : List ℕ) × (IsTimeText x.0 word × (text.now ≡ word ++ x.1.now))) }
    ensures only { (t : ℤ) (word rest : List ℕ) → IsTimeText t word → text.now ≡ word ++ rest
        → IsSomeAnd result (λ x. (x.0 ≡ t) × (x.1.now ≡ rest)) }
{
    let (time, micros, rest) = fields(text)?;
    if time.second > 59 {
        return None;
    }
    let whole = time.micros()?;
    Some((whole + micros as i64, rest))
}
