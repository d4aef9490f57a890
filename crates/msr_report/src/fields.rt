//! The texts of a segment's fields.
ghost use Rattle.std.specs.Prelude.{◌≡◌, ◌++◌, ◌∷◌, ◌≤◌, ◌<◌, IfOk, OnOk, codes, decimal, false, string_bytes};
ghost use Rattle.std.specs.Fmt.{digit_glyph, signed_decimal};
ghost use Rattle.msr_time.specs.Instant.{IsInstant};
ghost use Rattle.msr_report.specs.Text.{hex_text, byte_text, field_text, name_text, rate_text, flags_text, padded_decimal, date_text, clock_text, split_text, IsTimeText, settings_text};

use itoa::Buffer;
use msr_rows::Key;
use msr_time::{BTime, Rate, split};
use std::alloc::{AllocError, Global};

/// For how many bytes memory is taken at first: a name of letters, digits and spaces, and a time.
const NAME_ROOM: usize = 15;

const TIME_ROOM: usize = 24;

/// The lower-case hexadecimal digit of a number.
fn hex_digit(n: u8) -> char
    requires { n < 16 }
    ensures glyph { result ≡ digit_glyph false n }
    ensures ascii { result < 128 }
{
    if n < 10 {
        (b'0' + n) as char
    } else {
        (b'a' + (n - 10)) as char
    }
}

/// Appends two lower-case hexadecimal digits.
pub(crate) fn push_hex(text: &mut String, n: u8) -> Result<(), AllocError>
    ensures { OnOk result (string_bytes text.new ≡ string_bytes text.old ++ hex_text n) }
{
    text.push(hex_digit(n / 16))?;
    text.push(hex_digit(n % 16))
}

/// Appends a number in decimal.
pub(crate) fn push_decimal(text: &mut String, n: u64) -> Result<(), AllocError>
    ensures { OnOk result (string_bytes text.new ≡ string_bytes text.old ++ decimal n) }
{
    let mut digits = Buffer::new();
    text.push_str(digits.format(n))
}

/// Appends a number in decimal, with its sign if it is negative.
pub(crate) fn push_signed(text: &mut String, n: i32) -> Result<(), AllocError>
    ensures { OnOk result (string_bytes text.new ≡ string_bytes text.old ++ signed_decimal n) }
{
    let mut digits = Buffer::new();
    text.push_str(digits.format(n))
}

/// Appends a number in so many digits, or more if it needs them.
pub fn push_padded(text: &mut String, n: u32, width: usize) -> Result<(), AllocError>
    ensures { OnOk result (string_bytes text.new ≡ string_bytes text.old ++ padded_decimal width n) }
{
    let mut buffer = Buffer::new();
    let digits = buffer.format(n);
    for place in digits.len()..width {
        text.push('0')?;
    }
    text.push_str(digits)?;
    Ok(())
}

/// Appends the text of a byte of a name.
fn push_byte(text: &mut String, byte: u8) -> Result<(), AllocError>
    ensures { OnOk result (string_bytes text.new ≡ string_bytes text.old ++ byte_text byte) }
{
    if byte.is_ascii_alphanumeric() {
        text.push(byte as char)
    } else if byte == b' ' {
        text.push('_')
    } else {
        text.push('%')?;
        push_hex(text, byte)
    }
}

/// Appends bytes of a name: letters and digits as they are, a space as `_`, any other as `%` and two hexadecimal digits.
pub fn push_field(text: &mut String, field: &[u8]) -> Result<(), AllocError>
    ensures { OnOk result (string_bytes text.new ≡ string_bytes text.old ++ field_text field.now) }
{
    for byte in field {
        push_byte(text, *byte)?;
    }
    Ok(())
}

/// Network, station, location and channel.
pub(crate) fn name_string(alloc: Global, key: &Key) -> Result<String, AllocError>
    ensures { IfOk result (λ text. string_bytes text ≡ name_text key.now) }
{
    let mut text = String::with_capacity(alloc, NAME_ROOM)?;
    push_field(&mut text, &key.network)?;
    text.push('.')?;
    push_field(&mut text, &key.station)?;
    text.push('.')?;
    push_field(&mut text, &key.location)?;
    text.push('.')?;
    push_field(&mut text, &key.channel)?;
    Ok(text)
}

/// Appends the factor and the multiplier of a rate.
fn push_rate(text: &mut String, rate: Rate) -> Result<(), AllocError>
    ensures { OnOk result (string_bytes text.new ≡ string_bytes text.old ++ rate_text rate) }
{
    push_signed(text, i32::from(rate.factor()))?;
    text.push(' ')?;
    push_signed(text, i32::from(rate.multiplier()))
}

/// Appends the activity, clock and data quality flags.
fn push_flags(text: &mut String, key: &Key) -> Result<(), AllocError>
    ensures { OnOk result (string_bytes text.new ≡ string_bytes text.old ++ flags_text key.now) }
{
    push_hex(text, key.activity)?;
    text.push(' ')?;
    push_hex(text, key.clock)?;
    text.push(' ')?;
    push_hex(text, key.data_quality)
}

fn push_date(text: &mut String, time: BTime) -> Result<(), AllocError>
    ensures { OnOk result (string_bytes text.new ≡ string_bytes text.old ++ date_text time) }
{
    push_padded(text, u32::from(time.year), 4)?;
    text.push(',')?;
    push_padded(text, u32::from(time.day), 3)
}

pub(crate) fn push_clock(text: &mut String, time: BTime) -> Result<(), AllocError>
    ensures { OnOk result (string_bytes text.new ≡ string_bytes text.old ++ clock_text time) }
{
    push_padded(text, u32::from(time.hour), 2)?;
    text.push(':')?;
    push_padded(text, u32::from(time.minute), 2)?;
    text.push(':')?;
    push_padded(text, u32::from(time.second), 2)
}

/// A time, and the microseconds below its fraction.
fn split_string(alloc: Global, time: BTime, micros: u8) -> Result<String, AllocError>
    requires { time.fract ≤ 9999 }
    ensures { IfOk result (λ text. string_bytes text ≡ split_text time micros) }
{
    let mut text = String::with_capacity(alloc, TIME_ROOM)?;
    push_date(&mut text, time)?;
    text.push(',')?;
    push_clock(&mut text, time)?;
    text.push('.')?;
    push_padded(&mut text, 100 * time.fract as u32 + micros as u32, 6)?;
    Ok(text)
}

/// The text of an instant.
pub(crate) fn time_string(alloc: Global, t: i64) -> Result<String, AllocError>
    requires { IsInstant t }
    ensures { IfOk result (λ text. IsTimeText t (string_bytes text)) }
{
    let Some((time, micros)) = split(t) else {
        unreachable!()
    };
    split_string(alloc, time, micros)
}

/// Appends the words of the time correction and of the timing quality.
fn push_timing(text: &mut String, key: &Key) -> Result<(), AllocError>
    ensures { OnOk result (string_bytes text.new ≡ string_bytes text.old ++ (codes " correction "
        ++ (signed_decimal key.now.correction ++ (codes " timing " ++ decimal key.now.timing)))) }
{
    text.push_str(" correction ")?;
    push_signed(text, key.correction)?;
    text.push_str(" timing ")?;
    push_decimal(text, key.timing as u64)
}

/// Appends a space, and the words from the rate to the timing quality.
pub(crate) fn push_settings(text: &mut String, key: &Key) -> Result<(), AllocError>
    ensures { OnOk result (string_bytes text.new ≡ string_bytes text.old ++ (32 ∷ settings_text key.now)) }
{
    text.push_str(" rate ")?;
    push_rate(text, key.rate)?;
    text.push_str(" flags ")?;
    push_flags(text, key)?;
    push_timing(text, key)?;
    Ok(())
}
