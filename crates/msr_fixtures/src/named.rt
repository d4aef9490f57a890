//! Edits by the names of the header's fields, as tables and scripts have them.

use msr_base::Order;

/// Other bytes in a record: the name of a field, or a place, and the value there, as `edit_by_name` takes them.
pub type Edit<'a> = (&'a str, &'a str);

/// The fields: where the number of each stands, and how many bytes it has; a text has none of its own. Some fields have
/// several numbers.
const FIELDS: &[(&str, usize, usize)] = &[
    ("sequence", 0, 0),
    ("quality", 6, 0),
    ("station", 8, 0),
    ("location", 13, 0),
    ("channel", 15, 0),
    ("network", 18, 0),
    ("day", 20, 2),
    ("day", 22, 2),
    ("clock", 24, 1),
    ("clock", 25, 1),
    ("clock", 26, 1),
    ("clock", 28, 2),
    ("samples", 30, 2),
    ("rate", 32, 2),
    ("rate", 34, 2),
    ("activity", 36, 1),
    ("clocking", 37, 1),
    ("flags", 38, 1),
    ("correction", 40, 4),
    ("data", 44, 2),
    ("first", 46, 2),
    ("after1000", 50, 2),
    ("encoding", 52, 1),
    ("order", 53, 1),
    ("exponent", 54, 1),
    ("second", 56, 2),
    ("after1001", 58, 2),
    ("timing", 60, 1),
    ("micros", 61, 1),
    ("frames", 63, 1),
];

/// Writes bytes, as far as there is room.
fn put(bytes: &mut [u8], at: usize, part: &[u8]) {
    for (place, value) in part.iter().enumerate() {
        if let Some(byte) = bytes.get_mut(at.saturating_add(place)) {
            *byte = *value;
        }
    }
}

/// Writes a text; a `_` stands for a space.
fn put_text(bytes: &mut [u8], at: usize, text: &str) {
    for (place, letter) in text.as_bytes().iter().enumerate() {
        let byte = if *letter == b'_' { b' ' } else { *letter };
        put(bytes, at.saturating_add(place), &[byte]);
    }
}

/// Writes the last `width` bytes of a number, at most 8.
fn put_last(order: Order, bytes: &mut [u8], at: usize, width: usize, number: i64) {
    let first = 8usize.saturating_sub(width);
    match order {
        Order::Big => put(bytes, at, &number.to_be_bytes()[first..]),
        Order::Little => put(bytes, at, &number.to_le_bytes()[..8 - first]),
    }
}

/// Writes what stands in one place of a field.
fn put_value(order: Order, bytes: &mut [u8], at: usize, width: usize, text: &str) -> bool {
    match (width, text.parse::<i64>()) {
        (0, _) => put_text(bytes, at, text),
        (_, Ok(number)) => put_last(order, bytes, at, width, number),
        _ => return false,
    }
    true
}

/// The value of a hexadecimal digit.
fn digit_of(letter: u8) -> Option<u8> {
    match letter {
        b'0'..=b'9' => Some(letter - b'0'),
        b'a'..=b'f' => Some(letter - b'a' + 10),
        _ => None,
    }
}

/// Writes bytes from a place on, two hexadecimal digits for each, as far as there is room.
fn put_hex(bytes: &mut [u8], at: usize, digits: &str) -> bool {
    let mut is_written = true;
    for (number, letter) in digits.as_bytes().iter().enumerate() {
        let byte = bytes.get_mut(at.saturating_add(number / 2));
        match (byte, digit_of(*letter)) {
            (Some(byte), Some(digit)) => *byte = byte.wrapping_mul(16).wrapping_add(digit),
            _ => is_written = false,
        }
    }
    is_written
}

/// Writes a field by its name, if there is one.
fn put_field(order: Order, bytes: &mut [u8], name: &str, value: &str) -> bool {
    let mut texts = value.split([',', ':', '.', '/']);
    let mut is_written = true;
    for (field, at, width) in FIELDS {
        if *field == name {
            let text = texts.next().unwrap_or("");
            is_written = put_value(order, bytes, *at, *width, text) && is_written;
        }
    }
    is_written && texts.next().is_none()
}

/// Writes a field by its name: a text, or its numbers with `,`, `:`, `.` or `/` between them, as `day=2020,1`,
/// `clock=23:59:29.9500` and `rate=20/1`; or bytes from a place on, as far as there is room, as `72=00000001`. `None` if
/// there is no such field, if it has other numbers, or if not all bytes were written.
pub fn edit_by_name(order: Order, bytes: &mut [u8], name: &str, value: &str) -> Option<()> {
    let is_written = match name.parse::<usize>() {
        Ok(at) => put_hex(bytes, at, value),
        Err(_) => put_field(order, bytes, name, value),
    };
    is_written.then_some(())
}

/// Makes these edits, one after another. A field that is none, or has other numbers, leaves no header, so that what is
/// tested with the record fails.
pub(crate) fn edit_all(order: Order, bytes: &mut [u8], edits: &[Edit<'_>]) {
    for (name, value) in edits {
        let is_written = edit_by_name(order, bytes, name, value).is_some();
        if !is_written && name.parse::<usize>().is_err() {
            put(bytes, 0, &[0; 64]);
        }
    }
}
