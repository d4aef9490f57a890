//! Lists of numbers and of bytes, in few letters.

ghost use Rattle.std.specs.Iterator.{IsFinite};

use crate::line::Line;
use msr_fixtures::next_of;
use std::fmt;

/// Whether what an iterator gives are these samples.
pub fn gives<I: Iterator<Item = i32> + Drop>(mut given: I, samples: &[i32]) -> bool
    requires can { I.can_next given }
    requires finite { IsFinite (I.remaining given) }
{
    for sample in samples {
        match given.next() {
            Some(next) if next == *sample => {}
            _ => return false,
        }
    }
    given.next().is_none()
}

/// A number of noise of that height, half of it below 0.
fn of_height(number: u64, height: u64) -> i64 {
    let above = ((number >> 33) % height.max(1)).cast_signed();
    above.wrapping_sub((height / 2).cast_signed())
}

/// `noise:COUNT,SEED,HEIGHT,OTHER,STRETCH`: noise of two heights in turn, each for a stretch of so many numbers.
fn add_noise(line: &mut Line<'_>, numbers: &mut Vec<i64>, of: &[i64]) {
    let [count, seed, calm, loud, stretch] = of else {
        return line.bad(());
    };
    let stretch = stretch.cast_unsigned().max(1);
    let mut number = seed.cast_unsigned();
    for place in 0..count.cast_unsigned() {
        number = next_of(number);
        let is_loud = place / stretch % 2 == 1;
        let height = if is_loud { *loud } else { *calm };
        line.push(numbers, of_height(number, height.cast_unsigned()));
    }
}

/// These numbers in turn, as many as are counted.
fn add_in_turn(line: &mut Line<'_>, numbers: &mut Vec<i64>, of: &[i64], count: usize) {
    for place in 0..count {
        match of.get(place % of.len().max(1)) {
            Some(number) => line.push(numbers, *number),
            None => line.is_bad = true,
        }
    }
}

/// Numbers with a comma between them.
fn numbers_of(line: &mut Line<'_>, text: &str) -> Vec<i64> {
    let mut numbers = Vec::new(line.alloc);
    for word in text.split(',') {
        let number = line.number_of(word);
        line.push(&mut numbers, number);
    }
    numbers
}

/// Adds these numbers once, as noise, or in turn, as the head of their part says.
fn add_by_head(line: &mut Line<'_>, numbers: &mut Vec<i64>, head: &str, of: &[i64]) {
    match head {
        "" => line.extend(numbers, of),
        "noise" => add_noise(line, numbers, of),
        _ => {
            let count = line.number_of(head);
            add_in_turn(line, numbers, of, count);
        }
    }
}

/// Adds a part of numbers.
fn add_part(line: &mut Line<'_>, numbers: &mut Vec<i64>, part: &str) {
    let (head, text) = part.split_once(':').unwrap_or(("", part));
    let of = numbers_of(line, text);
    add_by_head(line, numbers, head, &of);
}

/// Adds bytes of two hexadecimal digits each, so many times.
fn add_pairs(line: &mut Line<'_>, bytes: &mut Vec<u8>, digits: &str, times: u32) {
    let mut part = Vec::new(line.alloc);
    for pair in digits.as_bytes().chunks(2) {
        match pair {
            [high, low] => {
                let high = digit(line, *high);
                let low = digit(line, *low);
                line.push(&mut part, high.wrapping_mul(16).wrapping_add(low));
            }
            _ => line.is_bad = true,
        }
    }
    for _ in 0..times {
        line.extend(bytes, &part);
    }
}

/// The value of a hexadecimal digit.
fn digit(line: &mut Line<'_>, letter: u8) -> u8 {
    match letter {
        b'0'..=b'9' => letter - b'0',
        b'a'..=b'f' => letter - b'a' + 10,
        _ => line.bad(0),
    }
}

impl Line<'_> {
    /// Numbers of 64 bits, before it is seen whether they are in the range of their type.
    fn wide_numbers(&mut self) -> Vec<i64> {
        let mut numbers = Vec::new(self.alloc);
        let text = self.word();
        if text != "-" {
            for part in text.split('+') {
                add_part(self, &mut numbers, part);
            }
        }
        numbers
    }

    /// `NUMBERS`, `SAMPLES`, `DIFFERENCES`: `1,-2,3`, or `COUNT:1,-2`, so many, with these in turn, or noise; several of
    /// these with `+`; `-` for none. Each is in the range of its type.
    pub fn numbers<T>(&mut self) -> Vec<T>
    where
        T: TryFrom<i64> + Default + Drop,
        T::Error: Drop,
    {
        let wide = self.wide_numbers();
        let mut numbers = Vec::new(self.alloc);
        for number in &wide {
            match T::try_from(*number) {
                Ok(number) => self.push(&mut numbers, number),
                Err(_) => self.is_bad = true,
            }
        }
        numbers
    }

    /// Samples.
    pub fn samples(&mut self) -> Vec<i32> {
        self.numbers()
    }

    /// `AREA`, `WORD`: hexadecimal digits, or `DIGITS*TIMES`, several with `+`; `-` for none.
    pub fn bytes(&mut self) -> Vec<u8> {
        let mut bytes = Vec::new(self.alloc);
        let text = self.word();
        if text != "-" {
            for part in text.split('+') {
                let (digits, times) = part.split_once('*').unwrap_or((part, "1"));
                let times = self.number_of(times);
                add_pairs(self, &mut bytes, digits, times);
            }
        }
        bytes
    }

    /// `TEXT`: up to a `&` or to the end; `\n` stands for a line's end, `-` for no text.
    pub fn text(&mut self) -> Vec<u8> {
        let mut bytes = Vec::new(self.alloc);
        let text = self.until(" & ");
        if text != "-" {
            for part in text.split("\\n") {
                self.extend(&mut bytes, part.as_bytes());
                self.push(&mut bytes, b'\n');
            }
            let _ = bytes.pop();
        }
        bytes
    }
}

/// Bytes that are printed in hexadecimal.
#[derive(Clone, Copy)]
pub struct Hexadecimal<'a>(pub &'a [u8]);

impl fmt::Display for Hexadecimal<'_> {
    fn fmt<W: fmt::Write>(&self, f: &mut fmt::Formatter<W>) -> fmt::Result {
        for byte in self.0 {
            write!(f, "{byte:02x}")?;
        }
        Ok(())
    }
}
