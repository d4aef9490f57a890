//! A row: its columns, one after another, and what is answered to it.

use msr_base::{Form, Kind, Kinds, Length, Order, Version, Width};
use std::alloc::Global;
use std::fmt;
use std::fmt::Write;
use std::str::FromStr;

/// What is told of a line that is no row.
pub const NONE: &str = "no such row, or no memory";

/// What is told of a row that is asked of several calls, if they do not answer the same.
const DIFFER: &str = "calls that differ";

const VERSIONS: &[(&str, Version)] = &[("1", Version::One), ("2", Version::Two)];

const ORDERS: &[(&str, Order)] = &[("big", Order::Big), ("little", Order::Little)];

const WIDTHS: &[(&str, Width)] = &[("2", Width::Two), ("3", Width::Three), ("4", Width::Four)];

const KINDS: &[(&str, Kind)] = &[
    ("Int16", Kind::Int16),
    ("Int24", Kind::Int24),
    ("Int32", Kind::Int32),
    ("Steim1", Kind::Steim1),
    ("Steim2", Kind::Steim2),
];

const CHOICES: &[(&str, Kinds)] = &[("all", Kinds::All), ("four", Kinds::WithoutInt24)];

/// What of a row was not read yet, and what is answered to it. A column that cannot be read has some value of its type.
#[derive(Drop)]
pub struct Line<'a> {
    pub alloc: Global,
    pub rest: &'a str,
    pub answer: String,
    /// Whether a column could not be read, or memory was refused.
    pub is_bad: bool,
    /// Whether calls did not answer the same.
    differs: bool,
    /// The length of a record of 256 bytes.
    pub usual: Length,
}

impl<'a> Line<'a> {
    pub fn new(alloc: Global, rest: &'a str, usual: Length) -> Line<'a> {
        Line {
            alloc,
            rest,
            answer: String::new(alloc),
            is_bad: false,
            differs: false,
            usual,
        }
    }

    /// What is printed below the row.
    pub fn told(&self) -> &str {
        if self.is_bad {
            NONE
        } else if self.differs {
            DIFFER
        } else {
            self.answer.as_str()
        }
    }

    /// Notes that a column cannot be read, or that memory was refused, and goes on with this value.
    pub fn bad<T>(&mut self, instead: T) -> T {
        self.is_bad = true;
        instead
    }

    /// Adds to the answer.
    pub fn put<D: fmt::Display + Drop>(&mut self, shown: D) {
        self.is_bad |= write!(self.answer, "{shown}").is_err();
    }

    /// Adds to the answer, and that mark after it.
    pub fn put_before<D: fmt::Display + Drop>(&mut self, shown: D, mark: char) {
        self.is_bad |= write!(self.answer, "{shown}{mark}").is_err();
    }

    /// Adds a text to the answer.
    pub fn put_text(&mut self, text: &str) {
        self.is_bad |= self.answer.push_str(text).is_err();
    }

    /// Adds to the answer what a value is.
    pub fn show<D: fmt::Debug>(&mut self, shown: &D) {
        self.is_bad |= write!(self.answer, "{shown:?}").is_err();
    }

    /// Notes whether calls answer the same.
    pub fn agree(&mut self, is_same: bool) {
        self.differs |= !is_same;
    }

    /// Notes whether this is shown as the answer so far.
    pub fn agree_with<D: fmt::Display + Drop>(&mut self, shown: D) {
        match format!(in self.alloc; "{shown}") {
            Ok(text) => self.differs |= text.as_str() != self.answer.as_str(),
            Err(_) => self.is_bad = true,
        }
    }

    /// Adds to a list.
    pub fn push<T: Drop>(&mut self, list: &mut Vec<T>, item: T) {
        self.is_bad |= list.push(item).is_err();
    }

    /// Adds several to a list.
    pub fn extend<T: Copy>(&mut self, list: &mut Vec<T>, items: &[T]) {
        self.is_bad |= list.extend_from_slice(items).is_err();
    }

    /// A list of so many of this number.
    pub fn repeated(&mut self, number: i32, count: u16) -> Vec<i32> {
        match vec![in self.alloc; number; usize::from(count)] {
            Ok(list) => list,
            Err(_) => self.bad(Vec::new(self.alloc)),
        }
    }

    /// The text before that mark, which is passed over, or all that is left.
    pub fn until(&mut self, mark: &str) -> &'a str {
        let (text, rest) = self.rest.split_once(mark).unwrap_or((self.rest, ""));
        self.rest = rest;
        text
    }

    /// The next word.
    pub fn word(&mut self) -> &'a str {
        self.until(" ")
    }

    /// The number that is written so.
    pub fn number_of<T>(&mut self, text: &str) -> T
    where
        T: FromStr + Default,
        T::Err: Drop,
    {
        match text.parse::<T>() {
            Ok(number) => number,
            Err(_) => self.bad(T::default()),
        }
    }

    /// A number, before that mark or the last one.
    pub fn number_until<T>(&mut self, mark: &str) -> T
    where
        T: FromStr + Default,
        T::Err: Drop,
    {
        let text = self.until(mark);
        self.number_of(text)
    }

    /// A number.
    pub fn number<T>(&mut self) -> T
    where
        T: FromStr + Default,
        T::Err: Drop,
    {
        self.number_until(" ")
    }

    /// `BEFORE`, `FAILS`: a number, or `-` for none: the sample before a run, or the call that fails.
    pub fn optional<T>(&mut self) -> Option<T>
    where
        T: FromStr + Default,
        T::Err: Drop,
    {
        match self.word() {
            "-" => None,
            word => Some(self.number_of(word)),
        }
    }

    /// What the next word names, or else that value.
    pub fn named<T: Copy>(&mut self, names: &[(&str, T)], instead: T) -> T {
        let word = self.word();
        for (name, value) in names {
            if *name == word {
                return *value;
            }
        }
        self.bad(instead)
    }

    /// `VERSION`: 1 or 2, of Steim.
    pub fn version(&mut self) -> Version {
        self.named(VERSIONS, Version::One)
    }

    /// `ORDER`: `big` or `little`.
    pub fn order(&mut self) -> Order {
        self.named(ORDERS, Order::Big)
    }

    /// How many bytes an integer has.
    pub fn width(&mut self) -> Width {
        self.named(WIDTHS, Width::Two)
    }

    /// `KIND`: `Int16`, `Int24`, `Int32`, `Steim1` or `Steim2`.
    pub fn kind(&mut self) -> Kind {
        self.named(KINDS, Kind::Int16)
    }

    /// The length of records.
    pub fn length(&mut self) -> Length {
        match Length::new(self.number()) {
            Some(length) => length,
            None => self.bad(self.usual),
        }
    }

    /// `FORM`: `LENGTH all`, or `LENGTH four`, records of that length of all kinds but 24-bit integers.
    pub fn form(&mut self) -> Form {
        Form {
            length: self.length(),
            kinds: self.named(CHOICES, Kinds::All),
        }
    }
}
