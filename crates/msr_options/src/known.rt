//! What earlier runs told of what they refused.
ghost use Rattle.std.specs.Prelude.{◌≡◌, [], OnOk, option_map};
ghost use Rattle.msr_options.specs.Known.{has_line, text_after, with_line};

use indexmap::IndexSet;
use std::alloc::{AllocError, Global};
use std::marker::Model;

/// Lines of earlier runs that tell of something refused, each once, in the order in which they came first.
#[derive(Drop)]
pub struct KnownLines {
    alloc: Global,
    lines: IndexSet<String>,
}

impl Model for KnownLines {
    ghost use Rattle.std.specs.Prelude.{List, ℕ};
    ghost use Rattle.msr_options.specs.Texts.{texts_of};

    ghost Value = { List (List ℕ) };

    ghost view = { λ known. texts_of known.lines.keys };
}

impl KnownLines {
    /// No lines yet.
    pub fn new(alloc: Global) -> KnownLines
        ensures { result ≡ [] }
    {
        KnownLines {
            alloc,
            lines: IndexSet::new(alloc),
        }
    }

    /// Adds a line, if it tells of something refused.
    pub fn add(&mut self, line: &str) -> Result<(), AllocError>
        ensures { OnOk result (self.new ≡ with_line self.old line.now) }
    {
        if !line.as_bytes().starts_with(b"refused ") {
            return Ok(());
        }
        let line = String::from_str(self.alloc, line)?;
        self.lines.insert(line)?;
        Ok(())
    }

    /// Whether a line is among them.
    pub fn has(&self, line: &str) -> bool
        ensures { result ≡ has_line self.now line.now }
    {
        self.lines.contains(line)
    }

    /// What stands after this beginning in the first line that has it.
    pub fn after(&self, beginning: &str) -> Option<&str>
        ensures { option_map (λ text. text.now) result ≡ text_after beginning.now self.now }
    {
        for place in 0..self.lines.len() {
            let Some(line) = self.lines.get_index(place) else {
                return None;
            };
            if let Some(text) = line.strip_prefix(beginning) {
                return Some(text);
            }
        }
        None
    }
}

/// What is known of an archive from earlier runs.
#[derive(Clone, Copy)]
pub enum Known<'a> {
    /// Nothing is asked for.
    Nothing,
    /// What the file with this name tells, which is to be read.
    File(&'a str),
    /// What these lines tell.
    Lines(&'a KnownLines),
}

impl<'a> Known<'a> {
    ghost use Rattle.msr_options.specs.Known.{knows, text_known, knows_any};

    /// Whether lines are known.
    pub fn is_asked(self) -> bool
        ensures { result ≡ knows_any self.entry }
    {
        matches!(self, Known::Lines(_))
    }

    /// Whether a line is known.
    pub fn has(self, line: &str) -> bool
        ensures { result ≡ knows self.entry line.now }
    {
        match self {
            Known::Lines(lines) => lines.has(line),
            _ => false,
        }
    }

    /// What stands after this beginning in the first known line that has it.
    pub fn after(self, beginning: &str) -> Option<&'a str>
        ensures { option_map (λ text. text.now) result ≡ text_known self.entry beginning.now }
    {
        match self {
            Known::Lines(lines) => lines.after(beginning),
            _ => None,
        }
    }
}
