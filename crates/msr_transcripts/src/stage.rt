//! What steps do with the folder that they share.

use std::alloc::{AllocError, Global};
use std::fs;
use std::io::Write;

/// The folder that all steps share, and what they print. Once a call of a step has failed, those after it change and
/// print nothing.
#[derive(Drop)]
pub struct Stage<'a> {
    pub rt: &'a HostRuntime,
    pub has_failed: bool,
}

impl<'a> Stage<'a> {
    pub fn alloc(&self) -> Global {
        self.rt.alloc()
    }

    /// Notes whether something was done.
    pub fn note(&mut self, is_done: bool) {
        self.has_failed = self.has_failed || !is_done;
    }

    /// A text that was made or read, or no text.
    pub fn made<E: Drop>(&mut self, text: Result<String, E>) -> String {
        match text {
            Ok(text) => text,
            Err(_) => {
                self.has_failed = true;
                String::new(self.alloc())
            }
        }
    }

    /// What stands before and after the first mark.
    pub fn parts<'t>(&mut self, text: &'t str, mark: &str) -> (&'t str, &'t str) {
        let parts = text.split_once(mark);
        self.note(parts.is_some());
        parts.unwrap_or(("", ""))
    }

    /// A count, a place or a size.
    pub fn count(&mut self, text: &str) -> usize {
        let count = text.parse::<usize>();
        self.note(count.is_ok());
        count.unwrap_or(0)
    }

    /// A number with a sign or without.
    pub fn number(&mut self, text: &str) -> i64 {
        let number = text.parse::<i64>();
        self.note(number.is_ok());
        number.unwrap_or(0)
    }

    /// The bytes of a file.
    pub fn read(&mut self, path: &str) -> Vec<u8> {
        match fs::read(self.rt, path) {
            Ok(bytes) => bytes,
            Err(_) => {
                self.has_failed = true;
                Vec::new(self.alloc())
            }
        }
    }

    /// The text of a file.
    pub fn read_text(&mut self, path: &str) -> String {
        self.made(fs::read_to_string(self.rt, path))
    }

    /// Makes the folder of a file.
    pub fn make_room(&mut self, path: &str) {
        if let Some((folder, _)) = path.rsplit_once('/') {
            self.note(self.has_failed || fs::create_dir_all(self.rt, folder).is_ok());
        }
    }

    /// Writes a file with its folder.
    pub fn write(&mut self, path: &str, bytes: &[u8]) {
        self.make_room(path);
        self.note(self.has_failed || fs::write(self.rt, path, bytes).is_ok());
    }

    /// Prints bytes.
    pub fn put(&mut self, bytes: &[u8]) {
        self.note(self.has_failed || self.rt.stdout().write_all(bytes).is_ok());
    }

    /// Prints a text that was made.
    pub fn say(&mut self, text: Result<String, AllocError>) {
        let text = self.made(text);
        self.put(text.as_str().as_bytes());
    }

    /// Prints whether something holds.
    pub fn say_whether(&mut self, holds: bool) {
        let text = if holds { "true\n" } else { "false\n" };
        self.put(text.as_bytes());
    }

    /// Prints a text. If it does not end in a line's end, a `\` and one come after it.
    pub fn tell(&mut self, text: &[u8]) {
        self.put(text);
        if !text.is_empty() && !text.ends_with(b"\n") {
            self.put(b"\\\n");
        }
    }
}
