//! How far a walk is, and where it is shown.
ghost use Rattle.std.specs.Prelude.{◌≡◌, ◌-◌, ◌<◌, ◌≤◌, OnOk, false, true};
ghost use Rattle.msr_progress.specs.Progress.{ClearsOn, ShowsLine, ShowsOn, added};

use crate::text::line_of;
use std::alloc::Global;
use std::io;
use std::io::Write;

/// How long a line stays before the next one, in milliseconds.
const PAUSE: u64 = 200;

/// How far a walk is, and where it is shown.
#[derive(Drop)]
pub struct Progress<E> {
    /// Where a person sees it, if one does.
    pub screen: Option<E>,
    /// How many files were opened, and how many bytes these have.
    pub files: u64,
    pub bytes: u64,
    /// When the walk began, or a line was shown last, in milliseconds of a clock.
    pub since: u64,
    /// Whether a line is on the screen.
    pub is_shown: bool,
}

impl<E: Write> Progress<E> {
    /// A walk that begins.
    pub fn new(screen: Option<E>, now: u64) -> Progress<E>
        ensures screen { result.screen ≡ screen }
        ensures since { result.since ≡ now }
        ensures files { result.files ≡ 0 }
        ensures bytes { result.bytes ≡ 0 }
        ensures shown { result.is_shown ≡ false }
    {
        Progress {
            screen,
            files: 0,
            bytes: 0,
            since: now,
            is_shown: false,
        }
    }

    /// Counts a file more that has so many bytes.
    pub fn count(&mut self, bytes: u64)
        ensures files { self.new.files ≡ added self.old.files 1 }
        ensures bytes { self.new.bytes ≡ added self.old.bytes bytes }
        ensures screen { self.new.screen ≡ self.old.screen }
        ensures since { self.new.since ≡ self.old.since }
        ensures shown { self.new.is_shown ≡ self.old.is_shown }
    {
        self.files = self.files.saturating_add(1);
        self.bytes = self.bytes.saturating_add(bytes);
    }

    /// Shows how far the walk is, and in which folder, if a person sees it and a line has stayed long enough.
    pub fn show(&mut self, alloc: Global, now: u64, folder: &str) -> io::Result<()>
        ensures unasked { self.old.screen ≡ None → self.new ≡ self.old }
        ensures early { now - self.old.since < 200 → self.new ≡ self.old }
        ensures due { OnOk result (200 ≤ now - self.old.since →
            ShowsOn (λ screen. E.contents screen) self.old.files self.old.bytes folder.now self.old.screen self.new.screen) }
        ensures files { self.new.files ≡ self.old.files }
        ensures bytes { self.new.bytes ≡ self.old.bytes }
    {
        if now.saturating_sub(self.since) < PAUSE {
            return Ok(());
        }
        let Some(screen) = &mut self.screen else {
            return Ok(());
        };
        self.since = now;
        self.is_shown = true;
        write_line(screen, alloc, self.files, self.bytes, folder)
    }

    /// Takes the line away again, if there is one.
    pub fn clear(&mut self) -> io::Result<()>
        ensures unshown { self.old.is_shown ≡ false → self.new ≡ self.old }
        ensures shown { OnOk result (self.old.is_shown ≡ true →
            ClearsOn (λ screen. E.contents screen) self.old.screen self.new.screen) }
    {
        if !self.is_shown {
            return Ok(());
        }
        let Some(screen) = &mut self.screen else {
            return Ok(());
        };
        self.is_shown = false;
        write!(screen, "\r\x1b[K")
    }
}

/// Writes the line over the one that stands there.
fn write_line<E: Write>(
    screen: &mut E,
    alloc: Global,
    files: u64,
    bytes: u64,
    folder: &str,
) -> io::Result<()>
    ensures { OnOk result (ShowsLine files bytes folder.now (E.contents screen.old) (E.contents screen.new)) }
{
    let text = line_of(alloc, files, bytes, folder)?;
    write!(screen, "\r{text}\x1b[K")
}
