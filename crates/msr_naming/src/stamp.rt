//! What a day's file was when it was repacked, or when its records took its place.
ghost use Rattle.std.specs.Prelude.{◌≡◌, IfOk, true};
ghost use Rattle.std.specs.String.{string_bytes};
ghost use Rattle.msr_devices.specs.Device.{CanCountCall, HasLeft};
ghost use Rattle.msr_naming.specs.Stamp.{stamp_of, stamp_text, stamp_word};

use msr_devices::{Source, read_some};
use msr_tree::Facts;
use std::alloc::{AllocError, Global};

/// How many bytes are read at a time: more than a stamp has, so that one call reads it.
const ROOM: usize = 128;

/// Which file stood in the archive when the stamp was written.
#[derive(Clone, Copy, PartialEq, Eq)]
pub enum StampOf {
    /// The one that was repacked.
    Input,
    /// The records, in its place.
    Records,
}

impl StampOf {
    fn word(self) -> &'static str
        ensures { result.now ≡ stamp_word self }
    {
        match self {
            StampOf::Input => "input",
            StampOf::Records => "records",
        }
    }
}

/// The size of a regular file, and the time at which it was last changed.
#[derive(Clone, Copy, PartialEq, Eq)]
pub struct Stamp {
    pub bytes: u64,
    pub seconds: i64,
    pub nanoseconds: i64,
}

impl Stamp {
    /// That of what was found.
    pub fn of(facts: &Facts) -> Stamp
        ensures { result ≡ stamp_of facts.now }
    {
        Stamp {
            bytes: facts.bytes,
            seconds: facts.changed.seconds,
            nanoseconds: facts.changed.nanoseconds,
        }
    }

    pub fn text(self, alloc: Global, of: StampOf) -> Result<String, AllocError>
        ensures { IfOk result (λ text. string_bytes text ≡ stamp_text of self) }
    {
        let word = of.word();
        let bytes = self.bytes;
        let seconds = self.seconds.to_string(alloc)?;
        let nanoseconds = self.nanoseconds.to_string(alloc)?;
        format!(in alloc; "{word} {bytes} bytes, changed at {seconds} s {nanoseconds} ns\n")
    }
}

/// Whether a source gives this text, and nothing else.
pub fn gives_text<S: Source>(source: &mut S, text: &[u8]) -> bool
    requires { CanCountCall (S.device source.old) }
    ensures { result ≡ true → HasLeft (S.device source.old) text.now }
{
    let mut room = [0; ROOM];
    let mut rest = text;
    loop {
        let n = match read_some(source, &mut room) {
            Ok(n) => n,
            Err(_) => return false,
        };
        if n == 0 {
            return rest.is_empty();
        }
        match rest.strip_prefix(&room[..n]) {
            Some(after) => rest = after,
            None => return false,
        }
    }
}
