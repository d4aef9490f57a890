//! Standard error.
ghost use Rattle.std.specs.Io.KnownBytes.{Appends};
ghost use Rattle.std.specs.Prelude.{◌≡◌, ◌++◌, OnOk, codes};

use std::io;
use std::io::Write;

/// Standard error, which gets one line for scripts, and one more if a person reads it.
#[derive(Drop)]
pub struct Errors<E> {
    pub to: E,
    /// Whether a person reads it.
    pub is_terminal: bool,
}

/// One line on standard error, for this status. If it cannot be written, the status alone tells.
pub fn complain<E: Write>(errors: &mut E, status: u8, text: &str) -> u8
    ensures { result ≡ status }
{
    write_complaint(errors, text).ok();
    status
}

/// The line of a complaint.
pub fn write_complaint<E: Write>(errors: &mut E, text: &str) -> io::Result<()>
    ensures { OnOk result (Appends (E.contents errors.old) (E.contents errors.new)
        (codes "msrepack: " ++ (text.now ++ codes "\n"))) }
{
    writeln!(errors, "msrepack: {text}")
}
