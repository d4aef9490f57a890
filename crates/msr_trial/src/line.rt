//! The line of a day that would be repacked.
ghost use Rattle.std.specs.Prelude.{◌≡◌, ℕ, List, IfOk};
ghost use Rattle.std.specs.String.{string_bytes};
ghost use Rattle.msr_trial.specs.Lines.{IsTrialLine, would_json, would_line, would_told, would_words};

use msr_folders::{JsonText, Shown};
use msr_making::Repacked;
use msr_options::{DayOptions, ListForm};
use msr_outcomes::{Outcome, counts_told, repacked_json};
use std::alloc::{AllocError, Global};
use std::io;

/// The line in words.
fn would_words(
    alloc: Global,
    bytes: bool,
    path: &str,
    repacked: Repacked,
) -> Result<String, AllocError>
    ensures { IfOk result (λ line. string_bytes line ≡ would_words bytes path.now repacked) }
{
    let counts = counts_told(alloc, repacked, bytes)?;
    let shown = Shown { path };
    format!(in alloc; "would {shown}{counts}\n")
}

/// The line in JSON.
fn would_json(
    alloc: Global,
    bytes: bool,
    path: &str,
    repacked: Repacked,
) -> Result<String, AllocError>
    ensures { IfOk result (λ line. string_bytes line ≡ would_json bytes path.now repacked) }
{
    let counts = repacked_json(alloc, repacked, bytes)?;
    let shown = JsonText { text: path };
    format!(in alloc; "{{\"what\":\"would\",\"path\":\"{shown}\"{counts}}}\n")
}

/// The line.
fn would_line(
    alloc: Global,
    asked: &DayOptions,
    path: &str,
    repacked: Repacked,
) -> Result<String, AllocError>
    ensures { IfOk result (λ line. string_bytes line ≡ would_line asked.now path.now repacked) }
{
    match asked.telling.form {
        ListForm::Words => would_words(alloc, asked.bytes, path, repacked),
        ListForm::Json => would_json(alloc, asked.bytes, path, repacked),
    }
}

/// What is printed of the day, which is nothing if only what is to be looked at is asked for.
fn would_told(
    alloc: Global,
    asked: &DayOptions,
    path: &str,
    repacked: Repacked,
) -> Result<String, AllocError>
    ensures { IfOk result (λ line. string_bytes line ≡ would_told asked.now path.now repacked) }
{
    if asked.telling.quiet {
        return Ok(String::new(alloc));
    }
    would_line(alloc, asked, path, repacked)
}

/// What is printed of the entry with this path. Of a folder without a list the system's reason is given.
pub(crate) fn line_of(
    alloc: Global,
    asked: &DayOptions,
    path: &str,
    outcome: Outcome,
    listing: Option<io::Error>,
) -> Result<String, AllocError>
    ensures { (channel : List ℕ) → IfOk result (λ line.
        IsTrialLine asked.now (record { path = path.now; channel = channel; outcome = outcome }) (string_bytes line)) }
{
    match outcome {
        Outcome::Done(repacked) => would_told(alloc, asked, path, repacked),
        _ => outcome.told(alloc, asked, path, listing),
    }
}
