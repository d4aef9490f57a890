//! What becomes of an entry of a folder, and its line.
ghost use Rattle.std.specs.Prelude.{◌≡◌, ℕ, List, IfOk};
ghost use Rattle.std.specs.String.{string_bytes};
ghost use Rattle.msr_outcomes.specs.Lines.{IsOutcomeJson, IsOutcomeLine, IsLineBy, IsOutcomeReason, bytes_json, bytes_told, repacked_json, counts_told, is_to_look_at, day_place_json, day_refusal_json, day_refusal_text, unopened_json, outcome_word, outcome_members, outcome_rest, outcome_words};
ghost use Rattle.msr_outcomes.specs.Known.{is_plain, known_as, refusal_line};
ghost use Rattle.msr_outcomes.specs.Outcomes.{of_day};

use msr_folders::{
    JsonText, Shown, ToldFault, fault_json, found_json, found_words, reason_json, skip_text,
};
use msr_input::ReadFault;
use msr_making::{DayFault, DayOutcome, Repacked, Shrinkage};
use msr_options::{DayOptions, Known, ListForm, Side};
use msr_sds::SdsFault;
use msr_tool::ToolFault;
use std::alloc::{AllocError, Global};
use std::{fmt, io};

/// What a line says of bytes: nothing, unless that is asked for.
pub(crate) fn bytes_told(
    alloc: Global,
    told: bool,
    read: u64,
    written: u64,
) -> Result<String, AllocError>
    ensures { IfOk result (λ text. string_bytes text ≡ bytes_told told read written) }
{
    if !told {
        return Ok(String::new(alloc));
    }
    format!(in alloc; " bytes {read} {written}")
}

/// The members of JSON that tell bytes.
pub(crate) fn bytes_json(
    alloc: Global,
    told: bool,
    read: u64,
    written: u64,
) -> Result<String, AllocError>
    ensures { IfOk result (λ text. string_bytes text ≡ bytes_json told read written) }
{
    if !told {
        return Ok(String::new(alloc));
    }
    format!(in alloc; ",\"bytes_read\":{read},\"bytes_written\":{written}")
}

/// The counts of a day, with bytes or without.
pub fn counts_told(alloc: Global, repacked: Repacked, bytes: bool) -> Result<String, AllocError>
    ensures { IfOk result (λ text. string_bytes text ≡ counts_told bytes repacked) }
{
    let Repacked { read, written, .. } = repacked;
    let size = bytes_told(alloc, bytes, repacked.bytes_read, repacked.bytes_written)?;
    format!(in alloc; " read {read} written {written}{size}")
}

/// The members of JSON that tell the counts of a day, with bytes or without.
pub fn repacked_json(alloc: Global, repacked: Repacked, bytes: bool) -> Result<String, AllocError>
    ensures { IfOk result (λ text. string_bytes text ≡ repacked_json bytes repacked) }
{
    let Repacked { read, written, .. } = repacked;
    let size = bytes_json(alloc, bytes, repacked.bytes_read, repacked.bytes_written)?;
    format!(in alloc; ",\"read\":{read},\"written\":{written}{size}")
}

/// Why the tool stopped.
#[derive(Clone, Copy)]
struct ToldStop {
    fault: ToolFault,
}

impl fmt::Display for ToldStop {
    ghost use Rattle.std.specs.Prelude.{Some};
    ghost use Rattle.msr_outcomes.specs.Lines.{tool_text};

    ghost output = { λ told. Some (tool_text told.fault) };

    fn fmt<W: fmt::Write>(&self, f: &mut fmt::Formatter<W>) -> fmt::Result {
        match self.fault {
            ToolFault::Input(fault) => {
                let told = ToldFault {
                    fault: ReadFault::Input(fault),
                };
                write!(f, "{told}")
            }
            ToolFault::Report(line) => write!(f, "report line {line}"),
            ToolFault::Read => f.write_str("read fault"),
            ToolFault::Write => f.write_str("write fault"),
            ToolFault::Memory => f.write_str("out of memory"),
        }
    }
}

/// Why an entry is refused; nothing if its first word tells that.
fn day_refusal_text(alloc: Global, why: DayFault) -> Result<String, AllocError>
    ensures { IfOk result (λ text. string_bytes text ≡ day_refusal_text why) }
{
    let text = match why {
        DayFault::CannotOpen(_) | DayFault::Gone => "cannot open",
        DayFault::Listing => "listing",
        DayFault::ClaimedByAnother => "another walk is at work",
        DayFault::Tool(fault) => return ToldStop { fault }.to_string(alloc),
        DayFault::NotShown
        | DayFault::Differs
        | DayFault::Changed
        | DayFault::Larger(_)
        | DayFault::Shrunk(_)
        | DayFault::Misplaced(_) => "",
    };
    String::from_str(alloc, text)
}

/// The member of JSON that tells what could not be opened or made.
fn unopened_json<'a>(side: Side) -> &'a str
    ensures { result.now ≡ unopened_json side }
{
    match side {
        Side::File => ",\"side\":\"file\"",
        Side::Records => ",\"side\":\"records\"",
        Side::Report => ",\"side\":\"report\"",
        Side::Outputs => "",
    }
}

/// The members of JSON that tell whose fault it is, and where it is and what is there.
fn day_place_json(alloc: Global, why: DayFault) -> Result<String, AllocError>
    ensures { IfOk result (λ text. string_bytes text ≡ day_place_json why) }
{
    match why {
        DayFault::CannotOpen(unopened) => String::from_str(alloc, unopened_json(unopened.side)),
        DayFault::Gone => String::from_str(alloc, ",\"side\":\"file\""),
        DayFault::Tool(ToolFault::Input(fault)) => {
            let place = fault_json(alloc, fault)?;
            format!(in alloc; ",\"side\":\"file\"{place}")
        }
        _ => Ok(String::new(alloc)),
    }
}

/// The members of JSON that tell why an entry is refused.
fn day_refusal_json(alloc: Global, why: DayFault) -> Result<String, AllocError>
    ensures { IfOk result (λ text. string_bytes text ≡ day_refusal_json why) }
{
    let place = day_place_json(alloc, why)?;
    let text = day_refusal_text(alloc, why)?;
    let text = JsonText {
        text: text.as_str(),
    };
    format!(in alloc; "{place},\"text\":\"{text}\"")
}

/// Whether its first word tells no more than that an entry is refused.
fn is_plain(why: DayFault) -> bool
    ensures { result ≡ is_plain why }
{
    matches!(
        why,
        DayFault::CannotOpen(_)
            | DayFault::Gone
            | DayFault::Listing
            | DayFault::ClaimedByAnother
            | DayFault::Tool(_)
    )
}

/// The line in words, without its line feed, of the entry with this path that is refused so.
fn refusal_line(alloc: Global, path: &str, why: DayFault) -> Result<String, AllocError>
    ensures { IfOk result (λ line. string_bytes line ≡ refusal_line path.now why) }
{
    let text = day_refusal_text(alloc, why)?;
    let shown = Shown { path };
    format!(in alloc; "refused {shown}: {text}")
}

/// What became of an entry.
#[derive(Clone, Copy)]
pub enum Outcome {
    Done(Repacked),
    /// An earlier walk had done it, and it was left alone.
    Same(Repacked),
    /// Its file was changed too late, and was left alone.
    Young,
    Skipped(SdsFault),
    /// It was refused, or repacked and not kept.
    Refused(DayFault),
    /// It was refused, by a line that is known.
    Known(DayFault),
}

impl Outcome {
    /// That of a day.
    pub fn of_day(outcome: DayOutcome) -> Outcome
        ensures { result ≡ of_day outcome }
    {
        match outcome {
            DayOutcome::Done(repacked) => Outcome::Done(repacked),
            DayOutcome::Same(repacked) => Outcome::Same(repacked),
            DayOutcome::Young => Outcome::Young,
            DayOutcome::Refused(why) => Outcome::Refused(why),
        }
    }

    /// The same, or that it is known if the line of a refusal is.
    pub fn known_as(
        self,
        alloc: Global,
        known: Known<'_>,
        path: &str,
    ) -> Result<Outcome, AllocError>
        ensures { IfOk result (λ outcome. outcome ≡ known_as known.entry path.now self) }
    {
        let Outcome::Refused(why) = self else {
            return Ok(self);
        };
        if !known.is_asked() || !is_plain(why) {
            return Ok(self);
        }
        let line = refusal_line(alloc, path, why)?;
        if known.has(line.as_str()) {
            Ok(Outcome::Known(why))
        } else {
            Ok(self)
        }
    }

    /// The first word of its line.
    fn what<'a>(self) -> &'a str
        ensures { result.now ≡ outcome_word self }
    {
        match self {
            Outcome::Done(_) => "done",
            Outcome::Same(_) => "same",
            Outcome::Young => "young",
            Outcome::Skipped(_) => "skipped",
            Outcome::Refused(DayFault::NotShown) => "notshown",
            Outcome::Refused(DayFault::Differs) => "differs",
            Outcome::Refused(DayFault::Changed) => "changed",
            Outcome::Refused(DayFault::Larger(_)) => "larger",
            Outcome::Refused(DayFault::Shrunk(_)) => "shrunk",
            Outcome::Refused(DayFault::Misplaced(_)) => "misplaced",
            Outcome::Refused(_) => "refused",
            Outcome::Known(_) => "known",
        }
    }

    /// What stands after the path.
    fn why(self, alloc: Global, bytes: bool) -> Result<String, AllocError>
        ensures { IfOk result (λ text. string_bytes text ≡ outcome_rest bytes self) }
    {
        match self {
            Outcome::Done(repacked) => counts_told(alloc, repacked, bytes),
            Outcome::Same(repacked) => counts_told(alloc, repacked, bytes),
            Outcome::Young => Ok(String::new(alloc)),
            Outcome::Skipped(fault) => format!(in alloc; ": {}", skip_text(fault)),
            Outcome::Refused(DayFault::NotShown) => Ok(String::new(alloc)),
            Outcome::Refused(DayFault::Differs) => Ok(String::new(alloc)),
            Outcome::Refused(DayFault::Changed) => Ok(String::new(alloc)),
            Outcome::Refused(DayFault::Larger(repacked)) => counts_told(alloc, repacked, bytes),
            Outcome::Refused(DayFault::Shrunk(Shrinkage { was, is })) => {
                format!(in alloc; " samples {was} {is}")
            }
            Outcome::Refused(DayFault::Misplaced(found)) => found_words(alloc, &found),
            Outcome::Refused(why) | Outcome::Known(why) => {
                let text = day_refusal_text(alloc, why)?;
                format!(in alloc; ": {text}")
            }
        }
    }

    /// The line in words.
    fn words(self, alloc: Global, bytes: bool, path: &str) -> Result<String, AllocError>
        ensures { IfOk result (λ line. string_bytes line ≡ outcome_words bytes path.now self) }
    {
        let what = self.what();
        let why = self.why(alloc, bytes)?;
        let shown = Shown { path };
        format!(in alloc; "{what} {shown}{why}\n")
    }

    /// The members of JSON that stand after the path.
    fn members(self, alloc: Global, bytes: bool) -> Result<String, AllocError>
        ensures { IfOk result (λ text. string_bytes text ≡ outcome_members bytes self) }
    {
        match self {
            Outcome::Done(repacked) => repacked_json(alloc, repacked, bytes),
            Outcome::Same(repacked) => repacked_json(alloc, repacked, bytes),
            Outcome::Young => Ok(String::new(alloc)),
            Outcome::Skipped(fault) => {
                let text = JsonText {
                    text: skip_text(fault),
                };
                format!(in alloc; ",\"text\":\"{text}\"")
            }
            Outcome::Refused(DayFault::NotShown) => Ok(String::new(alloc)),
            Outcome::Refused(DayFault::Differs) => Ok(String::new(alloc)),
            Outcome::Refused(DayFault::Changed) => Ok(String::new(alloc)),
            Outcome::Refused(DayFault::Larger(repacked)) => repacked_json(alloc, repacked, bytes),
            Outcome::Refused(DayFault::Shrunk(Shrinkage { was, is })) => {
                format!(in alloc; ",\"samples_was\":{was},\"samples\":{is}")
            }
            Outcome::Refused(DayFault::Misplaced(found)) => found_json(alloc, &found),
            Outcome::Refused(why) | Outcome::Known(why) => day_refusal_json(alloc, why),
        }
    }

    /// The member of JSON that tells the reason, if one is known. Of a folder without a list it is the one given.
    fn reason_json(self, alloc: Global, listing: Option<io::Error>) -> Result<String, AllocError>
        ensures { IfOk result (λ text. IsOutcomeReason self (string_bytes text)) }
    {
        match self {
            Outcome::Refused(DayFault::CannotOpen(unopened))
            | Outcome::Known(DayFault::CannotOpen(unopened)) => reason_json(alloc, unopened.why),
            Outcome::Refused(DayFault::Listing) | Outcome::Known(DayFault::Listing) => {
                reason_json(alloc, listing)
            }
            _ => Ok(String::new(alloc)),
        }
    }

    /// The line in JSON.
    fn json(
        self,
        alloc: Global,
        bytes: bool,
        path: &str,
        listing: Option<io::Error>,
    ) -> Result<String, AllocError>
        ensures { IfOk result (λ line. IsOutcomeJson bytes path.now self (string_bytes line)) }
    {
        let what = self.what();
        let why = self.members(alloc, bytes)?;
        let reason = self.reason_json(alloc, listing)?;
        let shown = JsonText { text: path };
        format!(in alloc; "{{\"what\":\"{what}\",\"path\":\"{shown}\"{why}{reason}}}\n")
    }

    /// The line that tells it of the entry with this path.
    fn line(
        self,
        alloc: Global,
        asked: &DayOptions,
        path: &str,
        listing: Option<io::Error>,
    ) -> Result<String, AllocError>
        ensures { IfOk result (λ line. IsOutcomeLine asked.now.telling.form asked.now.bytes path.now self (string_bytes line)) }
    {
        match asked.telling.form {
            ListForm::Words => self.words(alloc, asked.bytes, path),
            ListForm::Json => self.json(alloc, asked.bytes, path, listing),
        }
    }

    /// Whether it is to be looked at.
    fn is_to_look_at(self) -> bool
        ensures { result ≡ is_to_look_at self }
    {
        matches!(self, Outcome::Refused(_))
    }

    /// What is printed of the entry with this path: its line, or nothing if it is left out. Of a folder without a list the
    /// system's reason is given.
    pub fn told(
        self,
        alloc: Global,
        days: &DayOptions,
        path: &str,
        listing: Option<io::Error>,
    ) -> Result<String, AllocError>
        ensures { (channel : List ℕ) → IfOk result (λ line.
            IsLineBy days.now (record { path = path.now; channel = channel; outcome = self }) (string_bytes line)) }
    {
        if days.telling.quiet && !self.is_to_look_at() {
            return Ok(String::new(alloc));
        }
        self.line(alloc, days, path, listing)
    }
}
