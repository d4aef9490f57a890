//! What is found of an entry of a folder, and its line.
ghost use Rattle.std.specs.Prelude.{◌≡◌, ◌↔◌, IfOk, IsTrue};
ghost use Rattle.std.specs.String.{string_bytes};
ghost use Rattle.msr_verify.specs.Entries.{is_unverified, judgement_alone, judgement_of};
ghost use Rattle.msr_verify.specs.Known.{judged_known_as, judged_refusal_line};
ghost use Rattle.msr_verify.specs.Lines.{IsJudgementJson, IsJudgementLine, IsOfSystem, IsReasonJson, IsRefusalOfSystem, IsToldLine, day_side_json, place_json, refusal_json, refused_before, side_json, text_missing, what_text, why_json, why_text, words_line};

use crate::judging::{Finding, VerifyFault};
use msr_folders::{JsonText, Shown, fault_json, found_json, found_words, reason_json, skip_text};
use msr_input::ReadFault;
use msr_options::{DayName, Known, ListForm, Verifying};
use msr_sds::SdsFault;
use std::alloc::{AllocError, Global};
use std::{fmt, io};

/// Why a day or a folder is refused.
#[derive(Clone, Copy)]
pub(crate) enum Refusal {
    /// The day's own file is no regular file, or could not be opened, or was gone when it was looked at.
    FileUnopened,
    /// Its records are no regular file, or could not be opened.
    RecordsUnopened,
    /// Its report is no regular file, or could not be opened.
    ReportUnopened,
    /// The records may be the day's own file under another name.
    SameFile,
    /// A folder of the archive could not be listed, or has a name that is not UTF-8.
    Listing,
    /// A folder of the records could not be listed, or has a name that is not UTF-8.
    RecordsListing,
    /// One of the files of the day is at fault.
    Day(VerifyFault),
}

impl fmt::Display for Refusal {
    ghost use Rattle.std.specs.Prelude.{Some};
    ghost use Rattle.msr_verify.specs.Lines.{refusal_text};

    ghost output = { λ refusal. Some (refusal_text refusal) };

    fn fmt<W: fmt::Write>(&self, f: &mut fmt::Formatter<W>) -> fmt::Result {
        let text = match self {
            Refusal::FileUnopened => "file: cannot open",
            Refusal::RecordsUnopened => "records: cannot open",
            Refusal::ReportUnopened => "report: cannot open",
            Refusal::SameFile => "records: the file itself",
            Refusal::Listing => "listing",
            Refusal::RecordsListing => "records: listing",
            Refusal::Day(fault) => return write!(f, "{fault}"),
        };
        f.write_str(text)
    }
}

/// The member that tells which file of a day is at fault.
fn day_side_json<'a>(fault: VerifyFault) -> &'a str
    ensures { result.now ≡ day_side_json fault }
{
    match fault {
        VerifyFault::File(_) => ",\"side\":\"file\"",
        VerifyFault::Records(_) => ",\"side\":\"records\"",
        VerifyFault::ReportLine(_) | VerifyFault::ReportRead | VerifyFault::ReportMemory => {
            ",\"side\":\"report\""
        }
    }
}

impl Refusal {
    /// The member that tells whose fault it is.
    fn side_json<'a>(self) -> &'a str
        ensures { result.now ≡ side_json self }
    {
        match self {
            Refusal::Listing => "",
            Refusal::FileUnopened => ",\"side\":\"file\"",
            Refusal::RecordsUnopened | Refusal::SameFile | Refusal::RecordsListing => {
                ",\"side\":\"records\""
            }
            Refusal::ReportUnopened => ",\"side\":\"report\"",
            Refusal::Day(fault) => day_side_json(fault),
        }
    }

    /// Those that tell where a file is at fault, and what is there.
    fn place_json(self, alloc: Global) -> Result<String, AllocError>
        ensures { IfOk result (λ text. string_bytes text ≡ place_json self) }
    {
        match self {
            Refusal::Day(VerifyFault::File(ReadFault::Input(found))) => fault_json(alloc, found),
            Refusal::Day(VerifyFault::Records(ReadFault::Input(found))) => fault_json(alloc, found),
            Refusal::Day(VerifyFault::ReportLine(line)) => format!(in alloc; ",\"line\":{line}"),
            _ => Ok(String::new(alloc)),
        }
    }

    /// Whether a call of the system has failed.
    fn is_of_system(self) -> bool
        ensures { IsTrue result ↔ IsRefusalOfSystem self }
    {
        match self {
            Refusal::FileUnopened
            | Refusal::RecordsUnopened
            | Refusal::ReportUnopened
            | Refusal::Listing
            | Refusal::RecordsListing => true,
            Refusal::SameFile | Refusal::Day(_) => false,
        }
    }

    /// The members that tell it.
    fn json(self, alloc: Global) -> Result<String, AllocError>
        ensures { IfOk result (λ text. string_bytes text ≡ refusal_json self) }
    {
        let side = self.side_json();
        let place = self.place_json(alloc)?;
        let text = self.to_string(alloc)?;
        let text = JsonText {
            text: text.as_str(),
        };
        format!(in alloc; "{side}{place},\"text\":\"{text}\"")
    }
}

/// What was found of an entry.
#[derive(Clone, Copy)]
pub(crate) enum Judgement {
    /// Records and report of the day are there, and show what they have to.
    Verified,
    /// There are no records of the day, and the report shows that its own file is records, and the fewest.
    InPlace,
    /// There is no report, or there are no records, and that is not shown.
    Missing,
    /// The report does not show that the records are the fewest.
    NotShown,
    /// The records have other data than the day's own file.
    Differs,
    /// Its segments do not belong to it, by the one of this name. Else it would be verified, or in place.
    Misplaced(DayName),
    Refused(Refusal),
    Skipped(SdsFault),
    /// Records of a day that the archive does not have.
    Orphan,
    /// It is refused, by a line that is known.
    Known(Refusal),
    /// It is missing, and a line that is known tells that it was refused.
    KnownMissing,
}

/// How a line begins that tells that the entry with this path was refused.
fn refused_before(alloc: Global, path: &str) -> Result<String, AllocError>
    ensures { IfOk result (λ text. string_bytes text ≡ refused_before path.now) }
{
    let shown = Shown { path };
    format!(in alloc; "refused {shown}: ")
}

/// The line in words, without its line feed, of the entry with this path that is refused so.
fn refusal_line(alloc: Global, path: &str, refusal: Refusal) -> Result<String, AllocError>
    ensures { IfOk result (λ line. string_bytes line ≡ judged_refusal_line path.now refusal) }
{
    let shown = Shown { path };
    format!(in alloc; "refused {shown}: {refusal}")
}

/// Why a missing day was refused, as a line that is known tells it.
fn text_missing(alloc: Global, known: Known<'_>, path: &str) -> Result<String, AllocError>
    ensures { IfOk result (λ text. string_bytes text ≡ text_missing known.entry path.now) }
{
    let before = refused_before(alloc, path)?;
    String::from_str(alloc, known.after(before.as_str()).unwrap_or(""))
}

/// What is told of a day with this answer.
pub(crate) fn judgement_of(answer: Result<Finding, VerifyFault>) -> Judgement
    ensures { result ≡ judgement_of answer }
{
    match answer {
        Ok(Finding::Verified) => Judgement::Verified,
        Ok(Finding::NotShown) => Judgement::NotShown,
        Ok(Finding::Differs) => Judgement::Differs,
        Err(fault) => Judgement::Refused(Refusal::Day(fault)),
    }
}

/// What is told of a day without records with this answer.
pub(crate) fn judgement_alone(answer: Result<bool, VerifyFault>) -> Judgement
    ensures { result ≡ judgement_alone answer }
{
    match answer {
        Ok(true) => Judgement::InPlace,
        Ok(false) => Judgement::Missing,
        Err(fault) => Judgement::Refused(Refusal::Day(fault)),
    }
}

impl Judgement {
    /// The first word of its line.
    fn what<'a>(self) -> &'a str
        ensures { result.now ≡ what_text self }
    {
        match self {
            Judgement::Verified => "verified",
            Judgement::InPlace => "inplace",
            Judgement::Missing => "missing",
            Judgement::NotShown => "notshown",
            Judgement::Differs => "differs",
            Judgement::Misplaced(_) => "misplaced",
            Judgement::Refused(_) => "refused",
            Judgement::Skipped(_) => "skipped",
            Judgement::Orphan => "orphan",
            Judgement::Known(_) | Judgement::KnownMissing => "known",
        }
    }

    /// What stands after the path.
    fn why(self, alloc: Global, known: Known<'_>, path: &str) -> Result<String, AllocError>
        ensures { IfOk result (λ text. string_bytes text ≡ why_text known.entry path.now self) }
    {
        match self {
            Judgement::Misplaced(found) => found_words(alloc, &found),
            Judgement::Refused(refusal) | Judgement::Known(refusal) => {
                format!(in alloc; ": {refusal}")
            }
            Judgement::KnownMissing => {
                let text = text_missing(alloc, known, path)?;
                format!(in alloc; ": {text}")
            }
            Judgement::Skipped(fault) => format!(in alloc; ": {}", skip_text(fault)),
            _ => Ok(String::new(alloc)),
        }
    }

    /// The line in words.
    fn words(self, alloc: Global, known: Known<'_>, path: &str) -> Result<String, AllocError>
        ensures { IfOk result (λ line. string_bytes line ≡ words_line known.entry path.now self) }
    {
        let what = self.what();
        let why = self.why(alloc, known, path)?;
        let shown = Shown { path };
        format!(in alloc; "{what} {shown}{why}\n")
    }

    /// The members of JSON that tell why.
    fn why_json(self, alloc: Global, known: Known<'_>, path: &str) -> Result<String, AllocError>
        ensures { IfOk result (λ text. string_bytes text ≡ why_json known.entry path.now self) }
    {
        match self {
            Judgement::Misplaced(found) => found_json(alloc, &found),
            Judgement::Refused(refusal) | Judgement::Known(refusal) => refusal.json(alloc),
            Judgement::KnownMissing => {
                let text = text_missing(alloc, known, path)?;
                let text = JsonText {
                    text: text.as_str(),
                };
                format!(in alloc; ",\"text\":\"{text}\"")
            }
            Judgement::Skipped(fault) => {
                let text = JsonText {
                    text: skip_text(fault),
                };
                format!(in alloc; ",\"text\":\"{text}\"")
            }
            _ => Ok(String::new(alloc)),
        }
    }

    /// Whether a call of the system has failed.
    fn is_of_system(self) -> bool
        ensures { IsTrue result ↔ IsOfSystem self }
    {
        match self {
            Judgement::Refused(refusal) | Judgement::Known(refusal) => refusal.is_of_system(),
            _ => false,
        }
    }

    /// The member of JSON that tells the system's reason, if a call has failed and there is one.
    fn reason_json(self, alloc: Global, reason: Option<io::Error>) -> Result<String, AllocError>
        ensures { IfOk result (λ text. IsReasonJson self (string_bytes text)) }
    {
        match reason {
            Some(reason) if self.is_of_system() => reason_json(alloc, Some(reason)),
            _ => Ok(String::new(alloc)),
        }
    }

    /// The line in JSON.
    fn json(
        self,
        alloc: Global,
        known: Known<'_>,
        path: &str,
        reason: Option<io::Error>,
    ) -> Result<String, AllocError>
        ensures { IfOk result (λ line. IsJudgementJson known.entry path.now self (string_bytes line)) }
    {
        let what = self.what();
        let why = self.why_json(alloc, known, path)?;
        let reason = self.reason_json(alloc, reason)?;
        let shown = JsonText { text: path };
        format!(in alloc; "{{\"what\":\"{what}\",\"path\":\"{shown}\"{why}{reason}}}\n")
    }

    /// The line that tells it of the entry with this path.
    fn line(
        self,
        alloc: Global,
        asked: &Verifying<'_>,
        path: &str,
        reason: Option<io::Error>,
    ) -> Result<String, AllocError>
        ensures { IfOk result (λ line. IsJudgementLine asked.now.telling.form asked.now.known path.now self (string_bytes line)) }
    {
        match asked.telling.form {
            ListForm::Words => self.words(alloc, asked.known, path),
            ListForm::Json => self.json(alloc, asked.known, path, reason),
        }
    }

    /// Whether it is to be looked at.
    fn is_unverified(self) -> bool
        ensures { result ≡ is_unverified self }
    {
        !matches!(
            self,
            Judgement::Verified
                | Judgement::InPlace
                | Judgement::Skipped(_)
                | Judgement::Known(_)
                | Judgement::KnownMissing
        )
    }

    /// The same, or that it is known if a line is that tells of a refusal.
    pub(crate) fn known_as(
        self,
        alloc: Global,
        known: Known<'_>,
        path: &str,
    ) -> Result<Judgement, AllocError>
        ensures { IfOk result (λ judgement. judgement ≡ judged_known_as known.entry path.now self) }
    {
        if !known.is_asked() {
            return Ok(self);
        }
        match self {
            Judgement::Refused(refusal) => {
                let line = refusal_line(alloc, path, refusal)?;
                if known.has(line.as_str()) {
                    Ok(Judgement::Known(refusal))
                } else {
                    Ok(self)
                }
            }
            Judgement::Missing => {
                let before = refused_before(alloc, path)?;
                if known.after(before.as_str()).is_some() {
                    Ok(Judgement::KnownMissing)
                } else {
                    Ok(self)
                }
            }
            _ => Ok(self),
        }
    }

    /// What is printed of the entry with this path: its line, or nothing if it is left out.
    pub(crate) fn told(
        self,
        alloc: Global,
        asked: &Verifying<'_>,
        path: &str,
        reason: Option<io::Error>,
    ) -> Result<String, AllocError>
        ensures { IfOk result (λ line.
            IsToldLine asked.now (record { path = path.now; judgement = self }) (string_bytes line)) }
    {
        if asked.telling.quiet && !self.is_unverified() {
            return Ok(String::new(alloc));
        }
        self.line(alloc, asked, path, reason)
    }
}
