//! Tasks that also write a text: a repack with the text of its report, a check with the line of its verdict.
ghost use Rattle.std.specs.Prelude.{◌≡◌, ◌⊎◌, ◌↔◌, ℕ, IfOk, IsErrOf, OnErr};
ghost use Rattle.std.specs.String.{string_bytes};
ghost use Rattle.msr_devices.specs.Device.{CanCountCall, CountsFew, HasFailed};
ghost use Rattle.msr_tool.specs.Checking.{GivesReport};
ghost use Rattle.msr_tool.specs.KeepingUp.{HasKeptUp};
ghost use Rattle.msr_tool.specs.Tasks.{Reports, TellsFailures, TellsVerdict, verdict_line};

use crate::check::check_packed;
use crate::fault::ToolFault;
use crate::repacking::{feed, repack};
use msr_devices::{Sink, Source, write_all};
use msr_options::Options;
use msr_report::Report;
use msr_verdict::Verdict;
use std::alloc::{AllocError, Global};

/// Repacks as `repack` does, and then writes the text of this very report to `text`. Nothing goes there before the
/// sink has accepted all records. The first device that fails ends the call, so no two have failed.
pub fn repack_and_report<R: Source, W: Sink, T: Sink>(
    alloc: Global,
    source: &mut R,
    records: &mut W,
    text: &mut T,
    options: Options,
) -> Result<Report, ToolFault>
    requires source { CanCountCall (R.device source.old) }
    requires records { CanCountCall (W.device records.old) }
    requires text { CanCountCall (T.device text.old) }
    ensures answer { Reports options (R.device source.old) (W.device records.old) (W.device records.new)
        (T.device text.old) (T.device text.new) result }
    ensures failures { TellsFailures (text.new ≡ text.old) (R.device source.old) (R.device source.new)
        (W.device records.old) (W.device records.new) (T.device text.old) (T.device text.new) result }
{
    let report = repack(alloc, source, records, options)?;
    report.write_text(alloc, text)?;
    Ok(report)
}

/// Repacks as `feed` does, and then writes the text of the report: whenever it reads, all records but those of the
/// last samples were written.
pub fn feed_and_report<R: Source, W: Sink, T: Sink>(
    alloc: Global,
    source: &mut R,
    records: &mut W,
    text: &mut T,
    options: Options,
) -> Result<Report, ToolFault>
    requires source { CanCountCall (R.device source.old) }
    requires records { CanCountCall (W.device records.old) }
    requires text { CanCountCall (T.device text.old) }
    ensures answer { Reports options (R.device source.old) (W.device records.old) (W.device records.new)
        (T.device text.old) (T.device text.new) result }
    ensures failures { TellsFailures (text.new ≡ text.old) (R.device source.old) (R.device source.new)
        (W.device records.old) (W.device records.new) (T.device text.old) (T.device text.new) result }

    // When a read fails, all was written but at most two longest runs of samples at the end.
    ensures kept_up { IsErrOf result ToolFault.Read → HasKeptUp options (R.device source.old) (R.device source.new)
        (W.device records.old) (W.device records.new) }
{
    let fed = feed(alloc, source, records, options)?;
    fed.write_text(alloc, text)?;
    Ok(fed)
}

/// The line that tells a verdict.
fn line_of(alloc: Global, verdict: Verdict) -> Result<String, AllocError>
    ensures { IfOk result (λ line. string_bytes line ≡ verdict_line verdict) }
{
    let line = format!(in alloc; "{verdict}\n")?;
    Ok(line)
}

/// Checks as `check_packed` does, and then writes the line of the verdict to `out`.
pub fn check_and_tell<R: Source, Q: Source, T: Sink>(
    alloc: Global,
    packed: &mut R,
    report: &mut Q,
    out: &mut T,
) -> Result<Verdict, ToolFault>
    requires packed { CanCountCall (R.device packed.old) }
    requires report { CanCountCall (Q.device report.old) }
    requires out { CanCountCall (T.device out.old) }

    // What was written and what is answered, for the bytes that the sources have.
    ensures answer { TellsVerdict (R.device packed.old) (Q.device report.old)
        (T.device out.old) (T.device out.new) result }

    // A failure of a device is answered as such, and nothing else is.
    ensures read { IsErrOf result ToolFault.Read ↔ (HasFailed (R.device packed.old) (R.device packed.new)
        ⊎ HasFailed (Q.device report.old) (Q.device report.new)) }
    ensures write { IsErrOf result ToolFault.Write ↔ HasFailed (T.device out.old) (T.device out.new) }
    ensures untold { OnErr result (result ≡ Err ToolFault.Write ⊎ (out.new ≡ out.old)) }

    // The report is read first, as `check_packed` says.
    ensures untouched { (line : ℕ) → result ≡ Err (ToolFault.Report line) → packed.new ≡ packed.old }
    ensures unread { HasFailed (Q.device report.old) (Q.device report.new) → packed.new ≡ packed.old }
    ensures report_first { (packed.new ≡ packed.old) ⊎ GivesReport (Q.device report.old) }
    ensures few_packed { CountsFew (R.device packed.old) (R.device packed.new) }
    ensures few_report { CountsFew (Q.device report.old) (Q.device report.new) }
    ensures few_out { CountsFew (T.device out.old) (T.device out.new) }
{
    let verdict = check_packed(alloc, packed, report)?;
    let line = line_of(alloc, verdict)?;
    write_all(out, line.as_bytes())?;
    Ok(verdict)
}
