//! Laws of the texts of reports, each the contract of a function that does nothing.
ghost use Rattle.std.specs.Prelude.{◌≡◌, ℕ, ℤ, List};
ghost use Rattle.msr_rows.specs.declared.row.Key.{Key};
ghost use Rattle.msr_report.specs.Proper.{IsProper};
ghost use Rattle.msr_report.specs.Text.{IsListLine, IsReportText};
ghost use Rattle.msr_report.specs.declared.report.Report.{Report as AReport};

/// A report has at most one text, and so has a line of a list.
pub fn one_text()
    ensures report { (report : AReport) (text other : List ℕ) → IsReportText report text
        → IsReportText report other → text ≡ other }
    ensures line { (key : Key) (start : ℤ) (samples : ℕ) (text other : List ℕ)
        → IsListLine key start samples text → IsListLine key start samples other → text ≡ other }
{}

/// Each proper report has a text.
pub fn has_text()
    ensures { (report : AReport) → IsProper report → (text : List ℕ) × IsReportText report text }
{}
