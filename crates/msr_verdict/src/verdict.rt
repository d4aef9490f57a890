//! What is said of packed records.
use std::fmt;

/// Whether a report shows that every segment of an input stands in the fewest records.
#[derive(Clone, Copy, Debug, PartialEq, Eq)]
pub enum Verdict {
    /// It does.
    Least,
    /// It does not. There may still be no fewer.
    NotShown,
}

impl Verdict {
    ghost use Rattle.std.specs.Prelude.{◌≡◌};

    /// The exit status of a program that ends with this verdict.
    pub fn status(&self) -> u8
        ensures least { self.now ≡ Verdict.Least → result ≡ 0 }
        ensures not_shown { self.now ≡ Verdict.NotShown → result ≡ 3 }
    {
        match self {
            Verdict::Least => 0,
            Verdict::NotShown => 3,
        }
    }
}

impl fmt::Display for Verdict {
    ghost use Rattle.std.specs.Prelude.{Some};
    ghost use Rattle.msr_verdict.specs.Texts.{verdict_text};

    ghost output = { λ verdict. Some (verdict_text verdict) };

    fn fmt<W: fmt::Write>(&self, f: &mut fmt::Formatter<W>) -> fmt::Result {
        f.write_str(match self {
            Verdict::Least => "least",
            Verdict::NotShown => "not shown",
        })
    }
}
