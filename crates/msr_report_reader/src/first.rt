//! The lines before the segments.
ghost use Rattle.std.specs.Prelude.{◌≡◌, ◌++◌, ℕ, List, IfOk, IfErr};
ghost use Rattle.msr_base.specs.Lengths.{bytes_of};
ghost use Rattle.msr_report_reader.specs.Content.{IsFirst, first_then, lines_before};
ghost use Rattle.msr_report_reader.specs.Fault.{IsFaultLine};
ghost use Rattle.msr_report_reader.specs.Draft.{IsEnough};

use crate::fields::{after, may_begin};
use crate::lines::{counts, kinds, record_length, tolerance};
use msr_base::{Counts, Kinds, Length};

/// What the lines before the segments say.
#[derive(Clone, Copy)]
pub(crate) struct FirstLines {
    pub length: Length,
    pub kinds: Kinds,
    pub tolerance: u32,
    pub counts: Counts,
}

/// The first of these lines that is at fault.
pub(crate) struct FaultAt<'a> {
    /// Its number, from 1.
    pub line: u64,
    /// The text from it on.
    pub text: &'a [u8],
    /// Whether more bytes may make this text begin with the line's word.
    pub begins: bool,
}

/// How many lines stand before the segments.
pub(crate) fn lines_before(kinds: Kinds) -> u64
    ensures { result ≡ lines_before kinds }
{
    match kinds {
        Kinds::All => 4,
        Kinds::WithoutInt24 => 5,
    }
}

/// The lines before the segments.
pub(crate) fn first_lines(text: &[u8]) -> Result<(FirstLines, &[u8]), FaultAt>
    ensures found { IfOk result (λ x. text.now ≡ first_then (bytes_of x.0.length) x.0.tolerance x.0.kinds x.0.counts
        x.1.now) }
    ensures is_first { IfOk result (λ x. IsFirst (bytes_of x.0.length) x.0.tolerance x.0.counts) }
    ensures fault { IfErr result (λ e. (more : List ℕ) → IsEnough e.begins e.text.now more
        → IsFaultLine (text.now ++ more) e.line) }
{
    let Some(second) = after(text, b"msrepack 1\n") else {
        return Err(FaultAt {
            line: 1,
            text,
            begins: may_begin(text, b"msrepack 1\n"),
        });
    };
    let Some((length, third)) = record_length(second) else {
        return Err(FaultAt {
            line: 2,
            text: second,
            begins: may_begin(second, b"length "),
        });
    };
    let Some((tolerance, fourth)) = tolerance(third) else {
        return Err(FaultAt {
            line: 3,
            text: third,
            begins: may_begin(third, b"tolerance "),
        });
    };
    let (kinds, last) = kinds(fourth);
    let Some((counts, rest)) = counts(last) else {
        return Err(FaultAt {
            line: lines_before(kinds),
            text: last,
            begins: may_begin(last, b"read ") | may_begin(last, b"kinds ") & (kinds == Kinds::All),
        });
    };
    let first = FirstLines {
        length,
        kinds,
        tolerance,
        counts,
    };
    Ok((first, rest))
}
