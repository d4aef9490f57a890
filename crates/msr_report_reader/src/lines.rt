//! The lines of a report at the start of a text: each reader answers what the line says and the text after it.
ghost use Rattle.std.specs.Prelude.{◌≡◌, ◌≢◌, ◌<◌, ◌≤◌, ◌^◌, ◌++◌, ◌∷◌, ℕ, ℤ, List, IfSome, IsSomeAnd, codes};
ghost use Rattle.std.specs.Fmt.{decimal};
ghost use Rattle.msr_time.specs.Instant.{IsInstant};
ghost use Rattle.msr_base.specs.Lengths.{bytes_of};
ghost use Rattle.msr_base.specs.RecordLength.{IsRecordLength};
ghost use Rattle.msr_base.specs.declared.kinds.Kinds.{Kinds as AChoice};
ghost use Rattle.msr_report.specs.Text.{kinds_line};
ghost use Rattle.msr_rows.specs.declared.row.Key.{Key as ChannelKey};
ghost use Rattle.msr_report_reader.specs.Content.{IsOpening, IsReportKey};

use crate::fields::{after, counted};
use crate::keys::channel_key;
use crate::times::instant;
use msr_base::{Counts, Kinds, Length};
use msr_report::kinds_line;
use msr_rows::Key;

/// The number that stands after the word and ends the line.
fn numbered<'a>(text: &'a [u8], word: &[u8]) -> Option<(u64, &'a [u8])>
    ensures found { IfSome result (λ x. text.now ≡ word.now ++ (decimal x.0 ++ (10 ∷ x.1.now))) }
    ensures only { (n : ℕ) (rest : List ℕ) → n < 2 ^ 64 → text.now ≡ word.now ++ (decimal n ++ (10 ∷ rest))
        → IsSomeAnd result (λ x. (x.0 ≡ n) × (x.1.now ≡ rest)) }
{
    let (n, text) = counted(text, word)?;
    let text = after(text, b"\n")?;
    Some((n, text))
}

/// The line of the length.
pub(crate) fn record_length(text: &[u8]) -> Option<(Length, &[u8])>
    ensures found { IfSome result (λ x. text.now ≡ codes "length " ++ (decimal (bytes_of x.0) ++ (10 ∷ x.1.now))) }
    ensures is_length { IfSome result (λ x. IsRecordLength (bytes_of x.0)) }
    ensures only { (n : ℕ) (rest : List ℕ) → IsRecordLength n → text.now ≡ codes "length " ++ (decimal n ++ (10 ∷ rest))
        → IsSomeAnd result (λ x. x.1.now ≡ rest) }
{
    let (bytes, text) = numbered(text, b"length ")?;
    let Ok(bytes) = u32::try_from(bytes) else {
        return None;
    };
    let length = Length::new(bytes)?;
    Some((length, text))
}

/// The line of the tolerance.
pub(crate) fn tolerance(text: &[u8]) -> Option<(u32, &[u8])>
    ensures found { IfSome result (λ x. text.now ≡ codes "tolerance " ++ (decimal x.0 ++ (10 ∷ x.1.now))) }
    ensures range { IfSome result (λ x. (1 ≤ x.0) × (x.0 ≤ 1_000_000)) }
    ensures only { (n : ℕ) (rest : List ℕ) → 1 ≤ n → n ≤ 1_000_000
        → text.now ≡ codes "tolerance " ++ (decimal n ++ (10 ∷ rest))
        → IsSomeAnd result (λ x. x.1.now ≡ rest) }
{
    let (n, text) = numbered(text, b"tolerance ")?;
    if n < 1 || n > 1_000_000 {
        return None;
    }
    Some((n as u32, text))
}

/// The line of the kinds, if one stands there: all five have none.
pub(crate) fn kinds(text: &[u8]) -> (Kinds, &[u8])
    ensures found { text.now ≡ kinds_line result.0 ++ result.1.now }
    ensures only { (kinds : AChoice) (rest : List ℕ) → kinds ≢ Kinds.All → text.now ≡ kinds_line kinds ++ rest
        → result.0 ≡ kinds }
{
    let fewer = Kinds::WithoutInt24;
    match after(text, kinds_line(fewer).as_bytes()) {
        Some(rest) => (fewer, rest),
        None => (Kinds::All, text),
    }
}

/// The line of the counts.
pub(crate) fn counts(text: &[u8]) -> Option<(Counts, &[u8])>
    ensures found { IfSome result (λ x. text.now ≡ codes "read "
        ++ (decimal x.0.read ++ (codes " empty " ++ (decimal x.0.empty
        ++ (codes " mismatched " ++ (decimal x.0.mismatched ++ (10 ∷ x.1.now))))))) }
    ensures only { (read empty mismatched : ℕ) (rest : List ℕ) → read < 2 ^ 64 → empty < 2 ^ 64 → mismatched < 2 ^ 64
        → text.now ≡ codes "read " ++ (decimal read ++
        (codes " empty " ++ (decimal empty ++ (codes " mismatched " ++ (decimal mismatched ++ (10 ∷ rest))))))
        → IsSomeAnd result (λ x. x.1.now ≡ rest) }
{
    let Some((read, text)) = counted(text, b"read ") else {
        return None;
    };
    let Some((empty, text)) = counted(text, b" empty ") else {
        return None;
    };
    let Some((mismatched, text)) = numbered(text, b" mismatched ") else {
        return None;
    };
    let counts = Counts {
        read,
        empty,
        mismatched,
    };
    Some((counts, text))
}

/// The two numbers of the last line.
pub(crate) fn end(text: &[u8]) -> Option<(u64, u64, &[u8])>
    ensures found { IfSome result (λ x. text.now ≡ codes "end "
        ++ (decimal x.0 ++ (codes " segments " ++ (decimal x.1 ++ (codes " records" ++ (10 ∷ x.2.now)))))) }
    ensures only { (segments records : ℕ) (rest : List ℕ) → segments < 2 ^ 64 → records < 2 ^ 64
        → text.now ≡ codes "end " ++ (decimal segments
        ++ (codes " segments " ++ (decimal records ++ (codes " records" ++ (10 ∷ rest)))))
        → IsSomeAnd result (λ x. (x.0 ≡ segments) × (x.1 ≡ records) × (x.2.now ≡ rest)) }
{
    let Some((segments, text)) = counted(text, b"end ") else {
        return None;
    };
    let Some((records, text)) = counted(text, b" segments ") else {
        return None;
    };
    let Some(text) = after(text, b" records\n") else {
        return None;
    };
    Some((segments, records, text))
}

/// What the first line of a segment says.
#[derive(Clone, Copy)]
pub(crate) struct FirstLine {
    pub key: Key,
    pub start: i64,
    pub samples: u64,
    pub records: u64,
}

/// The first line of a segment.
pub(crate) fn opening(text: &[u8]) -> Option<(FirstLine, &[u8])>
    ensures is_key { IfSome result (λ x. IsReportKey x.0.key) }
    ensures range { IfSome result (λ x. IsInstant x.0.start) }
    ensures found { IfSome result (λ x. IsOpening x.0.key x.0.start x.0.samples x.0.records x.1.now text.now) }
    ensures only { (key : ChannelKey) (start : ℤ) (samples records : ℕ) (rest : List ℕ) → IsReportKey key
        → samples < 2 ^ 64 → records < 2 ^ 64
        → IsOpening key start samples records rest text.now
        → IsSomeAnd result (λ x. (x.0.records ≡ records) × (x.1.now ≡ rest)) }
{
    let Some((key, text)) = channel_key(text) else {
        return None;
    };
    let Some(text) = after(text, b" start ") else {
        return None;
    };
    let Some((start, text)) = instant(text) else {
        return None;
    };
    let Some((samples, text)) = counted(text, b" samples ") else {
        return None;
    };
    let Some((records, text)) = numbered(text, b" records ") else {
        return None;
    };
    let line = FirstLine {
        key,
        start,
        samples,
        records,
    };
    Some((line, text))
}
