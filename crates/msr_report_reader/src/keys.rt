//! What the records of a segment have in common, at the start of a text.
ghost use Rattle.std.specs.Prelude.{◌≡◌, ◌<◌, ◌++◌, ◌∷◌, ℕ, List, IfSome, IsSomeAnd, IsTrue, codes};
ghost use Rattle.std.specs.Fmt.{decimal};
ghost use Rattle.msr_report.specs.Text.{hex_text, field_text};
ghost use Rattle.msr_report_reader.specs.Fields.{EndsNumber, AreBytes, name_then, rate_then, flags_then};
ghost use Rattle.msr_header.specs.Reading.{is_quality};
ghost use Rattle.msr_rows.specs.declared.row.Key.{Key as ChannelKey};
ghost use Rattle.msr_report_reader.specs.Content.{IsReportKey, key_then};

use crate::fields::{after, counted, hex_byte, name_bytes, signed, signed_16};
use msr_rows::Key;
use msr_time::Rate;

/// So many bytes of a name and a dot.
fn dotted<const N: usize>(text: &[u8]) -> Option<([u8; N], &[u8])>
    ensures found { IfSome result (λ x. text.now ≡ field_text x.0 ++ (46 ∷ x.1.now)) }
    ensures only { (bytes rest : List ℕ) → AreBytes N bytes → text.now ≡ field_text bytes ++ (46 ∷ rest)
        → IsSomeAnd result (λ x. (x.0 ≡ bytes) × (x.1.now ≡ rest)) }
{
    let Some(read) = name_bytes::<N>(text) else {
        return None;
    };
    let (bytes, text) = read;
    let text = after(text, b".")?;
    Some((bytes, text))
}

/// The name of a channel.
#[derive(Clone, Copy)]
struct ChannelName {
    network: [u8; 2],
    station: [u8; 5],
    location: [u8; 2],
    channel: [u8; 3],
}

/// Each field of a name is so many bytes.
fn name_in_range(name: ChannelName)
    ensures network { AreBytes 2 name.network }
    ensures station { AreBytes 5 name.station }
    ensures location { AreBytes 2 name.location }
    ensures channel { AreBytes 3 name.channel }
{}

/// Network, station, location and channel, with dots between them.
fn channel_name(text: &[u8]) -> Option<(ChannelName, &[u8])>
    ensures found { IfSome result (λ x. text.now ≡ name_then x.0.network x.0.station x.0.location x.0.channel x.1.now) }
    ensures only { (key : ChannelKey) (rest : List ℕ) → IsReportKey key
        → text.now ≡ name_then key.network key.station key.location key.channel rest
        → IsSomeAnd result (λ x. x.1.now ≡ rest) }
{
    let (network, text) = dotted::<2>(text)?;
    let (station, text) = dotted::<5>(text)?;
    let (location, text) = dotted::<2>(text)?;
    let (channel, text) = name_bytes::<3>(text)?;
    let name = ChannelName {
        network,
        station,
        location,
        channel,
    };
    Some((name, text))
}

/// The factor and the multiplier of a rate.
fn rate(text: &[u8]) -> Option<(i16, i16, &[u8])>
    ensures found { IfSome result (λ x. text.now ≡ rate_then x.0 x.1 x.2.now) }
    ensures only { (key : ChannelKey) (rest : List ℕ) → IsReportKey key → EndsNumber rest
        → text.now ≡ rate_then key.rate.factor key.rate.multiplier rest
        → IsSomeAnd result (λ x. (x.0 ≡ key.rate.factor) × (x.1 ≡ key.rate.multiplier) × (x.2.now ≡ rest)) }
{
    let (factor, text) = signed_16(text, b" rate ")?;
    let (multiplier, text) = signed_16(text, b" ")?;
    Some((factor, multiplier, text))
}

/// The two hexadecimal digits that stand after the word.
fn byte_after<'a>(text: &'a [u8], word: &[u8]) -> Option<(u8, &'a [u8])>
    ensures found { IfSome result (λ x. text.now ≡ word.now ++ (hex_text x.0 ++ x.1.now)) }
    ensures only { (n : ℕ) (rest : List ℕ) → n < 256 → text.now ≡ word.now ++ (hex_text n ++ rest)
        → IsSomeAnd result (λ x. (x.0 ≡ n) × (x.1.now ≡ rest)) }
{
    hex_byte(after(text, word)?)
}

/// The activity, clock and data quality flags.
fn flags(text: &[u8]) -> Option<(u8, u8, u8, &[u8])>
    ensures found { IfSome result (λ x. text.now ≡ flags_then x.0 x.1 x.2 x.3.now) }
    ensures only { (key : ChannelKey) (rest : List ℕ) → IsReportKey key
        → text.now ≡ flags_then key.activity key.clock key.data_quality rest
        → IsSomeAnd result (λ x. x.3.now ≡ rest) }
{
    let Some((activity, text)) = byte_after(text, b" flags ") else {
        return None;
    };
    let Some((clock, text)) = byte_after(text, b" ") else {
        return None;
    };
    let Some((quality, text)) = byte_after(text, b" ") else {
        return None;
    };
    Some((activity, clock, quality, text))
}

/// The timing quality.
fn timing(text: &[u8]) -> Option<(u8, &[u8])>
    ensures found { IfSome result (λ x. text.now ≡ codes " timing " ++ (decimal x.0 ++ x.1.now)) }
    ensures only { (n : ℕ) (rest : List ℕ) → n < 256 → EndsNumber rest
        → text.now ≡ codes " timing " ++ (decimal n ++ rest)
        → IsSomeAnd result (λ x. (x.0 ≡ n) × (x.1.now ≡ rest)) }
{
    let (n, text) = counted(text, b" timing ")?;
    if n > 255 {
        return None;
    }
    Some((n as u8, text))
}

/// The word `segment`, the name and the quality.
fn named(text: &[u8]) -> Option<(ChannelName, u8, &[u8])>
    ensures found { IfSome result (λ x. text.now ≡ codes "segment "
        ++ name_then x.0.network x.0.station x.0.location x.0.channel (32 ∷ (x.1 ∷ x.2.now))) }
    ensures quality { IfSome result (λ x. IsTrue (is_quality x.1)) }
    ensures only { (key : ChannelKey) (rest : List ℕ) → IsReportKey key
        → text.now ≡ codes "segment "
        ++ name_then key.network key.station key.location key.channel (32 ∷ (key.quality ∷ rest))
        → IsSomeAnd result (λ x. x.2.now ≡ rest) }
{
    if let Some(text) = after(text, b"segment ")
        && let Some((name, text)) = channel_name(text)
        && let Some(text) = after(text, b" ")
        && let Some((quality, text)) = quality(text)
    {
        return Some((name, quality, text));
    }
    None
}

/// The quality indicator.
fn quality(text: &[u8]) -> Option<(u8, &[u8])>
    ensures found { IfSome result (λ x. text.now ≡ x.0 ∷ x.1.now) }
    ensures quality { IfSome result (λ x. IsTrue (is_quality x.0)) }
    ensures only { (quality : ℕ) (rest : List ℕ) → IsTrue (is_quality quality) → text.now ≡ quality ∷ rest
        → IsSomeAnd result (λ x. (x.0 ≡ quality) × (x.1.now ≡ rest)) }
{
    let (first, rest) = text.split_first()?;
    match *first {
        b'D' | b'R' | b'Q' | b'M' => Some((*first, rest)),
        _ => None,
    }
}

/// What a segment's line says up to the timing quality.
pub(crate) fn channel_key(text: &[u8]) -> Option<(Key, &[u8])>
    ensures found { IfSome result (λ x. text.now ≡ key_then x.0 x.1.now) }
    ensures is_key { IfSome result (λ x. IsReportKey x.0) }
    ensures only { (key : ChannelKey) (rest : List ℕ) → IsReportKey key → EndsNumber rest → text.now ≡ key_then key rest
        → IsSomeAnd result (λ x. x.1.now ≡ rest) }
{
    let Some((name, quality, text)) = named(text) else {
        return None;
    };
    let Some((factor, multiplier, text)) = rate(text) else {
        return None;
    };
    let Some(rate) = Rate::new(factor, multiplier) else {
        return None;
    };
    let Some((activity, clock, data_quality, text)) = flags(text) else {
        return None;
    };
    let Some((correction, text)) = signed(text, b" correction ") else {
        return None;
    };
    let Some((timing, text)) = timing(text) else {
        return None;
    };
    name_in_range(name);
    let ChannelName {
        network,
        station,
        location,
        channel,
    } = name;
    let key = Key {
        network,
        station,
        location,
        channel,
        quality,
        rate,
        activity,
        clock,
        data_quality,
        correction,
        timing,
    };
    Some((key, text))
}
