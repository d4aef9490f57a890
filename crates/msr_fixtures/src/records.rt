//! Records of the one header.

use crate::named::{Edit, edit_all};
use msr_base::Order;

/// 301 samples from 2020-01-01 00:00:00 at 20 per second, Steim-2, in a record of 256 bytes: the fixed section of 48
/// bytes, blockette 1000 and blockette 1001.
const HEADER: [u8; 64] = [
    0x30, 0x30, 0x30, 0x30, 0x30, 0x31, 0x44, 0x20, 0x54, 0x45, 0x53, 0x54, 0x20, 0x30, 0x30, 0x42,
    0x48, 0x5a, 0x58, 0x58, 0x07, 0xe4, 0x00, 0x01, 0x00, 0x00, 0x00, 0x00, 0x00, 0x00, 0x01, 0x2d,
    0x00, 0x14, 0x00, 0x01, 0x00, 0x00, 0x00, 0x02, 0x00, 0x00, 0x00, 0x00, 0x00, 0x40, 0x00, 0x30,
    0x03, 0xe8, 0x00, 0x38, 0x0b, 0x01, 0x08, 0x00, 0x03, 0xe9, 0x00, 0x00, 0x00, 0x00, 0x00, 0x03,
];

/// The header with each of its numbers in little-endian order.
const LITTLE_HEADER: [u8; 64] = [
    0x30, 0x30, 0x30, 0x30, 0x30, 0x31, 0x44, 0x20, 0x54, 0x45, 0x53, 0x54, 0x20, 0x30, 0x30, 0x42,
    0x48, 0x5a, 0x58, 0x58, 0xe4, 0x07, 0x01, 0x00, 0x00, 0x00, 0x00, 0x00, 0x00, 0x00, 0x2d, 0x01,
    0x14, 0x00, 0x01, 0x00, 0x00, 0x00, 0x00, 0x02, 0x00, 0x00, 0x00, 0x00, 0x40, 0x00, 0x30, 0x00,
    0xe8, 0x03, 0x38, 0x00, 0x0b, 0x01, 0x08, 0x00, 0xe9, 0x03, 0x00, 0x00, 0x00, 0x00, 0x00, 0x03,
];

/// The instant of 2020-01-01 00:00:00, at which the records begin.
pub const START: i64 = 1_577_836_800_000_000;

/// The header, after some edits.
pub fn header_bytes(edits: &[Edit<'_>]) -> [u8; 64] {
    let mut bytes = HEADER;
    edit_all(Order::Big, &mut bytes, edits);
    bytes
}

/// The header before bytes of 0, after some edits.
pub fn record(edits: &[Edit<'_>]) -> [u8; 256] {
    record_of_words([0; 4], edits)
}

/// The header in little-endian order before bytes of 0, after some edits.
pub fn little_record(edits: &[Edit<'_>]) -> [u8; 256] {
    let mut bytes = [0; 256];
    bytes[..64].copy_from_slice(&LITTLE_HEADER);
    edit_all(Order::Little, &mut bytes, edits);
    bytes
}

/// The header before three frames in which each data word is the same, after some edits.
pub fn record_of_words(word: [u8; 4], edits: &[Edit<'_>]) -> [u8; 256] {
    let mut bytes = [0; 256];
    bytes[..64].copy_from_slice(&HEADER);
    for place in 19..64 {
        bytes[4 * place..4 * place + 4].copy_from_slice(&word);
    }
    edit_all(Order::Big, &mut bytes, edits);
    bytes
}

/// The record of 301 samples of 0, seven differences in a word, after some edits.
pub fn steim_record(edits: &[Edit<'_>]) -> [u8; 256] {
    let mut bytes = record_of_words(
        [0x80, 0x00, 0x00, 0x00],
        &[("64", "03ffffff"), ("128", "3fffffff"), ("192", "3fffffff")],
    );
    edit_all(Order::Big, &mut bytes, edits);
    bytes
}

/// The record of 48 samples of 0 as numbers of 32 bits, after some edits.
pub fn int32_record(edits: &[Edit<'_>]) -> [u8; 256] {
    let mut bytes = record(&[("samples", "48"), ("encoding", "3"), ("frames", "0")]);
    edit_all(Order::Big, &mut bytes, edits);
    bytes
}
