//! The inputs: the two sample files, and a record whose reverse constant does not agree.

use msr_fixtures::header_bytes;
use std::alloc::{AllocError, Global};

/// A record of 4096 bytes with this header and these words after it.
fn long_record(alloc: Global, header: &[u8], words: &[u8]) -> Result<Vec<u8>, AllocError> {
    let mut record = header.to_vec(alloc)?;
    record.extend_from_slice(words)?;
    record.resize(4096, 0)?;
    Ok(record)
}

/// A record of 4096 bytes with 302 samples of 0 from 2020-01-01 00:00:00 on, 20 a second.
pub fn zeros(alloc: Global) -> Result<Vec<u8>, AllocError> {
    let header = header_bytes(&[
        ("samples", "302"),
        ("encoding", "3"),
        ("exponent", "12"),
        ("frames", "0"),
    ]);
    long_record(alloc, &header, &[])
}

/// A record of 4096 bytes with one sample of 0, whose reverse constant is 1.
pub fn mismatched(alloc: Global) -> Result<Vec<u8>, AllocError> {
    let header = header_bytes(&[("samples", "1"), ("exponent", "12"), ("frames", "0")]);
    long_record(alloc, &header, &[1, 0, 0, 0, 0, 0, 0, 0, 0, 0, 0, 1])
}

/// A wave that dies down, as the samples of each record of the second sample file.
const WAVE: &[i16] = &[
    0, 957, 1765, 2342, 2638, 2635, 2348, 1821, 1123, 338, -445, -1142, -1682, -2014, -2112, -1977,
    -1636, -1134, -534, 94, 681, 1166, 1502, 1659, 1629, 1425, 1077, 629, 136, -348, -771, -1090,
    -1276, -1315, -1210, -979, -654, -275, 116, 475, 766, 959, 1040, 1004, 862, 633, 348, 38, -260,
    -516, -703, -806, -816, -738, -584, -374, -135, 108, 327, 500, 611, 650, 618, 520, 370, 188,
    -5, -189, -343, -452, -508, -506, -449, -347, -212, -61, 89, 223, 325, 388, 406, 379, 312, 215,
    100, -21, -134, -226, -290, -319, -312, -272, -205, -119, -24, 69, 150, 211, 246, 252,
];

/// Adds a record of that file, by its number and the time at which it begins.
fn add_record<'a>(bytes: &mut Vec<u8>, number: &'a str, clock: &'a str) -> Result<(), AllocError> {
    bytes.extend_from_slice(&header_bytes(&[
        ("sequence", number),
        ("clock", clock),
        ("samples", "100"),
        ("encoding", "1"),
        ("exponent", "9"),
        ("frames", "0"),
    ]))?;
    for sample in WAVE {
        bytes.extend_from_slice(&sample.to_be_bytes())?;
    }
    bytes.extend_from_slice(&[0; 248])
}

/// The second sample file: five records of 512 bytes with 100 samples of 16 bits each, and a gap of ten seconds
/// after the third.
pub fn two_segments(alloc: Global) -> Result<Vec<u8>, AllocError> {
    let mut bytes = Vec::new(alloc);
    add_record(&mut bytes, "000001", "00:00:00.0000")?;
    add_record(&mut bytes, "000002", "00:00:05.0000")?;
    add_record(&mut bytes, "000003", "00:00:10.0000")?;
    add_record(&mut bytes, "000004", "00:00:25.0000")?;
    add_record(&mut bytes, "000005", "00:00:30.0000")?;
    Ok(bytes)
}
