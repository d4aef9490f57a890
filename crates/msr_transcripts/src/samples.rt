//! Samples that are made into records.

use crate::stage::Stage;
use msr_base::{Kind, Length};
use msr_fixtures::{START, key_at};
use msr_record::encode_record;
use msr_time::{Rate, is_instant};
use msr_words::Fitting;

/// How many numbers of 32 bits a record of 4096 bytes holds.
const MOST: usize = 1008;

/// A sample.
fn sample(stage: &mut Stage<'_>, text: &str) -> i32 {
    let sample = text.parse::<i32>();
    stage.note(sample.is_ok());
    sample.unwrap_or(0)
}

/// Adds the numbers of a range, of which the last one is not one.
fn add_range(stage: &mut Stage<'_>, samples: &mut Vec<i32>, from: i32, to: i32) {
    for number in from..to {
        stage.note(samples.push(number).is_ok());
    }
}

/// Adds numbers, `NUMBER,NUMBER`.
fn add_numbers(stage: &mut Stage<'_>, samples: &mut Vec<i32>, text: &str) {
    for word in text.split(',') {
        let number = sample(stage, word);
        stage.note(samples.push(number).is_ok());
    }
}

/// Adds numbers, repeated COUNT times, `NUMBER,NUMBER*COUNT`.
fn add_repeated(stage: &mut Stage<'_>, samples: &mut Vec<i32>, word: &str) {
    let (text, times) = word.split_once('*').unwrap_or((word, "1"));
    for _ in 0..stage.count(times) {
        add_numbers(stage, samples, text);
    }
}

/// Adds numbers, repeated COUNT times, `NUMBER,NUMBER*COUNT`, or those of a range, `FROM..TO`, of which TO is not one.
fn add(stage: &mut Stage<'_>, samples: &mut Vec<i32>, word: &str) {
    match word.split_once("..") {
        Some((from, to)) => {
            let (from, to) = (sample(stage, from), sample(stage, to));
            add_range(stage, samples, from, to);
        }
        None => add_repeated(stage, samples, word),
    }
}

/// Adds the record of some samples, by its number from 0.
fn add_record(stage: &mut Stage<'_>, rate: Rate, number: usize, run: &[i32], input: &mut Vec<u8>) {
    let samples_before = (number as u64).saturating_mul(MOST as u64);
    let (Some(length), Some(start)) = (Length::new(4096), rate.nominal(START, samples_before))
    else {
        return stage.note(false);
    };
    let kind = Kind::Int32;
    if number >= 999_999 || run.is_empty() || !is_instant(start) || !kind.fits(None, run, length) {
        return stage.note(false);
    }
    let (alloc, key, sequence) = (stage.alloc(), key_at(rate), 1 + number as u32);
    let done = encode_record(alloc, &key, start, sequence, None, run, kind, length, input);
    stage.note(done.is_ok());
}

/// The factor and the multiplier of a rate, `FACTOR/MULTIPLIER`.
fn rate(text: &str) -> Option<Rate> {
    let (factor, multiplier) = text.split_once('/')?;
    Rate::new(factor.parse().ok()?, multiplier.parse().ok()?)
}

/// The samples of these words.
fn samples_of(stage: &mut Stage<'_>, words: &str) -> Vec<i32> {
    let mut samples = Vec::new(stage.alloc());
    for word in words.split_whitespace() {
        add(stage, &mut samples, word);
    }
    samples
}

/// Adds the records of samples, as many in each as it holds.
fn add_records(stage: &mut Stage<'_>, rate: Rate, samples: &[i32], records: &mut Vec<u8>) {
    for (number, run) in samples.chunks(MOST).enumerate() {
        add_record(stage, rate, number, run, records);
    }
}

/// `samples FILE FACTOR/MULTIPLIER WORDS`: samples from 2020-01-01 on as integers of 32 bits, 1008 in a record of 4096
/// bytes. A word is `NUMBER,NUMBER*COUNT` (without `*COUNT`, once) or `FROM..TO` (without TO).
pub fn write(stage: &mut Stage<'_>, path: &str, text: &str) {
    let (first, words) = text.split_once(' ').unwrap_or((text, ""));
    let Some(rate) = rate(first) else {
        return stage.note(false);
    };
    let samples = samples_of(stage, words);
    let mut records = Vec::new(stage.alloc());
    add_records(stage, rate, samples.as_slice(), &mut records);
    stage.write(path, records.as_slice());
}
