//! Samples of one segment, made in few words.

use Made::{Bounds, Extremes, Noise, Signs, Teeth, Turns, Zeros};
use msr_fixtures::next_of;
use std::alloc::{AllocError, Global};

/// The samples of a row are made in one of these ways.
#[derive(Clone, Copy)]
pub enum Made {
    Zeros,
    /// They are -20000 at even places and 20000 at odd ones.
    Signs,
    /// They are 8388607 at even places and -8388608 at odd ones.
    Bounds,
    /// They are the two samples that lie furthest apart, in turn.
    Extremes,
    /// They are 1000000000 at even places, and more at odd ones by two numbers in turn; the last number says how many
    /// samples each of these lasts.
    Teeth(i32, i32, usize),
    /// They are noise by a seed, of the given height.
    Noise(u64, u32),
    /// They are noise by a seed, of two heights in turn; the last number says how many samples each
    /// of these lasts.
    Turns(u64, u32, u32, usize),
}

/// A sample of noise of that height, half of it below 0.
fn of_height(number: u64, height: u32) -> i32 {
    let above = ((number >> 33) % u64::from(height.max(1))) as i32;
    above.wrapping_sub((height / 2).cast_signed())
}

impl Made {
    fn seed(self) -> u64 {
        match self {
            Noise(seed, _) | Turns(seed, _, _, _) => seed,
            _ => 0,
        }
    }

    /// The sample at a place, if the row of chance has that number.
    fn sample(self, place: usize, number: u64) -> i32 {
        let even = place % 2 == 0;
        match self {
            Zeros => 0,
            Signs => { if even { -20_000 } else { 20_000 } }
            Bounds => { if even { 8_388_607 } else { -8_388_608 } }
            Extremes => { if even { -2_147_483_648 } else { 2_147_483_647 } }
            Teeth(low, high, stretch) => {
                let high_now = place / stretch.max(1) % 2 == 1;
                let more = if high_now { high } else { low };
                1_000_000_000i32.wrapping_add(if even { 0 } else { more })
            }
            Noise(_, height) => of_height(number, height),
            Turns(_, calm, loud, stretch) => {
                let loud_now = place / stretch.max(1) % 2 == 1;
                of_height(number, if loud_now { loud } else { calm })
            }
        }
    }

    /// So many samples.
    pub fn samples(self, alloc: Global, count: usize) -> Result<Vec<i32>, AllocError> {
        let mut samples = Vec::new(alloc);
        let mut number = self.seed();
        for place in 0..count {
            number = next_of(number);
            samples.push(self.sample(place, number))?;
        }
        Ok(samples)
    }
}
