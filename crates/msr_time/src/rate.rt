//! Sample rates, and the instants of samples.
ghost use Rattle.std.specs.Prelude.{◌≡◌, ◌≢◌, ℤ, ◌<◌, ◌≤◌, ◌^◌, ◌↔◌, IsSome, IsTrue, SomeIff, pos};
ghost use Rattle.jiff.specs.Words.{IsWithin};
ghost use Rattle.msr_time.specs.Instant.{IsInstant};
ghost use Rattle.msr_time.specs.SampleRate.{SampleRate, period_of, IsRoundedNominal, IsNear};

use crate::instant::{FIRST_INSTANT, LAST_INSTANT};
use std::marker::Model;

/// A sample rate as a record header has it (SEED 2.4, fixed section of data header, fields 10 and
/// 11): a factor and a multiplier, neither of them 0. Above 0 a factor is in samples per second
/// and a multiplier multiplies; below 0 a factor is in seconds per sample and a multiplier divides.
#[derive(Clone, Copy, Debug, PartialEq, Eq)]
pub struct Rate {
    factor: i16,
    multiplier: i16,
}

impl Model for Rate {
    ghost Value = { SampleRate };

    ghost view = { λ r. record { factor = r.factor; multiplier = r.multiplier } };

    ghost inverse = { λ r. record { factor = r.factor; multiplier = r.multiplier } };

    ghost invariant = { λ r. (r.factor ≢ pos 0) × (r.multiplier ≢ pos 0) };
}

impl Rate {
    /// The rate, or `None` if a part of it is 0, which is how records without a rate are marked.
    pub fn new(factor: i16, multiplier: i16) -> Option<Rate>
        ensures { SomeIff result ((factor ≢ pos 0) × (multiplier ≢ pos 0))
            (record { factor = factor; multiplier = multiplier }) }
    {
        if factor == 0 || multiplier == 0 {
            return None;
        }
        Some(Rate { factor, multiplier })
    }

    /// The sample rate factor, as it was given.
    pub fn factor(&self) -> i16
        ensures value { result ≡ self.now.factor }
        ensures not_zero { result ≢ pos 0 }
    {
        self.factor
    }

    /// The sample rate multiplier, as it was given.
    pub fn multiplier(&self) -> i16
        ensures value { result ≡ self.now.multiplier }
        ensures not_zero { result ≢ pos 0 }
    {
        self.multiplier
    }

    /// The period in microseconds as a fraction, not reduced: the numerator and the denominator.
    pub fn period(&self) -> (u64, u64)
        ensures value { result ≡ period_of self.now }
        ensures numerator { result.0 < 2 ^ 50 }
        ensures denominator { result.1 < 2 ^ 30 }
        ensures not_zero { (1 ≤ result.0) × (1 ≤ result.1) }
    {
        let factor = self.factor.unsigned_abs() as u64;
        let multiplier = self.multiplier.unsigned_abs() as u64;
        let (longer, shorter) = if self.factor > 0 {
            (1, factor)
        } else {
            (factor, 1)
        };
        let (times, parts) = if self.multiplier > 0 {
            (1, multiplier)
        } else {
            (multiplier, 1)
        };
        (1_000_000 * longer * times, shorter * parts)
    }

    /// The nominal instant of sample `n` counted from `t0`, rounded as by `nominal`, in range or not.
    pub fn rounded(&self, t0: i64, n: u64) -> i128
        ensures nominal { IsRoundedNominal self.now t0 n result }
        ensures few { IsInstant t0 → IsInstant result → n < 2 ^ 63 }
        ensures bound { IsWithin (2 ^ 120) result }
    {
        let (numerator, denominator) = self.period();
        let doubled = 2 * (n as u128 * numerator as u128) + denominator as u128;
        t0 as i128 + (doubled / (2 * denominator as u128)) as i128
    }

    /// The nominal instant of sample `n` counted from `t0`, rounded to the nearest microsecond,
    /// ties to the later one. `None` if that is outside the years 1900 to 2100.
    pub fn nominal(&self, t0: i64, n: u64) -> Option<i64>
        ensures found { (r : ℤ) × IsRoundedNominal self.now t0 n r × SomeIff result (IsInstant r) r }
        ensures only { (r : ℤ) → IsRoundedNominal self.now t0 n r → SomeIff result (IsInstant r) r }

        // No two instants of the supported years lie 2^63 samples or more apart.
        ensures few { IsInstant t0 → IsSome result → n < 2 ^ 63 }
    {
        let instant = self.rounded(t0, n);
        if instant < FIRST_INSTANT as i128 || instant > LAST_INSTANT as i128 {
            return None;
        }
        Some(instant as i64)
    }

    /// Whether the nominal instant of sample `n` counted from `t0`, rounded as by `nominal`, is in the years 1900 to
    /// 2100. It costs less than the instant, which takes a division.
    pub fn reaches(&self, t0: i64, n: u64) -> bool
        requires { IsInstant t0 }
        ensures found { (r : ℤ) × IsRoundedNominal self.now t0 n r × (IsTrue result ↔ IsInstant r) }
        ensures only { (r : ℤ) → IsRoundedNominal self.now t0 n r → IsTrue result ↔ IsInstant r }
        ensures few { IsTrue result → n < 2 ^ 63 }
    {
        let (numerator, denominator) = self.period();

        // Half a microsecond after the last instant would be rounded to the next.
        let halves = 2 * (LAST_INSTANT - t0) as u64 + 1;
        2 * (n as u128 * numerator as u128) < halves as u128 * denominator as u128
    }

    /// Whether `t` lies at most `tolerance` microseconds from the nominal instant of sample `n`
    /// counted from `t0`, which is not rounded first.
    pub fn near(&self, t0: i64, n: u64, t: i64, tolerance: u32) -> bool
        ensures { IsTrue result ↔ IsNear self.now t0 n t tolerance }
    {
        let (numerator, denominator) = self.period();
        let gap = (t as i128 - t0 as i128) * denominator as i128;
        let span = n as u128 * numerator as u128;
        (gap - span as i128).unsigned_abs() <= tolerance as u128 * denominator as u128
    }
}
