//! What a crash leaves of what it may.
ghost use Rattle.std.specs.Prelude.{◌<◌};

/// The choices that a number makes. If there are fewer than 2^64 ways to choose, each is some number's.
#[derive(Clone, Copy, PartialEq, Eq)]
pub struct Choices {
    pub number: u64,
}

impl Choices {
    /// One of so many.
    pub(crate) fn among(&mut self, count: u64) -> u64
        requires { 0 < count }
        ensures { result < count }
    {
        let chosen = self.number % count;
        self.number /= count;
        chosen
    }
}
