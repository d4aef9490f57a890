//! How many differences share a word, and the least number of Steim-1 groups of a run to which differences are added.

ghost use Rattle.std.specs.Prelude.{◌≡◌, ◌<◌, ◌≤◌, ◌↔◌, ◌∷◌, [], ℕ, ℤ, List, ◌-◌, ◌^◌, bit_or, IsTrue, true, length};
ghost use Rattle.msr_base.specs.declared.storage.Version.TheVariants.{One};
ghost use Rattle.msr_steim.specs.Word.{FitsBits};
ghost use Rattle.msr_words.specs.Counts.{EndsIn};
ghost use Rattle.msr_words.specs.FirstGroup.{AreFewest};
ghost use Rattle.msr_words.specs.Groups.{IsCapacity, IsOneBelow};
ghost use Rattle.msr_words.specs.Laws.{IsNarrow};

/// Gives the number of groups that is one above `fewest`; past `words`, it gives `words + 1`.
fn one_more(fewest: u32, words: u32) -> u32
    requires { words < 2 ^ 31 }
    ensures { (n : ℕ) → n ≤ words → (result ≤ n ↔ fewest < n) }
{
    if has_word_left(fewest, words) {
        fewest + 1
    } else {
        words + 1
    }
}

/// Whether there is room for one more group.
fn has_word_left(count: u32, words: u32) -> bool
    ensures { IsTrue result ↔ count < words }
{
    count < words
}

/// What is kept of a run that grows: the least numbers of groups, none of them a last group of three, each exact up to
/// the number of words and greater if there is none so small; and how large its newest differences are, or
/// `u64::MAX` if there are fewer.
#[derive(Clone, Copy, PartialEq, Eq)]
pub(crate) struct LeastCounts {
    /// The least number of groups of all differences.
    now: u32,
    /// The least number of groups of all but the newest difference.
    one: u32,
    /// The least number of groups of all but the newest two.
    two: u32,
    /// The least number of groups of all but the newest three.
    three: u32,
    first: u64,
    second: u64,
    third: u64,
}

impl LeastCounts {
    ghost use Rattle.msr_words.specs.AreCounts.{AreCounts};

    /// The counts of an empty run.
    pub(crate) fn none() -> LeastCounts
        ensures { (words : ℕ) → AreCounts words [] result }
    {
        LeastCounts {
            now: 0,
            one: 0,
            two: 0,
            three: 0,
            first: u64::MAX,
            second: u64::MAX,
            third: u64::MAX,
        }
    }

    /// Gives the least number of groups before the newest one, which ends in a difference of this
    /// size; `pair` is the size of it and the one before it together, `four` that of it and the
    /// three before it. If there is no such group, it gives `words`.
    fn fewest_before(self, size: u64, pair: u64, four: u64, words: u32) -> u32
        requires pair { size ≤ pair }
        requires four { pair ≤ four }
        ensures { AreFewest self.now self.one self.three size pair four words result }
    {
        if pair >= 32_768 {
            return if size < 2_147_483_648 {
                self.now
            } else {
                words
            };
        }
        let fewest = self.now.min(self.one);
        if four < 128 {
            fewest.min(self.three)
        } else {
            fewest
        }
    }

    /// The counts of the run with one difference more.
    pub(crate) fn with(self, difference: i64, words: u32) -> LeastCounts
        requires { words < 2 ^ 31 }
        ensures { (past : List ℤ) → AreCounts words past self → AreCounts words (difference ∷ past) result }
    {
        let size = magnitude(difference);
        let pair = size | self.first;
        let four = pair | self.second | self.third;
        let fewest = self.fewest_before(size, pair, four, words);
        LeastCounts {
            now: one_more(fewest, words),
            one: self.now,
            two: self.one,
            three: self.two,
            first: size,
            second: self.first,
            third: self.second,
        }
    }

    /// Whether the newest three differences are of 8 bits.
    fn ends_in_three(self) -> bool
        ensures { IsTrue result ↔ bit_or (bit_or self.first self.second) self.third < 128 }
    {
        self.first | self.second | self.third < 128
    }

    /// Whether the words hold the run, which may end in a group of three.
    pub(crate) fn within(self, words: u32) -> bool
        ensures { (past : List ℤ) → 0 < length past → AreCounts words past self
            → (IsTrue result ↔ EndsIn One true words past) }
    {
        if self.now <= words {
            return true;
        }
        self.ends_in_three() && has_word_left(self.three, words)
    }
}

/// How far a number is from 0, or from -1 if it is negative.
#[inline]
pub fn magnitude(number: i64) -> u64
    ensures { (width : ℕ) → (FitsBits width number ↔ result < 2 ^ (width - 1)) }
{
    if number < 0 {
        (-(number + 1)) as u64
    } else {
        number as u64
    }
}

/// 1 if the size is below the limit, else 0.
fn one_below(size: u64, limit: u64) -> u8
    ensures { IsOneBelow size limit result }
{
    u8::from(size < limit)
}

/// The greatest number of differences, each of the size of this one, that one Steim-2 word holds.
/// It adds 1 for each width that suffices, from 30 bits for one difference to 4 bits for seven, without a branch.
pub(crate) fn steim2_capacity(diff: i64) -> u8
    ensures { IsCapacity diff result }
{
    let size = magnitude(diff);
    let wide = one_below(size, 536_870_912) + one_below(size, 16_384) + one_below(size, 512);
    let narrow = one_below(size, 32) + one_below(size, 16) + one_below(size, 8);
    wide + one_below(size, 128) + narrow
}

/// Whether a difference has as much room in Steim-2 as in Steim-1: it is not of exactly 16 bits, nor of more than 30.
pub fn is_narrow(diff: i64) -> bool
    ensures { IsTrue result ↔ IsNarrow diff }
{
    let size = magnitude(diff);
    if 16_384 <= size && size < 32_768 {
        return false;
    }
    size < 536_870_912
}
