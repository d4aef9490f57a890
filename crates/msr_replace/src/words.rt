//! The words with which lines begin, by which they are counted.
ghost use Rattle.std.specs.Prelude.{◌≡◌, ◌<◌};
ghost use Rattle.msr_replace.specs.Words.{is_unwell, is_well, text_of, word_number};

/// The word with which a line begins, by which lines are counted.
#[derive(Clone, Copy, PartialEq, Eq)]
pub(crate) enum Word {
    Replaced,
    Same,
    Young,
    Larger,
    Changed,
    Skipped,
    Refused,
    Missing,
    NotShown,
    Differs,
    Orphan,
    Unfinished,
    Restored,
}

/// How many words there are.
pub(crate) const WORDS: usize = 13;

impl Word {
    /// Those that the last line of a walk through ROOT has, in its order.
    pub(crate) const OF_REPLACE: [Word; 12] = [
        Word::Replaced,
        Word::Same,
        Word::Young,
        Word::Larger,
        Word::Changed,
        Word::Skipped,
        Word::Refused,
        Word::Missing,
        Word::NotShown,
        Word::Differs,
        Word::Orphan,
        Word::Unfinished,
    ];

    /// Those of a walk through ASIDE.
    pub(crate) const OF_UNDO: [Word; 4] = [
        Word::Restored,
        Word::Changed,
        Word::Refused,
        Word::Unfinished,
    ];

    /// Its place among all words.
    pub(crate) fn number(self) -> usize
        ensures value { result ≡ word_number self }
        ensures most { result < WORDS }
    {
        match self {
            Word::Replaced => 0,
            Word::Same => 1,
            Word::Young => 2,
            Word::Larger => 3,
            Word::Changed => 4,
            Word::Skipped => 5,
            Word::Refused => 6,
            Word::Missing => 7,
            Word::NotShown => 8,
            Word::Differs => 9,
            Word::Orphan => 10,
            Word::Unfinished => 11,
            Word::Restored => 12,
        }
    }

    pub(crate) fn text(self) -> &'static str
        ensures { result.now ≡ text_of self }
    {
        match self {
            Word::Replaced => "replaced",
            Word::Same => "same",
            Word::Young => "young",
            Word::Larger => "larger",
            Word::Changed => "changed",
            Word::Skipped => "skipped",
            Word::Refused => "refused",
            Word::Missing => "missing",
            Word::NotShown => "notshown",
            Word::Differs => "differs",
            Word::Orphan => "orphan",
            Word::Unfinished => "unfinished",
            Word::Restored => "restored",
        }
    }

    /// Whether it tells of a day that is as it should be.
    pub(crate) fn is_well(self) -> bool
        ensures { result ≡ is_well self }
    {
        matches!(
            self,
            Word::Replaced | Word::Same | Word::Young | Word::Larger | Word::Restored
        )
    }

    /// Whether it tells of something that is to be looked at.
    pub(crate) fn is_unwell(self) -> bool
        ensures { result ≡ is_unwell self }
    {
        !(self.is_well() || self == Word::Skipped)
    }
}
