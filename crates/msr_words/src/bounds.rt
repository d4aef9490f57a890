//! What the differences of a run tell of the records that hold it.

ghost use Rattle.msr_words.specs.Bounds.{EndLaw, GreedyLaw, HalvesLaw, LookBackLaw, WideLaw};
ghost use Rattle.msr_words.specs.Steim1Reach.{Steim1LastLaw, Steim1StopLaw, Steim1WordLaw};

/// A Steim record, of either version, holds no more than two differences of more than 10 bits a word.
pub fn two_wide_in_a_word()
    ensures { WideLaw }
{}

/// A word of Steim-2 has room for two differences of more than 10 bits, or for one of more than 15.
pub fn two_halves_in_a_word()
    ensures { HalvesLaw }
{}

/// The first difference of a Steim-1 record can be left out if it does not share a word with three others of 8 bits.
pub fn steim1_look_back()
    ensures { LookBackLaw }
{}

/// A run of a kind fits exactly when it ends at or before the greatest end from its start.
pub fn fits_up_to_its_end()
    ensures { EndLaw }
{}

/// As many longest groups as there are words, from a frontier on, reach as far as any Steim-2 record that starts at or
/// before the frontier.
pub fn steim2_greedy_reach()
    ensures { GreedyLaw }
{}

/// Steim-1 reaches furthest if each word in turn takes as many differences as it can. Three of 8 bits fill a word only
/// if a spare difference stands before them, or if the word is the last.
pub fn steim1_word_by_word()
    ensures word { Steim1WordLaw }
    ensures last { Steim1LastLaw }
    ensures stop { Steim1StopLaw }
{}
