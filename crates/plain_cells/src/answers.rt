//! What a helper makes of the word of a cell.

ghost use Rattle.std.specs.Prelude.{◌≡◌};
ghost use Rattle.plain_cells.specs.Pairs.{complement, kept_of_pair, answer_of_pair, word_of_pair};
ghost use Rattle.plain_cells.specs.Words.{answer_of_word, word_after_question};

use machine::Helper;

/// What a helper makes of the word of a cell, asked with that argument: its answer, and the word after that.
pub fn answered(helper: Helper, word: u64, argument: u64) -> (u64, u64)
    ensures reported { result.0 ≡ answer_of_word helper word argument }
    ensures following { result.1 ≡ word_after_question helper word argument }
{
    match helper {
        Helper::Count => (word, word),
        Helper::Ticket => (word, word.wrapping_add(1)),
        Helper::Peak => {
            let greater = word.max(argument);
            (greater, greater)
        }
    }
}

/// What a helper makes of the word of a cell and of what is kept beside it, its complement.
#[derive(Clone, Copy, Debug)]
pub struct PairAnswer {
    /// Its answer.
    pub reported: u64,
    /// The word after that.
    pub word: u64,
    /// What is kept beside it then.
    pub kept: u64,
}

/// The complement of a word.
pub fn complement(word: u64) -> u64
    ensures { result ≡ complement word }
{
    u64::MAX - word
}

/// What a helper makes of a pair, asked with that argument. A pair that does not agree is spent: the answer is the
/// greatest word, and the pair stays as it is.
pub fn answered_pair(helper: Helper, word: u64, kept: u64, argument: u64) -> PairAnswer
    ensures reported { result.reported ≡ answer_of_pair helper word kept argument }
    ensures word { result.word ≡ word_of_pair helper word kept argument }
    ensures kept { result.kept ≡ kept_of_pair helper word kept argument }
{
    if kept == complement(word) {
        let (reported, following) = answered(helper, word, argument);
        return PairAnswer {
            reported,
            word: following,
            kept: complement(following),
        };
    }
    PairAnswer {
        reported: u64::MAX,
        word,
        kept,
    }
}
