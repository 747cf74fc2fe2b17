//! Sums of words, for finding out whether memory keeps what was written to it. If one word of a list changes, in one
//! bit or in many, the sum of the list is another.
#![tactic(auto)]

ghost use Rattle.std.specs.Prelude.{◌≡◌};
ghost use Rattle.sums.specs.Sums.{OneWordIsSeen, after_word};

/// The sum after one more word: the sum turned by one bit to the left, and the word, modulo 2^64. The sum of no word is 0.
#[inline(always)]
pub fn after_word(sum: u64, word: u64) -> u64
    ensures { result ≡ after_word sum word }
{
    let turned = sum.wrapping_mul(2) + sum / (1 << 63);
    turned.wrapping_add(word)
}

/// A law and no work: two lists of words that differ in one word have different sums.
pub fn one_word_is_seen()
    ensures { OneWordIsSeen }
{}
