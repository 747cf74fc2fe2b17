//! Which bytes of the stack are set.

ghost use Rattle.std.specs.Prelude.{◌≡◌, ℕ, ◌+◌, ◌-◌, ◌*◌, ◌<◌, ◌≤◌, ◌↔◌, IsTrue, false, length};
ghost use Rattle.absdom_stack.specs.Bits.{AreBitsIn, AreBitsOf};
ghost use Rattle.absdom_stack.specs.Marks.{mark_at, all_marked, marks_after, AreInBoth, AreMarkedIn};
ghost use Rattle.absdom_stack.specs.Marks.{stored_marks, AreInside};

use machine::STACK_SIZE;
use std::marker::Model;

/// How many words hold the marks.
const WORDS: usize = STACK_SIZE / 64;

/// A mark for each byte of the stack that is known to be set: the bits of words, the lowest first. Place 0 is the
/// byte at offset -512.
#[derive(Clone, Copy, Debug)]
pub struct Marks {
    words: [u64; WORDS],
}

impl Model for Marks {
    ghost use Rattle.std.specs.Prelude.{◌≡◌, List, Bool, length};
    ghost use Rattle.absdom_stack.specs.Bits.{AreEightWords, marks_of, words_of_bits, words_from_marks};

    ghost Value = { List Bool };

    ghost view = { λ m. marks_of m.words };

    ghost invariant = { λ m. AreEightWords m.words };

    ghost inverse = { λ marks. record { words = words_of_bits 8 marks } };

    ghost inverse_ok = { λ m h i. record { words = words_from_marks m.words h i } };
}

impl Marks {
    /// No byte is set.
    pub fn none() -> Marks
        ensures none { (place : ℕ) → mark_at result place ≡ false }
        ensures length { length result ≡ STACK_SIZE }
    {
        Marks { words: [0; WORDS] }
    }

    /// Whether all bytes from `first` to before `end` are set.
    pub fn are_set(&self, first: usize, end: usize) -> bool
        requires { end ≤ STACK_SIZE }
        ensures { result ≡ all_marked self.now first (end - first) }
    {
        for word in first / 64..(end + 63) / 64 {
            if !has_all(self.words[word], bits_in(word, first, end)) {
                return false;
            }
        }
        true
    }

    /// Marks the bytes from `first` to before `end`.
    pub fn mark(&mut self, first: usize, end: usize)
        requires order { first ≤ end }
        requires inside { end ≤ STACK_SIZE }
        ensures { self.new ≡ marks_after self.old first (end - first) }
    {
        for word in first / 64..(end + 63) / 64 {
            let marked = self.words[word] | bits_in(word, first, end);
            self.words[word] = marked;
        }
    }

    /// Marks the bytes of a store of `bytes` bytes, from `lowest`, or from any byte up to `highest`. If the store may
    /// go to more than one place, it marks none.
    pub fn mark_stored(&mut self, bytes: usize, lowest: usize, highest: usize)
        requires { AreInside bytes (lowest, highest) }
        ensures { self.new ≡ stored_marks self.old bytes (lowest, highest) }
    {
        if lowest == highest {
            self.mark(lowest, lowest + bytes);
        }
    }

    /// Keeps the marks that are in both.
    pub fn join(&mut self, other: &Marks)
        ensures both { AreInBoth self.old other.now self.new }
        ensures length { length self.new ≡ STACK_SIZE }
    {
        for k in 0..WORDS {
            let word = self.words[k] & other.words[k];
            self.words[k] = word;
        }
    }

    /// Whether each mark of the other is here too.
    pub fn leq(&self, other: &Marks) -> bool
        ensures { IsTrue result ↔ AreMarkedIn other.now self.now }
    {
        let _ = &other.words;
        for word in 0..WORDS {
            if !has_all(self.words[word], other.words[word]) {
                return false;
            }
        }
        true
    }
}

/// Whether a word has all of these bits.
fn has_all(word: u64, bits: u64) -> bool
    ensures { IsTrue result ↔ AreBitsOf word bits }
{
    word & bits == bits
}

/// The bits of a word, by its number, for the bytes from `first` to before `end` that have theirs there.
fn bits_in(word: usize, first: usize, end: usize) -> u64
    requires first { first < 64 * word + 64 }
    requires end { 64 * word < end }
    ensures { AreBitsIn word first end result }
{
    let low = first.saturating_sub(64 * word);
    let high = (end - 64 * word).min(64);
    u64::MAX << low & u64::MAX >> (64 - high)
}
