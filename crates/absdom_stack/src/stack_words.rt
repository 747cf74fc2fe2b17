//! What is known of the numbers on the stack.

ghost use Rattle.std.specs.Prelude.{◌≡◌, ◌<◌, ◌≤◌, ◌↔◌, IsTrue, length, slice_set};
ghost use Rattle.absdom_stack.specs.StackWords.{all_whole, range_in, widened, is_stack_word, AreStackWords, AreAllWhole, AreRangesJoined, AreRangesWithin};
ghost use Rattle.absdom_stack.specs.StackWords.{stored_ranges};
ghost use Rattle.absdom_stack.specs.Marks.{AreInside};

use crate::spill::Spill;
use absdom_num::Range;
use machine::STACK_SIZE;
use std::marker::Model;

/// How many bytes a word of the stack has: those of a number.
pub const WORD_BYTES: usize = 8;

/// How many words the stack has.
pub const STACK_WORDS: usize = STACK_SIZE / WORD_BYTES;

/// The range of all numbers, 64 times.
#[tactic(auto, unfolding(crate::specs::StackWords::all_whole))]
fn whole_ranges() -> [Range; STACK_WORDS]
    ensures { result ≡ all_whole }
{
    [Range::whole(); STACK_WORDS]
}

/// Ranges without a meaning. Zeros cost least to write.
fn no_ranges() -> [Range; STACK_WORDS]
    ensures { AreStackWords result }
{
    [Range::single(0); STACK_WORDS]
}

/// A range for each word of the stack: word k is the bytes 8k to 8k + 7. If no range is narrow, each word has the
/// whole range, and the array has no meaning. So a state of a program that keeps no ranges is copied without it.
#[derive(Clone, Debug, Drop)]
pub struct StackWords {
    narrow: bool,
    ranges: [Range; STACK_WORDS],
}

impl Model for StackWords {
    ghost use Rattle.std.specs.Prelude.{List, if◌then◌else◌};
    ghost use Rattle.absdom_num.specs.declared.ranges.Range.{Range};
    ghost use Rattle.absdom_stack.specs.StackWords.{all_whole, AreStackWords};

    ghost Value = { List Range };

    ghost view = { λ p. if p.narrow then p.ranges else all_whole };

    ghost invariant = { λ p. AreStackWords p.ranges };
}

impl StackWords {
    /// Nothing is known of any word.
    #[tactic(auto, using(crate::proofs::WordSteps::each_whole, crate::proofs::WordSteps::all_words))]
    pub fn new() -> StackWords
        ensures whole { result ≡ all_whole }
        ensures unknown { AreAllWhole result }
        ensures words { AreStackWords result }
    {
        StackWords {
            narrow: false,
            ranges: no_ranges(),
        }
    }

    /// The range of a word.
    pub fn get(&self, word: usize) -> Range
        requires { word < 64 }
        ensures { result ≡ range_in self.now word }
    {
        if self.narrow {
            self.ranges[word]
        } else {
            Range::whole()
        }
    }

    /// Gives a word a range.
    #[tactic(auto, using(crate::proofs::WordSteps::set_words, crate::proofs::WordSteps::all_words))]
    pub fn set(&mut self, word: usize, range: Range)
        requires { word < 64 }
        ensures { self.new ≡ slice_set self.old word range }
    {
        if !self.narrow {
            self.ranges = whole_ranges();
            self.narrow = true;
        }
        self.ranges[word] = range;
    }

    /// Forgets the range of each word that the bytes from `first` to `last` touch.
    #[tactic(auto, using(crate::proofs::WordSteps::widened_words, crate::proofs::WordSteps::widened_view))]
    pub fn widen(&mut self, first: usize, last: usize)
        requires { last < STACK_SIZE }
        ensures { self.new ≡ widened self.old first last }
    {
        if self.narrow {
            widen(&mut self.ranges, first, last);
        }
    }

    /// A store of a number of that range in `bytes` bytes, from `lowest`, or from any byte up to `highest`.
    pub fn store(&mut self, spill: Spill, bytes: usize, lowest: usize, highest: usize, value: Range)
        requires bytes { 1 ≤ bytes }
        requires inside { AreInside bytes (lowest, highest) }
        ensures { self.new ≡ stored_ranges spill self.old bytes (lowest, highest) value }
    {
        match spill {
            Spill::Forgets => self.widen(lowest, highest + bytes - 1),
            Spill::Keeps => self.keep(bytes, lowest, highest, value),
        }
    }

    /// A store of a number that keeps its range, if it fills a word.
    fn keep(&mut self, bytes: usize, lowest: usize, highest: usize, value: Range)
        requires bytes { 1 ≤ bytes }
        requires inside { AreInside bytes (lowest, highest) }
        ensures { self.new ≡ stored_ranges Spill.Keeps self.old bytes (lowest, highest) value }
    {
        if is_stack_word(bytes, lowest, highest) {
            self.set(lowest / WORD_BYTES, value);
        } else {
            self.widen(lowest, highest + bytes - 1);
        }
    }

    /// Forgets the range of each word.
    #[tactic(auto, using(crate::proofs::WordSteps::each_whole))]
    pub fn forget(&mut self)
        ensures whole { self.new ≡ all_whole }
        ensures unknown { AreAllWhole self.new }
    {
        self.narrow = false;
    }

    /// Grows to the least ranges that hold both, word by word.
    pub fn include(&mut self, other: &StackWords)
        ensures joint { AreRangesJoined self.old other.now self.new }
        ensures words { AreStackWords self.new }
    {
        if !other.narrow {
            self.narrow = false;
        } else if self.narrow {
            join_ranges(&mut self.ranges, &other.ranges);
        }
    }

    /// Whether each range is contained in the other's of the same word.
    pub fn are_within(&self, other: &StackWords) -> bool
        ensures { IsTrue result ↔ AreRangesWithin self.now other.now }
    {
        let _ = &self.narrow;
        if !other.narrow {
            return true;
        }
        for word in 0..STACK_WORDS {
            if !self.get(word).leq(other.get(word)) {
                return false;
            }
        }
        true
    }

    /// Becomes equal to the other. It copies the array only if the array has a meaning.
    pub fn set_to(&mut self, other: &StackWords)
        ensures { self.new ≡ other.now }
    {
        self.narrow = other.narrow;
        if other.narrow {
            self.ranges = other.ranges;
        }
    }
}

/// Whether an access of `bytes` bytes, which begins at `lowest`, at `highest` or between, is of the eight bytes of
/// one word.
pub fn is_stack_word(bytes: usize, lowest: usize, highest: usize) -> bool
    ensures { result ≡ is_stack_word bytes (lowest, highest) }
{
    bytes == WORD_BYTES && lowest == highest && lowest % WORD_BYTES == 0
}

/// Forgets the range of each word that the bytes from `first` to `last` touch.
fn widen(ranges: &mut [Range; STACK_WORDS], first: usize, last: usize)
    requires { last < STACK_SIZE }
    ensures { ranges.new ≡ widened ranges.old first last }
{
    for word in first / WORD_BYTES..last / WORD_BYTES + 1 {
        ranges[word] = Range::whole();
    }
}

/// The range of a word.
fn range_of(ranges: &[Range; STACK_WORDS], word: usize) -> Range
    requires { word < 64 }
    ensures { result ≡ range_in ranges.now word }
{
    ranges[word]
}

/// Word by word the least range that holds both.
fn join_ranges(a: &mut [Range; STACK_WORDS], b: &[Range; STACK_WORDS])
    ensures joint { AreRangesJoined a.old b.now a.new }
    ensures size { length a.new ≡ 64 }
{
    for word in 0..STACK_WORDS {
        let range = range_of(a, word).join(range_of(b, word));
        a[word] = range;
    }
}
