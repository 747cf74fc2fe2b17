//! What is known of the stack at a slot of a program (a choice of this project).
//!
//! - [`Marks`] says which of its 512 bytes are set.
//! - [`StackWords`] says which range the number in each word of eight bytes has.
//! - [`Spill`] says whether numbers that a program puts there keep their ranges.
//!
//! The definitions are in `specs/`. `Marks` and `StackWords` have what is known and what a store does to it, and
//! `Bits` the marks as bits of words.
#![tactic(auto)]

mod marks;
mod spill;
mod stack_words;

pub use marks::Marks;
pub use spill::Spill;
pub use stack_words::{STACK_WORDS, StackWords, WORD_BYTES, is_stack_word};
