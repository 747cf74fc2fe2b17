//! Lines of assembler text: their words, and what a word writes.
//!
//! A line is read without its comment. [`read_head`] finds its first word, and [`read_statement`] also its operands.
//! The other functions say what one word writes: an instruction, a register, a number, a memory operand or a name.
#![tactic(auto)]

mod laws;
mod memory_operands;
mod mnemonics;
mod names;
mod numbers;
mod registers;
mod statements;

pub use laws::printed_words;
pub use memory_operands::read_memory_operand;
pub use mnemonics::{Mnemonic, mnemonic_laws, read_mnemonic};
pub use names::{is_name, label_name};
pub use numbers::{NumberFault, distance, number, wide_number};
pub use registers::register;
pub use statements::{InstructionLine, LineHead, before_comment, read_head, read_statement};
