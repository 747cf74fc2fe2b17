//! The text of an image: [`assemble`] reads it, and [`disassemble`] prints it.
//!
//! A text is lines of ASCII; a semicolon begins a comment. A line is empty, a label (`NAME:`), a
//! directive (`.version N`, `.budget N`, `.loop HEAD, BACK, N, rK`) or an instruction.
#![tactic(auto)]

mod assembly;
mod directives;
mod disassembly;
mod faults;
mod instructions;
mod laws;
mod names;
mod partial_image;
mod pieces;
mod survey;
mod targets;

pub use assembly::assemble;
pub use disassembly::{disassemble, print_directives};
pub use faults::{AsmCode, AsmFault};
pub use laws::printed_again;
