//! The parts of an instruction of BPF, with their codes and their names (RFC 9669).
//!
//! Each part is a type. It has its number in a field of a slot, and its text in a line: `code` and `from_code`,
//! `bits` and `from_bits`, `name` or `suffix`. The constants of [`opcode`] are the parts of an opcode that are only
//! numbers. Those of [`words`] are the words of instructions that no part names.
#![tactic(auto)]

mod address;
mod callee;
mod distance;
mod memory;
mod names;
pub mod opcode;
mod operation;
mod register;
pub mod words;

pub use address::Address;
pub use callee::Callee;
pub use distance::Distance;
pub use memory::{LoadSize, MemoryOperand, Size};
pub use operation::{AluOp, Comparison, Condition, Extension, Operand, Swap, SwapBits, Width};
pub use register::{FRAME_POINTER, REGISTERS, Register};
