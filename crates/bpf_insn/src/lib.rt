//! Instructions of BPF, and the one spelling of each (RFC 9669).
//!
//! An instruction is a value of [`Insn`]. [`decode`] reads it from its 8 or 16 bytes, and [`encode`] gives those
//! bytes. Unused fields must be zero, so an instruction has one spelling. Its parts are those of `bpf_parts`.
#![tactic(auto)]

mod decoder;
mod display;
mod encoder;
mod fields;
mod flow;
mod insn;
mod laws;

pub use bpf_parts::{
    Address, AluOp, Callee, Comparison, Condition, Distance, Extension, FRAME_POINTER, LoadSize,
    MemoryOperand, Operand, REGISTERS, Register, Size, Swap, SwapBits, Width,
};
pub use decoder::{BadInsn, decode};
pub use display::text;
pub use encoder::encode;
pub use flow::Flow;
pub use insn::Insn;
pub use laws::spelling_laws;
