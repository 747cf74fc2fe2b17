//! The instructions.

ghost use Rattle.std.specs.Prelude.{◌≡◌, is_some};
ghost use Rattle.bpf_insn.specs.Spelling.{IsInsn, second_immediate, slots_of};

use bpf_parts::{
    Address, AluOp, Callee, Comparison, Distance, Extension, LoadSize, MemoryOperand, Operand,
    Register, Size, Swap, SwapBits, Width,
};

/// An instruction of the conformance groups base32, base64, divmul32 and divmul64 (RFC 9669,
/// section 2.4). Each value has exactly one spelling.
#[derive(Clone, Copy, Debug, PartialEq, Eq)]
pub enum Insn {
    /// `dst = dst op src`, for `Mov` `dst = src`.
    Alu {
        op: AluOp,
        width: Width,
        dst: Register,
        src: Operand,
    },
    /// `dst = -dst`.
    Negate {
        width: Width,
        dst: Register,
    },
    /// `dst` is the low bits of `src` with their sign extended.
    MoveSigned {
        extension: Extension,
        dst: Register,
        src: Register,
    },
    /// Puts the low bytes of `dst` in another order.
    ByteSwap {
        swap: Swap,
        bits: SwapBits,
        dst: Register,
    },
    /// Reads `dst` from memory at the place.
    Load {
        size: LoadSize,
        dst: Register,
        place: MemoryOperand,
    },
    /// Writes the low bytes of `src` at the place.
    Store {
        size: Size,
        place: MemoryOperand,
        src: Operand,
    },
    /// A jump by `offset` slots from the next one, if the comparison holds.
    Jump {
        comparison: Comparison,
        offset: i16,
    },
    /// A jump that is always taken.
    Goto {
        distance: Distance,
    },
    /// `dst` is the 64-bit constant; two slots.
    Wide {
        dst: Register,
        value: u64,
    },
    /// `dst` is the map of this index; two slots.
    LoadMap {
        dst: Register,
        index: i32,
    },
    /// `dst` is another address; two slots.
    LoadAddress {
        dst: Register,
        address: Address,
    },
    /// A call of this number.
    Call {
        callee: Callee,
        number: i32,
    },
    /// The end of the program; r0 is its answer.
    Exit,
}

impl Insn {
    /// How many slots of 8 bytes the instruction takes: 1 or 2.
    pub fn slots(&self) -> u16
        ensures value { result ≡ slots_of self.now }

        // The registers are r0 to r10, and each number fits its field.
        ensures limits { IsInsn self.now }
    {
        self.keeps_limits();
        if self.is_wide() { 2 } else { 1 }
    }

    /// Whether the instruction takes two slots.
    pub fn is_wide(&self) -> bool
        ensures { result ≡ is_some (second_immediate self.now) }
    {
        match self {
            Insn::Wide { .. } | Insn::LoadMap { .. } | Insn::LoadAddress { .. } => true,
            _ => false,
        }
    }

    /// A law and no work: each field of an instruction is within its limits.
    pub(crate) fn keeps_limits(self)
        ensures { IsInsn self }
    {
        match self {
            Insn::Alu { src, .. } | Insn::Store { src, .. } => {
                src.keeps_limits();
            }
            Insn::Jump { comparison, .. } => {
                comparison.src.keeps_limits();
            }
            Insn::Goto { distance } => {
                distance.slots();
            }
            Insn::LoadAddress { address, .. } => {
                (address.first(), address.second());
            }
            Insn::Negate { .. }
            | Insn::MoveSigned { .. }
            | Insn::ByteSwap { .. }
            | Insn::Load { .. }
            | Insn::Wide { .. }
            | Insn::LoadMap { .. }
            | Insn::Call { .. }
            | Insn::Exit => {}
        }
    }
}
