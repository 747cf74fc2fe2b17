//! The shape of an instruction: how a run goes on after it, and which registers it names.

ghost use Rattle.std.specs.Prelude.{◌≡◌, ◌≤◌, ℕ};
ghost use Rattle.bpf_insn.specs.Bits.{is_bit};
ghost use Rattle.bpf_insn.specs.Flow.{accessed_base, flow_of, is_clobbered, is_register_named, is_written, written_register};

use crate::insn::Insn;
use bpf_parts::{Callee, Register};

/// The registers that a call writes, r0 to r5, as bits: that of r0 is the lowest.
const CLOBBERED: u16 = 0x3F;

/// How a run goes on after an instruction. Distances are in slots from the next instruction.
#[derive(Clone, Copy, Debug, PartialEq, Eq)]
pub enum Flow {
    /// At the next instruction.
    GoesOn,
    /// If the condition holds, by the distance further, else at the next one.
    Branches(i32),
    /// By the distance further.
    Jumps(i32),
    /// At the next one, after the callee of this number has answered.
    Calls(Callee, i32),
    /// Nowhere: r0 is the answer.
    Ends,
    /// Nowhere: a two-slot load of an address is not supported.
    Unsupported,
}

impl Flow {
    /// The registers that a run of an instruction with this flow may change, though the instruction does not name
    /// them. They are bits: that of r0 is the lowest. For a call they are r0 to r5 (a choice of this project).
    #[tactic(auto, using(crate::proofs::Clobbered::clobbered_bits))]
    pub fn clobbered(self) -> u16
        ensures { (register : ℕ) → register ≤ 10 → is_bit result register ≡ is_clobbered self register }
    {
        match self {
            Flow::Calls(_, _) => CLOBBERED,
            Flow::GoesOn | Flow::Branches(_) | Flow::Jumps(_) | Flow::Ends | Flow::Unsupported => 0,
        }
    }
}

impl Insn {
    /// How a run goes on after the instruction.
    pub fn flow(&self) -> Flow
        ensures { result ≡ flow_of self.now }
    {
        match *self {
            Insn::Alu { .. }
            | Insn::Negate { .. }
            | Insn::MoveSigned { .. }
            | Insn::ByteSwap { .. }
            | Insn::Load { .. }
            | Insn::Store { .. }
            | Insn::Wide { .. }
            | Insn::LoadMap { .. } => Flow::GoesOn,
            Insn::Jump { offset, .. } => Flow::Branches(i32::from(offset)),
            Insn::Goto { distance } => Flow::Jumps(distance.slots()),
            Insn::Call { callee, number } => Flow::Calls(callee, number),
            Insn::Exit => Flow::Ends,
            Insn::LoadAddress { .. } => Flow::Unsupported,
        }
    }

    /// The register that the instruction names as the one that it writes: its destination.
    pub fn written(&self) -> Option<Register>
        ensures { result ≡ written_register self.now }
    {
        match *self {
            Insn::Alu { dst, .. }
            | Insn::Negate { dst, .. }
            | Insn::MoveSigned { dst, .. }
            | Insn::ByteSwap { dst, .. }
            | Insn::Load { dst, .. }
            | Insn::Wide { dst, .. }
            | Insn::LoadMap { dst, .. }
            | Insn::LoadAddress { dst, .. } => Some(dst),
            Insn::Store { .. }
            | Insn::Jump { .. }
            | Insn::Goto { .. }
            | Insn::Call { .. }
            | Insn::Exit => None,
        }
    }

    /// Whether a run of the instruction may change the register: its destination, and r0 to r5 for a
    /// call (a choice of this project).
    pub fn writes(&self, register: Register) -> bool
        ensures { result ≡ is_written self.now register }
    {
        is_register_named(self.written(), register)
            || self.flow().clobbered() >> register.number() & 1 == 1
    }

    /// The base register of a load or a store, through which it accesses memory.
    pub fn accessed(&self) -> Option<Register>
        ensures { result ≡ accessed_base self.now }
    {
        match *self {
            Insn::Load { place, .. } | Insn::Store { place, .. } => Some(place.base),
            Insn::Alu { .. }
            | Insn::Negate { .. }
            | Insn::MoveSigned { .. }
            | Insn::ByteSwap { .. }
            | Insn::Jump { .. }
            | Insn::Goto { .. }
            | Insn::Wide { .. }
            | Insn::LoadMap { .. }
            | Insn::LoadAddress { .. }
            | Insn::Call { .. }
            | Insn::Exit => None,
        }
    }
}

/// Whether the register is the named one, if one is named.
fn is_register_named(named: Option<Register>, register: Register) -> bool
    ensures { result ≡ is_register_named named register }
{
    match named {
        Some(named) => named.number() == register.number(),
        None => false,
    }
}
