//! The classes of instructions, and what one of each costs.

ghost use Rattle.std.specs.Prelude.{◌≡◌, ◌≤◌};
ghost use Rattle.bpf_insn.specs.declared.insn.Insn.{Insn};
ghost use Rattle.weights.specs.Classes.{cost_by, cost_of_operation, costs};

use bpf_insn::Insn;
use bpf_parts::AluOp;

/// What an instruction of each class costs, in a unit that the caller has chosen.
#[derive(Clone, Copy, Debug, PartialEq, Eq)]
pub struct Costs {
    /// A division or a remainder, signed or not, of any width.
    pub division: u32,
    /// A call of a helper.
    pub call: u32,
    /// A conditional jump.
    pub jump: u32,
    /// Any other instruction.
    pub rest: u32,
}

impl Costs {
    /// These costs.
    pub fn new(division: u32, call: u32, jump: u32, rest: u32) -> Costs
        ensures { result ≡ costs division call jump rest }
    {
        Costs {
            division,
            call,
            jump,
            rest,
        }
    }

    /// What the instruction costs.
    pub fn cost_of(&self, insn: &Insn) -> u32
        ensures { result ≡ cost_by self.now insn.now }
    {
        match *insn {
            Insn::Alu { op, .. } => self.cost_of_operation(op),
            Insn::Call { .. } => self.call,
            Insn::Jump { .. } => self.jump,
            Insn::Negate { .. }
            | Insn::MoveSigned { .. }
            | Insn::ByteSwap { .. }
            | Insn::Load { .. }
            | Insn::Store { .. }
            | Insn::Goto { .. }
            | Insn::Wide { .. }
            | Insn::LoadMap { .. }
            | Insn::LoadAddress { .. }
            | Insn::Exit => self.rest,
        }
    }

    /// What an operation of arithmetic costs.
    fn cost_of_operation(&self, op: AluOp) -> u32
        ensures { result ≡ cost_of_operation self.now op }
    {
        match op {
            AluOp::Div | AluOp::SignedDiv | AluOp::Mod | AluOp::SignedMod => self.division,
            AluOp::Add
            | AluOp::Sub
            | AluOp::Mul
            | AluOp::Or
            | AluOp::And
            | AluOp::Lsh
            | AluOp::Rsh
            | AluOp::Xor
            | AluOp::Mov
            | AluOp::Arsh => self.rest,
        }
    }
}

/// A law and no work: no instruction costs more than 2^32 - 1.
pub(crate) fn are_small(division: u32, call: u32, jump: u32, rest: u32)
    ensures { (insn : Insn) → cost_by (costs division call jump rest) insn ≤ 4294967295 }
{}
