//! The facts of a slot that the tests of loops need again and again, found once.

ghost use Rattle.std.specs.Prelude.{◌≡◌, ◌≤◌, ◌||◌, ℕ, Some, None, true, false};
ghost use Rattle.bpf.specs.Program.{insn_at};
ghost use Rattle.bpf_insn.specs.Bits.{is_bit};
ghost use Rattle.bpf_insn.specs.Flow.{is_clobbered, is_register_named};
ghost use Rattle.bver_form.specs.Facts.{AreFacts, AreFactsOf, stated_distance};

use bpf::{Image, MAX_SLOTS};
use bpf_insn::{Callee, Flow, Insn, Register};

/// The most slots of a program.
pub const SLOTS: usize = MAX_SLOTS as usize;

/// What the instruction that begins at a slot does: which registers it writes, whether it stores, and how far it
/// jumps. If none begins there, it does none of these.
#[derive(Clone, Copy, Debug)]
pub struct SlotFacts {
    /// The registers as bits, that of r0 the lowest.
    registers: u16,
    stores: bool,
    jumps: bool,
    /// In slots from the next instruction. It is 0 if the instruction does not jump.
    distance: i32,
}

impl SlotFacts {
    /// Those of a slot at which no instruction begins, and of an instruction that does none of these.
    #[tactic(auto, using(crate::proofs::Reported::has_none))]
    fn nothing() -> SlotFacts
        ensures registers { (register : ℕ) → is_bit result.registers register ≡ false }
        ensures stores { result.stores ≡ false }
        ensures jump { stated_distance result ≡ None }
    {
        SlotFacts {
            registers: 0,
            stores: false,
            jumps: false,
            distance: 0,
        }
    }

    /// Those of an instruction that writes the register which it names.
    #[tactic(auto, using(crate::proofs::Reported::has_only))]
    fn writing(named: Register) -> SlotFacts
        ensures registers { (register : ℕ) → register ≤ 10
            → is_bit result.registers register
            ≡ (is_register_named (Some named) register || is_clobbered Flow.GoesOn register) }
        ensures stores { result.stores ≡ false }
        ensures jump { stated_distance result ≡ None }
    {
        SlotFacts {
            registers: 1 << named.number(),
            stores: false,
            jumps: false,
            distance: 0,
        }
    }

    /// Those of a store.
    #[tactic(auto, using(crate::proofs::Reported::has_none))]
    fn storing() -> SlotFacts
        ensures registers { (register : ℕ) → is_bit result.registers register ≡ false }
        ensures stores { result.stores ≡ true }
        ensures jump { stated_distance result ≡ None }
    {
        SlotFacts {
            registers: 0,
            stores: true,
            jumps: false,
            distance: 0,
        }
    }

    /// Those of a jump by this many slots from the next one.
    #[tactic(auto, using(crate::proofs::Reported::has_none))]
    fn jumping(distance: i32) -> SlotFacts
        ensures registers { (register : ℕ) → is_bit result.registers register ≡ false }
        ensures stores { result.stores ≡ false }
        ensures jump { stated_distance result ≡ Some distance }
    {
        SlotFacts {
            registers: 0,
            stores: false,
            jumps: true,
            distance,
        }
    }

    /// Those of a call.
    fn calling(callee: Callee, number: i32) -> SlotFacts
        ensures registers { (register : ℕ) → register ≤ 10
            → is_bit result.registers register
            ≡ is_clobbered (Flow.Calls callee number) register }
        ensures stores { result.stores ≡ false }
        ensures jump { stated_distance result ≡ None }
    {
        SlotFacts {
            registers: Flow::Calls(callee, number).clobbered(),
            stores: false,
            jumps: false,
            distance: 0,
        }
    }

    /// Those of a slot at which the instruction begins.
    fn of(insn: &Insn) -> SlotFacts
        ensures { AreFactsOf (Some insn.now) result }
    {
        match *insn {
            Insn::Alu { dst, .. }
            | Insn::Negate { dst, .. }
            | Insn::MoveSigned { dst, .. }
            | Insn::ByteSwap { dst, .. }
            | Insn::Load { dst, .. }
            | Insn::Wide { dst, .. }
            | Insn::LoadMap { dst, .. }
            | Insn::LoadAddress { dst, .. } => SlotFacts::writing(dst),
            Insn::Store { .. } => SlotFacts::storing(),
            Insn::Jump { offset, .. } => SlotFacts::jumping(i32::from(offset)),
            Insn::Goto { distance } => SlotFacts::jumping(distance.slots()),
            Insn::Call { callee, number } => SlotFacts::calling(callee, number),
            Insn::Exit => SlotFacts::nothing(),
        }
    }

    /// Those of a slot.
    fn at(image: &Image, slot: u16) -> SlotFacts
        ensures { AreFactsOf (insn_at image.now slot) result }
    {
        match image.insn(slot) {
            Some(insn) => SlotFacts::of(&insn),
            None => SlotFacts::nothing(),
        }
    }

    /// The registers that the instruction writes, as bits: that of r0 is the lowest.
    pub fn registers(&self) -> u16
        ensures { result ≡ self.now.registers }
    {
        self.registers
    }

    /// Whether the instruction is a store.
    pub fn stores(&self) -> bool
        ensures { result ≡ self.now.stores }
    {
        self.stores
    }

    /// Whether the instruction writes the register.
    pub(crate) fn writes(&self, register: Register) -> bool
        ensures { result ≡ is_bit self.now.registers register }
    {
        self.registers >> register.number() & 1 == 1
    }

    /// The distance of the instruction's jump, if it jumps: in slots from the next one.
    pub(crate) fn distance(&self) -> Option<i32>
        ensures { result ≡ stated_distance self.now }
    {
        if self.jumps {
            Some(self.distance)
        } else {
            None
        }
    }
}

/// Room for the facts of the slots of any program.
pub fn no_facts() -> [SlotFacts; SLOTS] {
    [SlotFacts::nothing(); SLOTS]
}

/// Writes the facts of each slot of a program to its place.
pub(crate) fn write_slots(image: &Image, facts: &mut [SlotFacts; SLOTS])
    ensures { AreFacts image.now facts.new }
{
    for slot in 0..image.slots() {
        facts[usize::from(slot)] = SlotFacts::at(image, slot);
    }
}
