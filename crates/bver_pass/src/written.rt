//! What the instructions of a loop write.

ghost use Rattle.std.specs.Prelude.{◌≡◌, ◌≤◌, ◌<◌, ℕ, ◌⊎◌, ◌↔◌, IsTrue, Option, false, length};
ghost use Rattle.bpf.specs.declared.header.TheConstants.{MAX_SLOTS};
ghost use Rattle.bpf.specs.declared.loops.Loop.{Loop};
ghost use Rattle.bpf.specs.Program.{IsLoop, Program};
ghost use Rattle.bpf_insn.specs.declared.insn.Insn.{Insn};
ghost use Rattle.bver_form.specs.Facts.{AreFacts, AreFactsOf};
ghost use Rattle.bver_pass.specs.Heads.{IsDeclared};
ghost use Rattle.bver_pass.specs.Justified.{HasStore, IsStoreAt, IsWrittenBy, IsWrittenIn};
ghost use Rattle.bver_pass.specs.Written.{AreWrittenByLoops, IsWrittenByLoop, has_register};

use bpf::{Image, Loop, MAX_LOOPS};
use bpf_insn::Register;
use bver_form::{SLOTS, SlotFacts};

/// What instructions write: the registers as bits, that of r0 the lowest, and whether one of them is a store.
#[derive(Clone, Copy, Debug)]
pub struct Written {
    registers: u16,
    stores: bool,
}

impl Written {
    /// The instructions write nothing.
    fn nothing() -> Written
        ensures registers { (register : ℕ) → has_register result.registers register ≡ false }
        ensures stores { result.stores ≡ false }
    {
        Written {
            registers: 0,
            stores: false,
        }
    }

    /// Whether the instructions write the register.
    pub fn contains(self, register: Register) -> bool
        ensures { result ≡ has_register self.registers register }
    {
        self.registers >> register.number() & 1 == 1
    }

    /// Whether one of the instructions is a store.
    pub fn stores(self) -> bool
        ensures { result ≡ self.stores }
    {
        self.stores
    }

    /// What the instructions write, with what the instruction of a slot writes, if one begins there.
    #[tactic(auto, using(crate::proofs::Masks::has_either))]
    fn with_slot(self, facts: &SlotFacts) -> Written
        ensures registers { (insn : Option Insn) → AreFactsOf insn facts.now
            → (register : ℕ) → register ≤ 10
            → IsTrue (has_register result.registers register)
            ↔ (IsTrue (has_register self.registers register) ⊎ IsWrittenBy insn register) }
        ensures stores { (insn : Option Insn) → AreFactsOf insn facts.now
            → IsTrue result.stores ↔ (IsTrue self.stores ⊎ IsStoreAt insn) }
    {
        Written {
            registers: self.registers | facts.registers(),
            stores: self.stores || facts.stores(),
        }
    }

    /// What the instructions of a loop write, by the facts of the slots.
    fn by_loop(facts: &[SlotFacts; SLOTS], declared: &Loop) -> Written
        requires { IsLoop MAX_SLOTS declared.now }
        ensures { (p : Program) → AreFacts p facts.now → declared.now.back < length p.slots
            → IsWrittenByLoop p declared.now result }
    {
        let mut written = Written::nothing();
        for slot in declared.head..declared.back + 1 {
            written = written.with_slot(&facts[usize::from(slot)]);
        }
        written
    }

    /// What the instructions of the loop at that place write.
    fn by_loop_at(image: &Image, facts: &[SlotFacts; SLOTS], place: usize) -> Written
        requires inside { place < length image.now.loops }
        requires facts { AreFacts image.now facts.now }
        ensures { (declared : Loop) → IsDeclared image.now declared place
            → IsWrittenByLoop image.now declared result }
    {
        Written::by_loop(facts, &image.loops()[place])
    }

    /// What the loops of a program without loops write.
    pub fn by_none() -> [Written; MAX_LOOPS]
        ensures size { length result ≡ 8 }
        ensures none { (p : Program) → length p.loops ≡ 0 → AreWrittenByLoops p result }
    {
        [Written::nothing(); MAX_LOOPS]
    }

    /// What the instructions of each loop that a program declares write, by its place. The caller lends the facts of
    /// the slots.
    pub fn by_loops(image: &Image, facts: &[SlotFacts; SLOTS]) -> [Written; MAX_LOOPS]
        requires { AreFacts image.now facts.now }
        ensures { AreWrittenByLoops image.now result }
    {
        let mut written = Written::by_none();
        for place in 0..image.loops().len() {
            written[place] = Written::by_loop_at(image, facts, place);
        }
        written
    }
}
