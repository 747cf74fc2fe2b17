//! A loop that a program declares, with what holds at its head in every pass.

ghost use Rattle.std.specs.Prelude.{◌≡◌, ◌≢◌, ◌≤◌, ◌<◌, ◌↔◌, ℕ, IfErr, IsTrue, OnErr, OnOk, MatchResult, false, length};
ghost use Rattle.absdom.specs.State.{kind_at};
ghost use Rattle.bver_pass.specs.Justified.{HasStore, IsCovered, IsWrittenIn};
ghost use Rattle.bver_form.specs.Lowered.{IsMore, IsSettled};
ghost use Rattle.bver_pass.specs.StateTable.{knowledge_in};
ghost use Rattle.bver_pass.specs.Heads.{AreLowered, AreWidenedRanges, BodyValue, Falls, IsClosingFault, IsDeclared, IsEntryFault, IsWidened, IsWidenedKind, IsWithinBound, opened_kind};
ghost use Rattle.bver_pass.specs.Written.{AreWrittenByLoops, IsWrittenByLoop};

use crate::table::{StateTable, is_number};
use crate::written::Written;
use absdom::{AbsKind, State};
use absdom_num::Range;
use bpf::{Image, Loop, MAX_LOOPS};
use bpf_insn::Register;
use bver_form::{Lowered, Refusal, Refused};
use std::marker::Model;

/// A loop that a program declares, with what its instructions write.
#[derive(Drop)]
pub struct Body<'a> {
    image: &'a Image,
    declared: Loop,
    written: Written,
    place: usize,
}

impl<'a> Model for Body<'a> {
    ghost use Rattle.bver_form.specs.Lowered.{IsMore, IsSettled};
    ghost use Rattle.bver_pass.specs.StateTable.{knowledge_in};
    ghost use Rattle.bver_pass.specs.Heads.{BodyValue, Falls, IsDeclared};
    ghost use Rattle.bver_pass.specs.Written.{IsWrittenByLoop};

    ghost Value = { BodyValue };

    ghost view = { λ b. record { program = b.image.now; declared = b.declared; place = b.place } };

    ghost invariant = { λ b. IsDeclared b.image.now b.declared b.place × IsWrittenByLoop b.image.now b.declared b.written };
}

/// What is kept at a loop's head of a register that the loop writes.
fn opened(lowered: bool, kind: AbsKind) -> AbsKind
    ensures { result ≡ opened_kind lowered kind }
{
    match kind {
        AbsKind::Num(_) => {
            if lowered {
                AbsKind::Unset
            } else {
                AbsKind::Num(Range::whole())
            }
        }
        AbsKind::Unset | AbsKind::Ptr(_, _) | AbsKind::Map(_) => AbsKind::Unset,
    }
}

impl<'a> Body<'a> {
    /// The loop at that place among those that the program declares.
    pub fn new(image: &'a Image, written: &[Written; MAX_LOOPS], place: usize) -> Body<'a>
        requires inside { place < length image.now.loops }
        requires written { AreWrittenByLoops image.now written.now }
        ensures program { result.program ≡ image.now }
        ensures place { result.place ≡ place }
        ensures declared { IsDeclared image.now result.declared place }
    {
        Body {
            image,
            declared: image.loops()[place],
            written: written[place],
            place,
        }
    }

    /// The slot at which the loop begins.
    pub fn head(&self) -> u16
        ensures { result ≡ self.now.declared.head }
    {
        self.declared.head
    }

    /// The slot at which it ends, with the jump back.
    pub fn back(&self) -> u16
        ensures { result ≡ self.now.declared.back }
    {
        self.declared.back
    }

    /// Whether an instruction of the loop writes the register.
    fn writes(&self, register: Register) -> bool
        ensures { IsTrue result ↔ IsWrittenIn self.now.program self.now.declared register }
    {
        self.written.contains(register)
    }

    /// Whether an instruction of the loop is a store.
    fn stores(&self) -> bool
        ensures { IsTrue result ↔ HasStore self.now.program self.now.declared }
    {
        self.written.stores()
    }

    /// What is known of a register at the head, from what is known on the way there.
    fn widened(&self, lowered: &Lowered, register: Register, kind: AbsKind) -> AbsKind
        requires { register ≤ 9 }
        ensures { IsWidenedKind self.now.program self.now.declared lowered.now self.now.place
            register kind result }
    {
        if register.number() == self.declared.register.number() {
            return AbsKind::Num(Range::new(1, u64::from(self.declared.bound)));
        }
        if self.writes(register) {
            opened(lowered.contains(self.place, register), kind)
        } else {
            kind
        }
    }

    /// Widens the ranges of the stack's words. A program of version 1 has none, so there nothing changes.
    fn widen_ranges(&self, state: &mut State)
        ensures kinds { state.new.kinds ≡ state.old.kinds }
        ensures marks { state.new.marks ≡ state.old.marks }
        ensures ranges { AreWidenedRanges self.now.program self.now.declared state.old state.new }
    {
        if self.stores() {
            state.forget_words();
        }
    }

    /// Whether the register is widened: it is the counter, or the loop writes it.
    fn changes(&self, register: Register) -> bool
        ensures { result ≡ false → (register ≢ self.now.declared.register)
            × (IsWrittenIn self.now.program self.now.declared register → ⊥) }
    {
        register.number() == self.declared.register.number() || self.writes(register)
    }

    /// Widens a register. If the register stays as it is, the function does not write it.
    fn widen_one(&self, lowered: &Lowered, state: &mut State, register: Register)
        requires { register ≤ 9 }
        ensures widened { IsWidenedKind self.now.program self.now.declared lowered.now
            self.now.place register (kind_at state.old register) (kind_at state.new register) }
        ensures others { (k : ℕ) → k ≢ register → kind_at state.new k ≡ kind_at state.old k }
        ensures marks { state.new.marks ≡ state.old.marks }
        ensures ranges { state.new.ranges ≡ state.old.ranges }
    {
        if self.changes(register) {
            state.stands_whole();
            let kind = self.widened(lowered, register, state.kind(register));
            state.write(register, kind);
        }
    }

    /// Widens the ranges of words, and each register.
    fn widen_all(&self, lowered: &Lowered, state: &mut State)
        ensures { IsWidened self.now.program self.now.declared lowered.now self.now.place
            state.old state.new }
    {
        self.widen_ranges(state);
        for number in 0..10 {
            match Register::new(number) {
                Some(register) => self.widen_one(lowered, state, register),
                None => unreachable!(),
            }
        }
    }

    /// Widens what is known at the head to what holds in every pass. The counter is 1 to the bound. Of each other
    /// register that the loop writes, any number is known. Nothing is known of it if it was lowered or is no number.
    /// If the loop stores, nothing is known of any word of the stack.
    ///
    /// # Errors
    ///
    /// `LoopEntry`: a run may come there with a counter outside its bound, or with none.
    pub fn widen(&self, lowered: &Lowered, state: &mut State) -> Result<(), Refusal>
        ensures widened { OnOk result
            (IsWidened self.now.program self.now.declared lowered.now self.now.place
            state.old state.new) }
        ensures bound { MatchResult result (λ _. IsWithinBound self.now.declared state.old)
            (IsEntryFault self.now.declared state.old) }
        ensures kept { OnErr result (state.new ≡ state.old) }
    {
        let counter = AbsKind::Num(Range::new(1, u64::from(self.declared.bound)));
        if !state.kind(self.declared.register).leq(&counter) {
            return Err(Refusal::LoopEntry);
        }
        self.widen_all(lowered, state);
        Ok(())
    }

    /// Whether an edge back to the head lowers the register: the loop writes it, and it is a number only at the head.
    fn falls(&self, table: &StateTable<'_>, edge: &State, register: Register) -> bool
        requires { self.now.declared.head < length table.now.program.slots }
        ensures { IsTrue result ↔ Falls self.now
            (knowledge_in table.now self.now.declared.head) edge.now register }
    {
        self.writes(register)
            && !is_number(edge.kind(register))
            && table.is_number(self.declared.head, register)
    }

    /// Lowers the register if an edge back to the head lowers it.
    fn lower_one(
        &self,
        table: &StateTable<'_>,
        edge: &State,
        lowered: &mut Lowered,
        register: Register,
    )
        requires inside { self.now.declared.head < length table.now.program.slots }
        requires register { register ≤ 9 }
        ensures { AreLowered self.now (knowledge_in table.now self.now.declared.head) edge.now
            (λ r. r ≡ register) lowered.old lowered.new }
    {
        if self.falls(table, edge, register) {
            lowered.lower(self.place, register);
        }
    }

    /// Lowers each register that an edge back to the head lowers.
    fn lower(&self, table: &StateTable<'_>, edge: &State, lowered: &mut Lowered)
        requires { self.now.declared.head < length table.now.program.slots }
        ensures { AreLowered self.now (knowledge_in table.now self.now.declared.head) edge.now
            (λ r. r ≤ 9) lowered.old lowered.new }
    {
        for number in 0..10 {
            match Register::new(number) {
                Some(register) => self.lower_one(table, edge, lowered, register),
                None => unreachable!(),
            }
        }
    }

    /// Follows an edge back to the head. What is known on the edge lowers registers there, or is covered.
    ///
    /// # Errors
    ///
    /// `LoopEntry` at the head: it neither lowers a register nor is covered.
    pub fn close(
        &self,
        table: &StateTable<'_>,
        edge: &State,
        lowered: &mut Lowered,
    ) -> Result<(), Refused>
        requires { self.now.declared.head < length table.now.program.slots }
        ensures more { IsMore lowered.old lowered.new }
        ensures lowered { AreLowered self.now (knowledge_in table.now self.now.declared.head)
            edge.now (λ r. r ≤ 9) lowered.old lowered.new }
        ensures covered { OnOk result
            (IsSettled lowered.old lowered.new
            → IsCovered edge.now (knowledge_in table.now self.now.declared.head)) }
        ensures refused { IfErr result (IsClosingFault self.now.declared) }
        ensures uncovered { IfErr result
            (λ _. IsCovered edge.now (knowledge_in table.now self.now.declared.head) → ⊥) }
        ensures settled { IfErr result (λ _. lowered.new ≡ lowered.old) }
    {
        let head = self.declared.head;
        let before = lowered.count();
        self.lower(table, edge, lowered);
        if lowered.count() == before && !table.covers(head, edge) {
            return Err(Refused {
                code: Refusal::LoopEntry,
                slot: head,
            });
        }
        Ok(())
    }
}
