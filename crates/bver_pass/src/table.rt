//! What is known at the slots to which a program jumps.

ghost use Rattle.std.specs.Prelude.{◌≡◌, ◌≢◌, ◌<◌, ◌↔◌, ℕ, IsTrue, IsFalse, IfOk, IfSome, Some, None, length, if◌then◌else◌};
ghost use Rattle.bpf.specs.Program.{IsProgram};
ghost use Rattle.bver_pass.specs.Justified.{IsCovered, IsCoveredIfAny};
ghost use Rattle.absdom.specs.State.{IsWhole};
ghost use Rattle.bver_pass.specs.Heads.{is_number, is_number_at};
ghost use Rattle.bver_form.specs.Targets.{IsKept};
ghost use Rattle.bver_pass.specs.StateTable.{AreEntries, entry_place_of, knowledge_in, knowledge_next};
ghost use Rattle.bver_pass.specs.Visit.{AreWhole, IsTableGrown, IsLeast};

use absdom::{AbsKind, State, join_is_least, order_of_states};
use bpf::Image;
use bpf_insn::Register;
use bver_form::{NOWHERE, kept_slots, number_slots};
use std::alloc::{AllocError, Global};
use std::marker::Model;

/// Whether the kind is that of a number.
pub fn is_number(kind: AbsKind) -> bool
    ensures { result ≡ is_number kind }
{
    match kind {
        AbsKind::Num(_) => true,
        AbsKind::Unset | AbsKind::Ptr(_, _) | AbsKind::Map(_) => false,
    }
}

/// What is known at a slot, if anything is. If nothing is, the state has no meaning.
#[derive(Clone, Drop)]
struct Known {
    is_known: bool,
    state: State,
}

impl Model for Known {
    ghost use Rattle.std.specs.Prelude.{Option, Some, None, if◌then◌else◌};
    ghost use Rattle.absdom.specs.State.{StateValue};

    ghost Value = { Option StateValue };

    ghost view = { λ k. if k.is_known then Some k.state else None };
}

impl Known {
    /// Nothing is known.
    fn nothing() -> Known
        ensures { result ≡ None }
    {
        Known {
            is_known: false,
            state: State::entry(),
        }
    }

    /// Grows what is known, if anything is, to the least that covers the state too.
    fn include(&mut self, state: &State)
        ensures state { IsCovered state.now self.new }
        ensures known { IsCoveredIfAny self.old self.new }
        ensures least { IsLeast self.old state.now self.new }
        ensures whole { IfSome self.new IsWhole }
    {
        order_of_states();
        join_is_least();
        state.stands_whole();
        if self.is_known {
            self.state.join(state);
        } else {
            self.state.set_to(state);
            self.is_known = true;
        }
    }

    /// Forgets what is known.
    fn forget(&mut self)
        ensures { self.new ≡ None }
    {
        self.is_known = false;
    }

    /// Puts a state in the place of what is known.
    fn put(&mut self, state: &State)
        ensures { self.new ≡ Some state.now }
    {
        self.state.set_to(state);
        self.is_known = true;
    }

    /// Whether what is known covers the state.
    fn covers(&self, state: &State) -> bool
        ensures { IsTrue result ↔ IsCovered state.now self.now }
    {
        self.is_known && state.leq(&self.state)
    }

    /// Whether a number is known of the register.
    fn is_number(&self, register: Register) -> bool
        ensures { result ≡ is_number_at self.now register }
    {
        self.is_known && is_number(self.state.kind(register))
    }

    /// Writes what is known to the state. The result is whether anything is known.
    fn read(&self, state: &mut State) -> bool
        ensures { self.now ≡ (if result then Some state.new else None) }
    {
        if self.is_known {
            state.set_to(&self.state);
        }
        self.is_known
    }
}

/// What is known at slot 0 and at each slot to which the program jumps, by rising slot. There is no entry for any
/// other slot. Nothing is known at a slot to which no edge was followed.
#[derive(Drop)]
pub struct StateTable<'a> {
    image: &'a Image,
    /// The place of each slot's entry, and [`NOWHERE`] for a slot that has none.
    places: Vec<u16>,
    entries: Vec<Known>,
}

impl<'a> Model for StateTable<'a> {
    ghost use Rattle.bver_pass.specs.StateTable.{AreEntries, TableValue};

    ghost Value = { TableValue };

    ghost view = { λ t. record { program = t.image.now; places = t.places.items; entries = t.entries.items } };

    ghost invariant = { λ t. AreEntries (record { program = t.image.now; places = t.places.items; entries = t.entries.items }) };
}

impl<'a> StateTable<'a> {
    /// The table of a program at which nothing is known. The call asks for memory three times.
    ///
    /// # Errors
    ///
    /// Memory is refused.
    pub fn new(alloc: Global, image: &'a Image) -> Result<StateTable<'a>, AllocError>
        ensures program { IfOk result (λ table. table.program ≡ image.now) }
        ensures nothing { IfOk result (λ table. (slot : ℕ) → knowledge_in table slot ≡ None) }
    {
        let kept = kept_slots(alloc, image)?;
        let mut places = vec![in alloc; NOWHERE; kept.len()]?;
        let count = number_slots(&kept, &mut places);
        Ok(StateTable {
            image,
            places,
            entries: vec![in alloc; Known::nothing(); usize::from(count)]?,
        })
    }

    /// A law and no work: there is an entry for slot 0 and for each slot to which the program jumps, and for
    /// no other.
    pub fn stands_at_targets(&self)
        ensures entries { AreEntries self.now }
        ensures program { IsProgram self.now.program }
    {
        let _ = self.image.slots();
        let _ = &self.entries;
    }

    /// The place of a slot's entry, if it has one.
    fn entry(&self, slot: u16) -> Option<usize>
        requires { slot < length self.now.program.slots }
        ensures { result ≡ entry_place_of self.now slot }
    {
        let place = usize::from(self.places[usize::from(slot)]);
        if place < self.entries.len() {
            Some(place)
        } else {
            None
        }
    }

    /// Writes what is known at a slot to the state. The result is whether anything is known.
    pub fn read(&self, slot: u16, state: &mut State) -> bool
        requires { slot < length self.now.program.slots }
        ensures known { knowledge_in self.now slot ≡ (if result then Some state.new else None) }
    {
        match self.entry(slot) {
            Some(place) => self.entries[place].read(state),
            None => false,
        }
    }

    /// Follows a jump to a slot: what is known there becomes the least that also covers the state.
    pub fn follow(&mut self, slot: u16, state: &State)
        requires inside { slot < length self.old.program.slots }
        requires kept { IsKept self.old.program slot }
        ensures program { self.new.program ≡ self.old.program }
        ensures covered { IsCovered state.now (knowledge_in self.new slot) }
        ensures least { IsLeast (knowledge_in self.old slot) state.now
            (knowledge_in self.new slot) }
        ensures grown { IsTableGrown (knowledge_in self.old) (knowledge_in self.new) }
        ensures others { (k : ℕ) → k ≢ slot → knowledge_in self.new k ≡ knowledge_in self.old k }
        ensures whole { IfSome (knowledge_in self.new slot) IsWhole }
        ensures all_whole { AreWhole (knowledge_in self.old) → AreWhole (knowledge_in self.new) }
    {
        order_of_states();
        match self.entry(slot) {
            Some(place) => self.entries[place].include(state),
            None => unreachable!(),
        }
    }

    /// Goes on to the next slot: the state stays the running one there, and the result is true. If the program jumps
    /// to the slot, the state is joined into its entry, and the result is false.
    pub fn go_on(&mut self, slot: u16, state: &State) -> bool
        requires inside { slot < length self.old.program.slots }
        ensures program { self.new.program ≡ self.old.program }
        ensures covered { IsCovered state.now (knowledge_next self.new result slot state.now) }
        ensures plain { IsTrue result → IsKept self.new.program slot → ⊥ }
        ensures least { IsFalse result → IsLeast (knowledge_in self.old slot) state.now
            (knowledge_in self.new slot) }
        ensures same { IsTrue result → self.new ≡ self.old }
        ensures grown { IsTableGrown (knowledge_in self.old) (knowledge_in self.new) }
        ensures others { (k : ℕ) → k ≢ slot → knowledge_in self.new k ≡ knowledge_in self.old k }
        ensures all_whole { AreWhole (knowledge_in self.old) → AreWhole (knowledge_in self.new) }
    {
        order_of_states();
        match self.entry(slot) {
            Some(place) => {
                self.entries[place].include(state);
                false
            }
            None => true,
        }
    }

    /// Forgets what is known at each slot.
    pub fn forget(&mut self)
        ensures program { self.new.program ≡ self.old.program }
        ensures nothing { (slot : ℕ) → knowledge_in self.new slot ≡ None }
    {
        for place in 0..self.entries.len() {
            self.entries[place].forget();
        }
    }

    /// Puts a state that covers what is known at a slot in its place.
    pub fn widen(&mut self, slot: u16, state: &State)
        requires inside { slot < length self.old.program.slots }
        requires kept { IsKept self.old.program slot }
        requires covers { IsCoveredIfAny (knowledge_in self.old slot) (Some state.now) }
        ensures program { self.new.program ≡ self.old.program }
        ensures known { knowledge_in self.new slot ≡ Some state.now }
        ensures grown { IsTableGrown (knowledge_in self.old) (knowledge_in self.new) }
        ensures others { (k : ℕ) → k ≢ slot → knowledge_in self.new k ≡ knowledge_in self.old k }
        ensures all_whole { AreWhole (knowledge_in self.old) → AreWhole (knowledge_in self.new) }
    {
        order_of_states();
        state.stands_whole();
        match self.entry(slot) {
            Some(place) => self.entries[place].put(state),
            None => unreachable!(),
        }
    }

    /// Whether what is known at a slot covers the state.
    pub fn covers(&self, slot: u16, state: &State) -> bool
        requires { slot < length self.now.program.slots }
        ensures { IsTrue result ↔ IsCovered state.now (knowledge_in self.now slot) }
    {
        match self.entry(slot) {
            Some(place) => self.entries[place].covers(state),
            None => false,
        }
    }

    /// Whether a number is known of the register at a slot.
    pub fn is_number(&self, slot: u16, register: Register) -> bool
        requires { slot < length self.now.program.slots }
        ensures { result ≡ is_number_at (knowledge_in self.now slot) register }
    {
        match self.entry(slot) {
            Some(place) => self.entries[place].is_number(register),
            None => false,
        }
    }
}
