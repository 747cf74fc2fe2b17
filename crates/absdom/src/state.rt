//! What is known at a slot.

ghost use Rattle.std.specs.Prelude.{◌≡◌, ◌+◌, ◌<◌, ◌≤◌, ◌-◌, ℕ, ◌↔◌, IsTrue, false, length};
ghost use Rattle.machine.specs.declared.regions.TheConstants.{STACK_SIZE};
ghost use Rattle.absdom.specs.Kinds.{joined_kinds, IsKindBelow};
ghost use Rattle.absdom.specs.State.{IsState, IsWhole, IsStateBelow, IsStateJoin, IsEntry, kind_at, kind_in, range_at, with_kind, with_stack, after_call, entry_kinds, AreJoined, AreKindsBelow};
ghost use Rattle.absdom_stack.specs.Marks.{mark_at, all_marked};
ghost use Rattle.absdom_stack.specs.StackWords.{all_whole, range_in, AreAllWhole};
ghost use Rattle.absdom.specs.Effect.{with_stored};
ghost use Rattle.absdom_stack.specs.Marks.{AreInside};

use crate::kinds::AbsKind;
use crate::offsets::Offsets;
use absdom_num::Range;
use absdom_stack::{Marks, STACK_WORDS, Spill, StackWords};
use bpf_insn::{REGISTERS, Register};
use machine::Region;
use std::marker::Model;

/// The kind of each register.
#[derive(Clone, Copy, Debug)]
struct Registers {
    kinds: [AbsKind; REGISTERS],
}

/// What is known at a slot: the kind of each register, and which bytes of the stack are set. It also has the range of
/// the number in each word of eight bytes. If not all eight bytes of a word are set, nothing is known of the word.
#[derive(Clone, Debug, Drop)]
pub struct State {
    registers: Registers,
    marks: Marks,
    words: StackWords,
}

impl Model for State {
    ghost use Rattle.absdom.specs.State.{StateValue};

    ghost Value = { StateValue };

    ghost use Rattle.absdom.specs.State.{IsWhole};

    ghost view = { λ s. record { kinds = s.registers.kinds; marks = s.marks; ranges = s.words } };

    ghost invariant = { λ s. IsWhole (record { kinds = s.registers.kinds; marks = s.marks; ranges = s.words }) };
}

impl State {
    /// What is known at entry, by the calling rules. The register r1 points to the front of the header, r2 to its
    /// tail, and r10 to the end of the stack. The port is in r3, 0 to 31. All else is unset.
    pub fn entry() -> State
        ensures entry { IsEntry result }
        ensures known { IsState result }
        ensures whole { IsWhole result }
    {
        State {
            registers: Registers {
                kinds: kinds_at_entry(),
            },
            marks: Marks::none(),
            words: StackWords::new(),
        }
    }

    /// A law and no work: each state has eleven registers, 512 marks, and 64 words. The ranges and offsets of
    /// registers and words have their ends in order. The range of a word that is not all set is whole. Any two states
    /// can be compared, so the laws on larger states hold of them.
    pub fn stands_whole(&self)
        ensures { IsWhole self.now }
    {
        let _ = &self.registers.kinds;
    }

    /// What is known of a register.
    pub fn kind(&self, register: Register) -> AbsKind
        ensures { result ≡ kind_at self.now register }
    {
        self.registers.kinds[usize::from(register.number())]
    }

    /// The range of the number in a word of the stack. Word k is the bytes 8k to 8k + 7, at offsets 8k - 512 to 8k -
    /// 505. If none is known there, or if the word is past the last one, 63, the range is all numbers.
    pub fn word(&self, word: usize) -> Range
        ensures { result ≡ range_in self.now.ranges word }
    {
        if word < STACK_WORDS {
            self.words.get(word)
        } else {
            Range::whole()
        }
    }

    /// Writes a register.
    #[inline(always)]
    pub fn write(&mut self, register: Register, kind: AbsKind)
        ensures { self.new ≡ with_kind self.old register kind }
    {
        self.registers.kinds[usize::from(register.number())] = kind;
    }

    /// Writes a number to a register. Its range goes through registers of the processor. A kind that is copied as a
    /// whole goes through memory, in parts that the processor waits for.
    #[inline(always)]
    pub(crate) fn write_number(&mut self, register: Register, range: Range)
        ensures { self.new ≡ with_kind self.old register (AbsKind.Num range) }
    {
        self.write(register, AbsKind::Num(range));
    }

    /// Becomes equal to the other state.
    pub fn set_to(&mut self, other: &State)
        ensures { self.new ≡ other.now }
    {
        self.registers = other.registers;
        self.marks = other.marks;
        self.words.set_to(&other.words);
    }

    /// Forgets the range of each word of the stack. A byte that is set stays set.
    pub fn forget_words(&mut self)
        ensures forgotten { self.new ≡ with_stack self.old self.old.marks all_whole }
        ensures unknown { AreAllWhole self.new.ranges }
    {
        self.words.forget();
    }

    /// Grows to the least state above both, register by register and word by word. A byte is set if it is set in
    /// both.
    pub fn join(&mut self, other: &State)
        ensures joint { IsStateJoin self.old other.now self.new }
        ensures known { IsState self.new }
        ensures whole { IsWhole self.new }
    {
        join_kinds(&mut self.registers.kinds, &other.registers.kinds);
        self.marks.join(&other.marks);
        self.words.include(&other.words);
    }

    /// Whether this state says all that the other says.
    pub fn leq(&self, other: &State) -> bool
        ensures { IsTrue result ↔ IsStateBelow self.now other.now }
    {
        if !are_below(&self.registers.kinds, &other.registers.kinds) {
            return false;
        }
        if !self.marks.leq(&other.marks) {
            return false;
        }
        self.words.are_within(&other.words)
    }

    /// Calls a helper: r0 is then any number, and r1 to r5 are unset.
    pub fn call(&mut self)
        ensures { self.new ≡ after_call self.old }
    {
        self.registers.kinds[0] = AbsKind::Num(Range::whole());
        self.registers.kinds[1] = AbsKind::Unset;
        self.registers.kinds[2] = AbsKind::Unset;
        self.registers.kinds[3] = AbsKind::Unset;
        self.registers.kinds[4] = AbsKind::Unset;
        self.registers.kinds[5] = AbsKind::Unset;
    }

    /// Whether the bytes of the stack from `first` to before `end` are set, counted from its lowest byte.
    pub fn are_set(&self, first: usize, end: usize) -> bool
        requires { end ≤ STACK_SIZE }
        ensures { result ≡ all_marked self.now.marks first (end - first) }
    {
        self.marks.are_set(first, end)
    }

    /// The range of the number in a word of the stack.
    pub(crate) fn range(&self, word: usize) -> Range
        requires { word < 64 }
        ensures { result ≡ range_at self.now word }
    {
        self.words.get(word)
    }

    /// Stores a number of that range in `bytes` bytes of the stack, from `lowest`, or from any byte up to `highest`.
    pub(crate) fn store(
        &mut self,
        spill: Spill,
        bytes: usize,
        lowest: usize,
        highest: usize,
        value: Range,
    )
        requires bytes { 1 ≤ bytes }
        requires inside { AreInside bytes (lowest, highest) }
        ensures { self.new ≡ with_stored spill self.old bytes (lowest, highest) value }
    {
        self.marks.mark_stored(bytes, lowest, highest);
        self.words.store(spill, bytes, lowest, highest, value);
    }
}

/// The kinds of the registers at entry.
fn kinds_at_entry() -> [AbsKind; REGISTERS]
    ensures { result ≡ entry_kinds }
{
    [
        AbsKind::Unset,
        AbsKind::Ptr(Region::Front, Offsets::zero()),
        AbsKind::Ptr(Region::Tail, Offsets::zero()),
        AbsKind::Num(Range::new(0, 31)),
        AbsKind::Unset,
        AbsKind::Unset,
        AbsKind::Unset,
        AbsKind::Unset,
        AbsKind::Unset,
        AbsKind::Unset,
        AbsKind::Ptr(Region::Stack, Offsets::zero()),
    ]
}

/// The kind of a register.
fn kind_of(kinds: &[AbsKind; REGISTERS], register: usize) -> AbsKind
    requires { register < 11 }
    ensures { result ≡ kind_in kinds.now register }
{
    kinds[register]
}

/// Register by register the least kind above both.
fn join_kinds(a: &mut [AbsKind; REGISTERS], b: &[AbsKind; REGISTERS])
    ensures kinds { AreJoined a.old b.now a.new }
    ensures size { length a.new ≡ 11 }
{
    for register in 0..REGISTERS {
        let kind = kind_of(a, register).join(&kind_of(b, register));
        a[register] = kind;
    }
}

/// Whether each kind is below the other's of the same register.
fn are_below(a: &[AbsKind; REGISTERS], b: &[AbsKind; REGISTERS]) -> bool
    ensures { IsTrue result ↔ AreKindsBelow a.now b.now }
{
    for register in 0..REGISTERS {
        if !a[register].leq(&b[register]) {
            return false;
        }
    }
    true
}
