//! Marks of registers, loop by loop.

ghost use Rattle.std.specs.Prelude.{◌≡◌, ◌≢◌, ◌≤◌, ◌<◌, ◌+◌, ◌*◌, ℕ, IsTrue, true, slice_set};
ghost use Rattle.bver_form.specs.Lowered.{IsMore, IsSettled, count_of, is_lowered};

use bpf_insn::Register;
use std::marker::Model;

/// How many registers can be lowered for a loop: r0 to r9.
const LOWERABLE: usize = 10;

/// The most registers that can be lowered, for the eight loops that a program may declare.
const PAIRS: usize = 8 * LOWERABLE;

/// The registers that were lowered for each loop that a program declares: at its head nothing is known of them.
#[derive(Drop)]
pub struct Lowered {
    lowered: [bool; PAIRS],
    count: u8,
}

impl Model for Lowered {
    ghost use Rattle.std.specs.Prelude.{◌≡◌, List, Bool};
    ghost use Rattle.bver_form.specs.Lowered.{IsLowered, count_of};

    ghost Value = { List Bool };

    ghost view = { λ l. l.lowered };

    ghost invariant = { λ l. IsLowered l.lowered × (l.count ≡ count_of l.lowered) };
}

impl Lowered {
    /// Nothing is lowered.
    pub fn nothing() -> Lowered
        ensures { count_of result ≡ 0 }
    {
        Lowered {
            lowered: [false; PAIRS],
            count: 0,
        }
    }

    /// How many registers were lowered, over all loops.
    pub fn count(&self) -> u8
        ensures count { result ≡ count_of self.now }
        ensures limit { result ≤ 80 }
    {
        self.count
    }

    /// Whether the register was lowered for the loop, by its place among the declared ones. The place is below 8, and
    /// the register is one of r0 to r9.
    pub fn contains(&self, place: usize, register: Register) -> bool
        requires place { place < 8 }
        requires register { register ≤ 9 }
        ensures { result ≡ is_lowered self.now place register }
    {
        self.lowered[LOWERABLE * place + usize::from(register.number())]
    }

    /// Lowers the register for the loop, by its place among the declared ones. The place is below 8, and the register
    /// is one of r0 to r9.
    pub fn lower(&mut self, place: usize, register: Register)
        requires place { place < 8 }
        requires register { register ≤ 9 }
        ensures lowered { self.new ≡ slice_set self.old (10 * place + register) true }
        ensures more { IsMore self.old self.new }
        ensures marked { IsTrue (is_lowered self.new place register) }

        // No other mark changes, and if the count stays, none does.
        ensures others { (k r : ℕ) → r ≤ 9 → (k ≡ place → r ≢ register)
            → is_lowered self.new k r ≡ is_lowered self.old k r }
        ensures settled { IsSettled self.old self.new → self.new ≡ self.old }
    {
        let place = LOWERABLE * place + usize::from(register.number());
        if !self.lowered[place] {
            self.lowered[place] = true;
            self.count += 1;
        }
    }
}
