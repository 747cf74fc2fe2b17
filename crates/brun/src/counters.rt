//! The cells that a program asks.

ghost use Rattle.std.specs.Prelude.{◌≡◌, ◌++◌, ◌∷◌, [], List};
ghost use base.Stored.{Gv};
ghost use Rattle.machine.specs.declared.calls.Call.{Call};
ghost use Rattle.machine.specs.Runs.{call};
ghost use Rattle.machine.specs.Step.{question};
ghost use Rattle.machine.specs.Laws.{IsAnswerable};
ghost use Rattle.machine.specs.Sizes.{AreSizes, IsInside, Maps, kind_of_map};

use machine::{Helper, MapKind, MapSizes, Question};

/// The cells that a program asks by its helpers. Each call appends itself to the calls so far, with the answer that
/// it returns. Nothing else is known of the answers here, since others may ask too.
pub trait Counters {
    /// The calls so far, in order.
    ghost asked: { Self → List Call };

    /// How many cells each map has, and of which kind it is, by the map's index.
    ghost sizes: { Self → Maps };

    /// The name of the cells that are asked. No call changes it.
    ghost home: { Self → Gv };

    /// How many cells each map has, and of which kind it is. No call changes it.
    fn sizes(&self) -> MapSizes
        ensures sizes { result ≡ sizes self.now }
        ensures limits { AreSizes (sizes self.now) };

    /// [`Helper::Count`]: what the cell holds. In a counter map it is how many tickets were drawn from the cell,
    /// modulo 2^64. In a peak map it is the greatest number that was shown to the cell.
    ///
    /// The map and the key must be inside the sizes, which `MapSizes::contains` tests.
    fn count(&mut self, map: u8, key: u16) -> u64
        requires { IsInside (sizes self.old) map key }
        ensures asked { asked self.new
            ≡ asked self.old ++ call (question Helper.Count map key 0) result ∷ [] }
        ensures sizes { sizes self.new ≡ sizes self.old }
        ensures home { home self.new ≡ home self.old };

    /// [`Helper::Ticket`]: draws a ticket from the cell, and answers its number. That is how many were drawn before
    /// it, modulo 2^64.
    ///
    /// The map and the key must be inside the sizes, which `MapSizes::contains` tests. The map must be a counter map,
    /// which `MapSizes::kind` says.
    fn ticket(&mut self, map: u8, key: u16) -> u64
        requires inside { IsInside (sizes self.old) map key }
        requires kind { kind_of_map (sizes self.old) map ≡ MapKind.Counter }
        ensures asked { asked self.new
            ≡ asked self.old ++ call (question Helper.Ticket map key 0) result ∷ [] }
        ensures sizes { sizes self.new ≡ sizes self.old }
        ensures home { home self.new ≡ home self.old };

    /// [`Helper::Peak`]: shows the cell a number, which raises the cell to the greater of both. It answers what the
    /// cell then holds.
    ///
    /// The map and the key must be inside the sizes, which `MapSizes::contains` tests. The map must be a peak map,
    /// which `MapSizes::kind` says.
    fn peak(&mut self, map: u8, key: u16, value: u64) -> u64
        requires inside { IsInside (sizes self.old) map key }
        requires kind { kind_of_map (sizes self.old) map ≡ MapKind.Peak }
        ensures asked { asked self.new
            ≡ asked self.old ++ call (question Helper.Peak map key value) result ∷ [] }
        ensures sizes { sizes self.new ≡ sizes self.old }
        ensures home { home self.new ≡ home self.old };
}

/// Asks the cells a question, and gives their answer.
#[inline(always)]
pub(crate) fn ask<C: Counters>(counters: &mut C, asked: Question) -> u64
    requires { IsAnswerable (C.sizes counters.old) asked.helper asked.map asked.key asked.argument }
    ensures asked { C.asked counters.new ≡ C.asked counters.old ++ call asked result ∷ [] }
    ensures sizes { C.sizes counters.new ≡ C.sizes counters.old }
    ensures home { C.home counters.new ≡ C.home counters.old }
{
    match asked.helper {
        Helper::Count => counters.count(asked.map, asked.key),
        Helper::Ticket => counters.ticket(asked.map, asked.key),
        Helper::Peak => counters.peak(asked.map, asked.key, asked.argument),
    }
}
