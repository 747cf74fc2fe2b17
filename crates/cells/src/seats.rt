//! A seat, by which a thread counts and raises.

ghost use Rattle.std.specs.Prelude.{◌≡◌, max};
ghost use Rattle.std.specs.Arc.{arc_value};
ghost use Rattle.machine.specs.Sizes.{AreSizes, IsInside, kind_of_map};
ghost use Rattle.machine.specs.declared.helpers.Helper.TheVariants as helpers;
ghost use Rattle.machine.specs.declared.kinds.MapKind.TheVariants.{Counter, Peak};
ghost use Rattle.cells.specs.Seats.{Asks};

use crate::logs::SeatLog;
use crate::rule::{Counts, Peaks, Tickets, Words};
use crate::words::word_at;
use atomic_table::Seat;
use brun::Counters;
use machine::MapSizes;
use std::marker::Model;
use std::sync::Arc;

/// A seat, by which a thread counts and raises. Contracts see it as the maps, the name of its table, and the answers
/// that it was given.
///
/// If a seat is dropped, what is known of its tickets goes with it: their numbers are missing among those of the
/// others. What it raised stays in the words.
#[derive(Drop)]
pub struct CellSeat {
    pub(crate) sizes: MapSizes,
    pub(crate) words: Arc<Words>,
    pub(crate) place: Seat<(), SeatLog>,
}

impl Model for CellSeat {
    ghost use Rattle.std.specs.Prelude.{◌≡◌, ◌+◌, [], sum};
    ghost use Rattle.std.specs.Arc.{arc_value};
    ghost use Rattle.atomic_table.specs.Seated.{table_id_coded};
    ghost use Rattle.machine.specs.Sizes.{AreSizes};
    ghost use Rattle.cells.specs.Seats.{CellSeatValue, seat, IsSeatPlaced};

    ghost Value = { CellSeatValue };

    ghost view = { λ s. seat s.sizes (table_id_coded.code s.place.table_id) s.place.me.0.answers };

    ghost invariant = { λ s. IsSeatPlaced s.sizes (arc_value s.words).shared.key (arc_value s.words).shared.table_id s.place × (s.place.me.0.parts ≡ 1) };
}

impl CellSeat {
    /// One load of the word of a cell.
    fn load(&mut self, map: u8, key: u16) -> u64
        requires { IsInside self.old.sizes map key }
        ensures asks { Asks helpers.Count map key 0 self.old result self.new }
    {
        let word = word_at(&self.sizes, map, key);
        self.words.shared.load::<Counts>(&mut self.place, word)
    }

    /// One `fetch_add` of the word of a cell.
    fn fetch_add(&mut self, map: u8, key: u16) -> u64
        requires inside { IsInside self.old.sizes map key }
        requires kind { kind_of_map self.old.sizes map ≡ Counter }
        ensures asks { Asks helpers.Ticket map key 0 self.old result self.new }
    {
        let word = word_at(&self.sizes, map, key);
        self.words
            .shared
            .fetch_add::<Tickets>(&mut self.place, word, 1)
    }

    /// One `fetch_max` of the word of a cell. It gives what the word was before.
    fn fetch_max(&mut self, map: u8, key: u16, value: u64) -> u64
        requires inside { IsInside self.old.sizes map key }
        requires kind { kind_of_map self.old.sizes map ≡ Peak }
        ensures asks { Asks helpers.Peak map key value self.old (max result value) self.new }
    {
        let word = word_at(&self.sizes, map, key);
        self.words
            .shared
            .fetch_max::<Peaks>(&mut self.place, word, value)
    }
}

impl Counters for CellSeat {
    ghost use Rattle.cells.specs.Seats.{calls};

    ghost asked = { calls };

    ghost sizes = { λ s. s.sizes };

    ghost home = { λ s. s.home };

    fn sizes(&self) -> MapSizes
        ensures sizes { result ≡ self.now.sizes }
        ensures limits { AreSizes self.now.sizes }
    {
        self.sizes
    }

    fn count(&mut self, map: u8, key: u16) -> u64
        requires { IsInside self.old.sizes map key }
        ensures asks { Asks helpers.Count map key 0 self.old result self.new }
    {
        self.load(map, key)
    }

    fn ticket(&mut self, map: u8, key: u16) -> u64
        requires inside { IsInside self.old.sizes map key }
        requires kind { kind_of_map self.old.sizes map ≡ Counter }
        ensures asks { Asks helpers.Ticket map key 0 self.old result self.new }
    {
        self.fetch_add(map, key)
    }

    fn peak(&mut self, map: u8, key: u16, value: u64) -> u64
        requires inside { IsInside self.old.sizes map key }
        requires kind { kind_of_map self.old.sizes map ≡ Peak }
        ensures asks { Asks helpers.Peak map key value self.old result self.new }
    {
        let found = self.fetch_max(map, key, value);
        found.max(value)
    }
}
