//! All cells of a node.

ghost use Rattle.std.specs.Prelude.{◌≡◌, ◌-◌, ◌<◌, ◌++◌, [], All, IfOk, replicate};
ghost use Rattle.std.specs.Arc.{arc_value};
ghost use Rattle.atomic_table.specs.Seated.{table_id_coded};
ghost use Rattle.machine.specs.Sizes.{IsInside, kind_of_map};
ghost use Rattle.machine.specs.declared.kinds.MapKind.TheVariants.{Counter, Peak};
ghost use Rattle.cells.specs.Counting.{seat_log, IsTicketCounted, IsPeak};
ghost use Rattle.cells.specs.Logs.{cell_word_of, IsUnder};
ghost use Rattle.cells.specs.Seats.{seat, calls, calls_back, cells, cells_with, AreNumbered, IsHighest, IsSeatPlaced, IsSeatOf, AreSeatsBack};

use crate::logs::SeatLog;
use crate::rule::{Heights, Parts, Totals, Words};
use crate::seats::CellSeat;
use crate::words::{first_word, word_at};
use atomic_table::{Seat, Table};
use machine::MapSizes;
use std::alloc::{AllocError, Global};
use std::marker::Model;
use std::sync::Arc;

/// The most words that cells have, and one more.
const MOST: usize = 257;

/// All cells of a node, with what came back of its seats.
#[derive(Drop)]
pub struct Cells {
    sizes: MapSizes,
    words: Arc<Words>,
    rest: Seat<(), SeatLog>,
}

impl Model for Cells {
    ghost use Rattle.std.specs.Arc.{arc_value};
    ghost use Rattle.atomic_table.specs.Seated.{table_id_coded};
    ghost use Rattle.cells.specs.Seats.{CellsValue, cells, IsSeatPlaced};

    ghost Value = { CellsValue };

    ghost view = { λ s. cells s.sizes (table_id_coded.code s.rest.table_id) s.rest.me.0.parts s.rest.me.0.answers };

    ghost invariant = { λ s. IsSeatPlaced s.sizes (arc_value s.words).shared.key (arc_value s.words).shared.table_id s.rest };
}

/// That many words of 0.
fn zeros() -> [u64; MOST]
    ensures { result ≡ replicate 257 0 }
{
    [0; MOST]
}

/// The words of these maps, each 0, and the one place in them, which has all parts.
fn words(alloc: Global, sizes: &MapSizes) -> Result<(Words, Seat<(), SeatLog>), AllocError>
    ensures placed { IfOk result
        (λ made. IsSeatPlaced sizes.now made.0.shared.key made.0.shared.table_id made.1) }
    ensures whole { IfOk result (λ made. made.1.me.0 ≡ seat_log sizes.now 256 []) }
{
    let zeros = zeros();
    let zeros: &[u64] = &zeros;
    let count = first_word(sizes, sizes.maps()) + 1;
    Table::of_words(alloc, &zeros[..count], sizes)
}

/// A new seat, with one part of the place's.
fn new_seat(
    sizes: &MapSizes,
    words: &Arc<Words>,
    rest: &mut Seat<(), SeatLog>,
) -> Result<CellSeat, AllocError>
    requires placed { IsSeatPlaced sizes.now (arc_value words.now).shared.key
        (arc_value words.now).shared.table_id rest.old }
    requires fresh { rest.old.me.0.answers ≡ [] }
    requires part { 0 < rest.old.me.0.parts }
    ensures seat { IfOk result
        (λ s. s ≡ seat sizes.now (table_id_coded.code rest.old.table_id) []) }
    ensures home { rest.new.table_id ≡ rest.old.table_id }
    ensures slots { rest.new.me.1 ≡ [] }
    ensures rest { IfOk result (λ s. rest.new.me.0 ≡ seat_log sizes.now (rest.old.me.0.parts - 1) []) }
{
    let shared = Arc::try_clone(words)?;
    let place = words.shared.split_seat::<Parts>(rest);
    Ok(CellSeat {
        sizes: *sizes,
        words: shared,
        place,
    })
}

impl Cells {
    /// The cells of these maps, each 0, and that many seats. No more memory is asked for afterwards.
    ///
    /// # Errors
    ///
    /// `AllocError` if memory was refused.
    pub fn new(
        alloc: Global,
        sizes: &MapSizes,
        seats: u8,
    ) -> Result<(Cells, Vec<CellSeat>), AllocError>
        ensures cells { IfOk result
            (λ made. made.0 ≡ cells sizes.now made.0.home (256 - seats) []) }
        ensures seats { IfOk result
            (λ made. made.1.items ≡ replicate seats (seat sizes.now made.0.home [])) }
    {
        let (words, mut rest) = words(alloc, sizes)?;
        let words = Arc::new(alloc, words)?;
        let mut places = Vec::with_capacity(alloc, usize::from(seats))?;
        for _seat in 0..seats {
            places.push(new_seat(sizes, &words, &mut rest)?)?;
        }
        let cells = Cells {
            sizes: *sizes,
            words,
            rest,
        };
        Ok((cells, places))
    }

    /// Takes back a seat of these cells, with the answers that it was given.
    #[tactic(auto, using(crate::proofs::CellsOfWords::calls_joined))]
    pub fn take_back(&mut self, seat: CellSeat)
        requires { IsSeatOf self.old seat }
        ensures cells { self.new ≡ cells_with self.old seat }
        ensures calls { calls_back self.new ≡ calls_back self.old ++ calls seat }
    {
        let CellSeat { place, .. } = seat;
        self.words.shared.join_seat::<Parts>(&mut self.rest, place);
    }

    /// How many tickets were drawn from a cell of a counter map, modulo 2^64: one load of its word, by whoever takes
    /// the cells apart. It is no call of a program, and no seat's.
    ///
    /// The map and the key must be inside the sizes, which `MapSizes::contains` tests. `MapSizes::kind` gives the map's
    /// kind.
    pub fn drawn(&mut self, map: u8, key: u16) -> u64
        requires inside { IsInside self.old.sizes map key }
        requires kind { kind_of_map self.old.sizes map ≡ Counter }
        ensures same { self.new ≡ self.old }
        ensures counted { AreSeatsBack self.old
            → IsTicketCounted (cell_word_of self.old.sizes map key) result self.old.answers }
        ensures ticket_numbers { AreSeatsBack self.old → AreNumbered self.old map key result }
    {
        let word = word_at(&self.sizes, map, key);
        self.words.shared.load::<Totals>(&mut self.rest, word)
    }

    /// What a cell of a peak map was raised to, or 0 if it never was. It is one load of its word, by whoever takes the
    /// cells apart. It is no call of a program, and no seat's.
    ///
    /// The map and the key must be inside the sizes, which `MapSizes::contains` tests. `MapSizes::kind` gives the map's
    /// kind.
    pub fn highest(&mut self, map: u8, key: u16) -> u64
        requires inside { IsInside self.old.sizes map key }
        requires kind { kind_of_map self.old.sizes map ≡ Peak }
        ensures same { self.new ≡ self.old }
        ensures above { All (IsUnder (cell_word_of self.old.sizes map key) result) self.old.answers }
        ensures peak { AreSeatsBack self.old
            → IsPeak (cell_word_of self.old.sizes map key) result self.old.answers }
        ensures calls { AreSeatsBack self.old → IsHighest self.old map key result }
    {
        let word = word_at(&self.sizes, map, key);
        self.words.shared.load::<Heights>(&mut self.rest, word)
    }
}
