//! What a port has of the table of programs.

ghost use Rattle.std.specs.Prelude.{◌≡◌, ◌<◌, ◌≤◌, true, false, IfSome, Some, None, length};
ghost use Rattle.std.specs.Borrow.{sem, RestsIfNone};
ghost use mathlib.Core.List.{IsPrefix};
ghost use Rattle.bver.specs.Justified.{IsJustified};
ghost use Rattle.annals.specs.Publishes.{publishes_of};
ghost use Rattle.annals.specs.Shown.{IsTakenAtMoment};
ghost use Rattle.node_programs.specs.Published.{judging_program, program_at, generation_at, sizes_of};
ghost use Rattle.publish.specs.Reached.{IsReaderInside, known, reached};
ghost use Rattle.publish.specs.contracts.reader.Reader.{the_row};

use crate::history::Front;
use crate::reported::Told;
use crate::rule::{InFamily, Looks, PublishedView};
use crate::table::Table;
use annals::{Family, PublishedCount};
use bver::{Accepted, MapSizes};
use left_right::reader::{Reader as Entrance, Reading};
use node_programs::ProgramVersion;
use std::marker::Model;
use std::mem;
use std::sync::Arc;

/// What a port has of the table of programs: how it enters, and how far it knows the history. It is outside of the
/// table or inside, and always can enter again. Contracts see it as the programs that it knows, and those of the table
/// in which it is.
pub struct Reader<J: Family> {
    outside: Option<Entrance<Table, PublishedView, InFamily<J>>>,
    inside: Option<Reading<Table, PublishedView, InFamily<J>>>,
    published_count: Arc<PublishedCount<J>>,
    known: Front,
    sizes: MapSizes,
}

impl<J: Family> Model for Reader<J> {
    ghost use Rattle.std.specs.Prelude.{◌≡◌, ◌<◌, ◌⊎◌, IsSome, length};
    ghost use Rattle.core.specs.Option.{option_map};
    ghost use Rattle.node_programs.specs.Published.{sizes_of as first_sizes};
    ghost use Rattle.publish.specs.Reached.{Known, known as knows};

    ghost Value = { Known };

    ghost view = { λ r. knows r.known.programs (option_map (λ s. s.part.value.programs) r.inside) };

    ghost invariant = { λ r. (r.known.family ≡ J.book) × (0 < length r.known.programs) × (r.sizes ≡ first_sizes r.known.programs) × (IsSome r.outside ⊎ IsSome r.inside) };
}

impl<J: Family> Drop for Reader<J> {
    fn drop(self) {
        let Self {
            outside: _outside,
            inside,
            published_count: _published_count,
            known: _known,
            sizes: _,
        } = self;
        if let Some(reading) = inside {
            drop(reading.leave());
        }
    }
}

/// The program of a slot, as it was taken. The table keeps it while this is held.
pub struct Taken<'a, J: Family> {
    reader: &'a mut Reader<J>,
    slot: u8,
    ghost few: { slot < 4 },
}

impl<J: Family> Reader<J> {
    /// A reader that knows that beginning.
    pub(crate) fn new(
        entrance: Entrance<Table, PublishedView, InFamily<J>>,
        published_count: Arc<PublishedCount<J>>,
        front: Front,
        sizes: MapSizes,
    ) -> Reader<J>
        requires family { front.family ≡ J.book }
        requires some { 0 < length front.programs }
        requires sizes { sizes ≡ sizes_of front.programs }
        ensures { result ≡ known front.programs None }
    {
        Reader {
            outside: Some(entrance),
            inside: None,
            published_count,
            known: front,
            sizes,
        }
    }

    /// How far the history is known.
    pub(crate) fn front(&self) -> &Front
        ensures { result.now ≡ reached J.book self.now.programs }
    {
        &self.known
    }

    /// Whoever knows a beginning of the node's history then knows the publishes as well that the reader knows.
    pub fn announce(&self, known: &mut annals::Front<J>)
        ensures old { IsPrefix known.old known.new }
        ensures reported { IsPrefix self.now.programs (publishes_of known.new) }
    {
        self.known.announce(known);
    }

    /// The maps for which each program was accepted, with their kinds.
    pub fn sizes(&self) -> MapSizes
        ensures value { result ≡ sizes_of self.now.programs }
        ensures some { 0 < length self.now.programs }
    {
        self.sizes
    }

    /// Takes in what a publisher gave, if that is no less than is known.
    pub fn learn(&mut self, reported: &Told<J>)
        ensures longer { length self.old.programs ≤ length reported.now
            → self.new ≡ known reported.now self.old.inside }
        ensures shorter { length reported.now < length self.old.programs → self.new ≡ self.old }
        ensures old { IsPrefix self.old.programs self.new.programs }
        ensures reported { IsPrefix reported.now self.new.programs }
        ensures inside { self.new.inside ≡ self.old.inside }
        ensures sizes { sizes_of self.new.programs ≡ sizes_of self.old.programs }
    {
        self.known.advance(reported.front());
    }

    /// Takes the program of a slot, which is below 4. At one moment of the node's history readers saw exactly the
    /// programs of the table that is taken. That moment is not before what somebody knew and not after what this one
    /// then knows.
    ///
    /// It is `None` in three cases:
    ///
    /// - A program that was taken was never let go of.
    /// - The publisher is gone.
    /// - The table shows less than is known or was seen (no test met that).
    pub fn take(&mut self, front: &mut annals::Front<J>, slot: u8) -> Option<Taken<'_, J>>
        requires slot { slot < 4 }
        ensures known { IsPrefix front.old front.new }
        ensures moment { IfSome result
            (λ t. IsTakenAtMoment front.old front.new t.reader.now.programs) }
        ensures* unchanged { sem 𝓛
            (RestsIfNone (the_row J.row J.Family) self.entry (λ t. t.reader.ghost_name) result
            (λ n. n ≡ self.old)) }
        ensures same_reference { IfSome result (λ t. t.reader.ghost_name ≡ self.entry.ghost_name) }
        ensures seen { IfSome result (λ t. IsPrefix self.old.programs t.reader.now.programs) }
        ensures inside { IfSome result (λ t. IsReaderInside t.reader.now) }
        ensures slot { IfSome result (λ t. t.slot ≡ slot) }
        ensures sizes { IfSome result
            (λ t. sizes_of t.reader.now.programs ≡ sizes_of self.old.programs) }
    {
        if self.enter(front) {
            Some(Taken { reader: self, slot })
        } else {
            None
        }
    }

    /// Enters the table, if it shows no less than is known and was seen, and knows that.
    fn enter(&mut self, front: &mut annals::Front<J>) -> bool
        ensures front { IsPrefix front.old front.new }
        ensures moment { result ≡ true → IsTakenAtMoment front.old front.new self.new.programs }
        ensures entered { result ≡ true → IsPrefix self.old.programs self.new.programs
            × IsReaderInside self.new }
        ensures out { result ≡ false → self.new ≡ self.old }
        ensures sizes { sizes_of self.new.programs ≡ sizes_of self.old.programs }
    {
        if self.inside.is_some() {
            return false;
        }
        let Some(entrance) = self.outside.take() else {
            return false;
        };
        let least = self.published_count.count(front);
        let reading = match entrance.enter_as::<Looks<J>>() {
            Ok(reading) => reading,
            Err(entrance) => {
                self.outside = Some(entrance);
                return false;
            }
        };
        let count = reading.get().front().len();
        let table = reading.get().front().known();
        let is_taken = self.published_count.settle(front, least, &table, count);
        if !is_taken || count < self.known.len() {
            self.outside = Some(reading.leave());
            return false;
        }
        self.known.advance(reading.get().front());
        if let Some(late) = mem::replace(&mut self.inside, Some(reading)) {
            drop(late.leave());
        }
        true
    }

    /// The program of a slot of the table.
    fn shown(&self, slot: u8) -> &ProgramVersion
        requires slot { slot < 4 }
        requires inside { IsReaderInside self.now }
        ensures value { judging_program self.now.programs slot ≡ Some result.now }
        ensures sizes { result.now.0.sizes ≡ sizes_of self.now.programs }
    {
        let Some(reading) = &self.inside else {
            unreachable!()
        };
        reading.get().shown(slot)
    }

    /// Leaves the table.
    fn leave(&mut self)
        ensures { self.new ≡ known self.old.programs None }
    {
        if let Some(reading) = self.inside.take() {
            self.outside = Some(reading.leave());
        }
    }
}

impl<J: Family> Taken<'_, J> {
    /// The program. The condition is one that [`Reader::take`] ensures of what it gives.
    pub fn accepted(&self) -> &Accepted
        requires { IsReaderInside self.now.reader.now }
        ensures program { program_at self.now.reader.now.programs self.now.slot ≡ Some result.now }
        ensures sizes { result.now.sizes ≡ sizes_of self.now.reader.now.programs }
        ensures justified { IsJustified result.now.program result.now.sizes }
    {
        self.reader.shown(self.slot).program()
    }

    /// The generation of the program. The condition is one that [`Reader::take`] ensures of what it gives.
    pub fn generation(&self) -> u32
        requires { IsReaderInside self.now.reader.now }
        ensures { generation_at self.now.reader.now.programs self.now.slot ≡ Some result }
    {
        self.reader.shown(self.slot).generation()
    }
}

impl<'a, J: Family> Drop for Taken<'a, J> {
    fn drop(self)
        ensures { self.exit.0.now ≡ known self.entry.reader.now.programs None }
    {
        let Taken { reader, slot: _ } = self;
        reader.leave();
    }
}
