//! The cells of a node before a load: cells that nobody asked, or cells that are past every quota.

ghost use Rattle.std.specs.Prelude.{◌≡◌, ◌++◌, ◌∷◌, [], IfOk};
ghost use Rattle.machine.specs.Runs.{call};
ghost use Rattle.machine.specs.Sizes.{kind_of_map};
ghost use Rattle.machine.specs.Step.{question};
ghost use Rattle.plain_cells.specs.Words.{IsOfCell};
ghost use Rattle.job_rehearse.specs.Starts.{AreAnsweredFrom, AreBegun, asked_so_far, home_of, raised_answer};

use brun::Counters;
use machine::{Helper, MapKind, MapSizes, Question};
use plain_cells::PlainCells;
use std::alloc::{AllocError, Global};

/// How the cells of a node are before a load.
#[derive(Clone, Copy, Debug, PartialEq, Eq)]
pub enum Start {
    /// Nobody asked them.
    Fresh,
    /// Each counter has given 2^32 tickets, which is past every limit of a quota, and each peak is the greatest number.
    Spent,
}

/// How many tickets a spent counter has given.
const SPENT: u64 = 1 << 32;

/// What a cell of that kind that began so answers, if a cell that nobody asked before gives this answer.
fn raised_answer(start: Start, kind: MapKind, answer: u64) -> u64
    ensures { result ≡ raised_answer start kind answer }
{
    match start {
        Start::Fresh => answer,
        Start::Spent => match kind {
            MapKind::Counter => answer.wrapping_add(SPENT),
            MapKind::Peak => u64::MAX,
        },
    }
}

/// What the cells of a map are for; if there is no such map, they count.
fn kind_of(sizes: &MapSizes, map: u8) -> MapKind
    ensures { result ≡ kind_of_map sizes.now map }
{
    match sizes.kind(map) {
        Some(kind) => kind,
        None => MapKind::Counter,
    }
}

/// Asks cells.
fn ask<C: Counters>(cells: &mut C, asked: Question) -> u64
    requires { IsOfCell (C.sizes cells.old) asked }
    ensures asked { C.asked cells.new ≡ C.asked cells.old ++ call asked result ∷ [] }
    ensures sizes { C.sizes cells.new ≡ C.sizes cells.old }
{
    match asked.helper {
        Helper::Count => cells.count(asked.map, asked.key),
        Helper::Ticket => cells.ticket(asked.map, asked.key),
        Helper::Peak => cells.peak(asked.map, asked.key, asked.argument),
    }
}

/// The question of these parts.
fn question(helper: Helper, map: u8, key: u16, argument: u64) -> Question
    ensures { result ≡ question helper map key argument }
{
    Question {
        helper,
        map,
        key,
        argument,
    }
}

/// The cells of a node before and in a load.
#[derive(Drop)]
pub struct LoadCells {
    /// How they began.
    pub start: Start,
    /// Cells that nobody asked before, which answer in their place.
    pub cells: PlainCells,
}

impl LoadCells {
    /// The cells of those maps that began so.
    ///
    /// # Errors
    ///
    /// An error if memory is refused.
    pub fn new(alloc: Global, sizes: &MapSizes, start: Start) -> Result<LoadCells, AllocError>
        ensures { IfOk result (AreBegun start sizes.now) }
    {
        Ok(LoadCells {
            start,
            cells: PlainCells::new(alloc, sizes)?,
        })
    }

    /// A law and no work: cells that began so answered the calls so far, in order.
    pub fn answer_in_order(&self)
        ensures { AreAnsweredFrom self.now.start self.now.cells.sizes (asked_so_far self.now) }
    {
        self.cells.answer_in_order();
    }

    /// Answers a question for a cell that is there, in a map of a kind of which its helper may ask.
    fn answer(&mut self, asked: Question) -> u64
        requires { IsOfCell self.old.cells.sizes asked }
        ensures asked { asked_so_far self.new ≡ asked_so_far self.old ++ call asked result ∷ [] }
        ensures sizes { self.new.cells.sizes ≡ self.old.cells.sizes }
        ensures home { home_of self.new.start ≡ home_of self.old.start }
    {
        let kind = kind_of(&self.cells.sizes(), asked.map);
        let own = ask(&mut self.cells, asked);
        raised_answer(self.start, kind, own)
    }
}

/// Each call finds what the calls before it left.
impl Counters for LoadCells {
    ghost use Rattle.job_rehearse.specs.Starts.{asked_so_far, home_of};

    ghost asked = { asked_so_far };

    ghost sizes = { λ c. c.cells.sizes };

    ghost home = { λ c. home_of c.start };

    fn sizes(&self) -> MapSizes {
        self.cells.sizes()
    }

    fn count(&mut self, map: u8, key: u16) -> u64 {
        self.answer(question(Helper::Count, map, key, 0))
    }

    fn ticket(&mut self, map: u8, key: u16) -> u64 {
        self.answer(question(Helper::Ticket, map, key, 0))
    }

    fn peak(&mut self, map: u8, key: u16, value: u64) -> u64 {
        self.answer(question(Helper::Peak, map, key, value))
    }
}
