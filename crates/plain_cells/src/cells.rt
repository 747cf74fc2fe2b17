//! The cells of a node of one thread.

ghost use Rattle.std.specs.Prelude.{◌≡◌, ◌↔◌, ◌<◌, IfOk, IsSome, length};
ghost use Rattle.machine.specs.Sizes.{AreSizes, IsInside, kind_of_map};
ghost use Rattle.machine.specs.Step.{question};
ghost use Rattle.machine.specs.declared.helpers.Helper.TheVariants as helpers;
ghost use Rattle.machine.specs.declared.kinds.MapKind.TheVariants.{Counter, Peak};
ghost use Rattle.plain_cells.specs.Cells.{IsCalled, fresh_cells};
ghost use Rattle.plain_cells.specs.Words.{AreCallsOn, IsOfCell, word_in, zero_words};

use crate::pairs::CellPairs;
use brun::{CallLog, Counters};
use machine::{Call, Helper, MapSizes, Question};
use std::alloc::{AllocError, Global};
use std::marker::Model;

/// The cells of a node of one thread: a plain word for each, beside its complement. Contracts see the maps, the words,
/// and the calls so far.
#[derive(Drop)]
pub struct PlainCells {
    sizes: MapSizes,
    pairs: CellPairs,
    log: CallLog,
}

impl Model for PlainCells {
    ghost use Rattle.std.specs.Prelude.{◌≡◌};
    ghost use Rattle.plain_cells.specs.Cells.{AreInOrder, PlainCellsValue, cells_of};
    ghost use Rattle.plain_cells.specs.Pairs.{complements};

    ghost Value = { PlainCellsValue };

    ghost view = { λ c. cells_of c.sizes c.pairs.words c.log.calls };

    ghost invariant = { λ c. AreInOrder (cells_of c.sizes c.pairs.words c.log.calls) × (c.pairs.kept ≡ complements c.pairs.words) };
}

impl PlainCells {
    /// A word of 0 for each cell of those maps.
    ///
    /// # Errors
    ///
    /// `AllocError` if memory was refused.
    pub fn new(alloc: Global, sizes: &MapSizes) -> Result<PlainCells, AllocError>
        ensures { IfOk result (λ cells. cells ≡ fresh_cells sizes.now) }
    {
        Ok(PlainCells {
            sizes: *sizes,
            pairs: CellPairs::new(alloc, sizes)?,
            log: CallLog::none(),
        })
    }

    /// The word of a cell, if there is one: how many tickets were drawn from it, or the greatest number that was shown to
    /// it. It is no call.
    pub fn word(&self, map: u8, key: u16) -> Option<u64>
        ensures value { result ≡ word_in self.now.words map key }
        ensures inside { IsSome result ↔ IsInside self.now.sizes map key }
    {
        self.pairs.word(map, key)
    }

    /// The calls so far, for proofs.
    pub fn log(&self) -> CallLog
        ensures { result.calls ≡ self.now.asked }
    {
        self.log.again()
    }

    /// A law and no work: the calls so far were answered in order, from words of 0 on, and left the words of now.
    pub fn answer_in_order(&self)
        ensures { AreCallsOn self.now.sizes (zero_words self.now.sizes)
            self.now.asked self.now.words }
    {
        let _ = &self.pairs;
    }

    /// Answers a question for a cell that is there, in a map of a kind of which its helper may ask.
    fn answer(&mut self, asked: Question) -> u64
        requires { IsOfCell self.old.sizes asked }
        ensures { IsCalled asked result self.old self.new }
    {
        let answer = self.pairs.ask(asked);
        let call = Call {
            question: asked,
            answer,
        };
        self.log = self.log.with(&call);
        answer
    }
}

/// Each call finds the word that the call before it for the cell left.
impl Counters for PlainCells {
    ghost use base.Stored.{gnil};

    ghost asked = { λ c. c.asked };

    ghost sizes = { λ c. c.sizes };

    ghost home = { λ c. gnil };

    fn sizes(&self) -> MapSizes
        ensures sizes { result ≡ self.now.sizes }
        ensures limits { AreSizes self.now.sizes }
    {
        self.sizes.stand_limited();
        self.sizes
    }

    fn count(&mut self, map: u8, key: u16) -> u64
        requires { IsInside self.old.sizes map key }
        ensures { IsCalled (question helpers.Count map key 0) result self.old self.new }
    {
        self.answer(question(Helper::Count, map, key, 0))
    }

    fn ticket(&mut self, map: u8, key: u16) -> u64
        requires inside { IsInside self.old.sizes map key }
        requires kind { kind_of_map self.old.sizes map ≡ Counter }
        ensures { IsCalled (question helpers.Ticket map key 0) result self.old self.new }
    {
        self.answer(question(Helper::Ticket, map, key, 0))
    }

    fn peak(&mut self, map: u8, key: u16, value: u64) -> u64
        requires inside { IsInside self.old.sizes map key }
        requires kind { kind_of_map self.old.sizes map ≡ Peak }
        ensures { IsCalled (question helpers.Peak map key value) result self.old self.new }
    {
        self.answer(question(Helper::Peak, map, key, value))
    }
}

/// The question of these parts.
fn question(helper: Helper, map: u8, key: u16, argument: u64) -> Question
    ensures { result ≡ question helper map key argument }
{
    Question {
        helper,
        map,
        key,
        argument,
    }
}
