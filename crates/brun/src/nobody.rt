//! Cells that a run does not ask.

ghost use Rattle.std.specs.Prelude.{◌≡◌, ◌++◌, ◌∷◌, []};
ghost use Rattle.machine.specs.Runs.{call};
ghost use Rattle.machine.specs.Sizes.{AreSizes};

use crate::counters::Counters;
use crate::log::CallLog;
use bver::Accepted;
use machine::{Call, Helper, MapSizes, Question};

/// The cells of a run that stops at each question, and so asks none. They have the maps of its program, and answer 0.
#[derive(Drop)]
pub(crate) struct Nobody {
    sizes: MapSizes,
    log: CallLog,
}

impl Nobody {
    /// Cells with the maps for which the program was accepted.
    #[inline(always)]
    pub fn new(accepted: &Accepted) -> Nobody
        ensures { result.sizes ≡ accepted.now.sizes }
    {
        Nobody {
            sizes: accepted.sizes(),
            log: CallLog::none(),
        }
    }

    /// Answers 0.
    #[inline(always)]
    fn zero(&mut self, asked: Question) -> u64
        ensures asked { self.new.log.calls ≡ self.old.log.calls ++ call asked result ∷ [] }
        ensures sizes { self.new.sizes ≡ self.old.sizes }
    {
        let call = Call {
            question: asked,
            answer: 0,
        };
        self.log = self.log.with(&call);
        0
    }
}

impl Counters for Nobody {
    ghost use base.Stored.{gnil};

    ghost asked = { λ c. c.log.calls };

    ghost sizes = { λ c. c.sizes };

    ghost home = { λ c. gnil };

    fn sizes(&self) -> MapSizes
        ensures sizes { result ≡ self.now.sizes }
        ensures limits { AreSizes self.now.sizes }
    {
        self.sizes.stand_limited();
        self.sizes
    }

    fn count(&mut self, map: u8, key: u16) -> u64 {
        self.zero(Question {
            helper: Helper::Count,
            map,
            key,
            argument: 0,
        })
    }

    fn ticket(&mut self, map: u8, key: u16) -> u64 {
        self.zero(Question {
            helper: Helper::Ticket,
            map,
            key,
            argument: 0,
        })
    }

    fn peak(&mut self, map: u8, key: u16, value: u64) -> u64 {
        self.zero(Question {
            helper: Helper::Peak,
            map,
            key,
            argument: value,
        })
    }
}
