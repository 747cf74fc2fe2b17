//! The chain of a node's publishes.

ghost use Rattle.std.specs.Prelude.{◌≡◌, ◌+◌, [], IfSome};
ghost use Rattle.std.specs.Arc.{arc_value};
ghost use mathlib.Core.List.{IsPrefix};
ghost use Rattle.node_programs.specs.Histories.{entry, longer_history};
ghost use Rattle.annals.specs.declared.deed.Act.TheVariants.{Publishes};
ghost use Rattle.annals.specs.declared.deed.Deed.TheVariants.{Does};
ghost use Rattle.annals.specs.Chains.{IsLastDeed};
ghost use Rattle.annals.specs.Publishes.{line_loading, publishes_chain, publishes_of};

use crate::beginning::Beginning;
use crate::chains::{Chain, EmptyHistory, Family, Front};
use crate::deed::Publishing;
use crate::line::Line;
use bver::Accepted;
use std::sync::Arc;

/// How many chains of a history come before that of the publishes: those of banks ([`MAX_BANKS`](rmap::MAX_BANKS)).
pub const BANK_CHAINS: u8 = 8;

impl EmptyHistory {
    /// The chain of the publishes, in which nothing was published yet. If it has begun already, the call gives `None`
    /// (no test met that). The condition is a history of which the chains of banks are taken or left out.
    pub fn publishes<J: Family>(&mut self) -> Option<Chain<J>>
        requires family { self.old.0 ≡ J.book }
        requires next { self.old.1 + publishes_chain ≡ 42 }
        ensures left { self.new.1 + 1 ≡ self.old.1 }
        ensures family { self.new.0 ≡ self.old.0 }
        ensures number { IfSome result (λ c. c.number ≡ publishes_chain) }
        ensures none { IfSome result (λ c. publishes_of c.log ≡ []) }
    {
        let chain = self.chain((0, 0, 0))?;
        Some(chain)
    }
}

impl<J: Family> Chain<J> {
    /// Adds the publish of a program for a slot, after all that is known of the history, as the line asks. The
    /// condition is the chain of the publishes.
    pub fn publish(&mut self, line: &mut Line<J>, publish: &(u8, Arc<Accepted>))
        requires { self.old.number ≡ publishes_chain }
        ensures number { self.new.number ≡ self.old.number }
        ensures last { IsLastDeed publishes_chain self.old.log self.new.log
            (Does (Publishes (line.old.port, entry publish.now.0 (arc_value publish.now.1)))) }
        ensures published { publishes_of self.new.log
            ≡ longer_history (publishes_of self.old.log) publish.now.0 (arc_value publish.now.1) }
        ensures asked { line.new
            ≡ line_loading line.old (entry publish.now.0 (arc_value publish.now.1)) }
    {
        let mut front = self.beginning().front();
        let by = line.port();
        line.leave(&mut front, self, BANK_CHAINS, &Publishing { by, publish });
    }

    /// The publishes that anybody has seen begin all that the chain has. The condition is the chain of the publishes.
    pub fn knows_published(&mut self, known: &Front<J>)
        requires { self.old.number ≡ publishes_chain }
        ensures begins { IsPrefix (publishes_of known.now) (publishes_of self.old.log) }
        ensures same { self.new ≡ self.old }
    {
        self.begins_with(known);
    }

    /// The publishes that were seen begin all that the chain has. The conditions are the chain of the publishes, and
    /// what was seen of its history.
    pub fn has_published(&mut self, seen: &Beginning)
        requires number { self.old.number ≡ publishes_chain }
        requires book { seen.now.book ≡ J.book }
        ensures begins { IsPrefix (publishes_of seen.now.log) (publishes_of self.old.log) }
        ensures same { self.new ≡ self.old }
    {
        let known = seen.front();
        self.knows_published(&known);
    }
}
