//! The history of a node's programs, and the right to add to it: the chain of the publishes in the node's annals. It
//! exists only in proofs: what is kept is its length.

ghost use Rattle.std.specs.Prelude.{◌≡◌, ◌<◌, ◌≤◌, ◌^◌, ◌∷◌, [], IfOk, length};
ghost use Rattle.std.specs.Arc.{arc_value};
ghost use mathlib.Core.List.{IsPrefix};
ghost use Rattle.annals.specs.Chains.{instrument};
ghost use Rattle.annals.specs.Publishes.{line_loading, publishes_chain, publishes_of};
ghost use Rattle.annals.specs.Shown.{AreListed, shown_in};
ghost use Rattle.node_programs.specs.Histories.{entry, longer_history};
ghost use Rattle.publish.specs.Reached.{reached};

use annals::{BANK_CHAINS, Beginning, Chain, Family, Line, PublishedCount, publishes_grow};
use bver::Accepted;
use std::alloc::AllocError;
use std::marker::Model;
use std::sync::Arc;

/// How many chains are lines of ports: as many as a node may have.
const PORT_LINES: u8 = 32;

/// An empty history, which belongs to no node yet, with all its chains. Contracts see it as its book.
#[derive(Drop)]
pub struct NodeHistory {
    chains: annals::EmptyHistory,
}

impl Model for NodeHistory {
    ghost use Rattle.std.specs.Prelude.{◌≡◌};
    ghost use Rattle.logbook.specs.Pages.{Book};

    ghost Value = { Book };

    ghost view = { λ o. o.chains.0 };

    ghost invariant = { λ o. o.chains.1 ≡ 42 };
}

impl NodeHistory {
    /// Opens a history.
    pub fn new() -> NodeHistory {
        NodeHistory {
            chains: annals::EmptyHistory::new(),
        }
    }

    /// The chain of its publishes, in which nothing was published yet, the instrument's line, and the word that counts
    /// what readers see. Nobody adds to other chains.
    ///
    /// # Errors
    ///
    /// `AllocError` if the chain has begun already (no test met that).
    pub fn into_publishes<J: Family>(
        self,
    ) -> Result<(Chain<J>, Line<J>, PublishedCount<J>), AllocError>
        requires { self ≡ J.book }
        ensures number { IfOk result (λ made. made.0.number ≡ publishes_chain) }
        ensures none { IfOk result (λ made. publishes_of made.0.log ≡ []) }
        ensures line { IfOk result (λ made. made.1 ≡ record { port = instrument; asked = [] }) }
    {
        let mut chains = self.into_chains();
        chains.skip(BANK_CHAINS);
        let Some(chain) = chains.publishes() else {
            return Err(AllocError);
        };
        let Some(line) = Line::of_instrument(&mut chains) else {
            return Err(AllocError);
        };
        chains.skip(PORT_LINES);
        Ok((chain, line, chains.into_published_count()))
    }

    /// What a port knows at first of the history: nothing.
    pub fn front<J: Family>(&self) -> annals::Front<J>
        requires { self.now ≡ J.book }
        ensures { result ≡ [] }
    {
        self.chains.front()
    }

    /// The history, as its chains are taken.
    pub fn into_chains(self) -> annals::EmptyHistory
        ensures book { result.0 ≡ self }
        ensures all { result.1 ≡ 42 }
    {
        let NodeHistory { chains } = self;
        chains
    }
}

/// The whole history of a node's programs, and the right to add to it. Contracts see it as its programs.
#[derive(Drop)]
pub(crate) struct History<J: Family> {
    chain: Chain<J>,
    count: u64,
}

impl<J: Family> Model for History<J> {
    ghost use Rattle.std.specs.Prelude.{◌≡◌, List, length};
    ghost use Rattle.annals.specs.Publishes.{publishes_chain, publishes_of};
    ghost use Rattle.node_programs.specs.declared.publishes.Publish.{Publish};

    ghost Value = { List Publish };

    ghost view = { λ h. publishes_of h.chain.log };

    ghost invariant = { λ h. (h.chain.number ≡ publishes_chain) × (h.count ≡ length (publishes_of h.chain.log)) };
}

impl<J: Family> History<J> {
    /// The history with its first program, for a slot, as the line asks. The condition is a chain of publishes that has none.
    pub(crate) fn begin(
        chain: Chain<J>,
        line: &mut Line<J>,
        publish: &(u8, Arc<Accepted>),
    ) -> History<J>
        requires number { chain.number ≡ publishes_chain }
        requires none { publishes_of chain.log ≡ [] }
        ensures value { result ≡ entry publish.now.0 (arc_value publish.now.1) ∷ [] }
        ensures asked { line.new
            ≡ line_loading line.old (entry publish.now.0 (arc_value publish.now.1)) }
    {
        let mut chain = chain;
        chain.publish(line, publish);
        History { chain, count: 1 }
    }

    /// Adds a program for a slot, as the line asks.
    pub(crate) fn add(&mut self, line: &mut Line<J>, publish: &(u8, Arc<Accepted>))
        requires few { length self.old < 2 ^ 62 }
        ensures value { self.new
            ≡ longer_history self.old publish.now.0 (arc_value publish.now.1) }
        ensures asked { line.new
            ≡ line_loading line.old (entry publish.now.0 (arc_value publish.now.1)) }
    {
        let count = self.count;
        self.chain.publish(line, publish);
        self.count = count + 1;
    }

    /// The whole of it, as it is now.
    pub(crate) fn front(&self) -> Front
        ensures { result ≡ reached J.book self.now }
    {
        Front {
            count: self.count,
            beginning: self.chain.beginning(),
        }
    }

    /// What was reached of it is a beginning of it.
    pub(crate) fn begins_with(&mut self, front: &Front)
        requires { front.now.family ≡ J.book }
        ensures begins { IsPrefix front.now.programs self.old }
        ensures same { self.new ≡ self.old }
    {
        self.chain.has_published(&front.beginning);
    }

    /// The publishes that anybody has seen begin it.
    pub(crate) fn knows_all(&mut self, known: &annals::Front<J>)
        ensures begins { IsPrefix (publishes_of known.now) self.old }
        ensures same { self.new ≡ self.old }
    {
        self.chain.knows_published(known);
    }

    /// Somebody learns all of it, and that readers see it.
    pub(crate) fn announce(&self, published_count: &PublishedCount<J>, known: &mut annals::Front<J>)
        ensures old { IsPrefix known.old known.new }
        ensures reported { IsPrefix self.now (publishes_of known.new) }
        ensures shown { length self.now ≤ shown_in known.new }
        ensures listed { AreListed known.new }
    {
        publishes_grow();
        let own = self.chain.beginning().front();
        let least = published_count.count(known);
        let _taken = published_count.settle(known, least, &own, self.count);
    }

    /// Readers see its last program too, if they saw all before it.
    pub(crate) fn show(&self, published_count: &PublishedCount<J>)
        requires { 0 < length self.now }
    {
        let mut front = self.chain.beginning().front();
        published_count.raise(&mut front, self.count);
    }
}

/// A beginning of the history that was reached. Contracts see it as its family and its programs.
#[derive(Drop)]
pub(crate) struct Front {
    count: u64,
    beginning: Beginning,
}

impl Model for Front {
    ghost use Rattle.std.specs.Prelude.{◌≡◌, length};
    ghost use Rattle.annals.specs.Publishes.{publishes_of};
    ghost use Rattle.publish.specs.Reached.{Reached, reached};

    ghost Value = { Reached };

    ghost view = { λ f. reached f.beginning.book (publishes_of f.beginning.log) };

    ghost invariant = { λ f. f.count ≡ length (publishes_of f.beginning.log) };
}

impl Front {
    /// How many programs it has.
    pub(crate) fn len(&self) -> u64
        ensures { result ≡ length self.now.programs }
    {
        self.count
    }

    /// A copy.
    pub(crate) fn again(&self) -> Front
        ensures { result ≡ self.now }
    {
        Front {
            count: self.count,
            beginning: self.beginning.again(),
        }
    }

    /// Takes over another beginning if that is not shorter. Either begins the longer one.
    pub(crate) fn advance(&mut self, other: &Front)
        requires { other.now.family ≡ self.old.family }
        ensures longer { length self.old.programs ≤ length other.now.programs
            → self.new ≡ other.now }
        ensures shorter { length other.now.programs < length self.old.programs
            → self.new ≡ self.old }
        ensures this { IsPrefix self.old.programs self.new.programs }
        ensures that { IsPrefix other.now.programs self.new.programs }
        ensures family { self.new.family ≡ self.old.family }
    {
        publishes_grow();
        self.beginning.meets(&other.beginning);
        if self.count <= other.count {
            self.count = other.count;
            self.beginning = other.beginning.again();
        }
    }

    /// What a port of that node knows by it.
    pub(crate) fn known<J: Family>(&self) -> annals::Front<J>
        requires { self.now.family ≡ J.book }
        ensures { publishes_of result ≡ self.now.programs }
    {
        self.beginning.front()
    }

    /// Whoever knows a beginning of the node's history then knows these publishes as well.
    pub(crate) fn announce<J: Family>(&self, known: &mut annals::Front<J>)
        requires { self.now.family ≡ J.book }
        ensures old { IsPrefix known.old known.new }
        ensures reported { IsPrefix self.now.programs (publishes_of known.new) }
    {
        publishes_grow();
        let own = self.beginning.front();
        known.learn(&own);
    }
}
