//! A line: what a port, or the instrument, asked for, and the right to ask.

ghost use Rattle.std.specs.Prelude.{◌≡◌, ◌<◌, ◌+◌, ℕ, [], IfSome};
ghost use mathlib.Core.List.{IsPrefix};
ghost use Rattle.annals.specs.declared.deed.Deed.TheVariants.{Does};
ghost use Rattle.bank.specs.Records.{numbers_of};
ghost use Rattle.annals.specs.Banks.{entries_of, numbers_at};
ghost use Rattle.annals.specs.Chains.{IsLastOf, done_for, instrument, line_chain_of, line_with, owner_of};

use crate::chains::{Chain, EmptyHistory, Family, Front};
use crate::deed::{AnnouncesAct, Asking, Doing};
use std::marker::Model;

/// The number of the instrument's line. Those of ports are below it.
const INSTRUMENT: u8 = 32;

/// A line of the history, whole, and the right to add to it, which nobody else has. In it a port asks for each entry of
/// its commands before a bank has it, and for each publish before it is one. The instrument's line asks for all that no
/// command does. Contracts see a line as its number, which is the port's, and as what it asked for, all of which was
/// done.
#[derive(Drop)]
pub struct Line<J: Family> {
    port: u8,
    chain: Chain<J>,
    left: Front<J>,
}

impl<J: Family> Model for Line<J> {
    ghost use Rattle.annals.specs.Chains.{LineValue, IsLineChain, asked_by};

    ghost Value = { LineValue };

    ghost view = { λ l. record { port = l.port; asked = asked_by l.port l.chain.log } };

    ghost invariant = { λ l. IsLineChain l.port l.chain l.left };
}

impl<J: Family> Line<J> {
    /// The line of that number, which asked for nothing, as the next chain of a history.
    fn begin(port: u8, opened: &mut EmptyHistory) -> Option<Line<J>>
        requires family { opened.old.0 ≡ J.book }
        requires number { line_chain_of port + opened.old.1 ≡ 42 }
        requires some { 0 < opened.old.1 }
        ensures family { opened.new.0 ≡ opened.old.0 }
        ensures left { opened.new.1 + 1 ≡ opened.old.1 }
        ensures line { IfSome result (λ line. line ≡ record { port = port; asked = [] }) }
    {
        let left = opened.front();
        let chain = opened.chain((0, 0, 0))?;
        Some(Line { port, chain, left })
    }

    /// The line of a port that asked for nothing, as the next chain of a history. If the chain has an entry already,
    /// the call gives `None` (no test met that). The conditions are a chain that is left, and that of the port.
    pub fn new(port: u8, opened: &mut EmptyHistory) -> Option<Line<J>>
        requires family { opened.old.0 ≡ J.book }
        requires number { (port < 32) × (port + opened.old.1 ≡ 32) }
        ensures family { opened.new.0 ≡ opened.old.0 }
        ensures left { opened.new.1 + 1 ≡ opened.old.1 }
        ensures line { IfSome result (λ line. line ≡ record { port = port; asked = [] }) }
    {
        Line::begin(port, opened)
    }

    /// The line of the instrument, in which nothing was asked for, as the next chain of a history. If the chain has an
    /// entry already, the call gives `None` (no test met that). The condition is a history of which only the chains of
    /// banks and of publishes are taken or left out, and all of these are.
    pub fn of_instrument(opened: &mut EmptyHistory) -> Option<Line<J>>
        requires family { opened.old.0 ≡ J.book }
        requires number { opened.old.1 ≡ 33 }
        ensures family { opened.new.0 ≡ opened.old.0 }
        ensures left { opened.new.1 ≡ 32 }
        ensures line { IfSome result (λ line. line ≡ record { port = instrument; asked = [] }) }
    {
        Line::begin(INSTRUMENT, opened)
    }

    /// The number of the line: the port's.
    pub fn port(&self) -> u8
        ensures { result ≡ self.now.port }
    {
        self.port
    }

    /// Does an act at the chain of that number: the line asks for it, and the chain has it. The act is after all that
    /// is known of the chain and all that somebody has seen, who then has seen it too. The conditions are that chain,
    /// and an act of the line's owner.
    pub(crate) fn leave<A: AnnouncesAct>(
        &mut self,
        front: &mut Front<J>,
        chain: &mut Chain<J>,
        number: u8,
        act: &A,
    )
        requires chain { chain.old.number ≡ number }
        requires own { owner_of (A.act act.now) ≡ self.old.port }
        ensures number { chain.new.number ≡ chain.old.number }
        ensures log { chain.new.log ≡ front.new }
        ensures added { IsLastOf chain.old front.old front.new (Does (A.act act.now)) }
        ensures asked { self.new ≡ line_with self.old number (A.act act.now) }
    {
        chain.announce(front);
        front.learn(&self.left);
        self.chain.add(front, &Asking { chain: number, act });
        chain.push(front, &Doing { act });
        self.left = front.again();
    }

    /// Somebody learns enough of the history that all which the line asked for is in it, done.
    pub fn announce(&self, front: &mut Front<J>)
        ensures known { IsPrefix front.old front.new }
        ensures reported { IsPrefix self.now.asked (done_for self.now.port front.new) }
    {
        front.learn(&self.left);
    }

    /// What anybody has seen of the acts of the line's owner begins what the line asked for, over all chains, and at
    /// each bank.
    pub fn knows_all(&mut self, front: &Front<J>)
        ensures begins { IsPrefix (done_for self.old.port front.now) self.old.asked }
        ensures numbers { (bank : ℕ) → IsPrefix (numbers_of self.old.port (entries_of bank front.now))
            (numbers_at bank self.old.asked) }
        ensures same { self.new ≡ self.old }
    {
        self.chain.begins_with(front);
    }
}
