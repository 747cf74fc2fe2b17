//! What a port has of its node.

ghost use Rattle.std.specs.Prelude.{◌≡◌, ◌<◌, length};
ghost use Rattle.node_parts.specs.Passes.{IsPass};
ghost use mathlib.Core.List.{IsPrefix};
ghost use Rattle.annals.specs.Chains.{done_for};
ghost use Rattle.target.specs.Lines.{CountsAllOf};
ghost use Rattle.target.specs.Passes.{seat_of};

use annals::{Family, Front};
use bank::Share;
use cells::CellSeat;
use node_parts::RunContext;
use node_programs::Staging;
use publish::LoadRights;
use spw::PORTS;
use std::marker::Model;

/// What one port has of its node: its context, with its seat at the cells, and its reader of the programs that judge.
/// It also has a share of each bank, its staging, and its line of the node's history. Contracts see what it has, and
/// what it asked for in its line. Only [`Node`](crate::Node) and [`UnsharedNode`](crate::UnsharedNode) make passes.
#[derive(Drop)]
pub struct Pass<J: Family> {
    pub(crate) context: RunContext<CellSeat>,
    pub(crate) loader: LoadRights<J>,
    pub(crate) shares: Vec<Share>,
    pub(crate) staging: Staging,
}

impl<J: Family> Model for Pass<J> {
    ghost use Rattle.node_parts.specs.Passes.{IsPass, pass_of};
    ghost use Rattle.target.specs.Lines.{IsLineOf};
    ghost use Rattle.target.specs.Passes.{PortPass, port_pass};

    ghost Value = { PortPass };

    ghost view = { λ p. port_pass
        (pass_of p.context p.loader.reader.programs p.shares.items p.staging)
        p.loader.line.asked };

    ghost invariant = { λ p. IsPass
        (pass_of p.context p.loader.reader.programs p.shares.items p.staging)
        × IsLineOf p.context.port p.shares.items p.loader.line };
}

impl<J: Family> Pass<J> {
    /// The port's number.
    pub fn port(&self) -> u8
        ensures value { result ≡ self.now.pass.port }
        ensures few { result < PORTS }
    {
        self.context.port()
    }

    /// How many banks the node has.
    pub fn banks(&self) -> usize
        ensures value { result ≡ length self.now.pass.shares }
        ensures holder { IsPass self.now.pass }
    {
        self.shares.len()
    }

    /// The port's staging, with the result of its last load.
    pub fn staging(&self) -> &Staging
        ensures { result.now ≡ self.now.pass.staging }
    {
        &self.staging
    }

    /// Takes the pass apart and gives its seat, to be given back to the cells
    /// ([`Cells::take_back`](cells::Cells::take_back)). The other parts end.
    pub fn into_seat(self) -> CellSeat
        ensures { seat_of result ≡ self.pass.seat }
    {
        let Pass {
            context,
            loader: _loader,
            shares: _shares,
            staging: _staging,
        } = self;
        context.into_seat()
    }

    /// What anybody has seen of the history of the node's banks has only those entries of the port that its shares
    /// count. At each bank they have the numbers from 0 on, each once and in order, below its share's. What the port
    /// did, as anybody has seen it, begins what it asked for.
    pub fn knows_entries(&mut self, known: &Front<J>)
        ensures entries { CountsAllOf self.old.pass known.now }
        ensures begins { IsPrefix (done_for self.old.pass.port known.now) self.old.asked }
        ensures same { self.new ≡ self.old }
    {
        self.loader.line.knows_all(known);
    }

    /// Somebody learns enough of the history that all which the port asked for is in it, done.
    pub fn announce(&self, known: &mut Front<J>)
        ensures known { IsPrefix known.old known.new }
        ensures reported { IsPrefix self.now.asked (done_for self.now.pass.port known.new) }
    {
        self.loader.line.announce(known);
    }
}
