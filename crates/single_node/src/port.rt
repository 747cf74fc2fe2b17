//! What a port of a node of one thread has.

ghost use Rattle.std.specs.Prelude.{◌≡◌, ◌<◌, ◌&&◌, IfSome, None, OnSome, length, nat_lt, true};
ghost use mathlib.Core.List.{IsPrefix};
ghost use Rattle.bank.specs.Records.{fits};
ghost use Rattle.node_programs.specs.Published.{sizes_of};
ghost use Rattle.node_parts.specs.Applied.{IsApplied, share_of};
ghost use Rattle.node_parts.specs.Loaded.{IsLoadEnd};
ghost use Rattle.node_parts.specs.Passes.{pass_of};
ghost use Rattle.node_parts.specs.Served.{IsStagedAt};
ghost use Rattle.node_parts.specs.Stagings.{IsStagingPlace};
ghost use Rattle.rmap.specs.Command.{discard_of};
ghost use Rattle.single_node.specs.Nodes.{IsInformed, slot_asked};
ghost use Rattle.single_node.specs.Judging.{JudgesByLast};

use crate::context::PortContext;
use crate::lists::ProgramList;
use crate::programs::SlotPrograms;
use bank::{Admitted, Applied, Bank, Judged, Share};
use node_parts::{Banks, answer_staged, load, slot};
use node_programs::{Staging, published_programs};
use plain_cells::PlainCells;
use rmap::{Command, Place, ReplyBuf, Status, Windows, checked_place};
use spw::Packet;
use std::alloc::Global;
use std::marker::Model;

/// What a port has of its node: its context, a share of each bank, its staging, and what it knows of what was
/// published.
#[derive(Drop)]
pub(crate) struct SinglePort {
    context: PortContext,
    known: ProgramList,
    shares: Vec<Share>,
    staging: Staging,
}

impl Model for SinglePort {
    ghost use Rattle.node_parts.specs.Passes.{PassValue, pass_of};

    ghost Value = { PassValue };

    ghost view = { λ p. pass_of p.context p.known p.shares.items p.staging };
}

impl SinglePort {
    /// A port as the node makes it.
    pub fn new(
        context: PortContext,
        known: ProgramList,
        shares: Vec<Share>,
        staging: Staging,
    ) -> SinglePort
        ensures { result ≡ pass_of context known shares.items staging }
    {
        SinglePort {
            context,
            known,
            shares,
            staging,
        }
    }

    /// The staging, with the result of the last load.
    pub fn staging(&self) -> &Staging
        ensures { result.now ≡ self.now.staging }
    {
        &self.staging
    }

    /// The slot whose program judges the command of a packet, under the windows of the node, which are lent. It is
    /// `None` if the packet is no command, or a check of its header stops it.
    #[tactic(auto, using(crate::proofs::Asked::asked_discarded, crate::proofs::Asked::asked_stopped, crate::proofs::Asked::asked_passed))]
    pub fn slot_for(&self, windows: &Windows, packet: &Packet) -> Option<u8>
        requires { windows.now ≡ self.now.windows }
        ensures slot { result ≡ slot_asked self.now.windows packet.now }
        ensures few { IfSome result (λ slot. slot < 4) }
        ensures command { OnSome result (discard_of packet.now.bytes ≡ None) }
    {
        let Ok(command) = Command::view(packet) else {
            return None;
        };
        let Ok(place) = checked_place(&command, windows) else {
            return None;
        };
        Some(slot(command.kind(), place))
    }

    /// Judges an admitted command by the program of the slot of its place: one run on its header, which asks the cells.
    /// The port then knows of all that was published.
    pub fn judge(
        &mut self,
        cells: &mut PlainCells,
        programs: &SlotPrograms,
        admitted: Admitted,
    ) -> Judged
        requires informed { IsInformed programs.now self.old }
        requires sizes { cells.old.sizes ≡ sizes_of programs.now }
        ensures judged { JudgesByLast programs.now cells.old.words cells.new.words
            self.old self.new admitted result }
        ensures sizes { cells.new.sizes ≡ cells.old.sizes }
    {
        published_programs();
        let slot = slot(admitted.command().kind(), admitted.place());
        let (program, generation) = programs.shown(slot);
        self.known = programs.list();
        self.context.judge(cells, program, generation, admitted)
    }

    /// Whether there are a bank of that number, among that many, and the port's share of it.
    pub fn has_bank(&self, banks: &Banks, k: u8) -> bool
        ensures { result ≡ (nat_lt k (length banks.now) && nat_lt k (length self.now.shares)) }
    {
        let k = usize::from(k);
        k < banks.len() && k < self.shares.len()
    }

    /// Applies a judged command to the bank of its place, with the port's share of it, and leaves the reply.
    pub fn apply(&mut self, bank: &mut Bank, k: u8, judged: Judged, reply: &mut ReplyBuf) -> Applied
        requires place { judged.place ≡ Place.Bank k }
        requires shared { k < length self.old.shares }
        requires fits { fits bank.old (share_of self.old judged.place) judged ≡ true }
        ensures { IsApplied bank.old bank.new (share_of self.old judged.place)
            self.old self.new judged result reply.new }
    {
        bank.apply(&mut self.shares[usize::from(k)], judged, reply)
    }

    /// Answers a judged command to the staging or to the load result, and leaves the reply.
    pub fn stage(&mut self, judged: Judged, reply: &mut ReplyBuf) -> Status
        requires { IsStagingPlace judged.place }
        ensures { IsStagedAt self.old self.new judged result reply.new }
    {
        answer_staged(&mut self.staging, judged, reply)
    }

    /// Loads what the port staged, if the verdict on the control write is yes and its body is right, and leaves the
    /// reply.
    pub fn load(
        &mut self,
        alloc: Global,
        programs: &mut SlotPrograms,
        judged: Judged,
        reply: &mut ReplyBuf,
    ) -> Status
        requires place { judged.place ≡ Place.Control }
        requires begins { IsPrefix self.old.programs programs.old }
        ensures { IsLoadEnd self.old self.new programs.old programs.new judged result reply.new }
    {
        let known = &mut self.known;
        load(alloc, known, programs, &mut self.staging, judged, reply)
    }
}
