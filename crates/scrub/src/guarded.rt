//! A node whose programs may be scrubbed.

ghost use Rattle.std.specs.Prelude.{◌≡◌, ◌<◌, ◌≤◌, IfErr, IfOk, None, OnErr, OnOk, length, slice_get};
ghost use Rattle.node_programs.specs.Codes.{IsUnpublished};
ghost use Rattle.node_programs.specs.Published.{sizes_of};
ghost use Rattle.rmap.specs.declared.reply.TheConstants.{MAX_REPLY};
ghost use Rattle.scrub.specs.Guarded.{AnswersBy, AnswersWatched, BeginsGuard, HasGuard, Installs, IsGuarded, ScrubsGuarded, ServesGuarded, SetsEach, beside, has_counting, has_sizes, is_damaged, unread};
ghost use Rattle.scrub.specs.Damage.{broken_of};
ghost use Rattle.scrub.specs.Kept.{is_withheld};
ghost use Rattle.single_node.specs.Nodes.{port_slot_in};
ghost use Rattle.single_node.specs.Serving.{ServesInto};

use crate::answer::ServedAnswer;
use crate::damage::{BrokenBits, broken_of};
use crate::guard::{Guard, Scrubbed, generations};
use bver::Accepted;
use node_parts::Served;
use node_programs::PublishFault;
use single_node::{ServedDetail, SingleNode};
use spw::Packet;
use std::alloc::Global;

/// A node of one thread, and what is kept of the programs of its slots. Without a guard nothing of it is scrubbed.
#[derive(Drop)]
pub struct GuardedNode {
    /// The node. If there is a guard, a program that is published here must come by [`GuardedNode::install`] or a load.
    /// Any other is taken for a damaged one.
    pub node: SingleNode,
    /// What is kept of its programs.
    pub guard: Option<Guard>,
}

/// What the node reports of a command that no program judges.
fn unread() -> ServedDetail
    ensures { result ≡ unread }
{
    ServedDetail {
        served: Served::Unread,
        generation: 0,
        verdict: 0,
    }
}

/// A guard of a node's programs that scrubs one before each `each`-th packet, or `None` without a number.
fn guard_of(node: &SingleNode, each: Option<u32>) -> Option<Guard>
    ensures { BeginsGuard each node.now result }
{
    match each {
        Some(each) => Some(Guard::new(node, each)),
        None => None,
    }
}

/// What is kept of a node's programs: what was kept before, or, if nothing was, what is taken now.
fn guard_or_new(guard: Option<Guard>, node: &SingleNode) -> Guard
    ensures { HasGuard guard node.now result }
{
    match guard {
        Some(guard) => guard,
        None => Guard::new(node, 0),
    }
}

/// Serves one packet as [`SingleNode::serve_into`] does, and keeps the sum of a program that it loads. If the command
/// is for a slot that is withdrawn, it comes to no program: the answer is a general error, and nothing changes. The
/// conditions are a port of the node, and room for any reply.
#[tactic(auto, using(crate::proofs::Serving::by_withheld, crate::proofs::Serving::by_read))]
fn answer_by(
    guard: &mut Guard,
    node: &mut SingleNode,
    alloc: Global,
    port: u8,
    packet: Packet,
    room: &mut [u8],
) -> (ServedDetail, usize)
    requires port { port < length node.old.passes }
    requires room { MAX_REPLY ≤ length room.old }
    ensures answers { AnswersBy
        (is_withheld guard.old.sums (port_slot_in (slice_get node.old.passes port) packet))
        result.0 result.1 port packet (beside guard.old node.old) (beside guard.new node.new)
        room.old room.new }
    ensures few { result.1 ≤ MAX_REPLY }
{
    if guard.withholds(node, port, &packet) {
        let size = node.unread_into(&packet, room);
        return (unread(), size);
    }
    let before = generations(node);
    let served = node.serve_into(alloc, port, packet, room);
    guard.follow(node, &before);
    served
}

/// Serves one packet at a node whose programs are kept. If a scrub is due before it, the program that judges it is
/// scrubbed first. The conditions are a port of the node, and room for any reply.
fn answer_watched(
    guard: &mut Guard,
    node: &mut SingleNode,
    alloc: Global,
    port: u8,
    packet: Packet,
    room: &mut [u8],
) -> ServedAnswer
    requires port { port < length node.old.passes }
    requires room { MAX_REPLY ≤ length room.old }
    ensures answers { AnswersWatched result port packet (beside guard.old node.old)
        (beside guard.new node.new) room.old room.new }
    ensures few { result.size ≤ MAX_REPLY }
{
    let found = guard.scrub_first(node, alloc, port, &packet);
    let (reported, size) = answer_by(guard, node, alloc, port, packet, room);
    ServedAnswer {
        reported,
        found,
        size,
    }
}

/// Serves one packet at a node of whose programs nothing is kept. The conditions are a port of the node, and room for
/// any reply.
fn answer_plain(
    node: &mut SingleNode,
    alloc: Global,
    port: u8,
    packet: Packet,
    room: &mut [u8],
) -> ServedAnswer
    requires port { port < length node.old.passes }
    requires room { MAX_REPLY ≤ length room.old }
    ensures serves { ServesInto result.reported result.size port packet node.old node.new room.old room.new }
    ensures found { result.found ≡ None }
    ensures few { result.size ≤ MAX_REPLY }
{
    let (reported, size) = node.serve_into(alloc, port, packet, room);
    ServedAnswer {
        reported,
        found: None,
        size,
    }
}

impl GuardedNode {
    /// A node, with what is kept of its programs, each of which may judge. Before each `each`-th packet the program
    /// that judges it is scrubbed. If `each` is 0, none is. Without a number nothing is kept.
    pub fn new(node: SingleNode, each: Option<u32>) -> GuardedNode
        ensures { IsGuarded each node result }
    {
        let guard = guard_of(&node, each);
        GuardedNode { node, guard }
    }

    /// Which entries of the node's journals are not whole.
    pub fn broken(&self) -> BrokenBits
        ensures { result ≡ broken_of self.now.node.banks }
    {
        broken_of(&self.node)
    }

    /// Whether the node's sizes have the sum that was kept of them, if one was. They are how many ports and banks it
    /// has, where the banks lie, and how many cells its maps have.
    pub fn has_sizes(&self) -> bool
        ensures { result ≡ has_sizes self.now.guard self.now.node }
    {
        match &self.guard {
            Some(guard) => guard.has_sizes(&self.node),
            None => true,
        }
    }

    /// Whether the numbers of scrubs before packets agree with their complements, if there are some.
    pub fn has_counting(&self) -> bool
        ensures { result ≡ has_counting self.now.guard }
    {
        match &self.guard {
            Some(guard) => guard.has_counting(),
            None => true,
        }
    }

    /// Whether packets have scrubs before them, and the node's sizes are others than they were. If so, no packet may be
    /// served.
    pub fn is_damaged(&self) -> bool
        ensures { result ≡ is_damaged self.now.guard self.now.node }
    {
        match &self.guard {
            Some(guard) => guard.is_damaged(&self.node),
            None => false,
        }
    }

    /// Scrubs the programs of the four slots ([`Guard::scrub`]). If a program's own image is damaged, too, the image
    /// that is lent gives the program, if it has its sum. No bytes are no image. If the node has no guard, the sums are
    /// taken now, so each program is whole.
    pub fn scrub(&mut self, alloc: Global, image: &[u8]) -> Scrubbed
        ensures { ScrubsGuarded result image.now self.old self.new }
    {
        let mut guard = guard_or_new(self.guard, &self.node);
        let reported = guard.scrub(&mut self.node, alloc, image);
        self.guard = Some(guard);
        reported
    }

    /// From now on scrubs the program that judges a packet, before each `each`-th packet: 1 is each packet, 2 each
    /// second one. If `each` is 0, it scrubs before none. If the node has no guard, it takes the sums now.
    pub fn scrub_each(&mut self, each: u32)
        ensures { SetsEach each self.old self.new }
    {
        let mut guard = guard_or_new(self.guard, &self.node);
        guard.scrub_each(each);
        self.guard = Some(guard);
    }

    /// Publishes a program for a slot, which may judge then, and gives its generation. If there is a guard, it keeps
    /// the program's sum. The conditions are a slot below 4, and a program that was accepted for the maps of the node.
    ///
    /// # Errors
    ///
    /// Those of [`SingleNode::publish`]. The node is then as before.
    pub fn install(&mut self, slot: u8, program: Accepted) -> Result<u32, PublishFault>
        requires slot { slot ≤ 3 }
        requires sizes { program.sizes ≡ sizes_of self.old.node.programs }
        ensures installed { OnOk result (Installs slot program self.old self.new) }
        ensures generation { IfOk result (λ n. n ≡ length self.old.node.programs) }
        ensures same { OnErr result (self.new ≡ self.old) }
        ensures refused { IfErr result (IsUnpublished (length self.old.node.programs)) }
    {
        let node = &mut self.node;
        match &mut self.guard {
            Some(guard) => guard.install(node, slot, program),
            None => node.publish(slot, program),
        }
    }

    /// Serves one packet that came in at a port, as [`SingleNode::serve_into`] does: its reply is then at the front of
    /// the room. If a scrub is due before it ([`GuardedNode::scrub_each`]), the program that judges it is scrubbed
    /// first. If no program judges it, the scrub stays due.
    ///
    /// If the command is for a slot that is withdrawn, it comes to no program: the answer is a general error, and
    /// nothing changes. The conditions are a port of the node, and room for any reply ([`MAX_REPLY`]).
    ///
    /// [`MAX_REPLY`]: rmap::MAX_REPLY
    pub fn serve(
        &mut self,
        alloc: Global,
        port: u8,
        packet: Packet,
        room: &mut [u8],
    ) -> ServedAnswer
        requires port { port < length self.old.node.passes }
        requires room { MAX_REPLY ≤ length room.old }
        ensures serves { ServesGuarded result port packet self.old self.new room.old room.new }
        ensures few { result.size ≤ MAX_REPLY }
    {
        let node = &mut self.node;
        match &mut self.guard {
            Some(guard) => answer_watched(guard, node, alloc, port, packet, room),
            None => answer_plain(node, alloc, port, packet, room),
        }
    }
}
