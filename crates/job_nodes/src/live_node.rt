//! The node of a talk, whose programs may be scrubbed.

ghost use Rattle.std.specs.Prelude.{◌≡◌, ◌<◌, ◌≤◌, IfErr, IfOk, IfSome, length, slice_get, true};
ghost use Rattle.job_nodes.specs.JobNode.{FeedsLine, HandsOut, RefusesLine, SetsNodeBytes, alone, journal_of};
ghost use Rattle.job_nodes.specs.LiveNodes.{IsLive, KeepsGuard, ServesLive, TakesPacketLine};
ghost use Rattle.scrub.specs.Guarded.{is_damaged};
ghost use Rattle.single_node.specs.Nodes.{covers_in};

use crate::feeds::Feeds;
use crate::node::JobNode;
use job_parts::bad_lines::BadLine;
use rmap::MAX_REPLY;
use scrub::{GuardedNode, ServedAnswer};
use single_node::SingleNode;
use spw::Packet;
use std::alloc::Global;
use std::marker::Model;

/// The node of a talk: a node whose programs may be scrubbed, with room for one reply. Each port has what it holds of a
/// packet that has not ended. Contracts see a node as the other jobs have it, and its guard, if it has one.
#[derive(Drop)]
pub struct LiveNode {
    guarded: GuardedNode,
    feeds: Feeds,
    room: [u8; MAX_REPLY],
    size: usize,
}

impl Model for LiveNode {
    ghost use Rattle.std.specs.Prelude.{◌≤◌, take};
    ghost use Rattle.rmap.specs.declared.reply.TheConstants.{MAX_REPLY};
    ghost use Rattle.job_nodes.specs.JobNode.{IsJobNode};
    ghost use Rattle.job_nodes.specs.LiveNodes.{LiveNodeValue, live_node};

    ghost Value = { LiveNodeValue };

    ghost view = { λ b. live_node b.guarded b.feeds (take b.size b.room) };

    ghost invariant = { λ b. IsJobNode (live_node b.guarded b.feeds (take b.size b.room)).node × (b.size ≤ MAX_REPLY) };
}

/// What came of a packet that ended with a line.
#[derive(Clone, Copy, Debug, PartialEq, Eq)]
pub struct LineResult {
    /// The port at which the packet came in.
    pub port: u8,
    /// What became of the packet, and what a scrub before it found, if one was due.
    pub answer: ServedAnswer,
}

impl LiveNode {
    /// A node before a packet came. With a number N, the program that judges a packet is scrubbed before each N-th
    /// packet; without one, before none. No reply is due.
    pub fn new(node: JobNode, scrub: Option<u32>) -> LiveNode
        ensures { IsLive scrub node result }
    {
        let (node, feeds) = node.into_parts();
        LiveNode {
            guarded: GuardedNode::new(node, scrub),
            feeds,
            room: [0; MAX_REPLY],
            size: 0,
        }
    }

    /// The node of one thread that it has.
    pub fn single(&self) -> &SingleNode
        ensures { result.now ≡ alone self.now.node }
    {
        &self.guarded.node
    }

    /// How many ports the node has: 1 to 32.
    pub fn ports(&self) -> u8
        ensures value { result ≡ length self.now.node.passes }
        ensures some { 1 ≤ result }
    {
        self.guarded.node.ports()
    }

    /// Whether packets have scrubs before them, and the sizes of the node are not what they were. Then no packet may be
    /// served.
    pub fn is_damaged(&self) -> bool
        ensures { result ≡ is_damaged self.now.guard (alone self.now.node) }
    {
        self.guarded.is_damaged()
    }

    /// What becomes of a packet that comes in at a port, and what a scrub before it found, if one was due. The reply
    /// that is due is then [`LiveNode::reply`]. The condition is a port of the node.
    pub fn serve(&mut self, alloc: Global, port: u8, packet: Packet) -> ServedAnswer
        requires { port < length self.old.node.passes }
        ensures { ServesLive result port packet self.old self.new }
    {
        let guarded = &mut self.guarded;
        let room = &mut self.room;
        let answer = guarded.serve(alloc, port, packet, room);
        self.size = answer.size;
        answer
    }

    /// Takes a packet line, and serves the packet that it ends, if it ends one.
    ///
    /// # Errors
    ///
    /// Those of [`Feeds::take_line`]. Nothing is then served.
    pub fn take_line(&mut self, alloc: Global, line: &str) -> Result<Option<LineResult>, BadLine>
        ensures taken { IfOk result (λ taken. TakesPacketLine line.now taken self.old self.new) }
        ensures refused { IfErr result (λ fault. RefusesLine line.now fault self.old.node self.new.node) }
        ensures kept { IfErr result (λ _. KeepsGuard self.old self.new) }
    {
        let Some((port, packet)) = self.feed_line(alloc, line)? else {
            return Ok(None);
        };
        let answer = self.serve(alloc, port, packet);
        Ok(Some(LineResult { port, answer }))
    }

    /// Takes a line, and serves nothing. Returns the packet that it ends, and its port, or `None` if the line ends
    /// none.
    fn feed_line(&mut self, alloc: Global, line: &str) -> Result<Option<(u8, Packet)>, BadLine>
        ensures fed { IfOk result (λ received. FeedsLine line.now received self.old.node self.new.node) }
        ensures port { IfOk result
            (λ received. IfSome received (λ own. own.0 < length self.new.node.passes)) }
        ensures refused { IfErr result (λ fault. RefusesLine line.now fault self.old.node self.new.node) }
        ensures kept { KeepsGuard self.old self.new }
    {
        let received = self.feeds.take_line(alloc, line)?;
        Ok(received)
    }

    /// The reply to the last packet that was served; no bytes if none is due.
    pub fn reply(&self) -> &[u8]
        ensures value { result.now ≡ self.now.node.reply }
        ensures few { length result.now ≤ MAX_REPLY }
    {
        let all: &[u8] = &self.room;
        &all[..self.size]
    }

    /// Begins an empty journal at a bank. The entries of the one before are then gone, and what they say is the memory
    /// of now. Memory, counts, and what ports hold stay. It takes no memory. The condition is a bank of the node.
    pub fn turn(&mut self, bank: u8)
        requires { bank < length self.old.node.banks }
        ensures out { HandsOut bank self.old.node self.new.node
            (journal_of (slice_get self.old.node.banks bank)) }
        ensures guard { KeepsGuard self.old self.new }
        ensures banks { length self.new.node.banks ≡ length self.old.node.banks }
    {
        let room = self.guarded.node.room(bank);
        self.guarded.node.turn(bank, room);
    }

    /// Puts bytes at an address of a bank without a command, as [`JobNode::set`] does: an empty journal begins with the
    /// memory that is then there. The condition is that the bytes are in the bank.
    pub fn set(&mut self, bank: u8, address: u32, bytes: &[u8])
        requires { covers_in (slice_get self.old.node.banks bank) address (length bytes.now) ≡ true }
        ensures set { SetsNodeBytes bank address bytes.now self.old.node self.new.node
            (journal_of (slice_get self.old.node.banks bank)) }
        ensures guard { KeepsGuard self.old self.new }
    {
        let room = self.guarded.node.room(bank);
        self.guarded.node.turn_and_set(bank, address, bytes, room);
    }
}
