//! The node that the jobs run.

ghost use Rattle.std.specs.Prelude.{◌≡◌, ◌≤◌, ◌<◌, ◌+◌, ◌↔◌, IfErr, IfOk, IfSome, IsSome, length, slice_get, true, OnOk};
ghost use Rattle.job_config.specs.OwnNodes.{IsPublish};
ghost use Rattle.job_nodes.specs.JobNode.{FeedsLine, IsConfig, IsFreshOf, IsJobNode, RefusesLine, ServesOfPorts, SetsNodeBytes, alone, first_address_of, is_full, journal_of, with_node_publish};
ghost use Rattle.node_programs.specs.Published.{sizes_of};
ghost use Rattle.single_node.specs.Nodes.{covers_in};

use crate::feeds::Feeds;
use crate::journals::{first, is_full};
use bver::{Accepted, MapSizes};
use job_config::own_node::{NODE_ADDRESS, OWN_BANK};
use job_parts::bad_lines::BadLine;
use node_parts::{NodeConfig, Served};
use rmap::{MAX_REPLY, ReplyBuf};
use single_node::SingleNode;
use spw::Packet;
use std::alloc::{AllocError, Global};
use std::marker::Model;

/// The configuration of the node of the jobs, with this many ports and with maps of these sizes.
pub fn node_config(ports: u8, sizes: MapSizes) -> NodeConfig<'static>
    ensures { IsConfig ports sizes result }
{
    NodeConfig {
        address: NODE_ADDRESS,
        ports,
        banks: &[OWN_BANK],
        sizes,
    }
}

/// A node of one thread with some banks and some ports, and with room for one reply. Each port has what it holds of a
/// packet that has not ended. Nothing of it waits.
#[derive(Drop)]
pub struct JobNode {
    node: SingleNode,
    feeds: Feeds,
    reply: ReplyBuf,
}

impl Model for JobNode {
    ghost use Rattle.job_nodes.specs.JobNode.{JobNodeValue, IsJobNode, job_node};

    ghost Value = { JobNodeValue };

    ghost view = { λ b. job_node b.node.banks b.node.words b.node.programs b.node.passes b.feeds b.reply };

    ghost invariant = { λ b. IsJobNode (job_node b.node.banks b.node.words b.node.programs b.node.passes b.feeds b.reply) };
}

impl JobNode {
    /// A node of that configuration, of zero bytes. This program judges at each of its ports at first. The condition is
    /// a program that was accepted for the maps of the configuration.
    ///
    /// # Errors
    ///
    /// `AllocError` if memory was refused, or if [`SingleNode::new`] refuses the configuration.
    pub fn fresh(
        alloc: Global,
        config: &NodeConfig,
        program: Accepted,
    ) -> Result<JobNode, AllocError>
        requires { program.sizes ≡ config.now.sizes }
        ensures { IfOk result (IsFreshOf config.now program) }
    {
        let feeds = Feeds::new(alloc, config.ports)?;
        let Ok(node) = SingleNode::new(alloc, config, program) else {
            return Err(AllocError);
        };
        Ok(JobNode {
            node,
            feeds,
            reply: ReplyBuf::new(),
        })
    }

    /// How many ports the node has: 1 to 32.
    pub fn ports(&self) -> u8
        ensures value { result ≡ length self.now.passes }
        ensures some { 1 ≤ result }
    {
        self.node.ports()
    }

    /// What becomes of a packet that comes in at a port. The reply that is due is then [`JobNode::reply`]. It takes
    /// memory only if it loads. The condition is a port below [`JobNode::ports`].
    pub fn serve(&mut self, alloc: Global, port: u8, packet: Packet) -> Served
        requires { port < length self.old.passes }
        ensures { ServesOfPorts result port packet self.old self.new }
    {
        let node = &mut self.node;
        let reply = &mut self.reply;
        node.serve(alloc, port, packet, reply)
    }

    /// Takes a line, and serves nothing. Returns the packet that it ends, and its port, or `None` if the line ends
    /// none.
    pub(crate) fn feed_line(
        &mut self,
        alloc: Global,
        line: &str,
    ) -> Result<Option<(u8, Packet)>, BadLine>
        ensures fed { IfOk result (λ received. FeedsLine line.now received self.old self.new) }
        ensures port { IfOk result (λ received. IfSome received (λ own. own.0 < length self.new.passes)) }
        ensures refused { IfErr result (λ fault. RefusesLine line.now fault self.old self.new) }
    {
        let received = self.feeds.take_line(alloc, line)?;
        Ok(received)
    }

    /// The reply to the last packet that was served; no bytes if none is due.
    pub fn reply(&self) -> &[u8]
        ensures value { result.now ≡ self.now.reply }
        ensures few { length result.now ≤ MAX_REPLY }
    {
        self.reply.bytes()
    }

    /// How many banks the node has: 1 to 8.
    pub fn banks(&self) -> u8
        ensures value { result ≡ length self.now.banks }
        ensures few { result ≤ 8 }
    {
        self.node.banks()
    }

    /// The address of the first byte of a bank. The condition is a number below [`JobNode::banks`].
    pub fn first(&self, bank: u8) -> u32
        requires { bank < length self.now.banks }
        ensures { result ≡ first_address_of (slice_get self.now.banks bank) }
    {
        first(&self.node, bank)
    }

    /// Whether the journal of a bank has no room for another entry. A command for the bank is then answered with a
    /// general error, and leaves none. The condition is a number below [`JobNode::banks`].
    pub fn is_full(&self, bank: u8) -> bool
        requires { bank < length self.now.banks }
        ensures { result ≡ is_full (slice_get self.now.banks bank) }
    {
        is_full(&self.node, bank)
    }

    /// Whether this many bytes from the address on are in the bank of that number; not if there is no such bank.
    pub fn covers(&self, bank: u8, address: u32, count: usize) -> bool
        ensures { result ≡ covers_in (slice_get self.now.banks bank) address count }
    {
        self.node.covers(bank, address, count)
    }

    /// Puts bytes at an address of a bank without a command: the write of an instrument, which no entry has. So an
    /// empty journal begins with the memory that is then there, and the entries of the one before are gone. Counts, and
    /// what ports hold, stay. It takes no memory, and costs a copy of the bank's. The condition is that the bytes are
    /// in the bank ([`JobNode::covers`]).
    pub fn set(&mut self, bank: u8, address: u32, bytes: &[u8])
        requires { covers_in (slice_get self.old.banks bank) address (length bytes.now) ≡ true }
        ensures { SetsNodeBytes bank address bytes.now self.old self.new
            (journal_of (slice_get self.old.banks bank)) }
    {
        let room = self.node.room(bank);
        self.node.turn_and_set(bank, address, bytes, room);
    }

    /// The node by itself, and what its ports hold. The last reply ends.
    pub fn into_parts(self) -> (SingleNode, Feeds)
        ensures node { result.0 ≡ alone self }
        ensures held { result.1 ≡ self.held }
        ensures valid { IsJobNode self }
    {
        let JobNode {
            node,
            feeds,
            reply: _reply,
        } = self;
        (node, feeds)
    }

    /// Publishes a program for a slot, without a command that asks for it ([`SingleNode::publish`]). The conditions are a slot
    /// below 4, a program that was accepted for the maps of the node, and a generation that is left.
    pub(crate) fn publish(&mut self, slot: u8, program: Accepted) -> Result<(), AllocError>
        requires publish { IsPublish (sizes_of self.old.programs) (slot, program) }
        requires few { length self.old.programs < 4294967296 }
        ensures { OnOk result (self.new ≡ with_node_publish self.old slot program) }
    {
        // Only memory can be refused to it: a generation is left.
        match self.node.publish(slot, program) {
            Ok(_generation) => Ok(()),
            Err(_) => Err(AllocError),
        }
    }
}
