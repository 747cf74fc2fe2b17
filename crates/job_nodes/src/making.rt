//! The node of a configuration: its banks begin with their contents, and programs are published before the first packet.

ghost use Rattle.std.specs.Prelude.{◌≡◌, ◌<◌, ◌≤◌, ◌+◌, [], ℕ, All, IfOk, OnOk, length, slice_index_or, true};
ghost use Rattle.job_config.specs.OwnNodes.{IsPublish, plain_node};
ghost use Rattle.job_nodes.specs.JobNode.{IsFreshJobNode};
ghost use Rattle.job_nodes.specs.Making.{Fills, FillsOne, AreBanksFilled, IsNodeOf, with_publishes};
ghost use Rattle.node_programs.specs.Published.{sizes_of};

use crate::node::JobNode;
use bver::Accepted;
use job_config::own_node::{Contents, OwnNode};
use std::alloc::{AllocError, Global};

/// Puts bytes at the beginning of a bank, if they fit in it. The condition is a bank of the node.
fn fill_one(node: &mut JobNode, bank: u8, bytes: &[u8])
    requires { bank < length node.old.banks }
    ensures fills { FillsOne bank bytes.now node.old node.new }
    ensures banks { length node.new.banks ≡ length node.old.banks }
{
    if bytes.is_empty() {
        return;
    }
    let first = node.first(bank);
    if node.covers(bank, first, bytes.len()) {
        node.set(bank, first, bytes);
    }
}

/// The bytes at the beginning of a bank.
fn contents_at(contents: &[Contents], bank: u8) -> &[u8]
    ensures { result.now ≡ slice_index_or contents.now bank [] }
{
    let place = usize::from(bank);
    if place < contents.len() {
        contents[place].bytes()
    } else {
        &[]
    }
}

/// Puts the contents of each bank at its beginning.
fn fill(node: &mut JobNode, contents: &[Contents])
    ensures { Fills contents.now (length node.old.banks) node.old node.new }
{
    let banks = node.banks();
    for bank in 0..banks {
        fill_one(node, bank, contents_at(contents, bank));
    }
}

/// A fresh node of that configuration. Its banks begin with their contents, and this program judges at each of its
/// ports. The condition is a program that was accepted for its maps.
fn filled(alloc: Global, own: &OwnNode, program: Accepted) -> Result<JobNode, AllocError>
    requires { program.sizes ≡ own.now.sizes }
    ensures { IfOk result (AreBanksFilled own.now program) }
{
    let mut node = JobNode::fresh(alloc, &own.config(), program)?;
    fill(&mut node, own.contents());
    Ok(node)
}

/// Publishes these programs in order, each for its slot. Conditions: programs that were accepted for the maps of the node, slots of 0
/// to 3, and a generation for each.
fn publish_all(node: &mut JobNode, publishes: &[(u8, Accepted)]) -> Result<(), AllocError>
    requires some { 0 < length node.old.programs }
    requires each { All (IsPublish (sizes_of node.old.programs)) publishes.now }
    requires few { length node.old.programs + length publishes.now ≤ 4294967296 }
    ensures { OnOk result (node.new ≡ with_publishes node.old publishes.now) }
{
    for index in 0..publishes.len() {
        let publish = &publishes[index];
        let program = publish.1.copy()?;
        node.publish(publish.0, program)?;
    }
    Ok(())
}

impl JobNode {
    /// The node of that configuration: banks of zeros that begin with their contents, and this program in all slots.
    /// Then come the programs that are published before the first packet. Each of those is in its slot with the next
    /// generation, the first with 1. Stagings, load results and cells are those of a fresh node. The condition is a
    /// program that was accepted for the maps of the configuration.
    ///
    /// # Errors
    ///
    /// `AllocError` if memory was refused, or if [`JobNode::fresh`] refuses the configuration. There is then no node.
    #[tactic(auto, using(crate::proofs::Made::plain_fresh))]
    pub fn of(alloc: Global, own: &OwnNode, program: Accepted) -> Result<JobNode, AllocError>
        requires { program.sizes ≡ own.now.sizes }
        ensures node { IfOk result (IsNodeOf own.now program) }
        // If no file says anything of it, it is the node of the words of a command line.
        ensures plain { (ports : ℕ) → own.now ≡ plain_node ports program.sizes
            → IfOk result (IsFreshJobNode ports program) }
    {
        let mut node = filled(alloc, own, program)?;
        publish_all(&mut node, own.publishes())?;
        Ok(node)
    }

    /// The node of which no file says anything: with this many ports, of zero bytes. This program judges at each port
    /// at first.
    ///
    /// # Errors
    ///
    /// `AllocError` if memory was refused, or if the node refuses this number of ports.
    pub fn new(alloc: Global, ports: u8, program: Accepted) -> Result<JobNode, AllocError>
        ensures { IfOk result (IsFreshJobNode ports program) }
    {
        let own = OwnNode::plain(alloc, ports, program.sizes())?;
        JobNode::of(alloc, &own, program)
    }
}
