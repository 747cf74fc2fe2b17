//! The packets of loads, which a node of one thread takes in turn.

ghost use Rattle.std.specs.Prelude.{◌≡◌, ◌<◌, [], IfErr, IfOk, false};
ghost use Rattle.job_nodes.specs.JobNode.{alone};
ghost use Rattle.rmap.specs.Command.{discard_of};
ghost use Rattle.spw.specs.Line.{IsPacketLine};
ghost use Rattle.job_rehearse.specs.Steps.{IsBegunNode, IsNoPacket, IsNoStep, TakesStep, is_failed, is_refused, is_write, step_at, load_step_of};

use crate::words::{print_step, succeeds};
use bver::Accepted;
use job_nodes::node::{JobNode, node_config};
use job_parts::bad_lines::BadLine;
use job_parts::stops::LineStop;
use job_parts::turns::TakesLines;
use node_parts::Served;
use rmap::{Command, LOAD_REGISTER, ReplyBuf};
use single_node::SingleNode;
use spw::{Packet, read_line};
use std::alloc::{AllocError, Global};
use std::io::Write;

/// What a packet of a load is.
#[derive(Clone, Copy, Debug, PartialEq, Eq)]
pub enum LoadStep {
    /// The write of a part of the image to the staging.
    Part,
    /// The control write, which asks to load what is staged.
    Control,
    /// The read of the load result.
    Result,
}

/// What a command of a load is, by its address.
fn step_at(command: &Command) -> LoadStep
    ensures { result ≡ step_at command.now }
{
    if command.address() != LOAD_REGISTER {
        return LoadStep::Part;
    }
    if command.writes() {
        LoadStep::Control
    } else {
        LoadStep::Result
    }
}

/// What a packet of a load is.
fn load_step_of(packet: &Packet) -> LoadStep
    ensures { result ≡ load_step_of packet.now (discard_of packet.now.bytes) }
{
    match Command::view(packet) {
        Ok(command) => step_at(&command),
        Err(_) => LoadStep::Part,
    }
}

/// Whether a packet of a load writes. What reads the load result does nothing.
fn is_write(step: LoadStep) -> bool
    ensures { result ≡ is_write step }
{
    match step {
        LoadStep::Part | LoadStep::Control => true,
        LoadStep::Result => false,
    }
}

/// Whether the program that judged a packet of a load does not let it write: its verdict is not 0.
fn is_refused(step: LoadStep, verdict: u64) -> bool
    ensures { result ≡ is_refused step verdict }
{
    is_write(step) && verdict != 0
}

/// Whether a packet of a load that writes was not answered with status 0.
fn is_failed(step: LoadStep, served: Served) -> bool
    ensures { result ≡ is_failed step served }
{
    is_write(step) && !succeeds(served)
}

/// The port and the packet that a line writes, for a node with this many ports.
fn packet_at(alloc: Global, line: &str, ports: u8) -> Result<(u8, Packet), BadLine>
    ensures packet { IfOk result (λ received. IsPacketLine line.now received.0 received.1) }
    ensures port { IfOk result (λ received. received.0 < ports) }
    ensures none { IfErr result (IsNoPacket line.now ports) }
{
    let (port, packet) = read_line(alloc, line)?;
    if port >= ports {
        return Err(BadLine::NoPort);
    }
    Ok((port, packet))
}

/// A node of one thread that takes packets of loads, and the reply to the last. Besides, whether a program did not let
/// one be done, and whether a write was not answered with status 0.
#[derive(Drop)]
pub struct Rehearsing {
    /// The node.
    pub node: SingleNode,
    /// The reply to the last packet; no bytes if none is due.
    pub reply: ReplyBuf,
    /// Whether the verdict on a packet that was to do something was another than 0.
    pub refused: bool,
    /// Whether a write of a load had another status than 0, or no reply.
    pub failed: bool,
}

impl Rehearsing {
    /// A fresh node of this many ports, 1 to 32, at which this program judges all.
    ///
    /// # Errors
    ///
    /// An error if memory is refused.
    pub fn new(alloc: Global, program: Accepted, ports: u8) -> Result<Rehearsing, AllocError>
        ensures { IfOk result (IsBegunNode program ports) }
    {
        let config = node_config(ports, program.sizes());
        // Only memory can be refused to it.
        let Ok(node) = SingleNode::new(alloc, &config, program) else {
            return Err(AllocError);
        };
        Ok(Rehearsing::of(node))
    }

    /// A node of one thread, which has served nothing here.
    pub fn of(node: SingleNode) -> Rehearsing
        ensures node { result.node ≡ node }
        ensures silent { result.reply ≡ [] }
        ensures unrefused { result.refused ≡ false }
        ensures unfailed { result.failed ≡ false }
    {
        Rehearsing {
            node,
            reply: ReplyBuf::new(),
            refused: false,
            failed: false,
        }
    }

    /// That node, which has served nothing here.
    pub fn at(node: JobNode) -> Rehearsing
        ensures node { result.node ≡ alone node }
        ensures silent { result.reply ≡ [] }
        ensures unrefused { result.refused ≡ false }
        ensures unfailed { result.failed ≡ false }
    {
        let (single, _feeds) = node.into_parts();
        Rehearsing::of(single)
    }
}

impl TakesLines for Rehearsing {
    ghost takes = { TakesStep };

    ghost stops = { IsNoStep };

    /// Serves the packet that a line writes, and prints what it is and how it ended.
    fn take<W: Write>(&mut self, alloc: Global, line: &str, out: &mut W) -> Result<(), LineStop> {
        let (port, packet) = packet_at(alloc, line, self.node.ports())?;
        let step = load_step_of(&packet);
        let reported = self
            .node
            .serve_with_program(alloc, port, packet, &mut self.reply);
        self.refused = self.refused || is_refused(step, reported.verdict);
        self.failed = self.failed || is_failed(step, reported.served);
        Ok(print_step(out, step, reported.served, self.reply.bytes())?)
    }
}
