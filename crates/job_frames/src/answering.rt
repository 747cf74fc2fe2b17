//! The node at the end of a link, which answers frames.

ghost use Rattle.std.specs.Prelude.{◌≡◌, ◌≤◌, ◌+◌, ◌++◌, [], ℕ, IfOk, OnErr, OnOk, length};
ghost use Rattle.std.specs.Vec.{vec_capacity, vec_len};
ghost use Rattle.job_frames.specs.Answering.{AnswersLinkFrame, AnswersPacket, AreNone, EndsText, IsFaultDue, RefusesFrame, cut_text, due_bytes_of, first_answering};
ghost use Rattle.job_frames.specs.Reported.{discard_words, served_text};
ghost use Rattle.job_nodes.specs.JobNode.{alone};
ghost use Rattle.job_parts.specs.Printed.{Prints};
ghost use Rattle.scrub.specs.Guarded.{is_damaged};

use crate::faults::print_fault;
use frames::{FrameFault, HEAD_LENGTH, Received, reply_head};
use job_live::answering::{CODE, hand_out, make_room};
use job_live::entries::{put_left, text_room_of, turn_left};
use job_live::putting::{put, put_discard_code};
use job_live::scrub_lines::{MOST_OF_SCRUB, put_found};
use job_nodes::live_node::LiveNode;
use linking::{CannotTransfer, PendingOutput, Target};
use node_parts::{Served, Stop};
use rmap::MAX_REPLY;
use spw::Packet;
use std::alloc::Global;
use std::io::{self, Write};
use std::marker::Model;

/// The port of the node that a link is.
const PORT: u8 = 0;

/// The most bytes that are reported of a packet, besides the words before the number of a discard.
const MOST_BESIDE: usize = MOST_OF_SCRUB + CODE;

/// How many bytes the frame of the longest reply has.
const MOST_OF_REPLY: usize = HEAD_LENGTH + MAX_REPLY;

/// Puts the frame of the reply that is due into an empty frame; none if none is due. Conditions: a reply that is no
/// longer than any ([`MAX_REPLY`]), and room for its frame ([`MOST_OF_REPLY`]).
fn put_due(frame: &mut Vec<u8>, reply: &[u8])
    requires reply { length reply.now ≤ MAX_REPLY }
    requires none { frame.old.items ≡ [] }
    requires room { HEAD_LENGTH + MAX_REPLY ≤ vec_capacity frame.old }
    ensures { frame.new.items ≡ due_bytes_of reply.now }
{
    if reply.is_empty() {
        return;
    }
    put(frame, &reply_head(reply));
    put(frame, reply);
}

/// The words before the number of a discard.
fn discard_words(alloc: Global, frame: u64) -> io::Result<Vec<u8>>
    ensures { IfOk result (λ words. words.items ≡ discard_words frame) }
{
    let mut words = Vec::new(alloc);
    write!(words, "frame {frame} discard ")?;
    Ok(words)
}

/// Puts what became of a packet after a text: if the packet was discarded, these words and then the number of the
/// discard. The condition is room for them, for that number, and for the end of the line.
#[tactic(auto, using(crate::proofs::Reported::no_more))]
fn report_served(text: &mut Vec<u8>, words: &[u8], served: Served)
    requires { vec_len text.old + (length words.now + CODE) ≤ vec_capacity text.old }
    ensures { (frame : ℕ) → words.now ≡ discard_words frame
        → text.new.items ≡ text.old.items ++ served_text frame served }
{
    match served {
        Served::Stopped(Stop::Discarded(discard)) => {
            put(text, words);
            put_discard_code(text, discard);
        }
        Served::Stopped(Stop::Answered(_)) | Served::Unread | Served::Done(_) | Served::Window(_) =>
            {}
    }
}

/// Makes room in the journal for the command of a packet and serves the packet. Gives the reply that is due, and what
/// is reported. It takes memory before it does anything.
#[tactic(auto, using(crate::proofs::Reported::packet_answered))]
fn answer_packet(
    alloc: Global,
    node: &mut LiveNode,
    at_once: bool,
    packet: Packet,
    frame: u64,
) -> io::Result<PendingOutput>
    ensures due { IfOk result (λ due. AnswersPacket at_once packet frame node.old node.new
        due.reply.items due.text.items) }
    ensures kept { OnErr result (node.new ≡ node.old) }
{
    let words = discard_words(alloc, frame)?;
    let mut reply = Vec::with_capacity(alloc, MOST_OF_REPLY)?;
    let mut text = Vec::new(alloc);
    let more = words.len() + MOST_BESIDE + text_room_of(at_once);
    make_room(node, more, &mut text)?;
    // A node has a port.
    let _ports = node.ports();
    let answer = node.serve(alloc, PORT, packet);
    put_due(&mut reply, node.reply());
    put_found(&mut text, answer.found);
    put_left(&mut text, node.single(), at_once);
    report_served(&mut text, words.as_slice(), answer.reported.served);
    turn_left(node, at_once);
    Ok(PendingOutput { reply, text })
}

/// That no bytes are due, and no text.
fn nothing_due(alloc: Global) -> PendingOutput
    ensures { AreNone result.reply.items result.text.items }
{
    PendingOutput {
        reply: Vec::new(alloc),
        text: Vec::new(alloc),
    }
}

/// What is due for a frame that is for a bridge: that it has that fault.
fn fault_due(alloc: Global, frame: u64) -> io::Result<PendingOutput>
    ensures { IfOk result (λ due. IsFaultDue frame due.reply.items due.text.items) }
{
    let mut due = nothing_due(alloc);
    print_fault(&mut due.text, frame, FrameFault::ForBridge)?;
    Ok(due)
}

/// A node at the end of a link, and whether its entries are handed out at once. Besides, how many frames came, and
/// whether a packet goes on with the next.
#[derive(Drop)]
pub struct Answering {
    alloc: Global,
    node: LiveNode,
    at_once: bool,
    count: u64,
    is_open: bool,
}

impl Model for Answering {
    ghost use Rattle.job_frames.specs.Answering.{AnsweringValue};

    ghost Value = { AnsweringValue };

    ghost view = { λ a. record { node = a.node; at_once = a.at_once; count = a.count; is_open = a.is_open } };
}

/// Prints what is reported first when no more bytes come. If the input did not end between two packets, that is that
/// the frame of that number was cut off.
fn print_cut<W: Write>(out: &mut W, frame: u64, is_whole: bool) -> io::Result<()>
    ensures { OnOk result (Prints W.contents out.old out.new (cut_text is_whole frame)) }
{
    if is_whole {
        return Ok(());
    }
    print_fault(out, frame, FrameFault::CutOff)
}

impl Answering {
    /// The node, before a frame came, and whether its entries are handed out at once.
    pub fn new(alloc: Global, node: LiveNode, at_once: bool) -> Answering
        ensures { result ≡ first_answering node at_once }
    {
        Answering {
            alloc,
            node,
            at_once,
            count: 0,
            is_open: false,
        }
    }

    /// Whether a packet goes on with the next frame of packet bytes.
    pub fn is_open(&self) -> bool
        ensures { result ≡ self.now.is_open }
    {
        self.is_open
    }

    /// Whether packets have scrubs before them, and the sizes of the node are not what they were. Then no packet may be
    /// served.
    pub fn is_damaged(&self) -> bool
        ensures { result ≡ is_damaged self.now.node.guard (alone self.now.node.node) }
    {
        self.node.is_damaged()
    }

    /// What is reported when no more bytes come. That is that the input ended within a frame or a packet, if it did,
    /// and the entries of the journal, which is handed out.
    ///
    /// # Errors
    ///
    /// An error if memory is refused. The node is then as before.
    pub fn end(&mut self, is_whole: bool) -> io::Result<Vec<u8>>
        ensures ends { IfOk result (λ text. EndsText is_whole self.old self.new.node text.items) }
        ensures kept { OnErr result (self.new ≡ self.old) }
    {
        let mut text = Vec::new(self.alloc);
        print_cut(&mut text, self.count.saturating_add(1), is_whole)?;
        hand_out(&mut self.node, &mut text)?;
        Ok(text)
    }
}

impl Target for Answering {
    ghost served = { AnswersLinkFrame };

    ghost unserved = { RefusesFrame };

    fn serve(&mut self, received: Received) -> Result<PendingOutput, CannotTransfer> {
        let frame = self.count.saturating_add(1);
        match received {
            Received::Whole(packet) => {
                if self.node.is_damaged() {
                    return Err(CannotTransfer);
                }
                let at_once = self.at_once;
                let Ok(due) = answer_packet(self.alloc, &mut self.node, at_once, packet, frame)
                else {
                    return Err(CannotTransfer);
                };
                self.count = frame;
                self.is_open = false;
                Ok(due)
            }
            Received::Piece => {
                self.count = frame;
                self.is_open = true;
                Ok(nothing_due(self.alloc))
            }
            Received::Time => {
                self.count = frame;
                Ok(nothing_due(self.alloc))
            }
            Received::Other(_) => {
                let Ok(due) = fault_due(self.alloc, frame) else {
                    return Err(CannotTransfer);
                };
                self.count = frame;
                Ok(due)
            }
        }
    }
}
