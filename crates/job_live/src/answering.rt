//! The answer to a line.

ghost use Rattle.std.specs.Prelude.{◌≡◌, ◌≤◌, ◌+◌, ◌++◌, [], ℕ, IfErr, IfOk, OnErr, OnOk, Some, false, length, map, true};
ghost use Rattle.std.specs.Vec.{vec_capacity, vec_len};
ghost use Rattle.job_parts.specs.Printed.{Prints, job_fault_line};
ghost use Rattle.job_parts.specs.declared.faults.Fault.TheVariants.{BadLine as AtLine};
ghost use Rattle.job_live.specs.Answering.{AnswersTalkLine, AnswersAsked, AnswersSetting, IsFaultByPort, IsLongFault, IsUnset, LeavesNone, MakesRoom, TakesAndPrints, PrintsJournal, PrintsSetting, WritesInside, fault_words, is_inside};
ghost use Rattle.job_live.specs.Asks.{IsAskedBy};
ghost use Rattle.job_live.specs.Entries.{text_room_of, taken_text};
ghost use Rattle.job_nodes.specs.JobNode.{alone};
ghost use Rattle.rmap.specs.declared.reply.TheConstants.{MAX_REPLY};
ghost use Rattle.job_live.specs.declared.asks.Asks.TheVariants.{Packet, Set};

use crate::asks::{Asks, asked};
use crate::cell_lines::print_cells;
use crate::entries::{put_left, text_room_of, turn_left};
use crate::journals::{print_bank, print_journals, turn_journals};
use crate::putting::{MOST_OF_PACKET, put, put_code, put_served};
use crate::scrub_lines::{MOST_OF_SCRUB, put_found};
use crate::settings::{Setting, read_setting};
use job_nodes::live_node::{LineResult, LiveNode};
use job_parts::bad_lines::BadLine;
use job_parts::faults::Fault;
use rmap::MAX_REPLY;
use single_node::SingleNode;
use spw::{LineFault, read_port, words_of};
use std::alloc::Global;
use std::io::{self, Write};

/// How many bytes a line has at most. Any packet line has fewer, if it has no more than one space between two words.
pub const MAX_LINE: usize = 16_384;

/// How many bytes a line has after its words: a number of one digit, and the line feed.
pub const CODE: usize = 2;

/// The most bytes that the lines on what came of a packet have, besides the words before the number of a fault.
const MOST_OF_LINES: usize = MOST_OF_SCRUB + MOST_OF_PACKET;

/// Prints the entries of the journals of the node, bank by bank, and then begins empty ones.
///
/// # Errors
///
/// The error of `out`, if it does not take all of the text. The node is then as before.
pub fn hand_out<W: Write>(node: &mut LiveNode, out: &mut W) -> io::Result<()>
    ensures reports { OnOk result
        (PrintsJournal node.old node.new (W.contents out.old) (W.contents out.new)) }
    ensures kept { OnErr result (node.new ≡ node.old) }
{
    print_journals(out, node.single(), true)?;
    turn_journals(node, true);
    Ok(())
}

/// Hands out the journals that are full, before a packet is served. Their entries are then in the text, and after them
/// is room for `more` bytes.
///
/// # Errors
///
/// An error if memory is refused. The node is then as before.
pub fn make_room(node: &mut LiveNode, more: usize, text: &mut Vec<u8>) -> io::Result<()>
    ensures made { OnOk result (MakesRoom node.old node.new
        (Some text.old.items) (Some text.new.items)) }
    ensures room { OnOk result (vec_len text.new + more ≤ vec_capacity text.new) }
    ensures kept { OnErr result (node.new ≡ node.old) }
{
    print_journals(text, node.single(), false)?;
    text.reserve(more)?;
    turn_journals(node, false);
    Ok(())
}

/// The words before the number of a line's fault.
fn fault_words(alloc: Global, number: usize) -> io::Result<Vec<u8>>
    ensures { IfOk result (λ words. words.items ≡ fault_words number) }
{
    let mut words = Vec::new(alloc);
    write!(words, "line {number} fault ")?;
    Ok(words)
}

/// Puts what came of a packet after a text, with the reply that was due. First comes the line of a scrub that did not
/// find a program whole. Then come those of the entries that are handed out at once, and that of the packet. The
/// condition is room for the longest lines.
#[tactic(auto, using(crate::proofs::Taken::text_taken))]
fn put_taken(text: &mut Vec<u8>, taken: LineResult, node: &LiveNode, at_once: bool)
    requires { vec_len text.old + (MOST_OF_SCRUB + MOST_OF_PACKET + text_room_of at_once) ≤
        vec_capacity text.old }
    ensures { text.new.items ≡ text.old.items ++ taken_text at_once taken node.now.node }
{
    put_found(text, taken.answer.found);
    put_left(text, node.single(), at_once);
    put_served(text, taken.port, taken.answer.reported.served, node.reply());
}

/// Puts the line of a fault after a text. Its words before the number are these. The condition is room for them and two
/// bytes.
#[tactic(auto, using(crate::proofs::PutText::small_number))]
fn put_fault(text: &mut Vec<u8>, words: &[u8], fault: BadLine)
    requires { vec_len text.old + (length words.now + CODE) ≤ vec_capacity text.old }
    ensures { (number : ℕ) → words.now ≡ fault_words number
        → text.new.items ≡ text.old.items ++ job_fault_line (AtLine number fault) }
{
    put(text, words);
    put_code(text, fault.number());
}

/// Takes a packet line on the node, and puts what came of it after a text. Or it puts its fault, whose words before the
/// number are these. Returns whether the line is bad. The condition is room for the longest lines, and for those words
/// and two bytes.
#[tactic(auto, using(crate::proofs::Taken::packet_taken))]
fn take_line(
    alloc: Global,
    node: &mut LiveNode,
    at_once: bool,
    line: &str,
    words: &[u8],
    text: &mut Vec<u8>,
) -> bool
    requires reported { vec_len text.old + (MOST_OF_SCRUB + MOST_OF_PACKET + text_room_of at_once)
        ≤ vec_capacity text.old }
    requires fault { vec_len text.old + (length words.now + CODE) ≤ vec_capacity text.old }
    ensures { (number : ℕ) → words.now ≡ fault_words number
        → TakesAndPrints at_once line.now number result node.old node.new text.old.items text.new.items }
{
    match node.take_line(alloc, line) {
        Ok(Some(taken)) => {
            put_taken(text, taken, node, at_once);
            turn_left(node, at_once);
            false
        }
        Ok(None) => false,
        Err(fault) => {
            put_fault(text, words, fault);
            true
        }
    }
}

/// Makes room in the journal for the command of a packet line and takes the line. Then it puts what is due for the line
/// after a text, and returns whether the line is bad. It takes memory before it does anything.
#[tactic(auto, using(crate::proofs::Taken::packet_answered))]
fn answer_packet(
    alloc: Global,
    node: &mut LiveNode,
    at_once: bool,
    line: &str,
    number: usize,
    text: &mut Vec<u8>,
) -> io::Result<bool>
    ensures answers { IfOk result (AnswersAsked at_once false Packet line.now number node.old node.new
        (Some text.old.items) (Some text.new.items)) }
    ensures kept { OnErr result (node.new ≡ node.old) }
{
    let words = fault_words(alloc, number)?;
    let more = words.len() + MOST_OF_LINES + text_room_of(at_once);
    make_room(node, more, text)?;
    Ok(take_line(alloc, node, at_once, line, words.as_slice(), text))
}

/// Whether the bytes of a write are in the bank of its extended address, if there is one.
#[tactic(auto, unfolding(crate::specs::Answering::is_inside))]
fn is_inside(node: &SingleNode, setting: &Setting) -> bool
    ensures { result ≡ is_inside node.now setting.now }
{
    node.covers(setting.extended, setting.address, setting.bytes.len())
}

/// The write that these words ask for, with its bytes in its bank. Or why there is none.
fn setting_inside(alloc: Global, node: &SingleNode, words: &[&str]) -> Result<Setting, BadLine>
    requires { IsAskedBy (map (λ word. word.now) words.now) Set }
    ensures ok { IfOk result
        (λ setting. WritesInside (map (λ word. word.now) words.now) node.now setting) }
    ensures err { IfErr result (IsUnset (map (λ word. word.now) words.now) node.now) }
{
    let setting = read_setting(alloc, words)?;
    if is_inside(node, &setting) {
        Ok(setting)
    } else {
        Err(BadLine::NoPort)
    }
}

/// Puts the bytes of a write into its bank, and then begins an empty journal there. Before that it prints the entries
/// of the journal that is there, and how many bytes are set.
#[tactic(auto, unfolding(crate::specs::Answering::is_inside))]
fn set_bytes<W: Write>(node: &mut LiveNode, setting: &Setting, out: &mut W) -> io::Result<()>
    requires { is_inside (alone node.old.node) setting.now ≡ true }
    ensures reports { OnOk result (PrintsSetting setting.now node.old node.new
        (W.contents out.old) (W.contents out.new)) }
    ensures kept { OnErr result (node.new ≡ node.old) }
{
    let bytes = setting.bytes.as_slice();
    let count = bytes.len();
    print_bank(out, node.single(), setting.extended)?;
    writeln!(out, "set {count}")?;
    node.set(setting.extended, setting.address, bytes);
    Ok(())
}

/// Prints the fault of a line.
fn print_fault<W: Write>(out: &mut W, number: usize, fault: BadLine) -> io::Result<()>
    ensures { OnOk result
        (Prints W.contents out.old out.new (job_fault_line (AtLine number fault))) }
{
    let fault = Fault::BadLine { number, fault };
    writeln!(out, "{fault}")
}

/// Does the write of an instrument, and prints what is due for it, or why it is not done. Returns whether the line is
/// bad.
fn answer_setting<W: Write>(
    alloc: Global,
    node: &mut LiveNode,
    words: &[&str],
    number: usize,
    out: &mut W,
) -> io::Result<bool>
    requires { IsAskedBy (map (λ word. word.now) words.now) Set }
    ensures answers { IfOk result (AnswersSetting (map (λ word. word.now) words.now) number
        node.old node.new (W.contents out.old) (W.contents out.new)) }
    ensures kept { OnErr result (node.new ≡ node.old) }
{
    match setting_inside(alloc, node.single(), words) {
        Ok(setting) => {
            set_bytes(node, &setting, out)?;
            Ok(false)
        }
        Err(fault) => {
            print_fault(out, number, fault)?;
            Ok(true)
        }
    }
}

/// The fault of a line of these words that is longer than any packet line and asks for no write.
fn fault_by_port(words: &[&str]) -> BadLine
    ensures { IsFaultByPort (map (λ word. word.now) words.now) result }
{
    let [first, ..] = words else {
        return BadLine::Line(LineFault::NoPort);
    };
    match read_port(first) {
        Ok(_) => BadLine::Line(LineFault::TooLong),
        Err(_) => BadLine::Line(LineFault::NoPort),
    }
}

/// The fault of a line of these words that is longer than any packet line.
fn long_fault(words: &[&str], asks: Asks) -> BadLine
    ensures { IsLongFault (map (λ word. word.now) words.now) asks result }
{
    match asks {
        Asks::Set => BadLine::Line(LineFault::TooLong),
        Asks::Packet | Asks::Journal | Asks::Cells => fault_by_port(words),
    }
}

/// Does what the line of this number asks for, and puts what is due for it after a text. Returns whether the line is
/// bad.
///
/// For a bad line it puts `line K fault C`. The faults are those of [`LiveNode::take_line`] and [`read_setting`], and
/// `NoPort` for bytes that are not in their bank. A line over [`MAX_LINE`] bytes has the fault `TooLong`. It has
/// `NoPort` if it begins as no packet line and no write.
///
/// The journals that are full are handed out before a packet line is taken. If entries are handed out at once, the
/// entry that a packet leaves is before its answer, and its journal begins anew.
///
/// # Errors
///
/// An error if memory is refused. The node is then as before the line.
pub fn answer(
    alloc: Global,
    node: &mut LiveNode,
    at_once: bool,
    line: &str,
    number: usize,
    text: &mut Vec<u8>,
) -> io::Result<bool>
    ensures answers { IfOk result (AnswersTalkLine at_once line.now number node.old node.new
        (Some text.old.items) (Some text.new.items)) }
    ensures kept { OnErr result (node.new ≡ node.old) }
{
    let words = words_of(alloc, line)?;
    let asks = asked(words.as_slice());
    if line.len() > MAX_LINE {
        print_fault(text, number, long_fault(words.as_slice(), asks))?;
        return Ok(true);
    }
    match asks {
        Asks::Packet => answer_packet(alloc, node, at_once, line, number, text),
        Asks::Journal => {
            hand_out(node, text)?;
            Ok(false)
        }
        Asks::Cells => {
            print_cells(text, node.single())?;
            Ok(false)
        }
        Asks::Set => answer_setting(alloc, node, words.as_slice(), number, text),
    }
}

/// The entries of the journals of the node, which are the last text of a talk. Empty journals begin.
///
/// # Errors
///
/// An error if memory is refused. The node is then as before.
pub fn last_text(alloc: Global, node: &mut LiveNode) -> io::Result<Vec<u8>>
    ensures reports { IfOk result (λ text. PrintsJournal node.old node.new (Some []) (Some text.items)) }
    ensures kept { OnErr result (node.new ≡ node.old) }
{
    let mut text = Vec::new(alloc);
    hand_out(node, &mut text)?;
    Ok(text)
}

/// A law and no work: if entries are handed out at once, and no journal has an entry before a line, none has one after
/// it. So the entry that a packet leaves is always in the lines before its answer.
pub fn no_entry_stays()
    ensures { LeavesNone }
{}
