//! The job `live`.

ghost use Rattle.std.specs.Prelude.{◌≡◌, ◌||◌, IfErr, IfOk, OnOk, if◌then◌else◌};
ghost use Rattle.job_parts.specs.declared.status.ExitStatus.TheVariants.{Done, Failed};
ghost use Rattle.job_live.specs.LiveJob.{EndsTalk, ExchangesLine, HoldsTalk, IsBrokenOff, IsTalkCutOff, IsEndUnsent, IsUnanswered, IsUnsent, IsWholeTalk, Lives, SendsEnd, StopsTalk, SendsLast};

use crate::answering::{answer, last_text};
use crate::talk::Talk;
use crate::words::LiveWords;
use job_nodes::live_node::LiveNode;
use job_nodes::sources::{node_from, place_of};
use job_parts::faults::Fault;
use job_parts::status::ExitStatus;
use job_parts::stops::{JobStop, WriteFault};
use job_parts::storage::Files;
use std::alloc::Global;
use std::io::Write;

/// The name of standard input, for a fault when the lines cannot be read.
const STANDARD_INPUT: &str = "-";

/// The line for refused memory. It takes no memory itself.
pub const NO_MEMORY: &[u8] = b"no memory\n";

/// Takes the next line, and sends what is due for it. Returns whether the line is bad, or `None` if no more came.
fn exchange<'a, T: Talk>(
    alloc: Global,
    node: &mut LiveNode,
    at_once: bool,
    talk: &mut T,
    number: usize,
) -> Result<Option<bool>, JobStop<'a>>
    ensures exchanged { IfOk result (λ went. ExchangesLine T.received T.sent at_once number went
        node.old node.new talk.old talk.new) }
    ensures stops { IfErr result (IsUnanswered T.received T.sent T.unsent T.missed at_once number
        node.old node.new talk.old talk.new) }
{
    let mut line = String::new(alloc);
    let Ok(is_given) = talk.next(&mut line) else {
        return Err(JobStop::Ended(Fault::CannotRead(STANDARD_INPUT)));
    };
    if !is_given {
        return Ok(None);
    }
    if node.is_damaged() {
        return Err(JobStop::Ended(Fault::Damaged));
    }
    let mut text = Vec::new(alloc);
    let Ok(is_bad) = answer(alloc, node, at_once, line.as_str(), number, &mut text) else {
        return Err(JobStop::Ended(Fault::NoMemory));
    };
    match talk.send(text.as_slice()) {
        Ok(()) => Ok(Some(is_bad)),
        Err(_) => Err(JobStop::Unwritten(WriteFault)),
    }
}

/// Whether one of both is bad.
fn either(first: bool, second: bool) -> bool
    ensures { result ≡ (first || second) }
{
    first || second
}

/// Holds a talk to its end. Returns whether one of its lines was bad.
fn hold<'a, T: Talk>(
    alloc: Global,
    node: &mut LiveNode,
    at_once: bool,
    talk: &mut T,
) -> Result<bool, JobStop<'a>>
    ensures held { IfOk result
        (IsWholeTalk T.received T.sent at_once node.old node.new talk.old talk.new) }
    ensures stops { IfErr result (IsBrokenOff T.received T.sent T.unsent T.missed at_once
        node.old node.new talk.old talk.new) }
{
    let mut some_bad = false;
    for number in 1..usize::MAX {
        let Some(is_bad) = exchange(alloc, node, at_once, talk, number)? else {
            return Ok(some_bad);
        };
        some_bad = either(some_bad, is_bad);
    }
    Ok(some_bad)
}

/// Sends the last text of a talk after its last line: the entries of the journals, which are handed out.
fn send_end<'a, T: Talk>(
    alloc: Global,
    node: &mut LiveNode,
    talk: &mut T,
) -> Result<(), JobStop<'a>>
    ensures sent { OnOk result (SendsEnd T.sent node.old node.new talk.old talk.new) }
    ensures stops { IfErr result (IsEndUnsent T.unsent node.old node.new talk.old talk.new) }
{
    let text = last_text(alloc, node).map_err(|_| JobStop::Ended(Fault::NoMemory))?;
    let sent = talk.send(text.as_slice());
    sent.map_err(|_| JobStop::Unwritten(WriteFault))
}

/// Holds a talk to its end, and sends the entries of the journal. Returns whether one of its lines was bad.
fn hold_to_end<'a, T: Talk>(
    alloc: Global,
    node: &mut LiveNode,
    at_once: bool,
    talk: &mut T,
) -> Result<bool, JobStop<'a>>
    ensures held { IfOk result (EndsTalk T.received T.sent at_once node.old node.new talk.old talk.new) }
    ensures stops { IfErr result (StopsTalk T.received T.sent T.unsent T.missed at_once
        node.old node.new talk.old talk.new) }
{
    let some_bad = hold(alloc, node, at_once, talk)?;
    send_end(alloc, node, talk)?;
    Ok(some_bad)
}

/// Holds a talk on the node of these words to its end. Returns whether one of its lines was bad.
fn live_on<'a, F: Files, T: Talk>(
    alloc: Global,
    words: &'a LiveWords,
    files: &mut F,
    talk: &mut T,
) -> Result<bool, JobStop<'a>>
    ensures held { IfOk result (HoldsTalk F.reads T.received T.sent T.unsent T.missed words.now
        files.old files.new talk.old talk.new) }
    ensures stops { IfErr result (IsTalkCutOff F.reads T.received T.sent T.unsent T.missed words.now
        files.old files.new talk.old talk.new) }
{
    let plain = node_from(alloc, &words.node, files)?;
    let mut node = LiveNode::new(plain, words.scrub);
    hold_to_end(alloc, &mut node, words.entries, talk)
}

/// Sends the line of the fault that cut a talk off. If memory is refused to that line, it sends that there is no
/// memory.
fn send_fault<T: Talk>(alloc: Global, fault: &Fault<'_>, talk: &mut T) -> Result<(), WriteFault>
    ensures reported { OnOk result (SendsLast T.sent fault.now talk.old talk.new) }
    ensures lost { IfErr result (λ _. SendsLast T.unsent fault.now talk.old talk.new) }
{
    let mut text = Vec::new(alloc);
    let reported = match writeln!(text, "{fault}") {
        Ok(()) => talk.send(text.as_slice()),
        Err(_) => talk.send(NO_MEMORY),
    };
    reported.map_err(|_| WriteFault)
}

/// The exit status of a whole talk.
fn status_of(some_bad: bool) -> ExitStatus
    ensures { result ≡ (if some_bad then Failed else Done) }
{
    if some_bad {
        ExitStatus::Failed
    } else {
        ExitStatus::Done
    }
}

/// Answers the lines of a talk as they come, on the node of these words, and gives the exit status. The status is
/// `Failed` if a line was bad or a fault cut the talk off, else `Done`. What is due for a line is sent before the next
/// is asked for. If no more lines come, the journal is handed out, and its entries are sent last.
///
/// The fault that cuts the talk off is sent last. It is what [`node_from`] refuses, `CannotRead` if a line cannot be
/// read, or `NoMemory`. It is `Damaged` if packets have scrubs before them and the sizes of the node are not what they
/// were.
///
/// If a node's file is bad, `place` is then where, for the user.
///
/// # Errors
///
/// `WriteFault` if a text could not be sent. Nothing is sent after that.
pub fn live<F: Files, T: Talk>(
    alloc: Global,
    words: &LiveWords,
    files: &mut F,
    talk: &mut T,
    place: &mut Option<String>,
) -> Result<ExitStatus, WriteFault>
    ensures lives { IfOk result (Lives F.reads T.received T.sent T.unsent T.missed words.now
        files.old files.new talk.old talk.new) }
    ensures unsent { IfErr result (IsUnsent F.reads T.received T.sent T.unsent T.missed words.now
        files.old files.new talk.old talk.new) }
{
    match live_on(alloc, words, files, talk) {
        Ok(some_bad) => Ok(status_of(some_bad)),
        Err(halt) => {
            let fault = halt.fault()?;
            send_fault(alloc, &fault, talk)?;
            *place = place_of(fault);
            Ok(ExitStatus::Failed)
        }
    }
}
