//! The job `live --frames`.

ghost use Rattle.std.specs.Prelude.{◌≡◌, IfErr, IfOk, OnOk};
ghost use Rattle.job_live.specs.LiveJob.{SendsLast};
ghost use Rattle.job_frames.specs.FramesJob.{AreReady, HoldsFrames, HoldsLink, IsEndUnreported, IsFramesUnsent, IsFramesHalt, IsNoLink, IsUnheld, LivesFrames, StopsLink, PrintsEnd, frame_refusal_of, link_status_of};

use crate::answering::Answering;
use frames::FrameReader;
use job_live::live::NO_MEMORY;
use job_live::words::LiveWords;
use job_nodes::live_node::LiveNode;
use job_nodes::sources::{node_from, place_of};
use job_parts::faults::Fault;
use job_parts::status::ExitStatus;
use job_parts::stops::{JobStop, WriteFault};
use job_parts::storage::Files;
use linking::{Link, LinkEnd, hold};
use std::alloc::Global;
use std::io::Write;

/// The name of standard input, for a fault when the bytes cannot be read.
const STANDARD_INPUT: &str = "-";

/// A reader, and the node of these words, before a frame came.
fn ends_of_link<'a, F: Files>(
    alloc: Global,
    words: &'a LiveWords,
    files: &mut F,
) -> Result<(FrameReader, Answering), Fault<'a>>
    ensures ready { IfOk result
        (λ ends. AreReady F.reads words.now files.old ends.0 ends.1 files.new) }
    ensures refused { IfErr result (IsNoLink F.reads words.now files.old files.new) }
{
    let node = node_from(alloc, &words.node, files)?;
    let reader = FrameReader::new(alloc)?;
    let live = LiveNode::new(node, words.scrub);
    Ok((reader, Answering::new(alloc, live, words.entries)))
}

/// Why a packet was not served, by whether the node is damaged.
fn frame_refusal_of<'a>(is_damaged: bool) -> Fault<'a>
    ensures { result ≡ frame_refusal_of is_damaged }
{
    if is_damaged {
        return Fault::Damaged;
    }
    Fault::NoMemory
}

/// Why the job stops if a link was cut off so, by whether the node is damaged.
fn halt_of<'a>(why: LinkEnd, is_damaged: bool) -> JobStop<'a>
    ensures { IsFramesHalt is_damaged why result }
{
    match why {
        LinkEnd::Unread => JobStop::Ended(Fault::CannotRead(STANDARD_INPUT)),
        LinkEnd::NoMemory => JobStop::Ended(frame_refusal_of(is_damaged)),
        LinkEnd::Unsent | LinkEnd::Unreported => JobStop::Unwritten(WriteFault),
    }
}

/// Reports what is due when no more bytes come.
fn report_end<'a, L: Link>(
    answering: &mut Answering,
    is_whole: bool,
    link: &mut L,
) -> Result<(), JobStop<'a>>
    ensures reported { OnOk result (PrintsEnd L.reported is_whole answering.old answering.new.node
        link.old link.new) }
    ensures stops { IfErr result (IsEndUnreported L.unreported is_whole answering.old answering.new.node
        link.old link.new) }
{
    let Ok(text) = answering.end(is_whole) else {
        return Err(JobStop::Ended(Fault::NoMemory));
    };
    match link.report(text.as_slice()) {
        Ok(()) => Ok(()),
        Err(_) => Err(JobStop::Unwritten(WriteFault)),
    }
}

/// Holds a link to its end, and reports what is due there. Returns whether it ended between two packets.
fn hold_to_end<'a, L: Link>(
    reader: &mut FrameReader,
    answering: &mut Answering,
    link: &mut L,
) -> Result<bool, JobStop<'a>>
    ensures held { IfOk result (HoldsLink L.received L.sent L.reported reader.old reader.new
        answering.old answering.new.node link.old link.new) }
    ensures stops { IfErr result (StopsLink L.received L.sent L.reported L.unread L.unsent L.unreported
        reader.old reader.new answering.old answering.new.node link.old link.new) }
{
    if let Err(why) = hold(reader, answering, link) {
        return Err(halt_of(why, answering.is_damaged()));
    }
    let is_whole = reader.is_between() && !answering.is_open();
    report_end(answering, is_whole, link)?;
    Ok(is_whole)
}

/// Holds a link on the node of these words to its end. Returns whether it ended between two packets.
fn hold_on<'a, F: Files, L: Link>(
    alloc: Global,
    words: &'a LiveWords,
    files: &mut F,
    link: &mut L,
) -> Result<bool, JobStop<'a>>
    ensures held { IfOk result
        (HoldsFrames F.reads L.received L.sent L.reported L.unread L.unsent L.unreported
        words.now files.old files.new link.old link.new) }
    ensures stops { IfErr result
        (IsUnheld F.reads L.received L.sent L.reported L.unread L.unsent L.unreported
        words.now files.old files.new link.old link.new) }
{
    let (mut reader, mut answering) = ends_of_link(alloc, words, files)?;
    hold_to_end(&mut reader, &mut answering, link)
}

/// Reports the fault that cut a link off. If memory is refused to its line, it reports that there is none.
fn report<L: Link>(alloc: Global, fault: &Fault<'_>, link: &mut L) -> Result<(), WriteFault>
    ensures reported { OnOk result (SendsLast L.reported fault.now link.old link.new) }
    ensures lost { IfErr result (λ _. SendsLast L.unreported fault.now link.old link.new) }
{
    let mut text = Vec::new(alloc);
    let reported = match writeln!(text, "{fault}") {
        Ok(()) => link.report(text.as_slice()),
        Err(_) => link.report(NO_MEMORY),
    };
    reported.map_err(|_| WriteFault)
}

/// The exit status of a link that was held to its end.
fn link_status_of(is_whole: bool, has_lost: bool) -> ExitStatus
    ensures { result ≡ link_status_of is_whole has_lost }
{
    if is_whole {
        if has_lost {
            ExitStatus::Failed
        } else {
            ExitStatus::Done
        }
    } else {
        ExitStatus::Failed
    }
}

/// Answers the frames of a link as they come, at port 0 of the node of these words, and gives the exit status. It is
/// `Failed` if the input ended within a frame or a packet, a text was lost, or a fault cut the link off, else `Done`.
/// The reply to a packet is sent before other bytes are asked for, and what is said of it is reported after that.
///
/// The fault that cuts it off is reported last: what [`node_from`] refuses, `CannotRead` if bytes cannot be read, or
/// `NoMemory`. It is `Damaged` if packets have scrubs before them and the sizes of the node are not what they were.
///
/// If a node's file is bad, `place` is then where, for the user.
///
/// # Errors
///
/// `WriteFault` if a reply could not be sent, or a text could not be reported. Nothing is sent or reported after that.
#[tactic(auto, using(crate::proofs::Ended::ends))]
pub fn live_frames<F: Files, L: Link>(
    alloc: Global,
    words: &LiveWords,
    files: &mut F,
    link: &mut L,
    place: &mut Option<String>,
) -> Result<ExitStatus, WriteFault>
    ensures lives { IfOk result
        (LivesFrames F.reads L.received L.sent L.reported L.unread L.unsent L.unreported
        words.now L.lost files.old files.new link.old link.new) }
    ensures unsent { IfErr result (IsFramesUnsent F.reads L.received L.sent L.reported L.unread L.unsent
        L.unreported words.now files.old files.new link.old link.new) }
{
    match hold_on(alloc, words, files, link) {
        Ok(is_whole) => Ok(link_status_of(is_whole, link.has_lost())),
        Err(halt) => {
            let fault = halt.fault()?;
            report(alloc, &fault, link)?;
            *place = place_of(fault);
            Ok(ExitStatus::Failed)
        }
    }
}
