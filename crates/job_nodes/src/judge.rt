//! The job `judge`.

ghost use Rattle.std.specs.Prelude.{◌≡◌, IfErr, IfOk, OnOk, false, string_bytes};
ghost use Rattle.job_nodes.specs.JobNode.{RefusesLine, TakesPacketLine};
ghost use Rattle.job_parts.specs.Matched.{app_of, fields_of};
ghost use Rattle.job_parts.specs.Printed.{Prints};
ghost use Rattle.job_parts.specs.Statuses.{IsDoneWith};
ghost use Rattle.job_parts.specs.Stops.{StopsBy};
ghost use Rattle.job_nodes.specs.JudgeJob.{discard_line, judge_app};
ghost use Rattle.job_nodes.specs.Judged.{IsNotJudged, IsNotReady, IsReady, JudgesFile};
ghost use Rattle.job_nodes.specs.Lines.{IsBadLine, Judges, served_line};

use crate::full_journals::FullJournals;
use crate::node::JobNode;
use crate::sources::node_from;
use clap::Command;
use job_config::node_lines::{NodeLines, node_lines_command};
use job_parts::bad_lines::BadLine;
use job_parts::faults::Fault;
use job_parts::programs::text_in;
use job_parts::replies::print_reply;
use job_parts::status::ExitStatus;
use job_parts::stops::{JobStop, LineStop};
use job_parts::storage::Files;
use job_parts::turns::{TakesLines, take_lines};
use node_parts::{Served, Stop};
use rmap::{Command as Asked, Discard, Status as Answer};
use spw::Packet;
use std::alloc::{AllocError, Global};
use std::io::{self, Write};
use std::marker::Model;

/// `judge LINES [--image FILE] [--maps LIST] [--ports N]` or `judge LINES --node FILE`.
///
/// # Errors
///
/// An error if memory is refused.
pub fn judge_command<'a>(alloc: Global) -> Result<Command<'a>, AllocError>
    ensures shape { IfOk result (λ c. app_of c ≡ judge_app) }
    ensures local { IfOk result (λ c. (fields_of c).has_globals ≡ false) }
{
    let about = "Judges each packet line and prints its reply";
    let help = "The file of packet lines, or - for standard input";
    node_lines_command(alloc, "judge", about, help)
}

/// Prints that a packet was discarded: `PORT discard C`.
///
/// # Errors
///
/// The error of `out`, if it does not take all of the line.
pub fn print_discard<W: Write>(out: &mut W, port: u8, discard: Discard) -> io::Result<()>
    ensures { OnOk result (Prints W.contents out.old out.new (discard_line port discard)) }
{
    let code = discard.code();
    writeln!(out, "{port} discard {code}")
}

/// Prints what became of a packet, with the reply that was due.
///
/// # Errors
///
/// The error of `out`, if it does not take all of the line.
pub fn print_served<W: Write>(out: &mut W, port: u8, served: Served, reply: &[u8]) -> io::Result<()>
    ensures { OnOk result (Prints W.contents out.old out.new (served_line port served reply.now)) }
{
    match served {
        Served::Stopped(Stop::Discarded(discard)) => print_discard(out, port, discard),
        Served::Stopped(Stop::Answered(_)) | Served::Unread | Served::Done(_) | Served::Window(_) =>
            { print_reply(out, port, reply) }
    }
}

/// A node that judges packet lines, how many it took, and which journals were found full. Contracts see the node.
#[derive(Drop)]
pub struct Judging {
    node: JobNode,
    taken: usize,
    full: FullJournals,
}

impl Model for Judging {
    ghost use Rattle.job_nodes.specs.JobNode.{JobNodeValue};

    ghost Value = { JobNodeValue };

    ghost view = { λ j. j.node };
}

/// Whether a command ended at its bank with a general error, as each does that finds its journal full.
fn is_refused(served: Served) -> bool {
    match served {
        Served::Done(applied) => applied.status == Answer::GeneralError,
        Served::Stopped(_) | Served::Unread | Served::Window(_) => false,
    }
}

/// The extended address of the command that a packet is, if it is one: the number of its bank, if there is that bank.
fn extended_of(packet: &Packet) -> Option<u8> {
    match Asked::view(packet) {
        Ok(command) => Some(command.extended()),
        Err(_) => None,
    }
}

impl Judging {
    /// Notes the line that was taken last, if its command, for that extended address, found the journal of its bank full.
    fn note(&mut self, extended: Option<u8>, served: Served)
        ensures { self.new ≡ self.old }
    {
        let Some(bank) = extended else {
            return;
        };
        if is_refused(served) && bank < self.node.banks() && self.node.is_full(bank) {
            self.full.note(bank, self.taken);
        }
    }

    /// Takes a line, and serves the packet that it ends. Returns its port and what became of it, or `None` if the line
    /// ends none. It serves nothing if the line has a fault.
    fn take_line(&mut self, alloc: Global, line: &str) -> Result<Option<(u8, Served)>, BadLine>
        ensures taken { IfOk result (λ received. TakesPacketLine line.now received self.old self.new) }
        ensures refused { IfErr result (λ fault. RefusesLine line.now fault self.old self.new) }
    {
        self.taken = self.taken.saturating_add(1);
        let Some((port, packet)) = self.node.feed_line(alloc, line)? else {
            return Ok(None);
        };
        let extended = extended_of(&packet);
        let served = self.node.serve(alloc, port, packet);
        self.note(extended, served);
        Ok(Some((port, served)))
    }
}

impl TakesLines for Judging {
    ghost takes = { Judges };

    ghost stops = { IsBadLine };

    /// Takes one line, judges the packet that it ends, and prints what comes of it.
    fn take<W: Write>(&mut self, alloc: Global, line: &str, out: &mut W) -> Result<(), LineStop> {
        let Some((port, served)) = self.take_line(alloc, line)? else {
            return Ok(());
        };
        Ok(print_served(out, port, served, self.node.reply())?)
    }
}

/// The text of the file of packet lines, and the node of these arguments.
fn lines_and_node<'a, F: Files>(
    alloc: Global,
    args: &'a NodeLines,
    files: &mut F,
) -> Result<(String, Judging), Fault<'a>>
    ensures ready { IfOk result
        (λ made. IsReady F.reads args.now files.old (string_bytes made.0) made.1 files.new) }
    ensures refused { IfErr result (IsNotReady F.reads args.now files.old files.new) }
{
    let text = text_in(alloc, files, args.lines.as_str())?;
    let node = node_from(alloc, &args.node, files)?;
    let full = FullJournals::none(node.banks());
    let judging = Judging {
        node,
        taken: 0,
        full,
    };
    Ok((text, judging))
}

/// Judges the packet lines of a file on the node of these arguments. `full` is then which journals were found full.
///
/// # Errors
///
/// Faults are found in this order: those of the file of lines (`CannotRead`, also if it is not UTF-8), those of the
/// node ([`node_from`]), and then those of each line.
pub fn judge_file<'a, F: Files, W: Write>(
    alloc: Global,
    args: &'a NodeLines,
    files: &mut F,
    out: &mut W,
    full: &mut Option<FullJournals>,
) -> Result<ExitStatus, JobStop<'a>>
    ensures done { IfOk result (IsDoneWith (JudgesFile F.reads args.now files.old files.new
        (W.contents out.old) (W.contents out.new))) }
    ensures stops { IfErr result (StopsBy (IsNotJudged F.reads args.now files.old files.new
        (W.contents out.old) (W.contents out.new))) }
{
    let (text, mut judging) = lines_and_node(alloc, args, files)?;
    let taken = take_lines(alloc, &mut judging, text.as_str(), out);
    *full = Some(judging.full);
    taken?;
    Ok(ExitStatus::Done)
}
