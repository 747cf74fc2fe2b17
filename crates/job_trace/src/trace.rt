//! The job `trace`.

ghost use Rattle.std.specs.Prelude.{◌≡◌, IfErr, IfOk, Some, [], false, length, replicate};
ghost use Rattle.job_parts.specs.Matched.{app_of, fields_of};
ghost use Rattle.job_parts.specs.Stops.{StopsBy};
ghost use Rattle.job_trace.specs.Judged.{TracesPacket};
ghost use Rattle.job_trace.specs.TraceJob.{trace_app};
ghost use Rattle.job_trace.specs.Traced.{IsNotTraced, IsTraceStuck, DoesTrace, TracesLineFrom};

use crate::judged::trace_packet;
use clap::Command;
use job_config::node_lines::{NodeLines, node_lines_command};
use job_nodes::feeds::Feeds;
use job_nodes::sources::lines_and_world;
use job_parts::status::ExitStatus;
use job_parts::stops::{JobStop, LineStop};
use job_parts::storage::Files;
use job_parts::turns::{TakesLines, take_lines};
use sched::World;
use spw::Packet;
use std::alloc::{AllocError, Global};
use std::io::Write;

/// `trace LINES [--image FILE] [--maps LIST] [--ports N]` or `trace LINES --node FILE`.
///
/// # Errors
///
/// An error if memory is refused.
pub fn trace_command<'a>(alloc: Global) -> Result<Command<'a>, AllocError>
    ensures shape { IfOk result (λ c. app_of c ≡ trace_app) }
    ensures local { IfOk result (λ c. (fields_of c).has_globals ≡ false) }
{
    let about = "Judges each packet line and prints the steps of its program and its reply";
    let help = "The file of packet lines, or - for standard input";
    node_lines_command(alloc, "trace", about, help)
}

/// What is printed of a packet that is taken at a port: the run of the program that judges it, and its reply.
fn packet_text(
    alloc: Global,
    world: &mut World,
    port: u8,
    packet: Packet,
) -> Result<Vec<u8>, AllocError>
    ensures { IfOk result (λ text. TracesPacket port packet world.old world.new
        (Some []) (Some text.items)) }
{
    let mut text = Vec::new(alloc);
    // Only memory can be refused to it: what is printed stays in memory.
    match trace_packet(alloc, world, port, packet, &mut text) {
        Ok(()) => Ok(text),
        Err(_) => Err(AllocError),
    }
}

/// A world that takes the packets of lines, and what its ports hold of packets that have not ended.
#[derive(Drop)]
struct Tracing {
    world: World,
    feeds: Feeds,
}

impl TakesLines for Tracing {
    ghost takes = { TracesLineFrom };

    ghost stops = { IsTraceStuck };

    /// Takes one line, and prints what becomes of the packet that it ends. It prints all of it at once, so that it
    /// prints nothing of a packet to which memory is refused.
    #[tactic(auto, using(crate::proofs::LinesInTurn::traces_none, crate::proofs::LinesInTurn::traces_received))]
    fn take<W: Write>(&mut self, alloc: Global, line: &str, out: &mut W) -> Result<(), LineStop> {
        let Some((port, packet)) = self.feeds.take_line(alloc, line)? else {
            return Ok(());
        };
        let text = packet_text(alloc, &mut self.world, port, packet)?;
        Ok(out.write_all(&text)?)
    }
}

/// What takes lines on a world, whose ports hold nothing.
fn tracing_on(alloc: Global, world: World) -> Result<Tracing, AllocError>
    ensures world { IfOk result (λ tracing. tracing.world ≡ world) }
    ensures empty { IfOk result (λ tracing. tracing.feeds ≡ replicate (length world.ports) []) }
{
    let feeds = Feeds::new(alloc, world.ports())?;
    Ok(Tracing { world, feeds })
}

/// Judges the packet lines of a file, in order, on the node of these arguments, after what its file publishes. For each
/// packet that a program judges it prints the steps of the run, and then the reply; for any other only its line. If a
/// bank begins with bytes, which no schedule has, it returns `Misused` and prints nothing.
///
/// # Errors
///
/// Those of [`lines_and_world`], in its order, and then those of each line.
#[tactic(auto, using(crate::proofs::Scheduled::refuses_contents))]
pub fn trace_file<'a, F: Files, W: Write>(
    alloc: Global,
    args: &'a NodeLines,
    files: &mut F,
    out: &mut W,
) -> Result<ExitStatus, JobStop<'a>>
    ensures done { IfOk result (DoesTrace F.reads args.now files.old files.new
        (W.contents out.old) (W.contents out.new)) }
    ensures stops { IfErr result (StopsBy (IsNotTraced F.reads args.now files.old files.new
        (W.contents out.old) (W.contents out.new))) }
{
    let (text, made) = lines_and_world(alloc, args, files)?;
    let Some(world) = made else {
        return Ok(ExitStatus::Misused);
    };
    let mut tracing = tracing_on(alloc, world)?;
    take_lines(alloc, &mut tracing, text.as_str(), out)?;
    Ok(ExitStatus::Done)
}
