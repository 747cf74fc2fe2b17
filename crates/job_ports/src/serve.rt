//! The job `serve`.

ghost use Rattle.std.specs.Prelude.{◌≡◌, ◌<◌, IfErr, IfOk, OnOk, false, length, map, string_bytes};
ghost use Rattle.std.specs.Vec.{vec_items};
ghost use Rattle.job_parts.specs.Matched.{app_of, fields_of};
ghost use Rattle.ports.specs.Sinks.{replies_in};
ghost use Rattle.job_parts.specs.Printed.{Prints};
ghost use Rattle.job_parts.specs.Statuses.{IsDoneWith};
ghost use Rattle.job_parts.specs.Stops.{StopsBy};
ghost use Rattle.job_ports.specs.ServeJob.{EndsInLost, lines_from, port_lines, report_line, serve_app};
ghost use Rattle.job_nodes.specs.Judged.{IsNotReady};
ghost use Rattle.job_ports.specs.ServedFile.{AreGiven, IsNotServed, ServesFile, ServesWords};

use crate::arriving::read_lines;
use crate::own_nodes::own_from;
use crate::queues::serve_arrivals;
use clap::Command;
use job_config::node_lines::{NodeLines, node_lines_command};
use job_config::reading::ReadNode;
use job_parts::faults::Fault;
use job_parts::programs::text_in;
use job_parts::replies::print_reply;
use job_parts::status::ExitStatus;
use job_parts::stops::JobStop;
use job_parts::storage::Files;
use ports::{Replies, Report};
use std::alloc::{AllocError, Global};
use std::io::{self, Write};
use std::sync::Wait;
use std::thread::Threads;
use target::{Family, NodeHistory};

/// `serve LINES [--image FILE] [--maps LIST] [--ports N]` or `serve LINES --node FILE`.
///
/// # Errors
///
/// An error if memory is refused.
pub fn serve_command<'a>(alloc: Global) -> Result<Command<'a>, AllocError>
    ensures shape { IfOk result (λ c. app_of c ≡ serve_app) }
    ensures local { IfOk result (λ c. (fields_of c).has_globals ≡ false) }
{
    let about = "Serves the packets of all ports at once and prints the replies by port";
    let help = "The file of packet lines, or - for standard input";
    node_lines_command(alloc, "serve", about, help)
}

/// The text of the file of packet lines, and the node of these arguments with its first program.
fn lines_and_own<'a, F: Files>(
    alloc: Global,
    args: &'a NodeLines,
    files: &mut F,
) -> Result<(String, ReadNode), Fault<'a>>
    ensures given { IfOk result (λ made. AreGiven F.reads args.now files.old (string_bytes made.0)
        made.1.node made.1.program files.new) }
    ensures sizes { IfOk result (λ made. made.1.program.sizes ≡ made.1.node.sizes) }
    ensures refused { IfErr result (IsNotReady F.reads args.now files.old files.new) }
{
    let text = text_in(alloc, files, args.lines.as_str())?;
    let read = own_from(alloc, &args.node, files)?;
    Ok((text, read))
}

/// Serves the packet lines of a file on the node of these arguments, and gives the replies of each port, and the sum of the
/// workers' reports.
fn serve_words<'a, J: Family + Send + Sync + 'static, R: Threads + Wait + Sync, F: Files>(
    rt: &R,
    alloc: Global,
    opened: NodeHistory,
    args: &'a NodeLines,
    files: &mut F,
) -> Result<(Vec<Replies>, Report), JobStop<'a>>
    requires { opened ≡ J.book }
    ensures served { IfOk result (λ made. ServesWords F.reads args.now files.old files.new
        made.0.items made.1) }
    ensures few { IfOk result (λ made. length made.0.items < 256) }
    ensures refused { IfErr result (StopsBy (IsNotServed F.reads args.now files.old files.new)) }
{
    let (text, read) = lines_and_own(alloc, args, files)?;
    let ReadNode { node: own, program } = read;
    let arrivals = read_lines(alloc, text.as_str(), own.ports())?;
    let served = serve_arrivals::<J, _>(rt, alloc, opened, &own, program, arrivals)?;
    Ok(served)
}

/// Prints the replies of a port in order.
fn print_replies<W: Write>(out: &mut W, port: u8, replies: &[Vec<u8>]) -> io::Result<()>
    ensures { OnOk result
        (Prints W.contents out.old out.new (port_lines port (map vec_items replies.now))) }
{
    for reply in replies {
        print_reply(out, port, reply)?;
    }
    Ok(())
}

/// Prints the replies of each port, by the number of the port.
fn print_ports<W: Write>(out: &mut W, sinks: &[Replies]) -> io::Result<()>
    requires { length sinks.now < 256 }
    ensures { OnOk result
        (Prints W.contents out.old out.new (lines_from 0 (map (λ s. replies_in s.sent) sinks.now))) }
{
    let mut port: u8 = 0;
    for sink in sinks {
        print_replies(out, port, sink.replies())?;
        port += 1;
    }
    Ok(())
}

/// Prints how many packets were no command, and how many replies were lost: the last line of the job.
///
/// # Errors
///
/// Those of the writer.
pub fn print_report<W: Write>(out: &mut W, report: Report) -> io::Result<()>
    ensures { OnOk result (Prints W.contents out.old out.new (report_line report)) }
{
    let Report { discarded, lost } = report;
    writeln!(out, "discarded {discarded} lost {lost}")
}

/// Serves the packet lines of a file on the node of these arguments: one worker a port, each in a thread of its own. It
/// reads all lines before that, and prints nothing before all is served. Then it prints the replies of each port in
/// order, port by port, and the sum of the workers' reports. `lost` is then how many replies were lost, as the last
/// line has it.
///
/// # Errors
///
/// Faults are found in this order. First come those of the file of lines (`CannotRead`, also if it is not UTF-8), and
/// those of the node ([`own_from`]). Then comes that of the first line that has one, as [`read_lines`] gives it.
/// `NoMemory` if memory or a thread was refused. If there is a fault, nothing is printed.
pub fn serve_file<
    'a,
    J: Family + Send + Sync + 'static,
    R: Threads + Wait + Sync,
    F: Files,
    W: Write,
>(
    rt: &R,
    alloc: Global,
    opened: NodeHistory,
    args: &'a NodeLines,
    files: &mut F,
    out: &mut W,
    lost: &mut u64,
) -> Result<ExitStatus, JobStop<'a>>
    requires { opened ≡ J.book }
    ensures done { IfOk result (IsDoneWith (ServesFile F.reads args.now files.old files.new
        (W.contents out.old) (W.contents out.new))) }
    ensures lost { OnOk result (EndsInLost (W.contents out.old) (W.contents out.new) lost.new) }
    ensures stops { IfErr result (StopsBy (λ fault.
        IsNotServed F.reads args.now files.old files.new fault
        × (W.contents out.new ≡ W.contents out.old))) }
{
    let (sinks, report) = serve_words::<J, _, _>(rt, alloc, opened, args, files)?;
    *lost = report.lost;
    print_ports(out, &sinks)?;
    print_report(out, report)?;
    Ok(ExitStatus::Done)
}
