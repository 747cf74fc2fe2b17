//! The job `sim`.

ghost use Rattle.std.specs.Prelude.{◌≡◌, IfErr, IfOk, MatchResult, OnOk, false};
ghost use Rattle.job_parts.specs.Matched.{app_of, fields_of};
ghost use Rattle.job_parts.specs.Printed.{Prints};
ghost use Rattle.job_parts.specs.Stops.{StopsBy};
ghost use Rattle.job_nodes.specs.EventLines.{IsBadEvent, IsEventOf};
ghost use Rattle.job_nodes.specs.SimJob.{outcome_line, sim_app, status_line};
ghost use Rattle.job_nodes.specs.Simulated.{IsNotSimulated, IsStuck, DoesSim, StepsEventLine};

use crate::events::read_event;
use crate::sources::lines_and_world;
use clap::Command;
use job_config::node_lines::{NodeLines, node_lines_command};
use job_parts::bad_lines::BadLine;
use job_parts::replies::print_bytes;
use job_parts::status::ExitStatus;
use job_parts::stops::{JobStop, LineEnd, LineStop};
use job_parts::storage::Files;
use job_parts::turns::{TakesLines, take_lines};
use sched::{Event, Outcome, World, step};
use std::alloc::{AllocError, Global};
use std::io::{self, Write};
use std::marker::Model;

/// `sim LINES [--image FILE] [--maps LIST] [--ports N]` or `sim LINES --node FILE`.
///
/// # Errors
///
/// An error if memory is refused.
pub fn sim_command<'a>(alloc: Global) -> Result<Command<'a>, AllocError>
    ensures shape { IfOk result (λ c. app_of c ≡ sim_app) }
    ensures local { IfOk result (λ c. (fields_of c).has_globals ≡ false) }
{
    let about = "Steps through the events of a schedule and prints what each comes to";
    let help = "The file of events, or - for standard input";
    node_lines_command(alloc, "sim", about, help)
}

/// Prints a status and a reply: `WHAT S HEX`, or `WHAT S -` if no reply is due and it has no bytes.
fn print_status<W: Write>(
    out: &mut W,
    what: &str,
    status: rmap::Status,
    reply: &[u8],
) -> io::Result<()>
    ensures { OnOk result
        (Prints W.contents out.old out.new (status_line what.now status reply.now)) }
{
    let code = status.code();
    write!(out, "{what} {code} ")?;
    print_bytes(out, reply)?;
    writeln!(out)
}

/// Prints what an event comes to: `refused`, `discard C`, `answered S HEX`, `taken G`, `told N` or `done S HEX`.
fn print_outcome<W: Write>(out: &mut W, outcome: &Outcome) -> io::Result<()>
    ensures { OnOk result (Prints W.contents out.old out.new (outcome_line outcome.now)) }
{
    match outcome {
        Outcome::Refused => writeln!(out, "refused"),
        Outcome::Discarded(discard) => {
            let code = discard.code();
            writeln!(out, "discard {code}")
        }
        Outcome::Answered(status, reply) => print_status(out, "answered", *status, reply.bytes()),
        Outcome::Taken(generation) => writeln!(out, "taken {generation}"),
        Outcome::Told(reported) => writeln!(out, "told {reported}"),
        Outcome::Done(status, reply, _) => print_status(out, "done", *status, reply.bytes()),
    }
}

/// The event that a line writes, at one of this many ports.
fn event_at(alloc: Global, ports: u8, line: &str) -> Result<Event, BadLine>
    ensures { MatchResult result (IsEventOf ports line.now) (IsBadEvent ports line.now) }
{
    let event = read_event(alloc, line)?;
    if event.port() < ports {
        Ok(event)
    } else {
        Err(BadLine::NoPort)
    }
}

/// A world that steps by event lines. Contracts see the world.
#[derive(Drop)]
pub struct Simulating {
    world: World,
}

impl Model for Simulating {
    ghost use Rattle.sched.specs.Worlds.{WorldValue};

    ghost Value = { WorldValue };

    ghost view = { λ s. s.world };
}

impl TakesLines for Simulating {
    ghost takes = { StepsEventLine };

    ghost stops = { IsStuck };

    /// Takes one line: the world steps by its event, and what that comes to is printed.
    fn take<W: Write>(&mut self, alloc: Global, line: &str, out: &mut W) -> Result<(), LineStop> {
        let event = event_at(alloc, self.world.ports(), line)?;
        // Only memory can be refused to it: the port of the event is one of the world.
        let Ok(outcome) = step(alloc, &mut self.world, event) else {
            return Err(LineStop::Ended(LineEnd::NoMemory));
        };
        Ok(print_outcome(out, &outcome)?)
    }
}

/// Steps through the events of a file, in order, from the beginning of the node of these arguments, after what its file
/// publishes. It prints what each event comes to before it reads the next line. If a bank begins with bytes, which no
/// schedule has, it returns `Misused` and prints nothing.
///
/// # Errors
///
/// Those of [`lines_and_world`], in its order, and then those of each line.
#[tactic(auto, using(crate::proofs::Scheduled::refuses_contents))]
pub fn sim_file<'a, F: Files, W: Write>(
    alloc: Global,
    args: &'a NodeLines,
    files: &mut F,
    out: &mut W,
) -> Result<ExitStatus, JobStop<'a>>
    ensures done { IfOk result (DoesSim F.reads args.now files.old files.new
        (W.contents out.old) (W.contents out.new)) }
    ensures stops { IfErr result (StopsBy (IsNotSimulated F.reads args.now files.old files.new
        (W.contents out.old) (W.contents out.new))) }
{
    let (text, made) = lines_and_world(alloc, args, files)?;
    let Some(world) = made else {
        return Ok(ExitStatus::Misused);
    };
    let mut simulating = Simulating { world };
    take_lines(alloc, &mut simulating, text.as_str(), out)?;
    Ok(ExitStatus::Done)
}
