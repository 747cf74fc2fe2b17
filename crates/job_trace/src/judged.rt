//! A command, from its Take to its reply.

ghost use Rattle.std.specs.Prelude.{◌≡◌, IfOk, IfSome, OnOk};
ghost use Rattle.machine.specs.declared.helpers.Helper.{Helper};
ghost use Rattle.sched.specs.Answers.{answering};
ghost use Rattle.job_parts.specs.Printed.{Prints};
ghost use Rattle.job_trace.specs.TraceJob.{taken_line};
ghost use Rattle.job_trace.specs.Judged.{AnswersHelpers, EndsCommand, PrintsRun, TracesCommand, TracesPacket};

use crate::runs::trace_run;
use brun::Turn;
use job_nodes::judge::print_discard;
use job_nodes::settling::{answered_by, ending};
use job_parts::replies::print_reply;
use sched::{Event, Outcome, World, step};
use spw::Packet;
use std::alloc::{AllocError, Global};
use std::io::{self, Write};
use stepper::Machine;

/// The most questions of a run: no more than a budget allows it steps.
const MOST_QUESTIONS: u32 = 0x1_0000;

/// The event that answers the helper that a program at the port asks, or `None` if it asks none.
fn question(world: &World, port: u8) -> Option<Event>
    ensures { IfSome result (λ event. (helper : Helper) × (event ≡ answering helper port)) }
{
    match world.standing(port)?.turn {
        Turn::Ask(asked) => Some(answered_by(asked.helper, port)),
        Turn::Verdict(_) => None,
    }
}

/// Answers the helpers of the program that judges at a port, up to its verdict. Returns their answers, in order.
#[tactic(auto, using(crate::proofs::Histories::answers_none, crate::proofs::Histories::answers_more))]
fn answer_helpers(alloc: Global, world: &mut World, port: u8) -> Result<Vec<u64>, AllocError>
    ensures { IfOk result
        (λ answers. AnswersHelpers port answers.items world.old world.new) }
{
    let mut answers = Vec::new(alloc);
    for _question in 0..MOST_QUESTIONS {
        let Some(event) = question(world, port) else {
            return Ok(answers);
        };
        // Only memory can be refused to it: the program asks that helper.
        let Ok(Outcome::Told(reported)) = step(alloc, world, event) else {
            return Err(AllocError);
        };
        answers.push(reported)?;
    }
    Ok(answers)
}

/// Prints that a command was taken: `PORT taken slot S generation G`.
fn print_taken<W: Write>(out: &mut W, port: u8, slot: u8, generation: u32) -> io::Result<()>
    ensures { OnOk result
        (Prints W.contents out.old out.new (taken_line port slot generation)) }
{
    writeln!(out, "{port} taken slot {slot} generation {generation}")
}

/// Prints that the command at a port was taken, and the steps of its run, whose helpers had these answers.
fn print_run<W: Write>(
    alloc: Global,
    world: &World,
    port: u8,
    answers: &[u64],
    out: &mut W,
) -> io::Result<()>
    ensures { OnOk result (PrintsRun port answers.now world.now
        (W.contents out.old) (W.contents out.new)) }
{
    let Some(standing) = world.standing(port) else {
        return Err(AllocError.into());
    };
    print_taken(out, port, standing.slot, standing.generation)?;
    let image = standing.program.image();
    let sizes = standing.program.sizes();
    let machine = Machine::start(image, &sizes, standing.front, standing.tail, port);
    trace_run(alloc, machine, answers, image.budget(), out)
}

/// Ends the command at a port, whose program has its verdict, and prints its reply.
fn end_command<W: Write>(alloc: Global, world: &mut World, port: u8, out: &mut W) -> io::Result<()>
    ensures { OnOk result (EndsCommand port world.old world.new
        (W.contents out.old) (W.contents out.new)) }
{
    let Some(standing) = world.standing(port) else {
        return Err(AllocError.into());
    };
    let event = ending(port, standing.place);
    // Only memory can be refused to it: the program has its verdict.
    let Ok(Outcome::Done(_, reply, _)) = step(alloc, world, event) else {
        return Err(AllocError.into());
    };
    print_reply(out, port, reply.bytes())
}

/// Judges the command that was taken at a port, and prints its run and its reply.
fn trace_taken<W: Write>(alloc: Global, world: &mut World, port: u8, out: &mut W) -> io::Result<()>
    ensures { OnOk result (TracesCommand port world.old world.new
        (W.contents out.old) (W.contents out.new)) }
{
    let answers = answer_helpers(alloc, world, port)?;
    print_run(alloc, world, port, &answers, out)?;
    end_command(alloc, world, port, out)
}

/// Takes a packet at a port, and prints what becomes of it: the run of the program that judges it, and its reply.
///
/// # Errors
///
/// The error of `out`, if it does not take all of the text, or an error if memory is refused.
#[tactic(auto, using(crate::proofs::Histories::traces_stopped, crate::proofs::Histories::traces_judged))]
pub fn trace_packet<W: Write>(
    alloc: Global,
    world: &mut World,
    port: u8,
    packet: Packet,
    out: &mut W,
) -> io::Result<()>
    ensures { OnOk result (TracesPacket port packet world.old world.new
        (W.contents out.old) (W.contents out.new)) }
{
    match step(alloc, world, Event::Take(port, packet)) {
        Ok(Outcome::Discarded(discard)) => print_discard(out, port, discard),
        Ok(Outcome::Answered(_, reply)) => print_reply(out, port, reply.bytes()),
        Ok(Outcome::Taken(_)) => trace_taken(alloc, world, port, out),
        // Only memory can be refused to it: no command is open at the port.
        _ => Err(AllocError.into()),
    }
}
