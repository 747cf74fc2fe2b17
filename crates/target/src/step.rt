//! The first half of a packet's way: its verdict.

ghost use Rattle.std.specs.Prelude.{◌≡◌, IfErr, IfOk, OnErr};
ghost use Rattle.node_programs.specs.Published.{sizes_of};
ghost use Rattle.target.specs.Steps.{IsAtMoment, IsJudgedByTaken, IsPacketStep};
ghost use mathlib.Core.List.{IsPrefix};
ghost use Rattle.annals.specs.Shown.{IsTakenAtMoment};

use crate::pass::Pass;
use annals::Front;
use bank::{Admitted, Judged};
use cells::CellSeat;
use node_parts::{RunContext, Stop, admit, judge_by, slot};
use publish::{Family, Reader};
use rmap::{Discard, ReplyBuf, Status, put_reply};
use spw::Packet;

/// How far a packet came by itself. Each step except `Judged` hands the packet back as it came.
#[derive(Debug)]
pub enum Step {
    /// The packet is no command: no reply.
    Discarded(Discard, Packet),
    /// A check of the header holds: its status is the reply's, and no program was run.
    Answered(Status, Packet),
    /// No program was given for the command: the reply is a general error, and no program was run. No clause excludes
    /// this while the publisher lives, and no test of a node met it.
    Unread(Packet),
    /// The program gave its verdict. The reply is still to come.
    Judged(Judged),
}

/// Judges an admitted command by the program that the reader takes in the slot of its place: one run on its header. If
/// no program is given, the command comes back.
fn judge_taken<J: Family>(
    context: &mut RunContext<CellSeat>,
    reader: &mut Reader<J>,
    front: &mut Front<J>,
    admitted: Admitted,
) -> Result<Judged, Admitted>
    requires { context.old.seat.sizes ≡ sizes_of reader.old.programs }
    ensures judged { IfOk result (λ j.
        IsJudgedByTaken reader.old.programs reader.new.programs
        context.old context.new admitted j) }
    ensures known { IsPrefix front.old front.new }
    ensures moment { IfOk result (λ _. IsTakenAtMoment front.old front.new reader.new.programs) }
    ensures back { IfErr result (λ back. back ≡ admitted) }
    ensures same { OnErr result ((context.new ≡ context.old) × (reader.new ≡ reader.old)) }
    ensures sizes { sizes_of reader.new.programs ≡ sizes_of reader.old.programs }
{
    let slot = slot(admitted.command().kind(), admitted.place());
    match reader.take(front, slot) {
        Some(taken) => {
            let accepted = taken.accepted();
            Ok(judge_by(context, accepted, taken.generation(), admitted))
        }
        None => Err(admitted),
    }
}

/// Judges a packet: discards it, answers it by its header, or runs a program on the header of its command. That program
/// is the one that the port's reader takes in the slot of its place.
///
/// Some list of publishes has that program there, which begins with all that the port knew. The list was what readers
/// saw at one moment of the node's history. That moment was not before what the port knew and did, nor after what it
/// then knows. It is tested that a program is taken at all. If a reply is due then, `reply` holds it.
pub fn judge<J: Family>(
    pass: &mut Pass<J>,
    front: &mut Front<J>,
    packet: Packet,
    reply: &mut ReplyBuf,
) -> Step
    ensures step { IsPacketStep result packet pass.old.pass pass.new.pass reply.new }
    ensures known { IsPrefix front.old front.new }
    ensures moment { IsAtMoment result front.old front.new pass.new.pass }
    ensures asked { pass.new.asked ≡ pass.old.asked }
{
    let admitted = match admit(packet, pass.context.windows(), reply) {
        Ok(admitted) => admitted,
        Err((Stop::Discarded(discard), packet)) => return Step::Discarded(discard, packet),
        Err((Stop::Answered(status), packet)) => return Step::Answered(status, packet),
    };
    pass.loader.line.announce(front);
    let judged = match judge_taken(&mut pass.context, &mut pass.loader.reader, front, admitted) {
        Ok(judged) => judged,
        Err(admitted) => {
            put_reply(reply, &admitted.command(), Status::GeneralError, &[]);
            return Step::Unread(admitted.into_packet());
        }
    };
    Step::Judged(judged)
}
