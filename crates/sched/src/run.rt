//! A command that is judged, from its Take to its end.

ghost use Rattle.std.specs.Prelude.{◌≡◌, ◌<◌, ℕ, List, Some, IfSome, IsTrue};
ghost use Rattle.std.specs.Arc.{arc_value};
ghost use Rattle.rmap.specs.Command.{command_of, discard_of};
ghost use Rattle.machine.specs.declared.calls.Call.{Call};
ghost use Rattle.machine.specs.Memory.{IsProgramHeader};
ghost use Rattle.machine.specs.Helpers.{takes_kind};
ghost use Rattle.machine.specs.Sizes.{IsInside, kind_of_map};
ghost use Rattle.bank.specs.Admission.{IsPlacedBy};
ghost use Rattle.brun.specs.Pauses.{AsksWithin, IsAt, IsPaused, Turns};
ghost use Rattle.sched.specs.BeginsHistory.{HasBegun};
ghost use Rattle.sched.specs.Ends.{judged_with};
ghost use Rattle.sched.specs.History.{Open, with_answer};
ghost use Rattle.sched.specs.Standing.{IsLentOf};
ghost use Rattle.sched.specs.Looking.{Node, argument_asked, cell_asked, seen_header_in};
ghost use Rattle.sched.specs.Worlds.{IsHelperQuestion, IsRunOfOpen, IsSameCommandRun, StandsIfAny, at_stack, verdict_of_turn};

use crate::laws::{arrays_are_headers, turns_are_paths};
use crate::standing::Standing;
use bank::{Admitted, Judged};
use brun::{Paused, Turn, advance, answer, start};
use bver::{Accepted, justified_programs};
use machine::{Helper, STACK_SIZE};
use node_parts::slot;
use rmap::{Command, Place, Windows};
use spw::Packet;
use std::marker::Model;
use std::sync::Arc;

/// A command that a port is to judge: its packet and place, and the program that its slot shows, with its generation.
#[derive(Drop)]
pub(crate) struct Opening {
    pub packet: Packet,
    pub place: Place,
    pub program: Arc<Accepted>,
    pub generation: u32,
}

/// A command that is judged: its packet and place, the program that judges it, with its generation, and where that
/// program is. The run holds the program from the Take on, whatever is published later. The stack is the port's, so
/// that it is not moved with the rest.
#[derive(Drop)]
pub(crate) struct Run {
    packet: Packet,
    place: Place,
    program: Arc<Accepted>,
    generation: u32,
    turn: Turn,
    paused: Paused,
}

impl Model for Run {
    ghost use Rattle.std.specs.Prelude.{[]};
    ghost use Rattle.std.specs.Arc.{arc_value};
    ghost use Rattle.sched.specs.Worlds.{RunValue, IsCommandHeld};

    ghost Value = { RunValue };

    ghost invariant = { λ r. IsCommandHeld (record { packet = r.packet; place = r.place; program = arc_value r.program; generation = r.generation; turn = r.turn; frame = r.paused; stack = [] }) };

    ghost view = { λ r. record { packet = r.packet; place = r.place; program = arc_value r.program; generation = r.generation; turn = r.turn; frame = r.paused; stack = [] } };
}

/// Goes on with the program of a packet's command, to its next question or to its verdict.
fn go_on(
    program: &Accepted,
    packet: &Packet,
    stack: &mut [u8; STACK_SIZE],
    paused: &mut Paused,
) -> Turn
    requires command { discard_of packet.now.bytes ≡ None }
    requires paused { IsPaused program.now.program (seen_header_in packet.now) paused.old stack.old }
    ensures turns { (port : ℕ) (calls : List Call) → port < 32
        → IsAt program.now.program (seen_header_in packet.now) port calls paused.old stack.old
        → Turns program.now.program (seen_header_in packet.now) port calls result paused.new stack.new }
    ensures within { AsksWithin program.now.sizes result }
    ensures header { IsProgramHeader (seen_header_in packet.now) }
{
    let command = Command::again(packet);
    arrays_are_headers(command.front(), command.tail());
    advance(program, command.front(), command.tail(), stack, paused)
}

impl Run {
    /// Begins the program on the command of a packet, at a port below 32. What the stack holds from before is never read:
    /// no program reads a byte that it has not written.
    pub fn begin(opening: Opening, port: u8, stack: &mut [u8; STACK_SIZE]) -> Run
        requires port { port < 32 }
        requires command { discard_of opening.packet.bytes ≡ None }
        ensures begun { HasBegun port opening.packet opening.place (arc_value opening.program)
            opening.generation (at_stack result stack.new) }
        ensures stands { StandsIfAny (Some (at_stack result stack.new)) }
    {
        turns_are_paths();
        justified_programs();
        let Opening {
            packet,
            place,
            program,
            generation,
        } = opening;
        let mut paused = start(&program, port);
        let turn = go_on(&program, &packet, stack, &mut paused);
        Run {
            packet,
            place,
            program,
            generation,
            turn,
            paused,
        }
    }

    /// The verdict of the program, if it has one.
    pub fn verdict(&self) -> Option<u64>
        ensures { result ≡ verdict_of_turn self.now.turn }
    {
        match self.turn {
            Turn::Verdict(verdict) => Some(verdict),
            Turn::Ask(_) => None,
        }
    }

    /// The cell for which the program asks that helper, if it asks it.
    pub fn asked(&self, helper: Helper) -> Option<(u8, u16)>
        ensures value { result ≡ cell_asked helper (Some self.now.turn) }
        ensures inside { IfSome result (λ cell. IsInside self.now.program.sizes cell.0 cell.1) }
        ensures kind { IfSome result (λ cell.
            IsTrue (takes_kind helper (kind_of_map self.now.program.sizes cell.0))) }
        ensures asks { IfSome result (λ _. IsHelperQuestion self.now.turn) }
    {
        match self.turn {
            Turn::Ask(asked) if asked.helper.number() == helper.number() => {
                Some((asked.map, asked.key))
            }
            Turn::Ask(_) | Turn::Verdict(_) => None,
        }
    }

    /// The number to which the program raises a cell, if it asks for that. Otherwise the number means nothing.
    pub fn argument(&self) -> u64
        ensures { result ≡ argument_asked (Some self.now.turn) }
    {
        match self.turn {
            Turn::Ask(asked) => asked.argument,
            Turn::Verdict(_) => 0,
        }
    }

    /// Answers the question at which the program is, and goes on.
    pub fn answer_question(&mut self, reported: u64, stack: &mut [u8; STACK_SIZE])
        requires asks { IsHelperQuestion self.old.turn }
        requires stands { StandsIfAny (Some (at_stack self.old stack.old)) }
        ensures same { IsSameCommandRun (at_stack self.old stack.old) (at_stack self.new stack.new) }
        ensures stands { StandsIfAny (Some (at_stack self.new stack.new)) }
        ensures run { (n : Node) (port : ℕ) (o : Open) → port < 32
            → IsRunOfOpen n port o (at_stack self.old stack.old)
            → IsRunOfOpen n port (with_answer reported o) (at_stack self.new stack.new) }
    {
        turns_are_paths();
        justified_programs();
        answer(&mut self.paused, reported);
        self.turn = go_on(&self.program, &self.packet, stack, &mut self.paused);
    }

    /// The command, as a view of its packet.
    pub fn command(&self) -> Command<'_>
        ensures { result ≡ command_of self.now.packet }
    {
        Command::again(&self.packet)
    }

    /// The command, as it is now.
    pub fn standing(&self) -> Standing<'_>
        ensures { (n : Node) (port : ℕ) (o : Open) (stack : List ℕ)
            → IsRunOfOpen n port o (at_stack self.now stack) → IsLentOf n port o result }
    {
        let command = self.command();
        Standing {
            program: &self.program,
            generation: self.generation,
            slot: slot(command.kind(), self.place),
            front: command.front(),
            tail: command.tail(),
            place: self.place,
            turn: self.turn,
        }
    }

    /// Where the command's bytes lie.
    pub fn place(&self) -> Place
        ensures { result ≡ self.now.place }
    {
        self.place
    }

    /// Ends the run of a port with that verdict, and gives the judged command, to be ended where its bytes lie. The
    /// windows are those under which the command was taken.
    pub fn end(self, windows: &Windows, port: u8, verdict: u64) -> Judged
        requires { IsPlacedBy windows.now self.packet self.place }
        ensures { result ≡ judged_with port verdict self }
    {
        let Run {
            packet,
            place,
            generation,
            ..
        } = self;
        let admitted = Admitted::new(packet, place, windows);
        Judged::of(admitted, port, generation, verdict)
    }
}
