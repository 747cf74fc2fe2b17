//! The event Take: the port discards a packet, answers it by its header, or begins to judge it.

ghost use Rattle.std.specs.Prelude.{◌≡◌, ◌<◌, ℕ, None, [], length, IfOk, OnErr};
ghost use Rattle.std.specs.Arc.{arc_value};
ghost use Rattle.rmap.specs.Command.{discard_of};
ghost use Rattle.bank.specs.Admission.{IsPlacedBy};
ghost use Rattle.sched.specs.BeginsHistory.{HasBegun, IsBegun};
ghost use Rattle.sched.specs.Lawful.{stop_outcome};
ghost use Rattle.sched.specs.Worlds.{GoesOnLawfully, RunValue};
ghost use Rattle.sched.specs.declared.event.Event.TheVariants.{Take as TakeEvent};
ghost use Rattle.sched.specs.declared.event.Outcome.TheVariants.{Refused as RefusedOutcome};

use crate::event::Outcome;
use crate::reply::{ReplyBytes, reply_room};
use crate::run::Opening;
use crate::world::World;
use bank::Admitted;
use node_parts::{Stop, admit, slot};
use rmap::ReplyBuf;
use spw::Packet;
use std::alloc::{AllocError, Global};
use std::sync::Arc;

/// What a packet comes to if its header stops it, with the reply that is due then.
fn stopped(alloc: Global, stop: Stop, reply: &ReplyBuf) -> Result<Outcome, AllocError>
    ensures { IfOk result (λ outcome. outcome ≡ stop_outcome stop reply.now) }
{
    match stop {
        Stop::Discarded(discard) => Ok(Outcome::Discarded(discard)),
        Stop::Answered(status) => {
            let room = reply_room(alloc)?;
            Ok(Outcome::Answered(status, ReplyBytes::of(room, reply)))
        }
    }
}

impl World {
    /// What a port begins to judge: an admitted command, by the program that its slot shows now.
    fn opening(&self, admitted: Admitted) -> Result<Opening, AllocError>
        requires placed { IsPlacedBy self.now.windows admitted.packet admitted.place }
        ensures command { IfOk result (λ o. discard_of o.packet.bytes ≡ None) }
        ensures begun { IfOk result (λ o. (port : ℕ) (run : RunValue)
            → HasBegun port o.packet o.place (arc_value o.program) o.generation run
            → IsBegun self.now port admitted.packet run) }
    {
        let place = admitted.place();
        let slot = slot(admitted.command().kind(), place);
        let packet = admitted.into_packet();
        let shown = &self.programs[usize::from(slot)];
        let program = Arc::try_clone(&shown.program)?;
        let generation = shown.generation;
        Ok(Opening {
            packet,
            place,
            program,
            generation,
        })
    }

    /// A port of the world takes a packet.
    pub(crate) fn take(
        &mut self,
        alloc: Global,
        port: u8,
        packet: Packet,
    ) -> Result<Outcome, AllocError>
        requires { port < length self.old.ports }
        ensures goes_on { IfOk result
            (λ outcome. GoesOnLawfully (TakeEvent port packet) outcome self.old self.new) }
        ensures same { OnErr result (self.new ≡ self.old) }
        ensures refused { IfOk result
            (λ outcome. outcome ≡ RefusedOutcome → self.new ≡ self.old) }
    {
        let at = usize::from(port);
        if !self.ports[at].is_free() {
            return Ok(Outcome::Refused);
        }
        match admit(packet, &self.windows, &mut self.reply) {
            Err((stop, _packet)) => Ok(stopped(alloc, stop, &self.reply)?),
            Ok(admitted) => {
                let opening = self.opening(admitted)?;
                let generation = opening.generation;
                self.ports[at].begin(opening, port);
                Ok(Outcome::Taken(generation))
            }
        }
    }
}
