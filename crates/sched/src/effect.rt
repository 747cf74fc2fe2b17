//! The event Effect: a judged command takes its effect, at its bank or at its port's staging.

ghost use Rattle.std.specs.Prelude.{◌≡◌, ◌<◌, length, IfOk, OnErr};
ghost use Rattle.sched.specs.Worlds.{GoesOnLawfully};
ghost use Rattle.sched.specs.declared.event.Event.TheVariants.{Effect as EffectEvent};
ghost use Rattle.sched.specs.declared.event.Outcome.TheVariants.{Refused as RefusedOutcome};

use crate::event::Outcome;
use crate::reply::{ReplyBytes, reply_room};
use crate::world::World;
use node_parts::{paired_commands_fit, pairs_stay};
use std::alloc::{AllocError, Global};

impl World {
    /// The judged command of a port of the world takes its effect, if it is no control write.
    pub(crate) fn effect(&mut self, alloc: Global, port: u8) -> Result<Outcome, AllocError>
        requires { port < length self.old.ports }
        ensures goes_on { IfOk result
            (λ outcome. GoesOnLawfully (EffectEvent port) outcome self.old self.new) }
        ensures same { OnErr result (self.new ≡ self.old) }
        ensures refused { IfOk result
            (λ outcome. outcome ≡ RefusedOutcome → self.new ≡ self.old) }
    {
        paired_commands_fit();
        pairs_stay();
        let at = usize::from(port);
        let Some(verdict) = self.ports[at].effect_due() else {
            return Ok(Outcome::Refused);
        };
        let room = reply_room(alloc)?;
        let status = self.ports[at].finish(
            &self.windows,
            &mut self.banks,
            port,
            verdict,
            &mut self.reply,
        );
        Ok(Outcome::Done(status, ReplyBytes::of(room, &self.reply), None))
    }
}
