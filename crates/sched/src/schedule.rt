//! Steps and schedules.

ghost use Rattle.std.specs.Prelude.{◌≡◌, length, IfOk, IfErr, OnErr};
ghost use Rattle.node_parts.specs.Nodes.{limit_fault};
ghost use Rattle.sched.specs.Headline.{AreJudgedOnce};
ghost use Rattle.sched.specs.History.{Start, history_from};
ghost use Rattle.sched.specs.Lawful.{IsLawful};
ghost use Rattle.sched.specs.Worlds.{GoesOnLawfully, IsWorldFault, IsWorldOf, node_of};
ghost use Rattle.sched.specs.declared.event.Outcome.TheVariants.{Refused as RefusedOutcome};

use crate::event::{Event, Outcome};
use crate::faults::WorldFault;
use crate::laws::{event_brings_bytes, every_history_judges_once};
use crate::world::World;
use bpf::Image;
use machine::Helper;
use node_parts::NodeConfig;
use std::alloc::Global;

/// Takes one step: the event comes to its outcome, and the world goes on. If the event is refused, the world is as it
/// was.
///
/// # Errors
///
/// `Memory` if memory was refused. The world is then as it was.
pub fn step(alloc: Global, world: &mut World, event: Event) -> Result<Outcome, WorldFault>
    // After every lawful history of which it was the world, the outcome is lawful, and it is the world of the longer
    // one.
    ensures goes_on { IfOk result (λ outcome. GoesOnLawfully event outcome world.old world.new) }

    ensures fault { IfErr result (λ fault. fault ≡ WorldFault.Memory) }
    ensures same { OnErr result (world.new ≡ world.old) }
    ensures refused { IfOk result (λ outcome. outcome ≡ RefusedOutcome → world.new ≡ world.old) }
{
    if event.port() >= world.ports() {
        return Ok(Outcome::Refused);
    }
    match event {
        Event::Take(port, packet) => Ok(world.take(alloc, port, packet)?),
        Event::Count(port) => Ok(world.answer(port, Helper::Count)),
        Event::Ticket(port) => Ok(world.answer(port, Helper::Ticket)),
        Event::Peak(port) => Ok(world.answer(port, Helper::Peak)),
        Event::Effect(port) => Ok(world.effect(alloc, port)?),
        Event::Publish(port) => Ok(world.publish(alloc, port)?),
    }
}

/// Steps through the events, in order, from the world of a node before any event. It gives the world after the last
/// event, and what each event came to.
///
/// # Errors
///
/// Those of [`World::new`] and of [`step`].
pub fn run_schedule(
    alloc: Global,
    config: &NodeConfig,
    factory: &Image,
    events: Vec<Event>,
) -> Result<(World, Vec<Outcome>), WorldFault>
    // The history is lawful, and the world is its world.
    ensures lawful { IfOk result (λ ran. IsLawful (node_of config.now factory.now)
        (history_from Start events.items ran.1.items)) }
    ensures world { IfOk result (λ ran. IsWorldOf (node_of config.now factory.now)
        (history_from Start events.items ran.1.items) ran.0) }

    // Each command that is done in it was judged once.
    ensures judged { IfOk result (λ ran. AreJudgedOnce (node_of config.now factory.now)
        (history_from Start events.items ran.1.items)) }

    ensures count { IfOk result (λ ran. length ran.1.items ≡ length events.items) }
    ensures fault { IfErr result (IsWorldFault (limit_fault config.now) config.now.sizes factory.now) }
{
    every_history_judges_once();
    let mut world = World::new(alloc, config, factory)?;
    let mut outcomes = Vec::with_capacity(alloc, events.len())?;
    for event in events {
        event_brings_bytes(&event);
        let outcome = step(alloc, &mut world, event)?;
        outcomes.push(outcome)?;
    }
    Ok((world, outcomes))
}
