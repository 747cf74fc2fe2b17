//! Runs of schedules.

ghost use Rattle.std.specs.Prelude.{◌≡◌, ◌<◌, IfOk};
ghost use Rattle.sched.specs.History.{History};
ghost use Rattle.sched.specs.Looking.{Node};
ghost use Rattle.sched.specs.Worlds.{IsWorldOf, node_of};
ghost use Rattle.test_laws.specs.Runs.{HasScheduleRun, IsGenerationIn};

use bpf::Image;
use node_parts::NodeConfig;
use quotas::quotas_hold;
use sched::{Event, Outcome, World, WorldFault, published_agrees, run_schedule};
use std::alloc::Global;

/// Runs a schedule from a fresh node. In its history quotas are kept: while fewer than 2^64 tickets of a cell were
/// drawn, rules on the cell with limits of at most N match at most N commands.
///
/// # Errors
///
/// Those of [`run_schedule`].
pub fn ran(
    alloc: Global,
    config: &NodeConfig,
    factory: &Image,
    events: Vec<Event>,
) -> Result<(World, Vec<Outcome>), WorldFault>
    ensures { IfOk result
        (λ ran. HasScheduleRun (node_of config.now factory.now) events.items ran.1.items ran.0) }
{
    quotas_hold();
    let ran = run_schedule(alloc, config, factory, events)?;
    Ok(ran)
}

/// The generation of the program that judges in a slot, by any list of what was published. The condition is a slot
/// below 4.
pub fn generation(world: &World, slot: u8) -> u32
    requires { slot < 4 }
    ensures { (n : Node) (h : History) → IsWorldOf n h world.now → IsGenerationIn n h slot result }
{
    published_agrees();
    world.generation(slot)
}
