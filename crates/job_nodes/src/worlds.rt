//! The world of a node of a file, for which programs are published before its first event.

ghost use Rattle.std.specs.Prelude.{◌≡◌, ◌↔◌, IfOk, IsTrue};
ghost use Rattle.sched.specs.History.{Start};
ghost use Rattle.sched.specs.Worlds.{IsWorldOf};
ghost use Rattle.job_nodes.specs.Beginning.{AreEmpty, own_schedule};

use bver::Accepted;
use job_config::own_node::{Contents, OwnNode};
use sched::World;
use std::alloc::{AllocError, Global};

/// The world of that configuration before its first event: this program is in all slots, and then the programs of the
/// configuration are published. The condition is a program that was accepted for its maps.
///
/// # Errors
///
/// `AllocError` if memory was refused, or if a world refuses the configuration.
#[tactic(auto, using(crate::proofs::FirstWorlds::own_start))]
pub fn world_of(alloc: Global, own: &OwnNode, program: Accepted) -> Result<World, AllocError>
    requires { program.sizes ≡ own.now.sizes }
    ensures { IfOk result (IsWorldOf (own_schedule own.now program.program) Start) }
{
    let config = own.config();
    match World::with_programs(alloc, &config, program, own.publishes()) {
        Ok(world) => Ok(world),
        Err(_) => Err(AllocError),
    }
}

/// Whether no bank begins with bytes of a file.
pub fn are_empty(contents: &[Contents]) -> bool
    ensures { IsTrue result ↔ AreEmpty contents.now }
{
    contents.iter().all(|own| own.bytes().is_empty())
}
