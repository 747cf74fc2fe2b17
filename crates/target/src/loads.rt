//! Loads: the node verifies a program that was staged, and publishes it.

ghost use Rattle.std.specs.Prelude.{◌≡◌};
ghost use mathlib.Core.List.{IsPrefix};
ghost use Rattle.node_parts.specs.Loaded.{IsLoadEnd};
ghost use Rattle.target.specs.Loads.{HasAskedForLoad};

use crate::pass::Pass;
use annals::loads_are_apart;
use bank::Judged;
use publish::{Family, Publisher, readers_know_a_beginning};
use rmap::{Place, ReplyBuf, Status};
use std::alloc::Global;
use std::sync::Wait;

/// Loads what the port staged, if the verdict on the control write is yes and its body is right, and leaves the reply.
/// The program is verified for the publisher's maps and published for the slot that the control data name, and the
/// port's reader learns of it. The load result has its generation, or why the load was refused. Nothing else changes.
///
/// The port's line asks for what is published, and for nothing else. What the port knew is a beginning of what was
/// published. The call may wait for readers. The condition is a control write.
pub fn load<J: Family, R: Wait + Drop>(
    alloc: Global,
    pass: &mut Pass<J>,
    publisher: &mut Publisher<J, R>,
    judged: Judged,
    reply: &mut ReplyBuf,
) -> Status
    requires { judged.place ≡ Place.Control }
    ensures ended { IsLoadEnd pass.old.pass pass.new.pass publisher.old publisher.new judged result
        reply.new }
    ensures asked { HasAskedForLoad pass.old.pass.port publisher.old publisher.new
        pass.old.asked pass.new.asked }
    ensures begins { IsPrefix pass.old.pass.programs publisher.old }
{
    loads_are_apart();
    let _sizes = pass.loader.reader.sizes();
    readers_know_a_beginning(&pass.loader.reader, publisher);
    let loader = &mut pass.loader;
    node_parts::load(alloc, loader, publisher, &mut pass.staging, judged, reply)
}
