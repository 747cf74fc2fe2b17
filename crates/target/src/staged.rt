//! Commands to a port's own staging, and reads of the result of its last load.

ghost use Rattle.std.specs.Prelude.{◌≡◌};
ghost use Rattle.node_parts.specs.Stagings.{IsStagingPlace};
ghost use Rattle.node_parts.specs.Served.{IsStagedAt};

use crate::pass::Pass;
use bank::Judged;
use node_parts::answer_staged;
use publish::Family;
use rmap::{ReplyBuf, Status};

/// Answers a judged command to the port's own staging, or to the result of its last load, and leaves the
/// reply. There is no entry in a journal. The status is that of the reply. The condition is one of these two
/// places.
pub fn stage<J: Family>(pass: &mut Pass<J>, judged: Judged, reply: &mut ReplyBuf) -> Status
    requires { IsStagingPlace judged.place }
    ensures staged { IsStagedAt pass.old.pass pass.new.pass judged result reply.new }
    ensures asked { pass.new.asked ≡ pass.old.asked }
{
    answer_staged(&mut pass.staging, judged, reply)
}
