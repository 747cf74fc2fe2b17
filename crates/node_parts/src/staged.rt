//! Commands to a port's own staging, and reads of the result of its last load.

ghost use Rattle.node_parts.specs.Stagings.{IsStaged, IsStagingPlace};

use bank::{Judged, answer};
use node_programs::Staging;
use rmap::{LOAD_REGISTER, Place, ReplyBuf, Status};

/// Answers a judged command to the staging or to the load result, and leaves the reply. It does so as a bank with room
/// does, without a journal. The status is that of the reply. The condition is one of these two places.
pub fn answer_staged(staging: &mut Staging, judged: Judged, reply: &mut ReplyBuf) -> Status
    requires { IsStagingPlace judged.place }
    ensures { IsStaged staging.old staging.new judged result reply.new }
{
    match judged.place() {
        Place::Staging => answer(staging.bytes_mut(), 0, judged, reply),
        Place::LoadResult => {
            let mut loaded = staging.load_result();
            answer(&mut loaded, LOAD_REGISTER, judged, reply)
        }
        Place::Bank(_) | Place::Control => unreachable!(),
    }
}
