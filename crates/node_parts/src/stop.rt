//! What the header of a packet decides.

ghost use Rattle.std.specs.Prelude.{◌≡◌, [], MatchResult};
ghost use Rattle.bank.specs.Admission.{IsPlacedBy};
ghost use Rattle.node_parts.specs.Steps.{IsAdmission, IsStopped};

use bank::Admitted;
use rmap::{Command, Discard, Place, ReplyBuf, Status, Windows, checked_place, put_reply};
use spw::Packet;

/// Why a packet goes no further than its header.
#[derive(Clone, Copy, Debug, PartialEq, Eq)]
pub enum Stop {
    /// It is no command, and gets no reply.
    Discarded(Discard),
    /// A check of its header holds: its status is the reply's.
    Answered(Status),
}

/// The place of the packet's command, or why the packet stops, with the reply that is due then.
fn checked(packet: &Packet, windows: &Windows, reply: &mut ReplyBuf) -> Result<Place, Stop>
    requires { reply.old ≡ [] }
    ensures { MatchResult result
        (λ place. IsPlacedBy windows.now packet.now place × (reply.new ≡ []))
        (λ stop. IsStopped stop packet.now windows.now reply.new) }
{
    let command = match Command::view(packet) {
        Ok(command) => command,
        Err(discard) => return Err(Stop::Discarded(discard)),
    };
    match checked_place(&command, windows) {
        Ok(place) => Ok(place),
        Err(status) => {
            put_reply(reply, &command, status, &[]);
            Err(Stop::Answered(status))
        }
    }
}

/// Admits the command of a packet if no check of its header holds. It runs no program.
///
/// # Errors
///
/// Why the packet stops, and the packet as it came. If a reply is due then, `reply` holds it.
pub fn admit(
    packet: Packet,
    windows: &Windows,
    reply: &mut ReplyBuf,
) -> Result<Admitted, (Stop, Packet)>
    ensures { MatchResult result
        (λ admitted. IsAdmission admitted packet windows.now × (reply.new ≡ []))
        (λ stopped. (stopped.1 ≡ packet) × IsStopped stopped.0 packet windows.now reply.new) }
{
    reply.clear();
    match checked(&packet, windows, reply) {
        Ok(place) => Ok(Admitted::new(packet, place, windows)),
        Err(stop) => Err((stop, packet)),
    }
}
