//! What a packet on a link is to an observer.

ghost use Rattle.std.specs.Prelude.{◌≡◌};
ghost use Rattle.rmap.specs.Command.{IsDiscarded};
ghost use Rattle.initiator.specs.Seeing.{IsOther, IsSeen, has_reply_type};

use crate::no_reply::NoReply;
use crate::reply_view::Reply;
use rmap::{BodyFault, Command, Discard, DiscardFault, Instruction, PROTOCOL, content_check};
use spw::{Packet, without_path};

/// What a packet is.
#[derive(Debug, Drop)]
pub enum PacketForm<'a> {
    /// A command.
    Command {
        /// The command.
        command: Command<'a>,
        /// The first check of what follows its header that stops it, however the packet ended.
        fault: Option<BodyFault>,
    },
    /// A reply, however the packet ended.
    Reply {
        /// The path of the reply: the bytes below 32 before it.
        path: &'a [u8],
        /// The reply after the path.
        reply: Reply<'a>,
    },
    /// Bytes that have the protocol and the packet type of a reply after their path, and are none.
    NoReply {
        /// The instruction.
        instruction: Instruction,
        /// Why it is no reply.
        why: NoReply,
    },
    /// No reply, and no command.
    Discarded {
        /// Why a target discards it.
        reason: Discard,
        /// What was found there.
        discard_fault: DiscardFault,
    },
}

/// Whether these bytes have the protocol and the packet type of a reply.
fn has_reply_type(bytes: &[u8]) -> bool
    ensures { result ≡ has_reply_type bytes.now }
{
    match bytes {
        [_, protocol, instruction, ..] => {
            *protocol == PROTOCOL && Instruction(*instruction).is_reply()
        }
        _ => false,
    }
}

/// What bytes are if they are no command.
fn other<'a>(bytes: &'a [u8], reason: Discard) -> PacketForm<'a>
    requires { IsDiscarded bytes.now reason }
    ensures { IsOther bytes.now result }
{
    let rest = without_path(bytes);
    if !has_reply_type(rest) {
        let discard_fault = DiscardFault::of(bytes, reason);
        return PacketForm::Discarded {
            reason,
            discard_fault,
        };
    }
    let path = &bytes[..bytes.len() - rest.len()];
    let instruction = Instruction(rest[2]);
    match Reply::view(rest) {
        Ok(reply) => PacketForm::Reply { path, reply },
        Err(why) => PacketForm::NoReply { instruction, why },
    }
}

impl<'a> PacketForm<'a> {
    /// What a packet is.
    pub fn of(packet: &'a Packet) -> PacketForm<'a>
        ensures { IsSeen packet.now result }
    {
        match Command::view(packet) {
            Ok(command) => {
                let fault = content_check(&command);
                PacketForm::Command { command, fault }
            }
            Err(reason) => other(packet.bytes(), reason),
        }
    }
}
