//! Laws about commands that an initiator makes and replies that it reads. Each function does nothing: its contract is
//! the law.

ghost use Rattle.initiator.specs.LoadPackets.{LoadPacketsAreTaken};
ghost use Rattle.initiator.specs.Laws.{MadeBodiesAreRight, MadeCommandsAreRead, MadeCommandsAreSoLong, RepliesHavePaths, ReplyIsUnique, WrittenRepliesAreRead};

/// A law and no work: bytes are at most one reply.
pub fn reply_is_unique()
    ensures { ReplyIsUnique }
{}

/// A law and no work: [`Reply::view`](crate::Reply::view) reads what [`put_reply`](rmap::put_reply) writes, after its
/// path, as the reply with that status and those data. The reply has the command's initiator, target and transaction
/// identifier. It is no other reply, by [`reply_is_unique`].
pub fn written_replies_are_read()
    ensures paths { RepliesHavePaths }
    ensures read { WrittenRepliesAreRead }
{}

/// A law and no work: [`write_command`](crate::write_command) makes a command that has the given fields. It is no
/// other command, by [`command_is_unique`](rmap::command_is_unique). If its body is the data and their CRC, no check
/// of the body stops it. It then has [`DATA_OVERHEAD`](crate::DATA_OVERHEAD) bytes beside its reply address and its
/// data.
pub fn made_commands_are_read()
    ensures read { MadeCommandsAreRead }
    ensures bodies { MadeBodiesAreRight }
    ensures count { MadeCommandsAreSoLong }
{}

/// A law and no work: the node of a load accepts each of its packets at the right place.
/// [`write_command`](crate::write_command) makes the packets of the requests. The parts are writes to the staging,
/// the control data are a control write, and the read is that of the load result. Each asks for a reply, and no check
/// of header or body stops it.
pub fn load_packets_are_taken()
    ensures { LoadPacketsAreTaken }
{}
