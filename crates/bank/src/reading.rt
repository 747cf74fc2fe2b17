//! What replies read.

ghost use Rattle.std.specs.Prelude.{◌≡◌, length, true, None};
ghost use Rattle.rmap.specs.Command.{command_of};
ghost use Rattle.rmap.specs.Windows.{lies_inside};
ghost use Rattle.rmap.specs.Checks.{body_line};
ghost use Rattle.bank.specs.Admission.{IsAdmissible};
ghost use Rattle.bank.specs.Effect.{memory_at};
ghost use Rattle.bank.specs.Answer.{executed_reply};

use crate::effect::reply_read;
use rmap::{Command, Kind, MAX_DATA, ReplyBuf, Status, put_reply};

/// Bytes of memory from which replies read: those of a bank, in pages, and those that are lent.
pub(crate) trait Bytes {
    ghost use Rattle.std.specs.Prelude.{◌≡◌, ◌≤◌, List, ℕ, length};
    ghost use Rattle.bank.specs.Effect.{IsDataWithin, memory_at};
    ghost use Rattle.bank.specs.Answer.{read_reply};

    /// The bytes.
    ghost bytes: { Self → List ℕ };

    /// Replies with `count` bytes of the memory that begins at the address `first`. With increment they are those
    /// from the command's address, else the one there `count` times.
    fn reply_read(&self, first: u32, command: &Command, count: usize, reply: &mut ReplyBuf)
        requires few { count ≤ MAX_DATA }
        requires within { IsDataWithin first (length (bytes self.now)) command.now count }
        ensures { reply.new ≡ read_reply (memory_at first (bytes self.now)) command.now count };
}

impl Bytes for &[u8] {
    ghost bytes = { λ s. s.now };

    fn reply_read(&self, first: u32, command: &Command, count: usize, reply: &mut ReplyBuf) {
        reply_read(reply, command, self, first, count);
    }
}

/// Replies with success to a command that is to be executed on the memory that begins at the address `first`. The
/// reply has what the command reads there.
pub(crate) fn reply_executed<B: Bytes>(
    memory: &B,
    first: u32,
    command: &Command,
    reply: &mut ReplyBuf,
)
    requires admitted { IsAdmissible command.now }
    requires body { body_line command.now ≡ None }
    requires inside { lies_inside first (length (B.bytes memory.now)) command.now ≡ true }
    ensures { reply.new ≡ executed_reply (memory_at first (B.bytes memory.now)) command.now }
{
    let length = command.length() as usize;
    match command.kind() {
        Kind::Read => memory.reply_read(first, command, length, reply),
        Kind::Write => put_reply(reply, command, Status::Success, &[]),
        Kind::Rmw => memory.reply_read(first, command, length / 2, reply),
        Kind::Unused => unreachable!(),
    }
}
