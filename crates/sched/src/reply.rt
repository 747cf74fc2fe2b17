//! The bytes of replies.

ghost use Rattle.std.specs.Prelude.{◌≡◌, ◌≤◌, [], IfOk, vec_capacity};

use rmap::{MAX_REPLY, ReplyBuf};
use std::alloc::{AllocError, Global};
use std::marker::Model;

/// The bytes of a reply. There are none if no reply is due.
#[derive(Debug, Drop)]
pub struct ReplyBytes {
    bytes: Vec<u8>,
}

impl Model for ReplyBytes {
    ghost use Rattle.std.specs.Prelude.{List, ℕ};

    ghost Value = { List ℕ };

    ghost view = { λ r. r.bytes.items };
}

impl ReplyBytes {
    /// The reply that the buffer holds, in room that the caller took before.
    pub(crate) fn of(mut room: Vec<u8>, reply: &ReplyBuf) -> ReplyBytes
        requires empty { room.items ≡ [] }
        requires enough { MAX_REPLY ≤ vec_capacity room }
        ensures { result ≡ reply.now }
    {
        if room.extend_from_slice(reply.bytes()).is_err() {
            unreachable!();
        }
        ReplyBytes { bytes: room }
    }

    /// The bytes.
    pub fn bytes(&self) -> &[u8]
        ensures { result.now ≡ self.now }
    {
        &self.bytes
    }
}

/// Room for any reply.
pub(crate) fn reply_room(alloc: Global) -> Result<Vec<u8>, AllocError>
    ensures empty { IfOk result (λ room. room.items ≡ []) }
    ensures enough { IfOk result (λ room. MAX_REPLY ≤ vec_capacity room) }
{
    Vec::with_capacity(alloc, MAX_REPLY)
}
