//! Where replies go.

ghost use Rattle.std.specs.Prelude.{◌≡◌, ◌++◌, ◌∷◌, [], ℕ, List, MatchResult, OnErr, OnOk, map};
ghost use Rattle.std.specs.Vec.{vec_items};
ghost use Rattle.ports.specs.Sinks.{IsReplySent, IsReplyUnsent, replies_in};

use std::alloc::{AllocError, Global};
use std::marker::Model;

/// A reply was not taken.
#[derive(Clone, Copy, Debug, PartialEq, Eq)]
pub struct SinkFault;

/// What takes the replies of one port. A sink that grows keeps the allocator that it was made with.
pub trait Sink {
    ghost use Rattle.std.specs.Prelude.{List, ℕ};
    ghost use Rattle.ports.specs.Sinks.{IsReplySent, IsReplyUnsent};

    /// The replies taken, in order, each after the number of its port.
    ghost sent: { Self → List (ℕ × List ℕ) };

    /// How many replies were not taken, at most 2^64 - 1.
    ghost failed: { Self → ℕ };

    /// Takes a reply that came to be due at that port.
    ///
    /// # Errors
    ///
    /// The sink did not take the reply, and counts it among the failures.
    fn send(&mut self, port: u8, reply: &[u8]) -> Result<(), SinkFault>
        ensures sent { MatchResult result
            (λ _. IsReplySent (sent self.old) (sent self.new) (failed self.old) (failed self.new) port reply.now)
            (λ _. IsReplyUnsent (sent self.old) (sent self.new) (failed self.old) (failed self.new)) };

    /// How many replies the sink did not take. The count stays at 2^64 - 1.
    fn failures(&self) -> u64
        ensures failures { result ≡ failed self.now };
}

/// A sink that keeps the replies of one port in memory. It takes none of another port.
#[derive(Debug, Drop)]
pub struct Replies {
    alloc: Global,
    port: u8,
    replies: Vec<Vec<u8>>,
    failed: u64,
}

impl Model for Replies {
    ghost use Rattle.std.specs.Prelude.{map};
    ghost use Rattle.std.specs.Vec.{vec_items};
    ghost use Rattle.ports.specs.Sinks.{SinkValue, sent_at};

    ghost Value = { SinkValue };

    ghost view = { λ r. record {
      sent = sent_at r.port (map vec_items r.replies.items);
      failed = r.failed;
    } };
}

/// Adds the bytes of a reply, as a list of their own, after the others.
fn keep(alloc: Global, replies: &mut Vec<Vec<u8>>, reply: &[u8]) -> Result<(), AllocError>
    ensures kept { OnOk result
        (map vec_items replies.new.items ≡ map vec_items replies.old.items ++ reply.now ∷ []) }
    ensures same { OnErr result (replies.new.items ≡ replies.old.items) }
{
    replies.push(Vec::from_slice(alloc, reply)?)?;
    Ok(())
}

impl Replies {
    /// A sink of that port, which has taken nothing yet.
    pub fn new(alloc: Global, port: u8) -> Replies
        ensures { result ≡ record { sent = []; failed = 0 } }
    {
        Replies {
            alloc,
            port,
            replies: Vec::new(alloc),
            failed: 0,
        }
    }

    /// The replies taken, in order.
    pub fn replies(&self) -> &[Vec<u8>]
        ensures { map vec_items result.now ≡ replies_in self.now.sent }
    {
        self.replies.as_slice()
    }
}

impl Sink for Replies {
    ghost sent = { λ r. r.sent };

    ghost failed = { λ r. r.failed };

    /// Keeps the reply.
    ///
    /// # Errors
    ///
    /// The port is another, or memory was refused. The list is as it was.
    fn send(&mut self, port: u8, reply: &[u8]) -> Result<(), SinkFault> {
        if port != self.port || keep(self.alloc, &mut self.replies, reply).is_err() {
            self.failed = self.failed.saturating_add(1);
            return Err(SinkFault);
        }
        Ok(())
    }

    fn failures(&self) -> u64 {
        self.failed
    }
}
