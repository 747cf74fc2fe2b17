//! A link, and what answers the packets that come over it.

ghost use Rattle.std.specs.Prelude.{◌≡◌, ℕ, Bool, List, ◌≤◌, length, take, IfOk, OnErr, OnOk};
ghost use Rattle.frames.specs.declared.received.Received.{Received};

use frames::Received;

/// It cannot be done.
#[derive(Clone, Copy, Debug, PartialEq, Eq)]
pub struct CannotTransfer;

/// Why a link was cut off.
#[derive(Clone, Copy, Debug, PartialEq, Eq)]
pub enum LinkEnd {
    /// The bytes that come cannot be read.
    Unread,
    /// Bytes that are due cannot be sent.
    Unsent,
    /// Text that is due cannot be reported.
    Unreported,
    /// Memory was refused.
    NoMemory,
}

/// Bytes that come, bytes that are sent, and text that is reported beside them. Each implementer says what came, was
/// sent and was reported, and what is left of each if it fails.
pub trait Link {
    /// The bytes that came between two states. There are none if no more come.
    ghost received: { Self → List ℕ → Self → Type 0 };

    /// The bytes that left between two states, of which none is held back.
    ghost sent: { Self → List ℕ → Self → Type 0 };

    /// The text that was reported between two states.
    ghost reported: { Self → List ℕ → Self → Type 0 };

    /// What is left if bytes could not be read.
    ghost unread: { Self → Self → Type 0 };

    /// What is left if these bytes could not be sent.
    ghost unsent: { Self → List ℕ → Self → Type 0 };

    /// What is left if this text could not be reported.
    ghost unreported: { Self → List ℕ → Self → Type 0 };

    /// Whether a text was lost that was reported. The link went on all the same.
    ghost lost: { Self → Bool };

    /// Puts bytes that came in the place of the first of the room's, and answers how many, or 0 if no more come. It
    /// waits for one.
    ///
    /// # Errors
    ///
    /// `CannotTransfer` if the bytes cannot be read.
    fn receive(&mut self, room: &mut [u8]) -> Result<usize, CannotTransfer>
        ensures few { IfOk result (λ count. count ≤ length room.new) }
        ensures received { IfOk result (λ count. received self.old (take count room.new) self.new) }
        ensures err { OnErr result (unread self.old self.new) };

    /// Sends all of the bytes.
    ///
    /// # Errors
    ///
    /// `CannotTransfer` if they cannot be sent.
    fn send(&mut self, bytes: &[u8]) -> Result<(), CannotTransfer>
        ensures ok { OnOk result (sent self.old bytes.now self.new) }
        ensures err { OnErr result (unsent self.old bytes.now self.new) };

    /// Reports all of the text.
    ///
    /// # Errors
    ///
    /// `CannotTransfer` if it cannot be reported.
    fn report(&mut self, text: &[u8]) -> Result<(), CannotTransfer>
        ensures ok { OnOk result (reported self.old text.now self.new) }
        ensures err { OnErr result (unreported self.old text.now self.new) };

    /// Whether a text was lost that was reported.
    fn has_lost(&self) -> bool
        ensures { result ≡ lost self.now };
}

/// What is due for a frame: the bytes that are sent, and the text that is reported after them. Either may be empty.
#[derive(Drop)]
pub struct PendingOutput {
    /// The frame of the reply.
    pub reply: Vec<u8>,
    /// Lines, each with its line feed.
    pub text: Vec<u8>,
}

/// What answers frames.
pub trait Target {
    /// What was due for what came with a frame, bytes and text, between the state before and the state after.
    ghost served: { Self → Received → List ℕ → List ℕ → Self → Type 0 };

    /// What is left if memory was refused for what came with a frame.
    ghost unserved: { Self → Received → Self → Type 0 };

    /// Serves what came with a frame, and gives what is due.
    ///
    /// # Errors
    ///
    /// `CannotTransfer` if memory was refused.
    fn serve(&mut self, received: Received) -> Result<PendingOutput, CannotTransfer>
        ensures ok { IfOk result (λ due. served self.old received due.reply.items due.text.items self.new) }
        ensures err { OnErr result (unserved self.old received self.new) };
}
