//! Links over bytes in memory.

ghost use Rattle.std.specs.Prelude.{false, ⊤};

use linking::{CannotTransfer, Link};
use std::alloc::{AllocError, Global};
use std::io::Read;

/// What is noted of a move that receives bytes.
pub const RECEIVED: &str = "received\n";

/// A link over bytes in memory, of which it hands out at most `most` at a time. It notes its moves: `received`, `sent`
/// and the bytes in digits, or the text that was reported.
#[derive(Drop)]
pub struct Wire<'a> {
    alloc: Global,
    input: &'a [u8],
    most: u64,
    failing: usize,
    moves: Vec<String>,
}

impl<'a> Wire<'a> {
    /// A link that fails at the move of the number `failing`, from 0, and at no other.
    pub fn new(alloc: Global, input: &'a [u8], most: u64, failing: usize) -> Wire<'a> {
        Wire {
            alloc,
            input,
            most,
            failing,
            moves: Vec::new(alloc),
        }
    }

    /// The moves, a text for each.
    pub fn moves(&self) -> &[String] {
        self.moves.as_slice()
    }

    /// What was sent and reported, in turn.
    ///
    /// # Errors
    ///
    /// An error if memory is refused.
    pub fn due(&self) -> Result<String, AllocError> {
        let mut due = String::new(self.alloc);
        for made in &self.moves {
            if made.as_str() != RECEIVED {
                due.push_str(made)?;
            }
        }
        Ok(due)
    }

    /// Notes a move, except the one at which it fails.
    fn note(&mut self, text: &str) -> Result<(), CannotTransfer> {
        if self.moves.len() == self.failing {
            self.failing = usize::MAX;
            return Err(CannotTransfer);
        }
        let text = String::from_str(self.alloc, text).map_err(|_| CannotTransfer)?;
        self.moves.push(text).map_err(|_| CannotTransfer)
    }
}

impl Link for Wire<'_> {
    ghost received = { λ _ _ _. ⊤ };

    ghost sent = { λ _ _ _. ⊤ };

    ghost reported = { λ _ _ _. ⊤ };

    ghost unread = { λ _ _. ⊤ };

    ghost unsent = { λ _ _ _. ⊤ };

    ghost unreported = { λ _ _ _. ⊤ };

    ghost lost = { λ _. false };

    fn receive(&mut self, room: &mut [u8]) -> Result<usize, CannotTransfer> {
        self.note(RECEIVED)?;
        let mut some = self.input.by_ref().take(self.most);
        some.read(room).map_err(|_| CannotTransfer)
    }

    fn send(&mut self, bytes: &[u8]) -> Result<(), CannotTransfer> {
        let digits = hex::encode_upper(self.alloc, bytes).map_err(|_| CannotTransfer)?;
        let text = format!(in self.alloc; "sent {digits}\n").map_err(|_| CannotTransfer)?;
        self.note(&text)
    }

    fn report(&mut self, text: &[u8]) -> Result<(), CannotTransfer> {
        let text = str::from_utf8(text).map_err(|_| CannotTransfer)?;
        self.note(text)
    }

    fn has_lost(&self) -> bool {
        false
    }
}
