//! A talk: lines that come, and text that is sent.

ghost use Rattle.std.specs.Prelude.{ℕ, List, Option, IfErr, IfOk, OnOk, string_bytes};
ghost use Rattle.job_live.specs.Talking.{line_given};

use job_parts::storage::Cannot;

/// Lines that come one by one, and text that is sent between them. Each implementer says what came and what was sent.
pub trait Talk {
    /// The line that came between two states, without its line feed, or none if no more come.
    ghost received: { Self → Option (List ℕ) → Self → Type 0 };

    /// The bytes that left between two states, of which none is held back.
    ghost sent: { Self → List ℕ → Self → Type 0 };

    /// What was done when the next line could not be read.
    ghost missed: { Self → Self → Type 0 };

    /// What was done of a text that could not be sent.
    ghost unsent: { Self → List ℕ → Self → Type 0 };

    /// Puts the next line in the place of what `line` holds, without its line feed, and answers whether there was one.
    /// It waits for the line. If a line is longer than [`MAX_LINE`](crate::answering::MAX_LINE) bytes, maybe only its
    /// beginning comes, which is longer too.
    ///
    /// # Errors
    ///
    /// `Cannot` if the line cannot be read, or memory is refused.
    fn next(&mut self, line: &mut String) -> Result<bool, Cannot>
        ensures received { IfOk result (λ is_given.
            received self.old (line_given is_given (string_bytes line.new)) self.new) }
        ensures missed { IfErr result (λ _. missed self.old self.new) };

    /// Sends all of the text.
    ///
    /// # Errors
    ///
    /// `Cannot` if the text cannot be sent.
    fn send(&mut self, text: &[u8]) -> Result<(), Cannot>
        ensures sent { OnOk result (sent self.old text.now self.new) }
        ensures unsent { IfErr result (λ _. unsent self.old text.now self.new) };
}
