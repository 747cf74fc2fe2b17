//! What is printed if standard output or standard error does not take all that is printed, and how the program then
//! ends.

ghost use Rattle.std.specs.Prelude.{◌≡◌, ◌≢◌, ◌<◌, IfErr, IsErrAnd, MatchOption, Some, codes};
ghost use Rattle.std.specs.IoError.{error_kind};
ghost use Rattle.commands.specs.Losses.{unreported_text};

use std::fmt;
use std::io::{self, ErrorKind};

/// What is printed if standard output cannot be written.
const LOST: &str = "cannot write standard output";

/// What is printed of output that was not written, if its reader did not just close the pipe.
pub fn loss_report(written: &io::Result<()>) -> Option<&'static str>
    ensures { MatchOption result
        (IsErrAnd written.now (λ refused. error_kind refused ≡ ErrorKind.BrokenPipe))
        (λ text. (text.now ≡ codes "cannot write standard output")
        × IfErr written.now (λ refused. error_kind refused ≢ ErrorKind.BrokenPipe)) }
{
    match written {
        Ok(()) => Some(LOST),
        Err(refused) => match refused.kind() {
            ErrorKind::BrokenPipe => None,
            _ => Some(LOST),
        },
    }
}

/// That standard error did not take this many texts.
#[derive(Clone, Copy, Debug)]
pub struct UnreportedTexts {
    count: u64,
}

impl UnreportedTexts {
    /// What is printed of that many texts, if there are any.
    pub fn of(count: u64) -> Option<UnreportedTexts>
        ensures { MatchOption result (count ≡ 0) (λ unreported.
            (0 < count) × (unreported.count ≡ count)) }
    {
        if count == 0 {
            None
        } else {
            Some(UnreportedTexts { count })
        }
    }
}

impl fmt::Display for UnreportedTexts {
    ghost output = { λ unreported. Some (unreported_text unreported.count) };

    fn fmt<W: fmt::Write>(&self, f: &mut fmt::Formatter<W>) -> fmt::Result {
        let count = self.count;
        write!(f, "texts that standard error did not take: {count}")
    }
}
