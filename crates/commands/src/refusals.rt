//! Where a fault of a command line that asks for nothing is printed, and with which exit status.

ghost use Rattle.std.specs.Prelude.{◌≡◌, IfOk, Some, string_bytes};
ghost use Rattle.std.specs.IoError.{error_kind};
ghost use Rattle.commands.specs.Refusals.{IsArgumentFault, ReportsMore, ask_frames, usage_fault_words, stream_of};
ghost use Rattle.job_parts.specs.Statuses.{exit_code, usage_status};

use crate::slips::option_report;
use job_parts::status::ExitStatus;
use job_parts::usage::UsageFault;
use std::alloc::{AllocError, Global};
use std::fmt;
use std::io::{self, ErrorKind};

/// A stream that the program writes to.
#[derive(Clone, Copy, Debug, PartialEq, Eq)]
pub enum Stream {
    /// Standard output.
    Output,
    /// Standard error.
    Errors,
}

/// What an error of the arguments is: memory was refused, or an argument is no text.
pub fn argument_fault(refused: &io::Error) -> UsageFault
    ensures { IsArgumentFault (error_kind refused.now ≡ ErrorKind.OutOfMemory) result }
{
    match refused.kind() {
        ErrorKind::OutOfMemory => UsageFault::Memory,
        _ => UsageFault::BadOption,
    }
}

/// Whether the words ask for a talk in frames. Then standard output has only frames.
fn ask_frames(words: &[&str]) -> bool
    ensures { result ≡ ask_frames words.now }
{
    match words {
        [first, others @ ..] => *first == "live" && others.contains(&"--frames"),
        [] => false,
    }
}

/// Where a fault of these words is printed. Refused memory is printed on standard output, as by a job, unless the words
/// ask for frames. Each other fault is printed on standard error.
pub fn stream_of(fault: &UsageFault, words: &[&str]) -> Stream
    ensures { result ≡ stream_of words.now fault.now }
{
    match fault {
        UsageFault::Parse(_) | UsageFault::BadOption => Stream::Errors,
        UsageFault::Memory => {
            if ask_frames(words) {
                Stream::Errors
            } else {
                Stream::Output
            }
        }
    }
}

/// How a program ends whose command line has this fault.
pub fn usage_end(fault: &UsageFault) -> ExitStatus
    ensures { exit_code result ≡ usage_status fault.now }
{
    match fault {
        UsageFault::Parse(_) | UsageFault::BadOption => ExitStatus::Misused,
        UsageFault::Memory => ExitStatus::Failed,
    }
}

/// What more is printed of a fault of these words: of a bad option the word that it may not be ([`option_report`]).
///
/// # Errors
///
/// An error if memory is refused.
pub fn fault_report(alloc: Global, fault: &UsageFault, words: &[&str]) -> Result<String, AllocError>
    ensures { IfOk result (λ more. ReportsMore fault.now (string_bytes more)) }
{
    match fault {
        UsageFault::BadOption => option_report(alloc, words),
        UsageFault::Parse(_) | UsageFault::Memory => Ok(String::new(alloc)),
    }
}

/// What is printed of a fault of the command line, with its last line feed.
#[derive(Clone, Copy, Debug)]
pub struct UsageText<'a> {
    fault: &'a UsageFault,
}

impl<'a> UsageText<'a> {
    /// What is printed of this fault.
    pub fn of(fault: &'a UsageFault) -> UsageText<'a>
        ensures { result.fault.now ≡ fault.now }
    {
        UsageText { fault }
    }
}

impl fmt::Display for UsageText<'_> {
    ghost output = { λ refusal. Some (usage_fault_words refusal.fault.now) };

    fn fmt<W: fmt::Write>(&self, f: &mut fmt::Formatter<W>) -> fmt::Result {
        match self.fault {
            UsageFault::Parse(text) => write!(f, "{text}"),
            UsageFault::BadOption => write!(f, "bad option\n"),
            UsageFault::Memory => write!(f, "no memory\n"),
        }
    }
}
