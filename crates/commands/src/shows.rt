//! The job `show` over lines that come one by one.

ghost use Rattle.std.specs.Prelude.{◌≡◌, ◌⊎◌, IfErr, IfOk, OnOk};
ghost use Rattle.job_parts.specs.Printed.{job_fault_line};
ghost use Rattle.commands.specs.ShownTalk.{BreaksShow, IsShown, IsShownUnsent, IsUnreported, ShowsTalk, ShowsOne};

use job_live::talk::Talk;
use job_parts::bad_lines::BadLine;
use job_parts::faults::Fault;
use job_parts::status::ExitStatus;
use job_parts::stops::{JobStop, WriteFault};
use job_show::shown_lines::shown_line;
use std::alloc::Global;
use std::io::Write;

/// The name of standard input, for the fault that the lines cannot be read.
const STANDARD_INPUT: &str = "-";

/// Takes the next line, the one of that number, and sends what it is in words. Returns whether there was one.
fn show_next<'a, T: Talk>(alloc: Global, talk: &mut T, number: usize) -> Result<bool, JobStop<'a>>
    ensures shown { IfOk result (λ was_given. ShowsOne T.received T.sent was_given talk.old talk.new) }
    ensures stops { IfErr result
        (IsUnreported T.received T.sent T.unsent T.missed number talk.old talk.new) }
{
    let mut line = String::new(alloc);
    let Ok(is_given) = talk.next(&mut line) else {
        return Err(JobStop::Ended(Fault::CannotRead(STANDARD_INPUT)));
    };
    if !is_given {
        return Ok(false);
    }
    match shown_line(alloc, line.as_str()) {
        Ok(text) => match talk.send(text.as_bytes()) {
            Ok(()) => Ok(true),
            Err(_) => Err(JobStop::Unwritten(WriteFault)),
        },
        Err(fault) => Err(JobStop::Ended(Fault::BadLine {
            number,
            fault: BadLine::Line(fault),
        })),
    }
}

/// Sends what each line is in words, before the next is asked for.
fn show_all<'a, T: Talk>(alloc: Global, talk: &mut T) -> Result<(), JobStop<'a>>
    ensures shown { OnOk result (IsShown T.received T.sent talk.old talk.new) }
    ensures stops { IfErr result (BreaksShow T.received T.sent T.unsent T.missed talk.old talk.new) }
{
    for number in 1..usize::MAX {
        let is_given = show_next(alloc, talk, number)?;
        if !is_given {
            return Ok(());
        }
    }
    Ok(())
}

/// Sends the line of the fault that ended it.
fn report<T: Talk>(alloc: Global, fault: &Fault<'_>, talk: &mut T) -> Result<(), WriteFault>
    ensures reported { OnOk result (T.sent talk.old (job_fault_line fault.now) talk.new) }
    ensures lost { IfErr result (λ _.
        T.unsent talk.old (job_fault_line fault.now) talk.new ⊎ (talk.new ≡ talk.old)) }
{
    let mut text = Vec::new(alloc);
    writeln!(text, "{fault}")?;
    talk.send(text.as_slice()).map_err(|_| WriteFault)
}

/// Sends in words what the lines of a talk are, as they come, and gives the exit status. It is `Failed` if a line was
/// bad or could not be read, which ends the talk, else `Done`. What a line is is sent before the next is asked for.
///
/// # Errors
///
/// `WriteFault` if what a line is could not be sent. Nothing is sent after that.
pub fn show_talk<T: Talk>(alloc: Global, talk: &mut T) -> Result<ExitStatus, WriteFault>
    ensures shows { IfOk result (ShowsTalk T.received T.sent T.unsent T.missed talk.old talk.new) }
    ensures unsent { IfErr result (IsShownUnsent T.received T.sent T.unsent T.missed talk.old talk.new) }
{
    match show_all(alloc, talk) {
        Ok(()) => Ok(ExitStatus::Done),
        Err(halt) => {
            let fault = halt.fault()?;
            report(alloc, &fault, talk)?;
            Ok(ExitStatus::Failed)
        }
    }
}
