//! `rmapctl`: an RMAP target whose commands BPF programs judge, over the files and the standard streams of this
//! machine. docs/COMMANDS.md says what it does.
#![tactic(auto)]

ghost use Rattle.std.specs.Prelude.{◌≡◌, IfErr};
ghost use Rattle.clap.specs.Walk.{texts};
ghost use Rattle.commands.specs.Driven.{EndsBy, link_words, talk_words};
ghost use Rattle.commands.specs.Given.{words_given};
ghost use Rattle.commands.specs.Refusals.{AreUnknown};
ghost use Rattle.job_parts.specs.Statuses.{exit_code, usage_status};

use commands::{
    Desk, ExitStatus, MachineDesk, Stream, UsageFault, UsageText, argument_fault, do_words,
    stream_of, usage_end,
};
use std::alloc::Global;
use std::env;
use std::io::IsTerminal;
use std::process::ExitCode;
use std::rt::Env;

/// Prints why a command line asks for nothing, and gives how it ends.
fn refuse<R: Print + Eprint>(rt: &R, fault: &UsageFault, stream: Stream) -> ExitStatus
    ensures { exit_code result ≡ usage_status fault.now }
{
    let refusal = UsageText::of(fault);
    let _ = match stream {
        Stream::Output => rt.print(&refusal),
        Stream::Errors => rt.eprint(&refusal),
    };
    usage_end(fault)
}

/// Does over a desk what the words of the command line ask for, and gives the exit status. If memory is refused before
/// a job begins, the program prints that.
fn do_given<R: Print + Eprint, D: Desk + Drop>(
    rt: &R,
    alloc: Global,
    desk: D,
    words: &[&str],
    is_terminal: bool,
) -> u8
    requires { D.Server.shares }
    ensures { EndsBy D.words D.Errors
        (talk_words D.Talk.received D.Talk.sent D.Talk.unsent D.Talk.missed) D.Server.serves
        (link_words D.Link.received D.Link.sent D.Link.reported D.Link.unread D.Link.unsent D.Link.unreported D.Link.lost)
        (words_given (texts words.now)) desk result }
{
    match do_words(alloc, desk, words, is_terminal) {
        Ok(left) => left.end.code(),
        Err(refused) => {
            let fault = UsageFault::from(refused);
            refuse(rt, &fault, stream_of(&fault, words)).code()
        }
    }
}

/// The words of the command line. If memory is refused, or one is no text, they are not known.
fn words_given<R: Env + AllocGlobal>(rt: &R) -> Result<Vec<String>, UsageFault>
    ensures { IfErr result AreUnknown }
{
    match env::args(rt) {
        Ok(arguments) => Ok(arguments.skip(1).collect(rt.alloc())?),
        Err(refused) => Err(argument_fault(&refused)),
    }
}

/// Does over a desk the words of the command line, which are texts of their own.
fn do_all<R: Print + Eprint, D: Desk + Drop>(
    rt: &R,
    alloc: Global,
    desk: D,
    given: &[String],
    is_terminal: bool,
) -> Result<u8, UsageFault>
    requires { D.Server.shares }
{
    let texts: Vec<&str> = given.iter().map(|word| word.as_str()).collect(alloc)?;
    Ok(do_given(rt, alloc, desk, texts.as_slice(), is_terminal))
}

fn main(rt: HostRuntime) -> ExitCode {
    let alloc = rt.alloc();
    let is_terminal = rt.stdin().is_terminal();
    let errors = rt.stderr();
    let desk = MachineDesk::new(&rt, &errors, alloc);
    let done = match words_given(&rt) {
        Ok(given) => do_all(&rt, alloc, desk, given.as_slice(), is_terminal),
        Err(fault) => Err(fault),
    };
    let code = match done {
        Ok(code) => code,
        // The words are not known, and so it is not known what standard output is for.
        Err(fault) => refuse(&rt, &fault, Stream::Errors).code(),
    };
    ExitCode::from(code)
}
