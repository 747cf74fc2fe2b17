//! What the words of a command line ask for: a job, a talk, or a text, as that of `help`.

ghost use Rattle.std.specs.Prelude.{◌≡◌, ◌&&◌, IfErr, IfOk, is_some};
ghost use Rattle.clap.specs.Walk.{texts};
ghost use Rattle.commands.specs.CommandLine.{AreWordsTaken, AsksFor, AsksNone, ask_help, waits};
ghost use Rattle.commands.specs.Given.{words_given};

use crate::usage::{command_line, words};
use crate::work::Work;
use clap::error::ErrorKind;
use job_parts::usage::UsageFault;
use std::alloc::{AllocError, Global};

/// What the program does if its command line has no word: it judges standard input.
const WITHOUT_WORDS: [&str; 2] = ["judge", "-"];

/// What the program prints before it judges standard input, if that is a terminal.
const JUDGE_WAITS: &str = "judge -: reads packet lines; rmapctl --help has the words";

/// What the program prints before it holds a talk in lines, if standard input is a terminal.
const LIVE_WAITS: &str =
    "live: reads packet lines, journal, cells and set 00 ADDRESS HEX; rmapctl help live has more";

/// Whether `clap` refuses words because they ask for its help or the version.
fn asks_clap(alloc: Global, words: &[&str]) -> Result<bool, AllocError> {
    match command_line(alloc)?.try_get_matches_from(words) {
        Ok(_) => Ok(false),
        Err(refusal) => Ok(matches!(
            refusal.kind(),
            ErrorKind::DisplayHelp | ErrorKind::DisplayVersion
        )),
    }
}

/// The text for the user of words that `clap` refuses, if they ask for it; else it is that of a fault.
fn text_asked(alloc: Global, given: &[&str], text: String) -> Result<Work, UsageFault>
    requires { ¬ AreWordsTaken (texts given.now) }
    ensures ok { IfOk result (AsksFor (texts given.now)) }
    ensures err { IfErr result (AsksNone (texts given.now)) }
{
    if asks_clap(alloc, given)? {
        Ok(Work::Printed(text))
    } else {
        Err(UsageFault::Parse(text))
    }
}

/// The text of `--help` for these words: of all commands, or of the one that they name. If `clap` refuses the words for
/// another reason, the error is `Parse`.
fn help(alloc: Global, words: &[&str]) -> Result<String, UsageFault> {
    let mut asking = Vec::from_slice(alloc, words)?;
    asking.push("--help")?;
    match command_line(alloc)?.try_get_matches_from(asking.as_slice()) {
        Ok(_) => Err(UsageFault::BadOption),
        Err(refusal) => {
            let Ok(text) = refusal.to_string(alloc) else {
                return Err(UsageFault::Memory);
            };
            if refusal.kind() == ErrorKind::DisplayHelp {
                Ok(text)
            } else {
                Err(UsageFault::Parse(text))
            }
        }
    }
}

/// The words after `help`, if words begin with it.
fn topic_of<'a>(given: &'a [&'a str]) -> Option<&'a [&'a str]>
    ensures { is_some result ≡ ask_help (texts given.now) }
{
    match given {
        [first, topic @ ..] if *first == "help" => Some(topic),
        _ => None,
    }
}

/// What the words of a command line ask for, without the program's own name: `help` and `help WORD` for the text of
/// `--help`.
///
/// # Errors
///
/// Why words ask for nothing.
///
/// - `Parse`, with the text of `clap` for the user.
/// - `BadOption`: an option or a code is none, or two files that are read are standard input.
/// - `Memory`: memory is refused.
#[tactic(auto, using(crate::proofs::Asking::helps_none, crate::proofs::Asking::asks_none, crate::proofs::Asking::asks_for))]
pub fn asked_of(alloc: Global, given: &[&str]) -> Result<Work, UsageFault>
    ensures ok { IfOk result (AsksFor (texts given.now)) }
    ensures err { IfErr result (AsksNone (texts given.now)) }
{
    if let Some(topic) = topic_of(given) {
        return Ok(Work::Printed(help(alloc, topic)?));
    }
    match words(alloc, given) {
        Ok(work) => Ok(work),
        Err(UsageFault::Parse(text)) => text_asked(alloc, given, text),
        Err(fault) => Err(fault),
    }
}

/// What decides whether the program says that it waits for standard input.
#[derive(Clone, Copy, Debug, PartialEq, Eq)]
pub struct Waits {
    /// Whether standard input is a terminal.
    pub is_terminal: bool,
    /// Whether no word was given.
    pub without_words: bool,
}

/// What the program prints before it waits for standard input, if that is a terminal: for a talk in lines, and if no
/// word was given.
pub fn wait_report(asked: &Work, given: Waits) -> Option<&'static str>
    ensures { is_some result ≡ (given.is_terminal && waits asked.now given.without_words) }
{
    if !given.is_terminal {
        return None;
    }
    match asked {
        Work::Live(words) if !words.frames => Some(LIVE_WAITS),
        Work::Printed(_) => None,
        _ if given.without_words => Some(JUDGE_WAITS),
        _ => None,
    }
}

/// The words of a command line, or those that judge standard input if it has none.
pub fn words_or_judge<'a>(given: &'a [&'a str]) -> &'a [&'a str]
    ensures { texts result.now ≡ words_given (texts given.now) }
{
    if given.is_empty() {
        &WITHOUT_WORDS
    } else {
        given
    }
}
