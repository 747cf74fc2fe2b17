//! The job `explain`.

ghost use Rattle.std.specs.Prelude.{◌≡◌, IfErr, IfOk, false, string_bytes};
ghost use Rattle.job_parts.specs.Matched.{app_of, fields_of, found_of, rows_of};
ghost use Rattle.job_codes.specs.ExplainJob.{Explains, NamesExplain, RefusesExplain, explain_app};
ghost use Rattle.job_parts.specs.Options.{IsOptionFault};
ghost use Rattle.job_parts.specs.Statuses.{IsDoneWith};
ghost use Rattle.job_parts.specs.Stops.{StopsBy};
ghost use Rattle.job_codes.specs.Topics.{IsCode};
ghost use Rattle.job_parts.specs.declared.faults.Fault.TheVariants.{NoMemory};

use crate::topics::{CodeKind, KINDS, Topic, TopicCode, read_code};
use clap::{ArgMatches, Command};
use job_parts::arguments::{optional, text_of};
use job_parts::printing::{print_indented, print_text};
use job_parts::status::ExitStatus;
use job_parts::stops::JobStop;
use job_parts::usage::UsageFault;
use std::alloc::{AllocError, Global};
use std::io::Write;

/// The words of the job `explain`.
#[derive(Debug, Drop)]
pub struct ExplainWords {
    /// The code that is explained; without it all are listed.
    pub code: Option<String>,
}

/// `explain [CODE]`.
///
/// # Errors
///
/// An error if memory is refused.
pub fn explain_command<'a>(alloc: Global) -> Result<Command<'a>, AllocError>
    ensures shape { IfOk result (λ c. app_of c ≡ explain_app) }
    ensures local { IfOk result (λ c. (fields_of c).has_globals ≡ false) }
{
    let about = "Explains a code that is printed, as V5 or asm2, or lists them all";
    let help = "The letters and the number of the code; without it all codes are listed";
    let code = optional(alloc, "code", "CODE", help);
    Command::new(alloc, "explain").about(about).arg(code)
}

/// A text that is a code.
fn checked_code(alloc: Global, text: &str) -> Result<String, UsageFault>
    ensures ok { IfOk result (λ code. (string_bytes code ≡ text.now) × IsCode text.now) }
    ensures err { IfErr result (IsOptionFault (IsCode text.now)) }
{
    match read_code(alloc, text)? {
        Some(_) => Ok(String::from_str(alloc, text)?),
        None => Err(UsageFault::BadOption),
    }
}

/// The words of `explain` with these matches.
///
/// # Errors
///
/// `BadOption` if what is given is no code, or `Memory` if memory is refused.
pub fn explain_job(alloc: Global, found: &ArgMatches) -> Result<ExplainWords, UsageFault>
    ensures ok { IfOk result (NamesExplain (rows_of (found_of found.now))) }
    ensures err { IfErr result (RefusesExplain (rows_of (found_of found.now))) }
{
    match text_of(found, "code") {
        Some(text) => {
            let code = checked_code(alloc, text)?;
            Ok(ExplainWords { code: Some(code) })
        }
        None => Ok(ExplainWords { code: None }),
    }
}

/// Adds the line of a code, and what it is.
fn add_title(
    text: &mut String,
    alloc: Global,
    code: TopicCode,
    topic: Topic,
) -> Result<(), AllocError> {
    let word = code.kind.word();
    let number = code.number;
    let title = topic.title(alloc)?;
    writeln!(text, "{word}{number}  {title}")
}

/// All codes, a line for each.
fn listing(alloc: Global) -> Result<String, AllocError> {
    let mut text = String::new(alloc);
    for place in 0..KINDS {
        let kind = CodeKind::at(place);
        for number in 0..=255u8 {
            if let Some(topic) = kind.topic(number) {
                add_title(&mut text, alloc, TopicCode { kind, number }, topic)?;
            }
        }
    }
    Ok(text)
}

/// What is said of the code that is written so: its line, and when it comes and what to do.
fn explanation(alloc: Global, code: &str) -> Result<(String, &'static str), AllocError> {
    let mut text = String::new(alloc);
    let mut advice = "";
    if let Some(code) = read_code(alloc, code)? {
        if let Some(topic) = code.kind.topic(code.number) {
            add_title(&mut text, alloc, code, topic)?;
            advice = topic.advice();
        }
    }
    Ok((text, advice))
}

/// Prints what is to be said of a code, or a line for each code.
///
/// # Errors
///
/// `NoMemory` if memory is refused, or that the writer failed.
pub fn explain<'a, W: Write>(
    alloc: Global,
    words: &ExplainWords,
    out: &mut W,
) -> Result<ExitStatus, JobStop<'a>>
    ensures done { IfOk result
        (IsDoneWith (Explains (W.contents out.old) (W.contents out.new))) }
    ensures stops { IfErr result (StopsBy (λ fault. fault ≡ NoMemory)) }
    ensures quiet { IfErr result (StopsBy (λ _. W.contents out.new ≡ W.contents out.old)) }
{
    let (text, advice) = match &words.code {
        Some(code) => explanation(alloc, code.as_str())?,
        None => (listing(alloc)?, ""),
    };
    print_text(out, text.as_str())?;
    print_indented(out, advice)?;
    Ok(ExitStatus::Done)
}
