//! The job `show`.

ghost use Rattle.std.specs.Prelude.{◌≡◌, IfErr, IfOk, codes, false, None, Some, string_bytes};
ghost use Rattle.job_parts.specs.Matched.{app_of, fields_of, found_of, rows_of};
ghost use Rattle.job_parts.specs.Arguments.{Lacks};
ghost use Rattle.job_parts.specs.Statuses.{IsDoneWith};
ghost use Rattle.job_parts.specs.Stops.{StopsBy};
ghost use Rattle.job_show.specs.ShowJob.{NamesShow, show_app};
ghost use Rattle.job_show.specs.Shown.{IsNotShown, ShowsFile};
ghost use Rattle.job_parts.specs.Inputs.{AreInputs, input};
ghost use Rattle.job_parts.specs.declared.inputs.Content.TheVariants.{Lines};

use crate::shown_lines::shown_line;
use clap::{ArgMatches, Command};
use job_parts::arguments::{file, flag, is_flag_set, name_of};
use job_parts::bad_lines::BadLine;
use job_parts::inputs::{Content, Inputs};
use job_parts::printing::print_text;
use job_parts::programs::text_in;
use job_parts::status::ExitStatus;
use job_parts::stops::{JobStop, LineStop};
use job_parts::storage::Files;
use job_parts::turns::{TakesLines, take_lines};
use job_parts::usage::UsageFault;
use std::alloc::{AllocError, Global};
use std::io::Write;

/// The words of the job `show`.
#[derive(Debug, Drop)]
pub struct ShowWords {
    /// The name of the file of packet lines.
    pub lines: String,
    /// Whether its lines are those of a dump: only the bytes of a packet.
    pub raw: bool,
}

impl ShowWords {
    /// What the job reads: the lines.
    pub fn inputs(&self) -> Inputs<'_>
        ensures { AreInputs (Some (input (string_bytes self.now.lines) Lines)) None None result }
    {
        Inputs::one(self.lines.as_str(), Content::Lines)
    }
}

/// `show LINES [--raw]`.
///
/// # Errors
///
/// An error if memory is refused.
pub fn show_command<'a>(alloc: Global) -> Result<Command<'a>, AllocError>
    ensures shape { IfOk result (λ c. app_of c ≡ show_app) }
    ensures local { IfOk result (λ c. (fields_of c).has_globals ≡ false) }
{
    let about = "Prints in words what packet lines are, commands or replies";
    let help = "The file of packet lines, or - for standard input";
    let lines = file(alloc, "lines", "LINES", help);
    let help = "Each line is only the bytes of a packet, as in a dump: without port and marker";
    let raw = flag(alloc, "raw", help);
    Command::new(alloc, "show")
        .about(about)
        .arg(lines)?
        .arg(raw)
}

/// The words of `show` with these matches.
///
/// # Errors
///
/// Those of [`name_of`] for the file.
pub fn show_job(alloc: Global, found: &ArgMatches) -> Result<ShowWords, UsageFault>
    ensures ok { IfOk result (NamesShow (rows_of (found_of found.now))) }
    ensures err { IfErr result (Lacks (codes "lines") (rows_of (found_of found.now))) }
{
    let lines = name_of(alloc, found, "lines")?;
    let raw = is_flag_set(found, "raw");
    Ok(ShowWords { lines, raw })
}

/// Prints what each line is.
#[derive(Drop)]
struct Showing;

impl TakesLines for Showing {
    ghost use Rattle.job_show.specs.Shown.{IsUnshown, ShowsLine};

    ghost takes = { ShowsLine };

    ghost stops = { IsUnshown };

    fn take<W: Write>(&mut self, alloc: Global, line: &str, out: &mut W) -> Result<(), LineStop> {
        match shown_line(alloc, line) {
            Ok(text) => Ok(print_text(out, text.as_str())?),
            Err(fault) => Err(LineStop::from(BadLine::from(fault))),
        }
    }
}

/// Prints what the packet lines of a file are, commands or replies, and those lines of what `judge` and `live` print
/// that have no packet, or more than one.
///
/// # Errors
///
/// Faults are found in this order: that of the file (`CannotRead`, also if it is not UTF-8), and then those of each
/// line.
pub fn show_file<'a, F: Files, W: Write>(
    alloc: Global,
    lines: &'a str,
    files: &mut F,
    out: &mut W,
) -> Result<ExitStatus, JobStop<'a>>
    ensures done { IfOk result (IsDoneWith (ShowsFile F.reads files.old lines.now files.new
        (W.contents out.old) (W.contents out.new))) }
    ensures stops { IfErr result (StopsBy (IsNotShown F.reads files.old lines.now files.new
        (W.contents out.old) (W.contents out.new))) }
{
    let text = text_in(alloc, files, lines)?;
    take_lines(alloc, &mut Showing, text.as_str(), out)?;
    Ok(ExitStatus::Done)
}
