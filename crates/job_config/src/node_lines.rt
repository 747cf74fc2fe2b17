//! The arguments of the jobs that take the lines of a file on a node, which may have a file of its own.

ghost use Rattle.std.specs.Prelude.{◌≡◌, IfErr, IfOk, false, None, Some, string_bytes};
ghost use Rattle.job_parts.specs.Matched.{app_of, fields_of, found_of, rows_of};
ghost use Rattle.job_parts.specs.Inputs.{AreInputs, input};
ghost use Rattle.job_parts.specs.declared.inputs.Content.TheVariants.{Lines};
ghost use Rattle.job_config.specs.Sources.{first_file};
ghost use Rattle.job_config.specs.NodeLines.{NamesNodeLines, RefusesNodeLines, node_lines_app};

use crate::sources::{NodeSource, source_arguments, source_of};
use clap::{ArgMatches, Command};
use job_parts::arguments::{file, name_of};
use job_parts::inputs::{Content, InputFile, Inputs};
use job_parts::usage::UsageFault;
use std::alloc::{AllocError, Global};

/// The arguments of a job that takes the lines of a file on a node: `LINES [--image FILE] [--maps LIST] [--ports N]` or
/// `LINES --node FILE`.
#[derive(Debug, Drop)]
pub struct NodeLines {
    /// The name of the file of lines.
    pub lines: String,
    /// Where the node comes from that takes them.
    pub node: NodeSource,
}

impl NodeLines {
    /// What such a job reads: the lines, and the first file of the node, if it has one.
    pub fn inputs(&self) -> Inputs<'_>
        ensures { AreInputs (Some (input (string_bytes self.now.lines) Lines)) (first_file self.now.node)
            None result }
    {
        let lines = InputFile::new(self.lines.as_str(), Content::Lines);
        Inputs::of(Some(lines), self.node.input())
    }
}

/// A subcommand that takes the lines of a file on a node. `help` says what is in the file.
///
/// # Errors
///
/// An error if memory is refused.
pub fn node_lines_command<'a>(
    alloc: Global,
    name: &'a str,
    about: &'a str,
    help: &'a str,
) -> Result<Command<'a>, AllocError>
    ensures shape { IfOk result (λ c. app_of c ≡ node_lines_app name.now) }
    ensures local { IfOk result (λ c. (fields_of c).has_globals ≡ false) }
{
    let lines = file(alloc, "lines", "LINES", help);
    let command = Command::new(alloc, name).about(about).arg(lines)?;
    source_arguments(alloc, command)
}

/// The arguments of such a subcommand with these matches.
///
/// # Errors
///
/// Those of [`name_of`] for the file of lines, and those of [`source_of`].
pub fn node_lines(alloc: Global, found: &ArgMatches) -> Result<NodeLines, UsageFault>
    ensures ok { IfOk result (NamesNodeLines (rows_of (found_of found.now))) }
    ensures err { IfErr result (RefusesNodeLines (rows_of (found_of found.now))) }
{
    let lines = name_of(alloc, found, "lines")?;
    let node = source_of(alloc, found)?;
    Ok(NodeLines { lines, node })
}
