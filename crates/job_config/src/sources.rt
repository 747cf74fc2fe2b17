//! Where the node of a job comes from.

ghost use Rattle.std.specs.Prelude.{◌≡◌, IfErr, IfOk, IfSome, codes, false, None, option_map};
ghost use Rattle.job_parts.specs.Matched.{app_of, fields_of, found_of};
ghost use Rattle.clap.specs.Walk.{rows_of, rule_of};
ghost use Rattle.job_parts.specs.Arguments.{option_rule};
ghost use Rattle.job_parts.specs.Inputs.{AreInputs, input_value};
ghost use Rattle.job_config.specs.Sources.{GivesSource, RefusesSource, first_file, is_alone, lacks, with_source_options};

use clap::{Arg, ArgMatches, Command};
use job_parts::arguments::{option, text_of};
use job_parts::inputs::{Content, InputFile, Inputs};
use job_parts::options::{NodeWords, node_arguments, node_words};
use job_parts::usage::UsageFault;
use std::alloc::{AllocError, Global};

/// Where the node of a job comes from.
#[derive(Debug, Drop)]
pub enum NodeSource {
    /// The file of this name: `--node FILE`.
    File(String),
    /// The other words of the command line.
    Words(NodeWords),
}

impl NodeSource {
    /// The file that is read first of the node: its own, or the image that judges, if one is named.
    pub fn input(&self) -> Option<InputFile<'_>>
        ensures { option_map input_value result ≡ first_file self.now }
    {
        match self {
            NodeSource::File(name) => Some(InputFile::new(name.as_str(), Content::Node)),
            NodeSource::Words(words) => words.image_input(),
        }
    }

    /// What the node of a talk reads: that file.
    pub fn inputs(&self) -> Inputs<'_>
        ensures { AreInputs (first_file self.now) None None result }
    {
        Inputs::of(self.input(), None)
    }
}

/// The option `--node`.
pub fn node_option<'a>(alloc: Global) -> Arg<'a>
    ensures rule { rule_of result ≡ option_rule (codes "node") }
    ensures local { result.global ≡ false }
{
    let help = "The file of the node, in place of its other options";
    option(alloc, "node", "FILE", help)
}

/// The subcommand with the options of a node, or with its file: `[--image FILE] [--maps LIST] [--ports N]` or `[--node FILE]`.
///
/// # Errors
///
/// An error if memory is refused.
pub fn source_arguments<'a>(alloc: Global, command: Command<'a>) -> Result<Command<'a>, AllocError>
    requires { (fields_of command).has_globals ≡ false }
    ensures shape { IfOk result (λ c. app_of c ≡ with_source_options (app_of command.entry)) }
    ensures local { IfOk result (λ c. (fields_of c).has_globals ≡ false) }
{
    let node = node_option(alloc);
    node_arguments(alloc, command)?.arg(node)
}

/// Whether an option has no value.
pub fn lacks(found: &ArgMatches, name: &str) -> bool
    ensures { result ≡ lacks name.now (rows_of (found_of found.now)) }
{
    text_of(found, name).is_none()
}

/// Whether no option except `--node` says anything of the node.
fn is_alone(found: &ArgMatches) -> bool
    ensures { result ≡ is_alone (rows_of (found_of found.now)) }
{
    lacks(found, "image") && lacks(found, "maps") && lacks(found, "ports")
}

/// The option that says something of the node beside `--node`, if there are both.
pub fn beside_node(found: &ArgMatches) -> Option<&'static str>
    ensures { IfSome result (λ name. lacks name.now (rows_of (found_of found.now)) ≡ false) }
{
    text_of(found, "node")?;
    if !lacks(found, "image") {
        return Some("image");
    }
    if !lacks(found, "maps") {
        return Some("maps");
    }
    if !lacks(found, "ports") {
        return Some("ports");
    }
    None
}

/// Where the node comes from by these matches.
///
/// # Errors
///
/// Those of [`node_words`], if there is no `--node`. `BadOption` if `--node` is beside another option of the node, and
/// `Memory` if memory is refused.
pub fn source_of(alloc: Global, found: &ArgMatches) -> Result<NodeSource, UsageFault>
    ensures ok { IfOk result (GivesSource (rows_of (found_of found.now))) }
    ensures err { IfErr result (RefusesSource (rows_of (found_of found.now))) }
{
    let Some(name) = text_of(found, "node") else {
        return Ok(NodeSource::Words(node_words(alloc, found)?));
    };
    if is_alone(found) {
        Ok(NodeSource::File(String::from_str(alloc, name)?))
    } else {
        Err(UsageFault::BadOption)
    }
}
