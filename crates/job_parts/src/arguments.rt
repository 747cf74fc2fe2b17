//! The arguments of a command line.

ghost use Rattle.std.specs.Prelude.{◌≡◌, IfOk, IfErr, false, option_map};
ghost use Rattle.job_parts.specs.Matched.{app_of, fields_of, found_of};
ghost use Rattle.clap.specs.Walk.{first_of, rows_of, rule_of};
ghost use Rattle.job_parts.specs.Arguments.{HasName, Lacks, file_rule, flag_rule, image_app, is_flag_set, option_rule, optional_rule};

use crate::usage::UsageFault;
use clap::{Arg, ArgAction, ArgMatches, Command};
use std::alloc::{AllocError, Global};

/// The name of a file that must be given.
pub fn file<'a>(alloc: Global, id: &'a str, name: &'a str, help: &'a str) -> Arg<'a>
    ensures rule { rule_of result ≡ file_rule id.now }
    ensures local { result.global ≡ false }
{
    Arg::new(alloc, id)
        .value_name(name)
        .help(help)
        .required(true)
}

/// An option with a value, which may be left out: `--NAME VALUE`.
pub fn option<'a>(alloc: Global, name: &'a str, value: &'a str, help: &'a str) -> Arg<'a>
    ensures rule { rule_of result ≡ option_rule name.now }
    ensures local { result.global ≡ false }
{
    Arg::new(alloc, name)
        .long(name)
        .value_name(value)
        .help(help)
}

/// A word that may be left out.
pub fn optional<'a>(alloc: Global, id: &'a str, name: &'a str, help: &'a str) -> Arg<'a>
    ensures rule { rule_of result ≡ optional_rule id.now }
    ensures local { result.global ≡ false }
{
    Arg::new(alloc, id).value_name(name).help(help)
}

/// A flag: `--NAME`.
pub fn flag<'a>(alloc: Global, name: &'a str, help: &'a str) -> Arg<'a>
    ensures rule { rule_of result ≡ flag_rule name.now }
    ensures local { result.global ≡ false }
{
    Arg::new(alloc, name)
        .long(name)
        .action(ArgAction::SetTrue)
        .help(help)
}

/// A subcommand with the file of a BPF image: `NAME FILE`.
///
/// # Errors
///
/// An error if memory is refused.
pub fn image_command<'a>(
    alloc: Global,
    name: &'a str,
    about: &'a str,
) -> Result<Command<'a>, AllocError>
    ensures shape { IfOk result (λ c. app_of c ≡ image_app name.now) }
    ensures local { IfOk result (λ c. (fields_of c).has_globals ≡ false) }
{
    let help = "The file of the BPF image, or - for standard input";
    let image = file(alloc, "image", "FILE", help);
    Command::new(alloc, name).about(about).arg(image)
}

/// The text that the matches have for an argument.
pub fn text_of<'a>(found: &ArgMatches<'a>, id: &str) -> Option<&'a str>
    ensures { option_map (λ s. s.now) result ≡ first_of id.now (rows_of (found_of found.now)) }
{
    found.get_str(id)
}

/// The name of a file that must be given.
///
/// # Errors
///
/// `BadOption` if the matches have no such name, or `Memory` if memory is refused.
pub fn name_of(alloc: Global, found: &ArgMatches, id: &str) -> Result<String, UsageFault>
    ensures ok { IfOk result (HasName id.now (rows_of (found_of found.now))) }
    ensures err { IfErr result (Lacks id.now (rows_of (found_of found.now))) }
{
    match text_of(found, id) {
        Some(name) => Ok(String::from_str(alloc, name)?),
        None => Err(UsageFault::BadOption),
    }
}

/// Whether the flag of this name was given.
pub fn is_flag_set(found: &ArgMatches, name: &str) -> bool
    ensures { result ≡ is_flag_set name.now (rows_of (found_of found.now)) }
{
    match text_of(found, name) {
        Some(text) => text == "true",
        None => false,
    }
}
