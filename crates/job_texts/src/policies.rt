//! The job `policy`.

ghost use Rattle.std.specs.Prelude.{◌≡◌, IfErr, IfOk, OnOk, false, string_bytes, None, Some};
ghost use Rattle.job_parts.specs.Matched.{app_of, fields_of, found_of, rows_of};
ghost use Rattle.job_texts.specs.Compiled.{CompilesTable, HoldsPolicy, HoldsTable, IsNoPolicy, IsNoTable, IsNotCompiled};
ghost use Rattle.job_texts.specs.PolicyJob.{NamesPolicy, RefusesPolicy, policy_app, slots_line};
ghost use Rattle.job_parts.specs.Printed.{Prints};
ghost use Rattle.job_parts.specs.Statuses.{IsDoneWith};
ghost use Rattle.job_parts.specs.Stops.{StopsBy};
ghost use Rattle.job_parts.specs.Inputs.{AreInputs, input};
ghost use Rattle.job_parts.specs.declared.inputs.Content.TheVariants.{Table};

use crate::outputs::other_file;
use bpf::Image;
use bver::MapSizes;
use clap::{ArgMatches, Command};
use job_parts::arguments::{file, flag, is_flag_set, name_of};
use job_parts::faults::Fault;
use job_parts::inputs::{Content, InputFile, Inputs};
use job_parts::options::{maps_option, sizes_of};
use job_parts::programs::text_in;
use job_parts::status::ExitStatus;
use job_parts::stops::JobStop;
use job_parts::storage::Files;
use job_parts::usage::UsageFault;
use policy::{Policy, compile_policy};
use std::alloc::{AllocError, Global};
use std::io::{self, Write};

/// The words of the job `policy`.
#[derive(Debug, Drop)]
pub struct PolicyWords {
    /// The name of the file of the table.
    pub table: String,
    /// The name of the file that the image is written to.
    pub image: String,
    /// How many cells each map has of the node that the image is to judge on, and of which kind it is.
    pub sizes: MapSizes,
    /// Whether the table is meant to be the last. Then nothing is said if it lets nobody load another.
    pub is_final: bool,
    /// Whether nothing is said of a table that was compiled.
    pub is_quiet: bool,
}

impl PolicyWords {
    /// What the job reads and writes: the table, and then the image.
    pub fn inputs(&self) -> Inputs<'_>
        ensures { AreInputs (Some (input (string_bytes self.now.table) Table)) None
            (Some (string_bytes self.now.image)) result }
    {
        let table = InputFile::new(self.table.as_str(), Content::Table);
        Inputs::made(table, self.image.as_str())
    }
}

/// `policy FILE OUT [--maps LIST] [--final] [--quiet]`.
///
/// # Errors
///
/// An error if memory is refused.
pub fn policy_command<'a>(alloc: Global) -> Result<Command<'a>, AllocError>
    ensures shape { IfOk result (λ c. app_of c ≡ policy_app) }
    ensures local { IfOk result (λ c. (fields_of c).has_globals ≡ false) }
{
    let help = "The file of the policy table, or - for standard input";
    let table = file(alloc, "table", "FILE", help);
    let help = "The file that the BPF image is written to";
    let image = file(alloc, "image", "OUT", help);
    let maps = maps_option(alloc);
    let help = "The table may let nobody load another: nothing is said of it";
    let last = flag(alloc, "final", help);
    let help = "Say nothing of the table on standard error";
    let quiet = flag(alloc, "quiet", help);
    Command::new(alloc, "policy")
        .about("Compiles a policy table to a BPF image")
        .arg(table)?
        .arg(image)?
        .arg(maps)?
        .arg(last)?
        .arg(quiet)
}

/// The words of `policy` with these matches.
///
/// # Errors
///
/// Those of [`name_of`] for the two files, and those of [`sizes_of`].
pub fn policy_job(alloc: Global, found: &ArgMatches) -> Result<PolicyWords, UsageFault>
    ensures ok { IfOk result (NamesPolicy (rows_of (found_of found.now))) }
    ensures err { IfErr result (RefusesPolicy (rows_of (found_of found.now))) }
{
    let table = name_of(alloc, found, "table")?;
    let image = name_of(alloc, found, "image")?;
    let sizes = sizes_of(alloc, found)?;
    let is_final = is_flag_set(found, "final");
    let is_quiet = is_flag_set(found, "quiet");
    Ok(PolicyWords {
        table,
        image,
        sizes,
        is_final,
        is_quiet,
    })
}

/// The table, of either version, in the file of this name.
fn table_in<'a, F: Files>(alloc: Global, files: &mut F, name: &'a str) -> Result<Policy, Fault<'a>>
    ensures table { IfOk result (λ table. HoldsTable F.reads files.old name.now table files.new) }
    ensures refused { IfErr result (IsNoTable F.reads files.old name.now files.new) }
{
    let text = text_in(alloc, files, name)?;
    match Policy::read(alloc, text.as_str()) {
        Ok(table) => Ok(table),
        Err(fault) => Err(Fault::BadTable(fault.fault())),
    }
}

/// The image of the table in the file of this name.
fn compiled<'a, F: Files>(
    alloc: Global,
    files: &mut F,
    name: &'a str,
    sizes: MapSizes,
) -> Result<Image, Fault<'a>>
    ensures image { IfOk result (λ image.
        HoldsPolicy F.reads files.old name.now sizes image files.new) }
    ensures refused { IfErr result (IsNoPolicy F.reads files.old name.now sizes files.new) }
{
    let table = table_in(alloc, files, name)?;
    match compile_policy(alloc, &table, &sizes) {
        Ok(image) => Ok(image),
        Err(fault) => Err(Fault::BadTable(fault.fault())),
    }
}

/// Prints how many slots an image has: `slots S`.
fn print_slots<W: Write>(out: &mut W, image: &Image) -> io::Result<()>
    ensures { OnOk result (Prints W.contents out.old out.new (slots_line image.now)) }
{
    let slots = image.slots();
    writeln!(out, "slots {slots}")
}

/// Compiles the table of a file for a node with maps of these sizes, writes the image to another file, and prints how
/// many slots it has.
///
/// # Errors
///
/// Faults are found in this order. The first is `CannotWrite`, if the file of the image is that of the table. Then come
/// those of the file of the table (`CannotRead`, also if it is not UTF-8), and of the table. That is `BadTable`, also
/// if memory is refused to it or to its image. Last comes that of the file of the image (`CannotWrite`).
pub fn compile_file<'a, F: Files, W: Write>(
    alloc: Global,
    words: &'a PolicyWords,
    files: &mut F,
    out: &mut W,
) -> Result<ExitStatus, JobStop<'a>>
    ensures done { IfOk result (IsDoneWith (CompilesTable F.reads F.writes files.old
        (string_bytes words.now.table) (string_bytes words.now.image) words.now.sizes files.new
        (W.contents out.old) (W.contents out.new))) }
    ensures stops { IfErr result (StopsBy (IsNotCompiled F.reads F.writes files.old
        (string_bytes words.now.table) (string_bytes words.now.image) words.now.sizes files.new)) }
    ensures quiet { IfErr result (StopsBy (λ _. W.contents out.new ≡ W.contents out.old)) }
{
    let image = words.image.as_str();
    other_file(words.table.as_str(), image)?;
    let made = compiled(alloc, files, words.table.as_str(), words.sizes)?;
    let written = files.write(image, made.write()?.as_slice());
    written.map_err(|_| Fault::CannotWrite(image))?;
    print_slots(out, &made)?;
    Ok(ExitStatus::Done)
}
