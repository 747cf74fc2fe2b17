//! The job `asm`.

ghost use Rattle.std.specs.Prelude.{◌≡◌, IfErr, IfOk, OnOk, false, None, Some, string_bytes};
ghost use Rattle.job_parts.specs.Matched.{app_of, fields_of, found_of, rows_of};
ghost use Rattle.job_texts.specs.AsmJob.{LacksEither, NamesAsm, asm_app, parts_line};
ghost use Rattle.job_texts.specs.Assembled.{Assembles, HoldsText, IsNoText, IsNotAssembled};
ghost use Rattle.job_parts.specs.Printed.{Prints};
ghost use Rattle.job_parts.specs.Statuses.{IsDoneWith};
ghost use Rattle.job_parts.specs.Stops.{StopsBy};
ghost use Rattle.job_parts.specs.Inputs.{AreInputs, input};
ghost use Rattle.job_parts.specs.declared.inputs.Content.TheVariants.{Text};

use crate::outputs::other_file;
use basm::assemble;
use bpf::Image;
use clap::{ArgMatches, Command};
use job_parts::arguments::{file, name_of};
use job_parts::faults::Fault;
use job_parts::inputs::{Content, InputFile, Inputs};
use job_parts::programs::text_in;
use job_parts::status::ExitStatus;
use job_parts::stops::JobStop;
use job_parts::storage::Files;
use job_parts::usage::UsageFault;
use std::alloc::{AllocError, Global};
use std::io::{self, Write};

/// The words of the job `asm`.
#[derive(Debug, Drop)]
pub struct AsmWords {
    /// The name of the file of the text.
    pub text: String,
    /// The name of the file that the image is written to.
    pub image: String,
}

impl AsmWords {
    /// What the job reads and writes: the text, and then the image.
    pub fn inputs(&self) -> Inputs<'_>
        ensures { AreInputs (Some (input (string_bytes self.now.text) Text)) None
            (Some (string_bytes self.now.image)) result }
    {
        let text = InputFile::new(self.text.as_str(), Content::Text);
        Inputs::made(text, self.image.as_str())
    }
}

/// `asm FILE OUT`.
///
/// # Errors
///
/// An error if memory is refused.
pub fn asm_command<'a>(alloc: Global) -> Result<Command<'a>, AllocError>
    ensures shape { IfOk result (λ c. app_of c ≡ asm_app) }
    ensures local { IfOk result (λ c. (fields_of c).has_globals ≡ false) }
{
    let help = "The file of the text, or - for standard input";
    let text = file(alloc, "text", "FILE", help);
    let help = "The file that the BPF image is written to";
    let image = file(alloc, "image", "OUT", help);
    Command::new(alloc, "asm")
        .about("Assembles a text to a BPF image")
        .arg(text)?
        .arg(image)
}

/// The words of `asm` with these matches.
///
/// # Errors
///
/// Those of [`name_of`] for the two files.
pub fn asm_job(alloc: Global, found: &ArgMatches) -> Result<AsmWords, UsageFault>
    ensures ok { IfOk result (NamesAsm (rows_of (found_of found.now))) }
    ensures err { IfErr result (LacksEither (rows_of (found_of found.now))) }
{
    let text = name_of(alloc, found, "text")?;
    let image = name_of(alloc, found, "image")?;
    Ok(AsmWords { text, image })
}

/// The image that the text of a file writes.
fn assembled<'a, F: Files>(alloc: Global, files: &mut F, name: &'a str) -> Result<Image, Fault<'a>>
    ensures image { IfOk result (λ image. HoldsText F.reads files.old name.now image files.new) }
    ensures refused { IfErr result (IsNoText F.reads files.old name.now files.new) }
{
    let text = text_in(alloc, files, name)?;
    Ok(assemble(alloc, text.as_str())?)
}

/// Prints how large an image is: `slots S loops L budget B`.
fn print_parts<W: Write>(out: &mut W, image: &Image) -> io::Result<()>
    ensures { OnOk result (Prints W.contents out.old out.new (parts_line image.now)) }
{
    let slots = image.slots();
    let loops = image.loops().len();
    let budget = image.budget();
    writeln!(out, "slots {slots} loops {loops} budget {budget}")
}

/// Assembles the text of a file, writes the image to another, and prints how large it is.
///
/// # Errors
///
/// Faults are found in this order. The first is `CannotWrite`, if the file of the image is that of the text. Then come
/// those of the file of the text (`CannotRead`, also if it is not UTF-8), of the text (`BadText`), and of the file of
/// the image (`CannotWrite`).
pub fn assemble_file<'a, F: Files, W: Write>(
    alloc: Global,
    text: &'a str,
    image: &'a str,
    files: &mut F,
    out: &mut W,
) -> Result<ExitStatus, JobStop<'a>>
    ensures done { IfOk result (IsDoneWith
        (Assembles F.reads F.writes files.old text.now image.now files.new
        (W.contents out.old) (W.contents out.new))) }
    ensures stops { IfErr result (StopsBy
        (IsNotAssembled F.reads F.writes files.old text.now image.now files.new)) }
    ensures quiet { IfErr result (StopsBy (λ _. W.contents out.new ≡ W.contents out.old)) }
{
    other_file(text, image)?;
    let made = assembled(alloc, files, text)?;
    let written = files.write(image, made.write()?.as_slice());
    written.map_err(|_| Fault::CannotWrite(image))?;
    print_parts(out, &made)?;
    Ok(ExitStatus::Done)
}
