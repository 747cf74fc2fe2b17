//! The job `dis`.

ghost use Rattle.std.specs.Prelude.{◌≡◌, IfErr, IfOk, codes, false, string_bytes, None, Some};
ghost use Rattle.job_parts.specs.Matched.{app_of, fields_of, found_of, rows_of};
ghost use Rattle.job_parts.specs.Arguments.{Lacks};
ghost use Rattle.job_texts.specs.DisJob.{NamesDis, dis_app};
ghost use Rattle.job_texts.specs.Disassembled.{Disassembles, IsNotPrinted};
ghost use Rattle.job_parts.specs.Statuses.{IsDoneWith};
ghost use Rattle.job_parts.specs.Stops.{StopsBy};
ghost use Rattle.job_parts.specs.Inputs.{AreInputs, input};
ghost use Rattle.job_parts.specs.declared.inputs.Content.TheVariants.{Image};

use crate::listed::listed;
use crate::needed::needed_line;
use clap::{ArgMatches, Command};
use job_parts::arguments::{flag, image_command, is_flag_set, name_of};
use job_parts::inputs::{Content, Inputs};
use job_parts::printing::print_text;
use job_parts::programs::image_in;
use job_parts::status::ExitStatus;
use job_parts::stops::JobStop;
use job_parts::storage::Files;
use job_parts::usage::UsageFault;
use std::alloc::{AllocError, Global};
use std::io::Write;

/// The words of the job `dis`.
#[derive(Debug, Drop)]
pub struct DisWords {
    /// The name of the file of the image.
    pub image: String,
    /// Whether each instruction is printed after its slot.
    pub slots: bool,
}

impl DisWords {
    /// What the job reads: the image.
    pub fn inputs(&self) -> Inputs<'_>
        ensures { AreInputs (Some (input (string_bytes self.now.image) Image)) None None result }
    {
        Inputs::one(self.image.as_str(), Content::Image)
    }
}

/// `dis FILE [--slots]`.
///
/// # Errors
///
/// An error if memory is refused.
pub fn dis_command<'a>(alloc: Global) -> Result<Command<'a>, AllocError>
    ensures shape { IfOk result (λ c. app_of c ≡ dis_app) }
    ensures local { IfOk result (λ c. (fields_of c).has_globals ≡ false) }
{
    let help = "Prints each instruction after its slot, which asm does not read again";
    let slots = flag(alloc, "slots", help);
    image_command(alloc, "dis", "Prints the text of a BPF image")?.arg(slots)
}

/// The words of `dis` with these matches.
///
/// # Errors
///
/// Those of [`name_of`] for the file.
pub fn dis_job(alloc: Global, found: &ArgMatches) -> Result<DisWords, UsageFault>
    ensures ok { IfOk result (NamesDis (rows_of (found_of found.now))) }
    ensures err { IfErr result (Lacks (codes "image") (rows_of (found_of found.now))) }
{
    let image = name_of(alloc, found, "image")?;
    let slots = is_flag_set(found, "slots");
    Ok(DisWords { image, slots })
}

/// Prints the text of the image of a file, and after it, as a comment, the maps that its program needs.
///
/// # Errors
///
/// Faults are found in this order: that of the file (`CannotRead`), and that of its image (`BadImage`).
pub fn disassemble_file<'a, F: Files, W: Write>(
    alloc: Global,
    words: &'a DisWords,
    files: &mut F,
    out: &mut W,
) -> Result<ExitStatus, JobStop<'a>>
    ensures done { IfOk result (IsDoneWith (Disassembles F.reads files.old words.now files.new
        (W.contents out.old) (W.contents out.new))) }
    ensures stops { IfErr result
        (StopsBy (IsNotPrinted F.reads files.old (string_bytes words.now.image) files.new)) }
    ensures quiet { IfErr result (StopsBy (λ _. W.contents out.new ≡ W.contents out.old)) }
{
    let image = image_in(alloc, files, words.image.as_str())?;
    let text = listed(alloc, &image, words.slots)?;
    let maps = needed_line(alloc, "; ", &image)?;
    print_text(out, text.as_str())?;
    print_text(out, maps.as_str())?;
    Ok(ExitStatus::Done)
}
