//! The job `verify`.

ghost use Rattle.std.specs.Prelude.{◌≡◌, IfErr, IfOk, OnOk, false};
ghost use Rattle.job_parts.specs.Matched.{app_of, fields_of};
ghost use Rattle.job_parts.specs.Reading.{HasNoProgram};
ghost use Rattle.job_parts.specs.Printed.{Prints};
ghost use Rattle.job_parts.specs.Statuses.{IsDoneWith};
ghost use Rattle.job_parts.specs.Stops.{StopsBy};
ghost use Rattle.job_texts.specs.Verified.{Verifies};
ghost use Rattle.job_texts.specs.VerifyJob.{accepted_line, verify_app};

use crate::images::verifying_command;
use bver::MapSizes;
use clap::Command;
use job_parts::programs::program_in;
use job_parts::status::ExitStatus;
use job_parts::stops::JobStop;
use job_parts::storage::Files;
use std::alloc::{AllocError, Global};
use std::io::{self, Write};

/// `verify FILE [--maps LIST]`.
///
/// # Errors
///
/// An error if memory is refused.
pub fn verify_command<'a>(alloc: Global) -> Result<Command<'a>, AllocError>
    ensures shape { IfOk result (λ c. app_of c ≡ verify_app) }
    ensures local { IfOk result (λ c. (fields_of c).has_globals ≡ false) }
{
    let about = "Prints whether a BPF image may judge, or why it is refused";
    verifying_command(alloc, "verify", about)
}

/// Prints that a program may judge: `accepted weight W budget B`.
///
/// # Errors
///
/// The error of `out`, if it does not take all of the line.
pub fn print_accepted<W: Write>(out: &mut W, weight: u64, budget: u32) -> io::Result<()>
    ensures { OnOk result (Prints W.contents out.old out.new (accepted_line weight budget)) }
{
    writeln!(out, "accepted weight {weight} budget {budget}")
}

/// Verifies the image of a file for a node with maps of these sizes, and prints its weight and its budget if it may
/// judge.
///
/// # Errors
///
/// Faults are found in this order: that of the file (`CannotRead`), that of its image (`BadImage`), and that of the
/// program (`Refused`). Last comes the error of `out`, if it does not take all of the line.
pub fn verify_file<'a, F: Files, W: Write>(
    alloc: Global,
    image: &'a str,
    sizes: MapSizes,
    files: &mut F,
    out: &mut W,
) -> Result<ExitStatus, JobStop<'a>>
    ensures done { IfOk result (IsDoneWith (Verifies F.reads files.old image.now sizes files.new
        (W.contents out.old) (W.contents out.new))) }
    ensures stops { IfErr result
        (StopsBy (HasNoProgram F.reads files.old image.now sizes files.new)) }
    ensures quiet { IfErr result (StopsBy (λ _. W.contents out.new ≡ W.contents out.old)) }
{
    let program = program_in(alloc, files, image, sizes)?;
    print_accepted(out, program.image().weight(), program.budget())?;
    Ok(ExitStatus::Done)
}
