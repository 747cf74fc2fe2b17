//! The job `weigh`.

ghost use Rattle.std.specs.Prelude.{◌≡◌, IfErr, IfOk, OnOk, false, string_bytes, None, Some};
ghost use Rattle.job_parts.specs.Matched.{app_of, fields_of, found_of, rows_of};
ghost use Rattle.job_parts.specs.Printed.{Prints};
ghost use Rattle.job_parts.specs.Reading.{HasNoProgram};
ghost use Rattle.job_parts.specs.Statuses.{IsDoneWith};
ghost use Rattle.job_parts.specs.Stops.{StopsBy};
ghost use Rattle.job_weigh.specs.WeighJob.{NamesWeigh, RefusesWeigh, weigh_app};
ghost use Rattle.job_weigh.specs.Weighed.{Weighs, class_lines, weight_lines_of, longest, time_lines};
ghost use Rattle.job_parts.specs.Inputs.{AreInputs, input};
ghost use Rattle.job_parts.specs.declared.inputs.Content.TheVariants.{Image};

use crate::times::{Times, times_of};
use bver::{Accepted, MapSizes, justified_programs};
use clap::{ArgMatches, Command};
use job_parts::arguments::{image_command, name_of, option};
use job_parts::inputs::{Content, Inputs};
use job_parts::options::{maps_option, sizes_of};
use job_parts::programs::program_in;
use job_parts::status::ExitStatus;
use job_parts::stops::JobStop;
use job_parts::storage::Files;
use job_parts::usage::UsageFault;
use std::alloc::{AllocError, Global};
use std::io::{self, Write};
use weights::{weigh, weights_of};

/// The words of the job `weigh`.
#[derive(Debug, Drop)]
pub struct WeighWords {
    /// The name of the file of the image.
    pub image: String,
    /// How many cells each map has of the node that the program may judge on, and of which kind it is.
    pub sizes: MapSizes,
    /// How many nanoseconds an instruction of each class takes, if that is given.
    pub times: Option<Times>,
}

impl WeighWords {
    /// What the job reads: the image.
    pub fn inputs(&self) -> Inputs<'_>
        ensures { AreInputs (Some (input (string_bytes self.now.image) Image)) None None result }
    {
        Inputs::one(self.image.as_str(), Content::Image)
    }
}

/// `weigh FILE [--maps LIST] [--ns D,C,J,R]`.
///
/// # Errors
///
/// An error if memory is refused.
pub fn weigh_command<'a>(alloc: Global) -> Result<Command<'a>, AllocError>
    ensures shape { IfOk result (λ c. app_of c ≡ weigh_app) }
    ensures local { IfOk result (λ c. (fields_of c).has_globals ≡ false) }
{
    let about = "Prints how many instructions of each class a run of a BPF image takes at most";
    let maps = maps_option(alloc);
    let help =
        "How many nanoseconds a division, a call, a conditional jump and any other instruction take, as 13.5,14,6,2";
    let times = option(alloc, "ns", "D,C,J,R", help);
    image_command(alloc, "weigh", about)?.arg(maps)?.arg(times)
}

/// The words of `weigh` with these matches.
///
/// # Errors
///
/// Those of [`name_of`] for the file, and those of [`sizes_of`] and [`times_of`].
pub fn weigh_job(alloc: Global, found: &ArgMatches) -> Result<WeighWords, UsageFault>
    ensures ok { IfOk result (NamesWeigh (rows_of (found_of found.now))) }
    ensures err { IfErr result (RefusesWeigh (rows_of (found_of found.now))) }
{
    let image = name_of(alloc, found, "image")?;
    let sizes = sizes_of(alloc, found)?;
    let times = times_of(alloc, found)?;
    Ok(WeighWords {
        image,
        sizes,
        times,
    })
}

/// Prints the lines of these weights.
fn print_lines<W: Write>(
    out: &mut W,
    division: u64,
    call: u64,
    jump: u64,
    rest: u64,
    weight: u64,
) -> io::Result<()>
    ensures { OnOk result (Prints W.contents out.old out.new
        (weight_lines_of division call jump rest weight)) }
{
    writeln!(
        out,
        "division {division}\ncall {call}\njump {jump}\nrest {rest}\nweight {weight}"
    )
}

/// Prints how many instructions of each class a run takes at most, a line each, and how many in all.
fn print_weights<W: Write>(out: &mut W, program: &Accepted) -> io::Result<()>
    ensures { OnOk result (Prints W.contents out.old out.new (class_lines program.now.program)) }
{
    let found = weights_of(program);
    let all = program.image().weight();
    print_lines(out, found.division, found.call, found.jump, found.rest, all)?;
    Ok(())
}

/// How many nanoseconds a run takes at most, if it is given how many an instruction of each class takes.
fn longest(program: &Accepted, times: &Option<Times>) -> Option<u64>
    ensures { result ≡ longest program.now.program times.now }
{
    match times {
        Some(times) => Some(times.nanoseconds(weigh(program, &times.costs))),
        None => None,
    }
}

/// Prints the line of the longest time, if there is one.
fn print_time<W: Write>(out: &mut W, most: Option<u64>) -> io::Result<()>
    ensures { OnOk result (Prints W.contents out.old out.new (time_lines most)) }
{
    match most {
        Some(most) => writeln!(out, "at most {most} ns"),
        None => Ok(()),
    }
}

/// Verifies the image of a file for a node with maps of these sizes, and prints what a run of its program costs at
/// most. It prints how many instructions of each class a run takes, and how many in all, and how long it takes, if the
/// times of instructions are given. It prints nothing of an image that may not judge.
///
/// # Errors
///
/// Faults are found in this order: that of the file (`CannotRead`), that of its image (`BadImage`), and that of the
/// program (`Refused`).
pub fn weigh_file<'a, F: Files, W: Write>(
    alloc: Global,
    words: &'a WeighWords,
    files: &mut F,
    out: &mut W,
) -> Result<ExitStatus, JobStop<'a>>
    ensures done { IfOk result (IsDoneWith (Weighs F.reads words.now files.old files.new
        (W.contents out.old) (W.contents out.new))) }
    ensures stops { IfErr result (StopsBy (HasNoProgram F.reads files.old
        (string_bytes words.now.image) words.now.sizes files.new)) }
    ensures quiet { IfErr result (StopsBy (λ _. W.contents out.new ≡ W.contents out.old)) }
{
    justified_programs();
    let program = program_in(alloc, files, words.image.as_str(), words.sizes)?;
    print_weights(out, &program)?;
    let most = longest(&program, &words.times);
    print_time(out, most)?;
    Ok(ExitStatus::Done)
}
