//! The arguments of the jobs that verify an image.

ghost use Rattle.std.specs.Prelude.{◌≡◌, IfErr, IfOk, false, None, Some, string_bytes};
ghost use Rattle.job_parts.specs.Matched.{app_of, fields_of, found_of, rows_of};
ghost use Rattle.job_texts.specs.Images.{NamesImage, RefusesImage, maps_app};
ghost use Rattle.job_parts.specs.Inputs.{AreInputs, input};
ghost use Rattle.job_parts.specs.declared.inputs.Content.TheVariants.{Image, ImageOrText};

use bver::MapSizes;
use clap::{ArgMatches, Command};
use job_parts::arguments::{image_command, name_of};
use job_parts::inputs::{Content, Inputs};
use job_parts::options::{maps_option, sizes_of};
use job_parts::usage::UsageFault;
use std::alloc::{AllocError, Global};

/// The arguments of a job that verifies an image: `FILE [--maps LIST]`.
#[derive(Debug, Drop)]
pub struct ImageArgs {
    /// The name of the file of the image.
    pub image: String,
    /// How many cells each map has of the node that the program may judge on, and of which kind it is.
    pub sizes: MapSizes,
}

impl ImageArgs {
    /// What `verify` reads: the image.
    pub fn inputs(&self) -> Inputs<'_>
        ensures { AreInputs (Some (input (string_bytes self.now.image) Image)) None None result }
    {
        Inputs::one(self.image.as_str(), Content::Image)
    }

    /// What `why` reads: the image, or what is in its place.
    pub fn why_inputs(&self) -> Inputs<'_>
        ensures { AreInputs (Some (input (string_bytes self.now.image) ImageOrText)) None None result }
    {
        Inputs::one(self.image.as_str(), Content::ImageOrText)
    }
}

/// A subcommand that verifies an image: `NAME FILE [--maps LIST]`.
///
/// # Errors
///
/// An error if memory is refused.
pub fn verifying_command<'a>(
    alloc: Global,
    name: &'a str,
    about: &'a str,
) -> Result<Command<'a>, AllocError>
    ensures shape { IfOk result (λ c. app_of c ≡ maps_app name.now) }
    ensures local { IfOk result (λ c. (fields_of c).has_globals ≡ false) }
{
    image_command(alloc, name, about)?.arg(maps_option(alloc))
}

/// The arguments of such a subcommand with these matches.
///
/// # Errors
///
/// Those of [`name_of`] for the file, and those of [`sizes_of`].
pub fn image_args(alloc: Global, found: &ArgMatches) -> Result<ImageArgs, UsageFault>
    ensures ok { IfOk result (NamesImage (rows_of (found_of found.now))) }
    ensures err { IfErr result (RefusesImage (rows_of (found_of found.now))) }
{
    let image = name_of(alloc, found, "image")?;
    let sizes = sizes_of(alloc, found)?;
    Ok(ImageArgs { image, sizes })
}
