//! The texts, images and programs of files.

ghost use Rattle.std.specs.Prelude.{◌≡◌, IfErr, IfOk, MatchResult, None, Some, string_bytes};
ghost use Rattle.std.specs.Str.{IsUtf8};
ghost use Rattle.bver.specs.Justified.{IsJustified};
ghost use Rattle.machine.specs.Runs.{IsSafe};
ghost use Rattle.job_parts.specs.Files.{HoldsImage, HoldsNoText};
ghost use Rattle.job_parts.specs.Reading.{IsNoImage, HasNoProgram};
ghost use Rattle.job_parts.specs.declared.faults.Fault.TheVariants.{CannotRead};

use crate::faults::Fault;
use crate::storage::Files;
use bpf::Image;
use bver::{Accepted, MapSizes, verify};
use std::alloc::Global;

/// The bytes of the file of this name.
///
/// # Errors
///
/// `CannotRead` if the file cannot be read.
pub fn bytes_in<'a, F: Files>(
    alloc: Global,
    files: &mut F,
    name: &'a str,
) -> Result<Vec<u8>, Fault<'a>>
    ensures gave { MatchResult result
        (λ bytes. F.reads files.old name.now (Some bytes.items) files.new)
        (λ _. F.reads files.old name.now None files.new) }
    ensures refused { IfErr result (λ fault. fault ≡ CannotRead name.entry) }
{
    files.read(alloc, name).map_err(|_| Fault::CannotRead(name))
}

/// The text of the file of this name.
///
/// # Errors
///
/// `CannotRead` if the file cannot be read, or is not UTF-8.
pub fn text_in<'a, F: Files>(
    alloc: Global,
    files: &mut F,
    name: &'a str,
) -> Result<String, Fault<'a>>
    ensures gave { MatchResult result
        (λ text. F.reads files.old name.now (Some (string_bytes text)) files.new)
        (λ _. HoldsNoText F.reads files.old name.now files.new) }
    ensures utf8 { IfOk result (λ text. IsUtf8 (string_bytes text)) }
    ensures refused { IfErr result (λ fault. fault ≡ CannotRead name.entry) }
{
    let bytes = bytes_in(alloc, files, name)?;
    match String::from_utf8(bytes) {
        Ok(text) => Ok(text),
        Err(_) => Err(Fault::CannotRead(name)),
    }
}

/// The image in the file of this name.
///
/// # Errors
///
/// `CannotRead` if the file cannot be read, or `BadImage` if its bytes are no image.
pub fn image_in<'a, F: Files>(
    alloc: Global,
    files: &mut F,
    name: &'a str,
) -> Result<Image, Fault<'a>>
    ensures image { IfOk result (λ image. HoldsImage F.reads files.old name.now image files.new) }
    ensures refused { IfErr result (IsNoImage F.reads files.old name.now files.new) }
{
    let bytes = bytes_in(alloc, files, name)?;
    Ok(Image::read(alloc, bytes.as_slice())?)
}

/// The program of the image file of this name, for a node with maps of these sizes.
///
/// # Errors
///
/// Those of [`image_in`], or `Refused` if the verifier refuses the image.
pub fn program_in<'a, F: Files>(
    alloc: Global,
    files: &mut F,
    name: &'a str,
    sizes: MapSizes,
) -> Result<Accepted, Fault<'a>>
    ensures program { IfOk result (λ program.
        HoldsImage F.reads files.old name.now program.program files.new) }
    ensures sizes { IfOk result (λ program. program.sizes ≡ sizes) }
    ensures justified { IfOk result (λ program. IsJustified program.program sizes) }
    ensures safe { IfOk result (λ program. IsSafe program.program sizes) }
    ensures refused { IfErr result (HasNoProgram F.reads files.old name.now sizes files.new) }
{
    let image = image_in(alloc, files, name)?;
    Ok(verify(alloc, image, &sizes)?)
}
