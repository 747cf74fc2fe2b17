//! The file that an image is written to.

ghost use Rattle.std.specs.Prelude.{◌≡◌, IfErr, OnOk, false};
ghost use Rattle.std.specs.Str.{bytes_eq};
ghost use Rattle.job_texts.specs.OneFile.{IsOneFile};

use job_parts::faults::Fault;

/// Checks that the file of this name, which an image is to be written to, is not the one that is read.
///
/// # Errors
///
/// `CannotWrite` if both are one file.
pub fn other_file<'a>(name: &str, image: &'a str) -> Result<(), Fault<'a>>
    ensures other { OnOk result (bytes_eq name.now image.now ≡ false) }
    ensures one { IfErr result (IsOneFile name.now image.now) }
{
    if name == image {
        return Err(Fault::CannotWrite(image));
    }
    Ok(())
}
