//! How large the images of a node are, by which its pool is reckoned.

ghost use Rattle.std.specs.Prelude.{◌≡◌, IfOk};
ghost use Rattle.job_node_file.specs.Images.{AreLargest, HasEntries, IsSizeOf, larger};

use bpf::Image;
use bver::Accepted;
use bver_form::{NOWHERE, kept_slots, number_slots};
use std::alloc::{AllocError, Global};

/// How large an image is.
#[derive(Clone, Copy, Debug, PartialEq, Eq)]
pub struct ImageSize {
    /// Its slots, 1 to 512.
    pub slots: u16,
    /// At how many of them the verifier keeps what is known: slot 0, and those to which the program jumps.
    pub entries: u16,
}

impl ImageSize {
    /// The greater of both in each of the two.
    fn with(self, other: ImageSize) -> ImageSize
        ensures { result ≡ larger self other }
    {
        ImageSize {
            slots: self.slots.max(other.slots),
            entries: self.entries.max(other.entries),
        }
    }
}

/// At how many slots of a program the verifier keeps what is known.
fn entries_of(alloc: Global, image: &Image) -> Result<u16, AllocError>
    ensures { IfOk result (HasEntries image.now) }
{
    let kept = kept_slots(alloc, image)?;
    let mut places = vec![in alloc; NOWHERE; kept.len()]?;
    Ok(number_slots(&kept, &mut places))
}

/// How large an image is.
fn size_of(alloc: Global, image: &Image) -> Result<ImageSize, AllocError>
    ensures { IfOk result (IsSizeOf image.now) }
{
    let entries = entries_of(alloc, image)?;
    let slots = image.slots();
    Ok(ImageSize { slots, entries })
}

/// How large the image of a publish is.
fn size_of_publish(alloc: Global, publish: &(u8, Accepted)) -> Result<ImageSize, AllocError>
    ensures { IfOk result (IsSizeOf publish.now.1.program) }
{
    size_of(alloc, publish.1.image())
}

/// The most slots of the program and of the programs that are published, and the most at which the verifier keeps what is known.
///
/// # Errors
///
/// An error if memory is refused.
pub fn largest(
    alloc: Global,
    program: &Accepted,
    publishes: &[(u8, Accepted)],
) -> Result<ImageSize, AllocError>
    ensures { IfOk result (AreLargest program.now.program publishes.now) }
{
    let mut most = size_of(alloc, program.image())?;
    for publish in publishes {
        let size = size_of_publish(alloc, publish)?;
        most = most.with(size);
    }
    Ok(most)
}
