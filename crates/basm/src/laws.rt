//! The result of printing and assembling together.

ghost use Rattle.basm.specs.Outcomes.{Makes};

use crate::assembly::assemble;
use crate::disassembly::disassemble;
use crate::faults::AsmFault;
use bpf::Image;
use std::alloc::Global;

/// The image that is assembled of the printed text of an image: an equal one.
///
/// # Errors
///
/// `Memory` at line 0: memory is refused.
pub fn printed_again(alloc: Global, image: &Image) -> Result<Image, AsmFault>
    ensures { Makes image.now result }
{
    let text = disassemble(alloc, image)?;
    assemble(alloc, &text)
}
