//! The program of an image that is lent.

ghost use Rattle.std.specs.Prelude.{◌≡◌, IfErr, IfOk};
ghost use Rattle.scrub.specs.Mending.{IsLentFor, IsReadFrom, IsUnlent, IsProgramUnread, read_fault};

use crate::kept::SlotSums;
use crate::op_sums::program_sum;
use bpf::{Image, ImageFault};
use bver::{Accepted, MapSizes, Refusal, verify};
use std::alloc::Global;

/// Why no program was published for a slot that is damaged.
#[derive(Clone, Copy, Debug, PartialEq, Eq)]
pub enum MendFault {
    /// Memory was refused to what reads the image that is lent.
    Memory,
    /// Neither the program's own image nor the one that is lent has one of the sums that are kept.
    Image,
    /// 4,294,967,295 programs were published.
    Full,
}

/// The reason that a fault of the image that is lent gives.
fn read_fault(fault: ImageFault) -> MendFault
    ensures { result ≡ read_fault fault }
{
    match fault {
        ImageFault::Memory => MendFault::Memory,
        ImageFault::Magic
        | ImageFault::Version
        | ImageFault::Length
        | ImageFault::Count
        | ImageFault::Budget
        | ImageFault::Loop
        | ImageFault::Insn { .. } => MendFault::Image,
    }
}

/// The program of an image that is lent, which the verifier accepts for those maps. For no bytes it asks for no memory.
///
/// # Errors
///
/// Why there is no such program.
#[tactic(auto, using(crate::proofs::Mending::empty_image, crate::proofs::Mending::unread, crate::proofs::Mending::refused))]
fn program_of(alloc: Global, image: &[u8], sizes: &MapSizes) -> Result<Accepted, MendFault>
    ensures read { IfOk result (IsReadFrom sizes.now image.now) }
    ensures fault { IfErr result (IsProgramUnread sizes.now image.now) }
{
    if image.is_empty() {
        return Err(MendFault::Image);
    }
    let image = match Image::read(alloc, image) {
        Ok(image) => image,
        Err(fault) => return Err(read_fault(fault)),
    };
    match verify(alloc, image, sizes) {
        Ok(program) => Ok(program),
        Err(refused) if refused.code == Refusal::Memory => Err(MendFault::Memory),
        Err(_refused) => Err(MendFault::Image),
    }
}

/// The same with its sum, if that is one of those that are kept.
pub(crate) fn lent_program(
    alloc: Global,
    image: &[u8],
    sizes: &MapSizes,
    kept: &SlotSums,
) -> Result<(Accepted, u64), MendFault>
    ensures lent { IfOk result (λ made. IsLentFor sizes.now image.now kept.now made.0 made.1) }
    ensures fault { IfErr result (IsUnlent sizes.now image.now kept.now) }
{
    let program = match program_of(alloc, image, sizes) {
        Ok(program) => program,
        Err(fault) => return Err(fault),
    };
    let sum = program_sum(&program);
    if kept.has(sum) {
        return Ok((program, sum));
    }
    Err(MendFault::Image)
}
