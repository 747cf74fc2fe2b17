//! An image from its parts.

ghost use Rattle.std.specs.Prelude.{◌≡◌, ◌≤◌, ◌++◌, false, length, IfOk, OnOk};
ghost use Rattle.std.specs.List.{flat_map};
ghost use Rattle.bpf_insn.specs.Spelling.{IsInsn};
ghost use Rattle.bpf.specs.Program.{AreSlots};
ghost use Rattle.bpf.specs.declared.header.TheConstants.{MAX_SLOTS};
ghost use Rattle.bpf.specs.Parts.{image_header_of, placed_slots};

use crate::fault::ImageFault;
use crate::header::{ImageHeader, MAX_SLOTS};
use crate::loops::{Loop, are_loops};
use crate::version::Version;
use bpf_insn::Insn;
use std::alloc::{AllocError, Global};

/// The header of the image of these parts.
///
/// # Errors
///
/// The first of `Count`, `Budget` and `Loop`.
#[tactic(auto, unfolding(crate::specs::Parts::parts_fault))]
pub fn image_header_of(
    version: Version,
    insns: &[Insn],
    loops: &[Loop],
    budget: u32,
) -> Result<ImageHeader, ImageFault>
    ensures { result ≡ image_header_of version insns.now loops.now budget }
{
    // Each instruction takes at least one slot. So the sum of at most 512 fits.
    if insns.len() > usize::from(MAX_SLOTS) {
        return Err(ImageFault::Count);
    }
    let header = ImageHeader::new(version, loops.len(), count_slots(insns), 0, budget)?;
    if are_loops(header.slots, loops) {
        Ok(header)
    } else {
        Err(ImageFault::Loop)
    }
}

/// How many slots the instructions take.
fn count_slots(insns: &[Insn]) -> usize
    requires { length insns.now ≤ MAX_SLOTS }
    ensures { result ≡ length (flat_map placed_slots insns.now) }
{
    let mut count = 0;
    for insn in insns {
        count += if insn.is_wide() { 2 } else { 1 };
    }
    count
}

/// Each instruction at its first slot; a second slot has none. The call asks for memory once, for `count` slots.
///
/// # Errors
///
/// Memory is refused.
pub fn place_insns(
    alloc: Global,
    insns: &[Insn],
    count: u16,
) -> Result<Vec<Option<Insn>>, AllocError>
    ensures placed { IfOk result (λ slots. slots.items ≡ flat_map placed_slots insns.now) }
    ensures code { IfOk result (λ slots. AreSlots false slots.items) }
{
    let mut slots = Vec::with_capacity(alloc, usize::from(count))?;
    for insn in insns {
        place_insn(&mut slots, insn)?;
    }
    Ok(slots)
}

fn place_insn(slots: &mut Vec<Option<Insn>>, insn: &Insn) -> Result<(), AllocError>
    ensures placed { OnOk result (slots.new.items ≡ slots.old.items ++ placed_slots insn.now) }
    ensures limits { IsInsn insn.now }
{
    insn.slots();
    slots.push(Some(*insn))?;
    if insn.is_wide() {
        slots.push(None)?;
    }
    Ok(())
}
