//! The text of an image with the slots of its instructions.

ghost use Rattle.std.specs.Prelude.{◌≡◌, ◌++◌, IfOk, OnOk, string_bytes};
ghost use Rattle.job_texts.specs.Listed.{listing, numbered_image, numbered_line, numbered_lines};

use basm::{disassemble, print_directives};
use bpf::Image;
use bpf_insn::Insn;
use std::alloc::{AllocError, Global};
use std::fmt::Write;

/// The text of an image. With `slots` each instruction is after its slot: `36: ldmap r1, 0`.
///
/// # Errors
///
/// An error if memory is refused.
pub fn listed(alloc: Global, image: &Image, slots: bool) -> Result<String, AllocError>
    ensures { IfOk result (λ text. string_bytes text ≡ listing slots image.now) }
{
    if slots {
        numbered(alloc, image)
    } else {
        disassemble(alloc, image)
    }
}

/// The text of an image with each instruction after its slot.
#[tactic(auto, unfolding(crate::specs::Listed::numbered_image))]
fn numbered(alloc: Global, image: &Image) -> Result<String, AllocError>
    ensures { IfOk result (λ text. string_bytes text ≡ numbered_image image.now) }
{
    let mut text = String::new(alloc);
    print_directives(&mut text, image)?;
    add_insns(&mut text, image)?;
    Ok(text)
}

/// Adds each instruction after its slot, a line each.
fn add_insns(text: &mut String, image: &Image) -> Result<(), AllocError>
    ensures { OnOk result
        (string_bytes text.new ≡ string_bytes text.old ++ numbered_lines 0 image.now.slots) }
{
    for slot in 0..image.slots() {
        add_insn(text, slot, image.insn(slot))?;
    }
    Ok(())
}

/// Adds the line of the instruction at a slot, or nothing for the second slot of one that has two.
fn add_insn(text: &mut String, slot: u16, insn: Option<Insn>) -> Result<(), AllocError>
    ensures { OnOk result
        (string_bytes text.new ≡ string_bytes text.old ++ numbered_line slot insn) }
{
    match insn {
        Some(insn) => writeln!(text, "{slot}: {insn}"),
        None => Ok(()),
    }
}
