//! From an image to its text.

ghost use Rattle.std.specs.Prelude.{◌≡◌, ◌++◌, IfOk, OnOk};
ghost use Rattle.std.specs.List.{flat_map};
ghost use Rattle.std.specs.String.{string_bytes};
ghost use Rattle.bpf.specs.Program.{IsProgram};
ghost use Rattle.basm.specs.Printed.{budget_line, directives, loop_line, printed_image, slot_line, version_line};
ghost use Rattle.basm.specs.Relation.{IsText};

use basm_lex::printed_words;
use bpf::{Image, Loop, Version};
use bpf_insn::Insn;
use std::alloc::{AllocError, Global};
use std::fmt::Write;

/// The text of the image: its version if that is not 1, its budget, its loops, and one instruction a line. `assemble`
/// makes an equal image of it.
///
/// # Errors
///
/// Memory is refused.
pub fn disassemble(alloc: Global, image: &Image) -> Result<String, AllocError>
    ensures printed { IfOk result (λ text. string_bytes text ≡ printed_image image.now) }

    // What is printed is a text of the image.
    ensures text { IfOk result (λ text. IsText (string_bytes text) image.now) }
{
    printed_words();
    print_image(alloc, image)
}

#[tactic(auto, unfolding(crate::specs::Printed::printed_image))]
fn print_image(alloc: Global, image: &Image) -> Result<String, AllocError>
    ensures printed { IfOk result (λ text. string_bytes text ≡ printed_image image.now) }
    ensures program { IsProgram image.now }
{
    let mut text = String::new(alloc);
    print_directives(&mut text, image)?;
    print_slots(&mut text, image)?;
    Ok(text)
}

/// Adds the lines of an image before its instructions: its version if that is not 1, its budget and its loops.
///
/// # Errors
///
/// Memory is refused.
pub fn print_directives(text: &mut String, image: &Image) -> Result<(), AllocError>
    ensures printed { OnOk result
        (string_bytes text.new ≡ string_bytes text.old ++ directives image.now) }
    ensures program { IsProgram image.now }
{
    print_version(text, image.version())?;
    print_budget(text, image.budget())?;
    print_loops(text, image.loops())
}

fn print_version(text: &mut String, version: Version) -> Result<(), AllocError>
    ensures { OnOk result (string_bytes text.new ≡ string_bytes text.old ++ version_line version) }
{
    match version {
        Version::One => Ok(()),
        Version::Two => {
            let number = version.number();
            writeln!(text, ".version {number}")
        }
    }
}

fn print_budget(text: &mut String, budget: u32) -> Result<(), AllocError>
    ensures { OnOk result (string_bytes text.new ≡ string_bytes text.old ++ budget_line budget) }
{
    writeln!(text, ".budget {budget}")
}

fn print_loops(text: &mut String, loops: &[Loop]) -> Result<(), AllocError>
    ensures { OnOk result
        (string_bytes text.new ≡ string_bytes text.old ++ flat_map loop_line loops.now) }
{
    for found in loops {
        print_loop(text, found)?;
    }
    Ok(())
}

fn print_loop(text: &mut String, found: &Loop) -> Result<(), AllocError>
    ensures { OnOk result (string_bytes text.new ≡ string_bytes text.old ++ loop_line found.now) }
{
    let head = found.head;
    let back = found.back;
    let bound = found.bound;
    let register = found.register;
    writeln!(text, ".loop {head}, {back}, {bound}, {register}")
}

fn print_slots(text: &mut String, image: &Image) -> Result<(), AllocError>
    ensures { OnOk result
        (string_bytes text.new ≡ string_bytes text.old ++ flat_map slot_line image.now.slots) }
{
    for slot in 0..image.slots() {
        print_slot(text, image.insn(slot))?;
    }
    Ok(())
}

fn print_slot(text: &mut String, insn: Option<Insn>) -> Result<(), AllocError>
    ensures { OnOk result (string_bytes text.new ≡ string_bytes text.old ++ slot_line insn) }
{
    match insn {
        Some(insn) => writeln!(text, "{insn}"),
        None => Ok(()),
    }
}
