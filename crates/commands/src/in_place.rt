//! The text of a program, or a table, in the place of an image.

ghost use Rattle.std.specs.Prelude.{◌≡◌, IfOk, IfSome};
ghost use Rattle.std.specs.Str.{IsUtf8};
ghost use Rattle.commands.specs.InPlace.{IsInPlace, IsOfTable, StandsForImage};

use crate::hints::{placed_report, text_report};
use basm::{AsmCode, assemble};
use basm_lex::{read_head, read_mnemonic};
use bpf::Image;
use bver::{Refusal, Refused, verify};
use job_parts::faults::Fault;
use machine::MapSizes;
use policy::{Policy, TextFault, compile_policy};
use spw::lines_of;
use std::alloc::{AllocError, Global};

/// The directive of the budget of a program.
const BUDGET: &str = ".budget";

/// The directives that no table has.
const DIRECTIVES: [&str; 2] = [BUDGET, ".loop"];

/// The image of a table that has a rule, for a node with maps of these sizes; none if the text is no such table.
fn compiled(alloc: Global, text: &str, sizes: &MapSizes) -> Result<Option<Image>, AllocError>
    ensures { IfOk result (λ image. IfSome image (IsOfTable sizes.now text.now)) }
{
    match Policy::read_for(alloc, text, sizes) {
        Ok(table) if !table.rules().is_empty() => match compile_policy(alloc, &table, sizes) {
            Ok(image) => Ok(Some(image)),
            Err(_) => Err(AllocError),
        },
        Ok(_) => Ok(None),
        Err(fault) if is_memory(&fault) => Err(AllocError),
        Err(_) => Ok(None),
    }
}

/// Whether memory was refused to a table.
fn is_memory(fault: &TextFault) -> bool {
    match fault {
        TextFault::Memory => true,
        _ => false,
    }
}

/// The image that a text gives: that of the program that it writes, or of the table, for a node with maps of these
/// sizes. None if it is neither.
///
/// # Errors
///
/// An error if memory is refused.
pub fn image_of(alloc: Global, text: &str, sizes: &MapSizes) -> Result<Option<Image>, AllocError>
    ensures { IfOk result (StandsForImage sizes.now text.now) }
{
    match assemble(alloc, text) {
        Ok(image) => Ok(Some(image)),
        Err(fault) if fault.code == AsmCode::Memory => Err(AllocError),
        Err(_) => compiled(alloc, text, sizes),
    }
}

/// The image that bytes give, if they are such a text.
fn image_in(alloc: Global, bytes: &[u8], sizes: &MapSizes) -> Result<Option<Image>, AllocError>
    ensures { IfOk result (λ image. IsUtf8 bytes.now → StandsForImage sizes.now bytes.now image) }
{
    match str::from_utf8(bytes) {
        Ok(text) => image_of(alloc, text, sizes),
        Err(_) => Ok(None),
    }
}

/// The bytes of the image that a text gives; the text's own if it gives none.
///
/// # Errors
///
/// An error if memory is refused.
pub fn bytes_in_place(
    alloc: Global,
    bytes: Vec<u8>,
    sizes: &MapSizes,
) -> Result<Vec<u8>, AllocError>
    ensures { IfOk result (λ given. IsInPlace sizes.now bytes.items given.items) }
{
    match image_in(alloc, bytes.as_slice(), sizes)? {
        Some(image) => image.write(),
        None => Ok(bytes),
    }
}

/// Whether a line is one of a program, and of no table.
fn is_of_program(line: &str) -> bool {
    let word = read_head(line).word;
    DIRECTIVES.contains(&word) || read_mnemonic(word).is_some()
}

/// Whether a text is meant as a program, and not as a table.
fn is_program(text: &str) -> bool {
    for line in lines_of(text) {
        if is_of_program(line) {
            return true;
        }
    }
    false
}

/// How many slots the instruction of a line takes, of a text that writes a program.
fn slots_of(line: &str) -> u32 {
    let head = read_head(line);
    match (head.label, read_mnemonic(head.word)) {
        (None, Some(found)) => u32::from(found.slots()),
        _ => 0,
    }
}

/// The line at which a slot is of the program that a text writes, and its number, from 1.
fn line_of_slot(text: &str, slot: u16) -> Option<(usize, &str)> {
    let mut number: usize = 0;
    let mut slots: u32 = 0;
    for line in lines_of(text) {
        number = number.saturating_add(1);
        slots = slots.saturating_add(slots_of(line));
        if u32::from(slot) < slots {
            return Some((number, line));
        }
    }
    None
}

/// The line of a text that begins with this directive, and its number, from 1.
fn directive_line<'a>(text: &'a str, directive: &str) -> Option<(usize, &'a str)> {
    let mut number: usize = 0;
    for line in lines_of(text) {
        number = number.saturating_add(1);
        if read_head(line).word == directive {
            return Some((number, line));
        }
    }
    None
}

/// Adds the line of a program's text for which it is refused, with its comment: that of the slot, or of the
/// budget.
fn add_line(text: &mut String, source: &str, refused: Refused) -> Result<(), AllocError> {
    let slot = refused.slot;
    let (found, is_budget) = match refused.code {
        Refusal::Memory => (None, false),
        Refusal::Budget => (directive_line(source, BUDGET), true),
        _ => (line_of_slot(source, slot), false),
    };
    let Some((number, line)) = found else {
        return Ok(());
    };
    let line = line.trim().escape_debug();
    if is_budget {
        return write!(text, "    line {number}: {line}\n");
    }
    write!(text, "    slot {slot} is line {number}: {line}\n")
}

/// Adds why a text is no program, or no table.
fn add_faults(
    text: &mut String,
    alloc: Global,
    source: &str,
    sizes: &MapSizes,
    is_on_node: bool,
) -> Result<(), AllocError> {
    if !is_program(source) {
        return text.push_str(placed_report(alloc, source, sizes, is_on_node)?.as_str());
    }
    let Err(fault) = assemble(alloc, source) else {
        return Ok(());
    };
    let fault = Fault::BadText(fault);
    write!(text, "    {fault}\n")?;
    text.push_str(text_report(alloc, source)?.as_str())
}

/// Adds what is printed of a text in the place of an image, if it was refused. It is the line at which the slot of the
/// refusal is, or why the text is none.
///
/// # Errors
///
/// An error if memory is refused.
pub fn add_source(
    text: &mut String,
    alloc: Global,
    source: &str,
    sizes: &MapSizes,
    is_on_node: bool,
) -> Result<(), AllocError> {
    let Some(image) = image_of(alloc, source, sizes)? else {
        return add_faults(text, alloc, source, sizes, is_on_node);
    };
    match verify(alloc, image, sizes) {
        Ok(_) => Ok(()),
        Err(refused) if assemble(alloc, source).is_ok() => add_line(text, source, refused),
        Err(_) => Ok(()),
    }
}
