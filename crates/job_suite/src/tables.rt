//! The table whose image programs of a node are.

ghost use Rattle.std.specs.Prelude.{◌≡◌, IfErr, IfOk, MatchBool, MatchOption, All, Some, option_map, string_bytes};
ghost use Rattle.job_config.specs.Reads.{EndsForFault};
ghost use Rattle.job_parts.specs.declared.node_codes.NodeCode.TheVariants.{Program as NoImage};
ghost use Rattle.policy.specs.Compiled.{IsPortCompiled};
ghost use Rattle.policy_table.specs.Policies.{WritesPolicy};
ghost use Rattle.spw.specs.Line.{lines_of};
ghost use Rattle.job_suite.specs.Tables.{IsSlotImage, IsNoTableOf, IsSuiteTableFault, AreSlotTables, ReadsSuiteTable, LacksSuiteTable};

use crate::judges::Judges;
use bpf::Image;
use job_parts::faults::Fault;
use job_parts::node_codes::NodeCode;
use job_parts::programs::text_in;
use job_parts::storage::Files;
use machine::MapSizes;
use policy::{Policy, TextFault, compile_policy};
use std::alloc::{AllocError, Global};

/// The table that a text writes, and its image on a node with these maps.
fn compiled(alloc: Global, text: &str, sizes: &MapSizes) -> Result<(Policy, Image), TextFault>
    ensures table { IfOk result (λ made. WritesPolicy (lines_of text.now) made.0) }
    ensures image { IfOk result (λ made. IsPortCompiled sizes.now made.0 made.1) }
    ensures fault { IfErr result (IsSuiteTableFault sizes.now (lines_of text.now)) }
{
    let table = Policy::read(alloc, text)?;
    let image = compile_policy(alloc, &table, sizes)?;
    Ok((table, image))
}

/// That the program of a slot is not the image of a table.
fn no_image<'a>(alloc: Global, slot: u8) -> Fault<'a>
    ensures { EndsForFault (Some NoImage) result }
{
    match format!(in alloc; "the table compiles to another image than that of slot {slot}") {
        Ok(place) => Fault::BadNode {
            code: NodeCode::Program,
            place,
        },
        Err(_) => Fault::NoMemory,
    }
}

/// Whether the program of a slot is this image.
fn is_image_of(judges: &Judges, image: &[u8], slot: u8) -> Result<bool, AllocError>
    ensures { IfOk result (λ is. MatchBool is (IsSlotImage judges.now image.now slot)
        (¬ IsSlotImage judges.now image.now slot)) }
{
    let own = judges.judge(slot).image().write()?;
    Ok(own.as_slice() == image)
}

/// The first of these slots whose program is not this image.
fn other_slot(judges: &Judges, image: &[u8], slots: &[u8]) -> Result<Option<u8>, AllocError>
    ensures { IfOk result (λ other. MatchOption other
        (All (IsSlotImage judges.now image.now) slots.now)
        (λ _. ¬ All (IsSlotImage judges.now image.now) slots.now)) }
{
    for slot in slots {
        if !is_image_of(judges, image, *slot)? {
            return Ok(Some(*slot));
        }
    }
    Ok(None)
}

/// The table that a text writes. The program of each of these slots is its image on a node with these maps.
///
/// # Errors
///
/// `BadTable` for a fault of the table, also if memory is refused to it or to its image. `BadNode` of the program if a
/// slot has another one.
pub fn table_of<'a>(
    alloc: Global,
    text: &str,
    slots: &[u8],
    judges: &Judges,
    sizes: &MapSizes,
) -> Result<Policy, Fault<'a>>
    ensures table { IfOk result (AreSlotTables judges.now sizes.now slots.now text.now) }
    ensures none { IfErr result (IsNoTableOf judges.now sizes.now slots.now text.now) }
{
    let (table, image) = match compiled(alloc, text, sizes) {
        Ok(made) => made,
        Err(fault) => return Err(Fault::BadTable(fault.fault())),
    };
    let image = image.write()?;
    match other_slot(judges, image.as_slice(), slots)? {
        Some(slot) => Err(no_image(alloc, slot)),
        None => Ok(table),
    }
}

/// The text of the file of the table that is named, if one is.
///
/// # Errors
///
/// `CannotRead` if the file cannot be read, or is not UTF-8.
pub fn asked_text<'a, F: Files>(
    alloc: Global,
    files: &mut F,
    name: Option<&'a str>,
) -> Result<Option<String>, Fault<'a>>
    ensures text { IfOk result (λ text. ReadsSuiteTable F.reads (option_map (λ n. n.now) name.entry)
        files.old (option_map string_bytes text) files.new) }
    ensures none { IfErr result (λ fault. LacksSuiteTable F.reads
        (option_map (λ n. n.now) name.entry) files.old fault files.new) }
{
    match name {
        Some(name) => Ok(Some(text_in(alloc, files, name)?)),
        None => Ok(None),
    }
}
