//! What is odd in a table without a fault.

use crate::noted::FileNode;
use job_charts::map::notes_text;
use job_charts::missed::{Missed, why_missed};
use machine::MapSizes;
use policy::{Policy, PortRule};
use policy_table::unused_ranges;
use rmap::BOOT_WINDOW;
use spw::lines_of;
use std::alloc::{AllocError, Global};

/// Adds which rules of a table never match, and why.
fn add_notes(text: &mut String, alloc: Global, policy: &Policy) -> Result<(), AllocError> {
    let notes = notes_text(alloc, policy)?;
    for line in lines_of(notes.as_str()) {
        write!(text, "    {line}\n")?;
    }
    Ok(())
}

/// Adds why a rule matches no command of its node.
fn add_reason(text: &mut String, own: &PortRule, reason: Missed) -> Result<(), AllocError> {
    match (reason, own.rule.extended) {
        (Missed::Port(port), _) => write!(text, "it has no port {port}\n"),
        (Missed::Bank(number), _) => write!(text, "it has no bank {number:02X}\n"),
        (Missed::Range, Some(BOOT_WINDOW)) => {
            text.push_str("its boot window has no byte of the range\n")
        }
        (Missed::Range, Some(number)) => {
            write!(text, "its bank {number:02X} has no byte of the range\n")
        }
        (Missed::Range, None) => text.push_str("it has no byte of the range\n"),
    }
}

/// Adds which rules of a table match no command of a node, and why.
fn add_missed(
    text: &mut String,
    alloc: Global,
    policy: &Policy,
    node: &FileNode,
) -> Result<(), AllocError> {
    for own in policy.rules() {
        if let Some(reason) = why_missed(alloc, &node.windows, node.ports, own)? {
            let line = own.line;
            write!(text, "    rule {line} matches no command of this node: ")?;
            add_reason(text, own, reason)?;
        }
    }
    Ok(())
}

/// Adds which ranges of a table have names that no rule has.
fn add_unused(text: &mut String, alloc: Global, table: &str) -> Result<(), AllocError> {
    let unused = unused_ranges(alloc, table)?;
    for line in unused.as_slice() {
        write!(text, "    line {line} names a range that no rule uses\n")?;
    }
    Ok(())
}

/// Adds what is odd in a table for maps of these sizes, if it can be drawn:
///
/// - which rules never match, if that was not printed
/// - which rules match no command of the node, if its file was given
/// - which ranges have no use
///
/// # Errors
///
/// An error if memory is refused.
pub fn add_odd(
    text: &mut String,
    alloc: Global,
    table: &str,
    sizes: &MapSizes,
    node: Option<&FileNode>,
    with_notes: bool,
) -> Result<(), AllocError> {
    let Ok(policy) = Policy::read_drawn(alloc, table, sizes) else {
        return Ok(());
    };
    if with_notes {
        add_notes(text, alloc, &policy)?;
    }
    if let Some(node) = node {
        add_missed(text, alloc, &policy, node)?;
    }
    add_unused(text, alloc, table)
}
