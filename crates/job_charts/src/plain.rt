//! Rows as lines.

use crate::packets::add_packet;
use crate::words::{add_ports, add_words};
use chart_lines::{ChartRow, PORTS};
use differences::{AskedRule, Sign};
use rmap::Windows;
use std::alloc::{AllocError, Global};

/// The word for a sign.
pub fn sign_word(sign: Sign) -> &'static str {
    match sign {
        Sign::More => "+",
        Sign::Fewer => "-",
        Sign::Both => "+-",
        Sign::Other => "~",
    }
}

/// Adds a course: the rules that are asked, in order, and the verdict if none of them matches.
fn add_path(text: &mut String, steps: &[AskedRule]) -> Result<(), AllocError> {
    for step in steps {
        let (line, verdict) = (step.number, step.rule.verdict.number());
        let Some(quota) = step.rule.quota else {
            return write!(text, "verdict {verdict} rule {line}");
        };
        let (map, cell, limit) = (quota.map, quota.cell, quota.limit);
        write!(
            text,
            "{map}:{cell}:{limit} verdict {verdict} rule {line} else "
        )?;
    }
    text.push_str("verdict 10 no rule")
}

/// Adds the words of a row, and its ports, if they are not all.
fn add_front(text: &mut String, alloc: Global, row: &ChartRow) -> Result<(), AllocError> {
    add_words(text, alloc, row.reported(), " ")?;
    if row.ports().len() == usize::from(PORTS) {
        return Ok(());
    }
    text.push_str(" port ")?;
    add_ports(text, alloc, row.ports())
}

/// Adds the line of a row of a map.
///
/// # Errors
///
/// An error if memory is refused.
pub fn add_map_row(text: &mut String, alloc: Global, row: &ChartRow) -> Result<(), AllocError> {
    add_front(text, alloc, row)?;
    text.push_str(" : ")?;
    add_path(text, row.reported().decision_path())?;
    text.push_str("\n")
}

/// Adds the four lines of a row of a comparison, with its packet for a node with these windows.
///
/// # Errors
///
/// An error if memory is refused.
pub fn add_difference(
    text: &mut String,
    alloc: Global,
    windows: &Windows,
    row: &ChartRow,
) -> Result<(), AllocError> {
    let Some(change) = row.reported().change() else {
        return Ok(());
    };
    text.push_str(sign_word(change.sign))?;
    text.push_str(" ")?;
    add_front(text, alloc, row)?;
    text.push_str("\n    old ")?;
    add_path(text, row.reported().decision_path())?;
    text.push_str("\n    new ")?;
    add_path(text, row.reported().new_path())?;
    text.push_str("\n    ")?;
    add_packet(text, alloc, windows, row.ports(), &change)?;
    text.push_str("\n")
}
