//! The lines of rules that never match.

use chart_lines::{Note, Reason};
use std::alloc::AllocError;

/// Adds which rules are before one, and what these do. It adds `none` if there are no such rules, `one` after the line
/// of one, and `some` after those of several.
fn add_rules(
    text: &mut String,
    lines: &[usize],
    none: &str,
    one: &str,
    some: &str,
) -> Result<(), AllocError> {
    match lines {
        [] => text.push_str(none),
        [line] => write!(text, "rule {line} {one}"),
        [line, rest @ ..] => {
            write!(text, "rules {line}")?;
            for other in rest {
                write!(text, ", {other}")?;
            }
            write!(text, " {some}")
        }
    }
}

/// Adds which rules without quota are before one.
fn add_stops(text: &mut String, lines: &[usize]) -> Result<(), AllocError> {
    let none = "no command has its words";
    let one = "is before it wherever it agrees";
    let some = "are before it wherever it agrees";
    add_rules(text, lines, none, one, some)
}

/// Adds which rules draw of the cell of one before it.
fn add_draws(text: &mut String, lines: &[usize]) -> Result<(), AllocError> {
    let none = "draws before it leave no ticket below its limit";
    let one = "draws of its cell before it and leaves no ticket below its limit";
    let some = "draw of its cell before it and leave no ticket below its limit";
    add_rules(text, lines, none, one, some)
}

/// Adds the line of a rule that never matches, with the reason.
///
/// # Errors
///
/// An error if memory is refused.
pub fn add_note(text: &mut String, note: &Note) -> Result<(), AllocError> {
    let line = note.line;
    write!(text, "rule {line} never matches: ")?;
    match &note.reason {
        Reason::NoTicket => text.push_str("its limit is 0")?,
        Reason::Drawn(lines) => add_draws(text, lines.as_slice())?,
        Reason::Before(lines) => add_stops(text, lines.as_slice())?,
    }
    text.push_str("\n")
}
