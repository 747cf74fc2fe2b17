//! Texts that are printed.

ghost use Rattle.std.specs.Prelude.{OnOk};
ghost use Rattle.job_parts.specs.Printed.{Prints, indented};

use std::io::{self, Write};

/// Prints a text, which has its line feeds.
///
/// # Errors
///
/// The error of `out`, if it does not take all of the text.
pub fn print_text<W: Write>(out: &mut W, text: &str) -> io::Result<()>
    ensures { OnOk result (Prints W.contents out.old out.new text.now) }
{
    write!(out, "{text}")
}

/// Prints each line of a text, four columns further right. The reasons after a line are printed so.
///
/// # Errors
///
/// The error of `out`, if it does not take all of the text.
pub fn print_indented<W: Write>(out: &mut W, text: &str) -> io::Result<()>
    ensures { OnOk result (Prints W.contents out.old out.new (indented text.now)) }
{
    for line in text.lines() {
        writeln!(out, "    {line}")?;
    }
    Ok(())
}
