//! What jobs on two files share, an old one and a new one.

ghost use Rattle.std.specs.Prelude.{◌≡◌, OnOk};
ghost use Rattle.job_parts.specs.TwoFiles.{PrintsNamedFault, are_one_input};

use policy_table::TextFault;
use std::io::{self, Write};

/// The name of standard input.
const STANDARD_INPUT: &str = "-";

/// Whether both files would be read from standard input, which one read ends.
pub fn are_one_input(old: &str, new: &str) -> bool
    ensures { result ≡ are_one_input old.now new.now }
{
    old == STANDARD_INPUT && new == STANDARD_INPUT
}

/// Prints the fault of a table: its line, and a line with the name of its file and the place.
///
/// # Errors
///
/// The error of `out`, if it does not take all of the text.
pub fn print_named_fault<W: Write>(out: &mut W, name: &str, fault: &TextFault) -> io::Result<()>
    ensures { OnOk result
        (PrintsNamedFault name.now fault.now (W.contents out.old) (W.contents out.new)) }
{
    let code = fault.fault().code();
    writeln!(out, "policy fault {code}")?;
    write!(out, "    {name} ")?;
    writeln!(out, "{fault}")
}
