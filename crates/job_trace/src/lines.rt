//! The line of a step.

ghost use Rattle.std.specs.Prelude.{◌≡◌, IfOk, OnOk, Some, replicate, string_bytes};
ghost use Rattle.job_parts.specs.Printed.{Prints};
ghost use Rattle.job_trace.specs.Changes.{blanks, change_line, column_text, place_text, trace_step_line};

use crate::changes::{StepChange, print_change};
use bpf_insn::Insn;
use std::alloc::{AllocError, Global};
use std::fmt;
use std::io::{self, Write};

/// How wide the column of the instructions is.
pub const COLUMN: usize = 29;

/// The spaces of a whole column.
fn column() -> [u8; COLUMN]
    ensures { result ≡ replicate COLUMN 32 }
{
    [b' '; COLUMN]
}

/// Prints this many spaces, at most a whole column.
fn print_blanks<W: Write>(out: &mut W, count: usize) -> io::Result<()>
    ensures { OnOk result (Prints W.contents out.old out.new (blanks count)) }
{
    let column = column();
    out.write_all(&column[..count.min(COLUMN)])
}

/// An instruction at its slot.
#[derive(Drop)]
struct Placed {
    slot: u32,
    insn: Insn,
}

impl fmt::Display for Placed {
    ghost output = { λ placed. Some (place_text placed.slot placed.insn) };

    fn fmt<W: fmt::Write>(&self, f: &mut fmt::Formatter<W>) -> fmt::Result {
        let slot = self.slot;
        let insn = self.insn;
        write!(f, "{slot}: {insn}")
    }
}

/// The slot of an instruction and its text.
fn place_text(alloc: Global, slot: u32, insn: &Insn) -> Result<String, AllocError>
    ensures { IfOk result (λ text. string_bytes text ≡ place_text slot insn.now) }
{
    let placed = Placed { slot, insn: *insn };
    format!(in alloc; "{placed}")
}

/// Prints the column of an instruction, whose text that is.
fn print_column<W: Write>(out: &mut W, text: &str) -> io::Result<()>
    ensures { OnOk result (Prints W.contents out.old out.new (column_text text.now)) }
{
    write!(out, "    {text}")?;
    print_blanks(out, COLUMN.saturating_sub(text.len()))?;
    write!(out, " ")
}

/// Prints a line: a text in the column, and after it what a step changed.
fn print_line<W: Write>(out: &mut W, text: &str, change: StepChange) -> io::Result<()>
    ensures { OnOk result
        (Prints W.contents out.old out.new (change_line text.now change)) }
{
    print_column(out, text)?;
    print_change(out, change)?;
    writeln!(out)
}

/// Prints the line of a step: the instruction at its slot, and in a column of its own what it changed.
///
/// # Errors
///
/// The error of `out`, if it does not take all of the line, or an error if memory is refused.
pub fn print_step<W: Write>(
    alloc: Global,
    out: &mut W,
    slot: u32,
    insn: &Insn,
    change: StepChange,
) -> io::Result<()>
    ensures { OnOk result
        (Prints W.contents out.old out.new (trace_step_line slot insn.now change)) }
{
    let text = place_text(alloc, slot, insn)?;
    print_line(out, text.as_str(), change)
}
