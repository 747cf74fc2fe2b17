//! The tables of files.

ghost use Rattle.std.specs.Prelude.{◌≡◌, IfErr, IfOk, OnOk, string_bytes};
ghost use Rattle.job_decide.specs.Tables.{HoldsDrawn, HoldsSoundTable, HoldsTableText, LacksTable, IsNotDrawn, PrintsTableFault, decision_line_of};
ghost use Rattle.job_decide.specs.declared.tables.NoTable.TheVariants.{BadTable, Ended};
ghost use Rattle.job_parts.specs.declared.faults.Fault.TheVariants.{NoMemory};

use job_parts::faults::Fault;
use job_parts::programs::text_in;
use job_parts::storage::Files;
use machine::MapSizes;
use policy::{Policy, TextFault};
use std::alloc::{AllocError, Global};
use std::io::{self, Write};

/// Why there is no table.
#[derive(Debug, Drop)]
pub enum NoTable<'a> {
    /// The fault ends the job.
    Ended(Fault<'a>),
    /// The table has a fault.
    BadTable(TextFault),
}

impl<'a> From<Fault<'a>> for NoTable<'a> {
    ghost from_gives = { λ fault none. none ≡ Ended fault };

    fn from(fault: Fault<'a>) -> Self {
        NoTable::Ended(fault)
    }
}

impl From<TextFault> for NoTable<'_> {
    ghost from_gives = { λ fault none. none ≡ BadTable fault };

    fn from(fault: TextFault) -> Self {
        NoTable::BadTable(fault)
    }
}

impl From<AllocError> for NoTable<'_> {
    ghost from_gives = { λ _ none. none ≡ Ended NoMemory };

    fn from(_refused: AllocError) -> Self {
        NoTable::Ended(Fault::NoMemory)
    }
}

/// The table of either version in the file of this name, which compiles for a node with maps of these sizes.
///
/// # Errors
///
/// `CannotRead` if the file cannot be read, or is not UTF-8. Else the first fault of the table, or `NoMemory`.
pub fn table_in<'a, F: Files>(
    alloc: Global,
    files: &mut F,
    name: &'a str,
    sizes: &MapSizes,
) -> Result<Policy, NoTable<'a>>
    ensures table { IfOk result (λ table.
        HoldsSoundTable F.reads files.old name.now sizes.now table files.new) }
    ensures none { IfErr result (LacksTable F.reads files.old name.now sizes.now files.new) }
{
    let text = text_in(alloc, files, name)?;
    Ok(Policy::read_for(alloc, text.as_str(), sizes)?)
}

/// The text of the file of this name, and the table of either version that it writes. The lines of the table have no
/// fault for maps of these sizes. It may be too long for a program.
///
/// # Errors
///
/// `CannotRead` if the file cannot be read, or is not UTF-8. Else the first fault of a line, or `NoMemory`.
pub fn text_and_table<'a, F: Files>(
    alloc: Global,
    files: &mut F,
    name: &'a str,
    sizes: &MapSizes,
) -> Result<(String, Policy), NoTable<'a>>
    ensures table { IfOk result (λ made. HoldsTableText F.reads files.old name.now sizes.now
        (string_bytes made.0) made.1 files.new) }
    ensures none { IfErr result (IsNotDrawn F.reads files.old name.now sizes.now files.new) }
{
    let text = text_in(alloc, files, name)?;
    let table = Policy::read_drawn(alloc, text.as_str(), sizes)?;
    Ok((text, table))
}

/// The table in the file of this name, as [`text_and_table`] gives it.
///
/// # Errors
///
/// Those of [`text_and_table`].
pub fn drawn_in<'a, F: Files>(
    alloc: Global,
    files: &mut F,
    name: &'a str,
    sizes: &MapSizes,
) -> Result<Policy, NoTable<'a>>
    ensures table { IfOk result (λ table.
        HoldsDrawn F.reads files.old name.now sizes.now table files.new) }
    ensures none { IfErr result (IsNotDrawn F.reads files.old name.now sizes.now files.new) }
{
    let text = text_in(alloc, files, name)?;
    Ok(Policy::read_drawn(alloc, text.as_str(), sizes)?)
}

/// Prints the fault of a table: its line, and a line with its place.
///
/// # Errors
///
/// The error of `out`, if it does not take all of the text.
pub fn print_table_fault<W: Write>(out: &mut W, fault: &TextFault) -> io::Result<()>
    ensures { OnOk result (PrintsTableFault fault.now (W.contents out.old) (W.contents out.new)) }
{
    let code = fault.fault().code();
    writeln!(out, "policy fault {code}")?;
    writeln!(out, "    {fault}")
}

/// The line of the rule of this number, from 1. The rules are in these lines; 0 if there is no such rule.
pub fn decision_line_of(lines: &[usize], number: usize) -> usize
    ensures { result ≡ decision_line_of lines.now number }
{
    lines.get(number.saturating_sub(1)).copied().unwrap_or(0)
}
