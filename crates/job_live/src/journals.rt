//! The journals of a node's banks.

ghost use Rattle.std.specs.Prelude.{◌≡◌, ◌<◌, OnOk, length, slice_get};
ghost use Rattle.job_nodes.specs.JobNode.{first_address_of};
ghost use Rattle.job_parts.specs.Printed.{Prints};
ghost use Rattle.job_live.specs.Journals.{TurnsJournals, TurnsOne, bank_line, bank_text, due_text, has_several, heading, is_journal_due, journals_text};

use crate::reporting::print_journal;
use job_nodes::journals::{entries, first, is_full};
use job_nodes::live_node::LiveNode;
use job_parts::replies::print_hex;
use single_node::SingleNode;
use std::io::{self, Write};

/// Prints the line before the entries of a bank: `bank HH BASE`.
fn print_bank_line<W: Write>(out: &mut W, bank: u8, first: u32) -> io::Result<()>
    ensures { OnOk result (Prints W.contents out.old out.new (bank_line bank first)) }
{
    write!(out, "bank ")?;
    print_hex(out, &[bank])?;
    write!(out, " ")?;
    print_hex(out, &first.to_be_bytes())?;
    writeln!(out)
}

/// Prints what comes before the entries of a bank: its line, if the node has several banks. The condition is a bank of
/// the node.
fn print_heading<W: Write>(out: &mut W, node: &SingleNode, bank: u8) -> io::Result<()>
    requires { bank < length node.now.banks }
    ensures { OnOk result (Prints W.contents out.old out.new
        (heading (has_several node.now.banks) bank (first_address_of (slice_get node.now.banks bank)))) }
{
    if node.banks() <= 1 {
        return Ok(());
    }
    print_bank_line(out, bank, first(node, bank))
}

/// Prints the entries of the journal of a bank, and before them its line, if the node has several banks. The condition is a
/// bank of the node.
///
/// # Errors
///
/// The error of `out`, if it does not take all of the text.
pub fn print_bank<W: Write>(out: &mut W, node: &SingleNode, bank: u8) -> io::Result<()>
    requires { bank < length node.now.banks }
    ensures { OnOk result (Prints W.contents out.old out.new (bank_text node.now.banks bank)) }
{
    print_heading(out, node, bank)?;
    print_journal(out, entries(node, bank))
}

/// Whether the journal of a bank is handed out: if each is, or if it is full. The condition is a bank of the node.
fn is_journal_due(node: &SingleNode, each: bool, bank: u8) -> bool
    requires { bank < length node.now.banks }
    ensures { result ≡ is_journal_due each node.now.banks bank }
{
    each || is_full(node, bank)
}

/// Prints the entries of the journal of a bank, if it is handed out. The condition is a bank of the node.
fn print_due<W: Write>(out: &mut W, node: &SingleNode, each: bool, bank: u8) -> io::Result<()>
    requires { bank < length node.now.banks }
    ensures { OnOk result (Prints W.contents out.old out.new (due_text each node.now.banks bank)) }
{
    if !is_journal_due(node, each, bank) {
        return Ok(());
    }
    print_bank(out, node, bank)
}

/// Prints the entries of the journals that are handed out, bank by bank: of each, or of those that are full.
///
/// # Errors
///
/// The error of `out`, if it does not take all of the text.
pub fn print_journals<W: Write>(out: &mut W, node: &SingleNode, each: bool) -> io::Result<()>
    ensures { OnOk result (Prints W.contents out.old out.new (journals_text each node.now.banks)) }
{
    for bank in 0..node.banks() {
        print_due(out, node, each, bank)?;
    }
    Ok(())
}

/// Begins an empty journal in place of the journal of a bank, if that is handed out. The condition is a bank of the
/// node.
fn turn_due(node: &mut LiveNode, each: bool, bank: u8)
    requires { bank < length node.old.node.banks }
    ensures turns { TurnsOne (is_journal_due each node.old.node.banks bank) bank node.old node.new }
    ensures banks { length node.new.node.banks ≡ length node.old.node.banks }
{
    if is_journal_due(node.single(), each, bank) {
        node.turn(bank);
    }
}

/// Begins an empty journal in the place of each, or of those that are full.
pub fn turn_journals(node: &mut LiveNode, each: bool)
    ensures { TurnsJournals each (length node.old.node.banks) node.old node.new }
{
    let banks = node.single().banks();
    for bank in 0..banks {
        turn_due(node, each, bank);
    }
}
