//! What is printed of a packet.

ghost use Rattle.std.specs.Prelude.{◌≡◌, IfErr, IfOk, OnOk, option_map};
ghost use Rattle.machine.specs.Memory.{header};
ghost use Rattle.policy_table.specs.PortTables.{lines_at};
ghost use Rattle.policy_table.specs.Ports.{rules_at};
ghost use Rattle.job_parts.specs.Printed.{PrintsMore, Prints};
ghost use Rattle.job_parts.specs.Stops.{StopsLineBy};
ghost use Rattle.job_decide.specs.Decided.{IsMemoryRefused, PrintsCommand, PrintsDecision, PrintsMatch, PrintsPacket, PrintsStatus, reported_passed};
ghost use Rattle.job_decide.specs.DecideJob.{match_line, rule_text, ticket_text};
ghost use Rattle.job_decide.specs.Tables.{decision_line_of};
ghost use Rattle.rmap.specs.Checks.{header_check};
ghost use Rattle.rmap.specs.Command.{discard_of};

use crate::reasons::{fault_text, reasons};
use crate::tables::decision_line_of;
use job_nodes::judge::print_discard;
use job_parts::stops::LineStop;
use machine::Call;
use policy::{Counts, Match, Passed, Policy, PortRule, Table};
use rmap::{Command, Status, Verdict, Windows, header_check};
use spw::Packet;
use std::alloc::{AllocError, Global};
use std::io::{self, Write};

/// Prints text as it is.
fn print_more<W: Write>(out: &mut W, text: &str) -> io::Result<()>
    ensures { OnOk result (PrintsMore (W.contents out.old) (W.contents out.new)) }
{
    write!(out, "{text}")
}

/// Prints that a check of its header answers a command: `PORT answered S: `, and the reason.
fn print_answered<W: Write>(out: &mut W, port: u8, status: Status, reason: &str) -> io::Result<()>
    ensures { OnOk result (PrintsStatus port status (W.contents out.old) (W.contents out.new)) }
{
    let code = status.code();
    write!(out, "{port} answered {code}: ")?;
    print_more(out, reason)
}

/// Prints the port, and the line of the rule that decides.
fn print_rule<W: Write>(out: &mut W, port: u8, line: Option<usize>) -> io::Result<()>
    ensures { OnOk result (Prints W.contents out.old out.new (rule_text port line)) }
{
    match line {
        Some(line) => write!(out, "{port} rule {line}"),
        None => write!(out, "{port} no rule"),
    }
}

/// The line of the rule of this number, if there is one. The rules are in these lines.
fn line_in(lines: &[usize], number: Option<usize>) -> Option<usize>
    ensures { result ≡ option_map (λ number. decision_line_of lines.now number) number }
{
    match number {
        Some(number) => Some(decision_line_of(lines, number)),
        None => None,
    }
}

/// Prints the ticket of the rule that decides, if it has one.
fn print_ticket<W: Write>(out: &mut W, ticket: Option<Call>) -> io::Result<()>
    ensures { OnOk result (Prints W.contents out.old out.new (ticket_text ticket)) }
{
    let Some(call) = ticket else {
        return writeln!(out);
    };
    let (answer, map, cell) = (call.answer, call.question.map, call.question.key);
    writeln!(out, ", ticket {answer} of {map}:{cell}")
}

/// Prints which rule decides: `PORT rule N verdict V`, with its line as N, and the ticket that it drew.
fn print_match<W: Write>(out: &mut W, port: u8, lines: &[usize], found: Match) -> io::Result<()>
    ensures { OnOk result (Prints W.contents out.old out.new (match_line port lines.now found)) }
{
    print_rule(out, port, line_in(lines, found.rule))?;
    let verdict = found.verdict.number();
    write!(out, " verdict {verdict}")?;
    print_ticket(out, found.ticket)
}

/// Why the rules before the one that decides do not match, if that one refuses. If it does not refuse, there is nothing
/// to say.
fn passed_by(
    alloc: Global,
    table: &Table,
    verdict: Verdict,
    front: &[u8; 4],
    tail: &[u8; 12],
    draws: &[Call],
) -> Result<Vec<Passed>, AllocError>
    ensures { IfOk result (λ all. all.items
        ≡ reported_passed verdict table.now (header front.now tail.now) draws.now) }
{
    match verdict {
        Verdict::Authorised => Ok(Vec::new(alloc)),
        Verdict::InvalidKey | Verdict::NotAuthorised | Verdict::InvalidLogicalAddress => {
            table.passed(alloc, front, tail, draws)
        }
    }
}

/// A line for each rule before the one that decides, if that one refuses: why the rule does not match.
fn why_passed(
    alloc: Global,
    rules: &[PortRule],
    port: u8,
    verdict: Verdict,
    passed: &[Passed],
) -> Result<String, AllocError> {
    match verdict {
        Verdict::Authorised => Ok(String::new(alloc)),
        Verdict::InvalidKey | Verdict::NotAuthorised | Verdict::InvalidLogicalAddress => {
            reasons(alloc, rules, port, passed)
        }
    }
}

/// The table that a port sees, and the lines of its rules.
fn table_of(alloc: Global, policy: &Policy, port: u8) -> Result<(Table, Vec<usize>), AllocError>
    ensures { IfOk result (λ made. (made.0 ≡ rules_at port policy.now.rules)
        × (made.1.items ≡ lines_at port policy.now.rules)) }
{
    let table = policy.table_at(alloc, port)?;
    let lines = policy.lines_at(alloc, port)?;
    Ok((table, lines))
}

/// The policy that decides on a command, and the port at which it came.
#[derive(Clone, Copy)]
struct PortPolicy<'a> {
    policy: &'a Policy,
    port: u8,
}

/// Decides on a command that no check of its header answers, and prints by which rule, and why by no rule before.
fn decide_admitted<W: Write>(
    alloc: Global,
    at: PortPolicy<'_>,
    counts: &mut Counts,
    command: &Command,
    out: &mut W,
) -> Result<(), LineStop>
    ensures reported { OnOk result
        (PrintsDecision at.entry.port at.entry.policy.now command.now counts.old counts.new
        (W.contents out.old) (W.contents out.new)) }
    ensures stops { IfErr result (StopsLineBy (IsMemoryRefused (W.contents out.old) (W.contents out.new))) }
{
    let (front, tail) = (command.front(), command.tail());
    let PortPolicy { policy, port } = at;
    let (table, lines) = table_of(alloc, policy, port)?;
    let mut calls = Vec::new(alloc);
    let found = table.matched(front, tail, counts, &mut calls)?;
    let passed = passed_by(alloc, &table, found.verdict, front, tail, calls.as_slice())?;
    let why = why_passed(
        alloc,
        policy.rules(),
        port,
        found.verdict,
        passed.as_slice(),
    )?;
    print_match(out, port, lines.as_slice(), found)?;
    Ok(print_more(out, why.as_str())?)
}

/// Prints the status of a command, if a check of its header answers it. Else it decides on the command.
fn decide_on<W: Write>(
    alloc: Global,
    windows: &Windows,
    at: PortPolicy<'_>,
    counts: &mut Counts,
    command: &Command,
    out: &mut W,
) -> Result<(), LineStop>
    ensures reported { OnOk result (PrintsCommand at.entry.port at.entry.policy.now command.now
        (header_check command.now windows.now) counts.old counts.new
        (W.contents out.old) (W.contents out.new)) }
    ensures stops { IfErr result (StopsLineBy (IsMemoryRefused (W.contents out.old) (W.contents out.new))) }
{
    match header_check(command, windows) {
        Ok(_place) => decide_admitted(alloc, at, counts, command, out),
        Err(fault) => {
            let why = fault_text(alloc, fault)?;
            Ok(print_answered(out, at.port, fault.status(), why.as_str())?)
        }
    }
}

/// Decides on a packet at its port, for a node with these windows, and prints what comes of it.
///
/// # Errors
///
/// Memory was refused, and nothing was printed; or the writer failed.
pub fn decide_packet<W: Write>(
    alloc: Global,
    windows: &Windows,
    policy: &Policy,
    counts: &mut Counts,
    port: u8,
    packet: &Packet,
    out: &mut W,
) -> Result<(), LineStop>
    ensures reported { OnOk result (PrintsPacket windows.now port policy.now packet.now
        (discard_of packet.now.bytes)
        counts.old counts.new (W.contents out.old) (W.contents out.new)) }
    ensures stops { IfErr result (StopsLineBy (IsMemoryRefused (W.contents out.old) (W.contents out.new))) }
{
    match Command::view(packet) {
        Ok(command) => {
            let at = PortPolicy { policy, port };
            decide_on(alloc, windows, at, counts, &command, out)
        }
        Err(discard) => Ok(print_discard(out, port, discard)?),
    }
}
