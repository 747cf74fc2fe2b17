//! Tables of either version.

ghost use Rattle.std.specs.Prelude.{◌≡◌, ◌<◌, ◌^◌, ◌+◌, All, IfErr, IfOk, None, Some, length};
ghost use Rattle.std.specs.List.{list_any};
ghost use Rattle.spw.specs.Line.{lines_of};
ghost use Rattle.policy_table.specs.Limits.{FitsFields};
ghost use Rattle.policy_table.specs.Policies.{IsDrawnFault, IsPolicyFault, IsUnreadPolicy, WritesPolicy, drawn_fault, is_before, policy_fault, policy_reading, policy_reading_of, reversed_fault, placed_rules_fault, policy_version_of};
ghost use Rattle.policy_table.specs.Ports.{FitsPort, on_lines};
ghost use Rattle.policy_table.specs.Statements.{has_version};
ghost use Rattle.policy_table.specs.Surveys.{AreFaults, IsReported, reported_fault};

use crate::checks::placed_rule_fault;
use crate::partial_tables::read_lines;
use crate::port_rules::PortRule;
use crate::room::length_fault;
use crate::rules::Rule;
use crate::statement_faults::StatementFault;
use crate::statements::{has_version, is_version_two};
use crate::surveys::survey_lines;
use crate::text_faults::TextFault;
use crate::versions::TableVersion;
use machine::MapSizes;
use spw::{TextLines, lines_of};
use std::alloc::{AllocError, Global};
use std::marker::Model;

/// A policy table of either version: rules in order, of which the first that is asked at a command's port and matches
/// gives the verdict.
#[derive(Debug, Drop)]
pub struct Policy {
    version: TableVersion,
    reversed: Option<usize>,
    rules: Vec<PortRule>,
}

impl Model for Policy {
    ghost use Rattle.policy_table.specs.Policies.{PolicyValue, policy_value};

    ghost Value = { PolicyValue };

    ghost use Rattle.std.specs.Prelude.{All};
    ghost use Rattle.policy_table.specs.Ports.{FitsPort};

    ghost view = { λ p. policy_value p.version p.reversed p.rules.items };

    ghost invariant = { λ p. All FitsPort p.rules.items };
}

/// Rules that are asked at every port, one a line.
///
/// # Errors
///
/// An error if memory is refused.
pub fn on_lines(alloc: Global, rules: &[Rule]) -> Result<Vec<PortRule>, AllocError>
    ensures lines { IfOk result (λ all. all.items ≡ on_lines 1 rules.now) }
    ensures fit { IfOk result (λ all. All FitsFields rules.now → All FitsPort all.items) }
{
    let mut all = Vec::with_capacity(alloc, rules.len())?;
    for rule in rules {
        let line = all.len() + 1;
        all.push(PortRule {
            rule: *rule,
            port: None,
            line,
            named: false,
        })?;
    }
    Ok(all)
}

/// Whether a line of a text says a version.
fn says_version(text: &str) -> bool
    ensures { result ≡ list_any has_version (lines_of text.now) }
{
    for line in lines_of(text) {
        if has_version(line) {
            return true;
        }
    }
    false
}

/// The version of a text whose first line is not `.version 2`.
fn policy_version_of(text: &str) -> TableVersion
    ensures { result ≡ policy_version_of (lines_of text.now) }
{
    if says_version(text) {
        TableVersion::Two
    } else {
        TableVersion::One
    }
}

/// How the lines of a text are read, if its first line is not `.version 2`.
fn plain_reading(text: &str) -> (TableVersion, usize, TextLines<'_>)
    ensures how { policy_reading result.0 result.1 result.2
        ≡ policy_reading (policy_version_of (lines_of text.now)) 0 (lines_of text.now) }
    ensures few { result.1 + length result.2 < 2 ^ 64 }
{
    (policy_version_of(text), 0, lines_of(text))
}

/// How the lines of a text are read: their version, how many are before those that say something, and these.
fn policy_reading_of(text: &str) -> (TableVersion, usize, TextLines<'_>)
    ensures how { policy_reading result.0 result.1 result.2 ≡ policy_reading_of (lines_of text.now) }
    ensures few { result.1 + length result.2 < 2 ^ 64 }
{
    let mut lines = lines_of(text);
    match lines.next() {
        Some(first) => {
            if is_version_two(first) {
                (TableVersion::Two, 1, lines)
            } else {
                plain_reading(text)
            }
        }
        None => plain_reading(text),
    }
}

/// The fault of the range that ends before it begins, if there is one.
fn reversed_fault(reversed: Option<usize>) -> Option<TextFault>
    ensures { result ≡ reversed_fault reversed }
{
    let line = reversed?;
    Some(TextFault::Line {
        line,
        fault: StatementFault::RangeOrder,
    })
}

/// Whether the range that ends before it begins is before a line.
fn is_before(reversed: Option<usize>, line: usize) -> bool
    ensures { result ≡ is_before reversed line }
{
    match reversed {
        Some(at) => at < line,
        None => false,
    }
}

impl Policy {
    /// The table that a text writes. It is of version 2 if its first line is `.version 2`, and else of version 1.
    ///
    /// In version 2 a semicolon begins a comment, and a line without words says nothing. `.range NAME LOW HIGH` gives a
    /// name to a range of addresses: a letter, then letters, digits and underscores, and not eight hexadecimal digits.
    /// In each rule below, the name can be in place of both addresses. With `port P` after the verdict, a decimal
    /// number from 0 to 31, a rule is asked only of commands at that port, before it draws. All else is as in version 1
    /// ([`Table::read`](crate::Table::read)).
    ///
    /// # Errors
    ///
    /// The first line that is none of these, with its place; `Memory` if memory is refused. A line that says a version
    /// is a fault of a table of version 2, except line 1 if it is `.version 2`. If a text has such a fault, its lines
    /// are read as version 2.
    pub fn read(alloc: Global, text: &str) -> Result<Policy, TextFault>
        ensures read { IfOk result (WritesPolicy (lines_of text.now)) }
        ensures fault { IfErr result (IsUnreadPolicy (lines_of text.now)) }
    {
        let (version, before, lines) = policy_reading_of(text);
        let partial_table = read_lines(alloc, version, before, lines)?;
        let (reversed, rules) = partial_table.into_rules();
        Ok(Policy {
            version,
            reversed,
            rules,
        })
    }

    /// The table that a text writes, as [`Policy::read`] reads it. It compiles for a node with maps of these sizes,
    /// unless memory is refused.
    ///
    /// # Errors
    ///
    /// The first fault of the text with its place: of the first line that is not read, or that for which the table is
    /// not compiled.
    pub fn read_for(alloc: Global, text: &str, sizes: &MapSizes) -> Result<Policy, TextFault>
        ensures read { IfOk result (WritesPolicy (lines_of text.now)) }
        ensures faultless { IfOk result (λ policy. policy_fault sizes.now policy ≡ None) }
        ensures fault { IfErr result (IsPolicyFault sizes.now (lines_of text.now)) }
    {
        let policy = Policy::read(alloc, text)?;
        match policy.fault_for(sizes) {
            Some(fault) => Err(fault),
            None => Ok(policy),
        }
    }

    /// The table that a text writes, as [`Policy::read`] reads it, whose lines have no fault for maps of these sizes. It may be too long
    /// for a program.
    ///
    /// # Errors
    ///
    /// The first fault of the text with its place: of the first line that is not read, or of the first of its lines.
    pub fn read_drawn(alloc: Global, text: &str, sizes: &MapSizes) -> Result<Policy, TextFault>
        ensures read { IfOk result (WritesPolicy (lines_of text.now)) }
        ensures faultless { IfOk result (λ policy. drawn_fault sizes.now policy ≡ None) }
        ensures fault { IfErr result (IsDrawnFault sizes.now (lines_of text.now)) }
    {
        let policy = Policy::read(alloc, text)?;
        match policy.drawn_fault_for(sizes) {
            Some(fault) => Err(fault),
            None => Ok(policy),
        }
    }

    /// The first fault of the lines of the table for maps of these sizes, with its place.
    fn drawn_fault_for(&self, sizes: &MapSizes) -> Option<TextFault>
        ensures { result ≡ drawn_fault sizes.now self.now }
    {
        placed_rules_fault(self.reversed, self.rules.as_slice(), sizes)
    }

    /// The first fault of the table for a node with maps of these sizes, with its place: that for which it is not
    /// compiled.
    ///
    /// First comes a rule for which there is no room. In version 1 it is the thirteenth, in version 2 the first that
    /// the 512 slots of an image do not have. Then come, line by line, ranges that end before they begin, and quotas. A
    /// quota is at fault if the maps do not have its cell, or if the cell is in a peak map.
    pub fn fault_for(&self, sizes: &MapSizes) -> Option<TextFault>
        ensures { result ≡ policy_fault sizes.now self.now }
    {
        if let Some(fault) = length_fault(self.version, self.rules.as_slice()) {
            return Some(fault);
        }
        placed_rules_fault(self.reversed, self.rules.as_slice(), sizes)
    }

    /// All faults of a text for a node with maps of these sizes, in the order of its lines. If there is no room for a
    /// rule, that is the first of its faults. The fault that [`Policy::read_for`] gives is the first of them with the
    /// number 5, else the first with 1, else the first.
    ///
    /// A line that is at fault says nothing, and lines below are read without it. But a name that it gives to a range
    /// is known.
    ///
    /// # Errors
    ///
    /// An error if memory is refused.
    pub fn faults(alloc: Global, text: &str, sizes: &MapSizes) -> Result<Vec<TextFault>, AllocError>
        ensures all { IfOk result (λ all. AreFaults sizes.now (lines_of text.now) all.items) }
        ensures reported_fault { IfOk result
            (λ all. IsReported sizes.now (lines_of text.now) (reported_fault all.items)) }
    {
        let (version, before, lines) = policy_reading_of(text);
        let all = survey_lines(alloc, version, before, lines, sizes)?;
        Ok(all)
    }

    /// The form of its text.
    pub fn version(&self) -> TableVersion
        ensures { result ≡ self.now.version }
    {
        self.version
    }

    /// The rules, in order.
    pub fn rules(&self) -> &[PortRule]
        ensures rules { result.now ≡ self.now.rules }
        ensures fit { All FitsPort self.now.rules }
    {
        self.rules.as_slice()
    }
}

/// The first fault of rules and of the range that ends before it begins, line by line.
fn placed_rules_fault(
    reversed: Option<usize>,
    rules: &[PortRule],
    sizes: &MapSizes,
) -> Option<TextFault>
    ensures { result ≡ placed_rules_fault sizes.now reversed rules.now }
{
    for own in rules {
        if is_before(reversed, own.line) {
            return reversed_fault(reversed);
        }
        if let Some(fault) = placed_rule_fault(own, sizes) {
            return Some(fault);
        }
    }
    reversed_fault(reversed)
}
