//! All faults of a table.

ghost use Rattle.std.specs.Prelude.{◌≡◌, ◌<◌, ◌^◌, ◌+◌, ◌++◌, IfOk, OnOk, length, suc, option_map};
ghost use Rattle.spw.specs.Line.{words_of};
ghost use Rattle.policy_table.specs.Policies.{policy_reading, reversed_fault, placed_rule_fault};
ghost use Rattle.policy_table.specs.Ranges.{range_text};
ghost use Rattle.policy_table.specs.Room.{room_fault};
ghost use Rattle.policy_table.specs.Surveys.{FindsLine, HasFaults, empty_survey, first_of_code, has_code, listed, named_by, reported_fault, reversed_at, room_after_line, statement_faults, with_bad, with_statement};

use crate::checks::placed_rule_fault;
use crate::faults::PolicyFault;
use crate::partial_tables::{PartialTable, TableStatement, code_of, statement_in};
use crate::port_rules::PortRule;
use crate::ranges::{NamedRange, NamedRanges, is_range_name};
use crate::room::{Room, room_after, room_fault, whole_room};
use crate::statement_faults::StatementFault;
use crate::text_faults::TextFault;
use crate::versions::TableVersion;
use machine::MapSizes;
use spw::{TextLines, first_word};
use std::alloc::{AllocError, Global};
use std::marker::Model;

/// What the lines of a table said so far, the room that is left, and their faults.
#[derive(Debug, Drop)]
struct Survey<'a> {
    partial_table: PartialTable<'a>,
    room: Option<Room>,
    faults: Vec<TextFault>,
}

impl<'a> Model for Survey<'a> {
    ghost use Rattle.policy_table.specs.Surveys.{SurveyValue, survey};

    ghost Value = { SurveyValue };

    ghost view = { λ s. survey s.partial_table s.room s.faults.items };
}

/// Adds a fault, if there is one.
fn push_fault(faults: &mut Vec<TextFault>, fault: Option<TextFault>) -> Result<(), AllocError>
    ensures { OnOk result (faults.new.items ≡ faults.old.items ++ listed fault) }
{
    if let Some(fault) = fault {
        faults.push(fault).map_err(AllocError::from)?;
    }
    Ok(())
}

/// The fault of a range that ends before it begins.
fn reversed_range(line: usize, reversed: bool) -> Option<TextFault>
    ensures { result ≡ reversed_fault (reversed_at line reversed) }
{
    if reversed {
        Some(TextFault::Line {
            line,
            fault: StatementFault::RangeOrder,
        })
    } else {
        None
    }
}

/// Adds the faults of a rule.
fn push_rule(
    faults: &mut Vec<TextFault>,
    version: TableVersion,
    room: Option<Room>,
    own: &PortRule,
    sizes: &MapSizes,
) -> Result<(), AllocError>
    ensures { OnOk result (faults.new.items ≡ faults.old.items
        ++ (listed (room_fault version room own.now) ++ listed (placed_rule_fault sizes.now own.now))) }
{
    push_fault(faults, room_fault(version, room, own))?;
    push_fault(faults, placed_rule_fault(own, sizes))
}

/// Adds the faults of what a line says.
fn push_faults(
    faults: &mut Vec<TextFault>,
    version: TableVersion,
    room: Option<Room>,
    line: usize,
    statement: &TableStatement<'_>,
    sizes: &MapSizes,
) -> Result<(), AllocError>
    ensures { OnOk result (faults.new.items ≡ faults.old.items
        ++ statement_faults version sizes.now room line statement.now) }
{
    match statement {
        TableStatement::Nothing => Ok(()),
        TableStatement::Range(_, reversed) => push_fault(faults, reversed_range(line, *reversed)),
        TableStatement::Rule(own) => push_rule(faults, version, room, own, sizes),
    }
}

/// The room after what a line says.
fn room_after_line(
    version: TableVersion,
    room: Option<Room>,
    statement: &TableStatement<'_>,
) -> Option<Room>
    ensures { result ≡ room_after_line version room statement.now }
{
    match statement {
        TableStatement::Nothing | TableStatement::Range(_, _) => room,
        TableStatement::Rule(own) => room_after(version, room, own),
    }
}

/// The range of all addresses that has the new name that the words of a line give, if they give one.
fn named_by<'a>(ranges: &NamedRanges<'_>, code: &'a str) -> Option<NamedRange<'a>>
    ensures { option_map range_text result ≡ named_by ranges.now (words_of code.now) }
{
    let (first, rest) = first_word(code)?;
    let (name, _rest) = first_word(rest)?;
    if first == ".range" && is_range_name(name) && ranges.named(name).is_none() {
        Some(NamedRange {
            name,
            low: "00000000",
            high: "FFFFFFFF",
        })
    } else {
        None
    }
}

impl<'a> Survey<'a> {
    /// No line.
    fn new(alloc: Global, version: TableVersion) -> Survey<'a>
        ensures { result ≡ empty_survey version }
    {
        Survey {
            partial_table: PartialTable::new(alloc),
            room: Some(whole_room(version)),
            faults: Vec::new(alloc),
        }
    }

    /// Takes what the line of this number says.
    fn add(
        &mut self,
        version: TableVersion,
        sizes: &MapSizes,
        line: usize,
        statement: TableStatement<'a>,
    ) -> Result<(), AllocError>
        ensures { OnOk result
            (self.new ≡ with_statement version sizes.now line statement.entry self.old) }
    {
        push_faults(
            &mut self.faults,
            version,
            self.room,
            line,
            &statement,
            sizes,
        )?;
        self.room = room_after_line(version, self.room, &statement);
        self.partial_table.add(line, statement)
    }

    /// Takes the line of this number, which is no statement, because of this fault.
    fn add_bad(
        &mut self,
        version: TableVersion,
        line: usize,
        text: &'a str,
        fault: StatementFault,
    ) -> Result<(), AllocError>
        ensures { OnOk result (self.new ≡ with_bad version line text.now fault self.old) }
    {
        let named = named_by(self.partial_table.ranges(), code_of(version, text));
        if let Some(range) = named {
            self.partial_table.add_range(line, range, false)?;
        }
        self.faults
            .push(TextFault::Line { line, fault })
            .map_err(AllocError::from)?;
        Ok(())
    }

    /// Finds the faults of the line of this number.
    fn take(
        &mut self,
        version: TableVersion,
        sizes: &MapSizes,
        line: usize,
        text: &'a str,
    ) -> Result<(), AllocError>
        ensures { OnOk result (FindsLine version sizes.now line text.now self.old self.new) }
    {
        match statement_in(version, self.partial_table.ranges(), line, text) {
            Ok(statement) => self.add(version, sizes, line, statement),
            Err(fault) => self.add_bad(version, line, text, fault),
        }
    }
}

/// The faults of lines, of which the first comes after the line of this number.
///
/// # Errors
///
/// An error if memory is refused.
pub fn survey_lines(
    alloc: Global,
    version: TableVersion,
    before: usize,
    lines: TextLines<'_>,
    sizes: &MapSizes,
) -> Result<Vec<TextFault>, AllocError>
    requires { before + length lines < 2 ^ 64 }
    ensures { IfOk result
        (λ all. HasFaults sizes.now (policy_reading version before lines.entry) all.items) }
{
    let mut survey = Survey::new(alloc, version);
    let mut line = before;
    for text in lines {
        line += 1;
        survey.take(version, sizes, line, text)?;
    }
    Ok(survey.faults)
}

/// Whether a fault has this number.
fn has_code(code: u8, fault: &TextFault) -> bool
    ensures { result ≡ has_code code fault.now }
{
    fault.code() == code
}

/// The first fault of this number.
fn first_of_code(code: u8, faults: &[TextFault]) -> Option<TextFault>
    ensures { result ≡ first_of_code code faults.now }
{
    for fault in faults {
        if has_code(code, fault) {
            return Some(*fault);
        }
    }
    None
}

/// The fault that is reported of all. It is the first line that is none of its version, else the first rule for which
/// there is no room, else the first.
pub fn reported_fault(faults: &[TextFault]) -> Option<TextFault>
    ensures { result ≡ reported_fault faults.now }
{
    if let Some(fault) = first_of_code(PolicyFault::BadLine.code(), faults) {
        return Some(fault);
    }
    if let Some(fault) = first_of_code(PolicyFault::TooLong.code(), faults) {
        return Some(fault);
    }
    faults.first().copied()
}
