//! A table of either version, line by line.

ghost use Rattle.std.specs.Prelude.{◌≡◌, ◌<◌, ◌^◌, OnOk, IfErr, IfOk, MatchResult, length, suc, ◌+◌};
ghost use Rattle.spw.specs.Line.{words_of};
ghost use Rattle.policy_table.specs.PartialTables.{HasBadLine, IsBad, IsBadTwo, IsNoStatement, IsRuleStatement, IsStatement, IsStatementOne, IsStatementTwo, IsUnreadLine, LinesWrite, TakesLine, after, empty_partial_table, line_words, with_range};
ghost use Rattle.policy_table.specs.NoRules.{IsNoRule};
ghost use Rattle.policy_table.specs.Ranges.{range_text};
ghost use Rattle.policy_table.specs.Statements.{IsNoRuleLine};

use crate::lines::read_rule;
use crate::port_rules::PortRule;
use crate::ranges::{NamedRange, NamedRanges};
use crate::refining::refined;
use crate::statement_faults::StatementFault;
use crate::statements::{WordKind, read_range, read_rule_line, word_kind};
use crate::text_faults::TextFault;
use crate::versions::TableVersion;
use basm_lex::before_comment;
use spw::{TextLines, first_word};
use std::alloc::{AllocError, Global};
use std::marker::Model;

/// What a line of a table says.
#[derive(Drop)]
pub enum TableStatement<'a> {
    /// Nothing.
    Nothing,
    /// The name of a range, and whether the range ends before it begins.
    Range(NamedRange<'a>, bool),
    /// A rule.
    Rule(PortRule),
}

/// What a line of version 1 says.
fn statement_one<'a>(line: usize, text: &str) -> Result<TableStatement<'a>, StatementFault>
    ensures { MatchResult result (IsStatementOne line text.now) (IsNoRule text.now) }
{
    match read_rule(text) {
        Ok(rule) => Ok(TableStatement::Rule(PortRule {
            rule,
            port: None,
            line,
            named: false,
        })),
        Err(fault) => Err(fault),
    }
}

/// The rule that the words of a line of version 2 are.
fn rule_statement<'a>(
    ranges: &NamedRanges<'a>,
    line: usize,
    code: &'a str,
) -> Result<TableStatement<'a>, StatementFault>
    ensures { MatchResult result
        (IsRuleStatement ranges.now line (words_of code.now))
        (IsNoRuleLine ranges.now (words_of code.now)) }
{
    match read_rule_line(ranges, code) {
        Ok(read) => Ok(TableStatement::Rule(PortRule {
            rule: read.rule,
            port: read.port,
            line,
            named: read.named,
        })),
        Err(fault) => Err(fault),
    }
}

/// What a line of version 2 says. `code` is its text before the comment.
fn statement_two<'a>(
    ranges: &NamedRanges<'a>,
    line: usize,
    code: &'a str,
) -> Result<TableStatement<'a>, StatementFault>
    ensures { MatchResult result
        (IsStatementTwo ranges.now line (words_of code.now))
        (IsBadTwo ranges.now (words_of code.now)) }
{
    let Some((first, rest)) = first_word(code) else {
        return Ok(TableStatement::Nothing);
    };
    match word_kind(first) {
        WordKind::Version => Err(StatementFault::Version),
        WordKind::Other => Err(StatementFault::Directive),
        WordKind::Range => match read_range(ranges, rest) {
            Ok((range, reversed)) => Ok(TableStatement::Range(range, reversed)),
            Err(fault) => Err(fault),
        },
        WordKind::Rule => rule_statement(ranges, line, code),
    }
}

/// The text of a line that is read: in version 2 the text before its comment.
pub fn code_of(version: TableVersion, text: &str) -> &str
    ensures { words_of result.now ≡ line_words version text.now }
{
    match version {
        TableVersion::One => text,
        TableVersion::Two => before_comment(text),
    }
}

/// What a line says in this version.
fn plain_statement<'a>(
    version: TableVersion,
    ranges: &NamedRanges<'a>,
    line: usize,
    text: &'a str,
) -> Result<TableStatement<'a>, StatementFault>
    ensures { MatchResult result (IsStatement version ranges.now line text.now)
        (IsBad version ranges.now text.now) }
{
    match version {
        TableVersion::One => statement_one(line, text),
        TableVersion::Two => statement_two(ranges, line, before_comment(text)),
    }
}

/// What the line of this number says in this version, if these ranges have names.
///
/// # Errors
///
/// Why the line is none of this version. [`refined`] makes the fault more exact.
pub fn statement_in<'a>(
    version: TableVersion,
    ranges: &NamedRanges<'a>,
    line: usize,
    text: &'a str,
) -> Result<TableStatement<'a>, StatementFault>
    ensures { MatchResult result (IsStatement version ranges.now line text.now)
        (IsNoStatement version ranges.now text.now) }
{
    match plain_statement(version, ranges, line, text) {
        Ok(statement) => Ok(statement),
        Err(fault) => Err(refined(code_of(version, text), fault)),
    }
}

/// What the lines of a table said so far.
#[derive(Debug, Drop)]
pub struct PartialTable<'a> {
    ranges: NamedRanges<'a>,
    reversed: Option<usize>,
    rules: Vec<PortRule>,
}

impl<'a> Model for PartialTable<'a> {
    ghost use Rattle.policy_table.specs.PartialTables.{PartialTableValue, partial_table};

    ghost Value = { PartialTableValue };

    ghost view = { λ d. partial_table d.ranges d.reversed d.rules.items };
}

impl<'a> PartialTable<'a> {
    /// No lines.
    pub fn new(alloc: Global) -> PartialTable<'a>
        ensures { result ≡ empty_partial_table }
    {
        PartialTable {
            ranges: NamedRanges::new(alloc),
            reversed: None,
            rules: Vec::new(alloc),
        }
    }

    /// The ranges that have names.
    pub fn ranges(&self) -> &NamedRanges<'a>
        ensures { result.now ≡ self.now.ranges }
    {
        &self.ranges
    }

    /// Takes one range more.
    ///
    /// # Errors
    ///
    /// An error if memory is refused.
    pub fn add_range(
        &mut self,
        line: usize,
        range: NamedRange<'a>,
        reversed: bool,
    ) -> Result<(), AllocError>
        ensures { OnOk result
            (self.new ≡ with_range line (range_text range.entry) reversed self.old) }
    {
        self.ranges.push(range)?;
        if reversed && self.reversed.is_none() {
            self.reversed = Some(line);
        }
        Ok(())
    }

    /// Takes what the line of this number says.
    ///
    /// # Errors
    ///
    /// An error if memory is refused.
    pub fn add(&mut self, line: usize, statement: TableStatement<'a>) -> Result<(), AllocError>
        ensures { OnOk result (self.new ≡ after line statement.entry self.old) }
    {
        match statement {
            TableStatement::Nothing => Ok(()),
            TableStatement::Range(range, reversed) => self.add_range(line, range, reversed),
            TableStatement::Rule(own) => {
                self.rules.push(own).map_err(AllocError::from)?;
                Ok(())
            }
        }
    }

    /// Takes the line of this number.
    fn take(&mut self, version: TableVersion, line: usize, text: &'a str) -> Result<(), TextFault>
        ensures taken { OnOk result (TakesLine version line text.now self.old self.new) }
        ensures fault { IfErr result (IsUnreadLine version line text.now self.old) }
    {
        let statement = match statement_in(version, &self.ranges, line, text) {
            Ok(statement) => statement,
            Err(fault) => return Err(TextFault::Line { line, fault }),
        };
        self.add(line, statement)?;
        Ok(())
    }

    /// The line of the first range that ends before it begins, and the rules.
    pub fn into_rules(self) -> (Option<usize>, Vec<PortRule>)
        ensures reversed { result.0 ≡ self.entry.reversed }
        ensures rules { result.1.items ≡ self.entry.rules }
    {
        (self.reversed, self.rules)
    }
}

/// What lines say, of which the first comes after the line of this number.
///
/// # Errors
///
/// The fault of the first line that is none of this version, with its place; `Memory` if memory is refused.
pub fn read_lines<'a>(
    alloc: Global,
    version: TableVersion,
    before: usize,
    lines: TextLines<'a>,
) -> Result<PartialTable<'a>, TextFault>
    requires { before + length lines < 2 ^ 64 }
    ensures read { IfOk result (LinesWrite version (suc before) lines.entry empty_partial_table) }
    ensures fault { IfErr result (HasBadLine version (suc before) lines.entry empty_partial_table) }
{
    let mut partial_table = PartialTable::new(alloc);
    let mut line = before;
    for text in lines {
        line += 1;
        partial_table.take(version, line, text)?;
    }
    Ok(partial_table)
}
