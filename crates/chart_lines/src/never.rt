//! The rules of a table that never match, and why.

ghost use Rattle.std.specs.Prelude.{◌≡◌, ◌<◌, ◌++◌, ◌∷◌, [], IfOk, MatchBool, OnOk, get_or, length};
ghost use Rattle.policy_table.specs.PortTables.{is_named};
ghost use Rattle.policy_table.specs.declared.port_rules.PortRule.{PortRule};
ghost use Rattle.chart_lines.specs.AskedTables.{AskedValue, asked_at};
ghost use Rattle.chart_lines.specs.Never.{AddsDraw, AddsDrawAt, AddsStop, AddsStopAt, AreNotes, AreTables, IsDraw, IsFate, IsFateAt, IsNoDraw, IsNoFate, IsNotedAt, IsNowhere, IsReason, IsSomewhere, has_no_ticket, asked_place_of, share_cell};
ghost use Rattle.chart_lines.specs.Ports.{AtPort};
ghost use Rattle.chart_lines.specs.Reporting.{PrintsFirst};

use crate::asked::AskedRules;
use crate::ports::{PORTS, Tables};
use charts::{is_asked, is_asked_where, is_of_one_cell, is_stopped_by, never_matches};
use policy_table::{Policy, PortRule, Quota};
use std::alloc::{AllocError, Global};

/// A fact that may hold of a rule at a port.
#[derive(Clone, Copy, Debug)]
pub(crate) enum Fate {
    /// It decides on some command.
    Matching,
    /// It holds at some point at which no rule without quota before it does.
    AskedRules,
    /// It holds at some point at which the rule of this line is the first without quota.
    Stopped(usize),
    /// It holds at some point at which the rule of this line is asked.
    Met(usize),
}

/// Why a rule never matches.
#[derive(Debug, Drop)]
pub enum Reason {
    /// It is asked, and no ticket is below its limit.
    NoTicket,
    /// It is asked, and draws before it leave no ticket below its limit: these rules, by their lines, draw of its cell where it holds.
    Drawn(Vec<usize>),
    /// It is never asked: these rules, by their lines, are first without quota where it holds. If there is none, no
    /// command has its words.
    Before(Vec<usize>),
}

/// A rule that never matches, at any port.
#[derive(Debug, Drop)]
pub struct Note {
    /// Its line.
    pub line: usize,
    /// The reason.
    pub reason: Reason,
}

/// The place of the rule of a line, from 0 on.
fn asked_place_of(lines: &[usize], line: usize) -> Option<usize>
    ensures { result ≡ asked_place_of line lines.now }
{
    for place in 0..lines.len() {
        if lines[place] == line {
            return Some(place);
        }
    }
    None
}

/// Whether a fact holds of the rule of a line at a port.
fn is_fate(at: &AskedRules, fate: Fate, line: usize) -> bool
    ensures { MatchBool result (IsFate fate at.now line) (IsNoFate fate at.now line) }
{
    let Some(place) = asked_place_of(at.lines(), line) else {
        return false;
    };
    match fate {
        Fate::Matching => !never_matches(at.rules(), place),
        Fate::AskedRules => is_asked(at.rules(), place),
        Fate::Stopped(stop) => match asked_place_of(at.lines(), stop) {
            Some(first) => is_stopped_by(at.rules(), first, place),
            None => false,
        },
        Fate::Met(other) => match asked_place_of(at.lines(), other) {
            Some(asked) => is_asked_where(at.rules(), asked, place),
            None => false,
        },
    }
}

/// The table of a place.
fn table_at(tables: &[AskedRules], place: usize) -> &AskedRules
    requires { place < length tables.now }
    ensures { (d : AskedValue) → get_or tables.now place d ≡ result.now }
{
    &tables[place]
}

/// Whether it is so at the port of a place.
fn is_fate_at(tables: &[AskedRules], place: usize, fate: Fate, line: usize) -> bool
    requires { place < length tables.now }
    ensures { IsFateAt fate tables.now place line result }
{
    is_fate(table_at(tables, place), fate, line)
}

/// Whether it is so at some port.
fn is_somewhere(tables: &[AskedRules], fate: Fate, line: usize) -> bool
    ensures { MatchBool result (IsSomewhere fate tables.now line)
        (IsNowhere fate tables.now line) }
{
    for place in 0..tables.len() {
        if is_fate_at(tables, place, fate, line) {
            return true;
        }
    }
    false
}

/// Adds the line of a rule, if the rule is the first without quota at some point at which that of a line holds.
fn add_stop(
    stops: &mut Vec<usize>,
    tables: &[AskedRules],
    line: usize,
    stop: usize,
) -> Result<(), AllocError>
    ensures { OnOk result (AddsStop tables.now line stop stops.old.items stops.new.items) }
{
    if is_somewhere(tables, Fate::Stopped(stop), line) {
        stops.push(stop)?;
    }
    Ok(())
}

/// The rule of a place.
fn rule_at(rules: &[PortRule], place: usize) -> &PortRule
    requires { place < length rules.now }
    ensures { (d : PortRule) → get_or rules.now place d ≡ result.now }
{
    &rules[place]
}

/// The same of the rule of a place.
fn add_stop_at(
    stops: &mut Vec<usize>,
    tables: &[AskedRules],
    line: usize,
    before: &[PortRule],
    place: usize,
) -> Result<(), AllocError>
    requires { place < length before.now }
    ensures { OnOk result
        (AddsStopAt tables.now line before.now place stops.old.items stops.new.items) }
{
    let rule = rule_at(before, place);
    add_stop(stops, tables, line, rule.line)
}

/// The lines of the rules of these that are the first without quota where the rule of a line holds.
fn stops_of(
    alloc: Global,
    tables: &[AskedRules],
    before: &[PortRule],
    line: usize,
) -> Result<Vec<usize>, AllocError>
    ensures { IfOk result (λ stops. PrintsFirst (AddsStopAt tables.now line before.now)
        (length before.now) [] stops.items) }
{
    let mut stops = Vec::new(alloc);
    for place in 0..before.len() {
        add_stop_at(&mut stops, tables, line, before, place)?;
    }
    Ok(stops)
}

/// Whether a rule has a quota whose limit is 0.
fn has_no_ticket(quota: Option<Quota>) -> bool
    ensures { result ≡ has_no_ticket quota }
{
    match quota {
        None => false,
        Some(quota) => quota.limit == 0,
    }
}

/// Whether both have a quota, of one cell.
fn share_cell(one: Option<Quota>, other: Option<Quota>) -> bool
    ensures { result ≡ share_cell one other }
{
    match one {
        Some(one) => match other {
            Some(other) => is_of_one_cell(&one, &other),
            None => false,
        },
        None => false,
    }
}

/// Whether a rule draws of the cell of another at some point at which that holds.
fn is_draw(tables: &[AskedRules], rule: &PortRule, draw: &PortRule) -> bool
    ensures { MatchBool result (IsDraw tables.now rule.now draw.now)
        (IsNoDraw tables.now rule.now draw.now) }
{
    share_cell(draw.rule.quota, rule.rule.quota)
        && is_somewhere(tables, Fate::Met(draw.line), rule.line)
}

/// Adds the line of a rule, if it draws of the cell of another at some point at which that holds.
fn add_draw(
    draws: &mut Vec<usize>,
    tables: &[AskedRules],
    rule: &PortRule,
    draw: &PortRule,
) -> Result<(), AllocError>
    ensures { OnOk result
        (AddsDraw tables.now rule.now draw.now draws.old.items draws.new.items) }
{
    if is_draw(tables, rule, draw) {
        draws.push(draw.line)?;
    }
    Ok(())
}

/// The same of the rule of a place.
fn add_draw_at(
    draws: &mut Vec<usize>,
    tables: &[AskedRules],
    rule: &PortRule,
    before: &[PortRule],
    place: usize,
) -> Result<(), AllocError>
    requires { place < length before.now }
    ensures { OnOk result
        (AddsDrawAt tables.now rule.now before.now place draws.old.items draws.new.items) }
{
    let draw = rule_at(before, place);
    add_draw(draws, tables, rule, draw)
}

/// The lines of the rules of these that draw of the cell of a rule, where that holds.
fn draws_of(
    alloc: Global,
    tables: &[AskedRules],
    before: &[PortRule],
    rule: &PortRule,
) -> Result<Vec<usize>, AllocError>
    ensures { IfOk result (λ draws. PrintsFirst (AddsDrawAt tables.now rule.now before.now)
        (length before.now) [] draws.items) }
{
    let mut draws = Vec::new(alloc);
    for place in 0..before.len() {
        add_draw_at(&mut draws, tables, rule, before, place)?;
    }
    Ok(draws)
}

/// Why a rule never matches, after these rules.
fn reason_of(
    alloc: Global,
    tables: &[AskedRules],
    before: &[PortRule],
    rule: &PortRule,
) -> Result<Reason, AllocError>
    ensures { IfOk result (IsReason tables.now before.now rule.now) }
{
    if !is_somewhere(tables, Fate::AskedRules, rule.line) {
        return Ok(Reason::Before(stops_of(alloc, tables, before, rule.line)?));
    }
    if has_no_ticket(rule.rule.quota) {
        return Ok(Reason::NoTicket);
    }
    Ok(Reason::Drawn(draws_of(alloc, tables, before, rule)?))
}

/// Adds that the rule of a place never matches, if it matches at no port.
fn add_note(
    notes: &mut Vec<Note>,
    alloc: Global,
    tables: &[AskedRules],
    rules: &[PortRule],
    place: usize,
) -> Result<(), AllocError>
    requires { place < length rules.now }
    ensures { OnOk result (IsNotedAt tables.now rules.now place notes.old.items notes.new.items) }
{
    let rule = rule_at(rules, place);
    if is_somewhere(tables, Fate::Matching, rule.line) {
        return Ok(());
    }
    let reason = reason_of(alloc, tables, &rules[..place], rule)?;
    notes.push(Note {
        line: rule.line,
        reason,
    })?;
    Ok(())
}

/// Adds what a table asks at a port, if a chart of it is made.
fn add_table(
    tables: &mut Vec<AskedRules>,
    alloc: Global,
    policy: &Policy,
    port: u8,
) -> Result<(), AllocError>
    ensures { OnOk result (AtPort (λ own. is_named own policy.now.rules)
        (λ own before after. after ≡ before ++ asked_at policy.now own ∷ []) port
        tables.old.items tables.new.items) }
{
    if Tables::One(policy).chart_port(port) {
        tables.push(AskedRules::at(alloc, policy, port)?)?;
    }
    Ok(())
}

/// The rules that a table asks at the ports of which charts are made.
fn tables_of(alloc: Global, policy: &Policy) -> Result<Vec<AskedRules>, AllocError>
    ensures { IfOk result (λ tables. AreTables policy.now 32 tables.items) }
{
    let mut tables = Vec::new(alloc);
    for port in 0..PORTS {
        add_table(&mut tables, alloc, policy, port)?;
    }
    Ok(tables)
}

/// Which of these rules never match.
fn notes_of(
    alloc: Global,
    tables: &[AskedRules],
    rules: &[PortRule],
) -> Result<Vec<Note>, AllocError>
    ensures { IfOk result (λ notes. PrintsFirst (IsNotedAt tables.now rules.now)
        (length rules.now) [] notes.items) }
{
    let mut notes = Vec::new(alloc);
    for place in 0..rules.len() {
        add_note(&mut notes, alloc, tables, rules, place)?;
    }
    Ok(notes)
}

/// The rules of a table that match at no port, in order, each with the reason.
///
/// # Errors
///
/// Only if memory is refused.
pub fn never_matching(alloc: Global, policy: &Policy) -> Result<Vec<Note>, AllocError>
    ensures { IfOk result (λ notes. AreNotes policy.now notes.items) }
{
    let tables = tables_of(alloc, policy)?;
    notes_of(alloc, tables.as_slice(), policy.rules())
}
