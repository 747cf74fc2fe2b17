//! The rows of charts: if lines of several ports say the same, they are one row.

ghost use Rattle.std.specs.Prelude.{◌≡◌, ◌≢◌, ◌≤◌, ◌<◌, ◌++◌, ◌∷◌, [], All, IfOk, IfSome, MatchBool, MatchOption, None, OnOk, Some, get_or, length, slice_set, take};
ghost use Rattle.regions.specs.Points.{HasCommand};
ghost use Rattle.differences.specs.declared.decision_paths.AskedRule.{AskedRule};
ghost use Rattle.chart_lines.specs.Begun.{SayOther};
ghost use Rattle.chart_lines.specs.Rows.{AddsRow, EndSame, RowValue, SaysAt, WantSame, rule_line_of, on_line, rules_on_lines, row_of, reported};

use charts::ChartLine;
use differences::{AskedRule, Repeats, Sign};
use policy_table::Rule;
use regions::{Point, PointRegion};
use std::alloc::{AllocError, Global};
use std::marker::Model;

/// How a new table differs from an old one where a row holds.
#[derive(Clone, Copy, Debug, PartialEq, Eq)]
pub struct RowChange {
    /// In which commands pass.
    pub sign: Sign,
    /// How often a command must come until its verdict is another.
    pub repeats: Repeats,
    /// The part of one of the commands that the rules look at.
    pub point: Point,
}

/// What a row says.
#[derive(Debug, Drop)]
pub struct RowContent {
    region: PointRegion,
    rest: bool,
    decision_path: Vec<AskedRule>,
    new: Vec<AskedRule>,
    change: Option<RowChange>,
}

impl Model for RowContent {
    ghost use Rattle.chart_lines.specs.Rows.{HasPoint, RowContentValue, reported};

    ghost Value = { RowContentValue };

    ghost view = { λ t. reported t.region t.rest t.decision_path.items t.new.items t.change };

    ghost invariant = { λ t. HasPoint t.change };
}

impl RowContent {
    /// The content of a row of a map: the words of a line, and the rules that the table asks, by their lines.
    pub(crate) fn of_map(
        alloc: Global,
        line: &ChartLine,
        decision_path: Vec<AskedRule>,
    ) -> RowContent
        ensures { result ≡ reported line.now.region line.now.rest decision_path.items [] None }
    {
        RowContent {
            region: line.region,
            rest: line.rest,
            decision_path,
            new: Vec::new(alloc),
            change: None,
        }
    }

    /// The content of a row of a comparison: the words of a line, the rules that each table asks, and how the new one
    /// differs.
    pub(crate) fn of_two(
        line: &ChartLine,
        decision_path: Vec<AskedRule>,
        new: Vec<AskedRule>,
        change: RowChange,
    ) -> RowContent
        requires { HasCommand change.point }
        ensures { result ≡
            reported line.now.region line.now.rest decision_path.items new.items (Some change) }
    {
        RowContent {
            region: line.region,
            rest: line.rest,
            decision_path,
            new,
            change: Some(change),
        }
    }

    /// The words of its line.
    pub fn region(&self) -> &PointRegion
        ensures { result.now ≡ self.now.region }
    {
        &self.region
    }

    /// Whether the line has the rest of all addresses.
    pub fn is_rest(&self) -> bool
        ensures { result ≡ self.now.rest }
    {
        self.rest
    }

    /// The rules that the table asks, or the old one of two; their numbers are those of their lines.
    pub fn decision_path(&self) -> &[AskedRule]
        ensures { result.now ≡ self.now.decision_path }
    {
        self.decision_path.as_slice()
    }

    /// The rules that the new table asks; none in a map.
    pub fn new_path(&self) -> &[AskedRule]
        ensures { result.now ≡ self.now.new }
    {
        self.new.as_slice()
    }

    /// In a comparison, how the new table differs, with a point that some command has.
    pub fn change(&self) -> Option<RowChange>
        ensures change { result ≡ self.now.change }
        ensures command { IfSome result (λ change. HasCommand change.point) }
    {
        self.change
    }

    /// Whether two rows say the same.
    fn is(&self, other: &RowContent) -> bool
        ensures { MatchBool result (self.now ≡ other.now) (self.now ≢ other.now) }
    {
        self.region == other.region
            && (self.rest == other.rest
                && (is_same_change(self.change, other.change)
                    && (are_same(self.decision_path(), other.decision_path())
                        && are_same(self.new_path(), other.new_path()))))
    }
}

/// Whether two changes are the same.
fn is_same(one: &RowChange, other: &RowChange) -> bool
    ensures { MatchBool result (one.now ≡ other.now) (one.now ≢ other.now) }
{
    one.sign == other.sign && (one.repeats == other.repeats && one.point == other.point)
}

/// Whether two changes are the same, or none is there.
fn is_same_change(one: Option<RowChange>, other: Option<RowChange>) -> bool
    ensures { MatchBool result (one ≡ other) (one ≢ other) }
{
    match (one, other) {
        (None, None) => true,
        (Some(one), Some(other)) => is_same(&one, &other),
        (None, Some(_)) | (Some(_), None) => false,
    }
}

/// The step of a place.
fn step_at(steps: &[AskedRule], place: usize) -> AskedRule
    requires { place < length steps.now }
    ensures { (d : AskedRule) → get_or steps.now place d ≡ result }
{
    steps[place]
}

/// Whether two rules want the same kind and the same bytes of fields.
fn want_same(one: &Rule, other: &Rule) -> bool
    ensures { MatchBool result (WantSame one.now other.now) (WantSame one.now other.now → ⊥) }
{
    one.kind == other.kind
        && (one.key == other.key
            && (one.initiator == other.initiator && one.extended == other.extended))
}

/// Whether two rules have the same range, the same quota and the same verdict.
fn end_same(one: &Rule, other: &Rule) -> bool
    ensures { MatchBool result (EndSame one.now other.now) (EndSame one.now other.now → ⊥) }
{
    one.low == other.low
        && (one.high == other.high && (one.quota == other.quota && one.verdict == other.verdict))
}

/// Whether two rules are the same.
fn is_same_rule(one: &Rule, other: &Rule) -> bool
    ensures { MatchBool result (one.now ≡ other.now) (one.now ≢ other.now) }
{
    want_same(one, other) && end_same(one, other)
}

/// Whether two steps are the same.
fn is_same_step(one: &AskedRule, other: &AskedRule) -> bool
    ensures { MatchBool result (one.now ≡ other.now) (one.now ≢ other.now) }
{
    one.number == other.number && is_same_rule(&one.rule, &other.rule)
}

/// Whether the steps of a place are the same.
fn is_same_at(one: &[AskedRule], other: &[AskedRule], place: usize) -> bool
    requires one { place < length one.now }
    requires other { place < length other.now }
    ensures { (d : AskedRule) → MatchBool result (get_or one.now place d ≡ get_or other.now place d)
        (get_or one.now place d ≢ get_or other.now place d) }
{
    let own = step_at(one, place);
    let its = step_at(other, place);
    is_same_step(&own, &its)
}

/// Whether two courses have the same rules, of the same lines.
#[tactic(auto, using(crate::proofs::Joining::same_whole, crate::proofs::Joining::other_length))]
fn are_same(one: &[AskedRule], other: &[AskedRule]) -> bool
    ensures { MatchBool result (one.now ≡ other.now) (one.now ≢ other.now) }
{
    if one.len() != other.len() {
        return false;
    }
    for place in 0..one.len() {
        if !is_same_at(one, other, place) {
            return false;
        }
    }
    true
}

/// A row of a chart: what it says, and at which ports.
#[derive(Debug, Drop)]
pub struct ChartRow {
    ports: Vec<u8>,
    reported: RowContent,
}

impl Model for ChartRow {
    ghost use Rattle.chart_lines.specs.Rows.{RowValue, row_of};

    ghost Value = { RowValue };

    ghost view = { λ r. row_of r.ports.items r.reported };
}

impl ChartRow {
    /// The ports.
    pub fn ports(&self) -> &[u8]
        ensures { result.now ≡ self.now.ports }
    {
        self.ports.as_slice()
    }

    /// What the row says.
    pub fn reported(&self) -> &RowContent
        ensures { result.now ≡ self.now.reported }
    {
        &self.reported
    }
}

/// The line of the rule of this number, from 1, if rules are in these lines; 0 if there is none.
fn rule_line_of(lines: &[usize], number: usize) -> usize
    ensures { result ≡ rule_line_of lines.now number }
{
    lines.get(number.saturating_sub(1)).copied().unwrap_or(0)
}

/// A rule by its line.
fn on_line(lines: &[usize], step: &AskedRule) -> AskedRule
    ensures { result ≡ on_line lines.now step.now }
{
    AskedRule {
        number: rule_line_of(lines, step.number),
        rule: step.rule,
    }
}

/// Rules that are asked, by their lines.
pub(crate) fn rules_on_lines(
    alloc: Global,
    lines: &[usize],
    steps: &[AskedRule],
) -> Result<Vec<AskedRule>, AllocError>
    ensures { IfOk result (λ found. found.items ≡ rules_on_lines lines.now steps.now) }
{
    let mut found = Vec::new(alloc);
    for step in steps {
        found.push(on_line(lines, step))?;
    }
    Ok(found)
}

/// The row of a place.
fn row_at(rows: &[ChartRow], place: usize) -> &ChartRow
    requires { place < length rows.now }
    ensures { (d : RowValue) → get_or rows.now place d ≡ result.now }
{
    &rows[place]
}

/// Whether the row of a place says this.
fn says(rows: &[ChartRow], place: usize, reported: &RowContent) -> bool
    requires { place < length rows.now }
    ensures { SaysAt rows.now place reported.now result }
{
    let row = row_at(rows, place);
    row.reported().is(reported)
}

/// The place of a row that says this.
fn asked_place_of(rows: &[ChartRow], reported: &RowContent) -> Option<usize>
    ensures { MatchOption result (All (λ (row : RowValue). row.reported ≢ reported.now) rows.now)
        (λ place. (place < length rows.now)
        × ((d : RowValue) → (get_or rows.now place d).reported ≡ reported.now)) }
{
    for place in 0..rows.len() {
        if says(rows, place, reported) {
            return Some(place);
        }
    }
    None
}

/// Adds ports to the row of a place.
fn join(rows: &mut Vec<ChartRow>, place: usize, ports: &[u8]) -> Result<(), AllocError>
    requires { place < length rows.old.items }
    ensures { OnOk result ((d : RowValue) → rows.new.items ≡ slice_set rows.old.items place
        (row_of ((get_or rows.old.items place d).ports ++ ports.now) (get_or rows.old.items place d).reported)) }
{
    let row = &mut rows[place];
    row.ports.extend_from_slice(ports)
}

/// Adds a row.
fn push_row(
    rows: &mut Vec<ChartRow>,
    alloc: Global,
    ports: &[u8],
    reported: RowContent,
) -> Result<(), AllocError>
    ensures { OnOk result (rows.new.items ≡ rows.old.items ++ row_of ports.now reported ∷ []) }
{
    let ports = Vec::from_slice(alloc, ports)?;
    rows.push(ChartRow { ports, reported })?;
    Ok(())
}

/// The first `count` rows.
fn first_rows(rows: &[ChartRow], count: usize) -> &[ChartRow]
    requires { count ≤ length rows.now }
    ensures { result.now ≡ take count rows.now }
{
    &rows[..count]
}

/// Adds what a row says at these ports: to the row that says it, or in one row more if none does. From a number on no
/// row says it, so that the rows of one chart are not compared with each other.
pub(crate) fn add_row(
    rows: &mut Vec<ChartRow>,
    alloc: Global,
    ports: &[u8],
    reported: RowContent,
    from: usize,
) -> Result<(), AllocError>
    requires { SayOther reported from rows.old.items }
    ensures { OnOk result (AddsRow ports.now reported rows.old.items rows.new.items) }
{
    match asked_place_of(first_rows(rows.as_slice(), from), &reported) {
        Some(place) => join(rows, place, ports),
        None => push_row(rows, alloc, ports, reported),
    }
}
