//! The rows of a comparison.

ghost use Rattle.std.specs.Prelude.{◌≡◌, ◌<◌, ◌∷◌, [], IfOk, OnOk, Some, length};
ghost use Rattle.charts.specs.Lines.{IsComparison};
ghost use Rattle.regions.specs.Points.{HasCommand};
ghost use Rattle.chart_lines.specs.AskedTables.{asked_at};
ghost use Rattle.chart_lines.specs.Begun.{HasReported};
ghost use Rattle.chart_lines.specs.Compared.{AreDifferenceRows, IsDifferenceAt, PrintsLine, PrintsLines, PrintsPorts};
ghost use Rattle.chart_lines.specs.Ports.{AtPort, is_named_by, ports_for};
ghost use Rattle.chart_lines.specs.Reporting.{PrintsFirst};

use crate::asked::AskedRules;
use crate::drawing::comparison_of;
use crate::ports::{PORTS, Tables};
use crate::rows::{ChartRow, RowChange, RowContent, add_row, rules_on_lines};
use crate::witnesses::{line_at, witness};
use charts::{ChartLine, charts_are_read};
use differences::{decision_path, joined, repeats_of, sign_of};
use policy_table::Policy;
use regions::{Point, PointRegion};
use std::alloc::{AllocError, Global};

/// The rules that two tables ask at a port, the lines of their comparison, and where the point of a line is looked for
/// first.
#[derive(Clone, Copy)]
struct Comparison<'a> {
    asked: &'a PointRegion,
    old: &'a AskedRules,
    new: &'a AskedRules,
    chart: &'a [ChartLine],
    preferred: &'a [PointRegion],
}

/// A line as a row says it: its words, what each table asks at a point, and how the new one differs there.
#[tactic(auto, using(crate::proofs::Limits::steps_limited))]
fn difference_text(
    alloc: Global,
    comparison: Comparison<'_>,
    line: &ChartLine,
    point: &Point,
) -> Result<RowContent, AllocError>
    requires { HasCommand point.now }
    ensures { IfOk result (IsDifferenceAt
        comparison.entry.old.now comparison.entry.new.now line.now point.now) }
{
    let old = decision_path(alloc, comparison.old.rules(), point)?;
    let new = decision_path(alloc, comparison.new.rules(), point)?;
    let sign = sign_of(old.as_slice(), new.as_slice());
    let repeats = repeats_of(alloc, old.as_slice(), new.as_slice())?;
    let change = RowChange {
        sign,
        repeats,
        point: *point,
    };
    let one = rules_on_lines(alloc, comparison.old.lines(), old.as_slice())?;
    let other = rules_on_lines(alloc, comparison.new.lines(), new.as_slice())?;
    Ok(RowContent::of_two(line, one, other, change))
}

/// Adds the line of a place, for these ports, or nothing if it has no command. The lines of the places before were
/// added after the first `from` rows.
fn add_line(
    rows: &mut Vec<ChartRow>,
    alloc: Global,
    ports: &[u8],
    comparison: Comparison<'_>,
    place: usize,
    from: usize,
) -> Result<(), AllocError>
    requires place { place < length comparison.chart.now }
    requires comparison { IsComparison comparison.asked.now comparison.old.now.rules
        comparison.new.now.rules comparison.chart.now }
    requires reported { HasReported (PrintsLine ports.now comparison.old.now comparison.new.now
        comparison.chart.now) place from rows.old.items }
    ensures { OnOk result (PrintsLine ports.now comparison.entry.old.now comparison.entry.new.now
        comparison.entry.chart.now place rows.old.items rows.new.items) }
{
    charts_are_read();
    let Some(point) = witness(comparison.chart, place, comparison.preferred) else {
        return Ok(());
    };
    let line = line_at(comparison.chart, place);
    let reported = difference_text(alloc, comparison, &line, &point)?;
    add_row(rows, alloc, ports, reported, from)
}

/// Adds each line.
fn add_chart(
    rows: &mut Vec<ChartRow>,
    alloc: Global,
    ports: &[u8],
    comparison: Comparison<'_>,
) -> Result<(), AllocError>
    requires { IsComparison comparison.asked.now comparison.old.now.rules comparison.new.now.rules
        comparison.chart.now }
    ensures { OnOk result (PrintsFirst (PrintsLine ports.now
        comparison.entry.old.now comparison.entry.new.now
        comparison.entry.chart.now) (length comparison.entry.chart.now)
        rows.old.items rows.new.items) }
{
    let from = rows.as_slice().len();
    for place in 0..comparison.chart.len() {
        add_line(rows, alloc, ports, comparison, place, from)?;
    }
    Ok(())
}

/// Adds each line of a comparison of what two tables ask at a port.
fn add_lines(
    rows: &mut Vec<ChartRow>,
    alloc: Global,
    ports: &[u8],
    asked: &PointRegion,
    old: &AskedRules,
    new: &AskedRules,
    preferred: &[PointRegion],
) -> Result<(), AllocError>
    ensures { OnOk result
        (PrintsLines asked.now ports.now old.now new.now rows.old.items rows.new.items) }
{
    let lines = comparison_of(alloc, asked, old.rules(), new.rules())?;
    let chart = joined(alloc, asked, old.rules(), new.rules(), lines)?;
    let comparison = Comparison {
        asked,
        old,
        new,
        chart: chart.as_slice(),
        preferred,
    };
    add_chart(rows, alloc, ports, comparison)
}

/// Adds the lines of a port, if a chart of it is made.
fn add_port(
    rows: &mut Vec<ChartRow>,
    alloc: Global,
    asked: &PointRegion,
    old: &Policy,
    new: &Policy,
    preferred: &[PointRegion],
    port: u8,
) -> Result<(), AllocError>
    ensures { OnOk result (AtPort (λ own. is_named_by old.now new.now own)
        (λ own. PrintsLines asked.now (ports_for (λ p. is_named_by old.now new.now p) own)
        (asked_at old.now own) (asked_at new.now own)) port rows.old.items rows.new.items) }
{
    let tables = Tables::Two(old, new);
    if !tables.chart_port(port) {
        return Ok(());
    }
    let ports = tables.ports_for(alloc, port)?;
    let old = AskedRules::at(alloc, old, port)?;
    let new = AskedRules::at(alloc, new, port)?;
    add_lines(rows, alloc, ports.as_slice(), asked, &old, &new, preferred)
}

/// The rows of a comparison at each port.
fn rows_at_all(
    alloc: Global,
    asked: &PointRegion,
    old: &Policy,
    new: &Policy,
    preferred: &[PointRegion],
) -> Result<Vec<ChartRow>, AllocError>
    ensures { IfOk result (λ rows. PrintsPorts asked.now old.now new.now 32 [] rows.items) }
{
    let mut rows = Vec::new(alloc);
    for port in 0..PORTS {
        add_port(&mut rows, alloc, asked, old, new, preferred, port)?;
    }
    Ok(rows)
}

/// The rows of a comparison at a port.
fn rows_at(
    alloc: Global,
    asked: &PointRegion,
    port: u8,
    old: &Policy,
    new: &Policy,
    preferred: &[PointRegion],
) -> Result<Vec<ChartRow>, AllocError>
    ensures { IfOk result (λ rows. PrintsLines asked.now (port ∷ []) (asked_at old.now port)
        (asked_at new.now port) [] rows.items) }
{
    let old = AskedRules::at(alloc, old, port)?;
    let new = AskedRules::at(alloc, new, port)?;
    let mut rows = Vec::new(alloc);
    add_lines(&mut rows, alloc, &[port], asked, &old, &new, preferred)?;
    Ok(rows)
}

/// The rows of a comparison of two tables for the points of a region, at one port or at each. Each command that they
/// decide differently is in one row at each port, and no other is in any. The point of a row is looked for in the
/// preferred regions first, in their order.
///
/// # Errors
///
/// Only if memory is refused.
pub fn difference_rows(
    alloc: Global,
    asked: &PointRegion,
    port: Option<u8>,
    old: &Policy,
    new: &Policy,
    preferred: &[PointRegion],
) -> Result<Vec<ChartRow>, AllocError>
    ensures { IfOk result (λ rows. AreDifferenceRows asked.now port old.now new.now rows.items) }
{
    match port {
        Some(port) => rows_at(alloc, asked, port, old, new, preferred),
        None => rows_at_all(alloc, asked, old, new, preferred),
    }
}
