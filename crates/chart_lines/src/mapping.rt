//! The rows of a map.

ghost use Rattle.std.specs.Prelude.{◌≡◌, ◌<◌, ◌∷◌, [], IfOk, OnOk, length};
ghost use Rattle.charts.specs.Lines.{IsMap};
ghost use Rattle.policy_table.specs.PortTables.{is_named};
ghost use Rattle.chart_lines.specs.AskedTables.{asked_at};
ghost use Rattle.chart_lines.specs.Begun.{HasReported};
ghost use Rattle.chart_lines.specs.Mapped.{AreMapRows, PrintsLine, PrintsLines, PrintsPorts, map_line_text};
ghost use Rattle.chart_lines.specs.Ports.{AtPort, ports_for};
ghost use Rattle.chart_lines.specs.Reporting.{PrintsFirst};

use crate::asked::AskedRules;
use crate::drawing::map_of;
use crate::ports::{PORTS, Tables};
use crate::rows::{ChartRow, RowContent, add_row, rules_on_lines};
use crate::witnesses::{line_at, some_point};
use charts::{ChartLine, charts_are_read};
use differences::decision_path;
use policy_table::Policy;
use regions::{Point, PointRegion};
use std::alloc::{AllocError, Global};

/// A line as a row says it: its words, and what the table asks at a point.
fn map_line_text(
    alloc: Global,
    at: &AskedRules,
    line: &ChartLine,
    point: &Point,
) -> Result<RowContent, AllocError>
    ensures { IfOk result (λ said. said ≡ map_line_text at.now line.now point.now) }
{
    let steps = decision_path(alloc, at.rules(), point)?;
    let decision_path = rules_on_lines(alloc, at.lines(), steps.as_slice())?;
    Ok(RowContent::of_map(alloc, line, decision_path))
}

/// Adds the line of a place, for these ports, or nothing if it has no command. The lines of the places before were
/// added after the first `from` rows.
fn add_line(
    rows: &mut Vec<ChartRow>,
    alloc: Global,
    ports: &[u8],
    at: &AskedRules,
    asked: &PointRegion,
    chart: &[ChartLine],
    place: usize,
    from: usize,
) -> Result<(), AllocError>
    requires place { place < length chart.now }
    requires map { IsMap asked.now at.now.rules chart.now }
    requires reported { HasReported (PrintsLine ports.now at.now chart.now) place from rows.old.items }
    ensures { OnOk result
        (PrintsLine ports.now at.now chart.now place rows.old.items rows.new.items) }
{
    charts_are_read();
    let Some(point) = some_point(chart, place) else {
        return Ok(());
    };
    let line = line_at(chart, place);
    let reported = map_line_text(alloc, at, &line, &point)?;
    add_row(rows, alloc, ports, reported, from)
}

/// Adds each line of a chart.
fn add_chart(
    rows: &mut Vec<ChartRow>,
    alloc: Global,
    ports: &[u8],
    at: &AskedRules,
    asked: &PointRegion,
    chart: &[ChartLine],
) -> Result<(), AllocError>
    requires { IsMap asked.now at.now.rules chart.now }
    ensures { OnOk result (PrintsFirst (PrintsLine ports.now at.now chart.now) (length chart.now)
        rows.old.items rows.new.items) }
{
    let from = rows.as_slice().len();
    for place in 0..chart.len() {
        add_line(rows, alloc, ports, at, asked, chart, place, from)?;
    }
    Ok(())
}

/// Adds each line of a map of the table for the points of a region.
fn add_lines(
    rows: &mut Vec<ChartRow>,
    alloc: Global,
    ports: &[u8],
    at: &AskedRules,
    asked: &PointRegion,
) -> Result<(), AllocError>
    ensures { OnOk result (PrintsLines asked.now ports.now at.now rows.old.items rows.new.items) }
{
    let chart = map_of(alloc, asked, at.rules())?;
    add_chart(rows, alloc, ports, at, asked, chart.as_slice())
}

/// Adds the lines of a port, if a chart of it is made.
fn add_port(
    rows: &mut Vec<ChartRow>,
    alloc: Global,
    policy: &Policy,
    asked: &PointRegion,
    port: u8,
) -> Result<(), AllocError>
    ensures { OnOk result (AtPort (λ own. is_named own policy.now.rules)
        (λ own. PrintsLines asked.now (ports_for (λ p. is_named p policy.now.rules) own) (asked_at policy.now own))
        port rows.old.items rows.new.items) }
{
    let tables = Tables::One(policy);
    if !tables.chart_port(port) {
        return Ok(());
    }
    let ports = tables.ports_for(alloc, port)?;
    let at = AskedRules::at(alloc, policy, port)?;
    add_lines(rows, alloc, ports.as_slice(), &at, asked)
}

/// The rows of a map at each port.
fn rows_at_all(
    alloc: Global,
    asked: &PointRegion,
    policy: &Policy,
) -> Result<Vec<ChartRow>, AllocError>
    ensures { IfOk result (λ rows. PrintsPorts asked.now policy.now 32 [] rows.items) }
{
    let mut rows = Vec::new(alloc);
    for port in 0..PORTS {
        add_port(&mut rows, alloc, policy, asked, port)?;
    }
    Ok(rows)
}

/// The rows of a map at a port.
fn rows_at(
    alloc: Global,
    asked: &PointRegion,
    port: u8,
    policy: &Policy,
) -> Result<Vec<ChartRow>, AllocError>
    ensures { IfOk result (λ rows.
        PrintsLines asked.now (port ∷ []) (asked_at policy.now port) [] rows.items) }
{
    let at = AskedRules::at(alloc, policy, port)?;
    let mut rows = Vec::new(alloc);
    add_lines(&mut rows, alloc, &[port], &at, asked)?;
    Ok(rows)
}

/// The rows of a map of a table for the points of a region, at one port or at each: what it decides. Each of their
/// commands is in one row at each port.
///
/// # Errors
///
/// Only if memory is refused.
pub fn map_rows(
    alloc: Global,
    asked: &PointRegion,
    port: Option<u8>,
    policy: &Policy,
) -> Result<Vec<ChartRow>, AllocError>
    ensures { IfOk result (λ rows. AreMapRows asked.now port policy.now rows.items) }
{
    match port {
        Some(port) => rows_at(alloc, asked, port, policy),
        None => rows_at_all(alloc, asked, policy),
    }
}
