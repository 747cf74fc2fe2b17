//! Charts with a line for each cell of a search.

ghost use Rattle.std.specs.Prelude.{◌≡◌, ◌≤◌, ◌++◌, false, length, map, true, IfOk, MatchOption};
ghost use Rattle.charts.specs.Lines.{IsChart, IsComparison, IsMap, is_reported, line_of, reported_tests};
ghost use Rattle.charts.specs.Points.{tests_of};
ghost use Rattle.regions.specs.Questions.{IsShapeAt};

use crate::decisions::are_alike;
use crate::lines::ChartLine;
use crate::shapes::{region_of, rule_at};
use policy_table::Rule;
use regions::{Cell, Point, PointQuestion, PointRegion, cells};
use std::alloc::{AllocError, Global};

/// Whether a point of two tables is not reported.
#[derive(Drop)]
struct NothingReported<'a> {
    asked: &'a PointRegion,
    old: &'a [Rule],
    new: &'a [Rule],
    all: bool,
}

/// The points of the rule of that number.
pub(crate) fn rule_shape(old: &[Rule], new: &[Rule], number: usize) -> Option<PointRegion>
    ensures { MatchOption result (length (tests_of (old.now ++ new.now)) ≤ number)
        (IsShapeAt (tests_of (old.now ++ new.now)) number) }
{
    let Some(rule) = rule_at(old, new, number) else {
        return None;
    };
    Some(region_of(&rule))
}

impl PointQuestion for NothingReported<'_> {
    ghost tests = { λ q. reported_tests q.asked.now q.old.now q.new.now };

    ghost holds = { λ q p. is_reported q.asked.now q.all q.old.now q.new.now p ≡ false };

    ghost fails = { λ q p. is_reported q.asked.now q.all q.old.now q.new.now p ≡ true };

    fn shape(&self, number: usize) -> Option<PointRegion> {
        if number == 0 {
            return Some(*self.asked);
        }
        rule_shape(self.old, self.new, number - 1)
    }

    fn passes(&self, _number: usize) -> bool {
        false
    }

    fn ask(&self, point: &Point) -> bool {
        let reported = self.asked.has(point) && (self.all || !are_alike(self.old, self.new, point));
        !reported
    }
}

/// A line for each cell.
fn point_lines_of(alloc: Global, cells: &[Cell]) -> Result<Vec<ChartLine>, AllocError>
    ensures { IfOk result (λ lines. lines.items ≡ map line_of cells.now) }
{
    let mut lines = Vec::new(alloc);
    for cell in cells {
        lines.push(ChartLine {
            region: cell.region,
            rest: false,
            point: cell.point,
        })?;
    }
    Ok(lines)
}

/// The lines of the reported cells.
fn cell_lines(
    alloc: Global,
    asked: &PointRegion,
    old: &[Rule],
    new: &[Rule],
    all: bool,
) -> Result<Vec<ChartLine>, AllocError>
    ensures { IfOk result (λ lines. IsChart asked.now all old.now new.now lines.items) }
{
    let reported = NothingReported {
        asked,
        old,
        new,
        all,
    };
    let found = cells(alloc, &reported)?;
    point_lines_of(alloc, found.as_slice())
}

/// A map of a table for the points of a region, with a line for each cell of a search.
///
/// # Errors
///
/// Only if memory is refused.
pub fn map_cells(
    alloc: Global,
    asked: &PointRegion,
    rules: &[Rule],
) -> Result<Vec<ChartLine>, AllocError>
    ensures { IfOk result (λ lines. IsMap asked.now rules.now lines.items) }
{
    let all = true;
    cell_lines(alloc, asked, rules, &[], all)
}

/// A comparison of two tables for the points of a region, with a line for each cell of a search.
///
/// # Errors
///
/// Only if memory is refused.
pub fn comparison_cells(
    alloc: Global,
    asked: &PointRegion,
    old: &[Rule],
    new: &[Rule],
) -> Result<Vec<ChartLine>, AllocError>
    ensures { IfOk result (λ lines. IsComparison asked.now old.now new.now lines.items) }
{
    let all = false;
    cell_lines(alloc, asked, old, new, all)
}
