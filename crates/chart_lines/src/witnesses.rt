//! The point of a line that a row shows.

ghost use Rattle.std.specs.Prelude.{◌≡◌, ◌≤◌, ◌<◌, MatchOption, get_or, length};
ghost use Rattle.charts.specs.Lines.{have_same_words};
ghost use Rattle.charts.specs.Rests.{HasNoPointIn, IsPointIn};
ghost use Rattle.charts.specs.declared.lines.ChartLine.{ChartLine};
ghost use Rattle.chart_lines.specs.Witnesses.{AreOthers, HasNoCommand, IsLineWitness};

use charts::{ChartLine, point_in};
use regions::{Point, PointRegion};

/// The line of a place, from 0 on.
pub(crate) fn line_at(lines: &[ChartLine], place: usize) -> ChartLine
    requires { place < length lines.now }
    ensures { (d : ChartLine) → get_or lines.now place d ≡ result }
{
    lines[place]
}

/// Whether two regions have the same words, except those of addresses.
fn have_same_words(one: &PointRegion, other: &PointRegion) -> bool
    ensures { result ≡ have_same_words one.now other.now }
{
    one.kinds.is(other.kinds)
        && (one.keys.is(&other.keys)
            && (one.initiators.is(&other.initiators) && one.extended.is(&other.extended)))
}

/// The place of the first line that has the words of that of a place.
fn first_like(lines: &[ChartLine], place: usize) -> usize
    requires { place < length lines.now }
    ensures few { result ≤ place }
    ensures others { AreOthers lines.now place result }
{
    for number in 0..place {
        if have_same_words(&lines[number].region, &lines[place].region) {
            return number;
        }
    }
    place
}

/// A point of a region that the line of a place has, and some command: no line with other words takes one from it.
fn point_of(lines: &[ChartLine], place: usize, within: &PointRegion) -> Option<Point>
    requires { place < length lines.now }
    ensures { MatchOption result (HasNoPointIn lines.now place within.now)
        (IsPointIn lines.now place within.now) }
{
    if !lines[place].rest {
        return point_in(lines, place, within);
    }
    let start = first_like(lines, place);
    let (_others, following) = lines.split_at(start);
    point_in(following, place - start, within)
}

/// A point of the line of that place that a command has, if there is one.
pub(crate) fn some_point(lines: &[ChartLine], place: usize) -> Option<Point>
    requires { place < length lines.now }
    ensures { MatchOption result (HasNoCommand lines.now place) (IsLineWitness lines.now place) }
{
    let whole = PointRegion::whole();
    point_of(lines, place, &whole)
}

/// The same: one of the first of these regions that has one, if any of them has.
#[tactic(auto, using(crate::proofs::WitnessPoints::found_witness))]
pub(crate) fn witness(lines: &[ChartLine], place: usize, preferred: &[PointRegion]) -> Option<Point>
    requires { place < length lines.now }
    ensures { MatchOption result (HasNoCommand lines.now place) (IsLineWitness lines.now place) }
{
    for within in preferred {
        if let Some(point) = point_of(lines, place, within) {
            return Some(point);
        }
    }
    some_point(lines, place)
}
