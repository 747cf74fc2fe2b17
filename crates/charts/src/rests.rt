//! A point of a line.

ghost use Rattle.std.specs.Prelude.{◌≡◌, ◌<◌, ◌++◌, ◌∷◌, [], ◌&&◌, false, length, map, true, MatchOption, take};
ghost use Rattle.regions.specs.Points.{HasCommand};
ghost use Rattle.regions.specs.Regions.{lies_in};
ghost use Rattle.regions.specs.declared.points.Point.{Point};
ghost use Rattle.charts.specs.Lines.{have_same_words, is_left};
ghost use Rattle.charts.specs.Rests.{HasNoPointIn, IsPointIn, is_left_in, rest_tests};

use crate::lines::{ChartLine, have_same_words, is_left};
use regions::{Kinds, Point, PointQuestion, PointRegion, search_in};

/// The points of a region that are left for a line: they lie in no region of the lines before with the same words.
#[derive(Drop)]
struct Rest<'a> {
    before: &'a [ChartLine],
    line: &'a ChartLine,
    region: &'a PointRegion,
}

/// The points that a line takes from another that has the rest.
fn taken(other: &ChartLine, line: &ChartLine) -> PointRegion
    ensures { (p : Point) → lies_in result p
        ≡ (have_same_words other.now.region line.now.region && lies_in other.now.region p) }
{
    let mut region = other.region;
    if !have_same_words(&other.region, &line.region) {
        region.kinds = Kinds {
            read: false,
            write: false,
            rmw: false,
        };
    }
    region
}

impl PointQuestion for Rest<'_> {
    ghost tests = { λ q. rest_tests q.before.now q.line.now q.region.now };

    ghost holds = { λ q p. is_left_in q.before.now q.line.now q.region.now p ≡ false };

    ghost fails = { λ q p. is_left_in q.before.now q.line.now q.region.now p ≡ true };

    fn shape(&self, number: usize) -> Option<PointRegion> {
        if number < self.before.len() {
            return Some(taken(&self.before[number], self.line));
        }
        if number == self.before.len() {
            return Some(*self.region);
        }
        None
    }

    fn passes(&self, number: usize) -> bool {
        if number < self.before.len() {
            return true;
        }
        false
    }

    fn ask(&self, point: &Point) -> bool {
        let left = self.region.has(point) && is_left(self.before, self.line, point);
        !left
    }
}

/// A point of a region that the line of a place has, from 0 on, and some command.
pub fn point_in(lines: &[ChartLine], place: usize, within: &PointRegion) -> Option<Point>
    requires { place < length lines.now }
    ensures { MatchOption result (HasNoPointIn lines.now place within.now)
        (IsPointIn lines.now place within.now) }
{
    let line = &lines[place];
    let region = line.region.both(within);
    if !line.rest {
        return region.witness();
    }
    search_in(
        &Rest {
            before: &lines[..place],
            line,
            region: &region,
        },
        &region,
    )
}
