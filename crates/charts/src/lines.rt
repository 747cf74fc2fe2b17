//! The lines of a chart.

ghost use Rattle.std.specs.Prelude.{◌≡◌, ◌≤◌, ◌<◌, ◌+◌, ◌-◌, ◌^◌, ◌++◌, ◌&&◌, [], MatchBool, MatchOption, drop, length, map, take};
ghost use Rattle.regions.specs.Questions.{IsShapeAt};
ghost use Rattle.regions.specs.Regions.{lies_in};
ghost use Rattle.charts.specs.Points.{tests_of};
ghost use Rattle.charts.specs.Lines.{IsNextLine, IsReportedRightly, IsReportedWrongly, has_point, have_same_words, is_left, is_reported, point_lines_of, tests_with};

use crate::decisions::are_alike;
use crate::shapes::{region_of, rule_at};
use crate::walks::has_same_path;
use policy_table::Rule;
use regions::{Point, PointQuestion, PointRegion};

/// A line of a chart: points at all of which the tables ask the same rules.
#[derive(Clone, Copy, Debug, PartialEq, Eq)]
pub struct ChartLine {
    /// Its words: the points of the line, or those of which it has the rest.
    pub region: PointRegion,
    /// Whether it has only the points that lie in none of the lines before with the same words, except addresses.
    pub rest: bool,
    /// One of its points.
    pub point: Point,
}

/// Whether two regions have the same words, except those of addresses.
pub(crate) fn have_same_words(one: &PointRegion, other: &PointRegion) -> bool
    ensures { result ≡ have_same_words one.now other.now }
{
    one.kinds.is(other.kinds)
        && (one.keys.is(&other.keys)
            && (one.initiators.is(&other.initiators) && one.extended.is(&other.extended)))
}

/// Whether another line has the point, and the same words as a line, except addresses.
fn takes(other: &ChartLine, line: &ChartLine, point: &Point) -> bool
    ensures { result
        ≡ (have_same_words other.now.region line.now.region && lies_in other.now.region point.now) }
{
    have_same_words(&other.region, &line.region) && other.region.has(point)
}

/// Whether a point lies in none of the regions of the lines with the same words.
pub(crate) fn is_left(before: &[ChartLine], line: &ChartLine, point: &Point) -> bool
    ensures { result ≡ is_left before.now line.now point.now }
{
    for other in before {
        if takes(other, line, point) {
            return false;
        }
    }
    true
}

/// Whether a line has a point.
fn has_point(before: &[ChartLine], line: &ChartLine, point: &Point) -> bool
    ensures { result ≡ has_point before.now line.now point.now }
{
    line.region.has(point) && (!line.rest || is_left(before, line, point))
}

/// A line in which a point lies, and how many lines there are up to it, itself counted.
#[derive(Clone, Copy, Debug, PartialEq, Eq)]
struct NextLine {
    line: ChartLine,
    following: usize,
}

/// The first line, from that of a number on, in which a point lies.
fn next_line(lines: &[ChartLine], from: usize, point: &Point) -> Option<NextLine>
    requires { from ≤ length lines.now }
    ensures { MatchOption result
        (point_lines_of (take from lines.now) (drop from lines.now) point.now ≡ [])
        (IsNextLine lines.now from point.now) }
{
    for number in from..lines.len() {
        let line = lines[number];
        if has_point(&lines[..number], &line, point) {
            return Some(NextLine {
                line,
                following: number + 1,
            });
        }
    }
    None
}

/// Two tables, the lines of their chart, and which of the asked points are reported.
#[derive(Drop)]
pub(crate) struct Chart<'a> {
    pub(crate) asked: &'a PointRegion,
    pub(crate) old: &'a [Rule],
    pub(crate) new: &'a [Rule],
    pub(crate) lines: &'a [ChartLine],
    pub(crate) all: bool,
}

/// Whether a point lies in only one line, with the courses of the tables there; or in none, if it is not to be
/// reported.
fn is_reported_rightly(
    reported: bool,
    old: &[Rule],
    new: &[Rule],
    lines: &[ChartLine],
    point: &Point,
) -> bool
    ensures { MatchBool result (IsReportedRightly reported old.now new.now lines.now point.now)
        (IsReportedWrongly reported old.now new.now lines.now point.now) }
{
    let Some(next) = next_line(lines, 0, point) else {
        return !reported;
    };
    if !reported || next_line(lines, next.following, point).is_some() {
        return false;
    }
    has_same_path(old, point, &next.line.point) && has_same_path(new, point, &next.line.point)
}

/// The points of the rule of that number, or else of the line, which come after all rules.
fn rule_or_line(
    old: &[Rule],
    new: &[Rule],
    lines: &[ChartLine],
    number: usize,
) -> Option<PointRegion>
    ensures { MatchOption result
        (length (tests_of (old.now ++ new.now) ++ map (λ line. lies_in line.region) lines.now) ≤ number)
        (IsShapeAt (tests_of (old.now ++ new.now) ++ map (λ line. lies_in line.region) lines.now) number) }
{
    if let Some(rule) = rule_at(old, new, number) {
        return Some(region_of(&rule));
    }
    let number = number - old.len() - new.len();
    if number < lines.len() {
        return Some(lines[number].region);
    }
    None
}

impl PointQuestion for Chart<'_> {
    ghost tests = { λ q. tests_with q.asked.now q.old.now q.new.now q.lines.now };

    ghost holds = { λ q p.
        IsReportedRightly (is_reported q.asked.now q.all q.old.now q.new.now p) q.old.now q.new.now q.lines.now p };

    ghost fails = { λ q p.
        IsReportedWrongly (is_reported q.asked.now q.all q.old.now q.new.now p) q.old.now q.new.now q.lines.now p };

    fn shape(&self, number: usize) -> Option<PointRegion> {
        if number == 0 {
            return Some(*self.asked);
        }
        rule_or_line(self.old, self.new, self.lines, number - 1)
    }

    fn passes(&self, _number: usize) -> bool {
        false
    }

    fn ask(&self, point: &Point) -> bool {
        let reported = self.asked.has(point) && (self.all || !are_alike(self.old, self.new, point));
        is_reported_rightly(reported, self.old, self.new, self.lines, point)
    }
}
