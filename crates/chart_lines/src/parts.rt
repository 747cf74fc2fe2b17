//! The label of a point, and parts of a chart.

ghost use Rattle.std.specs.Prelude.{◌≡◌, false};
ghost use Rattle.charts.specs.Points.{DecideAlike};

use charts::{alike, holds_at};
use policy_table::Rule;
use regions::{Point, PointRegion};

/// The report on a point: the rules that the tables ask there, or nothing. Each rule has a bit by its place, which is
/// enough for a table that fits into an image.
#[derive(Clone, Copy, Debug, PartialEq, Eq)]
pub(crate) struct Label {
    /// Whether the point is reported.
    pub(crate) reported: bool,
    old: u128,
    new: u128,
}

impl Label {
    /// That nothing is reported.
    fn nothing() -> Label
        ensures { result.reported ≡ false }
    {
        Label {
            reported: false,
            old: 0,
            new: 0,
        }
    }
}

/// Two tables, the points that are asked, and whether each of them is reported, or only those at which the tables
/// differ.
#[derive(Clone, Copy)]
pub(crate) struct Tables<'a> {
    pub(crate) asked: &'a PointRegion,
    pub(crate) old: &'a [Rule],
    pub(crate) new: &'a [Rule],
    pub(crate) all: bool,
}

/// The rules that a table asks at a point, up to the first without quota: a bit for each by its place.
fn asked_bits(rules: &[Rule], point: &Point) -> u128 {
    let mut bits: u128 = 0;
    let mut bit: u128 = 1;
    for rule in rules {
        if holds_at(rule, point) {
            bits |= bit;
            if rule.quota.is_none() {
                return bits;
            }
        }
        bit <<= 1;
    }
    bits
}

impl Tables<'_> {
    /// The label of a point.
    pub(crate) fn label(&self, point: &Point) -> Label
        ensures { result.reported ≡ false → DecideAlike self.now.old.now self.now.new.now point.now }
    {
        if !self.all && alike(self.old, self.new, point) {
            return Label::nothing();
        }
        Label {
            reported: true,
            old: asked_bits(self.old, point),
            new: asked_bits(self.new, point),
        }
    }

    /// The same, if there is a point.
    pub(crate) fn label_of(&self, point: Option<Point>) -> Label {
        match point {
            Some(point) => self.label(&point),
            None => Label::nothing(),
        }
    }
}

/// The report on some points.
#[derive(Clone, Copy, Debug)]
pub(crate) struct Part {
    /// The points, or those of which it has the rest.
    pub(crate) region: PointRegion,
    /// Whether it has only the points that lie in none of the parts before.
    pub(crate) rest: bool,
    /// Their label.
    pub(crate) label: Label,
    /// One of them.
    pub(crate) point: Point,
}
