//! Charts, piece by piece, so that each search looks at few lines.

ghost use Rattle.std.specs.Prelude.{◌≡◌, ◌≤◌, ◌<◌, ◌+◌, ◌-◌, ◌^◌, MatchBool, length};
ghost use Rattle.charts.specs.Pieces.{IsPiece, LieWithin};

use crate::lines::{Chart, ChartLine};
use policy_table::Rule;
use regions::{PointRegion, Side, search_in};

/// How many sides cut a chart into pieces: the kinds, and the bytes of three fields.
pub const FIELDS: u8 = 4;

/// Whether the points of each line lie in a region.
fn lie_within(lines: &[ChartLine], asked: &PointRegion) -> bool
    ensures { MatchBool result (LieWithin asked.now lines.now) (Unit {0}) }
{
    for place in 0..lines.len() {
        if !lines[place].region.is_within(asked) {
            return false;
        }
    }
    true
}

/// Whether lines are the chart of the points of a region, and lie in it, by one search.
fn is_piece(asked: &PointRegion, all: bool, old: &[Rule], new: &[Rule], lines: &[ChartLine]) -> bool
    requires { length old.now + length new.now + length lines.now < 2 ^ 64 - 1 }
    ensures { MatchBool result (IsPiece asked.now all old.now new.now lines.now) (Unit {0}) }
{
    if !lie_within(lines, asked) {
        return false;
    }
    search_in(
        &Chart {
            asked,
            old,
            new,
            lines,
            all,
        },
        asked,
    )
    .is_none()
}

/// The side that cuts a chart if this many are left, itself counted.
fn field_of(left: u8) -> Side {
    match left {
        4 => Side::Kind,
        3 => Side::Key,
        2 => Side::Initiator,
        _ => Side::Extended,
    }
}

/// Whether two regions have the same values of a field.
fn has_same(side: Side, one: &PointRegion, other: &PointRegion) -> bool {
    match side {
        Side::Kind => one.kinds == other.kinds,
        Side::Key => one.keys == other.keys,
        Side::Initiator => one.initiators == other.initiators,
        Side::Extended => one.extended == other.extended,
        Side::FirstFrom | Side::FirstBefore | Side::LastFrom | Side::LastBefore => false,
    }
}

/// How many lines, the first ones, have the values of a field that a region has; one at least.
fn run_of(lines: &[ChartLine], side: Side, own: &PointRegion) -> usize
    requires { 0 < length lines.now }
    ensures some { 0 < result }
    ensures few { result ≤ length lines.now }
{
    let place = lines
        .iter()
        .position(|line| !has_same(side, &line.region, own));
    place.unwrap_or(lines.len()).max(1)
}

/// Whether lines are the chart of the points of a region, and lie in it. It looks at lines with the same values of a
/// field by themselves, as at the points that have one of these values. It has `left` fields to cut by, the last ones.
///
/// It calls itself once for each field.
pub fn is_in_pieces(
    asked: &PointRegion,
    all: bool,
    old: &[Rule],
    new: &[Rule],
    lines: &[ChartLine],
    left: u8,
) -> bool
    requires { length old.now + length new.now + length lines.now < 2 ^ 64 - 1 }
    ensures { MatchBool result (IsPiece asked.now all old.now new.now lines.now) (Unit {0}) }
{
    if left == 0 {
        return is_piece(asked, all, old, new, lines);
    }
    let side = field_of(left);
    let mut rest = *asked;
    let mut following = lines;
    'groups: loop {
        if following.is_empty() {
            return is_piece(&rest, all, old, new, following);
        }
        let own = following[0].region;
        let (group, others) = following.split_at(run_of(following, side, &own));
        let (inside, outside) = rest.cut(&own, side);
        if !is_in_pieces(&inside, all, old, new, group, left - 1) {
            return false;
        }
        rest = outside;
        following = others;
    }
}
