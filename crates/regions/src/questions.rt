//! Questions on all points that a command has.

ghost use Rattle.std.specs.Prelude.{◌≡◌, ◌≤◌, ◌<◌, ◌^◌, Bool, List, MatchBool, MatchOption, length};
ghost use Rattle.regions.specs.Questions.{HoldsAll, HoldsOn, HoldsWhere, IsCutBy, IsFound, IsSettledBy, IsShapeAt, IsUnderWay};
ghost use Rattle.regions.specs.declared.points.Point.{Point};
ghost use Rattle.regions.specs.declared.regions.PointRegion.{PointRegion};

use crate::points::Point;
use crate::regions::PointRegion;
use crate::sides::{SIDES, side_of};

/// A question on a point, whose answer is the same at all points at which some tests have the same outcomes.
pub trait PointQuestion {
    /// The tests that settle it.
    ghost tests: { Self → List (Point → Bool) };

    /// The property of a point at which the answer is yes.
    ghost holds: { Self → Point → Type 0 };

    /// The property of a point at which the answer is no.
    ghost fails: { Self → Point → Type 0 };

    /// The points at which the test of that number, from 0 on, has the outcome true.
    fn shape(&self, number: usize) -> Option<PointRegion>
        ensures { MatchOption result (length (tests self.now) ≤ number)
            (IsShapeAt (tests self.now) number) };

    /// Whether the answer is yes wherever the test of that number has the outcome true, as far as is known. A search
    /// does not look further there.
    fn passes(&self, number: usize) -> bool
        ensures { MatchBool result (HoldsWhere (tests self.now) (holds self.now) number) (Unit {0}) };

    /// The answer at a point.
    fn ask(&self, point: &Point) -> bool
        ensures { MatchBool result (holds self.now point.now) (fails self.now point.now) };
}

/// A point of a region at which the answer is no. Each test before that of a number has one outcome at all points of
/// the region. While sides are left, the points meet the conditions of its shape, except the last `left` ones.
///
/// It calls itself on what is outside of a side, and goes on with what is inside by itself. A region is cut by a shape
/// only if some command has a point of both. So what is outside has fewer kinds, bytes of one field or addresses of one
/// stretch, counted as far as shapes separate them. The calls are at most as deep as there are edges of shapes, and one
/// more.
///
/// Kinds have two edges. The shapes of rules and of the lines of their chart separate what the rules do. A rule adds at
/// most seven edges: one for each of its three bytes, and its first and its last address in either stretch. Two tables
/// have at most 24 rules, so 170 edges.
fn search_from<Q: PointQuestion>(
    question: &Q,
    region: &PointRegion,
    number: usize,
    shape: &PointRegion,
    left: u8,
) -> Option<Point>
    requires few { length (Q.tests question.now) < 2 ^ 64 }
    requires sides { left ≤ SIDES }
    requires settled { IsSettledBy (Q.tests question.now) (Q.holds question.now) }
    requires cut { IsCutBy (Q.tests question.now) number region.now }
    requires under_way { IsUnderWay (Q.tests question.now) number shape.now left region.now }
    ensures { MatchOption result (HoldsOn (Q.holds question.now) region.now)
        (IsFound (Q.fails question.now)) }
{
    let mut part = *region;
    let mut at = number;
    let mut cutter = *shape;
    let mut sides = left;
    'cuts: loop {
        let Some(point) = part.witness() else {
            return None;
        };
        if sides == 0 {
            let Some(next) = question.shape(at) else {
                return if question.ask(&point) {
                    None
                } else {
                    Some(point)
                };
            };
            if part.is_within(&next) {
                if question.passes(at) {
                    return None;
                }
                at += 1;
                continue 'cuts;
            }
            if !part.may_meet(&next) {
                at += 1;
                continue 'cuts;
            }
            cutter = next;
            sides = SIDES;
            continue 'cuts;
        }
        let (inside, outside) = part.cut(&cutter, side_of(sides));
        if let Some(found) = search_from(question, &outside, at + 1, &cutter, 0) {
            return Some(found);
        }
        part = inside;
        if sides == 1 {
            if question.passes(at) {
                return None;
            }
            sides = 0;
            at += 1;
            continue 'cuts;
        }
        sides -= 1;
    }
}

/// A point of a region that a command has and at which the answer is no, or `None` if it is yes at each.
pub fn search_in<Q: PointQuestion>(question: &Q, region: &PointRegion) -> Option<Point>
    requires few { length (Q.tests question.now) < 2 ^ 64 }
    requires settled { IsSettledBy (Q.tests question.now) (Q.holds question.now) }
    ensures { MatchOption result (HoldsOn (Q.holds question.now) region.now)
        (IsFound (Q.fails question.now)) }
{
    search_from(question, region, 0, region, 0)
}

/// A point that a command has at which the answer is no, or `None` if it is yes at each.
pub fn search<Q: PointQuestion>(question: &Q) -> Option<Point>
    requires few { length (Q.tests question.now) < 2 ^ 64 }
    requires settled { IsSettledBy (Q.tests question.now) (Q.holds question.now) }
    ensures { MatchOption result (HoldsAll (Q.holds question.now))
        (IsFound (Q.fails question.now)) }
{
    let whole = PointRegion::whole();
    search_from(question, &whole, 0, &whole, 0)
}
