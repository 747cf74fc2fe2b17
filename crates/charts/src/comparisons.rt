//! Where two tables decide differently.

ghost use Rattle.std.specs.Prelude.{◌≡◌, All, MatchOption, true};
ghost use Rattle.charts.specs.Alike.{DifferWithinLimits, HasLimit};
ghost use Rattle.regions.specs.Regions.{lies_in};
ghost use Rattle.charts.specs.Lines.{reported_tests};
ghost use Rattle.charts.specs.Points.{DecideAlike};
ghost use Rattle.charts.specs.Same.{AreSame, IsDifferenceIn};

use crate::decisions::alike;
use crate::reported::rule_shape;
use policy_table::Rule;
use regions::{Point, PointQuestion, PointRegion, search};

/// Whether two tables decide alike at the points of a region.
#[derive(Drop)]
struct Comparison<'a> {
    asked: &'a PointRegion,
    old: &'a [Rule],
    new: &'a [Rule],
}

impl PointQuestion for Comparison<'_> {
    ghost tests = { λ q. reported_tests q.asked.now q.old.now q.new.now };

    ghost holds = { λ q p. lies_in q.asked.now p ≡ true → DecideAlike q.old.now q.new.now p };

    ghost fails = { λ q p. (lies_in q.asked.now p ≡ true) × DifferWithinLimits q.old.now q.new.now p };

    fn shape(&self, number: usize) -> Option<PointRegion> {
        if number == 0 {
            return Some(*self.asked);
        }
        rule_shape(self.old, self.new, number - 1)
    }

    fn passes(&self, _number: usize) -> bool {
        false
    }

    fn ask(&self, point: &Point) -> bool {
        if !self.asked.has(point) {
            return true;
        }
        alike(self.old, self.new, point)
    }
}

/// The point of a command, of those of a region, that two tables decide differently, or `None` if they decide each
/// alike.
pub fn first_difference(asked: &PointRegion, old: &[Rule], new: &[Rule]) -> Option<Point>
    requires old_limits { All HasLimit old.now }
    requires new_limits { All HasLimit new.now }
    ensures { MatchOption result (AreSame asked.now old.now new.now)
        (IsDifferenceIn asked.now old.now new.now) }
{
    search(&Comparison { asked, old, new })
}
