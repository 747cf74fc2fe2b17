//! Rules that never match.

ghost use Rattle.std.specs.Prelude.{◌≡◌, ◌<◌, ◌^◌, [], All, MatchBool, false, length};
ghost use Rattle.regions.specs.Points.{HasCommand};
ghost use Rattle.regions.specs.Regions.{lies_in};
ghost use Rattle.regions.specs.declared.points.Point.{Point};
ghost use Rattle.charts.specs.Alike.{HasLimit, held};
ghost use Rattle.charts.specs.Deciders.{DecidesWithinLimits, Matches, NeverDecides, NeverMatches, StopsBefore, has_room_to_decide, may_decide};
ghost use Rattle.charts.specs.Meetings.{rule_holds_of};
ghost use Rattle.charts.specs.Points.{tests_of};

use crate::decisions::holds_at;
use crate::leasts::least_ticket;
use crate::shapes::region_of;
use policy_table::{Quota, Rule};
use regions::{Point, PointQuestion, PointRegion, search_in};

/// Whether a rule that holds may decide, after rules of which those that hold did not match.
fn has_room_to_decide(quota: Option<Quota>, before: &[Rule], point: &Point) -> bool
    ensures { result ≡ has_room_to_decide quota (held point.now before.now) }
{
    match quota {
        None => true,
        Some(quota) => least_ticket(before, point, &quota) < u64::from(quota.limit),
    }
}

/// Whether the rule of that place, from 0 on, decides at a point for some tickets.
fn may_decide(rules: &[Rule], place: usize, point: &Point) -> bool
    ensures { result ≡ may_decide [] place rules.now point.now }
{
    for number in 0..rules.len() {
        let rule = &rules[number];
        let holds = holds_at(rule, point);
        if number == place {
            return holds && has_room_to_decide(rule.quota, &rules[..number], point);
        }
        if holds && rule.quota.is_none() {
            return false;
        }
    }
    false
}

/// Whether the rule of a number is before a place and has no quota: if it holds, no rule after it decides.
pub(crate) fn stops_before(rules: &[Rule], number: usize, place: usize) -> bool
    ensures { MatchBool result (StopsBefore rules.now number place) (Unit {0}) }
{
    if number < place && number < rules.len() {
        return rules[number].quota.is_none();
    }
    false
}

/// The points of the rule of a place; all points, if there is none.
pub(crate) fn region_at(rules: &[Rule], place: usize) -> PointRegion
    ensures { (p : Point) → HasCommand p → lies_in result p ≡ false
        → rule_holds_of place rules.now p ≡ false }
{
    if place < rules.len() {
        return region_of(&rules[place]);
    }
    PointRegion::whole()
}

/// Whether the rule of a place never decides.
#[derive(Drop)]
struct Deciding<'a> {
    rules: &'a [Rule],
    place: usize,
}

impl PointQuestion for Deciding<'_> {
    ghost tests = { λ q. tests_of q.rules.now };

    ghost holds = { λ q. NeverDecides q.rules.now q.place };

    ghost fails = { λ q. DecidesWithinLimits q.rules.now q.place };

    fn shape(&self, number: usize) -> Option<PointRegion> {
        if number < self.rules.len() {
            return Some(region_of(&self.rules[number]));
        }
        None
    }

    fn passes(&self, number: usize) -> bool {
        stops_before(self.rules, number, self.place)
    }

    fn ask(&self, point: &Point) -> bool {
        !may_decide(self.rules, self.place, point)
    }
}

/// Whether the rule of that place, from 0 on, decides on no command, whatever tickets are drawn.
pub fn never_matches(rules: &[Rule], place: usize) -> bool
    requires limits { All HasLimit rules.now }
    ensures { MatchBool result (NeverMatches rules.now place) (Matches rules.now place) }
{
    let region = region_at(rules, place);
    search_in(&Deciding { rules, place }, &region).is_none()
}
