//! Where rules meet.

ghost use Rattle.std.specs.Prelude.{◌≡◌, ◌&&◌, MatchBool, false, true};
ghost use Rattle.charts.specs.Meetings.{Meet, NeverMeet, rule_holds_of, is_asked_at, meet_at};
ghost use Rattle.charts.specs.Points.{tests_of};

use crate::decisions::holds_at;
use crate::matches::{region_at, stops_before};
use crate::shapes::region_of;
use policy_table::Rule;
use regions::{Point, PointQuestion, PointRegion, search_in};

/// Whether the rule of a place is asked at a point: it holds, and none without quota before it does. If it must end the
/// course, it has no quota itself.
fn is_asked_at(rules: &[Rule], place: usize, ends: bool, point: &Point) -> bool
    ensures { result ≡ is_asked_at place ends rules.now point.now }
{
    let mut left = place;
    for rule in rules {
        let holds = holds_at(rule, point);
        if left == 0 {
            return holds && (!ends || rule.quota.is_none());
        }
        if holds && rule.quota.is_none() {
            return false;
        }
        left -= 1;
    }
    false
}

/// Whether the rule of a place holds at a point.
fn rule_holds_of(rules: &[Rule], place: usize, point: &Point) -> bool
    ensures { result ≡ rule_holds_of place rules.now point.now }
{
    let mut left = place;
    for rule in rules {
        if left == 0 {
            return holds_at(rule, point);
        }
        left -= 1;
    }
    false
}

/// Whether two rules of a table do not meet.
#[derive(Drop)]
struct Meeting<'a> {
    rules: &'a [Rule],
    asked: usize,
    ends: bool,
    place: usize,
}

impl PointQuestion for Meeting<'_> {
    ghost tests = { λ q. tests_of q.rules.now };

    ghost holds = { λ q p. meet_at q.asked q.ends q.place q.rules.now p ≡ false };

    ghost fails = { λ q p. meet_at q.asked q.ends q.place q.rules.now p ≡ true };

    fn shape(&self, number: usize) -> Option<PointRegion> {
        if number < self.rules.len() {
            return Some(region_of(&self.rules[number]));
        }
        None
    }

    fn passes(&self, number: usize) -> bool {
        stops_before(self.rules, number, self.asked)
    }

    fn ask(&self, point: &Point) -> bool {
        let meet = is_asked_at(self.rules, self.asked, self.ends, point)
            && rule_holds_of(self.rules, self.place, point);
        !meet
    }
}

/// Whether some command has a point at which one rule of a table is asked, and another holds. If `ends`, the one that
/// is asked ends the course there.
fn meet(rules: &[Rule], asked: usize, ends: bool, place: usize) -> bool
    ensures { MatchBool result (Meet asked ends place rules.now)
        (NeverMeet asked ends place rules.now) }
{
    let region = region_at(rules, asked).both(&region_at(rules, place));
    search_in(
        &Meeting {
            rules,
            asked,
            ends,
            place,
        },
        &region,
    )
    .is_some()
}

/// Whether some command has a point at which the rule of a place, from 0 on, is asked. It holds there, and no rule
/// without quota before it does.
pub fn is_asked(rules: &[Rule], place: usize) -> bool
    ensures { MatchBool result (Meet place false place rules.now)
        (NeverMeet place false place rules.now) }
{
    let ends = false;
    meet(rules, place, ends, place)
}

/// Whether some command has a point at which the rule of a place holds, and that of another is the first without quota that does.
pub fn is_stopped_by(rules: &[Rule], stop: usize, place: usize) -> bool
    ensures { MatchBool result (Meet stop true place rules.now)
        (NeverMeet stop true place rules.now) }
{
    let ends = true;
    meet(rules, stop, ends, place)
}

/// Whether some command has a point at which the rule of a place, from 0 on, is asked, and that of another holds.
pub fn is_asked_where(rules: &[Rule], asked: usize, place: usize) -> bool
    ensures { MatchBool result (Meet asked false place rules.now)
        (NeverMeet asked false place rules.now) }
{
    let ends = false;
    meet(rules, asked, ends, place)
}
