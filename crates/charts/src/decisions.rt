//! Whether two tables decide alike at a point.

ghost use Rattle.std.specs.Prelude.{◌≡◌, ◌≤◌, [], MatchBool, MatchOption, drop, length, take};
ghost use Rattle.charts.specs.Alike.{DifferWithinLimits, IsNextRule, alike_after, alike_said, held, same_steps, stop, stops_with};
ghost use Rattle.charts.specs.Points.{DecideAlike, holds_at};
ghost use Rattle.charts.specs.Tickets.{is_of, least_of};
ghost use Rattle.policy_table.specs.Meaning.{agrees};

use crate::leasts::{is_of_one_cell, least_ticket};
use policy_table::{Quota, Rule, agrees_with_kind};
use regions::Point;
use rmap::Verdict;

/// Whether a field agrees with a byte.
pub fn agrees(wanted: Option<u8>, byte: u8) -> bool
    ensures { result ≡ agrees wanted byte }
{
    wanted.is_none_or(|value| byte == value)
}

/// Whether the conditions of a rule hold at a point.
pub fn holds_at(rule: &Rule, point: &Point) -> bool
    ensures { result ≡ holds_at rule.now point.now }
{
    agrees_with_kind(rule.kind, point.kind)
        && agrees(rule.key, point.key)
        && agrees(rule.initiator, point.initiator)
        && agrees(rule.extended, point.extended)
        && (rule.low <= point.first && point.last <= rule.high)
}

/// A rule that holds at a point, and how many rules there are up to it, itself counted.
#[derive(Clone, Copy, Debug, PartialEq, Eq)]
struct NextRule {
    rule: Rule,
    following: usize,
}

/// The first rule, from that of a number on, that holds at a point.
fn next_held(rules: &[Rule], from: usize, point: &Point) -> Option<NextRule>
    requires { from ≤ length rules.now }
    ensures { MatchOption result (held point.now (drop from rules.now) ≡ [])
        (IsNextRule point.now rules.now from) }
{
    for number in from..rules.len() {
        let rule = rules[number];
        if holds_at(&rule, point) {
            return Some(NextRule {
                rule,
                following: number + 1,
            });
        }
    }
    None
}

/// The number of the verdict that the rules after this many give at a point without a draw.
fn stop_at(rules: &[Rule], from: usize, point: &Point) -> Option<u8>
    requires { from ≤ length rules.now }
    ensures { result ≡ stop (held point.now (drop from rules.now)) }
{
    match next_held(rules, from, point) {
        None => Some(Verdict::NotAuthorised.number()),
        Some(next) => match next.rule.quota {
            None => Some(next.rule.verdict.number()),
            Some(_) => None,
        },
    }
}

/// Whether it is this one.
fn stops_with(stop: Option<u8>, code: u8) -> bool
    ensures { result ≡ stops_with stop code }
{
    match stop {
        None => false,
        Some(own) => own == code,
    }
}

/// Whether two draws with their verdicts are the same step, if the ticket is not below the least. The rules after each
/// stop so without a draw, or do not.
fn same_steps(
    least: u64,
    one: &Quota,
    code: u8,
    other: &Quota,
    other_code: u8,
    after_one: Option<u8>,
    after_other: Option<u8>,
) -> bool
    ensures { result ≡ same_steps least one.now code other.now other_code after_one after_other }
{
    let (limit, other_limit) = (u64::from(one.limit), u64::from(other.limit));
    is_of_one_cell(one, other)
        && ((limit <= least || (other_limit <= least || code == other_code))
            && ((limit <= least.max(other_limit) || stops_with(after_other, code))
                && (other_limit <= least.max(limit) || stops_with(after_one, other_code))))
}

/// The least ticket of a cell after this many rules of each of two tables. Those of them that hold at a point drew of
/// the same cells and did not match.
fn least_of(
    old: &[Rule],
    passed: usize,
    new: &[Rule],
    new_passed: usize,
    point: &Point,
    quota: &Quota,
) -> u64
    requires old { passed ≤ length old.now }
    requires new { new_passed ≤ length new.now }
    ensures { result ≡ least_of (held point.now (take passed old.now))
        (held point.now (take new_passed new.now)) quota.now.map quota.now.cell }
{
    let one = least_ticket(&old[..passed], point, quota);
    let other = least_ticket(&new[..new_passed], point, quota);
    one.max(other)
}

/// Whether two tables decide alike at a point after this many rules of each. Those of them that hold there drew of the
/// same cells and did not match.
///
/// It calls itself once for each rule with a quota that holds, and a table has at most 12 rules.
fn alike_from(old: &[Rule], passed: usize, new: &[Rule], new_passed: usize, point: &Point) -> bool
    requires old { passed ≤ length old.now }
    requires new { new_passed ≤ length new.now }
    ensures { result ≡ alike_after (held point.now (take passed old.now))
        (held point.now (take new_passed new.now)) (held point.now (drop passed old.now))
        (held point.now (drop new_passed new.now)) }
{
    let Some(next) = next_held(old, passed, point) else {
        let stop = stop_at(new, new_passed, point);
        return stops_with(stop, Verdict::NotAuthorised.number());
    };
    let code = next.rule.verdict.number();
    let Some(quota) = next.rule.quota else {
        return stops_with(stop_at(new, new_passed, point), code);
    };
    let Some(other) = next_held(new, new_passed, point) else {
        return false;
    };
    let Some(limit) = other.rule.quota else {
        return false;
    };
    let other_code = other.rule.verdict.number();
    let least = least_of(old, passed, new, new_passed, point, &quota);
    let after_one = stop_at(old, next.following, point);
    let after_other = stop_at(new, other.following, point);
    if same_steps(
        least,
        &quota,
        code,
        &limit,
        other_code,
        after_one,
        after_other,
    ) {
        alike_from(old, next.following, new, other.following, point)
    } else {
        false
    }
}

/// Whether the rules that hold at a point are the same course in both tables, as [`alike`] tests it.
pub(crate) fn are_alike(old: &[Rule], new: &[Rule], point: &Point) -> bool
    ensures { result ≡ alike_said (held point.now old.now) (held point.now new.now) }
{
    alike_from(old, 0, new, 0, point)
}

/// Whether two tables decide alike at a point, whatever the tickets are.
pub fn alike(old: &[Rule], new: &[Rule], point: &Point) -> bool
    ensures { MatchBool result (DecideAlike old.now new.now point.now)
        (DifferWithinLimits old.now new.now point.now) }
{
    are_alike(old, new, point)
}
