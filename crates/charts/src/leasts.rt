//! The tickets that a table may still get.

ghost use Rattle.std.specs.Prelude.{◌≡◌, ◌≤◌, ◌<◌, ◌+◌, ◌-◌, ◌^◌, max};
ghost use Rattle.charts.specs.Alike.{held};
ghost use Rattle.charts.specs.Tickets.{is_of, least_from, raised};

use crate::decisions::holds_at;
use policy_table::{Quota, Rule};
use regions::Point;

/// Whether two quotas are of one cell.
pub fn is_of_one_cell(one: &Quota, other: &Quota) -> bool
    ensures { result ≡ is_of one.now other.now.map other.now.cell }
{
    one.map == other.map && one.cell == other.cell
}

/// The least ticket of a quota's cell after a rule of another that holds and does not match, if it was this one before.
pub fn raised(drawn: Option<Quota>, quota: &Quota, least: u64) -> u64
    requires { least < 2 ^ 64 - 1 }
    ensures raised { result ≡ raised drawn quota.now.map quota.now.cell least }
    ensures bound { result ≤ max least (2 ^ 32) + 1 }
{
    match drawn {
        None => least,
        Some(drawn) => {
            if is_of_one_cell(&drawn, quota) {
                least.max(u64::from(drawn.limit)) + 1
            } else {
                least
            }
        }
    }
}

/// The least ticket of the cell of a quota after rules of which those that hold at a point do not match.
pub(crate) fn least_ticket(rules: &[Rule], point: &Point, quota: &Quota) -> u64
    ensures { result
        ≡ least_from 0 (held point.now rules.now) quota.now.map quota.now.cell }
{
    let mut least = 0;
    for rule in rules {
        if holds_at(rule, point) {
            least = raised(rule.quota, quota, least);
        }
    }
    least
}
