//! Which rules a table asks at a point.

ghost use Rattle.std.specs.Prelude.{◌≡◌, ◌≢◌, false, true};
ghost use Rattle.charts.specs.Lines.{decision_path};

use crate::decisions::holds_at;
use policy_table::Rule;
use regions::Point;

/// Whether a table asks the same rules at two points.
pub(crate) fn has_same_path(rules: &[Rule], one: &Point, other: &Point) -> bool
    ensures same { result ≡ true → decision_path rules.now one.now ≡ decision_path rules.now other.now }
    ensures other { result ≡ false → decision_path rules.now one.now ≢ decision_path rules.now other.now }
{
    for rule in rules {
        let holds = holds_at(rule, one);
        if holds != holds_at(rule, other) {
            return false;
        }
        if holds && rule.quota.is_none() {
            return true;
        }
    }
    true
}
