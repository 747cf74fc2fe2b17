//! The rules that a table asks.

ghost use Rattle.std.specs.Prelude.{◌≡◌, IfOk};
ghost use Rattle.differences.specs.Steps.{steps_at};

use charts::holds_at;
use policy_table::Rule;
use regions::Point;
use std::alloc::{AllocError, Global};

/// A rule that a table asks.
#[derive(Clone, Copy, Debug, PartialEq, Eq)]
pub struct AskedRule {
    /// The number of the rule, from 1 on.
    pub number: usize,
    /// The rule.
    pub rule: Rule,
}

/// The rules that a table asks at a point: those that hold there, in order, up to the first without quota.
///
/// # Errors
///
/// Only if memory is refused.
pub fn decision_path(
    alloc: Global,
    rules: &[Rule],
    point: &Point,
) -> Result<Vec<AskedRule>, AllocError>
    ensures { IfOk result (λ steps. steps.items ≡ steps_at rules.now point.now) }
{
    let mut steps = Vec::new(alloc);
    let mut number = 0;
    for rule in rules {
        number += 1;
        if holds_at(rule, point) {
            steps.push(AskedRule {
                number,
                rule: *rule,
            })?;
            if rule.quota.is_none() {
                return Ok(steps);
            }
        }
    }
    Ok(steps)
}
