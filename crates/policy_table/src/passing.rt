//! Why the rules before the one that decides do not match.

ghost use Rattle.std.specs.Prelude.{◌≡◌, IfOk, slice_get};
ghost use Rattle.machine.specs.Memory.{header};
ghost use Rattle.policy_table.specs.Passing.{draws_after, passed_rules};

use crate::mismatches::Passed;
use crate::rules::Rule;
use machine::Call;
use std::alloc::{AllocError, Global};

/// The first draw.
fn first_text_fault(draws: &[Call]) -> Option<Call>
    ensures { result ≡ slice_get draws.now 0 }
{
    draws.get(0).copied()
}

/// The draws after those of a rule that does not match.
fn draws_after<'c>(why: &Passed, draws: &'c [Call]) -> &'c [Call]
    ensures { result.now ≡ draws_after why.now draws.now }
{
    match why {
        Passed::Unlike(_) => draws,
        Passed::Spent { .. } => match draws {
            [_, later @ ..] => later,
            [] => draws,
        },
    }
}

/// Why the first of these rules do not match a header, up to the one that does, if these are their draws, in order.
///
/// # Errors
///
/// An error if memory is refused.
pub fn passed_rules(
    alloc: Global,
    rules: &[Rule],
    front: &[u8; 4],
    tail: &[u8; 12],
    draws: &[Call],
) -> Result<Vec<Passed>, AllocError>
    ensures { IfOk result (λ all. all.items
        ≡ passed_rules rules.now (header front.now tail.now) draws.now) }
{
    let mut all = Vec::new(alloc);
    let mut left = draws;
    for rule in rules {
        let Some(why) = rule.passed(front, tail, first_text_fault(left)) else {
            return Ok(all);
        };
        left = draws_after(&why, left);
        all.push(why)?;
    }
    Ok(all)
}
