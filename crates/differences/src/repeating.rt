//! How often a command must come until two courses give it different verdicts: the verdicts that equal commands get one
//! after another.

use crate::decision_paths::AskedRule;
use policy_table::Quota;
use rmap::Verdict;
use std::alloc::{AllocError, Global};

/// How often a command must come until two courses give it different verdicts, if it is the first that a node judges.
#[derive(Clone, Copy, Debug, PartialEq, Eq)]
pub enum Repeats {
    /// This many times.
    Times(u128),
    /// However often it comes, its verdicts are the same.
    Draws,
}

/// Commands, one after another, that get the same verdict by one rule. They are of equal ones that are judged from
/// counters at 0.
#[derive(Clone, Copy, Debug)]
struct Span {
    /// The number of the verdict.
    verdict: u8,
    /// How many commands there are up to the last of them; `None` if there is no last.
    until: Option<u128>,
}

/// A cell from which each command after the first `from` draws a ticket.
#[derive(Clone, Copy, Debug)]
struct Drawn {
    quota: Quota,
    from: u128,
}

/// How many commands there are up to the last that gets a ticket below the limit of a quota. Each command after the
/// first `from` draws one, after other draws.
fn until(before: &[Drawn], quota: &Quota, from: u128) -> u128 {
    let mut ticket: u128 = 0;
    let mut pace: u128 = 1;
    for drawn in before {
        if drawn.quota.map == quota.map && drawn.quota.cell == quota.cell {
            ticket = ticket
                .saturating_add(from.saturating_sub(drawn.from))
                .saturating_add(1);
            pace = pace.saturating_add(1);
        }
    }
    let limit = u128::from(quota.limit);
    if ticket >= limit {
        return from;
    }
    from.saturating_add((limit - ticket - 1) / pace)
        .saturating_add(1)
}

/// The verdicts of equal commands that are judged by a course from counters at 0.
fn spans(alloc: Global, steps: &[AskedRule]) -> Result<Vec<Span>, AllocError> {
    let mut spans = Vec::new(alloc);
    let mut before = Vec::new(alloc);
    let mut from = 0;
    for step in steps {
        let verdict = step.rule.verdict.number();
        let Some(quota) = step.rule.quota else {
            spans.push(Span {
                verdict,
                until: None,
            })?;
            return Ok(spans);
        };
        let last = until(before.as_slice(), &quota, from);
        spans.push(Span {
            verdict,
            until: Some(last),
        })?;
        before.push(Drawn { quota, from })?;
        from = last;
    }
    spans.push(Span {
        verdict: Verdict::NotAuthorised.number(),
        until: None,
    })?;
    Ok(spans)
}

/// The verdict of the command after the first `before`.
fn verdict_at(spans: &[Span], before: u128) -> Option<u8> {
    for span in spans {
        if span.until.is_none_or(|until| before < until) {
            return Some(span.verdict);
        }
    }
    None
}

/// The lesser of two numbers of commands, of which there may be none.
fn lesser(one: Option<u128>, other: u128) -> u128 {
    one.map_or(other, |number| number.min(other))
}

/// How many equal commands are judged alike before one is not. It is the lesser of `before`, if the command after those
/// is judged otherwise, and of what was found.
fn found_at(found: Option<u128>, old: &[Span], new: &[Span], before: u128) -> Option<u128> {
    if verdict_at(old, before) == verdict_at(new, before) {
        return found;
    }
    Some(lesser(found, before))
}

/// The least number of commands after which one is judged otherwise, if a span of these ends there.
fn found_in(found: Option<u128>, ends: &[Span], old: &[Span], new: &[Span]) -> Option<u128> {
    let mut least = found;
    for span in ends {
        if let Some(until) = span.until {
            least = found_at(least, old, new, until);
        }
    }
    least
}

/// How often a command must come until two courses give it different verdicts.
///
/// # Errors
///
/// Only if memory is refused.
pub fn repeats_of(
    alloc: Global,
    old: &[AskedRule],
    new: &[AskedRule],
) -> Result<Repeats, AllocError> {
    let olds = spans(alloc, old)?;
    let news = spans(alloc, new)?;
    let (ones, others) = (olds.as_slice(), news.as_slice());
    let first = found_at(None, ones, others, 0);
    let after_old = found_in(first, ones, ones, others);
    match found_in(after_old, others, ones, others) {
        None => Ok(Repeats::Draws),
        Some(before) => Ok(Repeats::Times(before.saturating_add(1))),
    }
}
