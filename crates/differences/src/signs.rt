//! Which of two courses lets more commands pass.

ghost use Rattle.std.specs.Prelude.{◌≡◌, ◌≤◌, ◌<◌, ◌+◌, ◌^◌, [], All, length};
ghost use Rattle.rmap.specs.Verdict.{verdict_number};
ghost use Rattle.differences.specs.Gains.{HasStepLimit, IsSign, draws_of, gains_after, least_word, may_meet, may_pass, passes, sign_with, with_draw, with_least};
ghost use Rattle.differences.specs.Steps.{rules_of};

use crate::decision_paths::AskedRule;
use charts::is_of_one_cell;
use policy_table::Quota;
use rmap::Verdict;

/// How a new course differs from an old one in the commands that pass.
#[derive(Clone, Copy, Debug, PartialEq, Eq)]
pub enum Sign {
    /// A command may pass under the new one and not under the old one, and none the other way round.
    More,
    /// A command may pass under the old one and not under the new one, and none the other way round.
    Fewer,
    /// Both.
    Both,
    /// Neither.
    Other,
}

/// Whether a verdict lets a command pass.
fn passes(verdict: Verdict) -> bool
    ensures { result ≡ passes (verdict_number verdict) }
{
    verdict.number() == Verdict::Authorised.number()
}

/// How rules that do not match use a cell.
#[derive(Clone, Copy, Debug, PartialEq, Eq)]
struct Past {
    /// How many draws of it they make.
    draws: u64,
    /// The least word with which none of them matches.
    least: u64,
}

/// How rules use the cell of a quota, with one rule more that does not match.
fn with_rule(past: Past, drawn: Option<Quota>, quota: &Quota) -> Past
    requires { past.draws < 2 ^ 63 }
    ensures draws { result.draws ≡ with_draw drawn quota.now.map quota.now.cell past.draws }
    ensures least { result.least
        ≡ with_least drawn quota.now.map quota.now.cell past.draws past.least }
    ensures few { result.draws ≤ past.draws + 1 }
    ensures low { past.least < 2 ^ 32 → result.least < 2 ^ 32 }
{
    let Some(drawn) = drawn else {
        return past;
    };
    if !is_of_one_cell(&drawn, quota) {
        return past;
    }
    Past {
        draws: past.draws + 1,
        least: past
            .least
            .max(u64::from(drawn.limit).saturating_sub(past.draws)),
    }
}

/// How the rules of a course that do not match use the cell of a quota.
fn past_of(steps: &[AskedRule], quota: &Quota) -> Past
    ensures draws { result.draws ≡ draws_of (rules_of steps.now) quota.now.map quota.now.cell }
    ensures least { result.least ≡ least_word (rules_of steps.now) quota.now.map quota.now.cell }
    ensures few { result.draws ≤ length steps.now }
    ensures low { result.least < 2 ^ 32 }
{
    let mut past = Past { draws: 0, least: 0 };
    for step in steps {
        past = with_rule(past, step.rule.quota, quota);
    }
    past
}

/// Whether a rule with this quota can match after rules that do not, if those of another course do not match.
fn may_meet(own: &[AskedRule], others: &[AskedRule], quota: Option<Quota>) -> bool
    ensures { result ≡ may_meet (rules_of own.now) (rules_of others.now) quota }
{
    let Some(quota) = quota else {
        return true;
    };
    let one = past_of(own, &quota);
    let other = past_of(others, &quota);
    one.least.max(other.least) + one.draws < u64::from(quota.limit)
}

/// Whether some rule of a new course can pass, if a rule of the old course with this quota matches after others.
fn may_pass(olds: &[AskedRule], stop: Option<Quota>, new: &[AskedRule]) -> bool
    ensures { result ≡ may_pass (rules_of olds.now) stop [] (rules_of new.now) }
{
    for number in 0..new.len() {
        let rule = &new[number].rule;
        let news = &new[..number];
        if passes(rule.verdict)
            && (may_meet(olds, news, stop) && may_meet(news, olds, rule.quota))
        {
            return true;
        }
        if rule.quota.is_none() {
            return false;
        }
    }
    false
}

/// Whether some words of the cells let a command pass under the new course and not under the old one.
fn gains(old: &[AskedRule], new: &[AskedRule]) -> bool
    ensures { result ≡ gains_after [] (rules_of old.now) (rules_of new.now) }
{
    for number in 0..old.len() {
        let rule = &old[number].rule;
        if !passes(rule.verdict) && may_pass(&old[..number], rule.quota, new) {
            return true;
        }
        if rule.quota.is_none() {
            return false;
        }
    }
    may_pass(old, None, new)
}

/// The sign if something is gained under the new course, or not, and something under the old one, or not.
fn sign_with(more: bool, fewer: bool) -> Sign
    ensures { result ≡ sign_with more fewer }
{
    if more {
        return if fewer { Sign::Both } else { Sign::More };
    }
    if fewer { Sign::Fewer } else { Sign::Other }
}

/// How a new course differs from an old one in the commands that pass, if the cells have the same words before both.
pub fn sign_of(old: &[AskedRule], new: &[AskedRule]) -> Sign
    requires old_limits { All HasStepLimit old.now }
    requires new_limits { All HasStepLimit new.now }
    ensures { IsSign result (rules_of old.now) (rules_of new.now) }
{
    let more = gains(old, new);
    let fewer = gains(new, old);
    sign_with(more, fewer)
}
