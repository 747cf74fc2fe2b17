//! By which rule a table decides.

ghost use Rattle.std.specs.Prelude.{◌≡◌, ◌+◌, ◌≤◌, length, vec_len};
ghost use Rattle.std.specs.Vec.{vec_capacity};
ghost use Rattle.machine.specs.Memory.{header};
ghost use Rattle.policy_table.specs.Matching.{first_match};
ghost use Rattle.policy_table.specs.Walked.{IsWalked};

use crate::rules::Rule;
use crate::tickets::Tickets;
use machine::Call;
use rmap::Verdict;

/// By which rule a table decides.
#[derive(Clone, Copy, Debug, PartialEq, Eq)]
pub struct Match {
    /// The number of the first rule that matches, from 1; `None` if none does.
    pub rule: Option<usize>,
    /// The draw of this rule, if it has a quota: its answer is the ticket.
    pub ticket: Option<Call>,
    /// Its verdict; not authorised if no rule matches.
    pub verdict: Verdict,
}

/// The match of the rule of this number.
fn by_rule(rule: &Rule, number: usize, ticket: Option<Call>) -> Match
    ensures { result ≡ first_match number ticket rule.now.verdict }
{
    Match {
        rule: Some(number),
        ticket,
        verdict: rule.verdict,
    }
}

/// By which rule a table of these rules decides, if these tickets answer its draws. Each draw is appended to the calls,
/// which must have room for one draw a rule.
pub fn match_of<T: Tickets>(
    rules: &[Rule],
    front: &[u8; 4],
    tail: &[u8; 12],
    tickets: &mut T,
    calls: &mut Vec<Call>,
) -> Match
    requires { vec_len calls.old + length rules.now ≤ vec_capacity calls.old }
    ensures { IsWalked T.next T.after rules.now (header front.now tail.now)
        tickets.old tickets.new calls.old.items calls.new.items result }
{
    let mut number = 0;
    for rule in rules {
        number += 1;
        if !rule.holds(front, tail) {
            continue;
        }
        let Some(quota) = rule.quota else {
            return by_rule(rule, number, None);
        };
        let call = tickets.draw_ticket(&quota);
        calls.push_reserved(call);
        if call.answer < u64::from(quota.limit) {
            return by_rule(rule, number, Some(call));
        }
    }
    Match {
        rule: None,
        ticket: None,
        verdict: Verdict::NotAuthorised,
    }
}
