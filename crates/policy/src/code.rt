//! The program of a table. It finds its port and its addresses, and has a block of tests and a verdict for each rule.
//! At its end is the verdict if no rule matches.

ghost use Rattle.std.specs.Prelude.{◌≡◌, ◌≤◌, ◌++◌, All, IfOk, OnOk};
ghost use Rattle.policy.specs.Code.{port_rule_code, rule_code, table_code};
ghost use Rattle.policy_table.specs.Limits.{IsLimited};
ghost use Rattle.policy_table.specs.Ports.{FitsPort};

use crate::blocks::{
    FRONT, TAIL, push_address, push_field, push_keep, push_kind, push_last_address, push_port,
    push_quota, push_range, push_verdict,
};
use bpf_insn::Insn;
use policy_table::{PortRule, Rule, asks_ports, field_slots, quota_slots, rule_slots, table_slots};
use rmap::Verdict;
use rmap::field::{EXTENDED, INITIATOR, KEY};
use std::alloc::{AllocError, Global};

/// How many slots the test of a range has.
const RANGE_SLOTS: u8 = 4;

/// How many slots a verdict has.
const VERDICT_SLOTS: u8 = 2;

/// A rule: its tests, then its verdict.
fn push_rule(insns: &mut Vec<Insn>, rule: &Rule) -> Result<(), AllocError>
    requires { IsLimited rule.now.quota }
    ensures { OnOk result (insns.new.items ≡ insns.old.items ++ rule_code rule.now) }
{
    let slots_after_range = VERDICT_SLOTS + quota_slots(rule.quota);
    let after_extended = slots_after_range + RANGE_SLOTS;
    let after_initiator = after_extended + field_slots(rule.extended);
    let after_key = after_initiator + field_slots(rule.initiator);
    let after_kind = after_key + field_slots(rule.key);
    push_kind(insns, rule.kind, after_kind)?;
    push_field(insns, rule.key, FRONT, KEY, after_key)?;
    push_field(insns, rule.initiator, TAIL, INITIATOR, after_initiator)?;
    push_field(insns, rule.extended, TAIL, EXTENDED, after_extended)?;
    push_range(insns, rule.low, rule.high, slots_after_range)?;
    push_quota(insns, rule.quota, VERDICT_SLOTS)?;
    push_verdict(insns, rule.verdict)
}

/// A rule with the test of its port, if it has one, before all its other tests: another port draws nothing.
fn push_port_rule(insns: &mut Vec<Insn>, own: &PortRule) -> Result<(), AllocError>
    requires { IsLimited own.now.rule.quota }
    ensures { OnOk result (insns.new.items ≡ insns.old.items ++ port_rule_code own.now) }
{
    push_port(insns, own.port, rule_slots(&own.rule))?;
    push_rule(insns, &own.rule)
}

/// The instructions of a table with these rules.
///
/// # Errors
///
/// Memory is refused.
pub fn table_insns(alloc: Global, rules: &[PortRule]) -> Result<Vec<Insn>, AllocError>
    requires { All FitsPort rules.now }
    ensures { IfOk result (λ insns. insns.items ≡ table_code rules.now) }
{
    let mut insns = Vec::with_capacity(alloc, table_slots(rules))?;
    push_keep(&mut insns, asks_ports(rules))?;
    push_address(&mut insns)?;
    push_last_address(&mut insns)?;
    for own in rules {
        push_port_rule(&mut insns, own)?;
    }
    push_verdict(&mut insns, Verdict::NotAuthorised)?;
    Ok(insns)
}
