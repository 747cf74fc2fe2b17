//! How many slots the program of a table has.

ghost use Rattle.std.specs.Prelude.{◌≡◌, ◌≤◌, ◌-◌, ◌^◌, min};
ghost use Rattle.policy_table.specs.Slots.{asks_ports, field_slots, kind_slots, port_rule_slots, quota_slots, rule_slots, table_slots};

use crate::port_rules::PortRule;
use crate::rules::{Quota, Rule, RuleKind};

/// The slots before and after the rules.
const OTHER_SLOTS: usize = 16;

/// How many slots a test of the kind has.
pub fn kind_slots(kind: RuleKind) -> u8
    ensures slots { result ≡ kind_slots kind }
    ensures few { result ≤ 3 }
{
    match kind {
        RuleKind::Any => 0,
        RuleKind::Read | RuleKind::Write | RuleKind::Rmw => 3,
    }
}

/// How many slots a test of the field has.
pub fn field_slots(field: Option<u8>) -> u8
    ensures slots { result ≡ field_slots field }
    ensures few { result ≤ 2 }
{
    if field.is_some() { 2 } else { 0 }
}

/// How many slots a test of the quota has: the load of a map has two.
pub fn quota_slots(quota: Option<Quota>) -> u8
    ensures slots { result ≡ quota_slots quota }
    ensures few { result ≤ 5 }
{
    if quota.is_some() { 5 } else { 0 }
}

/// How many slots a rule has without the test of its port: its tests, four for the range, and two for the verdict.
pub fn rule_slots(rule: &Rule) -> u8
    ensures slots { result ≡ rule_slots rule.now }
    ensures few { result ≤ 20 }
{
    kind_slots(rule.kind)
        + field_slots(rule.key)
        + field_slots(rule.initiator)
        + field_slots(rule.extended)
        + 4
        + quota_slots(rule.quota)
        + 2
}

/// How many slots a rule has, with the test of its port.
pub fn port_rule_slots(own: &PortRule) -> u8
    ensures slots { result ≡ port_rule_slots own.now }
    ensures few { result ≤ 22 }
{
    field_slots(own.port) + rule_slots(&own.rule)
}

/// Whether a rule asks the port.
pub fn asks_ports(rules: &[PortRule]) -> bool
    ensures { result ≡ asks_ports rules.now }
{
    rules.iter().any(|own| own.port.is_some())
}

/// How many slots the program of a table of these rules has: those of its rules, and sixteen before and after them. If
/// a rule asks the port, one more puts the port on the stack. If there are more than the greatest number, it is that
/// number.
pub fn table_slots(rules: &[PortRule]) -> usize
    ensures { result ≡ min (table_slots rules.now) (2 ^ 64 - 1) }
{
    let mut slots = if asks_ports(rules) {
        OTHER_SLOTS + 1
    } else {
        OTHER_SLOTS
    };
    for own in rules {
        slots = slots.saturating_add(usize::from(port_rule_slots(own)));
    }
    slots
}
