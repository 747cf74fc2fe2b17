//! The first fault of a table.

ghost use Rattle.std.specs.Prelude.{◌≡◌};
ghost use Rattle.machine.specs.Helpers.{takes_kind};
ghost use Rattle.machine.specs.Sizes.{kind_of_map};
ghost use Rattle.policy_table.specs.FirstFault.{compile_fault, quota_fault, rule_fault, rules_fault};
ghost use Rattle.policy_table.specs.Policies.{placed_rule_fault};

use crate::faults::PolicyFault;
use crate::port_rules::PortRule;
use crate::rules::{Quota, Rule};
use crate::statement_faults::StatementFault;
use crate::text_faults::TextFault;
use machine::{Helper, MapSizes};

/// The most rules of a table that is compiled, a choice. Twelve with every field and a quota have 256 of the 512 slots
/// of an image.
const MAX_RULES: usize = 12;

/// Whether tickets are drawn from cells of the map. A map that is not there counts as a counter map.
fn gives_tickets(sizes: &MapSizes, map: u8) -> bool
    ensures { result ≡ takes_kind Helper.Ticket (kind_of_map sizes.now map) }
{
    match sizes.kind(map) {
        Some(kind) => kind.takes(Helper::Ticket),
        None => true,
    }
}

/// The fault of a quota: the maps do not have its cell, or it is in a peak map.
fn quota_fault(quota: Option<Quota>, sizes: &MapSizes) -> Option<PolicyFault>
    ensures { result ≡ quota_fault sizes.now quota }
{
    let quota = quota?;
    if sizes.contains(quota.map, quota.cell) && gives_tickets(sizes, quota.map) {
        None
    } else {
        Some(PolicyFault::NoCell)
    }
}

/// The first fault of a rule.
fn rule_fault(rule: &Rule, sizes: &MapSizes) -> Option<PolicyFault>
    ensures { result ≡ rule_fault sizes.now rule.now }
{
    if rule.high < rule.low {
        Some(PolicyFault::BadRange)
    } else {
        quota_fault(rule.quota, sizes)
    }
}

/// The first fault of rules, in their order.
fn rules_fault(rules: &[Rule], sizes: &MapSizes) -> Option<PolicyFault>
    ensures { result ≡ rules_fault sizes.now rules.now }
{
    for rule in rules {
        if let Some(fault) = rule_fault(rule, sizes) {
            return Some(fault);
        }
    }
    None
}

/// The first fault of a table with these rules: that for which it is not compiled.
pub fn compile_fault(rules: &[Rule], sizes: &MapSizes) -> Option<PolicyFault>
    ensures { result ≡ compile_fault sizes.now rules.now }
{
    if rules.len() > MAX_RULES {
        Some(PolicyFault::TooLong)
    } else {
        rules_fault(rules, sizes)
    }
}

/// The fault of a rule in a table, with its place: its range ends before it begins and has no name, or its quota has no cell.
pub fn placed_rule_fault(own: &PortRule, sizes: &MapSizes) -> Option<TextFault>
    ensures { result ≡ placed_rule_fault sizes.now own.now }
{
    let line = own.line;
    if !own.named && own.rule.high < own.rule.low {
        return Some(TextFault::Line {
            line,
            fault: StatementFault::RuleOrder,
        });
    }
    let _none = quota_fault(own.rule.quota, sizes)?;
    let named = own.named;
    Some(TextFault::Line {
        line,
        fault: StatementFault::NoCell { named },
    })
}
