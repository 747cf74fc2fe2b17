//! The tables of single ports.

ghost use Rattle.std.specs.Prelude.{◌≡◌, All, IfOk, length};
ghost use Rattle.policy_table.specs.Limits.{FitsFields};
ghost use Rattle.policy_table.specs.Meaning.{agrees};
ghost use Rattle.policy_table.specs.PortTables.{UnnamedPortsAreAlike, is_named, is_port, lines_at};
ghost use Rattle.policy_table.specs.Ports.{FitsPort, rules_at};

use crate::policies::Policy;
use crate::port_rules::PortRule;
use crate::rules::Rule;
use crate::tables::Table;
use std::alloc::{AllocError, Global};

/// At all ports that no rule names the same rules are asked. This function does nothing; its contract is the law.
pub fn unnamed_ports_are_alike()
    ensures { UnnamedPortsAreAlike }
{}

/// Whether a rule with this port, or with none, is asked at a port.
fn agrees(wanted: Option<u8>, port: u8) -> bool
    ensures { result ≡ agrees wanted port }
{
    match wanted {
        None => true,
        Some(wanted) => wanted == port,
    }
}

/// Whether the port of a rule is this one.
fn is_port(own: Option<u8>, port: u8) -> bool
    ensures { result ≡ is_port own port }
{
    match own {
        None => false,
        Some(own) => port == own,
    }
}

/// The rules that are asked at a port, in order.
fn rules_at(alloc: Global, rules: &[PortRule], port: u8) -> Result<Vec<Rule>, AllocError>
    requires { All FitsPort rules.now }
    ensures rules { IfOk result (λ all. all.items ≡ rules_at port rules.now) }
    ensures fit { IfOk result (λ all. All FitsFields all.items) }
{
    let mut all = Vec::new(alloc);
    for own in rules {
        if agrees(own.port, port) {
            all.push(own.rule)?;
        }
    }
    Ok(all)
}

/// The numbers of the lines of the rules that are asked at a port, in order.
fn lines_at(alloc: Global, rules: &[PortRule], port: u8) -> Result<Vec<usize>, AllocError>
    ensures { IfOk result (λ all. all.items ≡ lines_at port rules.now) }
{
    let mut all = Vec::new(alloc);
    for own in rules {
        if agrees(own.port, port) {
            all.push(own.line)?;
        }
    }
    Ok(all)
}

/// Whether a rule names a port.
fn is_named(rules: &[PortRule], port: u8) -> bool
    ensures { result ≡ is_named port rules.now }
{
    for own in rules {
        if is_port(own.port, port) {
            return true;
        }
    }
    false
}

impl Policy {
    /// The table of a port: the rules that are asked there, in order.
    ///
    /// # Errors
    ///
    /// An error if memory is refused.
    pub fn table_at(&self, alloc: Global, port: u8) -> Result<Table, AllocError>
        ensures { IfOk result (λ table. table ≡ rules_at port self.now.rules) }
    {
        let rules = rules_at(alloc, self.rules(), port)?;
        Ok(Table::of_rules(rules))
    }

    /// The numbers of the lines of the rules that are asked at a port, in order.
    ///
    /// # Errors
    ///
    /// An error if memory is refused.
    #[tactic(auto, using(crate::proofs::PortTables::lines_each))]
    pub fn lines_at(&self, alloc: Global, port: u8) -> Result<Vec<usize>, AllocError>
        ensures lines { IfOk result (λ lines. lines.items ≡ lines_at port self.now.rules) }
        ensures each { IfOk result (λ lines.
            length lines.items ≡ length (rules_at port self.now.rules)) }
    {
        lines_at(alloc, self.rules(), port)
    }

    /// Whether a rule names a port. At all other ports the same rules are asked ([`unnamed_ports_are_alike`]).
    pub fn names_port(&self, port: u8) -> bool
        ensures { result ≡ is_named port self.now.rules }
    {
        is_named(self.rules(), port)
    }
}
