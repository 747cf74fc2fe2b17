//! The ports of which charts are made.

ghost use Rattle.std.specs.Prelude.{◌≡◌, ◌++◌, IfOk, OnOk};
ghost use Rattle.chart_lines.specs.Ports.{are_named, is_charted, names_port, one_if, ports_for, stands_for};

use policy_table::Policy;
use std::alloc::{AllocError, Global};

/// How many ports there are.
pub const PORTS: u8 = 32;

/// One table, or two that are compared.
#[derive(Clone, Copy)]
pub enum Tables<'a> {
    /// A table.
    One(&'a Policy),
    /// An old table, and a new one.
    Two(&'a Policy, &'a Policy),
}

impl Tables<'_> {
    /// Whether a rule names the port.
    fn name_port(self, port: u8) -> bool
        ensures { result ≡ names_port self.entry port }
    {
        match self {
            Tables::One(table) => table.names_port(port),
            Tables::Two(old, new) => old.names_port(port) || new.names_port(port),
        }
    }

    /// Whether rules name each port below that one.
    fn name_below(self, port: u8) -> bool
        ensures { result ≡ are_named (λ own. names_port self.entry own) port }
    {
        let mut are_named = true;
        for below in 0..port {
            are_named = are_named && self.name_port(below);
        }
        are_named
    }

    /// Whether a chart of the port is made: a rule names it, or it is the first that none names.
    pub fn chart_port(self, port: u8) -> bool
        ensures { result ≡ is_charted (λ own. names_port self.entry own) port }
    {
        self.name_port(port) || self.name_below(port)
    }

    /// Whether the chart of a port holds at another: at itself, and, if no rule names the port, at all such ports.
    fn stand_for(self, own: u8, port: u8) -> bool
        ensures { result ≡ stands_for (λ own. names_port self.entry own) own port }
    {
        if self.name_port(port) {
            own == port
        } else {
            !self.name_port(own)
        }
    }
    /// The ports at which the chart of a port holds.
    pub(crate) fn ports_for(self, alloc: Global, own: u8) -> Result<Vec<u8>, AllocError>
        ensures { IfOk result (λ ports. ports.items
            ≡ ports_for (λ p. names_port self.entry p) own) }
    {
        let mut ports = Vec::new(alloc);
        for port in 0..PORTS {
            push_if(&mut ports, self.stand_for(own, port), port)?;
        }
        Ok(ports)
    }
}

/// Adds a port, if it is wanted.
fn push_if(ports: &mut Vec<u8>, wanted: bool, port: u8) -> Result<(), AllocError>
    ensures { OnOk result (ports.new.items ≡ ports.old.items ++ one_if wanted port) }
{
    if wanted {
        ports.push(port)?;
    }
    Ok(())
}
