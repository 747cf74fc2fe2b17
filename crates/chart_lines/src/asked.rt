//! The rules that a table asks at a port.

ghost use Rattle.std.specs.Prelude.{◌≡◌, All, IfOk};
ghost use Rattle.charts.specs.Alike.{HasLimit};
ghost use Rattle.chart_lines.specs.AskedTables.{asked_at};

use policy_table::{Policy, Rule, Table};
use std::alloc::{AllocError, Global};
use std::marker::Model;

/// The rules of a table that are asked at a port, and their lines.
#[derive(Drop)]
pub struct AskedRules {
    port: u8,
    table: Table,
    lines: Vec<usize>,
}

impl Model for AskedRules {
    ghost use Rattle.chart_lines.specs.AskedTables.{AskedValue, asked};

    ghost Value = { AskedValue };

    ghost view = { λ a. asked a.port a.table a.lines.items };
}

impl AskedRules {
    /// The rules that a table asks at a port.
    ///
    /// # Errors
    ///
    /// Only if memory is refused.
    pub fn at(alloc: Global, policy: &Policy, port: u8) -> Result<AskedRules, AllocError>
        ensures { IfOk result (λ at. at ≡ asked_at policy.now port) }
    {
        let table = policy.table_at(alloc, port)?;
        let lines = policy.lines_at(alloc, port)?;
        Ok(AskedRules { port, table, lines })
    }

    /// The rules that are asked there, in order.
    #[tactic(auto, using(crate::proofs::Limits::limited))]
    pub fn rules(&self) -> &[Rule]
        ensures rules { result.now ≡ self.now.rules }
        ensures limits { All HasLimit self.now.rules }
    {
        self.table.rules()
    }

    /// Their lines.
    pub(crate) fn lines(&self) -> &[usize]
        ensures { result.now ≡ self.now.lines }
    {
        self.lines.as_slice()
    }
}
