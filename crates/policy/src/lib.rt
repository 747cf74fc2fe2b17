//! Policy tables as programs: [`compile`] makes a program that decides as the table does (ECSS-E-ST-50-52C,
//! authorisation).
//!
//! A [`Table`] is read from text, one [`Rule`] a line. [`Table::decide`] says what it means for the header of a
//! command. Both are in the crate `policy_table`, which does not know programs.
#![tactic(auto)]

mod blocks;
mod code;
mod compiler;
mod insns;

pub use compiler::{compile, compile_policy};
pub use policy_table::{
    Counts, Match, Mismatch, OtherByte, Passed, Policy, PolicyFault, PortRule, Rule, RuleKind,
    Table, TableVersion, TextFault, decisions, headers_have_fields, table_is_unambiguous,
};
