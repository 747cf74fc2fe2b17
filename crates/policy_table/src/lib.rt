//! Policy tables as text and as what they mean: rules that say which verdict an application gives to a command
//! (ECSS-E-ST-50-52C, authorisation).
//!
//! A [`Table`] is read from text, one [`Rule`] a line. [`Table::decide`] says what a table means for the header of a
//! command: the tickets that it draws, and its verdict. [`Table::matched`] says by which rule it decides, and
//! [`Rule::passed`] why a rule does not match. The crate `policy` makes the program of a table.
#![tactic(auto)]

mod checks;
mod counts;
mod deciding;
mod faults;
mod fields;
mod laws;
mod lines;
mod matching;
mod mismatches;
mod partial_tables;
mod passing;
mod policies;
mod port_rules;
mod port_tables;
mod ranges;
mod refining;
mod room;
mod rules;
mod slots;
mod statement_faults;
mod statements;
mod surveys;
mod tables;
mod text_faults;
mod tickets;
mod unused;
mod versions;
mod words;

pub use counts::Counts;
pub use deciding::{agrees_with_kind, last_address};
pub use faults::PolicyFault;
pub use laws::{decisions, first_rule_matches, headers_have_fields, table_is_unambiguous};
pub use matching::Match;
pub use mismatches::{Mismatch, OtherByte, Passed};
pub use policies::{Policy, on_lines};
pub use port_rules::PortRule;
pub use port_tables::unnamed_ports_are_alike;
pub use rules::{Quota, Rule, RuleKind};
pub use slots::{
    asks_ports, field_slots, kind_slots, port_rule_slots, quota_slots, rule_slots, table_slots,
};
pub use statement_faults::StatementFault;
pub use surveys::reported_fault;
pub use tables::Table;
pub use text_faults::TextFault;
pub use unused::unused_ranges;
pub use versions::TableVersion;
pub use words::RuleWord;
