//! A load from its packets to its verdict: what an initiator sends, at a node of one thread that lets it pass.
//!
//! Nothing here is for a program. [`loads_are_reported`] is the law, and the others say what it needs.
#![tactic(auto)]

mod laws;

pub use laws::{control_data_are_read, loads_are_reported};
