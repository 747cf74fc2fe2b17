//! The node that a job runs: what the text of a node's file says of it, and what the node takes.
//!
//! The text is `configuration`: the numbers that a TOML table has, and the names of the files beside it, each fault
//! with its place. What the node takes is `own_node`: address, ports, banks with the bytes at their beginning, maps,
//! and the programs that are published before the first packet. `sources` says where the node of a job comes from: its
//! own words, or such a file. `every_fault` has all faults of a file, as text for the user.
#![tactic(auto)]

mod banks;
pub mod configuration;
pub mod contents_named;
mod every_fault;
pub mod faults;
mod keys;
mod maps;
mod names;
pub mod node_lines;
mod numbers;
pub mod own_node;
pub mod places;
pub mod reading;
pub mod sources;
mod tables;
