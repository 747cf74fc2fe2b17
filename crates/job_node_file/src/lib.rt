//! The job of `rmapctl` that prints the node of a node's file, for a person who checks it or for a C program.
#![tactic(auto)]

mod header;
mod hex;
mod images;
pub mod node_file;
mod pool;
mod quotas;
