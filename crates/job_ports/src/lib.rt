//! The job of `rmapctl` that serves all ports at once.
#![tactic(auto)]

pub mod arrivals;
pub mod arriving;
mod own_nodes;
pub mod queues;
pub mod serve;
mod starts;
