//! The job of `rmapctl` that answers frames as they come.
#![tactic(auto)]

pub mod answering;
pub mod faults;
pub mod holding;
pub mod host;
