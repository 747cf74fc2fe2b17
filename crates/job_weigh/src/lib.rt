//! The job of `rmapctl` that prints what a run of a program costs at most.
#![tactic(auto)]

pub mod times;
pub mod weigh;
