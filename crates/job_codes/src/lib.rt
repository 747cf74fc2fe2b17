//! The jobs of `rmapctl` on codes: what is to be said of each, and why a program may not judge.
#![tactic(auto)]

pub mod explain;
pub mod topics;
pub mod why;
