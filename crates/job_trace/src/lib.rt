//! The job `trace` of `rmapctl`: the steps of the run that judged each packet, and what each of them changed.
#![tactic(auto)]

pub mod changes;
pub mod judged;
pub mod lines;
pub mod runs;
pub mod trace;
