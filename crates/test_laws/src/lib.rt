//! Runs on which laws hold, and calls that the product does not make. What a law promises of a run is a clause of the
//! function that makes the run. A condition that no call of the product meets is met here. Tests make these runs;
//! `rmapctl` does not use this crate. A worked example of a law has a program and packets here that fit it.
#![tactic(auto)]

mod alone;
mod calls;
mod samples;
mod schedules;
mod workers;

pub use alone::{reported, served_alone, taken};
pub use calls::{fresh_cell, loads_reported, remade};
pub use samples::a_sample_is_lawful;
pub use schedules::{generation, ran};
pub use workers::accounted;
