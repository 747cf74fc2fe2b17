//! The parts of a node as plain values, and what becomes of one command: no lock, no reader and no wait.
//!
//! [`Banks::new`] makes the banks of a [`NodeConfig`] and each port's [`PortShares`] of them. A packet goes this way:
//!
//! - Its header admits it ([`admit`]).
//! - One run of a program in the port's [`RunContext`] judges it ([`judge_by`]).
//! - It ends at a bank, at the port's staging ([`answer_staged`]), or as a load of what is staged there ([`load`]).
//!
//! What a whole packet does is said here once ([`Served`]), for whoever holds the parts. That is a node of one thread,
//! a world of schedules, or a node that threads share.
#![tactic(auto)]

mod banks;
mod config;
mod faults;
mod laws;
mod loads;
mod refusal;
mod run_context;
mod served;
mod shares;
mod slots;
mod staged;
mod step;
mod stop;

pub use banks::Banks;
pub use config::{BankConfig, NodeConfig};
pub use faults::NodeFault;
pub use laws::{
    loads_are_taken, made_are_paired, packets_keep_pairs, paired_commands_fit, pairs_stay,
    refusals_say_why, shares_agree,
};
pub use loads::{load, prepare};
pub use refusal::LoadRefusal;
pub use run_context::RunContext;
pub use served::Served;
pub use shares::PortShares;
pub use slots::slot;
pub use staged::answer_staged;
pub use step::judge_by;
pub use stop::{Stop, admit};
