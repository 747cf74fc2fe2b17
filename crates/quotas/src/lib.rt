//! What a limit of a policy table promises of a whole node.
//!
//! A rule of a policy table may draw a ticket of a counter cell, and match only if that is below its limit
//! ([`policy::Quota`]). The laws of this crate say how many commands such rules match, whatever their verdict, over all
//! ports and all the programs that judge there:
//!
//! - [`quotas_hold`]: in every lawful history of a node.
//! - [`quotas_hold_alone`]: in all that is done to a node of one thread.
//! - [`quotas_hold_in_threads`]: in all that threads serve at a node.
//!
//! They say nothing of how many commands pass: a later rule may let more pass.
#![tactic(auto)]

mod laws;

pub use laws::{quotas_hold, quotas_hold_alone, quotas_hold_in_threads};
