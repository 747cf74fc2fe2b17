//! The jobs of `rmapctl` that take one packet or event after the other.
#![tactic(auto)]

pub mod events;
pub mod feeds;
pub mod full_journals;
pub mod journals;
pub mod judge;
pub mod live_node;
pub mod making;
pub mod node;
pub mod settling;
pub mod sim;
pub mod sources;
pub mod worlds;
