//! Who judges now: four program slots that every port reads and one publisher changes.
//!
//! [`Programs::new`] makes the [`Publisher`] and a [`Reader`] for each port. The list of publishes is a chain of the
//! node's annals. Tokens of that one history, which exists only in proofs, carry what is known of it:
//!
//! - A [`Reader`] knows a beginning of the list.
//! - [`Publisher::install`] adds to it, as a line asks, and gives how far it went then ([`Told`]).
//! - [`Reader::take`] shows the program that judges at a slot ([`Taken`]).
//! - [`Reader::tell`] lets its port know in that history what the reader knows.
#![tactic(auto)]

mod history;
mod laws;
mod loader;
mod programs;
mod publisher;
mod reader;
mod reported;
mod rule;
mod table;

pub use annals::{Family, Front, Line};
pub use history::NodeHistory;
pub use laws::readers_know_a_beginning;
pub use loader::LoadRights;
pub use node_programs::{PublishFault, Staging};
pub use programs::Programs;
pub use publisher::Publisher;
pub use reader::{Reader, Taken};
pub use reported::Told;
