//! The programs of a node as plain values: what was published, what a slot shows of it, and where the bytes of a
//! program are before it is published.
//!
//! A list of [`Publish`]es says which program judges at each of four slots: the last that was published for it, and the
//! factory program if there is none. [`ProgramVersion`] is what a slot has of that, and [`published_programs`] says how the list
//! and its slots go on. A [`ProgramStore`] is what holds such a list. Nothing here waits: what threads share of a
//! node's programs is in `publish`.
#![tactic(auto)]

mod faults;
mod laws;
mod publishes;
mod shown;
mod staging;
mod store;

pub use faults::PublishFault;
pub use laws::published_programs;
pub use publishes::Publish;
pub use rmap::LAST_SLOT;
pub use shown::ProgramVersion;
pub use staging::{STAGING_BYTES, Staging};
pub use store::ProgramStore;
