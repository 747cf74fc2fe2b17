//! One slot of the verifier's pass: what is known there, what its instruction does to that, and why it is refused.
//!
//! - A [`StateTable`] holds what is known at the slots to which a program jumps.
//! - A [`Visit`] is of one slot, and [`flow`] follows the edges of its instruction.
//! - A [`Body`] is a loop. What is known at its head is widened by what the loop writes ([`Written`]).
//!
//! The definitions are in `specs/`. `Justified` says when a program may judge, and `Heads` what holds in every pass
//! of a loop. `Visit` and `Leading` say what a visit does to the table, and `Refusals` and `Unjustified` what a
//! refusal means.
#![tactic(auto)]

mod body;
mod edges;
mod table;
mod visit;
mod written;

pub use body::Body;
pub use edges::{accessed_region, flow};
pub use table::StateTable;
pub use visit::Visit;
pub use written::Written;
