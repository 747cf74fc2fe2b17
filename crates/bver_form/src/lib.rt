//! The form of a program that can be verified: which instructions are allowed at which slots. It says nothing of the
//! values that they work on. Here is also what a verifier of values must keep count of: the slots to which a program
//! jumps, and the registers of its loops.
#![tactic(auto)]

mod ending;
mod facts;
mod form;
mod jumps;
mod laws;
mod loops;
mod lowered;
mod refusal;
mod support;
mod targets;

pub use facts::{SLOTS, SlotFacts, no_facts};
pub use form::{check, check_with};
pub use jumps::landing;
pub use laws::{first_faults, loops_are_counted};
pub use lowered::Lowered;
pub use refusal::{Refusal, Refused};
pub use targets::{NOWHERE, kept_slots, number_slots};
