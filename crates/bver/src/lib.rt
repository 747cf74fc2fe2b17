//! The verifier: which programs may judge (RFC 9669 leaves verification to the implementation).
//!
//! [`verify`] accepts a program that has its form (`bver_form`) and that passes over its slots find right, with what
//! is known at each slot ([`absdom::State`]). The definitions are in `specs/`: `Justified` says when a program may
//! judge, `Resolved` what the regions of its accesses mean, and `Laws` that a justified program is safe.
#![tactic(auto)]

mod accepted;
mod laws;
mod passes;

pub use absdom::{Region, State};
pub use accepted::{Accepted, explain, verify};
pub use bver_form::{Refusal, Refused};
pub use bver_op::{Accessed, Code, Op};
pub use laws::{justified_programs, something_is_closed};
pub use machine::{MapSizes, TooMany};
