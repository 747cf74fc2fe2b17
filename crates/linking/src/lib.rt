//! A link of frames that is held to its end, over any link and any target.
#![tactic(auto)]

pub mod holding;
pub mod link;

pub use holding::hold;
pub use link::{CannotTransfer, Link, LinkEnd, PendingOutput, Target};
