//! Scrubbing of a node's programs: whether each program in memory is as it was published.
//!
//! A proof speaks of memory that keeps what was written to it. [`Guard`] is for memory that does not. It keeps sums of
//! the operations by which each slot's program is run, of a node of one thread that it is lent. [`GuardedNode`] holds
//! both, or only the node.
//!
//! A scrub compares the sums. If a program differs, it is made again from its image, or its slot is withdrawn. A slot
//! that is withdrawn denies each command by a general error until another program is published for it. No invariant
//! says that the sums agree, so each clause holds for any sums and any operations.
//!
//! A scrub also finds entries of journals that are not whole, and sizes that are others than they were. These it only
//! reports.
#![tactic(auto)]

mod answer;
mod counting;
mod damage;
mod guard;
mod guarded;
mod kept;
mod made;
mod op_sums;

pub use answer::ServedAnswer;
pub use counting::Counting;
pub use damage::BrokenBits;
pub use guard::{Guard, Health, ScrubFindings, Scrubbed};
pub use guarded::GuardedNode;
pub use kept::{OPEN, SlotSums};
pub use op_sums::one_change_is_seen;
