//! What threads did at the ports of a node is a lawful history of it, as a schedule's is.
//!
//! A history is lawful if each outcome is the one that looking back from its place gives ([`sched`]). The laws here
//! leave out what cells answered, since each word of a cell has an order of its own. If two ports draw tickets of two
//! words in opposite orders, the tickets need have no order in common. The laws leave out nothing else. A lawful
//! history is one that is lawful apart from that, and in which cells answered what looking back gives.
//! [`one_port_is_lawful`] is the law of the only port that was served.
#![tactic(auto)]

mod laws;

pub use laws::{one_port_is_lawful, sample_is_lawful, threads_are_lawful, threads_judge_once};
