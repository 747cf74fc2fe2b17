//! A node: what becomes of a packet, from its bytes to its reply (ECSS-E-ST-50-52C).
//!
//! A packet goes two steps:
//!
//! - [`judge`] admits it ([`admit`](node_parts::admit)). It takes the program that the port's reader is shown in the
//!   slot of its place ([`slot`](node_parts::slot)) and runs it ([`judge_by`](node_parts::judge_by)).
//! - [`finish`] applies the verdict to the bank that it names, or [`stage`] to the port's own staging, or [`load`]
//!   publishes the program that is staged.
//!
//! [`Node`] has locks round its banks and its publisher, so that each port may have its thread. The lock of a bank is
//! held only round [`finish`]. What one port has of the node is its [`Pass`]. Before it is shared it is an
//! [`UnsharedNode`], into whose banks bytes may be put.
#![tactic(auto)]

mod finished;
mod loads;
mod lock;
mod node;
mod parts;
mod pass;
mod staged;
mod step;
mod unshared;

pub use annals::{Front, Line};
pub use finished::finish;
pub use loads::load;
pub use lock::BankLock;
pub use node::Node;
pub use node_parts::{BankConfig, NodeConfig, NodeFault};
pub use pass::Pass;
pub use publish::{Family, NodeHistory};
pub use staged::stage;
pub use step::{Step, judge};
pub use unshared::UnsharedNode;
