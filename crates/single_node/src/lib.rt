//! A node of one thread: what becomes of a packet (ECSS-E-ST-50-52C), with no lock, no reader and no wait.
//!
//! [`SingleNode`] has the plain parts of `node_parts`: the banks, four slots of programs, and what each port has. So
//! its theorem says more than that of a port of threads: the last program that was published for its slot judges a
//! command. The list of what was published exists only in proofs.
#![tactic(auto)]

mod context;
mod lists;
mod node;
mod owned;
mod places;
mod port;
mod programs;
mod publishing;
mod served;
mod windows;

pub use node::SingleNode;
pub use served::ServedDetail;
