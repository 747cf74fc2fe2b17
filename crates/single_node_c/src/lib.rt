//! A node of one thread as C programs call it: `include/sandbarstove.h` declares what is exported here.
//!
//! C keeps a [`Handle`](handle::Handle), which points to the node, and structs of numbers cross beside it. Each call
//! answers a code: 0, or why it did nothing.
#![tactic(auto)]

mod codes;
mod findings;
mod framed;
mod handle;
mod held;
mod journals;
mod lists;
mod memory;
mod numbers;
mod opening;
mod parts;
mod publishing;
mod scrubbing;
mod serving;
mod unfit;
mod version;
mod words;
