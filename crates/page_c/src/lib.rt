//! What `rmapctl` does over files in memory, for a host that calls the module of this crate: a page in a browser.
//!
//! The host hands over the words of a command line and files, and gets what `rmapctl` would print and write. No call keeps
//! anything, reads a file of the machine, or starts a thread.
#![tactic(auto)]

mod calls;
