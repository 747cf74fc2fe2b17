//! Files that are kept in memory.
#![tactic(auto)]

mod folder;

pub use folder::{Folder, Sheet};
