//! The job of `rmapctl` that says in words what packet lines say.
#![tactic(auto)]

mod other_lines;
pub mod paths;
pub mod show;
pub mod shown_lines;
