//! The job of `rmapctl` that answers packet lines as they come, and its words.
#![tactic(auto)]

pub mod answering;
pub mod asks;
pub mod cell_lines;
pub mod entries;
pub mod host;
pub mod journals;
pub mod live;
pub mod putting;
pub mod reporting;
pub mod scrub_lines;
pub mod settings;
pub mod talk;
pub mod words;
