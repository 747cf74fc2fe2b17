//! The job `suite` of `rmapctl`: packet lines that try a target, each under the line of the order of checks that it meets.
#![tactic(auto)]

mod bodies;
pub mod candidates;
mod charted;
pub mod checks;
pub mod comings;
mod effects;
mod headers;
mod index;
pub mod judges;
mod maker;
mod pairs;
mod places;
pub mod ranges;
pub mod reach;
pub mod rows;
mod search;
mod seen;
pub mod suite;
mod tables;
pub mod trials;
mod window_rows;
pub mod words;
