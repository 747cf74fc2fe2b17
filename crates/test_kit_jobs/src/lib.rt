//! Whole jobs of `rmapctl` over files in memory, for tests.
#![tactic(auto)]

mod jobs;
mod links;
mod outcomes;

pub use folders::Folder;
pub use jobs::{job_named, perform_in};
pub use links::{RECEIVED, Wire};
pub use outcomes::{LOCKED, folder_of, judged, printed};
