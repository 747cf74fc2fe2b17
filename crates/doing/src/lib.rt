//! What `rmapctl` does with the words of a command line over files in memory, where no thread can start.
#![tactic(auto)]

mod desk;
mod doing;
mod error_output;

pub use desk::{PageDesk, STANDARD_INPUT};
pub use doing::{Done, Left, do_words};
pub use error_output::ErrorOutput;
