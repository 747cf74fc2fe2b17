//! What the jobs of `rmapctl` share: files and what is read of them, the words of a command line, and faults and what
//! is printed of them. Besides, the lines of a text, and the program that judges.
#![tactic(auto)]

pub mod arguments;
pub mod bad_lines;
pub mod factory;
pub mod faults;
pub mod forms;
mod hex_blocks;
pub mod inputs;
pub mod node_codes;
pub mod options;
mod pending;
pub mod printing;
pub mod programs;
pub mod replies;
pub mod status;
pub mod stops;
pub mod storage;
pub mod turns;
pub mod two_files;
pub mod usage;
