//! The jobs of `rmapctl` on texts, tables and images.
#![tactic(auto)]

pub mod asm;
pub mod checking;
pub mod dis;
pub mod images;
mod listed;
pub mod needed;
mod outputs;
pub mod policies;
pub mod verify;
