//! The jobs `map` and `compare` of `rmapctl`: what a policy table decides of all commands, and where two decide differently.
#![tactic(auto)]

pub mod asking;
pub mod compare;
pub mod map;
mod markdown;
pub mod missed;
mod notes;
mod packets;
mod places;
mod plain;
mod words;
