//! How two policy tables differ at a point.
//!
//! [`course`] gives the rules that a table asks there, and [`sign_of`] says which of two courses lets more commands
//! pass. [`repeats_of`] says how often a command must come until they give it different verdicts.
#![tactic(auto)]

mod decision_paths;
mod joining;
mod laws;
mod repeating;
mod signs;

pub use decision_paths::{AskedRule, decision_path};
pub use joining::joined;
pub use laws::steps;
pub use repeating::{Repeats, repeats_of};
pub use signs::{Sign, sign_of};
