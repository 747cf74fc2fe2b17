//! What a run of an accepted program costs at most, by what an instruction of each class costs. A cost is a time in
//! nanoseconds, or one for each instruction of a class, which counts them. The result is the weight of the program by
//! these costs, which [`weigh`] computes exactly. No run of the program costs more. The definitions are in `specs/`:
//! `Classes` says which instructions are of which class, and `Weights` what the weights by class are.
#![tactic(auto)]

mod costs;
mod weighing;

pub use costs::Costs;
pub use weighing::{Weights, weigh, weights_of};
