//! Ranges of numbers: what is known of a number before a program runs.
//!
//! A [`Range`] holds the words from its low end to its high end. [`alu`], [`negate`], [`move_signed`] and
//! [`byte_swap`] give the range of an operation's results. [`refine`] gives what a comparison says of its operands on
//! each edge.
#![tactic(auto)]

mod laws;
mod ranges;
mod refinement;
mod tables;

pub use laws::{
    edges_fit, edges_grow, edges_shrink, ones_are_least, ranges_are_ordered, results_fit,
    results_grow,
};
pub use ranges::Range;
pub use refinement::{Edges, Operands, refine};
pub use tables::{alu, byte_swap, move_signed, negate};
