//! Lemmas of no type of these crates, which proofs of several of them cite. They are on tests of numbers by cases,
//! beginnings of lists, and elements by their places. The crate has no code.
#![tactic(auto)]
