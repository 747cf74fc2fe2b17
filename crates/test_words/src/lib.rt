//! Worked values of the words of the toolchain's library in which the definitions of this repository are written. They
//! are in proofs/Words.antt, where the checker computes each; `tools/statement` prints them in docs/STATEMENT.md.
#![tactic(auto)]
