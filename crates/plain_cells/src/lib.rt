//! The cells of a node's maps as plain words, for one thread.
//!
//! [`CellWords`] are the words, by map and key, and [`answered`] says what a helper makes of one. [`PlainCells`]
//! answers the programs of a node of one thread, as `brun::Counters` says. Since nobody else asks, its clauses say
//! which word each call finds and which it leaves. It keeps each word beside its complement, and a pair that does not
//! agree is spent. The calls so far exist only in proofs, in a `brun::CallLog`.
#![tactic(auto)]

mod answers;
mod cells;
mod laws;
mod pairs;
mod words;

pub use answers::{PairAnswer, answered, answered_pair, complement};
pub use cells::PlainCells;
pub use laws::{calls_go_on, tickets_are_counted};
pub use words::CellWords;
