//! The cells of a node's maps, as words that any number of threads ask, without a lock.
//!
//! [`Cells::new`] makes a word for each cell of a node's maps, and seats, one for each thread that asks. A [`CellSeat`]
//! answers as `brun::Counters` says: `count` is one load of the cell's word, `ticket` one `fetch_add` and `peak` one
//! `fetch_max`. None waits for another thread. The answers of a seat exist only in proofs, in its [`SeatLog`].
//!
//! The tickets of all seats for a cell are the numbers below its word, each once, whatever the threads do. From 2^64
//! tickets on this is modulo 2^64 (`IsTicketCounted` in `specs/`). If every seat came back, [`Cells::take_back`] and
//! [`Cells::drawn`] say so. The word of a peak map's cell is the greatest number that it was raised to (`IsPeak`), as
//! [`Cells::highest`] says.
#![tactic(auto)]

mod cells;
mod logs;
mod rule;
mod seats;
mod words;

pub use cells::Cells;
pub use logs::{Answer, SeatLog};
pub use seats::CellSeat;
