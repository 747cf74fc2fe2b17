//! What a seat knows of the cells. It exists only in proofs.

use machine::{Helper, MapSizes};
use std::collections::LinkedList;

/// One answer that a seat was given. No value of it is made, so its numbers have no bounds.
pub struct Answer {
    /// The helper.
    pub helper: Helper,
    /// The word of the cell.
    pub word: u16,
    /// What the cell was raised to at least. It is 0 except for [`Helper::Peak`].
    pub argument: u64,
    /// How many tickets had been drawn from the cell. For a peak map's cell it is the answer.
    pub exact: u64,
    /// The answer: that number modulo 2^64.
    pub reported: u64,
}

/// What a seat has: the maps, its parts of the right to know all answers, and its own answers, in order. No value of
/// it is made.
pub struct SeatLog {
    /// The maps, by which a step knows the kind of its word.
    pub maps: MapSizes,
    /// How many of the 256 parts.
    pub parts: u16,
    /// Its answers.
    pub answers: LinkedList<Answer>,
}
