//! A command that is judged at a port, as it is between two events.

use brun::Turn;
use bver::Accepted;
use rmap::Place;

/// A command that is judged at a port, as it is between two events.
#[derive(Clone, Copy)]
pub struct Standing<'a> {
    /// The program that judges it.
    pub program: &'a Accepted,
    /// The generation of the program.
    pub generation: u32,
    /// The slot that showed the program when the command was taken.
    pub slot: u8,
    /// The first four bytes of the command's header.
    pub front: &'a [u8; 4],
    /// The last twelve bytes of the command's header.
    pub tail: &'a [u8; 12],
    /// Where the command's bytes lie.
    pub place: Place,
    /// Where the program is: at a question of a helper, or at its verdict.
    pub turn: Turn,
}
