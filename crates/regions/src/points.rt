//! The part of a command that a rule looks at.

use rmap::Kind;

/// The part of a command that a rule looks at (ECSS-E-ST-50-52C, command formats).
#[derive(Clone, Copy, Debug, PartialEq, Eq)]
pub struct Point {
    /// What the command asks for.
    pub kind: Kind,
    /// Its key.
    pub key: u8,
    /// Its initiator logical address.
    pub initiator: u8,
    /// Its extended address.
    pub extended: u8,
    /// Its first address.
    pub first: u32,
    /// Its last address.
    pub last: u32,
}
