//! Helper calls.

use crate::helpers::Helper;

/// A helper's question: which helper asks which map for which key, and with which argument.
#[derive(Clone, Copy, Debug, PartialEq, Eq)]
pub struct Question {
    /// The helper.
    pub helper: Helper,
    /// The index of the map.
    pub map: u8,
    /// The key, below the map's size.
    pub key: u16,
    /// The number in r3 for `peak`, 0 for the other helpers.
    pub argument: u64,
}

/// A helper's call with its answer.
#[derive(Clone, Copy, Debug, PartialEq, Eq)]
pub struct Call {
    /// What the program asked.
    pub question: Question,
    /// The answer, which is in r0.
    pub answer: u64,
}
