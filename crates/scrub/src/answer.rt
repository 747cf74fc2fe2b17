//! What a node whose programs may be scrubbed makes of a packet.

use crate::guard::ScrubFindings;
use single_node::ServedDetail;

/// What became of a packet.
#[derive(Clone, Copy, Debug, PartialEq, Eq)]
pub struct ServedAnswer {
    /// What became of it, with the generation and the verdict of the program that judged its command.
    pub reported: ServedDetail,
    /// What a scrub before it found, if one was due.
    pub found: Option<ScrubFindings>,
    /// How many bytes its reply has, or 0 if none is due.
    pub size: usize,
}
