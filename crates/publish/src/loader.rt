//! What a port needs to load.

use crate::reader::Reader;
use annals::{Family, Line};

/// What a port has of the programs, and its line of the node's history, in which it asks for what it publishes.
#[derive(Drop)]
pub struct LoadRights<J: Family> {
    /// What the port has of the table of programs.
    pub reader: Reader<J>,
    /// The port's line.
    pub line: Line<J>,
}
