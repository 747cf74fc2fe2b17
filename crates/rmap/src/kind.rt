//! What a command asks for.

/// What a command asks for, by its packet type and command code (ECSS-E-ST-50-52C, instruction
/// field).
#[derive(Clone, Copy, Debug, PartialEq, Eq)]
pub enum Kind {
    /// Codes 0010 and 0011.
    Read,
    /// Codes 1000 to 1111.
    Write,
    /// Code 0111: read-modify-write.
    Rmw,
    /// Codes 0000, 0001, 0100, 0101 and 0110, which are unused, and any packet type except 01.
    Unused,
}
