//! The words of instructions that no part of them names, and the beginnings of those words.

/// A negation, before the suffix of its width.
pub const NEGATION: &str = "neg";

/// A load, before the suffix of its size.
pub const LOAD: &str = "ldx";

/// A store of an immediate, before the suffix of its size.
pub const STORE: &str = "st";

/// A store of a register, before the suffix of its size.
pub const REGISTER_STORE: &str = "stx";

/// A jump that is always taken, by the offset field.
pub const GOTO: &str = "ja";

/// A jump that is always taken, by the immediate.
pub const LONG_GOTO: &str = "ja32";

/// The load of a 64-bit constant.
pub const WIDE_LOAD: &str = "lddw";

/// The load of a map by its index.
pub const MAP_LOAD: &str = "ldmap";

/// The load of another address.
pub const ADDRESS_LOAD: &str = "ldimm";

/// The end of the program.
pub const EXIT: &str = "exit";
