//! The rules of a policy table.

use rmap::Verdict;

/// What a rule wants a command to ask for (ECSS-E-ST-50-52C, instruction field).
#[derive(Clone, Copy, Debug, PartialEq, Eq)]
pub enum RuleKind {
    /// A read.
    Read,
    /// A write.
    Write,
    /// A read-modify-write.
    Rmw,
    /// Whatever the command asks for.
    Any,
}

/// A limit on how often a rule may match, whatever its verdict. The rule draws a ticket of a counter cell, and matches
/// if the ticket is below the limit. If it does not match, a later rule may match and let the command pass.
#[derive(Clone, Copy, Debug, PartialEq, Eq)]
pub struct Quota {
    /// The index of the counter map.
    pub map: u8,
    /// The cell of that map.
    pub cell: u16,
    /// How many tickets match: 0 to 2,147,483,647.
    pub limit: u32,
}

/// One rule of a policy table: what it wants of a command's header, and its verdict. `None` in a field of
/// the header agrees with every value.
#[derive(Clone, Copy, Debug, PartialEq, Eq)]
pub struct Rule {
    /// What the command asks for.
    pub kind: RuleKind,
    /// The key (ECSS-E-ST-50-52C, key field).
    pub key: Option<u8>,
    /// The initiator logical address (ECSS-E-ST-50-52C, initiator logical address field).
    pub initiator: Option<u8>,
    /// The extended address (ECSS-E-ST-50-52C, extended address field).
    pub extended: Option<u8>,
    /// The first address of the range in which the command's bytes are.
    pub low: u32,
    /// The last address of the range.
    pub high: u32,
    /// The tickets that the rule draws, if it has a limit.
    pub quota: Option<Quota>,
    /// The verdict if the rule matches: what an application answers to an authorisation request.
    pub verdict: Verdict,
}
