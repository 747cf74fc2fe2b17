//! Why a policy table is refused.

ghost use Rattle.std.specs.Prelude.{◌≡◌, Some, IfSome};
ghost use Rattle.policy_table.specs.Codes.{policy_fault_code, policy_fault_of_code};
ghost use Rattle.policy_table.specs.declared.faults.PolicyFault.TheVariants.{Memory};

use std::alloc::AllocError;
use thiserror::Error;

const TOO_LONG: &str = "\
A table of version 1 has at most 12 rules, and one of version 2 as many as its program has room for in the 512
slots of an image: 24 with every field and a quota, and 22 if each asks its port too.
Join rules that differ in their range only, or write the program by hand.";

const BAD_RANGE: &str = "\
In a rule LOW is above HIGH, so it would hold of no address.
Put the lower address first.";

const MEMORY: &str = "\
The process was refused memory while the table was read or compiled.
Give the process more memory.";

const NO_CELL: &str = "\
A quota `MAP:CELL:LIMIT` names a map that is not in `--maps`, which count from 0, a cell that it does not have, or
a peak map, of which no tickets are drawn.
Give the maps that the node has by `--maps`, and count cells from 0.";

const BAD_LINE: &str = "\
A line is `KIND KEY INITIATOR EXTENDED LOW HIGH QUOTA VERDICT`, with spaces between the words. If the first line
is `.version 2`, comments, empty lines, names of ranges and `port P` after VERDICT are allowed, and else not.
Compare the line with the table in docs/POLICIES.md; `rmapctl decide LINES TABLE` prints its number and its word.";

/// Why a policy table is refused.
#[derive(Clone, Copy, Debug, PartialEq, Eq, Error)]
pub enum PolicyFault {
    /// The table has more than 12 rules; in version 2, its program has more slots than an image may have.
    #[error("too many rules")]
    TooLong,
    /// A rule's last address is before its first.
    #[error("a range ends before it begins")]
    BadRange,
    /// Memory was refused.
    #[error("no memory")]
    Memory,
    /// The maps do not have the cell of a quota, or it is in a peak map.
    #[error("no such cell")]
    NoCell,
    /// A line writes no rule.
    #[error("bad line")]
    BadLine,
}

impl PolicyFault {
    /// The number of the fault, 1 to 5 in the order of the variants.
    pub fn code(self) -> u8
        ensures value { result ≡ policy_fault_code self }
        ensures back { policy_fault_of_code result ≡ Some self }
    {
        match self {
            PolicyFault::TooLong => 1,
            PolicyFault::BadRange => 2,
            PolicyFault::Memory => 3,
            PolicyFault::NoCell => 4,
            PolicyFault::BadLine => 5,
        }
    }

    /// The fault of a number, as [`PolicyFault::code`] gives it. `None` if no fault has it.
    pub fn from_code(code: u8) -> Option<PolicyFault>
        ensures value { result ≡ policy_fault_of_code code }
        ensures number { IfSome result (λ fault. policy_fault_code fault ≡ code) }
    {
        match code {
            1 => Some(PolicyFault::TooLong),
            2 => Some(PolicyFault::BadRange),
            3 => Some(PolicyFault::Memory),
            4 => Some(PolicyFault::NoCell),
            5 => Some(PolicyFault::BadLine),
            _ => None,
        }
    }

    /// What to say of the fault beside its name: when it comes, and what to do, in lines of at most 114 columns.
    pub fn advice(self) -> &'static str {
        match self {
            PolicyFault::TooLong => TOO_LONG,
            PolicyFault::BadRange => BAD_RANGE,
            PolicyFault::Memory => MEMORY,
            PolicyFault::NoCell => NO_CELL,
            PolicyFault::BadLine => BAD_LINE,
        }
    }
}

impl From<AllocError> for PolicyFault {
    ghost from_gives = { λ _ fault. fault ≡ Memory };

    fn from(_refused: AllocError) -> PolicyFault {
        PolicyFault::Memory
    }
}
