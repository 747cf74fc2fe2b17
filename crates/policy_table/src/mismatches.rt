//! How a rule does not agree with a command.

ghost use Rattle.std.specs.Prelude.{◌≡◌};
ghost use Rattle.policy_table.specs.Mismatches.{other_byte, spent};

use crate::rules::{Quota, RuleKind};
use machine::Call;
use rmap::Kind;

/// The byte that a rule wants of a field, and another one that a command has there.
#[derive(Clone, Copy, Debug, PartialEq, Eq)]
pub struct OtherByte {
    /// The rule's.
    pub wanted: u8,
    /// The command's.
    pub given: u8,
}

/// The first of a rule's words that does not agree with a command, and what both have there. QUOTA and VERDICT cannot
/// disagree.
#[derive(Clone, Copy, Debug, PartialEq, Eq)]
pub enum Mismatch {
    /// The command asks for something else.
    Kind {
        /// What the rule wants.
        wanted: RuleKind,
        /// What the command is.
        given: Kind,
    },
    /// The key is another.
    Key(OtherByte),
    /// The initiator logical address is another.
    Initiator(OtherByte),
    /// The extended address is another.
    Extended(OtherByte),
    /// The first address is before the range.
    Low {
        /// The first address of the range.
        low: u32,
        /// The command's first address.
        address: u32,
    },
    /// The last address is after the range.
    High {
        /// The last address of the range.
        high: u32,
        /// The command's last address, which may be past the last of 32 bits.
        last: u64,
    },
}

/// Why a rule does not match a command.
#[derive(Clone, Copy, Debug, PartialEq, Eq)]
pub enum Passed {
    /// Its conditions do not hold.
    Unlike(Mismatch),
    /// The ticket that it drew is not below its limit.
    Spent {
        /// The draw.
        call: Call,
        /// The limit.
        limit: u32,
    },
}

/// The two bytes, if a field does not agree with a byte.
pub(crate) fn other_byte(wanted: Option<u8>, given: u8) -> Option<OtherByte>
    ensures { result ≡ other_byte wanted given }
{
    let wanted = wanted?;
    if given == wanted {
        return None;
    }
    Some(OtherByte { wanted, given })
}

/// That the ticket of a quota is not below its limit. `None` if it is, or if none was drawn.
pub(crate) fn spent(quota: Option<Quota>, drawn: Option<Call>) -> Option<Passed>
    ensures { result ≡ spent quota drawn }
{
    let quota = quota?;
    let call = drawn?;
    if call.answer < u64::from(quota.limit) {
        return None;
    }
    Some(Passed::Spent {
        call,
        limit: quota.limit,
    })
}
