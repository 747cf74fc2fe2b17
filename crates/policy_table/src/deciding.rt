//! Whether the conditions of a rule hold, and which do not.

ghost use Rattle.std.specs.Prelude.{◌≡◌, ◌^◌, ◌<◌, ◌==◌, ◌&&◌, ◌≤◌, length, slice_index, drop, not, is_none};
ghost use Rattle.byteorder.specs.Endian.{big_number};
ghost use Rattle.machine.specs.Memory.{header};
ghost use Rattle.rmap.specs.Command.{address_of as address_in};
ghost use Rattle.rmap.specs.Instruction.{has_increment_bit, kind_of};
ghost use Rattle.policy_table.specs.Meaning.{fields_of, agrees_with_kind, holds, last_address_of};
ghost use Rattle.policy_table.specs.Mismatches.{mismatch, passed, range_mismatch};

use crate::mismatches::{Mismatch, Passed, other_byte, spent};
use crate::rules::{Rule, RuleKind};
use byteorder::{BigEndian, ByteOrder};
use machine::Call;
use rmap::field::{ADDRESS, EXTENDED, INITIATOR, INSTRUCTION, KEY, LENGTH};
use rmap::{Instruction, Kind};

/// Whether a rule's kind agrees with what a command asks for.
pub fn agrees_with_kind(wanted: RuleKind, kind: Kind) -> bool
    ensures { result ≡ agrees_with_kind wanted kind }
{
    match wanted {
        RuleKind::Any => true,
        RuleKind::Read => kind == Kind::Read,
        RuleKind::Write => kind == Kind::Write,
        RuleKind::Rmw => kind == Kind::Rmw,
    }
}

/// The first address that a header names.
fn first_address(tail: &[u8; 12]) -> u32
    ensures { result ≡ big_number 4 (drop 4 tail.now) }
{
    BigEndian::read_u32(&tail[ADDRESS..])
}

/// How many bytes of data a header names, below 2²⁴.
fn data_length(tail: &[u8; 12]) -> u32
    ensures { result ≡ big_number 3 (drop 8 tail.now) }
{
    BigEndian::read_u24(&tail[LENGTH..])
}

/// The last address that a header names, by its first four bytes and its last twelve. It may be past the last of 32
/// bits.
pub fn last_address(front: &[u8; 4], tail: &[u8; 12]) -> u64
    ensures { result ≡ last_address_of (fields_of (header front.now tail.now)) }
{
    let address = u64::from(first_address(tail));
    let length = u64::from(data_length(tail));
    if Instruction(front[INSTRUCTION]).increments() && length != 0 {
        address + length - 1
    } else {
        address
    }
}

/// How the addresses that a header names are not in the range.
fn range_mismatch(low: u32, high: u32, front: &[u8; 4], tail: &[u8; 12]) -> Option<Mismatch>
    ensures { result ≡ range_mismatch low high (fields_of (header front.now tail.now)) }
{
    let address = first_address(tail);
    if address < low {
        return Some(Mismatch::Low { low, address });
    }
    let last = last_address(front, tail);
    if last > u64::from(high) {
        return Some(Mismatch::High { high, last });
    }
    None
}

/// The first word of a rule that does not agree with a header.
fn first_mismatch(rule: &Rule, front: &[u8; 4], tail: &[u8; 12]) -> Option<Mismatch>
    ensures { result ≡ mismatch rule.now (header front.now tail.now) }
{
    let kind = Instruction(front[INSTRUCTION]).kind();
    if !agrees_with_kind(rule.kind, kind) {
        return Some(Mismatch::Kind {
            wanted: rule.kind,
            given: kind,
        });
    }
    if let Some(bytes) = other_byte(rule.key, front[KEY]) {
        return Some(Mismatch::Key(bytes));
    }
    if let Some(bytes) = other_byte(rule.initiator, tail[INITIATOR]) {
        return Some(Mismatch::Initiator(bytes));
    }
    if let Some(bytes) = other_byte(rule.extended, tail[EXTENDED]) {
        return Some(Mismatch::Extended(bytes));
    }
    range_mismatch(rule.low, rule.high, front, tail)
}

impl Rule {
    /// Whether the rule's conditions hold for a header. `front` is its first four bytes, target logical address to key.
    /// `tail` is its last twelve, initiator logical address to header CRC.
    pub fn holds(&self, front: &[u8; 4], tail: &[u8; 12]) -> bool
        ensures { result ≡ holds self.now (header front.now tail.now) }
    {
        self.mismatch(front, tail).is_none()
    }

    /// The first word of the rule that does not agree with a header, or `None` if the rule's conditions hold. The order
    /// of the tests is kind, key, initiator logical address, extended address, first address, last address.
    pub fn mismatch(&self, front: &[u8; 4], tail: &[u8; 12]) -> Option<Mismatch>
        ensures word { result ≡ mismatch self.now (header front.now tail.now) }
        ensures none { is_none result ≡ holds self.now (header front.now tail.now) }
    {
        first_mismatch(self, front, tail)
    }

    /// Why the rule does not match a header, if this is the draw of its quota. `None` if it matches, or if it has a
    /// quota and nothing was drawn.
    pub fn passed(&self, front: &[u8; 4], tail: &[u8; 12], drawn: Option<Call>) -> Option<Passed>
        ensures { result ≡ passed self.now (header front.now tail.now) drawn }
    {
        if let Some(found) = self.mismatch(front, tail) {
            return Some(Passed::Unlike(found));
        }
        spent(self.quota, drawn)
    }
}
