//! What a packet might change, whatever else is wrong with it.

ghost use Rattle.std.specs.Prelude.{◌≡◌, ◌≤◌, ◌+◌, drop, length, take};
ghost use Rattle.job_suite.specs.Reach.{are_reached_within, is_in, is_printed, last_reached_of, may_change, may_reach, reach_in, reach_of};

use crate::ranges::MemoryRange;
use byteorder::{BigEndian, ByteOrder};
use rmap::{BOOT_WINDOW, Instruction};

/// The bytes of memory that a packet might change.
#[derive(Clone, Copy, Debug, PartialEq, Eq)]
pub struct Reach {
    /// The extended address.
    pub extended: u8,
    /// The first address.
    pub low: u32,
    /// The last address, which may be past the last 32-bit address.
    pub high: u64,
}

/// Whether a target might change memory by a command with this instruction. It has the write bit, or the code of
/// read-modify-writes.
fn may_change(instruction: u8) -> bool
    ensures { result ≡ may_change instruction }
{
    let code = Instruction(instruction).code();
    code >= 8 || code == 7
}

/// The last address of bytes from that address on.
fn last_reached_of(instruction: u8, address: u32, length: u32) -> u64
    ensures { result ≡ last_reached_of instruction address length }
{
    if Instruction(instruction).increments() && length > 0 {
        u64::from(address) + u64::from(length) - 1
    } else {
        u64::from(address)
    }
}

/// The twelve bytes from that place on. The condition is that there are as many.
fn tail_at(bytes: &[u8], place: usize) -> &[u8]
    requires { place + 12 ≤ length bytes.now }
    ensures value { result.now ≡ take 12 (drop place bytes.now) }
    ensures len { length result.now ≡ 12 }
{
    &bytes[place..][..12]
}

/// The memory that a header with this instruction and these last twelve bytes might change.
fn reach_in(instruction: u8, tail: &[u8]) -> Reach
    requires { length tail.now ≡ 12 }
    ensures { result ≡ reach_in instruction tail.now }
{
    let address = BigEndian::read_u32(&tail[4..]);
    let length = BigEndian::read_u24(&tail[8..]);
    Reach {
        extended: tail[3],
        low: address,
        high: last_reached_of(instruction, address, length),
    }
}

/// The memory that a packet of these bytes might change. It is `None` if the packet has no whole header, or no code
/// that changes memory.
pub fn reach_of(bytes: &[u8]) -> Option<Reach>
    ensures { result ≡ reach_of bytes.now }
{
    if bytes.len() < 4 {
        return None;
    }
    let instruction = bytes[2];
    let path = Instruction(instruction).reply_address_len();
    if bytes.len() < 16 + path {
        return None;
    }
    if may_change(instruction) {
        Some(reach_in(instruction, tail_at(bytes, 4 + path)))
    } else {
        None
    }
}

/// Whether the range has all that is reached.
fn is_in(range: &MemoryRange, reach: &Reach) -> bool
    ensures { result ≡ is_in range.now reach.now }
{
    let high = u64::from(range.high);
    range.extended == reach.extended && (range.low <= reach.low && reach.high <= high)
}

/// Whether one of the ranges has all that is reached.
fn are_reached_within(ranges: &[MemoryRange], reach: &Reach) -> bool
    ensures { result ≡ are_reached_within ranges.now reach.now }
{
    for range in ranges {
        if is_in(range, reach) {
            return true;
        }
    }
    false
}

/// Whether what is reached may change, if memory may change in these ranges. With `loads` the boot window may change
/// too.
fn may_reach(ranges: &[MemoryRange], loads: bool, reach: Option<Reach>) -> bool
    ensures { result ≡ may_reach ranges.now loads reach }
{
    match reach {
        None => true,
        Some(reach) => {
            if reach.extended == BOOT_WINDOW && loads {
                true
            } else {
                are_reached_within(ranges, &reach)
            }
        }
    }
}

/// Whether a packet of these bytes may be printed, if memory may change in these ranges. With `loads` the boot window
/// may change too.
pub fn is_printed(ranges: &[MemoryRange], loads: bool, bytes: &[u8]) -> bool
    ensures { result ≡ is_printed ranges.now loads bytes.now }
{
    may_reach(ranges, loads, reach_of(bytes))
}
