//! Decimal numbers as words write them, and the slots of loads.

ghost use Rattle.std.specs.Prelude.{◌≡◌, ℕ, IfErr, IfOk, MatchOption};
ghost use Rattle.job_parts.specs.Options.{IsNumberWithin, WritesSuch, list_parts};
ghost use Rattle.job_packets.specs.HexWords.{Has};
ghost use Rattle.job_packets.specs.Slips.{IsWordFault};
ghost use Rattle.job_packets.specs.Slots.{WriteSlots, WritesSlots, every_slot};

use crate::slips::{PacketFault, PacketWord};
use initiator::LAST_SLOT;
use std::alloc::{AllocError, Global};

/// The decimal number that a word writes, at most this one.
pub fn number_written(word: &str, most: u32) -> Option<u32>
    ensures { MatchOption result
        ((n : ℕ) → ¬ WritesSuch (IsNumberWithin 0 most) word.now n)
        (WritesSuch (IsNumberWithin 0 most) word.now) }
{
    if word.starts_with('+') {
        return None;
    }
    let number: u32 = word.parse().ok()?;
    if number <= most { Some(number) } else { None }
}

/// The slot that a part of a list writes.
fn slot_written(part: &str) -> Option<u8>
    ensures { MatchOption result
        ((n : ℕ) → ¬ WritesSuch (IsNumberWithin 0 3) part.now n)
        (WritesSuch (IsNumberWithin 0 3) part.now) }
{
    match number_written(part, u32::from(LAST_SLOT)) {
        Some(slot) => Some(slot as u8),
        None => None,
    }
}

/// Each of the four slots.
///
/// # Errors
///
/// An error if memory is refused.
pub fn every_slot(alloc: Global) -> Result<Vec<u8>, AllocError>
    ensures { IfOk result (λ slots. slots.items ≡ every_slot) }
{
    Vec::from_slice(alloc, &[0, 1, 2, 3])
}

/// The slots that a list writes: decimal numbers with commas between them.
fn listed_slots(alloc: Global, list: &str) -> Result<Vec<u8>, PacketFault>
    ensures ok { IfOk result (λ slots. WriteSlots (list_parts list.now) slots.items) }
    ensures err { IfErr result (IsWordFault (Has (WriteSlots (list_parts list.now)))) }
{
    let mut slots = Vec::new(alloc);
    for part in list.split(',') {
        let Some(slot) = slot_written(part) else {
            return Err(PacketFault::bad(PacketWord::Slot));
        };
        slots.push(slot)?;
    }
    Ok(slots)
}

/// The slots that a word writes: `all`, or decimal numbers from 0 to 3 with commas between them.
///
/// # Errors
///
/// The slip that the slots are bad, or `Memory` if memory was refused.
pub fn slots_written(alloc: Global, word: &str) -> Result<Vec<u8>, PacketFault>
    ensures ok { IfOk result (λ slots. WritesSlots word.now slots.items) }
    ensures err { IfErr result (IsWordFault (Has (WritesSlots word.now))) }
{
    if word == "all" {
        return Ok(every_slot(alloc)?);
    }
    listed_slots(alloc, word)
}
