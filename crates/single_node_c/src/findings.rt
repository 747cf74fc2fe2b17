//! What a scrub before a packet found, in numbers.

ghost use Rattle.std.specs.Prelude.{◌≡◌};
ghost use Rattle.single_node_c.specs.Finding.{found_number, found_slot, health_number};

use scrub::{Health, ScrubFindings};

/// No scrub was due before the packet.
pub const UNSCRUBBED: u8 = 0;

/// The program that judges the packet is as it was published.
pub const WHOLE: u8 = 1;

/// It was damaged, and was made again from its image.
pub const MENDED: u8 = 2;

/// It was damaged and not mended: its slot is withdrawn.
pub const WITHDRAWN: u8 = 3;

/// The number for no slot.
pub const NO_SLOT: u8 = 255;

/// The number of how a program was found.
fn health_number(health: Health) -> u8
    ensures { result ≡ health_number health }
{
    match health {
        Health::Whole => WHOLE,
        Health::Mended => MENDED,
        Health::Withdrawn | Health::Unmended => WITHDRAWN,
    }
}

/// The number of what a scrub before a packet found.
pub fn found_number(found: Option<ScrubFindings>) -> u8
    ensures { result ≡ found_number found }
{
    match found {
        Some(found) => health_number(found.health),
        None => UNSCRUBBED,
    }
}

/// The slot that a scrub before a packet looked at.
pub fn found_slot(found: Option<ScrubFindings>) -> u8
    ensures { result ≡ found_slot found }
{
    match found {
        Some(found) => found.slot,
        None => NO_SLOT,
    }
}
