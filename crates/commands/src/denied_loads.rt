//! Loads after which the same load is denied.

use job_packets::made_packets::made_text;
use job_packets::orders::Order;
use job_packets::packet::PacketWords;
use job_rehearse::again::denies_again;
use std::alloc::{AllocError, Global};

/// What is printed of such a load.
const DENIED: &str = "    after this load the same load is denied
    --final says that it is meant, and then nothing is said
";

/// The slot whose program judges loads.
const LOAD_SLOT: u8 = 3;

/// Whether loads change the program that judges loads.
fn changes_judge(words: &PacketWords) -> bool {
    match &words.order {
        Order::Load { slots, .. } => slots.as_slice().contains(&LOAD_SLOT),
        Order::Read { .. } | Order::Write { .. } | Order::Rmw { .. } => false,
    }
}

/// What is printed of loads of an image after which their packets are denied. It is empty if they are not denied, or if
/// that is meant.
///
/// # Errors
///
/// An error if memory is refused.
pub fn advice(
    alloc: Global,
    words: &PacketWords,
    image: &[u8],
) -> Result<&'static str, AllocError> {
    if words.is_final || !changes_judge(words) {
        return Ok("");
    }
    let Some(lines) = made_text(alloc, words, image)? else {
        return Ok("");
    };
    if denies_again(alloc, words.header.target, image, lines.as_str())? {
        Ok(DENIED)
    } else {
        Ok("")
    }
}
