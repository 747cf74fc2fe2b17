//! The packets of a load, and of loads that follow each other.

ghost use Rattle.std.specs.Prelude.{◌≡◌, ◌≤◌, ◌<◌, ◌++◌, OnOk, length, string_bytes, true};
ghost use Rattle.job_packets.specs.Loads.{id_after_load, part_text, with_load, with_loads};
ghost use Rattle.job_packets.specs.Requests.{has_reply_address};

use crate::packet_options::HeaderWords;
use crate::requests::add_line;
use initiator::{
    PART_SIZE, body_with_crc, control_body, control_request, part_of, result_request, stage_request,
};
use std::alloc::{AllocError, Global};

/// Adds the write of a part to the staging, if the image has such a part.
#[tactic(auto, unfolding(crate::specs::Loads::part_text))]
fn add_part(
    text: &mut String,
    alloc: Global,
    header: &HeaderWords,
    transaction: u16,
    image: &[u8],
    number: u16,
) -> Result<(), AllocError>
    requires address { has_reply_address header.now ≡ true }
    requires number { number < 4 }
    ensures { OnOk result
        (string_bytes text.new ≡ string_bytes text.old ++ part_text header.now transaction image.now number) }
{
    if image.len() <= PART_SIZE * usize::from(number) {
        return Ok(());
    }
    let part = part_of(image, number);
    let body = body_with_crc(alloc, part)?;
    let request = stage_request(transaction, part, number);
    add_line(text, alloc, header, request, body.as_slice())
}

/// Adds the packets of a load that begins with this transaction identifier.
fn add_load(
    text: &mut String,
    alloc: Global,
    header: &HeaderWords,
    transaction: u16,
    slot: u8,
    image: &[u8],
) -> Result<(), AllocError>
    requires address { has_reply_address header.now ≡ true }
    requires short { length image.now ≤ 16384 }
    ensures { OnOk result
        (string_bytes text.new ≡ with_load (string_bytes text.old) header.now transaction slot image.now) }
{
    add_part(text, alloc, header, transaction, image, 0)?;
    add_part(text, alloc, header, transaction, image, 1)?;
    add_part(text, alloc, header, transaction, image, 2)?;
    add_part(text, alloc, header, transaction, image, 3)?;
    let body = control_body(alloc, slot, image)?;
    let control = control_request(transaction, image);
    add_line(text, alloc, header, control, body.as_slice())?;
    let result = result_request(transaction, image);
    add_line(text, alloc, header, result, &[])
}

/// The transaction identifier after those of a load that begins with this one.
fn id_after_load(transaction: u16, image: &[u8]) -> u16
    requires { length image.now ≤ 16384 }
    ensures { result ≡ id_after_load transaction image.now }
{
    result_request(transaction, image)
        .transaction
        .wrapping_add(1)
}

/// Adds the packets of the loads of an image into these slots, in this order.
///
/// # Errors
///
/// An error if memory is refused.
pub fn add_loads(
    text: &mut String,
    alloc: Global,
    header: &HeaderWords,
    slots: &[u8],
    image: &[u8],
) -> Result<(), AllocError>
    requires address { has_reply_address header.now ≡ true }
    requires short { length image.now ≤ 16384 }
    ensures { OnOk result (string_bytes text.new
        ≡ with_loads (string_bytes text.old) header.now header.now.transaction slots.now image.now) }
{
    let mut transaction = header.transaction;
    for slot in slots {
        add_load(text, alloc, header, transaction, *slot, image)?;
        transaction = id_after_load(transaction, image);
    }
    Ok(())
}
