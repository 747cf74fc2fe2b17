//! The commands of a load: the writes of the image's parts to the staging, the control write, and the read of the
//! load result. All are for the boot window. Their transaction identifiers follow each other; after FFFF comes 0000.

ghost use Rattle.std.specs.Prelude.{◌≡◌, ◌≤◌, ◌<◌, ◌*◌, ◌^◌, IfOk, length, take};
ghost use Rattle.rmap.specs.Reply.{with_crc};
ghost use Rattle.initiator.specs.Loads.{control_bytes_of, control_request, part_count, part_of, result_request, stage_request};

use crate::codes::{read_code, write_code};
use crate::requests::Request;
use crate::write::body_with_crc;
use rmap::{
    BOOT_WINDOW, CONTROL_SIZE, ControlData, LOAD_REGISTER, LOAD_RESULT_SIZE, MAX_DATA, STAGING_SIZE,
};
use std::alloc::{AllocError, Global};

/// The most bytes of a part of an image: as many as one command may have.
pub const PART_SIZE: usize = MAX_DATA as usize;

/// The first of some bytes, at most `most`.
fn first_bytes(bytes: &[u8], most: usize) -> &[u8]
    ensures bytes { result.now ≡ take most bytes.now }
    ensures few { length result.now ≤ most }
{
    if bytes.len() > most {
        bytes.split_at(most).0
    } else {
        bytes
    }
}

/// The bytes of the image's part of this number, at most [`PART_SIZE`].
pub fn part_of(image: &[u8], number: u16) -> &[u8]
    requires { MAX_DATA * number ≤ length image.now }
    ensures part { result.now ≡ part_of image.now number }
    ensures few { length result.now ≤ MAX_DATA }
{
    let rest = image.split_at(PART_SIZE * usize::from(number)).1;
    first_bytes(rest, PART_SIZE)
}

/// How many parts an image has.
fn part_count(image: &[u8]) -> u16
    requires { length image.now ≤ STAGING_SIZE }
    ensures value { result ≡ part_count image.now }
    ensures few { result ≤ 4 }
{
    ((image.len() + PART_SIZE - 1) / PART_SIZE) as u16
}

/// The write of a part to the staging, if the load begins with this transaction identifier.
pub fn stage_request(transaction: u16, part: &[u8], number: u16) -> Request
    requires few { length part.now ≤ MAX_DATA }
    requires number { number < 4 }
    ensures value { result ≡ stage_request transaction part.now number }
    ensures code { result.code < 16 }
    ensures count { result.count < 2 ^ 24 }
{
    Request {
        code: write_code(false, true, true),
        transaction: transaction.wrapping_add(number),
        extended: BOOT_WINDOW,
        address: MAX_DATA * u32::from(number),
        count: part.len() as u32,
    }
}

/// The control write, after the writes of all parts.
pub fn control_request(transaction: u16, image: &[u8]) -> Request
    requires { length image.now ≤ STAGING_SIZE }
    ensures value { result ≡ control_request transaction image.now }
    ensures code { result.code < 16 }
    ensures count { result.count < 2 ^ 24 }
{
    Request {
        code: write_code(false, true, true),
        transaction: transaction.wrapping_add(part_count(image)),
        extended: BOOT_WINDOW,
        address: LOAD_REGISTER,
        count: CONTROL_SIZE,
    }
}

/// The read of the load result, after the control write.
pub fn result_request(transaction: u16, image: &[u8]) -> Request
    requires { length image.now ≤ STAGING_SIZE }
    ensures value { result ≡ result_request transaction image.now }
    ensures code { result.code < 16 }
    ensures count { result.count < 2 ^ 24 }
{
    Request {
        code: read_code(true),
        transaction: transaction.wrapping_add(part_count(image) + 1),
        extended: BOOT_WINDOW,
        address: LOAD_REGISTER,
        count: LOAD_RESULT_SIZE,
    }
}

/// The data of the control write, with their CRC: the slot, and how many bytes the image has.
///
/// # Errors
///
/// Memory is refused.
pub fn control_body(alloc: Global, slot: u8, image: &[u8]) -> Result<Vec<u8>, AllocError>
    requires { length image.now ≤ STAGING_SIZE }
    ensures { IfOk result (λ body. body.items ≡ with_crc (control_bytes_of slot image.now)) }
{
    let control = ControlData {
        slot,
        zero: 0,
        length: image.len() as u16,
    };
    body_with_crc(alloc, &control.bytes())
}
