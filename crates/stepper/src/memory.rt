//! Loads from the memory that a program sees (RFC 9669, section 5).

ghost use Rattle.std.specs.Prelude.{◌≡◌, ◌+◌, ◌*◌, ◌^◌, ◌<◌, ◌≤◌, IfSome, unsigned_abs};
ghost use Rattle.machine.specs.declared.regions.TheConstants.{STACK_SIZE};
ghost use Rattle.machine.specs.Memory.{region_place_of, little_endian};
ghost use Rattle.stepper.specs.Bytes.{byte_seen, number_seen};

use machine::{Region, STACK_SIZE};

/// What a load may read: the header and the stack.
#[derive(Clone, Copy)]
pub struct Memory<'a> {
    pub front: &'a [u8; 4],
    pub tail: &'a [u8; 12],
    pub stack: &'a [Option<u8>; STACK_SIZE],
}

/// The place of the first byte of an access, counted from the region's first byte. It is `None` if the access is not
/// wholly inside.
pub fn place_of(region: Region, bytes: usize, offset: i128) -> Option<usize>
    requires few { bytes ≤ 8 }
    requires near { unsigned_abs offset ≤ 2 ^ 126 + 2 ^ 15 }
    ensures value { result ≡ region_place_of region bytes offset }
    ensures within { IfSome result (λ place. place + bytes ≤ STACK_SIZE) }
{
    let place = match region {
        Region::Front | Region::Tail => offset,
        Region::Stack => offset + STACK_SIZE as i128,
    };
    if place >= 0 && place <= region.size() as i128 - bytes as i128 {
        Some(place as usize)
    } else {
        None
    }
}

/// The byte at a place of a region, if it is set.
fn byte_of(memory: Memory<'_>, region: Region, place: usize) -> Option<u8>
    ensures value { result ≡ byte_seen memory.entry region place }
    ensures bound { IfSome result (λ b. b < 256) }
{
    let front: &[u8; 4] = memory.front;
    let tail: &[u8; 12] = memory.tail;
    let stack: &[Option<u8>; STACK_SIZE] = memory.stack;
    match region {
        Region::Front => front.get(place).copied(),
        Region::Tail => tail.get(place).copied(),
        Region::Stack => match stack.get(place) {
            Some(Some(byte)) => Some(*byte),
            _ => None,
        },
    }
}

/// `bytes` bytes from a place as a number, the lowest byte first. It is `None` if one is unset.
fn little_endian(memory: Memory<'_>, region: Region, bytes: usize, place: usize) -> Option<u64>
    requires few { bytes ≤ 8 }
    requires within { place + bytes ≤ STACK_SIZE }
    ensures value { result ≡ little_endian (byte_seen memory.entry region) bytes place }
    ensures bound { IfSome result (λ n. n < 256 ^ bytes) }
{
    if bytes == 0 {
        return Some(0);
    }
    let Some(byte) = byte_of(memory, region, place) else {
        return None;
    };
    let Some(rest) = little_endian(memory, region, bytes - 1, place + 1) else {
        return None;
    };
    Some(u64::from(byte) + 256 * rest)
}

/// The bytes at an offset of a region as a number. It is `None` if they are not wholly inside, or if one is unset.
pub fn read(memory: Memory<'_>, region: Region, bytes: usize, offset: i128) -> Option<u64>
    requires few { bytes ≤ 8 }
    requires near { unsigned_abs offset ≤ 2 ^ 126 + 2 ^ 15 }
    ensures value { result ≡ number_seen memory.entry region bytes offset }
    ensures bound { IfSome result (λ n. n < 256 ^ bytes) }
{
    match place_of(region, bytes, offset) {
        Some(place) => little_endian(memory, region, bytes, place),
        None => None,
    }
}
