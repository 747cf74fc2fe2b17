//! The hexadecimal digits of sixteen bytes at a time, in the lanes of vectors.

ghost use Rattle.std.specs.Prelude.{◌≡◌, ◌<◌, All, map, slice_index};
ghost use Rattle.hex.specs.Hex.{encode_upper, upper_digits};
ghost use Rattle.job_parts.specs.HexBlocks.{in_turn};

use std::simd::prelude::*;

/// How many bytes are written at a time.
pub(crate) const BLOCK: usize = 16;

/// The digits of numbers below 16, in upper case.
#[inline(always)]
fn digits(numbers: u8x16) -> u8x16
    requires { All (λ number. number < 16) numbers }
    ensures { result ≡ map (λ number. slice_index upper_digits number) numbers }
{
    let is_letter = u8x16::splat(9).simd_lt(numbers);
    let more = is_letter.select(u8x16::splat(b'A' - b'0' - 10), u8x16::splat(0));
    numbers + u8x16::splat(b'0') + more
}

/// What is in two vectors, one of each in turn.
#[inline(always)]
fn in_turn(first: u8x16, second: u8x16) -> [u8; 2 * BLOCK]
    ensures { result ≡ in_turn first second }
{
    let both: u8x32 = first.shuffle(
        second,
        [
            0, 16, 1, 17, 2, 18, 3, 19, 4, 20, 5, 21, 6, 22, 7, 23, 8, 24, 9, 25, 10, 26, 11, 27,
            12, 28, 13, 29, 14, 30, 15, 31,
        ],
    );
    both.to_array()
}

/// The digits of a block of bytes, two a byte, in upper case.
#[inline(always)]
pub(crate) fn block_digits(block: &[u8; BLOCK]) -> [u8; 2 * BLOCK]
    ensures { result ≡ encode_upper block.now }
{
    let bytes = u8x16::from_array(*block);
    in_turn(digits(bytes >> 4), digits(bytes & u8x16::splat(15)))
}
