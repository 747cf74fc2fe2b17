//! Many bytes at a time, in the lanes of a vector.
//!
//! 127 steps leave every register as it was. So what 16 bytes more make of a register, by 128 steps, one step makes of
//! it. A block of four times 16 bytes moves each of its words by few steps.

ghost use Rattle.std.specs.Prelude.{◌≡◌, ◌≤◌, slice_range, ◌+◌};
ghost use Rattle.rcrc.specs.Crc.{shift, crc_from, crc_of};
ghost use Rattle.rcrc.specs.Pairs.{crc_of_pairs, HaveCrc, steps_added};

use std::simd::prelude::*;

/// The bytes that are taken in at a time.
pub(crate) const BLOCK: usize = 64;

/// The register of which one step makes `crc`.
fn one_step_before(crc: u8) -> u8
    ensures { shift result ≡ crc }
{
    if crc < 0x80 {
        crc << 1
    } else {
        (crc << 1) ^ 0xC1
    }
}

/// Sixteen bytes whose CRC is `crc`.
#[inline(always)]
pub(crate) fn bytes_with(crc: u8) -> u8x16
    ensures { crc_of result ≡ crc }
{
    let mut bytes = [0; 16];
    bytes[0] = one_step_before(crc);
    u8x16::from_array(bytes)
}

/// The pairs of some bytes.
#[inline(always)]
fn pairs_of(bytes: u8x16) -> u16x8
    ensures { HaveCrc bytes result }
{
    u16x8::from_le_bytes(bytes)
}

/// The bytes of some pairs.
#[inline(always)]
fn bytes_of(pairs: u16x8) -> u8x16
    ensures { crc_of result ≡ crc_of_pairs pairs }
{
    pairs.to_le_bytes()
}

/// Sixteen bytes of a block, from a place on.
#[inline(always)]
fn word(block: &[u8; BLOCK], at: usize) -> u16x8
    requires { at ≤ 48 }
    ensures { HaveCrc (slice_range block.now at (at + 16)) result }
{
    let bytes: &[u8] = block;
    pairs_of(u8x16::from_slice(&bytes[at..]))
}

/// What is before four words and the words, each after as many steps as words follow, added up.
///
/// The bits that steps shift out of a lane are added up first, and the steps then work on their sum.
#[inline(always)]
fn stepped(before: u16x8, first: u16x8, second: u16x8, third: u16x8, fourth: u16x8) -> u16x8
    ensures { result ≡ steps_added before first second third fourth }
{
    let left = (before >> 4) ^ (first >> 3) ^ (second >> 2) ^ (third >> 1) ^ fourth;
    let out = (before << 12) ^ (first << 13) ^ (second << 14) ^ (third << 15);
    left ^ (out >> 8) ^ (out >> 9) ^ (out >> 10)
}

/// Sixteen bytes with the CRC of those before, followed by a block.
#[inline(always)]
pub(crate) fn after_block(before: u8x16, block: &[u8; BLOCK]) -> u8x16
    ensures { crc_of result ≡ crc_from (crc_of before) block.now }
{
    let (first, second) = (word(block, 0), word(block, 16));
    let (third, fourth) = (word(block, 32), word(block, 48));
    bytes_of(stepped(pairs_of(before), first, second, third, fourth))
}
