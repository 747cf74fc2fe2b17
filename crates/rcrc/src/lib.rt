//! The 8-bit CRC of RMAP (ECSS-E-ST-50-52C, 8-bit CRC).
#![tactic(auto)]

mod lanes;
mod tables;

ghost use Rattle.std.specs.Prelude.{◌≡◌, ℕ, List, ◌++◌};
ghost use Rattle.rcrc.specs.Crc.{crc_from, crc_of};
ghost use Rattle.rcrc.specs.Polynomial.{IsRemainder, RemainderIsUnique};

use lanes::{BLOCK, after_block, bytes_with};
use tables::shifted;

/// The CRC of `bytes` (ECSS-E-ST-50-52C, 8-bit CRC): the register starts at 0 and takes in one byte after another.
///
/// As a polynomial over two elements, it is the remainder of the bytes times x^8 by x^8 + x^2 + x + 1. The lowest bit
/// of the first byte is the highest coefficient of the bytes, and bit 0 of the CRC is that of x^7.
pub fn crc(bytes: &[u8]) -> u8
    ensures value { result ≡ crc_of bytes.now }
    ensures remainder { IsRemainder bytes.now result }
{
    crc_more(0, bytes)
}

/// The CRC of some bytes whose CRC is `crc`, followed by `bytes`: the register starts at `crc`
/// (ECSS-E-ST-50-52C, 8-bit CRC).
pub fn crc_more(crc: u8, bytes: &[u8]) -> u8
    ensures value { result ≡ crc_from crc bytes.now }
    ensures joined { (before : List ℕ) → crc_of before ≡ crc
        → result ≡ crc_of (before ++ bytes.now) }
{
    if bytes.len() < BLOCK {
        after_chunks(crc, bytes)
    } else {
        after_blocks(crc, bytes)
    }
}

/// The register after some bytes, in blocks, from `start` on: what came before is kept as 16 bytes
/// that have its CRC.
fn after_blocks(start: u8, bytes: &[u8]) -> u8
    ensures { result ≡ crc_from start bytes.now }
{
    let (blocks, rest) = bytes.as_chunks::<BLOCK>();
    let mut lanes = bytes_with(start);
    for block in blocks {
        lanes = after_block(lanes, block);
    }
    after_chunks(after_chunks(0, lanes.as_array()), rest)
}

/// The register after some bytes, in chunks of eight, from `start` on.
fn after_chunks(start: u8, bytes: &[u8]) -> u8
    ensures { result ≡ crc_from start bytes.now }
{
    let (chunks, rest) = bytes.as_chunks::<8>();
    let mut register = start;
    for chunk in chunks {
        register = after_chunk(register, chunk);
    }
    after_bytes(register, rest)
}

/// The register after a chunk of bytes. Shifts of a sum without carry are the sum of the shifts. So each byte is looked
/// up by itself, the first with the register.
fn after_chunk(register: u8, chunk: &[u8; 8]) -> u8
    ensures { result ≡ crc_from register chunk.now }
{
    let [a, b, c, d, e, f, g, h] = *chunk;
    shifted(h, 0)
        ^ shifted(g, 1)
        ^ shifted(f, 2)
        ^ shifted(e, 3)
        ^ shifted(d, 4)
        ^ shifted(c, 5)
        ^ shifted(b, 6)
        ^ shifted(register ^ a, 7)
}

/// The register after some bytes, taken in one after another from `start` on.
fn after_bytes(start: u8, bytes: &[u8]) -> u8
    ensures { result ≡ crc_from start bytes.now }
{
    let mut register = start;
    for byte in bytes {
        register = shifted(register ^ *byte, 0);
    }
    register
}

/// A law and no work: bytes have one remainder, so [`crc`] is the only answer that its clause
/// `remainder` allows.
pub fn remainder_is_unique()
    ensures { RemainderIsUnique }
{}
