//! Pairs of hexadecimal digits.

ghost use Rattle.std.specs.Prelude.{◌≡◌, ◌≤◌, ◌+◌, ◌*◌, length, min, true, vec_len, ◌++◌, IfOk};
ghost use Rattle.std.specs.Bool.{Decides};
ghost use Rattle.std.specs.List.{concat};
ghost use Rattle.std.specs.Char.{digit_value};
ghost use Rattle.std.specs.Str.Parse.{AllDigits};
ghost use Rattle.std.specs.Vec.{vec_capacity};
ghost use Rattle.spw.specs.Line.{IsHex, bytes_written};
ghost use Rattle.spw.specs.declared.blocks.TheConstants.{BLOCK, WRITTEN};

use crate::blocks::{BLOCK, WRITTEN, block_bytes};
use std::alloc::AllocError;

/// The value for a character that is no hexadecimal digit: a bit that no digit has.
const NONE: u8 = 16;

/// What each character is as a hexadecimal digit, in either case.
const DIGITS: [u8; 256] = [
    16, 16, 16, 16, 16, 16, 16, 16, 16, 16, 16, 16, 16, 16, 16, 16, 16, 16, 16, 16, 16, 16, 16, 16,
    16, 16, 16, 16, 16, 16, 16, 16, 16, 16, 16, 16, 16, 16, 16, 16, 16, 16, 16, 16, 16, 16, 16, 16,
    0, 1, 2, 3, 4, 5, 6, 7, 8, 9, 16, 16, 16, 16, 16, 16, 16, 10, 11, 12, 13, 14, 15, 16, 16, 16,
    16, 16, 16, 16, 16, 16, 16, 16, 16, 16, 16, 16, 16, 16, 16, 16, 16, 16, 16, 16, 16, 16, 16, 10,
    11, 12, 13, 14, 15, 16, 16, 16, 16, 16, 16, 16, 16, 16, 16, 16, 16, 16, 16, 16, 16, 16, 16, 16,
    16, 16, 16, 16, 16, 16, 16, 16, 16, 16, 16, 16, 16, 16, 16, 16, 16, 16, 16, 16, 16, 16, 16, 16,
    16, 16, 16, 16, 16, 16, 16, 16, 16, 16, 16, 16, 16, 16, 16, 16, 16, 16, 16, 16, 16, 16, 16, 16,
    16, 16, 16, 16, 16, 16, 16, 16, 16, 16, 16, 16, 16, 16, 16, 16, 16, 16, 16, 16, 16, 16, 16, 16,
    16, 16, 16, 16, 16, 16, 16, 16, 16, 16, 16, 16, 16, 16, 16, 16, 16, 16, 16, 16, 16, 16, 16, 16,
    16, 16, 16, 16, 16, 16, 16, 16, 16, 16, 16, 16, 16, 16, 16, 16, 16, 16, 16, 16, 16, 16, 16, 16,
    16, 16, 16, 16, 16, 16, 16, 16, 16, 16, 16, 16, 16, 16,
];

/// What a character is as a hexadecimal digit, or [`NONE`].
fn digit(character: u8) -> u8
    ensures { result ≡ min (digit_value character) 16 }
{
    DIGITS[character as usize]
}

/// Puts the bytes of a block after others. The condition is that there is room for them.
#[inline(always)]
fn push_block(bytes: &mut Vec<u8>, block: &[u8; WRITTEN])
    requires { vec_len bytes.old + WRITTEN ≤ vec_capacity bytes.old }
    ensures items { bytes.new.items ≡ bytes.old.items ++ block.now }
    ensures len { vec_len bytes.new ≡ vec_len bytes.old + WRITTEN }
    ensures room { vec_capacity bytes.old ≤ vec_capacity bytes.new }
{
    bytes.extend_from_slice(block).unwrap();
}

/// Puts the bytes that blocks of digits write after others, as far as all characters of a block are digits, and says
/// whether all are. The condition is that there is room for them.
fn append_blocks(bytes: &mut Vec<u8>, blocks: &[[u8; BLOCK]]) -> bool
    requires { vec_len bytes.old + length blocks.now * WRITTEN ≤ vec_capacity bytes.old }
    ensures digits { Decides result (AllDigits 16 (concat blocks.now)) }
    ensures bytes { result ≡ true
        → bytes.new.items ≡ bytes.old.items ++ bytes_written (concat blocks.now) }
    ensures len { result ≡ true → vec_len bytes.new ≡ vec_len bytes.old + length blocks.now * WRITTEN }
    ensures room { vec_capacity bytes.old ≤ vec_capacity bytes.new }
{
    for block in blocks {
        let Some(written) = block_bytes(block) else {
            return false;
        };
        push_block(bytes, &written);
    }
    true
}

/// Puts the bytes that pairs of digits write after others, and says whether all are digits. One test serves them all,
/// since no digit has the bit of [`NONE`]. The condition is that there is room for them.
fn append_pairs(bytes: &mut Vec<u8>, pairs: &[[u8; 2]]) -> bool
    requires { vec_len bytes.old + length pairs.now ≤ vec_capacity bytes.old }
    ensures digits { Decides result (AllDigits 16 (concat pairs.now)) }
    ensures bytes { result ≡ true
        → bytes.new.items ≡ bytes.old.items ++ bytes_written (concat pairs.now) }
{
    let mut digits = 0;
    for pair in pairs {
        let [high, low] = *pair;
        let (high, low) = (digit(high), digit(low));
        digits |= high | low;
        bytes.push_reserved(high.wrapping_mul(16).wrapping_add(low));
    }
    digits < NONE
}

/// Puts the bytes that a word of hexadecimal digits writes after others, and says whether it is one: an even number of
/// digits. If it is none, some of its bytes may be there.
pub(crate) fn append_hex(bytes: &mut Vec<u8>, word: &[u8]) -> Result<bool, AllocError>
    ensures hex { IfOk result (λ all. Decides all (IsHex word.now)) }
    ensures bytes { IfOk result (λ all. all ≡ true
        → bytes.new.items ≡ bytes.old.items ++ bytes_written word.now) }
{
    let (blocks, rest) = word.as_chunks::<BLOCK>();
    let (pairs, odd) = rest.as_chunks::<2>();
    if !odd.is_empty() {
        return Ok(false);
    }
    bytes.reserve(word.len() / 2)?;
    if !append_blocks(bytes, blocks) {
        return Ok(false);
    }
    Ok(append_pairs(bytes, pairs))
}
