//! Sixteen bytes of hexadecimal digits at a time, in the lanes of vectors.

ghost use Rattle.std.specs.Prelude.{◌≡◌, ◌++◌, map, min, length, MatchOption};
ghost use Rattle.std.specs.Char.{digit_value};
ghost use Rattle.std.specs.Str.Parse.{AllDigits};
ghost use Rattle.spw.specs.Blocks.{at_even, at_odd};
ghost use Rattle.spw.specs.Line.{bytes_written};

use std::simd::prelude::*;

/// How many characters one step reads.
pub(crate) const BLOCK: usize = 32;

/// How many bytes they write.
pub(crate) const WRITTEN: usize = 16;

/// The value for a character that is no hexadecimal digit: a bit that no digit has.
const NONE: u8 = 16;

/// What each character is as a hexadecimal digit, in either case, or [`NONE`].
#[inline(always)]
fn digits_of(characters: u8x16) -> u8x16
    ensures { result ≡ map (λ c. min (digit_value c) 16) characters }
{
    // '0' to '9' become 246 to 255, which wrap to 0 to 9. No other character comes below 16.
    let raised = characters + u8x16::splat(255 - b'9');
    let six = u8x16::splat(6);
    let ten = u8x16::splat(10);
    let number = raised.simd_lt(six).select(six, raised) + ten;
    // 'A' to 'F' in either case become 10 to 15. No other character comes below 16.
    let letter = (characters & u8x16::splat(0xDF)) - u8x16::splat(b'A');
    let most = u8x16::splat(245);
    let of_letter = letter.simd_lt(most).select(letter, most) + ten;
    let digit = number.simd_lt(of_letter).select(number, of_letter);
    let none = u8x16::splat(NONE);
    digit.simd_lt(none).select(digit, none)
}

/// The characters at even places of two vectors: the high halves of bytes.
#[inline(always)]
fn highs(first: u8x16, second: u8x16) -> u8x16
    ensures { result ≡ at_even (first ++ second) }
{
    first.shuffle(
        second,
        [0, 2, 4, 6, 8, 10, 12, 14, 16, 18, 20, 22, 24, 26, 28, 30],
    )
}

/// The characters at odd places of two vectors: the low halves of bytes.
#[inline(always)]
fn lows(first: u8x16, second: u8x16) -> u8x16
    ensures { result ≡ at_odd (first ++ second) }
{
    first.shuffle(
        second,
        [1, 3, 5, 7, 9, 11, 13, 15, 17, 19, 21, 23, 25, 27, 29, 31],
    )
}

/// The bytes that a block of digits writes, or `None` if a character is no digit. One test serves them all, since no
/// digit has the bit of [`NONE`].
#[inline(always)]
pub(crate) fn block_bytes(block: &[u8; BLOCK]) -> Option<[u8; WRITTEN]>
    ensures { MatchOption result (¬ AllDigits 16 block.now)
        (λ bytes. AllDigits 16 block.now × (bytes ≡ bytes_written block.now)) }
{
    let characters: &[u8] = block;
    let first = u8x16::from_slice(characters);
    let second = u8x16::from_slice(&characters[16..]);
    let high = digits_of(highs(first, second));
    let low = digits_of(lows(first, second));
    if (high | low).simd_ge(u8x16::splat(NONE)).to_bitmask() != 0 {
        return None;
    }
    Some(((high << 4) + low).to_array())
}
