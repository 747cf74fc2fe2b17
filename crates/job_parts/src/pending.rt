//! Text that is put together before it is printed: the digits of bytes, with what comes before and after them in a
//! line.

ghost use Rattle.std.specs.Prelude.{◌≡◌, ◌≤◌, ◌<◌, ◌+◌, ◌*◌, [], ◌∷◌, ◌++◌, OnOk, decimal, length};
ghost use Rattle.hex.specs.Hex.{encode_upper};
ghost use Rattle.job_parts.specs.Printed.{Prints};
ghost use Rattle.job_parts.specs.declared.hex_blocks.TheConstants.{BLOCK};
ghost use Rattle.job_parts.specs.declared.pending.TheConstants.{CHUNK, ROOM};

use crate::hex_blocks::{BLOCK, block_digits};
use arrayvec::ArrayVec;
use spw::put_front;
use std::io::{self, Write};

/// How many bytes have their digits printed at once.
const CHUNK: usize = 64;

/// How many characters can wait: the digits of a chunk, and sixteen more.
pub(crate) const ROOM: usize = 144;

/// Text that waits to be printed.
pub(crate) type Pending = ArrayVec<u8, ROOM>;

/// Adds characters. The condition is that there is room for them.
#[inline(always)]
fn push_text(text: &mut Pending, more: &[u8])
    requires { length text.old.items + length more.now ≤ ROOM }
    ensures { text.new.items ≡ text.old.items ++ more.now }
{
    text.try_extend_from_slice(more).unwrap();
}

/// Adds the digits of a block of bytes. The condition is that there is room for them.
#[inline(always)]
fn push_block(text: &mut Pending, block: &[u8; BLOCK])
    requires { length text.old.items + 2 * BLOCK ≤ ROOM }
    ensures { text.new.items ≡ text.old.items ++ encode_upper block.now }
{
    let digits = block_digits(block);
    push_text(text, &digits);
}

/// Adds the digits of bytes that are no more than a block. The condition is that there is room for them.
#[inline(always)]
fn push_few(text: &mut Pending, bytes: &[u8])
    requires few { length bytes.now ≤ BLOCK }
    requires room { length text.old.items + 2 * length bytes.now ≤ ROOM }
    ensures { text.new.items ≡ text.old.items ++ encode_upper bytes.now }
{
    let mut block = [0; BLOCK];
    put_front(&mut block, bytes);
    let digits = block_digits(&block);
    push_text(text, &digits[..2 * bytes.len()]);
}

/// Adds the digits of bytes, in upper case. The condition is that there is room for them.
#[inline(always)]
fn push_hex(text: &mut Pending, bytes: &[u8])
    requires { length text.old.items + 2 * length bytes.now ≤ ROOM }
    ensures { text.new.items ≡ text.old.items ++ encode_upper bytes.now }
{
    let (blocks, rest) = bytes.as_chunks::<BLOCK>();
    for block in blocks {
        push_block(text, block);
    }
    push_few(text, rest);
}

/// Adds the digit of a number below ten. The condition is that there is room for it.
#[inline(always)]
fn push_one(text: &mut Pending, number: u8)
    requires small { number < 10 }
    requires room { length text.old.items < ROOM }
    ensures text { text.new.items ≡ text.old.items ++ decimal number }
    ensures length { length text.new.items ≡ length text.old.items + 1 }
{
    text.push(b'0' + number);
}

/// Adds the digits of a number of two digits. The condition is that there is room for them.
fn push_two(text: &mut Pending, number: u8)
    requires large { 10 ≤ number }
    requires small { number < 100 }
    requires room { length text.old.items + 1 < ROOM }
    ensures text { text.new.items ≡ text.old.items ++ decimal number }
    ensures length { length text.new.items ≡ length text.old.items + 2 }
{
    text.push(b'0' + number / 10);
    text.push(b'0' + number % 10);
}

/// Adds the digits of a number of three digits. The condition is that there is room for them.
fn push_three(text: &mut Pending, number: u8)
    requires large { 100 ≤ number }
    requires room { length text.old.items + 2 < ROOM }
    ensures text { text.new.items ≡ text.old.items ++ decimal number }
    ensures length { length text.new.items ≡ length text.old.items + 3 }
{
    text.push(b'0' + number / 100);
    text.push(b'0' + number / 10 % 10);
    text.push(b'0' + number % 10);
}

/// Adds the decimal digits of a number. The condition is that there is room for them.
#[inline(always)]
fn push_number(text: &mut Pending, number: u8)
    requires { length text.old.items + 3 ≤ ROOM }
    ensures text { text.new.items ≡ text.old.items ++ decimal number }
    ensures length { length text.new.items ≤ length text.old.items + 3 }
{
    if number < 10 {
        push_one(text, number);
        return;
    }
    if number < 100 {
        push_two(text, number);
        return;
    }
    push_three(text, number);
}

/// The decimal digits of a number, and a space after them.
#[inline(always)]
pub(crate) fn number_text(number: u8) -> Pending
    ensures text { result.items ≡ decimal number ++ 32 ∷ [] }
    ensures short { length result.items ≤ 4 }
{
    let mut text = Pending::new();
    push_number(&mut text, number);
    text.push(b' ');
    text
}

/// Prints what waits, the digits of some bytes in upper case, and what comes after them. It writes in pieces of at most
/// [`ROOM`] bytes: one of them, if the bytes are no more than a chunk. Conditions: at most 4 bytes wait, and at most 5
/// come after the digits.
pub(crate) fn print_joined<W: Write>(
    out: &mut W,
    front: Pending,
    bytes: &[u8],
    following: &[u8],
) -> io::Result<()>
    requires front { length front.items ≤ 4 }
    requires following { length following.now ≤ 5 }
    ensures { OnOk result (Prints W.contents out.old out.new
        (front.items ++ encode_upper bytes.now ++ following.now)) }
{
    let mut text = front;
    let (chunks, rest) = bytes.as_chunks::<CHUNK>();
    for chunk in chunks {
        push_hex(&mut text, chunk);
        out.write_all(text.as_slice())?;
        text.clear();
    }
    push_hex(&mut text, rest);
    push_text(&mut text, following);
    out.write_all(text.as_slice())
}
