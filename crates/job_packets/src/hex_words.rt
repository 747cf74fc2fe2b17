//! What words in hexadecimal digits write: numbers, and bytes.

ghost use Rattle.std.specs.Prelude.{◌≡◌, ◌≤◌, ◌<◌, ◌^◌, ℕ, IfErr, IfOk, IfSome, MatchOption};
ghost use Rattle.job_packets.specs.HexWords.{Has, WritesBytes, WritesDigits, WritesHexWord, fault_of_hex_word};
ghost use Rattle.job_packets.specs.Slips.{IsWordFault};

use crate::slips::{PacketFault, PacketWord};
use hex::FromHexError;
use std::alloc::Global;

/// The number that hexadecimal digits write, at most `most` of them.
fn digits_written(digits: &str, most: usize) -> Option<u32>
    requires { most ≤ 8 }
    ensures writes { MatchOption result ((n : ℕ) → ¬ WritesDigits most digits.now n)
        (WritesDigits most digits.now) }
    ensures low { IfSome result (λ n. n < 16 ^ most) }
{
    if digits.len() > most || digits.starts_with('+') {
        return None;
    }
    u32::from_str_radix(digits, 16).ok()
}

/// The number that a word writes in at most `most` hexadecimal digits, with or without `0x` before them.
pub fn hex_written(word: &str, most: usize) -> Option<u32>
    requires { most ≤ 8 }
    ensures writes { MatchOption result ((n : ℕ) → ¬ WritesHexWord most word.now n)
        (WritesHexWord most word.now) }
    ensures low { IfSome result (λ n. n < 16 ^ most) }
{
    match word.strip_prefix("0x") {
        Some(digits) => digits_written(digits, most),
        None => digits_written(word, most),
    }
}

/// The fault if the text of this word is not decoded: it writes no bytes, or memory was refused.
fn fault_of(refused: FromHexError, word: PacketWord) -> PacketFault
    ensures { result ≡ fault_of_hex_word word refused }
{
    match refused {
        FromHexError::OutOfMemory => PacketFault::Memory,
        FromHexError::InvalidHexCharacter { .. }
        | FromHexError::OddLength
        | FromHexError::InvalidStringLength => PacketFault::bad(word),
    }
}

/// The bytes that the text of this word writes: pairs of hexadecimal digits, one at least, or `-` for none.
///
/// # Errors
///
/// The slip that the word is bad, or `Memory` if memory was refused.
pub fn bytes_written(alloc: Global, text: &str, word: PacketWord) -> Result<Vec<u8>, PacketFault>
    ensures ok { IfOk result (λ bytes. WritesBytes text.now bytes.items) }
    ensures err { IfErr result (IsWordFault (Has (WritesBytes text.now))) }
{
    if text == "-" {
        return Ok(Vec::new(alloc));
    }
    if text.is_empty() {
        return Err(PacketFault::bad(word));
    }
    match hex::decode(alloc, text) {
        Ok(bytes) => Ok(bytes),
        Err(refused) => Err(fault_of(refused, word)),
    }
}
