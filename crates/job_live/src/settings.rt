//! The write of an instrument: `set EXTENDED ADDRESS BYTES`.

ghost use Rattle.std.specs.Prelude.{ℕ, List, IfErr, IfOk, MatchResult, map};
ghost use Rattle.job_live.specs.Asks.{IsAskedBy};
ghost use Rattle.job_live.specs.declared.asks.Asks.TheVariants.{Set};
ghost use Rattle.job_live.specs.Settings.{AreNoBytes, AreSetWords, IsNoAddress, IsNoByte, IsNoSetting, WritesAddress, WritesByteDigits, WritesByteList, WritesSetting};

use hex::FromHex;
use job_parts::bad_lines::BadLine;
use spw::LineFault;
use std::alloc::Global;

/// A write that an instrument makes without a command.
#[derive(Debug, Drop)]
pub struct Setting {
    /// The extended address: the bank of the node has 0.
    pub extended: u8,
    /// The address of the first byte.
    pub address: u32,
    /// The bytes.
    pub bytes: Vec<u8>,
}

/// The fault of a word that does not have the right number of hexadecimal digits.
const NOT_HEX: BadLine = BadLine::Line(LineFault::BadHex);

/// The byte that two hexadecimal digits write.
fn byte_of(word: &str) -> Result<u8, BadLine>
    ensures { MatchResult result (WritesByteDigits word.now) (IsNoByte word.now) }
{
    match <[u8; 1] as FromHex>::from_hex(word) {
        Ok(bytes) => Ok(bytes[0]),
        Err(_) => Err(NOT_HEX),
    }
}

/// The address that eight hexadecimal digits write.
fn address_of(word: &str) -> Result<u32, BadLine>
    ensures { MatchResult result (WritesAddress word.now) (IsNoAddress word.now) }
{
    match <[u8; 4] as FromHex>::from_hex(word) {
        Ok(bytes) => Ok(u32::from_be_bytes(bytes)),
        Err(_) => Err(NOT_HEX),
    }
}

/// The bytes that pairs of hexadecimal digits write.
fn bytes_of(alloc: Global, word: &str) -> Result<Vec<u8>, BadLine>
    ensures { MatchResult result (λ bytes.
        WritesByteList word.now bytes.items) (AreNoBytes word.now) }
{
    Ok(hex::decode(alloc, word).map_err(LineFault::from)?)
}

/// The setting of three words.
#[tactic(auto, using(crate::proofs::SetLines::unset_byte, crate::proofs::SetLines::unset_address, crate::proofs::SetLines::unset_bytes))]
fn setting_of(alloc: Global, extended: &str, address: &str, bytes: &str) -> Result<Setting, BadLine>
    ensures ok { (words : List (List ℕ)) → AreSetWords words extended.now address.now bytes.now
        → IfOk result (WritesSetting words) }
    ensures err { (words : List (List ℕ)) → AreSetWords words extended.now address.now bytes.now
        → IfErr result (IsNoSetting words) }
{
    Ok(Setting {
        extended: byte_of(extended)?,
        address: address_of(address)?,
        bytes: bytes_of(alloc, bytes)?,
    })
}

/// What the words of a line that begins with `set` write: an extended address in two hexadecimal digits, an address in
/// eight, and bytes in pairs of them. The condition is a line that asks for such a write
/// ([`asked`](crate::asks::asked)).
///
/// # Errors
///
/// In this order: `NoEvent` for another number of words, and `BadHex` for a word that is no such digits. `Memory` if
/// memory was refused.
pub fn read_setting(alloc: Global, words: &[&str]) -> Result<Setting, BadLine>
    requires { IsAskedBy (map (λ word. word.now) words.now) Set }
    ensures ok { IfOk result (WritesSetting (map (λ word. word.now) words.now)) }
    ensures err { IfErr result (IsNoSetting (map (λ word. word.now) words.now)) }
{
    let [_set, extended, address, bytes] = words else {
        return Err(BadLine::NoEvent);
    };
    setting_of(alloc, extended, address, bytes)
}
