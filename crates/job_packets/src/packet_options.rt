//! The options of the job `packet`: the port, and the fields of a header that have a default.

ghost use Rattle.std.specs.Prelude.{◌≡◌, ℕ, List, IfErr, IfOk, MatchResult, codes, false};
ghost use Rattle.job_parts.specs.Matched.{app_of, fields_of, first_of, found_of, rows_of};
ghost use Rattle.job_packets.specs.HexWords.{Has};
ghost use Rattle.job_packets.specs.PacketOptions.{GivesAddress, GivesHeader, GivesHex, GivesPort, padded_address, with_field_options};
ghost use Rattle.job_packets.specs.Slips.{IsBadWord, IsWordFault};

use crate::hex_words::{bytes_written, hex_written};
use crate::slips::{PacketFault, PacketWord};
use clap::{ArgMatches, Command};
use job_parts::arguments::{option, text_of};
use spw::read_port;
use std::alloc::{AllocError, Global};

/// The most bytes of a reply address (ECSS-E-ST-50-52C, reply address field).
const MAX_REPLY_ADDRESS: usize = 12;

/// The words of a packet's port, and of the fields of its header that have a default.
#[derive(Debug, Drop)]
pub struct HeaderWords {
    /// The port of the packet line, 0 to 31; 0 without `--port`.
    pub port: u8,
    /// The target logical address; FE without `--target`.
    pub target: u8,
    /// The key; 00 without `--key`.
    pub key: u8,
    /// The initiator logical address; 67 without `--initiator`.
    pub initiator: u8,
    /// The transaction identifier, for a load that of its first packet; 0000 without `--transaction`.
    pub transaction: u16,
    /// The extended address; 00 without `--extended`.
    pub extended: u8,
    /// The reply address, 0, 4, 8 or 12 bytes, which may begin with zeros; none without `--reply-address`.
    pub reply_address: Vec<u8>,
}

/// The subcommand with the options of a packet's fields.
///
/// # Errors
///
/// An error if memory is refused.
pub fn field_arguments<'a>(alloc: Global, command: Command<'a>) -> Result<Command<'a>, AllocError>
    requires { (fields_of command).has_globals ≡ false }
    ensures shape { IfOk result (λ c. app_of c ≡ with_field_options (app_of command.entry)) }
    ensures local { IfOk result (λ c. (fields_of c).has_globals ≡ false) }
{
    let target = option(
        alloc,
        "target",
        "HH",
        "The target logical address; FE without it",
    );
    let key = option(alloc, "key", "HH", "The key; 00 without it");
    let help = "The initiator logical address; 67 without it";
    let initiator = option(alloc, "initiator", "HH", help);
    let help = "The transaction identifier, of a load that of its first packet; 0000 without it";
    let transaction = option(alloc, "transaction", "HHHH", help);
    let help = "The extended address, but of a load, which goes to FF; 00 without it";
    let extended = option(alloc, "extended", "HH", help);
    let help =
        "The reply address: 1 to 12 bytes, with zeros in front up to 4, 8 or 12, or - for none; none without it";
    let reply_address = option(alloc, "reply-address", "HEX", help);
    command
        .arg(target)?
        .arg(key)?
        .arg(initiator)?
        .arg(transaction)?
        .arg(extended)?
        .arg(reply_address)
}

/// The port by `--port`; 0 without it.
///
/// # Errors
///
/// The slip that the port is bad, if the value writes none.
pub fn port_of(found: &ArgMatches) -> Result<u8, PacketFault>
    ensures { MatchResult result
        (GivesPort (first_of (codes "port") (rows_of (found_of found.now))))
        (IsBadWord (Has (GivesPort (first_of (codes "port") (rows_of (found_of found.now)))))) }
{
    match text_of(found, "port") {
        Some(text) => read_port(text).map_err(|_| PacketFault::bad(PacketWord::Port)),
        None => Ok(0),
    }
}

/// The byte by the option of this name, of at most two hexadecimal digits; the default without it.
///
/// # Errors
///
/// The slip that this word is bad, if the value writes no byte.
pub fn byte_of(
    found: &ArgMatches,
    name: &str,
    word: PacketWord,
    default: u8,
) -> Result<u8, PacketFault>
    ensures { MatchResult result
        (GivesHex 2 default (first_of name.now (rows_of (found_of found.now))))
        (IsBadWord (Has (GivesHex 2 default (first_of name.now (rows_of (found_of found.now)))))) }
{
    let Some(text) = text_of(found, name) else {
        return Ok(default);
    };
    match hex_written(text, 2) {
        Some(byte) => Ok(byte as u8),
        None => Err(PacketFault::bad(word)),
    }
}

/// The number of two bytes by an option of four hexadecimal digits.
fn pair_of(
    found: &ArgMatches,
    name: &str,
    word: PacketWord,
    default: u16,
) -> Result<u16, PacketFault>
    ensures { MatchResult result
        (GivesHex 4 default (first_of name.now (rows_of (found_of found.now))))
        (IsBadWord (Has (GivesHex 4 default (first_of name.now (rows_of (found_of found.now)))))) }
{
    let Some(text) = text_of(found, name) else {
        return Ok(default);
    };
    match hex_written(text, 4) {
        Some(pair) => Ok(pair as u16),
        None => Err(PacketFault::bad(word)),
    }
}

/// A reply address of at most 12 bytes, with the zeros that come before it.
fn padded_address(alloc: Global, bytes: &[u8]) -> Result<Vec<u8>, AllocError>
    ensures { IfOk result (λ address. address.items ≡ padded_address bytes.now) }
{
    let zeros = (4 - bytes.len() % 4) % 4;
    let mut address = vec![in alloc; 0; zeros]?;
    address.extend_from_slice(bytes)?;
    Ok(address)
}

/// The reply address by `--reply-address`.
fn reply_address_of(alloc: Global, found: &ArgMatches) -> Result<Vec<u8>, PacketFault>
    ensures ok { IfOk result (λ bytes.
        GivesAddress (first_of (codes "reply-address") (rows_of (found_of found.now))) bytes.items) }
    ensures err { IfErr result (IsWordFault (Has
        (GivesAddress (first_of (codes "reply-address") (rows_of (found_of found.now)))))) }
{
    let Some(text) = text_of(found, "reply-address") else {
        return Ok(Vec::new(alloc));
    };
    let bytes = bytes_written(alloc, text, PacketWord::ReplyAddress)?;
    if bytes.len() > MAX_REPLY_ADDRESS {
        return Err(PacketFault::bad(PacketWord::ReplyAddress));
    }
    Ok(padded_address(alloc, bytes.as_slice())?)
}

/// The words of a header by the options.
///
/// # Errors
///
/// The slip of the first option that has a value that it may not have, or `Memory` if memory was refused.
pub fn header_words(alloc: Global, found: &ArgMatches) -> Result<HeaderWords, PacketFault>
    ensures ok { IfOk result (GivesHeader (rows_of (found_of found.now))) }
    ensures err { IfErr result (IsWordFault (Has (GivesHeader (rows_of (found_of found.now))))) }
{
    let port = port_of(found)?;
    let target = byte_of(found, "target", PacketWord::Target, 0xFE)?;
    let key = byte_of(found, "key", PacketWord::Key, 0)?;
    let initiator = byte_of(found, "initiator", PacketWord::Initiator, 0x67)?;
    let transaction = pair_of(found, "transaction", PacketWord::Transaction, 0)?;
    let extended = byte_of(found, "extended", PacketWord::Extended, 0)?;
    let reply_address = reply_address_of(alloc, found)?;
    Ok(HeaderWords {
        port,
        target,
        key,
        initiator,
        transaction,
        extended,
        reply_address,
    })
}
