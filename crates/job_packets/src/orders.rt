//! What the job `packet` is to make.

ghost use Rattle.std.specs.Prelude.{◌≡◌, ℕ, Some, IfErr, IfOk, MatchResult, codes};
ghost use Rattle.job_parts.specs.Matched.{first_of, found_of, rows_of};
ghost use Rattle.job_parts.specs.Options.{IsNumberWithin, WritesSuch};
ghost use Rattle.job_packets.specs.HexWords.{Has};
ghost use Rattle.job_packets.specs.Orders.{AreMasked, GivesWord, GivesMasked, GivesPlace, HasLoad, HasRead, HasRmw, HasWrite, NamesOrder, OrdersLoad, OrdersRead, OrdersRmw, OrdersWrite, WritesSource, is_given, is_load_alone, is_plain_reply, is_read_alone, is_rmw_alone, is_write_alone, packet_read_code, packet_write_code};
ghost use Rattle.job_packets.specs.Slots.{WritesSlots};
ghost use Rattle.job_packets.specs.Slips.{IsBadWord, IsSlip, IsWordFault, LacksWord};

use crate::hex_words::{bytes_written, hex_written};
use crate::numbers::{number_written, slots_written};
use crate::slips::{PacketFault, PacketWord, Slip};
use clap::ArgMatches;
use job_parts::arguments::{is_flag_set, text_of};
use std::alloc::Global;

/// The greatest data length of a header (ECSS-E-ST-50-52C, data length field).
const MAX_LENGTH: u32 = 0xFF_FFFF;

/// The most bytes of data of a read-modify-write (ECSS-E-ST-50-52C, read-modify-write command format).
const MAX_MASKED: usize = 4;

/// Where the data of a write are.
#[derive(Debug, Drop)]
pub enum DataSource {
    /// These bytes.
    Bytes(Vec<u8>),
    /// The bytes of the file of this name.
    File(String),
}

/// What is to be made.
#[derive(Debug, Drop)]
pub enum Order {
    /// A read.
    Read {
        /// The command code, bits 5 to 2 of the instruction.
        code: u8,
        /// The address.
        address: u32,
        /// How many bytes are read: below 2²⁴.
        count: u32,
    },
    /// A write.
    Write {
        /// The command code, bits 5 to 2 of the instruction.
        code: u8,
        /// The address.
        address: u32,
        /// The data.
        source: DataSource,
    },
    /// A read-modify-write.
    Rmw {
        /// The address.
        address: u32,
        /// The data, and the mask after them.
        bytes: Vec<u8>,
    },
    /// The packets of loads.
    Load {
        /// The name of the file of the BPF image.
        image: String,
        /// The slots of the program, 0 to 3, in the order of the loads.
        slots: Vec<u8>,
    },
}

/// Whether the argument or the option of this name is there.
fn is_given(found: &ArgMatches, name: &str) -> bool
    ensures { result ≡ is_given name.now (rows_of (found_of found.now)) }
{
    text_of(found, name).is_some()
}

/// The command code of a read.
fn packet_read_code(found: &ArgMatches) -> u8
    ensures { result ≡ packet_read_code (rows_of (found_of found.now)) }
{
    initiator::read_code(!is_flag_set(found, "no-increment"))
}

/// The command code of a write.
fn packet_write_code(found: &ArgMatches) -> u8
    ensures { result ≡ packet_write_code (rows_of (found_of found.now)) }
{
    let verify = is_flag_set(found, "verify");
    let reply = !is_flag_set(found, "no-reply");
    let increment = !is_flag_set(found, "no-increment");
    initiator::write_code(verify, reply, increment)
}

/// Whether no flag is there that changes a reply or verifies.
fn is_plain_reply(found: &ArgMatches) -> bool
    ensures { result ≡ is_plain_reply (rows_of (found_of found.now)) }
{
    !is_flag_set(found, "verify") && !is_flag_set(found, "no-reply")
}

/// Whether there are only the words of a read.
fn is_read_alone(found: &ArgMatches) -> bool
    ensures { result ≡ is_read_alone (rows_of (found_of found.now)) }
{
    is_plain_reply(found)
        && !is_given(found, "mask")
        && !is_given(found, "slot")
        && !is_flag_set(found, "final")
}

/// Whether there are only the words of a write.
fn is_write_alone(found: &ArgMatches) -> bool
    ensures { result ≡ is_write_alone (rows_of (found_of found.now)) }
{
    !is_given(found, "mask") && !is_given(found, "slot") && !is_flag_set(found, "final")
}

/// Whether there are only the words of a read-modify-write.
fn is_rmw_alone(found: &ArgMatches) -> bool
    ensures { result ≡ is_rmw_alone (rows_of (found_of found.now)) }
{
    is_plain_reply(found)
        && !is_flag_set(found, "no-increment")
        && !is_given(found, "slot")
        && !is_flag_set(found, "final")
}

/// Whether there are only the words of a load.
fn is_load_alone(found: &ArgMatches) -> bool
    ensures { result ≡ is_load_alone (rows_of (found_of found.now)) }
{
    is_plain_reply(found)
        && !is_flag_set(found, "no-increment")
        && !is_given(found, "data")
        && !is_given(found, "mask")
        && !is_given(found, "extended")
}

/// Whether the word is there.
fn is_there(found: &ArgMatches, word: PacketWord) -> bool {
    if word.is_flag() {
        is_flag_set(found, word.id())
    } else {
        is_given(found, word.id())
    }
}

/// The slip that a word does not belong to what is to be made: the first of these that is there, or else the last.
fn foreign(found: &ArgMatches, words: &[PacketWord], last: PacketWord) -> PacketFault
    ensures { IsSlip result }
{
    for word in words {
        if is_there(found, *word) {
            return PacketFault::Words(Slip::Foreign(*word));
        }
    }
    PacketFault::Words(Slip::Foreign(last))
}

/// The text of a word that must be there.
fn text_in<'a>(found: &ArgMatches<'a>, name: &str, word: PacketWord) -> Result<&'a str, PacketFault>
    ensures ok { IfOk result
        (λ text. first_of name.now (rows_of (found_of found.now)) ≡ Some text.now) }
    ensures err { IfErr result (LacksWord name.now (rows_of (found_of found.now))) }
{
    match text_of(found, name) {
        Some(text) => Ok(text),
        None => Err(PacketFault::Words(Slip::Missing(word))),
    }
}

/// The address.
fn address_of(found: &ArgMatches) -> Result<u32, PacketFault>
    ensures { MatchResult result (GivesPlace (rows_of (found_of found.now)))
        (IsBadWord (Has (GivesPlace (rows_of (found_of found.now))))) }
{
    let text = text_in(found, "address", PacketWord::Address)?;
    match hex_written(text, 8) {
        Some(address) => Ok(address),
        None => Err(PacketFault::bad(PacketWord::Address)),
    }
}

/// The decimal number that a word writes, at most this one.
fn number_in(
    found: &ArgMatches,
    name: &str,
    word: PacketWord,
    most: u32,
) -> Result<u32, PacketFault>
    ensures { MatchResult result
        (GivesWord (WritesSuch (IsNumberWithin 0 most)) (first_of name.now (rows_of (found_of found.now))))
        (IsBadWord (Has (GivesWord (WritesSuch (IsNumberWithin 0 most)) (first_of name.now (rows_of (found_of found.now)))))) }
{
    let text = text_in(found, name, word)?;
    match number_written(text, most) {
        Some(number) => Ok(number),
        None => Err(PacketFault::bad(word)),
    }
}

/// The data of a write that a word writes.
fn source_written(alloc: Global, word: &str) -> Result<DataSource, PacketFault>
    ensures ok { IfOk result (WritesSource word.now) }
    ensures err { IfErr result (IsWordFault (Has (WritesSource word.now))) }
{
    match word.strip_prefix('@') {
        Some(name) => Ok(DataSource::File(String::from_str(alloc, name)?)),
        None => Ok(DataSource::Bytes(bytes_written(alloc, word, PacketWord::Data)?)),
    }
}

/// A read: command code, address and length.
fn read_named(found: &ArgMatches) -> Result<(u8, u32, u32), PacketFault>
    ensures ok { IfOk result (λ r. OrdersRead (rows_of (found_of found.now)) r.0 r.1 r.2) }
    ensures err { IfErr result (IsBadWord (HasRead (rows_of (found_of found.now)))) }
{
    if !is_read_alone(found) {
        let others = [
            PacketWord::Verify,
            PacketWord::NoReply,
            PacketWord::Mask,
            PacketWord::Slot,
        ];
        return Err(foreign(found, &others, PacketWord::Final));
    }
    let address = address_of(found)?;
    let count = number_in(found, "data", PacketWord::Length, MAX_LENGTH)?;
    Ok((packet_read_code(found), address, count))
}

/// The data of a write.
fn source_of(alloc: Global, found: &ArgMatches) -> Result<DataSource, PacketFault>
    ensures ok { IfOk result
        (GivesWord WritesSource (first_of (codes "data") (rows_of (found_of found.now)))) }
    ensures err { IfErr result (IsWordFault (Has
        (GivesWord WritesSource (first_of (codes "data") (rows_of (found_of found.now)))))) }
{
    let text = text_in(found, "data", PacketWord::Data)?;
    source_written(alloc, text)
}

/// A write: command code, address and data.
fn write_named(alloc: Global, found: &ArgMatches) -> Result<(u8, u32, DataSource), PacketFault>
    ensures ok { IfOk result (λ r. OrdersWrite (rows_of (found_of found.now)) r.0 r.1 r.2) }
    ensures err { IfErr result (IsWordFault (HasWrite (rows_of (found_of found.now)))) }
{
    if !is_write_alone(found) {
        let others = [PacketWord::Mask, PacketWord::Slot];
        return Err(foreign(found, &others, PacketWord::Final));
    }
    let address = address_of(found)?;
    let source = source_of(alloc, found)?;
    Ok((packet_write_code(found), address, source))
}

/// The data and the mask that two words write, joined.
fn masked_written(alloc: Global, front: &str, following: &str) -> Result<Vec<u8>, PacketFault>
    ensures ok { IfOk result (λ bytes. AreMasked front.now following.now bytes.items) }
    ensures err { IfErr result (IsWordFault (Has (AreMasked front.now following.now))) }
{
    let mut bytes = bytes_written(alloc, front, PacketWord::Masked)?;
    let mask = bytes_written(alloc, following, PacketWord::Mask)?;
    if bytes.len() > MAX_MASKED {
        return Err(PacketFault::bad(PacketWord::Masked));
    }
    if mask.len() != bytes.len() {
        return Err(PacketFault::bad(PacketWord::Mask));
    }
    bytes.extend_from_slice(mask.as_slice())?;
    Ok(bytes)
}

/// The data and the mask of a read-modify-write, joined.
fn masked_of(alloc: Global, found: &ArgMatches) -> Result<Vec<u8>, PacketFault>
    ensures ok { IfOk result (λ bytes.
        GivesMasked (first_of (codes "data") (rows_of (found_of found.now)))
        (first_of (codes "mask") (rows_of (found_of found.now))) bytes.items) }
    ensures err { IfErr result (IsWordFault (Has
        (GivesMasked (first_of (codes "data") (rows_of (found_of found.now)))
        (first_of (codes "mask") (rows_of (found_of found.now)))))) }
{
    let front = text_in(found, "data", PacketWord::Masked)?;
    let following = text_in(found, "mask", PacketWord::Mask)?;
    masked_written(alloc, front, following)
}

/// A read-modify-write: address, and data with the mask.
fn rmw_named(alloc: Global, found: &ArgMatches) -> Result<(u32, Vec<u8>), PacketFault>
    ensures ok { IfOk result (λ r. OrdersRmw (rows_of (found_of found.now)) r.0 r.1.items) }
    ensures err { IfErr result (IsWordFault (HasRmw (rows_of (found_of found.now)))) }
{
    if !is_rmw_alone(found) {
        let others = [
            PacketWord::Verify,
            PacketWord::NoReply,
            PacketWord::NoIncrement,
            PacketWord::Slot,
        ];
        return Err(foreign(found, &others, PacketWord::Final));
    }
    let address = address_of(found)?;
    let bytes = masked_of(alloc, found)?;
    Ok((address, bytes))
}

/// The slip that words are there that no load has.
fn foreign_to_load(found: &ArgMatches) -> PacketFault
    ensures { IsSlip result }
{
    let others = [
        PacketWord::Verify,
        PacketWord::NoReply,
        PacketWord::NoIncrement,
        PacketWord::Data,
        PacketWord::Mask,
    ];
    foreign(found, &others, PacketWord::Extended)
}

/// The slots of loads.
fn slots_of(alloc: Global, found: &ArgMatches) -> Result<Vec<u8>, PacketFault>
    ensures ok { IfOk result (λ slots.
        GivesWord WritesSlots (first_of (codes "slot") (rows_of (found_of found.now))) slots.items) }
    ensures err { IfErr result (IsWordFault (Has
        (GivesWord WritesSlots (first_of (codes "slot") (rows_of (found_of found.now)))))) }
{
    let text = text_in(found, "slot", PacketWord::Slot)?;
    slots_written(alloc, text)
}

/// Loads: the name of the image's file, and the slots.
fn load_named<'a>(alloc: Global, found: &ArgMatches<'a>) -> Result<(&'a str, Vec<u8>), PacketFault>
    ensures ok { IfOk result (λ r. OrdersLoad (rows_of (found_of found.now)) r.0.now r.1.items) }
    ensures err { IfErr result (IsWordFault (HasLoad (rows_of (found_of found.now)))) }
{
    if !is_load_alone(found) {
        return Err(foreign_to_load(found));
    }
    let image = text_in(found, "address", PacketWord::Address)?;
    let slots = slots_of(alloc, found)?;
    Ok((image, slots))
}

/// What the words order.
///
/// # Errors
///
/// The slip of the first word that is wrong, if they order nothing that can be made, or `Memory` if memory was refused.
pub fn order_of(alloc: Global, found: &ArgMatches) -> Result<Order, PacketFault>
    ensures ok { IfOk result (NamesOrder (rows_of (found_of found.now))) }
    ensures err { IfErr result (IsWordFault (Has (NamesOrder (rows_of (found_of found.now))))) }
{
    match text_of(found, "kind") {
        Some("read") => {
            let (code, address, count) = read_named(found)?;
            Ok(Order::Read {
                code,
                address,
                count,
            })
        }
        Some("write") => {
            let (code, address, source) = write_named(alloc, found)?;
            Ok(Order::Write {
                code,
                address,
                source,
            })
        }
        Some("rmw") => {
            let (address, bytes) = rmw_named(alloc, found)?;
            Ok(Order::Rmw { address, bytes })
        }
        Some("load") => {
            let (image, slots) = load_named(alloc, found)?;
            let image = String::from_str(alloc, image)?;
            Ok(Order::Load { image, slots })
        }
        _ => Err(PacketFault::bad(PacketWord::Kind)),
    }
}
