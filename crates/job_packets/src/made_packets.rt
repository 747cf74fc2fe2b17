//! What the job `packet` does.

ghost use Rattle.std.specs.Prelude.{◌≡◌, ◌<◌, ◌≤◌, ◌^◌, ◌++◌, IfErr, IfOk, OnOk, length, option_map, string_bytes, true};
ghost use Rattle.rmap.specs.Reply.{with_crc};
ghost use Rattle.job_parts.specs.Stops.{StopsBy};
ghost use Rattle.job_packets.specs.MadePackets.{IsContent, IsMade, IsNotMade, MakesFile, packets_fit, is_short, made_text, own_request, with_text};
ghost use Rattle.job_packets.specs.Requests.{has_reply_address, request_line_of};

use crate::loads::add_loads;
use crate::orders::{DataSource, Order};
use crate::packet::PacketWords;
use crate::packet_options::HeaderWords;
use crate::requests::add_line;
use initiator::{DATA_OVERHEAD, RMW_CODE, Request, body_with_crc};
use job_parts::faults::Fault;
use job_parts::printing::print_text;
use job_parts::programs::bytes_in;
use job_parts::status::ExitStatus;
use job_parts::stops::JobStop;
use job_parts::storage::Files;
use rmap::STAGING_SIZE;
use spw::MAX_PACKET;
use std::alloc::{AllocError, Global};
use std::io::Write;

/// The data or the image of an order: those of its file, or those that the words have.
fn content_of<'a, F: Files>(
    alloc: Global,
    words: &'a PacketWords,
    files: &mut F,
) -> Result<Vec<u8>, Fault<'a>>
    ensures content { IfOk result (λ content.
        IsContent F.reads words.now.order files.old content.items files.new) }
    ensures refused { IfErr result (IsNotMade F.reads words.now files.old files.new) }
{
    match &words.order {
        Order::Read { .. } => Ok(Vec::new(alloc)),
        Order::Write {
            source: DataSource::Bytes(bytes),
            ..
        }
        | Order::Rmw { bytes, .. } => Ok(Vec::from_slice(alloc, bytes.as_slice())?),
        Order::Write {
            source: DataSource::File(name),
            ..
        } => bytes_in(alloc, files, name.as_str()),
        Order::Load { image, .. } => bytes_in(alloc, files, image.as_str()),
    }
}

/// The one command of a packet.
fn own_request(header: &HeaderWords, code: u8, address: u32, count: u32) -> Request
    ensures { result ≡ own_request header.now code address count }
{
    Request {
        code,
        transaction: header.transaction,
        extended: header.extended,
        address,
        count,
    }
}

/// Whether the reply address has 0, 4, 8 or 12 bytes.
fn has_reply_address(header: &HeaderWords) -> bool
    ensures { result ≡ has_reply_address header.now }
{
    let bytes = header.reply_address.as_slice().len();
    bytes % 4 == 0 && bytes <= 12
}

/// Whether a packet with this many bytes of data is not too long.
fn is_short(header: &HeaderWords, count: usize) -> bool
    requires { has_reply_address header.now ≡ true }
    ensures { result ≡ is_short header.now count }
{
    let room = MAX_PACKET - DATA_OVERHEAD - header.reply_address.as_slice().len();
    count <= room
}

/// Whether there are such packets.
fn packets_fit(header: &HeaderWords, order: &Order, content: &[u8]) -> bool
    requires { has_reply_address header.now ≡ true }
    ensures { result ≡ packets_fit header.now order.now content.now }
{
    match order {
        Order::Read { code, count, .. } => *code < 16 && *count < 1 << 24,
        Order::Write { code, .. } => *code < 16 && is_short(header, content.len()),
        Order::Rmw { .. } => is_short(header, content.len()),
        Order::Load { .. } => content.len() <= STAGING_SIZE as usize,
    }
}

/// Adds the packet line of a command that carries data.
fn add_data(
    text: &mut String,
    alloc: Global,
    header: &HeaderWords,
    code: u8,
    address: u32,
    content: &[u8],
) -> Result<(), AllocError>
    requires address { has_reply_address header.now ≡ true }
    requires code { code < 16 }
    requires short { length content.now < 2 ^ 24 }
    ensures { OnOk result (string_bytes text.new ≡ string_bytes text.old
        ++ request_line_of header.now (own_request header.now code address (length content.now)) (with_crc content.now)) }
{
    let body = body_with_crc(alloc, content)?;
    let request = own_request(header, code, address, content.len() as u32);
    add_line(text, alloc, header, request, body.as_slice())
}

/// Adds the lines of the packets that are ordered.
fn add_packets(
    text: &mut String,
    alloc: Global,
    header: &HeaderWords,
    order: &Order,
    content: &[u8],
) -> Result<(), AllocError>
    requires address { has_reply_address header.now ≡ true }
    requires packets_fit { packets_fit header.now order.now content.now ≡ true }
    ensures { OnOk result
        (string_bytes text.new ≡ with_text (string_bytes text.old) header.now order.now content.now) }
{
    match order {
        Order::Read {
            code,
            address,
            count,
        } => {
            let request = own_request(header, *code, *address, *count);
            add_line(text, alloc, header, request, &[])
        }
        Order::Write { code, address, .. } => {
            add_data(text, alloc, header, *code, *address, content)
        }
        Order::Rmw { address, .. } => add_data(text, alloc, header, RMW_CODE, *address, content),
        Order::Load { slots, .. } => add_loads(text, alloc, header, slots.as_slice(), content),
    }
}

/// The lines of the packets that are ordered, or `None` if there are no such packets.
///
/// # Errors
///
/// An error if memory is refused.
pub fn made_text(
    alloc: Global,
    words: &PacketWords,
    content: &[u8],
) -> Result<Option<String>, AllocError>
    ensures { IfOk result (λ made. option_map string_bytes made ≡ made_text words.now content.now) }
{
    let header = &words.header;
    if !has_reply_address(header) || !packets_fit(header, &words.order, content) {
        return Ok(None);
    }
    let mut text = String::new(alloc);
    add_packets(&mut text, alloc, header, &words.order, content)?;
    Ok(Some(text))
}

/// The same with the data or the image that the words name.
fn packets<'a, F: Files>(
    alloc: Global,
    words: &'a PacketWords,
    files: &mut F,
) -> Result<Option<String>, Fault<'a>>
    ensures made { IfOk result (λ made.
        IsMade F.reads words.now files.old (option_map string_bytes made) files.new) }
    ensures refused { IfErr result (IsNotMade F.reads words.now files.old files.new) }
{
    let content = content_of(alloc, words, files)?;
    Ok(made_text(alloc, words, content.as_slice())?)
}

/// Prints the packet lines of the packets that the words order. If there are no such packets, it returns `Misused` and
/// prints nothing: one would be longer than 4,200 bytes, or an image is larger than the staging.
///
/// # Errors
///
/// `CannotRead` of the file of the data or the image, `NoMemory`, or that the writer failed.
pub fn packet_file<'a, F: Files, W: Write>(
    alloc: Global,
    words: &'a PacketWords,
    files: &mut F,
    out: &mut W,
) -> Result<ExitStatus, JobStop<'a>>
    ensures done { IfOk result (MakesFile F.reads words.now files.old files.new
        (W.contents out.old) (W.contents out.new)) }
    ensures stops { IfErr result (StopsBy (IsNotMade F.reads words.now files.old files.new)) }
    ensures quiet { IfErr result (StopsBy (λ _. W.contents out.new ≡ W.contents out.old)) }
{
    let Some(text) = packets(alloc, words, files)? else {
        return Ok(ExitStatus::Misused);
    };
    print_text(out, text.as_str())?;
    Ok(ExitStatus::Done)
}
