//! Packet lines: text that writes a port, the bytes of a packet and its end marker.

ghost use Rattle.std.specs.Prelude.{◌≡◌, ◌≤◌, ◌++◌, map, length, All, IfOk, IfErr, IfSome, OnOk, MatchResult};
ghost use Rattle.spw.specs.Line.{words_of as words_in, AreNoParts, AreParts, IsBytesFault, IsHex, IsHexFault, IsNoMark, IsNoPort, IsReading, IsUnambiguous, WriteBytes, WritesPort, bytes_written, mark_word, marker_word};

use crate::digits::append_hex;
use crate::faults::LineFault;
use crate::packets::{End, MAX_PACKET, Packet};
use crate::words::{first_word, last_word};
use std::alloc::{AllocError, Global};

/// How many ports there are: their numbers are 0 to 31.
pub const PORTS: u8 = 32;

/// The words of a line: what is between its spaces.
///
/// More spaces before, between and after the words are allowed. A tab or a carriage return is part of a word.
///
/// # Errors
///
/// `AllocError` if memory was refused.
pub fn words_of(alloc: Global, line: &str) -> Result<Vec<&str>, AllocError>
    ensures { IfOk result (λ words. map (λ word. word.now) words.items ≡ words_in line.now) }
{
    line.split(' ')
        .filter(|word| !word.is_empty())
        .collect(alloc)
}

/// The port that a word of one digit writes, or `None` for other words.
#[inline(always)]
fn port_of_digit(word: &[u8]) -> Option<u8>
    ensures { IfSome result (WritesPort word.now) }
{
    let [digit] = word else {
        return None;
    };
    let port = digit.wrapping_sub(b'0');
    if port < 10 { Some(port) } else { None }
}

/// The port that a word writes: a decimal number from 0 to 31 without a sign.
///
/// # Errors
///
/// `NoPort` if the word writes no port.
pub fn read_port(word: &str) -> Result<u8, LineFault>
    ensures { MatchResult result (WritesPort word.now) (IsNoPort word.now) }
{
    if let Some(port) = port_of_digit(word.as_bytes()) {
        return Ok(port);
    }
    if word.starts_with('+') {
        return Err(LineFault::NoPort);
    }
    let port: u8 = word.parse().map_err(|_| LineFault::NoPort)?;
    if port < PORTS {
        Ok(port)
    } else {
        Err(LineFault::NoPort)
    }
}

/// A line taken apart: the port that its first word writes, the text between that word and the last, and the last word.
///
/// # Errors
///
/// - `NoPort` if there is no first word, or it writes no port.
/// - `BadMarker` if there is no other word.
#[inline(always)]
fn parts_of(line: &str) -> Result<(u8, &str, &str), LineFault>
    ensures { MatchResult result
        (λ p. AreParts (words_in line.now) p.0 (words_in p.1.now) p.2.now)
        (AreNoParts (words_in line.now)) }
{
    let (port, rest) = first_word(line).ok_or(LineFault::NoPort)?;
    let port = read_port(port)?;
    let (hex, last) = last_word(rest).ok_or(LineFault::BadMarker)?;
    Ok((port, hex, last))
}

/// The marker that a word writes, or `BadMarker`.
#[inline(always)]
fn end_of(word: &str) -> Result<End, LineFault>
    ensures { MatchResult result (λ end. word.now ≡ marker_word end) (IsNoMark marker_word word.now) }
{
    match word {
        "EOP" => Ok(End::Eop),
        "EEP" => Ok(End::Eep),
        _ => Err(LineFault::BadMarker),
    }
}

/// What a piece ends in by its last word: a marker, or `None` for `PART`. The error is `BadMarker`.
#[inline(always)]
fn mark_of(word: &str) -> Result<Option<End>, LineFault>
    ensures { MatchResult result (λ mark. word.now ≡ mark_word mark) (IsNoMark mark_word word.now) }
{
    match word {
        "PART" => Ok(None),
        _ => Ok(Some(end_of(word)?)),
    }
}

/// Puts the bytes that a word of hexadecimal digits writes after others.
fn append_word(bytes: &mut Vec<u8>, word: &str) -> Result<(), LineFault>
    ensures ok { OnOk result
        (IsHex word.now × (bytes.new.items ≡ bytes.old.items ++ bytes_written word.now)) }
    ensures err { IfErr result (IsHexFault (IsHex word.now)) }
{
    if append_hex(bytes, word.as_bytes())? {
        Ok(())
    } else {
        Err(LineFault::BadHex)
    }
}

/// The bytes that the words of a text write, joined. Most texts are one word, which is read without a search for
/// spaces: no space is a digit.
#[inline(always)]
fn bytes_of(alloc: Global, text: &str) -> Result<Vec<u8>, LineFault>
    ensures ok { IfOk result (λ bytes. WriteBytes (words_in text.now) bytes.items) }
    ensures err { IfErr result (IsHexFault (All IsHex (words_in text.now))) }
{
    let mut bytes = Vec::with_capacity(alloc, text.len() / 2)?;
    if append_hex(&mut bytes, text.as_bytes())? {
        return Ok(bytes);
    }
    bytes.clear();
    let mut rest = text;
    while let Some((word, following)) = first_word(rest) {
        append_word(&mut bytes, word)?;
        rest = following;
    }
    Ok(bytes)
}

/// The bytes of a packet, or of a piece of one, that the words of a text write: at most [`MAX_PACKET`].
#[inline(always)]
fn packet_bytes(alloc: Global, hex: &str) -> Result<Vec<u8>, LineFault>
    ensures { MatchResult result
        (λ bytes. WriteBytes (words_in hex.now) bytes.items × (length bytes.items ≤ MAX_PACKET))
        (IsBytesFault (words_in hex.now)) }
{
    let bytes = bytes_of(alloc, hex)?;
    if bytes.len() > MAX_PACKET {
        return Err(LineFault::TooLong);
    }
    Ok(bytes)
}

/// The port and the packet that a line writes.
///
/// A packet line has words separated by spaces:
///
/// - the port (decimal, 0 to 31)
/// - words with an even number of hexadecimal digits in either case, whose bytes are joined
/// - `EOP` or `EEP`
///
/// More spaces before, between and after the words are allowed. A tab or a carriage return is part of a word. Without
/// hexadecimal words the packet is empty.
///
/// # Errors
///
/// They are tested in this order: `NoPort`, `BadMarker`, `BadHex`, `TooLong`. `Memory` comes if memory was refused.
pub fn read_line(alloc: Global, line: &str) -> Result<(u8, Packet), LineFault>
    ensures { IsReading marker_word line.now (λ r. (r.0, r.1.bytes, r.1.end)) result }
{
    let (port, hex, last) = parts_of(line)?;
    let end = end_of(last)?;
    let bytes = packet_bytes(alloc, hex)?;
    Ok((port, Packet::new(bytes, end)?))
}

/// The port, the bytes and the marker of the piece of a packet that a line writes. It is a packet line whose last word
/// may also be `PART`. Then there is no marker, and the packet goes on with the next piece.
///
/// # Errors
///
/// Those of [`read_line`], in its order.
pub fn read_part(alloc: Global, line: &str) -> Result<(u8, Vec<u8>, Option<End>), LineFault>
    ensures { IsReading mark_word line.now (λ r. (r.0, r.1.items, r.2)) result }
{
    let (port, hex, last) = parts_of(line)?;
    let mark = mark_of(last)?;
    let bytes = packet_bytes(alloc, hex)?;
    Ok((port, bytes, mark))
}

/// A law and no work: a line writes at most one port and one packet, or one port and one piece of a packet.
pub fn line_is_unambiguous()
    ensures packet { IsUnambiguous marker_word }
    ensures piece { IsUnambiguous mark_word }
{}
