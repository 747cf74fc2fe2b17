//! The commands that are requested of the job `packet`, each as its packet line.

ghost use Rattle.std.specs.Prelude.{◌≡◌, ◌≤◌, ◌<◌, ◌^◌, ◌++◌, IfOk, IsTrue, OnOk, length, string_bytes, true};
ghost use Rattle.initiator.specs.Writing.{AreFields, command_with};
ghost use Rattle.rmap.specs.Command.{IsHeader, bytes_of};
ghost use Rattle.job_packets.specs.Requests.{fields_with, has_reply_address, request_line_of, marked_line};

use crate::packet_options::HeaderWords;
use initiator::{CommandFields, Request, write_command};
use rmap::Instruction;
use std::alloc::{AllocError, Global};

/// The fields of the command that is requested.
fn fields_with<'a>(header: &'a HeaderWords, request: Request) -> CommandFields<'a>
    requires address { has_reply_address header.now ≡ true }
    requires code { request.code < 16 }
    requires count { request.count < 2 ^ 24 }
    ensures fields { AreFields result }
    ensures same { (body : _) → command_with result body
        ≡ command_with (fields_with header.now request) body }
{
    let reply_address = header.reply_address.as_slice();
    let words = (reply_address.len() / 4) as u8;
    CommandFields {
        target: header.target,
        instruction: Instruction::command(request.code, words),
        key: header.key,
        reply_address,
        initiator: header.initiator,
        transaction: request.transaction,
        extended: request.extended,
        address: request.address,
        length: request.count,
    }
}

/// Adds a line of a port, these digits and the marker `EOP`.
fn add_marked(text: &mut String, port: u8, digits: &str) -> Result<(), AllocError>
    ensures { OnOk result
        (string_bytes text.new ≡ string_bytes text.old ++ marked_line port digits.now) }
{
    writeln!(text, "{port} {digits} EOP")
}

/// The bytes of the command that is requested, with that body. Conditions: the reply address has 0, 4, 8 or 12 bytes, and code and
/// length fit their fields.
///
/// # Errors
///
/// An error if memory is refused.
pub fn command_bytes(
    alloc: Global,
    header: &HeaderWords,
    request: Request,
    body: &[u8],
) -> Result<Vec<u8>, AllocError>
    requires address { has_reply_address header.now ≡ true }
    requires code { request.code < 16 }
    requires count { request.count < 2 ^ 24 }
    ensures bytes { IfOk result (λ made. made.items
        ≡ bytes_of (command_with (fields_with header.now request) body.now)) }
    ensures header { IfOk result (λ _.
        IsHeader (command_with (fields_with header.now request) body.now)) }
{
    let fields = fields_with(header, request);
    write_command(alloc, &fields, body)
}

/// Adds the packet line of the command that is requested, with that body.
///
/// # Errors
///
/// An error if memory is refused.
pub fn add_line(
    text: &mut String,
    alloc: Global,
    header: &HeaderWords,
    request: Request,
    body: &[u8],
) -> Result<(), AllocError>
    requires address { has_reply_address header.now ≡ true }
    requires code { request.code < 16 }
    requires count { request.count < 2 ^ 24 }
    ensures { OnOk result
        (string_bytes text.new ≡ string_bytes text.old ++ request_line_of header.now request body.now) }
{
    let bytes = command_bytes(alloc, header, request, body)?;
    let digits = hex::encode_upper(alloc, bytes.as_slice())?;
    let port = header.port;
    add_marked(text, port, digits.as_str())?;
    Ok(())
}
