//! Commands that are made, for tests and for readers of commands.

ghost use Rattle.std.specs.Prelude.{◌≡◌, ◌≤◌, ◌<◌, ◌^◌, ◌*◌, ◌∷◌, ◌++◌, [], length, IfOk, OnOk};
ghost use Rattle.byteorder.specs.Endian.{big_bytes};
ghost use Rattle.rcrc.specs.Crc.{crc_of};
ghost use Rattle.rmap.specs.Command.{IsHeader, bytes_of};
ghost use Rattle.rmap.specs.Reply.{with_crc};
ghost use Rattle.initiator.specs.Writing.{AreFields, command_with, front_with, header_with, tail_with};

use byteorder::{BigEndian, ByteOrder};
use rcrc::crc;
use rmap::{Instruction, PROTOCOL};
use std::alloc::{AllocError, Global};

/// How many bytes a command that carries data has beside its reply address and its data: 16 of its header, and the
/// data CRC. See ECSS-E-ST-50-52C, write command format, read-modify-write command format.
pub const DATA_OVERHEAD: usize = 17;

/// The fields of a command's header, except its CRC (ECSS-E-ST-50-52C, write command format, read command format,
/// read-modify-write command format).
#[derive(Clone, Copy, Debug)]
pub struct CommandFields<'a> {
    /// The target logical address.
    pub target: u8,
    /// The instruction. It is not that of a reply.
    pub instruction: Instruction,
    /// The key.
    pub key: u8,
    /// The reply address: as many bytes as the instruction says, 0, 4, 8 or 12.
    pub reply_address: &'a [u8],
    /// The initiator logical address.
    pub initiator: u8,
    /// The transaction identifier.
    pub transaction: u16,
    /// The extended address.
    pub extended: u8,
    /// The address.
    pub address: u32,
    /// The data length, in bytes, below 2²⁴.
    pub length: u32,
}

/// Adds the first four bytes.
fn push_front(bytes: &mut Vec<u8>, fields: &CommandFields) -> Result<(), AllocError>
    ensures { OnOk result (bytes.new.items ≡ bytes.old.items ++ front_with fields.now) }
{
    bytes.extend_from_slice(&[fields.target, PROTOCOL, fields.instruction.0, fields.key])
}

/// Adds the fields between the reply address and the header's CRC.
fn push_tail(bytes: &mut Vec<u8>, fields: &CommandFields) -> Result<(), AllocError>
    requires { fields.now.length < 2 ^ 24 }
    ensures { OnOk result (bytes.new.items ≡ bytes.old.items ++ tail_with fields.now) }
{
    let mut transaction = [0; 2];
    BigEndian::write_u16(&mut transaction, fields.transaction);
    let mut address = [0; 4];
    BigEndian::write_u32(&mut address, fields.address);
    let mut count = [0; 3];
    BigEndian::write_u24(&mut count, fields.length);
    bytes.extend_from_slice(&[fields.initiator])?;
    bytes.extend_from_slice(&transaction)?;
    bytes.extend_from_slice(&[fields.extended])?;
    bytes.extend_from_slice(&address)?;
    bytes.extend_from_slice(&count)
}

/// Adds the header without its CRC.
fn push_header(bytes: &mut Vec<u8>, fields: &CommandFields) -> Result<(), AllocError>
    requires { fields.now.length < 2 ^ 24 }
    ensures { OnOk result (bytes.new.items ≡ bytes.old.items ++ header_with fields.now) }
{
    push_front(bytes, fields)?;
    bytes.extend_from_slice(fields.reply_address)?;
    push_tail(bytes, fields)
}

/// The bytes of the command of these fields with that body: the header, its CRC, the body. There are three
/// conditions:
///
/// - The instruction is not that of a reply.
/// - The length is below 2²⁴.
/// - The reply address is as long as the instruction says.
///
/// # Errors
///
/// Memory is refused.
pub fn write_command(
    alloc: Global,
    fields: &CommandFields,
    body: &[u8],
) -> Result<Vec<u8>, AllocError>
    requires { AreFields fields.now }
    ensures bytes { IfOk result (λ made. made.items ≡ bytes_of (command_with fields.now body.now)) }
    ensures header { IfOk result (λ _. IsHeader (command_with fields.now body.now)) }
{
    let mut bytes = Vec::new(alloc);
    push_header(&mut bytes, fields)?;
    let header_crc = crc(bytes.as_slice());
    bytes.push(header_crc)?;
    bytes.extend_from_slice(body)?;
    Ok(bytes)
}

/// Data, and after them their CRC: the body of a command that carries data.
///
/// # Errors
///
/// Memory is refused.
pub fn body_with_crc(alloc: Global, bytes: &[u8]) -> Result<Vec<u8>, AllocError>
    ensures { IfOk result (λ body. body.items ≡ with_crc bytes.now) }
{
    let mut body = Vec::new(alloc);
    body.extend_from_slice(bytes)?;
    body.push(crc(bytes))?;
    Ok(body)
}
