//! A reply, as a view of its bytes.

ghost use Rattle.std.specs.Prelude.{◌≡◌, ◌≤◌, ◌<◌, ◌^◌, length, IfOk};
ghost use Rattle.initiator.specs.ReplyReading.{GivesAnyReplyOf, IsReply, announced_length, body_length, body_reading, crc_before_last, form_length, form_reading, has_write_form, last_of, reply_initiator, reply_instruction_of, reply_reading, reply_status, reply_target, reply_transaction};

use crate::no_reply::NoReply;
use byteorder::{BigEndian, ByteOrder};
use rcrc::crc;
use rmap::{Instruction, PROTOCOL};
use std::marker::Model;

/// The bytes of a header in write form, with its CRC.
const WRITE_HEADER: usize = 8;

/// The bytes of a header in read form, with its CRC.
const READ_HEADER: usize = 12;

/// The offsets of the fields in a reply's header (ECSS-E-ST-50-52C, write reply format, read reply format).
mod place {
    pub const INITIATOR: usize = 0;

    pub const INSTRUCTION: usize = 2;

    pub const STATUS: usize = 3;

    pub const TARGET: usize = 4;

    pub const TRANSACTION: usize = 5;

    pub const LENGTH: usize = 8;
}

/// A reply with right CRCs, lent from its bytes (ECSS-E-ST-50-52C, write reply format, read reply format,
/// read-modify-write reply format). They begin with the initiator logical address: the path to the initiator is not
/// part of the reply. The reserved byte of read form may have any value.
#[derive(Debug, Drop)]
pub struct Reply<'a> {
    header: &'a [u8],
    data_field: &'a [u8],
}

impl<'a> Model for Reply<'a> {
    ghost use Rattle.std.specs.Prelude.{◌≤◌};
    ghost use Rattle.std.specs.Prelude.{length as list_length};
    ghost use Rattle.initiator.specs.ReplyReading.{ReplyValue};

    ghost Value = { ReplyValue };

    ghost view = { λ r. record { header = r.header.now; data_field = r.data_field.now } };

    ghost invariant = { λ r. 8 ≤ list_length r.header.now };
}

/// The last byte, and the CRC of those before it.
fn last_and_crc(bytes: &[u8]) -> (u8, u8)
    requires { 1 ≤ length bytes.now }
    ensures last { result.0 ≡ last_of bytes.now }
    ensures crc { result.1 ≡ crc_before_last bytes.now }
{
    let last = bytes.len() - 1;
    (bytes[last], crc(&bytes[..last]))
}

/// How many bytes of data a header announces. In write form there are none.
fn announced_length(writes: bool, header: &[u8]) -> usize
    requires { length header.now ≡ form_length writes }
    ensures value { result ≡ announced_length writes header.now }
    ensures few { result < 2 ^ 32 }
{
    if writes {
        0
    } else {
        BigEndian::read_u24(&header[place::LENGTH..]) as usize
    }
}

/// How many bytes should follow the header.
fn body_length(writes: bool, header: &[u8]) -> usize
    requires { length header.now ≡ form_length writes }
    ensures { result ≡ body_length writes header.now }
{
    if writes {
        0
    } else {
        announced_length(writes, header) + 1
    }
}

impl<'a> Reply<'a> {
    /// The reply that the bytes are.
    ///
    /// # Errors
    ///
    /// The first of these tests that fails gives the reason:
    ///
    /// 1. `Short`: there are at least three bytes.
    /// 2. `Protocol`: the protocol identifier is 1.
    /// 3. `Command`: the packet type is 00.
    /// 4. `Short`: there is the whole header.
    /// 5. `HeaderCrc`: the header CRC is that of the header.
    /// 6. `Length`: as many bytes follow the header as it announces.
    /// 7. `DataCrc`: the data CRC is that of the data.
    pub fn view(bytes: &'a [u8]) -> Result<Reply<'a>, NoReply>
        ensures reading { result ≡ reply_reading bytes.now }
        ensures reply { IfOk result (IsReply bytes.now) }
        ensures only { GivesAnyReplyOf bytes.now result }
    {
        Reply::read(bytes)
    }

    fn read(bytes: &'a [u8]) -> Result<Reply<'a>, NoReply>
        ensures { result ≡ reply_reading bytes.now }
    {
        let [_, protocol, instruction, ..] = bytes else {
            return Err(NoReply::Short);
        };
        if *protocol != PROTOCOL {
            return Err(NoReply::Protocol { found: *protocol });
        }
        let instruction = Instruction(*instruction);
        if !instruction.is_reply() {
            return Err(NoReply::Command { instruction });
        }
        if instruction.writes() {
            Reply::with_form(bytes, true, WRITE_HEADER)
        } else {
            Reply::with_form(bytes, false, READ_HEADER)
        }
    }

    #[tactic(auto, unfolding(crate::specs::ReplyReading::wrong_header))]
    fn with_form(bytes: &'a [u8], writes: bool, count: usize) -> Result<Reply<'a>, NoReply>
        requires { count ≡ form_length writes }
        ensures { result ≡ form_reading writes count bytes.now }
    {
        if bytes.len() < count {
            return Err(NoReply::Short);
        }
        let (header, body) = bytes.split_at(count);
        let (found, right) = last_and_crc(header);
        if found != right {
            return Err(NoReply::HeaderCrc { found, right });
        }
        Reply::with_body(header, body, writes)
    }

    #[tactic(auto, unfolding(crate::specs::ReplyReading::wrong_length, crate::specs::ReplyReading::wrong_data))]
    fn with_body(header: &'a [u8], body: &'a [u8], writes: bool) -> Result<Reply<'a>, NoReply>
        requires { length header.now ≡ form_length writes }
        ensures { result ≡ body_reading writes header.now body.now }
    {
        let (found, wanted) = (body.len(), body_length(writes, header));
        if found != wanted {
            return Err(NoReply::Length { found, wanted });
        }
        if !writes {
            let (found, right) = last_and_crc(body);
            if found != right {
                return Err(NoReply::DataCrc { found, right });
            }
        }
        let data_field = &body[..announced_length(writes, header)];
        Ok(Reply { header, data_field })
    }

    /// The initiator logical address (ECSS-E-ST-50-52C, initiator logical address field).
    pub fn initiator(&self) -> u8
        ensures { result ≡ reply_initiator self.now }
    {
        self.header[place::INITIATOR]
    }

    /// The instruction byte, whose packet type is 00 (ECSS-E-ST-50-52C, instruction field).
    pub fn instruction(&self) -> Instruction
        ensures { result.0 ≡ reply_instruction_of self.now }
    {
        Instruction(self.header[place::INSTRUCTION])
    }

    /// The number of the status (ECSS-E-ST-50-52C, status field). It may be one that no standard status has.
    pub fn status(&self) -> u8
        ensures { result ≡ reply_status self.now }
    {
        self.header[place::STATUS]
    }

    /// The target logical address (ECSS-E-ST-50-52C, target logical address field).
    pub fn target(&self) -> u8
        ensures { result ≡ reply_target self.now }
    {
        self.header[place::TARGET]
    }

    /// The transaction identifier, most significant byte first (ECSS-E-ST-50-52C, transaction identifier field).
    pub fn transaction(&self) -> u16
        ensures { result ≡ reply_transaction self.now }
    {
        let header = self.header;
        BigEndian::read_u16(&header[place::TRANSACTION..])
    }

    /// Whether the reply has the form of a write reply, and so no data.
    pub fn writes(&self) -> bool
        ensures { result ≡ has_write_form self.now }
    {
        self.instruction().writes()
    }

    /// The data. In write form there are none.
    pub fn data(&self) -> &'a [u8]
        ensures { result.now ≡ self.now.data_field }
    {
        self.data_field
    }
}
