//! Replies, and the buffer that holds one.

ghost use Rattle.std.specs.Prelude.{◌≡◌, ◌≢◌, ◌≤◌, ◌<◌, ◌+◌, ◌-◌, List, [], ◌∷◌, ◌++◌, length, IsTrue};
ghost use Rattle.byteorder.specs.Endian.{big_bytes};
ghost use Rattle.rmap.specs.declared.status.Status.TheVariants.{Success};
ghost use Rattle.rcrc.specs.Crc.{crc_of};
ghost use Rattle.rcrc.specs.Polynomial.{IsRemainder};
ghost use Rattle.rmap.specs.Command.{wants_reply};
ghost use Rattle.rmap.specs.Reply.{HasRemainder, HasRemainders, reply_of, reply_header, reply_path_of, read_fields, with_crc, without_leading_zeros, reply_instruction};

use crate::checks::MAX_DATA;
use crate::command::{Command, PROTOCOL};
use crate::status::Status;
use arrayvec::ArrayVec;
use byteorder::{BigEndian, ByteOrder};
use rcrc::crc;
use std::marker::Model;

/// The most bytes that a reply has: a path of 12, a header of 12 and 4,096 of data with their CRC.
pub const MAX_REPLY: usize = 4121;

/// Room for one reply.
#[derive(Debug, Drop)]
pub struct ReplyBuf {
    bytes: ArrayVec<u8, MAX_REPLY>,
}

impl Model for ReplyBuf {
    ghost use Rattle.std.specs.Prelude.{List, ℕ};

    ghost Value = { List ℕ };

    ghost view = { λ b. b.bytes.items };
}

impl ReplyBuf {
    /// An empty buffer.
    pub fn new() -> ReplyBuf
        ensures { result ≡ [] }
    {
        ReplyBuf {
            bytes: ArrayVec::new(),
        }
    }

    /// The bytes of the reply. There are none if the command wants no reply.
    pub fn bytes(&self) -> &[u8]
        ensures value { result.now ≡ self.now }
        ensures bound { length result.now ≤ MAX_REPLY }
    {
        self.bytes.as_slice()
    }

    /// Forgets the reply.
    pub fn clear(&mut self)
        ensures { self.new ≡ [] }
    {
        self.bytes.clear();
    }

    fn extend(&mut self, bytes: &[u8])
        requires { length self.old + length bytes.now ≤ MAX_REPLY }
        ensures { self.new ≡ self.old ++ bytes.now }
    {
        self.bytes.try_extend_from_slice(bytes).unwrap();
    }

    fn push(&mut self, byte: u8)
        requires { length self.old < MAX_REPLY }
        ensures { self.new ≡ self.old ++ byte ∷ [] }
    {
        self.bytes.push(byte);
    }

    /// Adds the header of a reply with `bytes` as its data, without the header's CRC.
    fn push_header(&mut self, command: &Command, status: Status, bytes: &[u8])
        requires room { length self.old ≤ 12 }
        requires few { length bytes.now ≤ MAX_DATA }
        ensures { self.new ≡ self.old ++ reply_header command.now status bytes.now }
    {
        self.push(command.initiator());
        self.push(PROTOCOL);
        self.push(command.instruction().of_reply().0);
        self.push(status.code());
        self.push(command.target());
        let mut transaction = [0; 2];
        BigEndian::write_u16(&mut transaction, command.transaction());
        self.extend(&transaction);
        if !command.writes() {
            let mut count = [0; 3];
            BigEndian::write_u24(&mut count, bytes.len() as u32);
            self.push(0);
            self.extend(&count);
        }
    }

    /// Adds the header of a reply with `bytes` as its data, and the CRC of the header.
    fn push_checked_header(&mut self, command: &Command, status: Status, bytes: &[u8])
        requires room { length self.old ≤ 12 }
        requires few { length bytes.now ≤ MAX_DATA }
        ensures value { self.new
            ≡ self.old ++ with_crc (reply_header command.now status bytes.now) }
        ensures remainder { HasRemainder (reply_header command.now status bytes.now) }
    {
        let start = self.bytes().len();
        self.push_header(command, status, bytes);
        let header_crc = crc(&self.bytes()[start..]);
        self.push(header_crc);
    }

    /// Adds some bytes and their CRC.
    fn push_checked(&mut self, bytes: &[u8])
        requires { length self.old + length bytes.now < MAX_REPLY }
        ensures value { self.new ≡ self.old ++ with_crc bytes.now }
        ensures remainder { HasRemainder bytes.now }
    {
        self.extend(bytes);
        self.push(crc(bytes));
    }
}

/// What comes after the leading zeros.
fn without_leading_zeros(address: &[u8]) -> &[u8]
    ensures value { result.now ≡ without_leading_zeros address.now }
    ensures bound { length result.now ≤ length address.now }
{
    let mut path = address;
    while let [0, rest @ ..] = path {
        path = rest;
    }
    path
}

/// The reply path of a reply address: the address without its leading zeros. If all its bytes are zero, the path is
/// one zero (ECSS-E-ST-50-52C, reply address field).
fn path_from(address: &[u8]) -> &[u8]
    ensures value { result.now ≡ reply_path_of address.now }
    ensures bound { length result.now ≤ length address.now }
{
    let path = without_leading_zeros(address);
    if path.is_empty() {
        &address[..address.len().min(1)]
    } else {
        path
    }
}

/// Writes the reply to `command` with that status and those bytes of data into `reply`, in place of what it held. The
/// bytes are at most 4,096, and none if the status is not success. The reply has write form if the instruction has
/// bit 5, else read form. Without the reply bit the buffer is empty (ECSS-E-ST-50-52C, write reply format, read reply
/// format, read-modify-write reply format).
pub fn put_reply(reply: &mut ReplyBuf, command: &Command, status: Status, bytes: &[u8])
    requires few { length bytes.now ≤ MAX_DATA }
    requires none_at_error { status ≢ Success → bytes.now ≡ [] }
    ensures value { reply.new ≡ reply_of command.now status bytes.now }
    ensures remainders { IsTrue (wants_reply command.now)
        → HasRemainders command.now bytes.now reply.new }
    ensures short { length reply.new ≤ MAX_REPLY }
{
    reply.clear();
    if !command.wants_reply() {
        return;
    }
    reply.extend(path_from(command.reply_path()));
    reply.push_checked_header(command, status, bytes);
    if !command.writes() {
        reply.push_checked(bytes);
    }
}
