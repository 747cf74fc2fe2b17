//! The rows of a suite: what a packet tries, and what it must meet.

ghost use Rattle.std.specs.Prelude.{◌≡◌};
ghost use Rattle.job_suite.specs.Rows.{is_beginning, is_beginning_among, wanted_of, row_word_of};

use crate::checks::Check;
use rmap::Status;
use std::alloc::{AllocError, Global};

/// What a packet must meet to be printed under its row.
#[derive(Clone, Copy, Debug, PartialEq, Eq)]
pub enum Wanted {
    /// This line of the order of checks is the first that holds.
    Stopped(Check),
    /// No line before the program holds.
    Brought,
    /// No line before the program holds, and the program gives this verdict.
    Judged(u64),
    /// The program lets it pass, and the first check of its body that holds has this status.
    Spoilt(Status),
    /// The program lets it pass, and no check of its body holds.
    Whole,
}

/// A row. The name of a pair is that of its first line, `+`, and that of the line that would hold without the first.
#[derive(Clone, Copy, Debug, PartialEq, Eq)]
pub enum SuiteRow {
    /// Fewer bytes than the header has.
    Short,
    /// Fewer than three bytes, and another protocol.
    ShortBeforeProtocol,
    /// Another protocol identifier.
    Protocol,
    /// Another protocol, and the packet type of replies.
    ProtocolBeforeReplyType,
    /// Another protocol, and fewer bytes than the header has.
    ProtocolBeforeShort,
    /// The packet type of replies.
    ReplyType,
    /// The packet type of replies, and fewer bytes than the header has.
    ReplyTypeBeforeShort,
    /// The packet type of replies, and a wrong header CRC.
    ReplyTypeBeforeHeaderCrc,
    /// A wrong header CRC.
    HeaderCrc,
    /// A wrong header CRC, and an unused code.
    HeaderCrcBeforeUnusedCode,
    /// A reserved packet type.
    ReservedType,
    /// An unused command code.
    UnusedCode,
    /// An unused code, and another target address.
    UnusedCodeBeforeTargetAddress,
    /// Another target logical address.
    TargetAddress,
    /// Another target address, and a wrong length of a read-modify-write.
    TargetAddressBeforeRmwLength,
    /// A read-modify-write with a length that none has.
    RmwLength,
    /// The same with more bytes than the verify buffer takes.
    RmwLengthBeforeVerifyBuffer,
    /// More bytes to verify than the buffer takes.
    VerifyBuffer,
    /// More bytes to verify than a command may have.
    VerifyBufferBeforeLength,
    /// More bytes than a command may have.
    Length,
    /// More bytes than a command may have, at no place.
    LengthBeforePlace,
    /// A place that is not allowed.
    Place,
    /// The program gives this verdict.
    Program(u64),
    /// The program gives this verdict, and the packet ends in EEP.
    ProgramBeforeEep(u64),
    /// Another key.
    Key,
    /// An error end of packet.
    Eep,
    /// An error end of packet, and too few bytes.
    EepBeforeEarlyEop,
    /// Too few bytes.
    EarlyEop,
    /// Too many bytes.
    TooMuchData,
    /// Too many bytes, and a wrong data CRC.
    TooMuchDataBeforeDataCrc,
    /// A wrong data CRC.
    DataCrc,
    /// A reply address.
    ReplyAddress,
    /// No reply is wanted.
    NoReply,
    /// A read.
    Read,
    /// A write.
    Write,
    /// A verified write.
    VerifiedWrite,
    /// A read-modify-write.
    Rmw,
    /// A read of memory after another command.
    Memory,
    /// A command to the boot window.
    BootWindow,
    /// A packet of a load.
    Load,
}

/// All rows; all verdicts of a program are one row.
pub const ROWS: [SuiteRow; 39] = [
    SuiteRow::Short,
    SuiteRow::ShortBeforeProtocol,
    SuiteRow::Protocol,
    SuiteRow::ProtocolBeforeReplyType,
    SuiteRow::ProtocolBeforeShort,
    SuiteRow::ReplyType,
    SuiteRow::ReplyTypeBeforeShort,
    SuiteRow::ReplyTypeBeforeHeaderCrc,
    SuiteRow::HeaderCrc,
    SuiteRow::HeaderCrcBeforeUnusedCode,
    SuiteRow::ReservedType,
    SuiteRow::UnusedCode,
    SuiteRow::UnusedCodeBeforeTargetAddress,
    SuiteRow::TargetAddress,
    SuiteRow::TargetAddressBeforeRmwLength,
    SuiteRow::RmwLength,
    SuiteRow::RmwLengthBeforeVerifyBuffer,
    SuiteRow::VerifyBuffer,
    SuiteRow::VerifyBufferBeforeLength,
    SuiteRow::Length,
    SuiteRow::LengthBeforePlace,
    SuiteRow::Place,
    SuiteRow::Program(0),
    SuiteRow::Key,
    SuiteRow::Eep,
    SuiteRow::EepBeforeEarlyEop,
    SuiteRow::EarlyEop,
    SuiteRow::TooMuchData,
    SuiteRow::TooMuchDataBeforeDataCrc,
    SuiteRow::DataCrc,
    SuiteRow::ReplyAddress,
    SuiteRow::NoReply,
    SuiteRow::Read,
    SuiteRow::Write,
    SuiteRow::VerifiedWrite,
    SuiteRow::Rmw,
    SuiteRow::Memory,
    SuiteRow::BootWindow,
    SuiteRow::Load,
];

impl SuiteRow {
    /// What a packet of the row must meet.
    pub fn wanted(self) -> Wanted
        ensures { result ≡ wanted_of self }
    {
        match self {
            SuiteRow::Short | SuiteRow::ShortBeforeProtocol => Wanted::Stopped(Check::Short),
            SuiteRow::Protocol
            | SuiteRow::ProtocolBeforeReplyType
            | SuiteRow::ProtocolBeforeShort => { Wanted::Stopped(Check::Protocol) }
            SuiteRow::ReplyType
            | SuiteRow::ReplyTypeBeforeShort
            | SuiteRow::ReplyTypeBeforeHeaderCrc => { Wanted::Stopped(Check::ReplyType) }
            SuiteRow::HeaderCrc | SuiteRow::HeaderCrcBeforeUnusedCode => Wanted::Stopped(
                Check::HeaderCrc,
            ),
            SuiteRow::ReservedType
            | SuiteRow::UnusedCode
            | SuiteRow::UnusedCodeBeforeTargetAddress => { Wanted::Stopped(Check::UnusedCode) }
            SuiteRow::TargetAddress | SuiteRow::TargetAddressBeforeRmwLength => {
                Wanted::Stopped(Check::OtherTarget)
            }
            SuiteRow::RmwLength | SuiteRow::RmwLengthBeforeVerifyBuffer => Wanted::Stopped(
                Check::RmwLength,
            ),
            SuiteRow::VerifyBuffer | SuiteRow::VerifyBufferBeforeLength => {
                Wanted::Stopped(Check::VerifyBuffer)
            }
            SuiteRow::Length | SuiteRow::LengthBeforePlace => Wanted::Stopped(Check::Length),
            SuiteRow::Place => Wanted::Stopped(Check::Place),
            SuiteRow::Program(verdict) | SuiteRow::ProgramBeforeEep(verdict) => Wanted::Judged(
                verdict,
            ),
            SuiteRow::Key => Wanted::Brought,
            SuiteRow::Eep | SuiteRow::EepBeforeEarlyEop => Wanted::Spoilt(Status::ErrorEndOfPacket),
            SuiteRow::EarlyEop => Wanted::Spoilt(Status::EarlyEndOfPacket),
            SuiteRow::TooMuchData | SuiteRow::TooMuchDataBeforeDataCrc => Wanted::Spoilt(
                Status::TooMuchData,
            ),
            SuiteRow::DataCrc => Wanted::Spoilt(Status::InvalidDataCrc),
            SuiteRow::ReplyAddress
            | SuiteRow::NoReply
            | SuiteRow::Read
            | SuiteRow::Write
            | SuiteRow::VerifiedWrite
            | SuiteRow::Rmw
            | SuiteRow::Memory
            | SuiteRow::BootWindow
            | SuiteRow::Load => Wanted::Whole,
        }
    }

    /// The name of the row, without the verdict of a row of the program.
    fn word(self) -> &'static str
        ensures { result.now ≡ row_word_of self }
    {
        match self {
            SuiteRow::Short => "short",
            SuiteRow::ShortBeforeProtocol => "short+protocol",
            SuiteRow::Protocol => "protocol",
            SuiteRow::ProtocolBeforeReplyType => "protocol+reply-type",
            SuiteRow::ProtocolBeforeShort => "protocol+short",
            SuiteRow::ReplyType => "reply-type",
            SuiteRow::ReplyTypeBeforeShort => "reply-type+short",
            SuiteRow::ReplyTypeBeforeHeaderCrc => "reply-type+header-crc",
            SuiteRow::HeaderCrc => "header-crc",
            SuiteRow::HeaderCrcBeforeUnusedCode => "header-crc+unused-code",
            SuiteRow::ReservedType => "reserved-type",
            SuiteRow::UnusedCode => "unused-code",
            SuiteRow::UnusedCodeBeforeTargetAddress => "unused-code+target-address",
            SuiteRow::TargetAddress => "target-address",
            SuiteRow::TargetAddressBeforeRmwLength => "target-address+rmw-length",
            SuiteRow::RmwLength => "rmw-length",
            SuiteRow::RmwLengthBeforeVerifyBuffer => "rmw-length+verify-buffer",
            SuiteRow::VerifyBuffer => "verify-buffer",
            SuiteRow::VerifyBufferBeforeLength => "verify-buffer+length",
            SuiteRow::Length => "length",
            SuiteRow::LengthBeforePlace => "length+place",
            SuiteRow::Place => "place",
            SuiteRow::Program(_) | SuiteRow::ProgramBeforeEep(_) => "program",
            SuiteRow::Key => "key",
            SuiteRow::Eep => "eep",
            SuiteRow::EepBeforeEarlyEop => "eep+early-eop",
            SuiteRow::EarlyEop => "early-eop",
            SuiteRow::TooMuchData => "too-much-data",
            SuiteRow::TooMuchDataBeforeDataCrc => "too-much-data+data-crc",
            SuiteRow::DataCrc => "data-crc",
            SuiteRow::ReplyAddress => "reply-address",
            SuiteRow::NoReply => "no-reply",
            SuiteRow::Read => "read",
            SuiteRow::Write => "write",
            SuiteRow::VerifiedWrite => "verified-write",
            SuiteRow::Rmw => "rmw",
            SuiteRow::Memory => "memory",
            SuiteRow::BootWindow => "boot-window",
            SuiteRow::Load => "load",
        }
    }
}

/// The name of a row; that of a row of the program has the verdict.
///
/// # Errors
///
/// An error if memory is refused.
pub fn name_of(alloc: Global, row: SuiteRow) -> Result<String, AllocError> {
    match row {
        SuiteRow::Program(verdict) => format!(in alloc; "program-{verdict}"),
        SuiteRow::ProgramBeforeEep(verdict) => format!(in alloc; "program-{verdict}+eep"),
        _ => String::from_str(alloc, row.word()),
    }
}

/// Whether the names of some of these rows begin so, without the verdicts of programs.
fn is_beginning_among(rows: &[SuiteRow], word: &str) -> bool
    ensures { result ≡ is_beginning_among rows.now word.now }
{
    for row in rows {
        if row.word().as_bytes().starts_with(word.as_bytes()) {
            return true;
        }
    }
    false
}

/// Whether the names of some rows may begin so; no letters begin none.
pub fn is_beginning(word: &str) -> bool
    ensures { result ≡ is_beginning word.now }
{
    if word.is_empty() {
        return false;
    }
    word.as_bytes().starts_with(b"program-") || is_beginning_among(&ROWS, word)
}
