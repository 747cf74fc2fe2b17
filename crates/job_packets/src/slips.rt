//! What is wrong with words that order no packet.

ghost use Rattle.std.specs.Prelude.{◌≡◌};
ghost use Rattle.job_packets.specs.Slips.{bad_word, is_flag, usage_fault_of, word_id, slip_word_of};
ghost use Rattle.job_packets.specs.declared.slips.PacketFault.TheVariants.{Memory};

use job_parts::usage::UsageFault;
use std::alloc::{AllocError, AllocFailed};

/// A word of the job `packet`: an argument, a flag, or the value of an option.
#[derive(Clone, Copy, Debug, PartialEq, Eq)]
pub enum PacketWord {
    /// What is made.
    Kind,
    /// The address.
    Address,
    /// How many bytes are read.
    Length,
    /// The data of a write.
    Data,
    /// The data of a read-modify-write.
    Masked,
    /// The mask of a read-modify-write.
    Mask,
    /// The slots of a load.
    Slot,
    /// `--verify`.
    Verify,
    /// `--no-reply`.
    NoReply,
    /// `--no-increment`.
    NoIncrement,
    /// `--final`.
    Final,
    /// The port of the line.
    Port,
    /// The target logical address.
    Target,
    /// The key.
    Key,
    /// The initiator logical address.
    Initiator,
    /// The transaction identifier.
    Transaction,
    /// The extended address.
    Extended,
    /// The reply address.
    ReplyAddress,
}

impl PacketWord {
    /// The name that the command line has for it.
    pub fn id(self) -> &'static str
        ensures { result.now ≡ word_id self }
    {
        match self {
            PacketWord::Kind => "kind",
            PacketWord::Address => "address",
            PacketWord::Length | PacketWord::Data | PacketWord::Masked => "data",
            PacketWord::Mask => "mask",
            PacketWord::Slot => "slot",
            PacketWord::Verify => "verify",
            PacketWord::NoReply => "no-reply",
            PacketWord::NoIncrement => "no-increment",
            PacketWord::Final => "final",
            PacketWord::Port => "port",
            PacketWord::Target => "target",
            PacketWord::Key => "key",
            PacketWord::Initiator => "initiator",
            PacketWord::Transaction => "transaction",
            PacketWord::Extended => "extended",
            PacketWord::ReplyAddress => "reply-address",
        }
    }

    /// What it means, as the usage of the job names it.
    pub fn title(self) -> &'static str {
        match self {
            PacketWord::Kind => "KIND",
            PacketWord::Address => "ADDRESS",
            PacketWord::Length => "LENGTH",
            PacketWord::Data | PacketWord::Masked => "DATA",
            PacketWord::Mask => "MASK",
            PacketWord::Slot => "--slot",
            PacketWord::Verify => "--verify",
            PacketWord::NoReply => "--no-reply",
            PacketWord::NoIncrement => "--no-increment",
            PacketWord::Final => "--final",
            PacketWord::Port => "--port",
            PacketWord::Target => "--target",
            PacketWord::Key => "--key",
            PacketWord::Initiator => "--initiator",
            PacketWord::Transaction => "--transaction",
            PacketWord::Extended => "--extended",
            PacketWord::ReplyAddress => "--reply-address",
        }
    }

    /// The form that it must have.
    fn form(self) -> &'static str {
        match self {
            PacketWord::Kind => "read, write, rmw or load",
            PacketWord::Address => "at most eight hexadecimal digits, of a load the name of a file",
            PacketWord::Length => "a decimal number up to 16,777,215",
            PacketWord::Data =>
                "pairs of hexadecimal digits, - for none, or @ and the name of a file",
            PacketWord::Masked => "pairs of hexadecimal digits, at most four bytes, or - for none",
            PacketWord::Mask => "pairs of hexadecimal digits, as many as in DATA, or - for none",
            PacketWord::Slot => "all, or decimal numbers from 0 to 3 with commas between them",
            PacketWord::Verify
            | PacketWord::NoReply
            | PacketWord::NoIncrement
            | PacketWord::Final => "a flag",
            PacketWord::Port => "a decimal number from 0 to 31",
            PacketWord::Target | PacketWord::Key | PacketWord::Initiator | PacketWord::Extended =>
                "at most two hexadecimal digits",
            PacketWord::Transaction => "at most four hexadecimal digits",
            PacketWord::ReplyAddress => {
                "pairs of hexadecimal digits of 1 to 12 bytes, or - for none"
            }
        }
    }

    /// What has such a word, if not all that is made has one.
    fn owner(self) -> &'static str {
        match self {
            PacketWord::Mask => "only an rmw has one, and DATA is one word",
            PacketWord::Slot => "only a load has one",
            PacketWord::Final => "only a load has it",
            PacketWord::Verify | PacketWord::NoReply => "only a write has it",
            PacketWord::NoIncrement => "only a read or a write has it",
            PacketWord::Extended => "a load has none, and goes to FF",
            PacketWord::Length | PacketWord::Data | PacketWord::Masked => {
                "a load has none after its file"
            }
            PacketWord::Kind
            | PacketWord::Address
            | PacketWord::Port
            | PacketWord::Target
            | PacketWord::Key
            | PacketWord::Initiator
            | PacketWord::Transaction
            | PacketWord::ReplyAddress => "it belongs elsewhere",
        }
    }

    /// Whether it is a flag, which has no value.
    pub fn is_flag(self) -> bool
        ensures { result ≡ is_flag self }
    {
        matches!(
            self,
            PacketWord::Verify | PacketWord::NoReply | PacketWord::NoIncrement | PacketWord::Final
        )
    }
}

/// What is wrong with words that order no packet: the first such word.
#[derive(Clone, Copy, Debug, PartialEq, Eq)]
pub enum Slip {
    /// There is no such word, and one is wanted.
    Missing(PacketWord),
    /// The word is not one that it may be.
    Bad(PacketWord),
    /// What is to be made has no such word.
    Foreign(PacketWord),
}

impl Slip {
    /// The word.
    pub fn word(self) -> PacketWord
        ensures { result ≡ slip_word_of self }
    {
        match self {
            Slip::Missing(word) | Slip::Bad(word) | Slip::Foreign(word) => word,
        }
    }

    /// What is wanted in its place.
    pub fn advice(self) -> &'static str {
        match self {
            Slip::Missing(word) | Slip::Bad(word) => word.form(),
            Slip::Foreign(word) => word.owner(),
        }
    }
}

/// Why words order no packet.
#[derive(Clone, Copy, Debug, PartialEq, Eq)]
pub enum PacketFault {
    /// They have a slip.
    Words(Slip),
    /// Memory was refused.
    Memory,
}

impl PacketFault {
    /// The fault that the word is not one that it may be.
    pub fn bad(word: PacketWord) -> PacketFault
        ensures { result ≡ bad_word word }
    {
        PacketFault::Words(Slip::Bad(word))
    }

    /// The fault of a command line that it is.
    pub fn usage(self) -> UsageFault
        ensures { result ≡ usage_fault_of self }
    {
        match self {
            PacketFault::Words(_) => UsageFault::BadOption,
            PacketFault::Memory => UsageFault::Memory,
        }
    }
}

impl From<AllocError> for PacketFault {
    ghost from_gives = { λ _ fault. fault ≡ Memory };

    fn from(_refused: AllocError) -> PacketFault {
        PacketFault::Memory
    }
}

impl<T: Drop> From<AllocFailed<T>> for PacketFault {
    ghost from_gives = { λ _ fault. fault ≡ Memory };

    fn from(_refused: AllocFailed<T>) -> PacketFault {
        PacketFault::Memory
    }
}
