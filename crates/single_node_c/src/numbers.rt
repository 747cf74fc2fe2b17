//! The structs of numbers that cross. The header has the same fields in the same order. The bytes between fields, and after them, are
//! fields of their own, and 0.

ghost use Rattle.std.specs.Prelude.{◌≡◌};
ghost use Rattle.single_node_c.specs.Numbers.{entry_numbers, end_code, end_of_number, served_kind_of, served_place_of, served_numbers, served_status_of};

use crate::findings::{found_number, found_slot};
use crate::parts::ServedParts;
use bank::Entry;
use node_parts::{Served, Stop};
use scrub::ServedAnswer;
use spw::End;

/// One bank.
#[repr(C)]
#[derive(Clone, Copy)]
pub struct BankNumbers {
    pub base: u32,
    pub size: u32,
    pub room: u32,
}

/// One map: how many cells, and whether they are peaks.
#[repr(C)]
#[derive(Clone, Copy)]
pub struct MapNumbers {
    pub cells: u16,
    pub peak: u16,
}

/// Why an image may not judge.
#[repr(C)]
#[derive(Clone, Copy)]
pub struct Why {
    pub code: u16,
    pub slot: u16,
}

/// What became of a packet, what it asked for, and what a scrub before it found.
#[repr(C)]
#[derive(Clone, Copy)]
pub struct ServedNumbers {
    pub verdict: u64,
    pub generation: u32,
    pub reply_length: u32,
    pub address: u32,
    pub length: u32,
    pub room: u32,
    pub kind: u8,
    pub status: u8,
    pub command: u8,
    pub place: u8,
    pub extended: u8,
    pub found: u8,
    pub found_slot: u8,
    pub unused: u8,
    pub unused_word: u32,
}

/// An entry of a journal, except its packet.
#[repr(C)]
#[derive(Clone, Copy)]
pub struct EntryNumbers {
    pub number: u64,
    pub verdict: u64,
    pub generation: u32,
    pub packet_length: u32,
    pub port: u8,
    pub status: u8,
    pub end: u8,
    pub unused: u8,
    pub unused_word: u32,
}

/// The numbers of a journal.
#[repr(C)]
#[derive(Clone, Copy)]
pub struct JournalNumbers {
    pub entries: u64,
    pub loaded: u32,
    pub unused: u32,
}

/// What a scrub found. Of programs it has a bit a slot, and whether the slot of the boot window was given the program
/// that was lent. It has whether the sizes are others. Of journals it has a bit a bank, and the place of the first
/// entry that is not whole.
#[repr(C)]
#[derive(Clone, Copy)]
pub struct ScrubbedNumbers {
    pub first: u64,
    pub mended: u8,
    pub withdrawn: u8,
    pub restored: u8,
    pub sizes: u8,
    pub journals: u8,
    pub unused: u8,
    pub unused_half: u16,
}

/// The kind of a packet that is no command.
pub const DISCARDED: u8 = 0;

/// The kind of a packet that its header answers.
pub const ANSWERED: u8 = 1;

/// The kind of a packet that a program judged.
pub const JUDGED: u8 = 2;

/// The kind of what became of a packet.
fn served_kind_of(served: Served) -> u8
    ensures { result ≡ served_kind_of served }
{
    match served {
        Served::Stopped(Stop::Discarded(_)) => DISCARDED,
        Served::Stopped(Stop::Answered(_)) | Served::Unread => ANSWERED,
        Served::Done(_) | Served::Window(_) => JUDGED,
    }
}

/// The number of a discard, or the status of a reply.
fn served_status_of(served: Served) -> u8
    ensures { result ≡ served_status_of served }
{
    match served {
        Served::Stopped(Stop::Discarded(discard)) => discard.code(),
        Served::Stopped(Stop::Answered(status)) => status.code(),
        Served::Unread => 1,
        Served::Done(applied) => applied.status.code(),
        Served::Window(status) => status.code(),
    }
}

/// The place of a packet that no program judged.
pub const NOWHERE: u8 = 0;

/// The place of a command that a bank carried out or answered.
pub const AT_BANK: u8 = 1;

/// The place of a command to the boot window.
pub const AT_WINDOW: u8 = 2;

/// Where a packet's command ended.
fn served_place_of(served: Served) -> u8
    ensures { result ≡ served_place_of served }
{
    match served {
        Served::Stopped(_) | Served::Unread => NOWHERE,
        Served::Done(_) => AT_BANK,
        Served::Window(_) => AT_WINDOW,
    }
}

impl ServedNumbers {
    /// The numbers of what became of a packet that asks for these parts. Its bank's journal then has that much room
    /// left, and its reply has that many bytes.
    pub fn of(
        answer: ServedAnswer,
        parts: ServedParts,
        room: u32,
        reply_length: u32,
    ) -> ServedNumbers
        ensures { result ≡ served_numbers answer parts room reply_length }
    {
        ServedNumbers {
            verdict: answer.reported.verdict,
            generation: answer.reported.generation,
            reply_length,
            address: parts.address,
            length: parts.length,
            room,
            kind: served_kind_of(answer.reported.served),
            status: served_status_of(answer.reported.served),
            command: parts.command,
            place: served_place_of(answer.reported.served),
            extended: parts.extended,
            found: found_number(answer.found),
            found_slot: found_slot(answer.found),
            unused: 0,
            unused_word: 0,
        }
    }
}

/// The number of an end.
fn end_code(end: End) -> u8
    ensures { result ≡ end_code end }
{
    match end {
        End::Eop => 0,
        End::Eep => 1,
    }
}

/// The end of a number, if it is the number of one.
pub fn end_of_number(number: u8) -> Option<End>
    ensures { result ≡ end_of_number number }
{
    match number {
        0 => Some(End::Eop),
        1 => Some(End::Eep),
        _ => None,
    }
}

impl EntryNumbers {
    /// The numbers of an entry.
    pub fn of(entry: &Entry) -> EntryNumbers
        ensures { result ≡ entry_numbers entry.now }
    {
        EntryNumbers {
            number: entry.number(),
            verdict: entry.verdict(),
            generation: entry.generation(),
            packet_length: entry.packet().bytes().len() as u32,
            port: entry.port(),
            status: entry.status().code(),
            end: end_code(entry.packet().end()),
            unused: 0,
            unused_word: 0,
        }
    }
}
