//! The entries that are handed out at once.

ghost use Rattle.bank.specs.Records.{is_whole};
ghost use Rattle.job_live.specs.Entries.{HandsOutLeft, TurnsLeft, damaged_left, entries_text, has_one, left_line, left_text, left_words, spaced_number, text_room_of};
ghost use Rattle.job_live.specs.Journals.{TurnsOne};
ghost use Rattle.job_live.specs.Reporting.{portless_packet_line};
ghost use Rattle.std.specs.List.{flat_map, range_with_len};
ghost use Rattle.std.specs.Prelude.{◌≡◌, ◌≤◌, ◌<◌, ◌+◌, ◌*◌, ◌++◌, length, slice_get};
ghost use Rattle.std.specs.Vec.{vec_capacity, vec_len};

use crate::putting::{put, put_hex};
use bank::Entry;
use itoa::Buffer;
use job_nodes::journals::entries;
use job_nodes::live_node::LiveNode;
use single_node::SingleNode;
use spw::{End, MAX_PACKET, Packet};

/// How many bytes a number and a space have at most.
const MOST_OF_NUMBER: usize = 21;

/// How many bytes the line of an entry has besides the bytes of its packet: its first words, five numbers, the
/// marker and the line feed.
const BESIDE_PACKET: usize = 9 + 5 * MOST_OF_NUMBER + 5;

/// How many bytes the longest line of an entry has: two digits a byte of its packet, and those beside it.
pub const MOST_OF_ENTRY: usize = 2 * MAX_PACKET + BESIDE_PACKET;

/// How many bytes the lines of the entries of all banks have at most: a node has 8 banks or fewer.
pub const MOST_OF_ENTRIES: usize = 8 * MOST_OF_ENTRY;

/// Puts a number after a text, and a space. The condition is room for both.
fn put_number(text: &mut Vec<u8>, number: u64)
    requires { vec_len text.old + MOST_OF_NUMBER ≤ vec_capacity text.old }
    ensures items { text.new.items ≡ text.old.items ++ spaced_number number }
    ensures len { vec_len text.new ≤ vec_len text.old + MOST_OF_NUMBER }
    ensures room { vec_capacity text.old ≤ vec_capacity text.new }
{
    let mut digits = Buffer::new();
    put(text, digits.format(number).as_bytes());
    put(text, b" ");
}

/// Puts the words before the packet of an entry after a text: `entry HH PORT NUMBER GENERATION VERDICT STATUS `.
/// The condition is room for the longest.
#[tactic(auto, unfolding(crate::specs::Entries::left_words))]
fn put_words(text: &mut Vec<u8>, bank: u8, entry: &Entry)
    requires { vec_len text.old + (9 + 5 * MOST_OF_NUMBER) ≤ vec_capacity text.old }
    ensures items { text.new.items ≡ text.old.items ++ left_words bank entry.now }
    ensures len { vec_len text.new ≤ vec_len text.old + (9 + 5 * MOST_OF_NUMBER) }
    ensures room { vec_capacity text.old ≤ vec_capacity text.new }
{
    put(text, b"entry ");
    put_hex(text, &[bank]);
    put(text, b" ");
    put_number(text, u64::from(entry.port()));
    put_number(text, entry.number());
    put_number(text, u64::from(entry.generation()));
    put_number(text, entry.verdict());
    put_number(text, u64::from(entry.status().code()));
}

/// Puts the words of a packet after a text, and ends the line. The condition is room for the longest.
fn put_packet(text: &mut Vec<u8>, packet: &Packet)
    requires { vec_len text.old + (2 * MAX_PACKET + 5) ≤ vec_capacity text.old }
    ensures items { text.new.items ≡ text.old.items ++ portless_packet_line packet.now }
    ensures len { vec_len text.new ≤ vec_len text.old + (2 * MAX_PACKET + 5) }
    ensures room { vec_capacity text.old ≤ vec_capacity text.new }
{
    put_hex(text, packet.bytes());
    match packet.end() {
        End::Eop => put(text, b" EOP\n"),
        End::Eep => put(text, b" EEP\n"),
    }
}

/// Puts that an entry of this bank is not as it was made after a text. The condition is room for it.
fn put_damaged(text: &mut Vec<u8>, bank: u8)
    requires { vec_len text.old + 17 ≤ vec_capacity text.old }
    ensures items { text.new.items ≡ text.old.items ++ damaged_left bank }
    ensures len { vec_len text.new ≤ vec_len text.old + 17 }
    ensures room { vec_capacity text.old ≤ vec_capacity text.new }
{
    put(text, b"entry ");
    put_hex(text, &[bank]);
    put(text, b" damaged\n");
}

/// Puts the line of an entry of this bank after a text. The condition is room for the longest.
fn put_entry(text: &mut Vec<u8>, bank: u8, entry: &Entry)
    requires { vec_len text.old + MOST_OF_ENTRY ≤ vec_capacity text.old }
    ensures items { text.new.items ≡ text.old.items ++ left_line bank entry.now }
    ensures len { vec_len text.new ≤ vec_len text.old + MOST_OF_ENTRY }
    ensures room { vec_capacity text.old ≤ vec_capacity text.new }
{
    if entry.is_whole() {
        put_words(text, bank, entry);
        put_packet(text, entry.packet());
    } else {
        put_damaged(text, bank);
    }
}

/// Puts the line of the entry of this bank after a text. Conditions: entries that are one, and room for the
/// longest line.
#[tactic(auto, using(crate::proofs::EntriesLeft::only_put))]
fn put_only(text: &mut Vec<u8>, bank: u8, entries: &[Entry])
    requires one { length entries.now ≡ 1 }
    requires room { vec_len text.old + MOST_OF_ENTRY ≤ vec_capacity text.old }
    ensures items { text.new.items ≡ text.old.items ++ flat_map (left_line bank) entries.now }
    ensures len { vec_len text.new ≤ vec_len text.old + MOST_OF_ENTRY }
    ensures room { vec_capacity text.old ≤ vec_capacity text.new }
{
    put_entry(text, bank, &entries[0]);
}

/// Whether the journal of a bank has one entry. The condition is a bank of the node.
fn has_one(node: &SingleNode, bank: u8) -> bool
    requires { bank < length node.now.banks }
    ensures { result ≡ has_one (slice_get node.now.banks bank) }
{
    entries(node, bank).len() == 1
}

/// Puts the line of the entry of a bank after a text, if it has one. Conditions: a bank of the node, and room
/// for the longest line.
#[tactic(auto, using(crate::proofs::PutText::none_more))]
fn put_left_of(text: &mut Vec<u8>, node: &SingleNode, bank: u8)
    requires bank { bank < length node.now.banks }
    requires room { vec_len text.old + MOST_OF_ENTRY ≤ vec_capacity text.old }
    ensures items { text.new.items ≡ text.old.items ++ left_text node.now.banks bank }
    ensures len { vec_len text.new ≤ vec_len text.old + MOST_OF_ENTRY }
    ensures room { vec_capacity text.old ≤ vec_capacity text.new }
{
    if has_one(node, bank) {
        put_only(text, bank, entries(node, bank));
    }
}

/// Puts the line of the entry of each bank that has one after a text. The condition is room for the longest
/// lines.
fn put_each(text: &mut Vec<u8>, node: &SingleNode)
    requires { vec_len text.old + MOST_OF_ENTRIES ≤ vec_capacity text.old }
    ensures items { text.new.items
        ≡ text.old.items ++ flat_map (left_text node.now.banks) (range_with_len 0 (length node.now.banks)) }
    ensures len { vec_len text.new ≤ vec_len text.old + MOST_OF_ENTRIES }
    ensures room { vec_capacity text.old ≤ vec_capacity text.new }
{
    for bank in 0..node.banks() {
        put_left_of(text, node, bank);
    }
}

/// How many bytes the lines of the entries have at most, that are handed out at once.
pub fn text_room_of(at_once: bool) -> usize
    ensures value { result ≡ text_room_of at_once }
    ensures few { result ≤ MOST_OF_ENTRIES }
{
    if at_once { MOST_OF_ENTRIES } else { 0 }
}

/// Puts the entries that the last packet left after a text, bank by bank, if they are handed out at once.
///
/// A line is `entry HH PORT NUMBER GENERATION VERDICT STATUS HEX EOP`, or `entry HH damaged`. The condition is
/// room for the longest lines.
#[tactic(auto, using(crate::proofs::PutText::none_more))]
pub fn put_left(text: &mut Vec<u8>, node: &SingleNode, at_once: bool)
    requires { vec_len text.old + text_room_of at_once ≤ vec_capacity text.old }
    ensures items { text.new.items ≡ text.old.items ++ entries_text at_once node.now.banks }
    ensures len { vec_len text.new ≤ vec_len text.old + text_room_of at_once }
    ensures room { vec_capacity text.old ≤ vec_capacity text.new }
{
    if at_once {
        put_each(text, node);
    }
}

/// Begins an empty journal in the place of that of a bank, if it has one entry. The condition is a bank of the
/// node.
fn turn_one(node: &mut LiveNode, bank: u8)
    requires { bank < length node.old.node.banks }
    ensures turns { TurnsOne (has_one (slice_get node.old.node.banks bank)) bank node.old node.new }
    ensures banks { length node.new.node.banks ≡ length node.old.node.banks }
{
    if has_one(node.single(), bank) {
        node.turn(bank);
    }
}

/// Begins an empty journal in the place of each that has one entry.
fn turn_each(node: &mut LiveNode)
    ensures { TurnsLeft (length node.old.node.banks) node.old node.new }
{
    let banks = node.single().banks();
    for bank in 0..banks {
        turn_one(node, bank);
    }
}

/// Begins an empty journal in the place of each whose entry was handed out at once ([`put_left`]).
pub fn turn_left(node: &mut LiveNode, at_once: bool)
    ensures { HandsOutLeft at_once node.old node.new }
{
    if at_once {
        turn_each(node);
    }
}
