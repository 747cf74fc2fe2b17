//! The journals of the banks.

ghost use Rattle.std.specs.Prelude.{◌≡◌, ◌≢◌, ◌<◌, ◌≤◌, Err, IfErr, MatchResult, Ok, length, slice_get};
ghost use Rattle.single_node_c.specs.Held.{BecomesNode, IsCallCode, IfNode, code_on, test_on};
ghost use Rattle.single_node_c.specs.Journals.{ReportsEntry, ReportsJournal, bank_code, entry_at, entry_code, room_at, room_code, rotate_test};
ghost use Rattle.single_node_c.specs.Numbers.{entry_numbers};
ghost use Rattle.single_node.specs.Nodes.{RotatesTo, room_in};
ghost use Rattle.spw.specs.Rooms.{put_front};
ghost use Rattle.single_node_c.specs.declared.codes.TheConstants.{NO_MEMORY, OK};

use crate::codes::{BAD_CONFIG, DAMAGED, NO_BANK, NO_ENTRY, NO_MEMORY, NO_NODE, NO_ROOM, OK};
use crate::handle::Handle;
use crate::held::{put, take};
use crate::numbers::{EntryNumbers, JournalNumbers};
use bank::{BankFault, Entry, Journal, MAX_ROOM};
use single_node::SingleNode;
use spw::put_front;
use std::alloc::Global;

/// The numbers of the journal of a bank.
fn journal_of(node: &SingleNode, bank: u8) -> JournalNumbers
    requires { bank < length node.now.banks }
    ensures { ReportsJournal bank result node.now }
{
    JournalNumbers {
        entries: node.bank(bank).entries().len() as u64,
        loaded: node.loaded(),
        unused: 0,
    }
}

/// Reports the numbers of the journal of a bank, if there is that bank, and gives a code.
fn report_journal(node: &SingleNode, bank: u8, numbers: &mut JournalNumbers) -> u32
    ensures code { result ≡ bank_code bank node.now }
    ensures reported { result ≡ OK → ReportsJournal bank numbers.new node.now }
    ensures numbers { result ≢ OK → numbers.new ≡ numbers.old }
{
    if bank >= node.banks() {
        return NO_BANK;
    }
    *numbers = journal_of(node, bank);
    OK
}

/// Reports the numbers of the journal of a bank. The node stays as it is.
#[unsafe(no_mangle)]
pub extern "C" fn sandbar_journal_of(
    alloc: Global,
    handle: &mut Handle,
    bank: u8,
    numbers: &mut JournalNumbers,
) -> u32
    ensures code { result ≡ code_on handle.old.kept (bank_code bank) }
    ensures reported { result ≡ OK → IfNode handle.old.kept (ReportsJournal bank numbers.new) }
    ensures numbers { result ≢ OK → numbers.new ≡ numbers.old }
    ensures node { handle.new.kept ≡ handle.old.kept }
{
    let Some(guarded) = take(alloc, handle) else {
        return NO_NODE;
    };
    let code = report_journal(&guarded.node, bank, numbers);
    put(alloc, handle, guarded);
    code
}

/// The entry at a place of the journal of a bank.
///
/// # Errors
///
/// The code that there is no such bank or entry, or that the entry is not as it was made.
fn entry_at(node: &SingleNode, bank: u8, place: u32) -> Result<&Entry, u32>
    ensures found { MatchResult result (λ entry. entry_at bank place node.now ≡ Ok entry.now)
        (λ code. entry_at bank place node.now ≡ Err code) }
    ensures code { IfErr result (λ code. code ≢ OK) }
{
    if bank >= node.banks() {
        return Err(NO_BANK);
    }
    let Some(entry) = node.bank(bank).entries().get(place as usize) else {
        return Err(NO_ENTRY);
    };
    if !entry.is_whole() {
        return Err(DAMAGED);
    }
    Ok(entry)
}

/// Copies an entry, if there is room for its packet, and gives a code.
fn copy_entry(entry: &Entry, room: &mut [u8], numbers: &mut EntryNumbers) -> u32
    ensures code { result ≡ room_code (Ok entry.now) (length room.old) }
    ensures packet { result ≡ OK → room.new ≡ put_front room.old entry.now.packet.bytes }
    ensures reported { result ≡ OK → numbers.new ≡ entry_numbers entry.now }
    ensures room { result ≢ OK → room.new ≡ room.old }
    ensures numbers { result ≢ OK → numbers.new ≡ numbers.old }
{
    let bytes = entry.packet().bytes();
    if bytes.len() > room.len() {
        return NO_ROOM;
    }
    put_front(room, bytes);
    *numbers = EntryNumbers::of(entry);
    OK
}

/// Copies the entry at a place of the journal of a bank, if there is one and room for its packet, and gives a code.
fn copy_entry_at(
    node: &SingleNode,
    bank: u8,
    place: u32,
    room: &mut [u8],
    numbers: &mut EntryNumbers,
) -> u32
    ensures code { result ≡ entry_code bank place (length room.old) node.now }
    ensures reported { result ≡ OK → ReportsEntry bank place room.old room.new numbers.new node.now }
    ensures room { result ≢ OK → room.new ≡ room.old }
    ensures numbers { result ≢ OK → numbers.new ≡ numbers.old }
{
    match entry_at(node, bank, place) {
        Ok(entry) => copy_entry(entry, room, numbers),
        Err(code) => code,
    }
}

/// Reads the entry at a place of the journal of a bank, 0 for the oldest, and copies its packet. The node stays as it
/// is. At any code except `OK` nothing is written. If an entry's numbers do not agree with their check, or its packet
/// with its CRCs, the code is `DAMAGED`.
#[unsafe(no_mangle)]
pub extern "C" fn sandbar_entry_at(
    alloc: Global,
    handle: &mut Handle,
    bank: u8,
    place: u32,
    packet: &mut [u8],
    numbers: &mut EntryNumbers,
) -> u32
    ensures code { result ≡ code_on handle.old.kept (entry_code bank place (length packet.old)) }
    ensures reported { result ≡ OK
        → IfNode handle.old.kept (ReportsEntry bank place packet.old packet.new numbers.new) }
    ensures packet { result ≢ OK → packet.new ≡ packet.old }
    ensures numbers { result ≢ OK → numbers.new ≡ numbers.old }
    ensures node { handle.new.kept ≡ handle.old.kept }
{
    let Some(guarded) = take(alloc, handle) else {
        return NO_NODE;
    };
    let code = copy_entry_at(&guarded.node, bank, place, packet, numbers);
    put(alloc, handle, guarded);
    code
}

/// Begins a new journal of that room at a bank, if the room and the bank allow it, and gives a code. It asks for memory
/// only if the room is more than that of the old journal.
fn rotate(alloc: Global, node: &mut SingleNode, bank: u8, room: u32) -> u32
    ensures code { IsCallCode (rotate_test bank room node.old) result }
    ensures turned { room ≤ room_in (slice_get node.old.banks bank) → result ≢ NO_MEMORY }
    ensures rotated { result ≡ OK → RotatesTo bank room node.old node.new }
    ensures node { result ≢ OK → node.new ≡ node.old }
{
    if bank >= node.banks() {
        return NO_BANK;
    }
    if 1 <= room && room <= MAX_ROOM && room <= node.room(bank) {
        node.turn(bank, room);
        return OK;
    }
    match Journal::new(alloc, room) {
        Ok(fresh) => {
            let _old = node.rotate(bank, fresh);
            OK
        }
        Err(BankFault::Memory) => NO_MEMORY,
        Err(BankFault::Size) => BAD_CONFIG,
    }
}

/// Begins a new journal with room for that many entries at a bank. The entries of the old one are gone, and numbers go
/// on. If the room is at most that of the old journal it takes no memory.
#[unsafe(no_mangle)]
pub extern "C" fn sandbar_rotate(alloc: Global, handle: &mut Handle, bank: u8, room: u32) -> u32
    ensures code { IsCallCode (test_on handle.old.kept (rotate_test bank room)) result }
    ensures turned { room ≤ room_at handle.old.kept bank → result ≢ NO_MEMORY }
    ensures rotated { result ≡ OK → BecomesNode (RotatesTo bank room) handle.old.kept handle.new.kept }
    ensures node { result ≢ OK → handle.new.kept ≡ handle.old.kept }
{
    let Some(mut guarded) = take(alloc, handle) else {
        return NO_NODE;
    };
    let code = rotate(alloc, &mut guarded.node, bank, room);
    put(alloc, handle, guarded);
    code
}
