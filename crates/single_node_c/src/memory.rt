//! The memory of the banks, as the instrument reads and writes it beside all commands, and the CRC.

ghost use Rattle.std.specs.Prelude.{◌≡◌, ◌≢◌, ◌<◌, ◌≤◌, ◌+◌, ◌^◌, ℕ, Some, length, slice_get, true};
ghost use Rattle.bank.specs.Records.{byte_in, covers};
ghost use Rattle.bank.specs.declared.bank.TheConstants.{MAX_SIZE};
ghost use Rattle.rcrc.specs.Crc.{crc_of};
ghost use Rattle.rcrc.specs.Polynomial.{IsRemainder};
ghost use Rattle.single_node.specs.Nodes.{SetsBytes, room_in};
ghost use Rattle.single_node_c.specs.Held.{BecomesNode, IsCallCode, IfNode, code_on, test_on};
ghost use Rattle.single_node_c.specs.Journals.{room_at};
ghost use Rattle.single_node_c.specs.Memory.{ReportsBytes, peek_code, poke_test};
ghost use Rattle.single_node_c.specs.declared.codes.TheConstants.{NO_MEMORY, OK};

use crate::codes::{BAD_CONFIG, NO_BANK, NO_MEMORY, NO_NODE, NO_ROOM, OK};
use crate::handle::Handle;
use crate::held::{put, take};
use bank::{Bank, BankFault, Journal, MAX_ROOM};
use rcrc::crc;
use single_node::SingleNode;
use std::alloc::Global;

/// A law and no work: bytes that a bank covers lie between its first address and its end, and are few.
fn covered_bytes_lie_inside(bank: &Bank, address: u32, count: usize)
    requires { covers bank.now address count ≡ true }
    ensures first { bank.now.first ≤ address }
    ensures end { address + count ≤ bank.now.first + length bank.now.bytes }
    ensures below { address + count ≤ 2 ^ 32 }
    ensures few { count ≤ MAX_SIZE }
{
    let _range = bank.range();
}

/// The byte of a bank at an address. The condition is an address that the bank has.
fn byte_at(bank: &Bank, address: u32) -> u8
    requires first { bank.now.first ≤ address }
    requires end { address < bank.now.first + length bank.now.bytes }
    ensures { byte_in bank.now.first bank.now.bytes address ≡ Some result }
{
    match bank.memory(address) {
        Some(byte) => byte,
        None => unreachable!(),
    }
}

/// Copies the bytes of a bank from an address on. The condition is bytes that lie in the bank.
fn copy_bytes(bank: &Bank, address: u32, bytes: &mut [u8])
    requires { covers bank.now address (length bytes.old) ≡ true }
    ensures length { length bytes.new ≡ length bytes.old }
    ensures bytes { (k : ℕ) → k < length bytes.old
        → slice_get bytes.new k ≡ byte_in bank.now.first bank.now.bytes (address + k) }
{
    covered_bytes_lie_inside(bank, address, bytes.len());
    for k in 0..bytes.len() {
        bytes[k] = byte_at(bank, address + k as u32);
    }
}

/// Copies the bytes of a bank from an address on, if they lie in it, and gives a code.
fn peek(node: &SingleNode, bank: u8, address: u32, bytes: &mut [u8]) -> u32
    ensures code { result ≡ peek_code bank address (length bytes.old) node.now }
    ensures reported { result ≡ OK → ReportsBytes bank address bytes.new node.now }
    ensures length { length bytes.new ≡ length bytes.old }
    ensures bytes { result ≢ OK → bytes.new ≡ bytes.old }
{
    if bank >= node.banks() {
        return NO_BANK;
    }
    if !node.covers(bank, address, bytes.len()) {
        return NO_ROOM;
    }
    copy_bytes(node.bank(bank), address, bytes);
    OK
}

/// Reads bytes of a bank, as the instrument does beside all commands. The node stays as it is.
#[unsafe(no_mangle)]
pub extern "C" fn sandbar_peek(
    alloc: Global,
    handle: &mut Handle,
    bank: u8,
    address: u32,
    bytes: &mut [u8],
) -> u32
    ensures code { result ≡ code_on handle.old.kept (peek_code bank address (length bytes.old)) }
    ensures reported { result ≡ OK → IfNode handle.old.kept (ReportsBytes bank address bytes.new) }
    ensures length { length bytes.new ≡ length bytes.old }
    ensures bytes { result ≢ OK → bytes.new ≡ bytes.old }
    ensures node { handle.new.kept ≡ handle.old.kept }
{
    let Some(guarded) = take(alloc, handle) else {
        return NO_NODE;
    };
    let code = peek(&guarded.node, bank, address, bytes);
    put(alloc, handle, guarded);
    code
}

/// Puts bytes at an address of a bank, if they lie in it, with a new journal of that room, and gives a code. It asks
/// for memory only if the room is more than that of the old journal.
fn poke(
    alloc: Global,
    node: &mut SingleNode,
    bank: u8,
    address: u32,
    bytes: &[u8],
    room: u32,
) -> u32
    ensures code { IsCallCode (poke_test bank address (length bytes.now) room node.old) result }
    ensures turned { room ≤ room_in (slice_get node.old.banks bank) → result ≢ NO_MEMORY }
    ensures set { result ≡ OK → SetsBytes bank address bytes.now room node.old node.new }
    ensures node { result ≢ OK → node.new ≡ node.old }
{
    if bank >= node.banks() {
        return NO_BANK;
    }
    if !node.covers(bank, address, bytes.len()) {
        return NO_ROOM;
    }
    if 1 <= room && room <= MAX_ROOM && room <= node.room(bank) {
        node.turn_and_set(bank, address, bytes, room);
        return OK;
    }
    match Journal::new(alloc, room) {
        Ok(fresh) => {
            let _old = node.set_memory(bank, address, bytes, fresh);
            OK
        }
        Err(BankFault::Memory) => NO_MEMORY,
        Err(BankFault::Size) => BAD_CONFIG,
    }
}

/// Puts bytes at an address of a bank without a command, as the instrument does. It begins a new journal of that room
/// with the memory that is then there, and the entries of the old one are gone. If the room is at most that of the old
/// journal it takes no memory.
#[unsafe(no_mangle)]
pub extern "C" fn sandbar_poke(
    alloc: Global,
    handle: &mut Handle,
    bank: u8,
    address: u32,
    bytes: &[u8],
    room: u32,
) -> u32
    ensures code { IsCallCode (test_on handle.old.kept
        (poke_test bank address (length bytes.now) room)) result }
    ensures turned { room ≤ room_at handle.old.kept bank → result ≢ NO_MEMORY }
    ensures set { result ≡ OK
        → BecomesNode (SetsBytes bank address bytes.now room) handle.old.kept handle.new.kept }
    ensures node { result ≢ OK → handle.new.kept ≡ handle.old.kept }
{
    let Some(mut guarded) = take(alloc, handle) else {
        return NO_NODE;
    };
    let code = poke(alloc, &mut guarded.node, bank, address, bytes, room);
    put(alloc, handle, guarded);
    code
}

/// The CRC of RMAP of these bytes (ECSS-E-ST-50-52C, 8-bit CRC), for packets that are made.
#[unsafe(no_mangle)]
pub extern "C" fn sandbar_crc(bytes: &[u8]) -> u8
    ensures value { result ≡ crc_of bytes.now }
    ensures remainder { IsRemainder bytes.now result }
{
    crc(bytes)
}
