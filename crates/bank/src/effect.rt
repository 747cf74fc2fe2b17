//! What commands do to the bytes of a bank.

ghost use Rattle.std.specs.Prelude.{◌≡◌, ◌≤◌, ◌<◌, ◌+◌, length, take, true, false, None};
ghost use Rattle.rmap.specs.Command.{increments};
ghost use Rattle.rmap.specs.Checks.{body_line};
ghost use Rattle.bank.specs.Admission.{IsAdmissible};
ghost use Rattle.bank.specs.Effect.{IsDataWithin, memory_at, effect, byte_at, after_write, modified_bytes};
ghost use Rattle.bank.specs.Answer.{read_reply};

use rmap::{Command, Kind, MAX_DATA, ReplyBuf, Status, put_reply};

/// The most bytes that a read-modify-write changes.
const MAX_MODIFIED: usize = 4;

/// Replies with `count` bytes of the memory that begins at the address `first`. With increment they are those from
/// the command's address, else the one there `count` times.
pub(crate) fn reply_read(
    reply: &mut ReplyBuf,
    command: &Command,
    memory: &[u8],
    first: u32,
    count: usize,
)
    requires few { count ≤ MAX_DATA }
    requires within { IsDataWithin first (length memory.now) command.now count }
    ensures { reply.new ≡ read_reply (memory_at first memory.now) command.now count }
{
    let offset = (command.address() - first) as usize;
    if command.increments() {
        put_reply(
            reply,
            command,
            Status::Success,
            &memory[offset..offset + count],
        );
    } else {
        let repeated = [memory[offset]; MAX_DATA as usize];
        put_reply(reply, command, Status::Success, &repeated[..count]);
    }
}

/// Puts bytes at addresses that follow each other, from the command's address, into the memory that begins at the
/// address `first`. It puts only the bytes whose addresses are there.
fn store_next(memory: &mut [u8], first: u32, command: &Command, bytes: &[u8])
    requires { increments command.now ≡ true }
    ensures { memory.new ≡ (after_write (memory_at first memory.old) command.now bytes.now).bytes }
{
    let address = command.address();
    let offset = address.saturating_sub(first) as usize;
    let skipped = first.saturating_sub(address) as usize;
    if offset < memory.len() && skipped < bytes.len() {
        let count = (memory.len() - offset).min(bytes.len() - skipped);
        memory[offset..offset + count].copy_from_slice(&bytes[skipped..skipped + count]);
    }
}

/// Puts the last byte at the command's address, if the memory that begins at the address `first` has that address.
fn store_last(memory: &mut [u8], first: u32, command: &Command, bytes: &[u8])
    requires { increments command.now ≡ false }
    ensures { memory.new ≡ (after_write (memory_at first memory.old) command.now bytes.now).bytes }
{
    let address = command.address();
    let offset = address.saturating_sub(first) as usize;
    if let Some(last) = bytes.last() {
        if first <= address && offset < memory.len() {
            memory[offset] = *last;
        }
    }
}

/// Puts bytes into the memory that begins at the address `first`, if their addresses are there. With increment each
/// has the next address from the command's, else all have that one.
fn store(memory: &mut [u8], first: u32, command: &Command, bytes: &[u8])
    ensures { memory.new ≡ (after_write (memory_at first memory.old) command.now bytes.now).bytes }
{
    if command.increments() {
        store_next(memory, first, command, bytes);
    } else {
        store_last(memory, first, command, bytes);
    }
}

/// The byte at an address of the memory that begins at the address `first`. If the address is not there, the result
/// means nothing.
fn byte_at(memory: &[u8], first: u32, address: u64) -> u8
    ensures { result ≡ byte_at (memory_at first memory.now) address }
{
    let offset = address.saturating_sub(u64::from(first)) as usize;
    memory.get(offset).copied().unwrap_or(0)
}

/// What a read-modify-write of `half` bytes writes. In each byte it is the bits of the data that have a one in the
/// mask, else those of memory. Data and mask are the halves of the data in the body.
fn modified(memory: &[u8], first: u32, command: &Command, half: usize) -> [u8; MAX_MODIFIED]
    requires few { half ≤ 4 }
    requires body { half + half ≤ length command.now.body }
    ensures { take half result ≡ modified_bytes (memory_at first memory.now) command.now half }
{
    let start = u64::from(command.address());
    let increments = command.increments();
    let body = command.body();
    let mut bytes = [0; MAX_MODIFIED];
    for i in 0..half {
        let address = if increments { start + i as u64 } else { start };
        let old = byte_at(memory, first, address);
        let mask = body[half + i];
        bytes[i] = body[i] & mask | old & !mask;
    }
    bytes
}

/// Does what the command does to those of its bytes that are in the memory that begins at the address `first`.
pub(crate) fn change(memory: &mut [u8], first: u32, command: &Command)
    requires admitted { IsAdmissible command.now }
    requires body { body_line command.now ≡ None }
    ensures { memory_at first memory.new
        ≡ (effect (memory_at first memory.old) command.now).memory }
{
    let length = command.length() as usize;
    match command.kind() {
        Kind::Write => store(memory, first, command, &command.body()[..length]),
        Kind::Rmw => {
            let bytes = modified(memory, first, command, length / 2);
            store(memory, first, command, &bytes[..length / 2]);
        }
        Kind::Read | Kind::Unused => {}
    }
}
