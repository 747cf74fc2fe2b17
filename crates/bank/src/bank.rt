//! Banks of memory.

ghost use Rattle.std.specs.Prelude.{◌≡◌, ◌≤◌, ◌<◌, ◌+◌, ◌-◌, ◌^◌, ◌⊎◌, ◌↔◌, [], ◌∷◌, ◌++◌, length, true, Some, None, IfOk, IsErrOf, slice_index, map, false};
ghost use Rattle.std.specs.List.{concat, range_with_len};
ghost use Rattle.std.specs.Vec.{vec_items};
ghost use Rattle.bank.specs.Pages.{ArePages};
ghost use Rattle.rmap.specs.Command.{command_of};
ghost use Rattle.rmap.specs.Windows.{lies_inside};
ghost use Rattle.bank.specs.Answer.{status_of};
ghost use Rattle.bank.specs.Effect.{memory_at, with_bytes};
ghost use Rattle.bank.specs.Limits.{is_bank_size, is_range, is_bank};
ghost use Rattle.bank.specs.Records.{first_share, fresh_bank, byte_in, fits, is_next, has_room, IsBank, IsExecutable, memory_of, memory_from, reply_from, base_of, replay, answer_of, after_command, after_rotation, after_setting, covers, empty_journal, number_left, next_share, journal_room_left};

use crate::answers::reply_to;
use crate::entry::Entry;
use crate::faults::BankFault;
use crate::journal::{Journal, is_room};
use crate::judged::Judged;
use crate::pages::Pages;
use crate::share::Share;
use rmap::{Place, ReplyBuf, Status, put_reply};
use spw::PORTS;
use std::alloc::{AllocError, Global};
use std::marker::Model;
use std::mem;

/// The most bytes that a bank has.
pub const MAX_SIZE: u32 = 1_048_576;

/// How a judged command ended at a bank.
#[derive(Clone, Copy, Debug, PartialEq, Eq)]
pub struct Applied {
    /// The status of the command, and of its reply if it wants one.
    pub status: Status,
    /// The number of the entry that the command left in the journal, or `None` if it left none.
    pub number: Option<u64>,
}

/// A bank of memory, with the journal of the commands that were applied to it.
#[derive(Debug, Drop)]
pub struct Bank {
    first: u32,
    bytes: Pages,
    base: Pages,
    journal: Journal,
    counts: Vec<u64>,
}

impl Model for Bank {
    ghost use Rattle.bank.specs.Records.{BankValue, IsBank};

    ghost Value = { BankValue };

    ghost view = { λ b. record { first = b.first; bytes = b.bytes; base = b.base; journal = b.journal; counts = b.counts.items } };

    ghost invariant = { λ b. IsBank (record { first = b.first; bytes = b.bytes; base = b.base; journal = b.journal; counts = b.counts.items }) };
}

/// Whether a bank may have that many bytes from that address.
fn is_range(base: u32, size: u32) -> bool
    ensures { result ≡ is_range base size }
{
    let end = u64::from(base) + u64::from(size);
    1 <= size && size <= MAX_SIZE && end <= 1 << 32
}

/// Whether a bank may have that many bytes from that address, and a journal of that room. It may have 1 to 1,048,576
/// bytes, none past the last address, and room for 1 to 65,536 entries.
pub fn is_bank_size(base: u32, size: u32, room: u32) -> bool
    ensures { result ≡ is_bank_size base size room }
{
    is_range(base, size) && is_room(room)
}

/// The share of each port, in order.
fn shares(alloc: Global, ports: u8) -> Result<Vec<Share>, AllocError>
    ensures { IfOk result (λ shares. shares.items ≡ map first_share (range_with_len 0 ports)) }
{
    let mut shares = Vec::with_capacity(alloc, usize::from(ports))?;
    for port in 0..ports {
        shares.push(Share::first(port))?;
    }
    Ok(shares)
}

impl Bank {
    /// A bank of `size` zero bytes from the address `base`, and a share of it for each port, in order.
    ///
    /// # Errors
    ///
    /// - `Size`: the size is 0 or more than 1,048,576 bytes, or bytes lie past the last address. There are no ports
    ///   or more than 32, or the journal is not empty.
    /// - `Memory`: there is none of these, and memory is refused.
    pub fn new(
        alloc: Global,
        base: u32,
        size: u32,
        journal: Journal,
        ports: u8,
    ) -> Result<(Bank, Vec<Share>), BankFault>
        ensures bank { IfOk result (λ made. made.0 ≡ fresh_bank base size journal ports) }
        ensures shares { IfOk result
            (λ made. made.1.items ≡ map first_share (range_with_len 0 ports)) }
        ensures size { IsErrOf result BankFault.Size ↔ (is_bank base size journal ports ≡ false) }
    {
        if !is_range(base, size) || ports == 0 || ports > PORTS || !journal.entries().is_empty() {
            return Err(BankFault::Size);
        }
        let shares = shares(alloc, ports)?;
        let bank = Bank {
            first: base,
            bytes: Pages::zeros(alloc, size)?,
            base: Pages::zeros(alloc, size)?,
            journal,
            counts: vec![in alloc; 0; usize::from(ports)]?,
        };
        Ok((bank, shares))
    }

    /// The byte at an address, or `None` outside the bank.
    pub fn memory(&self, address: u32) -> Option<u8>
        ensures { result ≡ byte_in self.now.first self.now.bytes address }
    {
        let offset = address.checked_sub(self.first)?;
        self.bytes.get(offset as usize)
    }

    /// The byte at an address before the first entry of the journal, or `None` outside the bank.
    pub fn base(&self, address: u32) -> Option<u8>
        ensures { result ≡ byte_in self.now.first self.now.base address }
    {
        let offset = address.checked_sub(self.first)?;
        self.base.get(offset as usize)
    }

    /// The pages of memory, in order. Each has 4,096 bytes, except the last, which has 1 to 4,096. Joined they are
    /// the memory.
    pub fn pages(&self) -> &[Vec<u8>]
        ensures joined { concat (map vec_items result.now) ≡ self.now.bytes }
        ensures pages { ArePages (map vec_items result.now) }
    {
        self.bytes.pages()
    }

    /// The entries of the journal, oldest first.
    pub fn entries(&self) -> &[Entry]
        ensures { result.now ≡ self.now.journal.entries }
    {
        self.journal.entries()
    }

    /// How many entries the journal has room for in all.
    pub fn room(&self) -> u32
        ensures { result ≡ self.now.journal.room }
    {
        self.journal.room()
    }

    /// How many more entries the journal has room for.
    pub fn journal_room_left(&self) -> u32
        ensures { result ≡ journal_room_left self.now.journal }
    {
        self.journal.journal_room_left()
    }

    /// The address of the first byte, and how many bytes the bank has. Memory is the replay of the
    /// journal on the bytes that it began with.
    pub fn range(&self) -> (u32, u32)
        ensures first { result.0 ≡ self.now.first }
        ensures size { result.1 ≡ length self.now.bytes }
        ensures few { result.1 ≤ MAX_SIZE }
        ensures bank { IsBank self.now }
    {
        (self.first, self.bytes.len())
    }

    /// How many ports share the bank.
    pub fn ports(&self) -> u8
        ensures value { result ≡ length self.now.counts }
        ensures few { result ≤ PORTS }
    {
        self.counts.len() as u8
    }

    /// How many commands of the port the journals have recorded: the number of its next one. The condition is a port
    /// of the bank ([`Bank::ports`]).
    pub fn count(&self, port: u8) -> u64
        requires { port < length self.now.counts }
        ensures { result ≡ slice_index self.now.counts port }
    {
        self.counts[usize::from(port)]
    }

    /// Whether the command may be applied with that share. The share must be that of the command's port, and its
    /// number the bank's count of that port. The command's place must be a bank in whose range its bytes lie. A bank
    /// does not know its number: the caller must make sure that it is the bank of the place.
    pub fn fits(&self, share: &Share, judged: &Judged) -> bool
        ensures { result ≡ fits self.now share.now judged.now }
    {
        let size = self.bytes.len();
        share.port() == judged.port()
            && self.is_next(share)
            && matches!(judged.place(), Place::Bank(_))
            && judged.command().lies_inside(self.first, size)
    }

    /// Whether the share's number is the bank's count of its port.
    fn is_next(&self, share: &Share) -> bool
        ensures { result ≡ is_next self.now share.now }
    {
        let port = usize::from(share.port());
        port < self.counts.len() && share.number() == self.counts[port]
    }

    /// Whether the journal has room for another entry of the port.
    fn has_room(&self, port: u8) -> bool
        requires { port < length self.now.counts }
        ensures { result ≡ has_room self.now port }
    {
        !self.journal.is_full() && self.counts[usize::from(port)] < u64::MAX
    }

    /// Whether the bank may do and record the command. The journal must have room for another entry of its port, and
    /// its bytes must lie in the range of the bank's own bytes. What a caller knows of that range may be damaged, so
    /// the bank looks at it again at the point of use.
    fn takes(&self, judged: &Judged) -> bool
        requires { judged.now.port < length self.now.counts }
        ensures inside { lies_inside self.now.first (length self.now.bytes) (command_of judged.now.packet) ≡ true
            → result ≡ has_room self.now judged.now.port }
        ensures outside { lies_inside self.now.first (length self.now.bytes)
            (command_of judged.now.packet) ≡ false
            → result ≡ false }
    {
        self.has_room(judged.port()) && judged.command().lies_inside(self.first, self.bytes.len())
    }

    /// Executes a judged command if its verdict is authorised, its body is right and there is room, and writes the
    /// reply. While there is room, each command leaves an entry, whatever its status. The condition is
    /// [`Bank::fits`].
    pub fn apply(&mut self, share: &mut Share, judged: Judged, reply: &mut ReplyBuf) -> Applied
        requires { fits self.old share.old judged ≡ true }

        ensures status { result.status ≡ (answer_of self.old judged).status }
        ensures memory { memory_of self.new ≡ (answer_of self.old judged).memory }
        ensures reply { reply.new ≡ (answer_of self.old judged).reply }

        // If there is room, it leaves one entry, the others stay, and bank and share count it.
        ensures number { result.number ≡ number_left self.old share.old judged }
        ensures bank { self.new ≡ after_command self.old share.old judged }
        ensures share { share.new ≡ next_share self.old share.old judged }
    {
        let room = self.takes(&judged);
        let status = carry_out(&mut self.bytes, self.first, room, &judged, reply);
        if !room {
            drop(judged.into_packet());
            return Applied {
                status,
                number: None,
            };
        }
        let number = share.number();
        share.advance();
        self.counts[usize::from(judged.port())] = number + 1;
        self.journal.push(Entry::new(number, judged, status));
        Applied {
            status,
            number: Some(number),
        }
    }

    /// Begins a new journal and hands the old one out. Memory, counts and shares stay. The new journal begins with
    /// the memory as it is now, which is the replay of the old journal on the old base. The condition is that `fresh`
    /// is empty.
    pub fn rotate(&mut self, fresh: Journal) -> Journal
        requires { fresh.entries ≡ [] }
        ensures bank { self.new ≡ after_rotation self.old fresh }
        ensures journal { result ≡ self.old.journal }
        ensures replayed { base_of self.new ≡ replay (base_of self.old) result.entries }
    {
        self.base.copy_from(&self.bytes);
        mem::replace(&mut self.journal, fresh)
    }

    /// Begins a new journal of that room in the memory of the old one, and drops the old entries. Memory and counts
    /// are as after [`Bank::rotate`] with an empty journal of that room. So it takes no memory. The condition is a
    /// room of 1 to that of the journal ([`Bank::room`]).
    pub fn turn(&mut self, room: u32)
        requires some { 1 ≤ room }
        requires room { room ≤ self.old.journal.room }
        ensures bank { self.new ≡ after_rotation self.old (empty_journal room) }
        ensures replayed { base_of self.new ≡ replay (base_of self.old) self.old.journal.entries }
    {
        let memory = &self.bytes;
        self.base.copy_from(memory);
        self.journal.turn(room);
    }

    /// Whether `count` bytes from the address lie in the bank.
    pub fn covers(&self, address: u32, count: usize) -> bool
        ensures { result ≡ covers self.now address count }
    {
        let size = self.bytes.len();
        if count > size as usize {
            return false;
        }
        let end = u64::from(address) + count as u64;
        self.first <= address && end <= u64::from(self.first) + u64::from(size)
    }

    /// Puts bytes at an address without a command. An instrument writes so, and no entry has it. So a new journal
    /// begins with the memory that is then there. The old journal is handed out: its replay on the old base is the
    /// memory before. Counts and shares stay. It costs a copy of the memory. The conditions are that `fresh` is
    /// empty, and that the bytes lie inside ([`Bank::covers`]).
    pub fn set(&mut self, address: u32, bytes: &[u8], fresh: Journal) -> Journal
        requires empty { fresh.entries ≡ [] }
        requires inside { covers self.old address (length bytes.now) ≡ true }
        ensures memory { memory_of self.new ≡ with_bytes (memory_of self.old) address bytes.now }
        ensures bank { self.new ≡ after_setting self.old address bytes.now fresh }
        ensures journal { result ≡ self.old.journal }
        ensures replayed { memory_of self.old ≡ replay (base_of self.old) result.entries }
    {
        let journal = self.rotate(fresh);
        self.put(address, bytes);
        journal
    }

    /// Puts bytes at an address, in memory and in the base of the journal. The conditions are that there is no entry,
    /// and that the bytes lie inside.
    fn put(&mut self, address: u32, bytes: &[u8])
        requires empty { self.old.journal.entries ≡ [] }
        requires inside { covers self.old address (length bytes.now) ≡ true }
        ensures { self.new ≡ after_setting self.old address bytes.now self.old.journal }
    {
        let offset = (address - self.first) as usize;
        self.bytes.put(offset, bytes);
        self.base.put(offset, bytes);
    }

    /// Puts bytes at an address without a command, as [`Bank::set`] does. It begins a new journal of that room in the
    /// memory of the old one, as [`Bank::turn`] does. The conditions are those of both.
    pub fn turn_and_set(&mut self, address: u32, bytes: &[u8], room: u32)
        requires some { 1 ≤ room }
        requires room { room ≤ self.old.journal.room }
        requires inside { covers self.old address (length bytes.now) ≡ true }
        ensures memory { memory_of self.new ≡ with_bytes (memory_of self.old) address bytes.now }
        ensures bank { self.new ≡ after_setting self.old address bytes.now (empty_journal room) }
        ensures replayed { memory_of self.old ≡ replay (base_of self.old) self.old.journal.entries }
    {
        self.turn(room);
        self.put(address, bytes);
    }
}

/// Replies to a judged command on the bytes of a bank, and does to them what it asks for, if that is allowed. If
/// there is room for it, its bytes lie in the bank.
fn carry_out(
    bytes: &mut Pages,
    first: u32,
    room: bool,
    judged: &Judged,
    reply: &mut ReplyBuf,
) -> Status
    requires inside { room ≡ true
        → lies_inside first (length bytes.old) (command_of judged.now.packet) ≡ true }
    requires range { first + length bytes.old ≤ 2 ^ 32 }
    ensures status { result ≡ status_of room (command_of judged.now.packet) judged.now.verdict }
    ensures memory { memory_at first bytes.new ≡ memory_from result first bytes.old judged.now }
    ensures reply { reply.new ≡ reply_from result first bytes.old judged.now }
    ensures executed { IsExecutable result judged.now.packet }
{
    let command = judged.command();
    let status = reply_to(bytes, first, room, &command, judged.verdict(), reply);
    if status == Status::Success {
        bytes.change(first, &command);
    }
    status
}
