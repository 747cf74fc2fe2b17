//! The node.

ghost use Rattle.std.specs.Prelude.{◌≡◌, ◌<◌, ◌≤◌, ◌+◌, ◌^◌, ◌↔◌, [], ℕ, IfErr, IfOk, IfSome, IsSome, None, OnErr, OnOk, OnSome, Some, length, slice_get, true};
ghost use Rattle.bver.specs.Justified.{AcceptedValue};
ghost use base.Stored.{gnil};
ghost use Rattle.machine.specs.Sizes.{IsInside};
ghost use Rattle.node_programs.specs.Published.{generation_at, program_at, sizes_of};
ghost use Rattle.node_programs.specs.Codes.{IsUnpublished};
ghost use Rattle.node_parts.specs.Nodes.{AreSharesOf, IsNodeFault, first_passes, first_programs, limit_fault, windows_of};
ghost use Rattle.node_parts.specs.Passes.{PassValue};
ghost use Rattle.plain_cells.specs.Words.{word_in};
ghost use Rattle.single_node.specs.Nodes.{IsFreshNode, IsPublishedAgain, IsSingleNode, Rotates, RotatesTo, SetsBytes, SetsMemory, covers_in, room_in, port_slot_in, staging_in, with_program};
ghost use Rattle.rmap.specs.Command.{command_of, discard_of};
ghost use Rattle.rmap.specs.Reply.{reply_of};
ghost use Rattle.rmap.specs.declared.status.Status.TheVariants.{GeneralError};
ghost use Rattle.rmap.specs.declared.reply.TheConstants.{MAX_REPLY};
ghost use Rattle.single_node.specs.Serving.{ServesPacketAt, ServesInto, ServesReported};
ghost use Rattle.spw.specs.Rooms.{put_front};

use crate::context::PortContext;
use crate::port::SinglePort;
use crate::programs::SlotPrograms;
use crate::served::{ServedDetail, serve_at};
use bank::{Bank, Journal};
use bver::Accepted;
use machine::MapSizes;
use node_parts::{
    Banks, NodeConfig, NodeFault, PortShares, Served, made_are_paired, packets_keep_pairs,
};
use node_programs::{PublishFault, Staging};
use plain_cells::PlainCells;
use rmap::{Command, MAX_BANKS, ReplyBuf, Status, Windows, put_reply};
use spw::{PORTS, Packet, put_front};
use std::alloc::{AllocError, Global};
use std::marker::Model;

/// A node of one thread: its windows, banks and cells, the program of each slot, what each port has, and room
/// for a reply. Contracts see the banks, the word of each cell, the list of what was published, and the pass of each port.
#[derive(Drop)]
pub struct SingleNode {
    /// Its address, and the ranges of its banks. The node lends them to the ports.
    windows: Windows,
    banks: Banks,
    cells: PlainCells,
    programs: SlotPrograms,
    ports: Vec<SinglePort>,
    /// The last reply of [`SingleNode::serve_into`]. The room is made once.
    reply: ReplyBuf,
}

impl Model for SingleNode {
    ghost use Rattle.std.specs.Prelude.{◌≡◌};
    ghost use Rattle.node_programs.specs.Published.{sizes_of};
    ghost use Rattle.single_node.specs.Nodes.{AreUnder, SingleNodeValue, IsSingleNode, single_node};

    ghost Value = { SingleNodeValue };

    ghost view = { λ n. single_node n.banks n.cells.words n.programs n.ports.items };

    ghost invariant = { λ n. IsSingleNode (single_node n.banks n.cells.words n.programs n.ports.items) × (n.cells.sizes ≡ sizes_of n.programs) × AreUnder n.windows n.ports.items };
}

/// The ports of a fresh node, in order, each with its shares of the banks.
fn first_ports(
    alloc: Global,
    config: &NodeConfig,
    windows: &Windows,
    programs: &SlotPrograms,
    mut by_port: Vec<PortShares>,
) -> Result<Vec<SinglePort>, AllocError>
    requires banks { length config.now.banks.now ≤ MAX_BANKS }
    requires ports { config.now.ports ≤ PORTS }
    requires by_port { AreSharesOf config.now by_port.items }
    requires windows { windows.now ≡ windows_of config.now.address config.now.banks.now }
    ensures { (factory : AcceptedValue) → programs.now ≡ first_programs factory
        → factory.sizes ≡ config.now.sizes
        → IfOk result (λ ports. ports.items ≡ first_passes config.now factory gnil) }
{
    let mut ports = Vec::with_capacity(alloc, by_port.len())?;
    for port in 0..config.ports {
        let context = PortContext::new(port, windows, config.sizes);
        let shares = by_port[usize::from(port)].take(alloc);
        let staging = Staging::new(alloc)?;
        ports.push(SinglePort::new(context, programs.list(), shares, staging))?;
    }
    Ok(ports)
}

impl SingleNode {
    /// A node of zero bytes, with cells of 0. The factory program, of generation 0, judges in each slot. The condition
    /// is a program that was accepted for the maps of the configuration.
    ///
    /// # Errors
    ///
    /// - `Ports`, and then `Banks`, if one of their numbers is outside its limits. This is tested first.
    /// - `Memory` if memory was refused.
    pub fn new(
        alloc: Global,
        config: &NodeConfig,
        factory: Accepted,
    ) -> Result<SingleNode, NodeFault>
        requires { factory.sizes ≡ config.now.sizes }
        ensures fresh { IfOk result (IsFreshNode config.now factory) }
        ensures node { IfOk result IsSingleNode }
        ensures limits { IfOk result (λ _. limit_fault config.now ≡ None) }
        ensures fault { IfErr result (IsNodeFault (limit_fault config.now)) }
    {
        made_are_paired();
        let (banks, by_port) = Banks::new(alloc, config)?;
        let cells = PlainCells::new(alloc, &config.sizes)?;
        let programs = SlotPrograms::first(alloc, factory)?;
        let windows = config.windows();
        let ports = first_ports(alloc, config, &windows, &programs, by_port)?;
        Ok(SingleNode {
            windows,
            banks,
            cells,
            programs,
            ports,
            reply: ReplyBuf::new(),
        })
    }

    /// Serves one packet that came in at a port, from its bytes to its reply. If a reply is due, `reply` holds it then.
    ///
    /// The last program that was published for the command's slot judges it. Then the verdict is applied to the bank
    /// that it names or to the port's staging, or what is staged there is loaded. The call takes memory only if it
    /// loads, and never answers [`Served::Unread`]. The condition is a port of the node ([`SingleNode::ports`]).
    pub fn serve(&mut self, alloc: Global, port: u8, packet: Packet, reply: &mut ReplyBuf) -> Served
        requires { port < length self.old.passes }
        ensures serves { ServesPacketAt result port packet self.old self.new reply.new }
        ensures node { IsSingleNode self.new }
    {
        let reported = self.serve_with_program(alloc, port, packet, reply);
        reported.served
    }

    /// Serves one packet as [`SingleNode::serve`] does, and reports the generation of the program that judged it, and
    /// its verdict.
    pub fn serve_with_program(
        &mut self,
        alloc: Global,
        port: u8,
        packet: Packet,
        reply: &mut ReplyBuf,
    ) -> ServedDetail
        requires { port < length self.old.passes }
        ensures serves { ServesReported result port packet self.old self.new reply.new }
        ensures node { IsSingleNode self.new }
    {
        packets_keep_pairs();
        let place = usize::from(port);
        let windows = &self.windows;
        let banks = &mut self.banks;
        let cells = &mut self.cells;
        let programs = &mut self.programs;
        let port = &mut self.ports[place];
        serve_at(alloc, windows, banks, cells, programs, port, packet, reply)
    }

    /// Serves one packet as [`SingleNode::serve_with_program`] does, and puts its reply at the front of the room. The rest of
    /// the room stays. The second result is how many bytes the reply has. The conditions are a port of the node, and
    /// room for any reply ([`MAX_REPLY`]).
    ///
    /// [`MAX_REPLY`]: rmap::MAX_REPLY
    pub fn serve_into(
        &mut self,
        alloc: Global,
        port: u8,
        packet: Packet,
        room: &mut [u8],
    ) -> (ServedDetail, usize)
        requires port { port < length self.old.passes }
        requires room { MAX_REPLY ≤ length room.old }
        ensures serves { ServesInto result.0 result.1 port packet self.old self.new room.old room.new }
        ensures few { result.1 ≤ MAX_REPLY }
        ensures node { IsSingleNode self.new }
    {
        packets_keep_pairs();
        let place = usize::from(port);
        let windows = &self.windows;
        let banks = &mut self.banks;
        let cells = &mut self.cells;
        let programs = &mut self.programs;
        let port = &mut self.ports[place];
        let reply = &mut self.reply;
        let reported = serve_at(alloc, windows, banks, cells, programs, port, packet, reply);
        let bytes = reply.bytes();
        put_front(room, bytes);
        (reported, bytes.len())
    }

    /// How many ports there are: 1 to 32.
    pub fn ports(&self) -> u8
        ensures value { result ≡ length self.now.passes }
        ensures few { result ≤ 32 }
        ensures node { IsSingleNode self.now }
    {
        self.ports.len() as u8
    }

    /// The windows under which all ports serve: the node's address, and where its banks lie.
    pub fn windows(&self) -> &Windows
        ensures { (k : ℕ) (h : PassValue) → slice_get self.now.passes k ≡ Some h
            → result.now ≡ h.windows }
    {
        &self.windows
    }

    /// How many banks there are: 1 to 8.
    pub fn banks(&self) -> u8
        ensures value { result ≡ length self.now.banks }
        ensures few { result ≤ 8 }
    {
        self.banks.len() as u8
    }

    /// The bank of that number. The condition is a number below [`SingleNode::banks`].
    pub fn bank(&self, k: u8) -> &Bank
        requires { k < length self.now.banks }
        ensures { slice_get self.now.banks k ≡ Some result.now }
    {
        self.banks.bank(k)
    }

    /// Begins a new journal at the bank of that number, and hands the old one out, whose replay is the memory of now.
    /// Memory and counts stay. The conditions are a number below [`SingleNode::banks`], and an empty `fresh`.
    pub fn rotate(&mut self, k: u8, fresh: Journal) -> Journal
        requires number { k < length self.old.banks }
        requires empty { fresh.entries ≡ [] }
        ensures { Rotates k fresh self.old self.new result }
    {
        self.banks.bank_mut(k).rotate(fresh)
    }

    /// How many entries the journal of the bank of that number has room for in all, or 0 if there is no such bank.
    pub fn room(&self, k: u8) -> u32
        ensures { result ≡ room_in (slice_get self.now.banks k) }
    {
        if usize::from(k) >= self.banks.len() {
            return 0;
        }
        self.banks.bank(k).room()
    }

    /// Begins a new journal of that room at the bank of that number, in the memory of the old one, whose entries are
    /// gone. All is as after [`SingleNode::rotate`] with a fresh journal of that room, but the call takes no memory.
    /// The conditions are a number below [`SingleNode::banks`], and a room of 1 to [`SingleNode::room`].
    pub fn turn(&mut self, k: u8, room: u32)
        requires number { k < length self.old.banks }
        requires some { 1 ≤ room }
        requires room { room ≤ room_in (slice_get self.old.banks k) }
        ensures { RotatesTo k room self.old self.new }
    {
        self.banks.bank_mut(k).turn(room);
    }

    /// Whether that many bytes from the address on lie in the bank of that number. If there is no such bank, they do
    /// not.
    pub fn covers(&self, k: u8, address: u32, count: usize) -> bool
        ensures { result ≡ covers_in (slice_get self.now.banks k) address count }
    {
        usize::from(k) < self.banks.len() && self.banks.bank(k).covers(address, count)
    }

    /// Puts bytes at an address of the bank of that number without a command: an instrument's write, of which no entry
    /// is made. So a new journal begins with the memory that is then there, and the call hands the old one out. Counts
    /// stay. It costs a copy of the bank's memory ([`Bank::set`]). The conditions are bytes that lie in that bank
    /// ([`SingleNode::covers`]), and an empty `fresh`.
    pub fn set_memory(&mut self, k: u8, address: u32, bytes: &[u8], fresh: Journal) -> Journal
        requires inside { covers_in (slice_get self.old.banks k) address (length bytes.now) ≡ true }
        requires empty { fresh.entries ≡ [] }
        ensures { SetsMemory k address bytes.now fresh self.old self.new result }
    {
        self.banks.bank_mut(k).set(address, bytes, fresh)
    }

    /// Puts bytes at an address of the bank of that number without a command, as [`SingleNode::set_memory`] does. It
    /// begins a new journal of that room in the memory of the old one, as [`SingleNode::turn`] does. The conditions are
    /// bytes that lie in that bank ([`SingleNode::covers`]), and a room of 1 to [`SingleNode::room`].
    pub fn turn_and_set(&mut self, k: u8, address: u32, bytes: &[u8], room: u32)
        requires inside { covers_in (slice_get self.old.banks k) address (length bytes.now) ≡ true }
        requires some { 1 ≤ room }
        requires room { room ≤ room_in (slice_get self.old.banks k) }
        ensures { SetsBytes k address bytes.now room self.old self.new }
    {
        self.banks.bank_mut(k).turn_and_set(address, bytes, room);
    }

    /// The staging of a port, with the result of its last load. The condition is a port of the node.
    pub fn staging(&self, port: u8) -> &Staging
        requires { port < length self.now.passes }
        ensures { staging_in (slice_get self.now.passes port) ≡ Some result.now }
    {
        self.ports[usize::from(port)].staging()
    }

    /// The generation of the program of a slot: its place in the list of what was published. The condition is a slot
    /// below 4.
    pub fn generation(&self, slot: u8) -> u32
        requires { slot < 4 }
        ensures { generation_at self.now.programs slot ≡ Some result }
    {
        self.programs.shown(slot).1
    }

    /// The program of a slot: the last that was published for it. The condition is a slot below 4.
    pub fn program(&self, slot: u8) -> &Accepted
        requires { slot < 4 }
        ensures value { program_at self.now.programs slot ≡ Some result.now }
        ensures sizes { result.now.sizes ≡ sizes_of self.now.programs }
    {
        self.programs.shown(slot).0
    }

    /// Publishes a program for a slot, without a command that asks for it, and gives its generation. The conditions are
    /// a slot below 4, and a program that was accepted for the maps of the node.
    ///
    /// # Errors
    ///
    /// - `GenerationsFull` after 4,294,967,295 publishes.
    /// - Else `Memory` if memory was refused.
    ///
    /// The node stays.
    pub fn publish(&mut self, slot: u8, program: Accepted) -> Result<u32, PublishFault>
        requires slot { slot ≤ 3 }
        requires sizes { program.sizes ≡ sizes_of self.old.programs }
        ensures published { OnOk result (self.new ≡ with_program self.old slot program) }
        ensures generation { IfOk result (λ n. n ≡ length self.old.programs) }
        ensures same { OnErr result (self.new ≡ self.old) }
        ensures refused { IfErr result (IsUnpublished (length self.old.programs)) }
    {
        let _list = self.programs.list();
        self.programs.install(slot, program)
    }

    /// Makes the operations of the program of a slot again, in their own memory, from its image. It asks for no memory.
    /// While memory keeps what was written, nothing changes. The condition is a slot below 4.
    pub fn renew(&mut self, slot: u8)
        requires { slot < 4 }
        ensures { self.new ≡ self.old }
    {
        self.programs.renew(slot);
    }

    /// Publishes the program of a slot for it once more, so that it has the next generation, and gives that. It asks
    /// for no memory. The condition is a slot below 4.
    ///
    /// # Errors
    ///
    /// `GenerationsFull` after 4,294,967,295 publishes. The node stays.
    pub fn publish_again(&mut self, slot: u8) -> Result<u32, PublishFault>
        requires { slot < 4 }
        ensures published { OnOk result (IsPublishedAgain slot self.old self.new) }
        ensures generation { IfOk result (λ n. n ≡ length self.old.programs) }
        ensures same { OnErr result (self.new ≡ self.old) }
        ensures refused { OnErr result (2 ^ 32 ≤ length self.old.programs) }
    {
        let _list = self.programs.list();
        self.programs.publish_again(slot)
    }

    /// The slot whose program judges the command of a packet that came in at a port. It is `None` if the packet is no
    /// command, or a check of its header stops it. The condition is a port of the node.
    pub fn slot_for(&self, port: u8, packet: &Packet) -> Option<u8>
        requires { port < length self.now.passes }
        ensures slot { result ≡ port_slot_in (slice_get self.now.passes port) packet.now }
        ensures few { IfSome result (λ slot. slot < 4) }
        ensures command { OnSome result (discard_of packet.now.bytes ≡ None) }
    {
        self.ports[usize::from(port)].slot_for(&self.windows, packet)
    }

    /// Answers the command of a packet that no program judges. It puts the reply, a general error, at the front of the
    /// room, and the rest stays. The number is how many bytes the reply has. The conditions are a packet that is a
    /// command, and room for any reply.
    pub fn unread_into(&mut self, packet: &Packet, room: &mut [u8]) -> usize
        requires command { discard_of packet.now.bytes ≡ None }
        requires room { MAX_REPLY ≤ length room.old }
        ensures reply { room.new
            ≡ put_front room.old (reply_of (command_of packet.now) GeneralError []) }
        ensures size { result ≡ length (reply_of (command_of packet.now) GeneralError []) }
        ensures few { result ≤ MAX_REPLY }
        ensures node { self.new ≡ self.old }
    {
        let reply = &mut self.reply;
        put_reply(reply, &Command::again(packet), Status::GeneralError, &[]);
        let bytes = reply.bytes();
        put_front(room, bytes);
        bytes.len()
    }

    /// How many programs were loaded.
    pub fn loaded(&self) -> u32
        ensures { result + 1 ≡ length self.now.programs }
    {
        self.programs.loaded()
    }

    /// How many cells each map of the node has, and of which kind it is.
    pub fn sizes(&self) -> MapSizes
        ensures { result ≡ sizes_of self.now.programs }
    {
        self.programs.sizes()
    }

    /// The word of a cell: how many tickets were drawn from it, modulo 2^64, or the greatest number that was shown to
    /// it. If there is no such cell, it is `None`. It is no call of a program.
    pub fn word(&self, map: u8, key: u16) -> Option<u64>
        ensures value { result ≡ word_in self.now.words map key }
        ensures inside { IsSome result ↔ IsInside (sizes_of self.now.programs) map key }
    {
        self.cells.word(map, key)
    }
}
