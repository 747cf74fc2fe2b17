//! One packet, from its bytes to those of its reply.

ghost use Rattle.std.specs.Prelude.{◌≡◌, ◌≢◌, ◌<◌, ◌≤◌, IfOk, Some, length, slice_get};
ghost use Rattle.rmap.specs.declared.reply.TheConstants.{MAX_REPLY};
ghost use Rattle.single_node_c.specs.Held.{BecomesGuarded, IsCallCode, guarded_test};
ghost use Rattle.single_node_c.specs.Numbers.{end_of_number};
ghost use Rattle.single_node_c.specs.Serving.{ServesBytes, ServesPacket, room_after_command, journal_room_of, serve_test};
ghost use Rattle.single_node_c.specs.declared.codes.TheConstants.{OK};
ghost use Rattle.spw.specs.declared.packets.TheConstants.{MAX_PACKET};

use crate::codes::{BAD_END, DAMAGED, NO_MEMORY, NO_NODE, NO_PORT, NO_ROOM, OK, TOO_LONG};
use crate::handle::Handle;
use crate::held::{put, take};
use crate::numbers::{ServedNumbers, end_of_number};
use crate::parts::ServedParts;
use node_parts::Served;
use rmap::MAX_REPLY;
use scrub::GuardedNode;
use single_node::SingleNode;
use spw::{End, MAX_PACKET, Packet};
use std::alloc::{AllocError, Global};

/// A packet of a copy of the bytes.
///
/// # Errors
///
/// `AllocError` if memory was refused.
fn packet_of(alloc: Global, bytes: &[u8], end: End) -> Result<Packet, AllocError>
    requires { length bytes.now ≤ MAX_PACKET }
    ensures { IfOk result (λ packet. packet ≡ record { bytes = bytes.now; end = end }) }
{
    let Ok(copy) = bytes.to_vec(alloc) else {
        return Err(AllocError);
    };
    match Packet::new(copy, end) {
        Ok(packet) => Ok(packet),
        Err(_) => unreachable!(),
    }
}

/// How many more entries the journal of the bank of that number has room for, if there is that bank.
fn journal_room_of(node: &SingleNode, number: u8) -> u32
    ensures { result ≡ journal_room_of (slice_get node.now.banks number) }
{
    if number >= node.banks() {
        return 0;
    }
    node.bank(number).journal_room_left()
}

/// How many more entries the journal of the bank of that number has room for, after a command that ended there.
fn room_after_command(node: &SingleNode, served: Served, number: u8) -> u32
    ensures { result ≡ room_after_command served number node.now }
{
    match served {
        Served::Stopped(_) | Served::Unread | Served::Window(_) => 0,
        Served::Done(_) => journal_room_of(node, number),
    }
}

/// Serves a packet of these bytes, and puts its reply at the front of the room for it.
fn serve_packet(
    alloc: Global,
    guarded: &mut GuardedNode,
    port: u8,
    packet: Packet,
    bytes: &[u8],
    room: &mut [u8],
) -> ServedNumbers
    requires port { port < length guarded.old.node.passes }
    requires bytes { packet.bytes ≡ bytes.now }
    requires room { MAX_REPLY ≤ length room.old }
    ensures { ServesPacket port packet guarded.old guarded.new room.old room.new result }
{
    let end = packet.end();
    let answer = guarded.serve(alloc, port, packet, room);
    let served = answer.reported.served;
    let parts = ServedParts::of(served, bytes, end);
    let left = room_after_command(&guarded.node, served, parts.extended);
    ServedNumbers::of(answer, parts, left, answer.size as u32)
}

/// Serves the bytes of a packet, if the node may, and gives a code.
fn serve(
    alloc: Global,
    guarded: &mut GuardedNode,
    port: u8,
    bytes: &[u8],
    end: u8,
    room: &mut [u8],
    served: &mut ServedNumbers,
) -> u32
    ensures code { IsCallCode
        (serve_test port (length bytes.now) end (length room.old) guarded.old) result }
    ensures served { result ≡ OK
        → ServesBytes port bytes.now end room.old room.new served.new guarded.old guarded.new }
    ensures node { result ≢ OK → guarded.new ≡ guarded.old }
    ensures room { result ≢ OK → room.new ≡ room.old }
    ensures numbers { result ≢ OK → served.new ≡ served.old }
{
    if guarded.is_damaged() {
        return DAMAGED;
    }
    if port >= guarded.node.ports() {
        return NO_PORT;
    }
    let Some(end) = end_of_number(end) else {
        return BAD_END;
    };
    if bytes.len() > MAX_PACKET {
        return TOO_LONG;
    }
    if room.len() < MAX_REPLY {
        return NO_ROOM;
    }
    let Ok(packet) = packet_of(alloc, bytes, end) else {
        return NO_MEMORY;
    };
    *served = serve_packet(alloc, guarded, port, packet, bytes, room);
    OK
}

/// Serves a packet, whole, as it came in at a port. At any code except `OK` all that was lent is as before.
#[unsafe(no_mangle)]
pub extern "C" fn sandbar_serve(
    alloc: Global,
    handle: &mut Handle,
    port: u8,
    packet: &[u8],
    end: u8,
    reply: &mut [u8],
    served: &mut ServedNumbers,
) -> u32
    ensures code { IsCallCode (guarded_test handle.old.kept
        (serve_test port (length packet.now) end (length reply.old))) result }
    ensures served { result ≡ OK
        → BecomesGuarded (ServesBytes port packet.now end reply.old reply.new served.new)
        handle.old.kept handle.new.kept }
    ensures node { result ≢ OK → handle.new.kept ≡ handle.old.kept }
    ensures reply { result ≢ OK → reply.new ≡ reply.old }
    ensures numbers { result ≢ OK → served.new ≡ served.old }
{
    let Some(mut guarded) = take(alloc, handle) else {
        return NO_NODE;
    };
    let code = serve(alloc, &mut guarded, port, packet, end, reply, served);
    put(alloc, handle, guarded);
    code
}
