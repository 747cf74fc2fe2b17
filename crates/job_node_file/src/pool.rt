//! The least pool of a node: how many bytes of memory it needs in a C program. With these, memory is refused to no
//! packet and no load.

ghost use Rattle.std.specs.Prelude.{◌≡◌, ◌≤◌, ◌<◌, ◌^◌, ◌*◌, IfOk, length};
ghost use Rattle.job_node_file.specs.Pools.{IsPool, bank_units, banks_units, block, cells_units, gaps_units, journal_units, kept_units, map_units, maps_units, memory_units, node_units, ports_units, programs_units};

use crate::images::{ImageSize, largest};
use bver::Accepted;
use job_config::own_node::OwnNode;
use machine::MapSizes;
use node_parts::BankConfig;
use std::alloc::{AllocError, Global};

/// How many bytes a block of a bank's memory has.
const PAGE: u32 = 4096;

/// The units of a block of this many bytes: 16 bytes each, and one before it.
fn block(bytes: u64) -> u64
    requires { bytes < 2 ^ 48 }
    ensures { result ≡ block bytes }
{
    (bytes + 15) / 16 + 1
}

/// The units of the memory of a bank of this many bytes, once.
fn memory_units(size: u32) -> u64
    ensures units { result ≡ memory_units size }
    ensures few { result < 2 ^ 30 }
{
    263 * u64::from(size / PAGE) + block(u64::from(size % PAGE)) + 13
}

/// The units of a journal with room for this many entries, each with the longest packet.
fn journal_units(room: u32) -> u64
    ensures units { result ≡ journal_units room }
    ensures few { result < 2 ^ 42 }
{
    let room = u64::from(room);
    block(80 * room) + 264 * room
}

/// The units of a bank.
fn bank_units(ports: u8, bank: &BankConfig) -> u64
    ensures units { result ≡ bank_units ports bank.now }
    ensures few { result < 2 ^ 43 }
{
    let ports = u64::from(ports);
    8 + 2 * memory_units(bank.size)
        + journal_units(bank.room)
        + block(8 * ports)
        + block(16 * ports)
}

/// The units of banks, of which there are at most 8.
fn banks_units(ports: u8, banks: &[BankConfig]) -> u64
    requires { length banks.now ≤ 8 }
    ensures units { result ≡ banks_units ports banks.now }
    ensures few { result ≤ 2 ^ 46 }
{
    let mut units: u64 = 0;
    for bank in banks {
        units += bank_units(ports, bank);
    }
    units
}

/// The units of this many ports, at this many banks.
fn ports_units(ports: u8, banks: usize) -> u64
    requires { banks ≤ 8 }
    ensures units { result ≡ ports_units ports banks }
    ensures few { result < 2 ^ 20 }
{
    let ports = u64::from(ports);
    block(688 * ports) + block(24 * ports) + 1031 * ports + 2 * ports * banks as u64
}

/// The units of the cells of a map, if there is one, and of their complements.
fn map_units(cells: Option<u16>) -> u64
    ensures units { result ≡ map_units cells }
    ensures few { result < 2 ^ 17 }
{
    match cells {
        Some(cells) => 2 * block(8 * u64::from(cells)),
        None => 0,
    }
}

/// The units of the cells of all maps, of which there are at most eight.
fn cells_units(sizes: &MapSizes) -> u64
    ensures units { result ≡ cells_units sizes.now.cells }
    ensures few { result < 2 ^ 20 }
{
    map_units(sizes.cells(0))
        + map_units(sizes.cells(1))
        + map_units(sizes.cells(2))
        + map_units(sizes.cells(3))
        + map_units(sizes.cells(4))
        + map_units(sizes.cells(5))
        + map_units(sizes.cells(6))
        + map_units(sizes.cells(7))
}

/// The units of maps.
fn maps_units(sizes: &MapSizes) -> u64
    ensures units { result ≡ maps_units sizes.now }
    ensures few { result < 2 ^ 21 }
{
    let maps = u64::from(sizes.maps());
    2 * block(24 * maps) + cells_units(sizes)
}

/// The units of what a slot keeps of a program of this many slots.
fn kept_units(slots: u64) -> u64
    requires { slots < 2 ^ 16 }
    ensures units { result ≡ kept_units slots }
    ensures few { result < 2 ^ 20 }
{
    block(32 * slots) + block(2 * slots) + block(16 * slots) + 15
}

/// The units of four programs, and of one that is verified.
fn programs_units(size: ImageSize) -> u64
    ensures units { result ≡ programs_units size }
    ensures few { result < 2 ^ 24 }
{
    let (slots, entries) = (u64::from(size.slots), u64::from(size.entries));
    5 * kept_units(slots) + block(slots) + block(2 * slots) + block(1368 * entries)
}

/// The units of the gaps that programs of several sizes leave.
fn gaps_units(publishes: usize, size: ImageSize) -> u64
    ensures units { result ≡ gaps_units publishes size }
    ensures few { result < 2 ^ 20 }
{
    let slots = u64::from(size.slots);
    publishes.min(1) as u64 * block(32 * slots) + publishes.min(8) as u64 * block(4 * slots)
}

/// The bytes of a pool over which a node with images of at most that size serves without want of memory.
fn node_bytes(node: &OwnNode, size: ImageSize) -> u64
    ensures { result ≡ 16 * node_units node.now size }
{
    let banks = node.banks();
    let units = 546
        + banks_units(node.ports(), banks)
        + ports_units(node.ports(), banks.len())
        + maps_units(&node.sizes())
        + programs_units(size)
        + gaps_units(node.publishes().len(), size);
    16 * units
}

/// How many bytes the pool of a node has, so that memory is refused to no packet and no load. Then each journal may be
/// full of the longest packets there are. In each slot may be a program as large as the largest of its file.
///
/// # Errors
///
/// An error if memory is refused.
pub fn pool_of(alloc: Global, node: &OwnNode, program: &Accepted) -> Result<u64, AllocError>
    ensures { IfOk result (IsPool node.now program.now) }
{
    let size = largest(alloc, program, node.publishes())?;
    Ok(node_bytes(node, size))
}
