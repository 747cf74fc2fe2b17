//! Calls that the product does not make, each with what it asks for.

ghost use Rattle.std.specs.Prelude.{◌≡◌, IsTrue};
ghost use Rattle.machine.specs.Sizes.{kind_of_map};
ghost use Rattle.loading.specs.Reported.{LoadsAreReported};

use bank::{Entry, replay};
use cells::Cells;
use loading::loads_are_reported;
use machine::{MapKind, MapSizes};
use single_node::SingleNode;
use std::alloc::{AllocError, Global};

/// Does the commands of entries again on memory that begins at an address, if the memory ends at 2^32 or below. Returns
/// whether it does.
pub fn remade(entries: &[Entry], base: u32, memory: &mut [u8]) -> bool {
    if u64::from(base) + memory.len() as u64 > 1 << 32 {
        return false;
    }
    replay(entries, base, memory);
    true
}

/// Of which kind the map is.
fn kind_of(sizes: &MapSizes, map: u8) -> MapKind
    ensures { result ≡ kind_of_map sizes.now map }
{
    match sizes.kind(map) {
        Some(kind) => kind,
        None => MapKind::Counter,
    }
}

/// How many tickets were drawn, or what the cell was raised to, by the kind of its map; the maps are those of the cells.
fn found(cells: &mut Cells, sizes: &MapSizes, map: u8, key: u16) -> Option<u64>
    requires { cells.old.sizes ≡ sizes.now }
    ensures sizes { cells.new.sizes ≡ cells.old.sizes }
{
    if !sizes.contains(map, key) {
        return None;
    }
    match kind_of(sizes, map) {
        MapKind::Counter => Some(cells.drawn(map, key)),
        MapKind::Peak => Some(cells.highest(map, key)),
    }
}

/// What a cell of fresh cells has, if there is that cell.
///
/// # Errors
///
/// An error if memory is refused.
pub fn fresh_cell(
    alloc: Global,
    sizes: &MapSizes,
    map: u8,
    key: u16,
) -> Result<Option<u64>, AllocError> {
    let (mut cells, _seats) = Cells::new(alloc, sizes, 1)?;
    Ok(found(&mut cells, sizes, map, key))
}

/// Whether a node has the port. If it does, loads come there to what the law of loads says.
pub fn loads_reported(node: &SingleNode, port: u8) -> bool
    ensures { IsTrue result → LoadsAreReported port node.now }
{
    if port >= node.ports() {
        return false;
    }
    loads_are_reported(node, port);
    true
}
