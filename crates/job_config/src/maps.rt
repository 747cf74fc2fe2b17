//! The maps of a node's file.

ghost use Rattle.std.specs.Prelude.{◌≡◌, ◌≤◌, [], codes, IfErr, IfOk, Ok, length};
ghost use Rattle.job_config.specs.Configured.{each, kind_in_file, map_in, maps_at, next_map};
ghost use Rattle.job_config.specs.Faults.{IsFaultOf};
ghost use Rattle.machine.specs.Sizes.{AreSizes, listed_maps};
ghost use Rattle.toml.specs.Data.{get_member};
ghost use Rattle.toml.specs.View.{items_view, table_view, view};

use crate::faults::ConfigFault;
use crate::numbers::number_at_key;
use crate::places::{NumberKey, TableKind, TablePlace};
use crate::tables::{held, list_at, table_in};
use bver::MapSizes;
use machine::{MAX_CELLS, MAX_MAPS, MapKind};
use std::alloc::Global;
use toml::{Table, Value};

/// The kind of the map of a table: of the greatest numbers if `peak` is true, and counting without it.
pub(crate) fn configured_kind_of(table: &Table, place: TablePlace) -> Result<MapKind, ConfigFault>
    ensures { result ≡ kind_in_file place (get_member (codes "peak") (table_view table.now)) }
{
    let Some(value) = held(table, "peak") else {
        return Ok(MapKind::Counter);
    };
    match value.as_bool() {
        Some(true) => Ok(MapKind::Peak),
        Some(false) => Ok(MapKind::Counter),
        None => Err(ConfigFault::BadPeak(place)),
    }
}

/// The map of a table, if this many cells are left to it.
#[tactic(auto, unfolding(crate::specs::Configured::map_in))]
fn map_in(item: &Value, number: usize, left: u16) -> Result<(u16, MapKind), ConfigFault>
    requires { left ≤ 256 }
    ensures value { result ≡ map_in number left (view item.now) }
    ensures range { IfOk result (λ map. (1 ≤ map.0) × (map.0 ≤ left)) }
{
    let place = TablePlace {
        kind: TableKind::Map,
        number,
    };
    let table = table_in(item, place)?;
    let cells = number_at_key(table, place, NumberKey::Cells, 1, u32::from(left))?;
    let kind = configured_kind_of(table, place)?;
    Ok((cells as u16, kind))
}

/// The maps of a list of tables.
#[tactic(auto, using(crate::proofs::MapLimits::sizes_of_maps))]
fn maps_in(alloc: Global, list: &[Value]) -> Result<Vec<(u16, MapKind)>, ConfigFault>
    ensures ok { IfOk result (λ maps. each next_map [] (items_view list.now) ≡ Ok maps.items) }
    ensures err { IfErr result (IsFaultOf (each next_map [] (items_view list.now))) }
    ensures sizes { IfOk result (λ maps.
        length list.now ≤ 8 → AreSizes (listed_maps maps.items)) }
{
    let mut maps = Vec::new(alloc);
    let mut left = MAX_CELLS;
    for item in list {
        let map = map_in(item, maps.len(), left)?;
        left -= map.0;
        maps.push(map)?;
    }
    Ok(maps)
}

/// The maps of a file.
///
/// # Errors
///
/// `NoList` if what the file has there is no list of tables, and `BadCount` if there are more than 8. Else the first
/// fault of a table: `NoTable`, `BadNumber` for its cells, or `BadPeak`. `Memory` if memory was refused.
#[tactic(auto, using(crate::proofs::Each::count_view), unfolding(crate::specs::Configured::maps_at))]
pub fn maps_of(alloc: Global, table: &Table) -> Result<MapSizes, ConfigFault>
    ensures ok { IfOk result (λ sizes. maps_at (table_view table.now) ≡ Ok sizes) }
    ensures err { IfErr result (IsFaultOf (maps_at (table_view table.now))) }
{
    let list = match list_at(table, TableKind::Map)? {
        Some(list) => list,
        None => &[],
    };
    let count = list.len();
    if count > MAX_MAPS {
        return Err(ConfigFault::BadCount {
            kind: TableKind::Map,
            count,
        });
    }
    let maps = maps_in(alloc, list)?;
    Ok(MapSizes::with_kinds(maps.as_slice()).unwrap())
}
