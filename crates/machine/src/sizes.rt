//! The maps that a node has.

ghost use Rattle.std.specs.Prelude.{◌≡◌, ◌↔◌, ◌≤◌, ◌<◌, IsTrue, IsOk, IfOk, All, length, map, slice_get, sum};
ghost use Rattle.machine.specs.declared.kinds.MapKind.TheVariants.{Counter};
ghost use Rattle.machine.specs.Padding.{padded};
ghost use Rattle.machine.specs.Sizes.{AreSizes, IsInside, counter_maps, listed_maps};

use crate::kinds::MapKind;
use std::marker::Model;
use thiserror::Error;

/// The most maps that a node has.
pub const MAX_MAPS: usize = 8;

/// The most cells that all maps have together.
pub const MAX_CELLS: u16 = 256;

/// There are more maps or cells than a node has, or a map of no cells.
#[derive(Clone, Copy, Debug, PartialEq, Eq, Error)]
#[error("at most 8 maps, each of at least one cell, and 256 cells in all")]
pub struct TooMany;

/// How many cells each map has, and of which kind it is, by the map's index.
#[derive(Clone, Copy, Debug)]
pub struct MapSizes {
    count: u8,
    cells: [u16; MAX_MAPS],
    kinds: [MapKind; MAX_MAPS],
}

impl Model for MapSizes {
    ghost use Rattle.std.specs.Prelude.{◌≡◌, ◌≤◌, ◌-◌, ◌++◌, length, take, drop, replicate};
    ghost use Rattle.machine.specs.declared.kinds.MapKind.TheVariants.{Counter};
    ghost use Rattle.machine.specs.Sizes.{Maps, AreSizes};
    ghost use Rattle.machine.specs.Padding.{IsPadded, padded, length-front, padded-front};

    ghost Value = { Maps };

    ghost view = { λ s. record { cells = take s.count s.cells; kinds = take s.count s.kinds } };

    ghost invariant = { λ s. IsPadded 0 s.count s.cells × IsPadded Counter s.count s.kinds × AreSizes (record { cells = take s.count s.cells; kinds = take s.count s.kinds }) };

    ghost inverse = { λ sizes. record { count = length sizes.cells; cells = padded 0 sizes.cells; kinds = padded Counter sizes.kinds } };

    ghost inverse_ok = { λ s h i. record { count = length-front 0 s.count s.cells h.0 i; cells = padded-front 0 s.count s.cells h.0 i; kinds = padded-front Counter s.count s.kinds h.1 i } };
}

/// Whether each map has cells.
fn all_have_cells(sizes: &[u16]) -> bool
    ensures { IsTrue result ↔ All (λ size. 1 ≤ size) sizes.now }
{
    sizes.iter().all(|size| *size >= 1)
}

/// How many cells the maps have together.
fn total(sizes: &[u16]) -> u64
    requires { length sizes.now ≤ 8 }
    ensures { result ≡ sum sizes.now }
{
    sizes.iter().map(|size| u64::from(*size)).sum()
}

/// The sizes of the maps in an array, with zeros after them.
fn cells_of(maps: &[(u16, MapKind)]) -> [u16; MAX_MAPS]
    requires { length maps.now ≤ 8 }
    ensures { result ≡ padded 0 (map (λ m. m.0) maps.now) }
{
    let mut cells = [0; MAX_MAPS];
    let mut index = 0;
    for map in maps {
        cells[index] = map.0;
        index += 1;
    }
    cells
}

/// The kinds of the maps in an array, with counter maps after them.
fn kinds_of(maps: &[(u16, MapKind)]) -> [MapKind; MAX_MAPS]
    requires { length maps.now ≤ 8 }
    ensures { result ≡ padded Counter (map (λ m. m.1) maps.now) }
{
    let mut kinds = [MapKind::Counter; MAX_MAPS];
    let mut index = 0;
    for map in maps {
        kinds[index] = map.1;
        index += 1;
    }
    kinds
}

impl MapSizes {
    /// Counter maps of these sizes, by the map's index.
    ///
    /// # Errors
    ///
    /// `TooMany` for more than 8 maps, a map of no cells, or more than 256 cells in all.
    pub fn new(sizes: &[u16]) -> Result<MapSizes, TooMany>
        ensures sizes { IfOk result (λ s. s ≡ counter_maps sizes.now) }
        ensures allowed { IsOk result ↔ AreSizes (counter_maps sizes.now) }
    {
        if sizes.len() > MAX_MAPS || !all_have_cells(sizes) || total(sizes) > u64::from(MAX_CELLS) {
            return Err(TooMany);
        }
        let mut cells = [0; MAX_MAPS];
        cells[..sizes.len()].copy_from_slice(sizes);
        Ok(MapSizes {
            count: sizes.len() as u8,
            cells,
            kinds: [MapKind::Counter; MAX_MAPS],
        })
    }

    /// Maps of these sizes and kinds, by the map's index.
    ///
    /// # Errors
    ///
    /// `TooMany` for more than 8 maps, a map of no cells, or more than 256 cells in all.
    pub fn with_kinds(maps: &[(u16, MapKind)]) -> Result<MapSizes, TooMany>
        ensures sizes { IfOk result (λ s. s ≡ listed_maps maps.now) }
        ensures allowed { IsOk result ↔ AreSizes (listed_maps maps.now) }
    {
        if maps.len() > MAX_MAPS {
            return Err(TooMany);
        }
        let cells = cells_of(maps);
        let counters = MapSizes::new(&cells[..maps.len()])?;
        Ok(MapSizes {
            count: counters.maps(),
            cells,
            kinds: kinds_of(maps),
        })
    }

    /// A law and no work: there are at most 8 maps, none without cells, at most 256 cells in all, and each of one kind.
    pub fn stand_limited(&self)
        ensures { AreSizes self.now }
    {
        let _ = &self.cells;
    }

    /// How many maps there are, at most 8.
    pub fn maps(&self) -> u8
        ensures maps { result ≡ length self.now.cells }
        ensures sizes { AreSizes self.now }
    {
        self.count
    }

    /// How many cells the map has, or `None` if there is no such map.
    pub fn cells(&self, map: u8) -> Option<u16>
        ensures cells { result ≡ slice_get self.now.cells map }
        ensures sizes { AreSizes self.now }
    {
        let cells: &[u16] = &self.cells;
        cells[..usize::from(self.count)]
            .get(usize::from(map))
            .copied()
    }

    /// The kind of the map, or `None` if there is no such map.
    pub fn kind(&self, map: u8) -> Option<MapKind>
        ensures kind { result ≡ slice_get self.now.kinds map }
        ensures sizes { AreSizes self.now }
    {
        let kinds: &[MapKind] = &self.kinds;
        kinds[..usize::from(self.count)]
            .get(usize::from(map))
            .copied()
    }

    /// Whether the map exists and has the key.
    pub fn contains(&self, map: u8, key: u16) -> bool
        ensures { IsTrue result ↔ IsInside self.now map key }
    {
        match self.cells(map) {
            Some(cells) => key < cells,
            None => false,
        }
    }
}
