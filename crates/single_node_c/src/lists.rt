//! Lists of numbers that come from C, as the node has them.

ghost use Rattle.std.specs.Prelude.{◌≡◌, ◌≤◌, ◌↔◌, All, IsTrue, length, map, take};
ghost use Rattle.single_node_c.specs.Numbers.{bank_of_numbers, map_kind_of_number, map_of_numbers};

use crate::numbers::{BankNumbers, MapNumbers};
use machine::MapKind;
use node_parts::BankConfig;

/// The most maps that a node has.
pub const MAX_MAPS: usize = 8;

/// The banks of these numbers, with others after them up to eight.
pub fn banks_of(numbers: &[BankNumbers]) -> [BankConfig; 8]
    requires { length numbers.now ≤ 8 }
    ensures { take (length numbers.now) result ≡ map bank_of_numbers numbers.now }
{
    let mut banks = [BankConfig {
        base: 0,
        size: 0,
        room: 0,
    }; 8];
    for k in 0..numbers.len() {
        let BankNumbers { base, size, room } = numbers[k];
        banks[k] = BankConfig { base, size, room };
    }
    banks
}

/// What the cells of a map with that number are for.
fn map_kind_of_number(peak: u16) -> MapKind
    ensures { result ≡ map_kind_of_number peak }
{
    if peak == 0 {
        MapKind::Counter
    } else {
        MapKind::Peak
    }
}

/// The maps of these numbers, with others after them up to eight.
pub fn maps_of(numbers: &[MapNumbers]) -> [(u16, MapKind); MAX_MAPS]
    requires { length numbers.now ≤ 8 }
    ensures { take (length numbers.now) result ≡ map map_of_numbers numbers.now }
{
    let mut maps = [(0, MapKind::Counter); MAX_MAPS];
    for k in 0..numbers.len() {
        maps[k] = (numbers[k].cells, map_kind_of_number(numbers[k].peak));
    }
    maps
}

/// Whether each map is of one of the two kinds.
pub fn have_kinds(numbers: &[MapNumbers]) -> bool
    ensures { IsTrue result ↔ All (λ m. m.peak ≤ 1) numbers.now }
{
    numbers.iter().all(|map| map.peak <= 1)
}
