//! Where the word of a cell lies.

ghost use Rattle.std.specs.Prelude.{◌≡◌, ◌≤◌, ◌<◌, length, sum, take};
ghost use Rattle.machine.specs.Sizes.{IsInside};
ghost use Rattle.cells.specs.Logs.{cell_word_of};

use machine::MapSizes;

/// How many cells the maps have before this one, or all maps if it is the number of maps.
pub(crate) fn first_word(sizes: &MapSizes, map: u8) -> usize
    requires { map ≤ length sizes.now.cells }
    ensures word { result ≡ sum (take map sizes.now.cells) }
    ensures few { result ≤ 256 }
{
    sizes.stand_limited();
    let mut word = 0;
    for before in 0..map {
        word += usize::from(sizes.cells(before).unwrap_or(0));
    }
    word
}

/// The word of a cell.
pub(crate) fn word_at(sizes: &MapSizes, map: u8, key: u16) -> usize
    requires { IsInside sizes.now map key }
    ensures word { result ≡ cell_word_of sizes.now map key }
    ensures inside { result < sum sizes.now.cells }
{
    first_word(sizes, map) + usize::from(key)
}
