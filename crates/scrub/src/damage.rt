//! Damage that is found and not mended: entries of journals that are not whole, and sizes that are others than they were.

ghost use Rattle.std.specs.Prelude.{◌≡◌, ◌<◌, ◌≤◌, ◌*◌, slice_get};
ghost use Rattle.scrub.specs.Damage.{after_cells, after_maps, sum_after_place, after_places, after_range, after_ranges, after_windows, broken_bit, broken_in, broken_low, broken_of, broken_place, first_place_of, no_broken, sizes_sum, with_broken_bank};

use bank::Entry;
use machine::MapSizes;
use rmap::Windows;
use single_node::SingleNode;
use sums::after_word;

/// Which entries of a node's journals are not whole (`Entry::is_whole` of `bank`).
#[derive(Clone, Copy, Debug, PartialEq, Eq)]
pub struct BrokenBits {
    /// A bit for each bank that has one: 1 for bank 0, then 2, 4 and so on.
    pub banks: u8,
    /// The place of the first one of the first such bank, 0 for the oldest entry.
    pub first: Option<usize>,
}

/// The place of the first entry that is not whole, if one is not.
#[tactic(auto, using(crate::proofs::FirstBroken::none_broken))]
fn broken_place(entries: &[Entry]) -> Option<usize>
    ensures { result ≡ broken_place entries.now }
{
    for place in 0..entries.len() {
        if !entries[place].is_whole() {
            return Some(place);
        }
    }
    None
}

/// The same of the journal of a bank, if there is that bank.
fn broken_in(node: &SingleNode, bank: u8) -> Option<usize>
    ensures { result ≡ broken_in (slice_get node.now.banks bank) }
{
    if bank >= node.banks() {
        return None;
    }
    broken_place(node.bank(bank).entries())
}

/// No entry that is not whole.
fn no_broken() -> BrokenBits
    ensures { result ≡ no_broken }
{
    BrokenBits {
        banks: 0,
        first: None,
    }
}

/// The first place, if there is one, else the next.
fn first_place_of(first: Option<usize>, next: Option<usize>) -> Option<usize>
    ensures { result ≡ first_place_of first next }
{
    match first {
        Some(place) => Some(place),
        None => next,
    }
}

/// The bit of a bank if it has such a place, else 0.
fn broken_bit(place: Option<usize>, bit: u8) -> u8
    ensures value { result ≡ broken_bit place bit }
    ensures few { result ≤ bit }
{
    match place {
        Some(_place) => bit,
        None => 0,
    }
}

/// What the result is with one more bank. The conditions are a bit, and that those of the banks before are below it.
fn with_broken_bank(reported: BrokenBits, node: &SingleNode, bank: u8, bit: u8) -> BrokenBits
    requires bit { bit ≤ 128 }
    requires below { reported.banks < bit }
    ensures reported { result ≡ with_broken_bank reported (slice_get node.now.banks bank) bit }
    ensures below { result.banks < 2 * bit }
{
    let place = broken_in(node, bank);
    BrokenBits {
        banks: reported.banks + broken_bit(place, bit),
        first: first_place_of(reported.first, place),
    }
}

/// The result for the first four banks.
fn broken_low(node: &SingleNode) -> BrokenBits
    ensures reported { result ≡ broken_low node.now.banks }
    ensures below { result.banks < 16 }
{
    let one = with_broken_bank(no_broken(), node, 0, 1);
    let two = with_broken_bank(one, node, 1, 2);
    let three = with_broken_bank(two, node, 2, 4);
    with_broken_bank(three, node, 3, 8)
}

/// Which entries of a node's journals are not whole.
pub(crate) fn broken_of(node: &SingleNode) -> BrokenBits
    ensures { result ≡ broken_of node.now.banks }
{
    let five = with_broken_bank(broken_low(node), node, 4, 16);
    let six = with_broken_bank(five, node, 5, 32);
    let seven = with_broken_bank(six, node, 6, 64);
    with_broken_bank(seven, node, 7, 128)
}

/// The sum after the range of a bank, if there is that bank.
fn after_range(sum: u64, node: &SingleNode, bank: u8) -> u64
    ensures { result ≡ after_range sum (slice_get node.now.banks bank) }
{
    if bank >= node.banks() {
        return sum;
    }
    let (first, size) = node.bank(bank).range();
    after_word(after_word(sum, u64::from(first)), u64::from(size))
}

/// The sum after the ranges of the banks.
fn after_ranges(sum: u64, node: &SingleNode) -> u64
    ensures { result ≡ after_ranges sum node.now.banks }
{
    let one = after_range(sum, node, 0);
    let two = after_range(one, node, 1);
    let three = after_range(two, node, 2);
    let four = after_range(three, node, 3);
    let five = after_range(four, node, 4);
    let six = after_range(five, node, 5);
    let seven = after_range(six, node, 6);
    after_range(seven, node, 7)
}

/// The sum after the range of a bank by the windows of a node, if they have that bank.
fn sum_after_place(sum: u64, windows: &Windows, bank: u8) -> u64
    ensures { result ≡ sum_after_place sum (slice_get windows.now.banks bank) }
{
    match windows.bank(bank) {
        Some((first, size)) => after_word(after_word(sum, u64::from(first)), u64::from(size)),
        None => sum,
    }
}

/// The sum after the ranges of all banks by the windows of a node.
fn after_places(sum: u64, windows: &Windows) -> u64
    ensures { result ≡ after_places sum windows.now.banks }
{
    let one = sum_after_place(sum, windows, 0);
    let two = sum_after_place(one, windows, 1);
    let three = sum_after_place(two, windows, 2);
    let four = sum_after_place(three, windows, 3);
    let five = sum_after_place(four, windows, 4);
    let six = sum_after_place(five, windows, 5);
    let seven = sum_after_place(six, windows, 6);
    sum_after_place(seven, windows, 7)
}

/// The sum after the windows of a node, if it has a port.
#[tactic(auto, using(crate::proofs::Windows::without_ports, crate::proofs::Windows::of_first))]
fn after_windows(sum: u64, node: &SingleNode) -> u64
    ensures { result ≡ after_windows sum (slice_get node.now.passes 0) }
{
    if node.ports() == 0 {
        return sum;
    }
    let windows = node.windows();
    after_places(after_word(sum, u64::from(windows.node_address())), windows)
}

/// The sum after the cells of a map, if there is that map.
fn after_cells(sum: u64, sizes: &MapSizes, map: u8) -> u64
    ensures { result ≡ after_cells sum (slice_get sizes.now.cells map) }
{
    match sizes.cells(map) {
        Some(cells) => after_word(sum, u64::from(cells)),
        None => sum,
    }
}

/// The sum after the cells of the maps.
fn after_maps(sum: u64, sizes: &MapSizes) -> u64
    ensures { result ≡ after_maps sum sizes.now }
{
    let one = after_cells(sum, sizes, 0);
    let two = after_cells(one, sizes, 1);
    let three = after_cells(two, sizes, 2);
    let four = after_cells(three, sizes, 3);
    let five = after_cells(four, sizes, 4);
    let six = after_cells(five, sizes, 5);
    let seven = after_cells(six, sizes, 6);
    after_cells(seven, sizes, 7)
}

/// The sum of a node's sizes at its opening: its ports and banks, its address, the ranges of its windows and banks, and its cells.
pub(crate) fn sizes_sum(node: &SingleNode) -> u64
    ensures { result ≡ sizes_sum node.now }
{
    let ports = after_word(0, u64::from(node.ports()));
    let banks = after_word(ports, u64::from(node.banks()));
    let windows = after_windows(banks, node);
    after_maps(after_ranges(windows, node), &node.sizes())
}
