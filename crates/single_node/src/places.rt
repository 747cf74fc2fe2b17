//! Which program each slot has.

ghost use Rattle.std.specs.Prelude.{◌≡◌, ◌≢◌, ◌<◌, ◌≤◌, ℕ, false, length, slice_set};
ghost use Rattle.single_node.specs.Slots.{HasNoOther, first_slots, placed_at};

use crate::publishing::Publishing;

/// The program of a slot: its place among those of the node, and its generation.
#[derive(Clone, Copy, Debug, PartialEq, Eq)]
pub(crate) struct Placed {
    pub place: usize,
    pub generation: u32,
}

/// The factory program in each slot.
pub(crate) fn first_slots() -> [Placed; 4]
    ensures { result ≡ first_slots }
{
    [Placed {
        place: 0,
        generation: 0,
    }; 4]
}

/// What a slot has. The condition is a slot below 4.
pub(crate) fn placed_at(slots: &[Placed; 4], slot: u8) -> Placed
    requires { slot < 4 }
    ensures { result ≡ placed_at slots.now slot }
{
    slots[usize::from(slot)]
}

/// The place of the program of a slot. A place that has no program can only come from damage. Then the first place is
/// taken, whose program has another sum. The conditions are a slot below 4, and a program.
pub(crate) fn own_place(programs: &Vec<Publishing>, slots: &[Placed; 4], slot: u8) -> usize
    requires slot { slot < 4 }
    requires some { 0 < length programs.now.items }
    ensures own { (placed_at slots.now slot).place < length programs.now.items
        → result ≡ (placed_at slots.now slot).place }
    ensures below { result < length programs.now.items }
{
    let place = placed_at(slots, slot).place;
    if place < programs.len() { place } else { 0 }
}

/// Whether that slot is another one, and has the program of that place. The condition is a slot below 4.
fn is_another(slots: &[Placed; 4], other: u8, slot: u8, place: usize) -> bool
    requires { other < 4 }
    ensures { result ≡ false → other ≢ slot → (placed_at slots.now other).place ≢ place }
{
    other != slot && placed_at(slots, other).place == place
}

/// Whether another slot has the program of that place.
#[tactic(auto, using(crate::proofs::Holding::no_other))]
fn has_other(slots: &[Placed; 4], slot: u8, place: usize) -> bool
    ensures { result ≡ false → HasNoOther slots.now slot place }
{
    if is_another(slots, 0, slot, place) {
        return true;
    }
    if is_another(slots, 1, slot, place) {
        return true;
    }
    if is_another(slots, 2, slot, place) {
        return true;
    }
    is_another(slots, 3, slot, place)
}

/// The first place whose program no other slot has, or the one after the last.
#[tactic(auto, using(crate::proofs::Holding::none_after))]
pub(crate) fn free_place(programs: &Vec<Publishing>, slots: &[Placed; 4], slot: u8) -> usize
    requires { (k : ℕ) → k < 4 → (placed_at slots.now k).place < length programs.now.items }
    ensures free { HasNoOther slots.now slot result }
    ensures few { result ≤ length programs.now.items }
{
    let count = programs.len();
    for place in 0..count {
        if !has_other(slots, slot, place) {
            return place;
        }
    }
    count
}

/// Gives a slot the program of that place, with that generation. The condition is a slot below 4.
pub(crate) fn set_place(slots: &mut [Placed; 4], slot: u8, place: usize, generation: u32)
    requires { slot < 4 }
    ensures { slots.new ≡ slice_set slots.old slot
        (record { place = place; generation = generation }) }
{
    slots[usize::from(slot)] = Placed { place, generation };
}
