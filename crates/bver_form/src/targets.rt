//! The slots at which the verifier keeps what is known: slot 0 and those to which a jump leads. They are numbered.

ghost use Rattle.std.specs.Prelude.{◌≡◌, ◌≤◌, ◌<◌, ◌+◌, ◌⊎◌, ℕ, IfOk, IsTrue, Some, false, length, slice_index_or};
ghost use Rattle.bpf.specs.declared.header.TheConstants.{MAX_SLOTS};
ghost use Rattle.bpf.specs.Program.{insn_at};
ghost use Rattle.bver_form.specs.Targets.{AreKept, IsMarked, IsNumbered, IsNumbering, JumpsTo, landing_from, no_place, place_at};

use crate::jumps::landing;
use bpf::Image;
use bpf_insn::Flow;
use std::alloc::{AllocError, Global};

/// The number of a slot that has none. A program has at most 512 slots.
pub const NOWHERE: u16 = u16::MAX;

/// The slot to which the instruction jumps that begins at a slot, if one does and jumps.
fn landing_from(image: &Image, slot: u16) -> Option<u16>
    ensures { result ≡ landing_from image.now slot (insn_at image.now slot) }
{
    match image.insn(slot) {
        Some(insn) => match insn.flow() {
            Flow::Branches(distance) => landing(image, slot, distance),
            Flow::Jumps(distance) => landing(image, slot, distance),
            Flow::GoesOn | Flow::Calls(_, _) | Flow::Ends | Flow::Unsupported => None,
        },
        None => None,
    }
}

/// Marks the slot to which the instruction at a slot jumps.
fn mark(kept: &mut Vec<bool>, image: &Image, slot: u16)
    requires { length kept.old.items ≡ length image.now.slots }
    ensures size { length kept.new.items ≡ length image.now.slots }
    ensures stays { (k : ℕ) → IsMarked kept.old.items k → IsMarked kept.new.items k }
    ensures marks { (k : ℕ) → JumpsTo image.now slot k → IsMarked kept.new.items k }
    ensures only { (k : ℕ) → IsMarked kept.new.items k → IsMarked kept.old.items k
        ⊎ JumpsTo image.now slot k }
{
    if let Some(landing) = landing_from(image, slot) {
        kept[usize::from(landing)] = true;
    }
}

/// This many slots, none of them marked. The call asks for memory once.
///
/// # Errors
///
/// Memory is refused.
fn unmarked(alloc: Global, slots: u16) -> Result<Vec<bool>, AllocError>
    ensures size { IfOk result (λ kept. length kept.items ≡ slots) }
    ensures none { IfOk result (λ kept. (k : ℕ) → slice_index_or kept.items k false ≡ false) }
{
    vec![in alloc; false; usize::from(slots)]
}

/// Marks for each slot of a program: those of slot 0, and of each slot to which the program jumps, are true. The call
/// asks for memory once.
///
/// # Errors
///
/// Memory is refused.
pub fn kept_slots(alloc: Global, image: &Image) -> Result<Vec<bool>, AllocError>
    ensures size { IfOk result (λ kept. length kept.items ≡ length image.now.slots) }
    ensures few { IfOk result (λ kept. length kept.items ≤ MAX_SLOTS) }
    ensures kept { IfOk result (λ kept. AreKept image.now kept.items) }
{
    let mut kept = unmarked(alloc, image.slots())?;
    kept[0] = true;
    for slot in 0..image.slots() {
        mark(&mut kept, image, slot);
    }
    Ok(kept)
}

/// Numbers a slot, if it is kept. Returns the next number.
fn number_slot(kept: &Vec<bool>, places: &mut Vec<u16>, slot: usize, count: u16) -> u16
    requires numbered { IsNumbering kept.now.items places.old.items count slot }
    requires inside { slot < length kept.now.items }
    requires few { length kept.now.items ≤ MAX_SLOTS }
    ensures { IsNumbering kept.now.items places.new.items result (slot + 1) }
{
    if kept[slot] {
        places[slot] = count;
        return count + 1;
    }
    count
}

/// Numbers the marked slots from 0, by rising slot, and returns how many there are. Any other slot stays without a
/// number. The condition is that there are at most 512 marks, as [`kept_slots`] gives them, and as many places as
/// marks. Each place must be [`NOWHERE`].
pub fn number_slots(kept: &Vec<bool>, places: &mut Vec<u16>) -> u16
    requires size { length places.old.items ≡ length kept.now.items }
    requires few { length kept.now.items ≤ MAX_SLOTS }
    requires nowhere { (k : ℕ) → place_at places.old.items k ≡ no_place }
    ensures { IsNumbered kept.now.items places.new.items result }
{
    let mut count = 0;
    for slot in 0..kept.len() {
        count = number_slot(kept, places, slot, count);
    }
    count
}
