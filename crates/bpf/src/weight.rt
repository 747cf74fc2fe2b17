//! How many instructions a run of an image may take.

ghost use Rattle.std.specs.Prelude.{◌≡◌, ◌≤◌, length};
ghost use Rattle.bpf.specs.declared.header.TheConstants.{MAX_SLOTS};
ghost use Rattle.bpf.specs.Weight.{weight_part_of, passes_of, saturated_weight, times_at, weight_from};

use crate::loops::Loop;
use bpf_insn::Insn;

/// The sum over the instructions of the product of the bounds of the loops that hold each. If it is above 2^64 - 1,
/// the result is that number.
pub fn weight(loops: &[Loop], slots: &[Option<Insn>]) -> u64
    requires { length slots.now ≤ MAX_SLOTS }
    ensures { result ≡ saturated_weight (weight_from loops.now 0 slots.now) }
{
    let mut weight = 0u64;
    let mut slot = 0u16;
    for insn in slots {
        weight = weight.saturating_add(part(loops, slot, insn));
        slot += 1;
    }
    weight
}

/// The most times that a run performs an instruction at the slot, by the loops around it; 0 for a second slot.
fn part(loops: &[Loop], slot: u16, insn: &Option<Insn>) -> u64
    ensures { result ≡ saturated_weight (weight_part_of loops.now slot insn.now) }
{
    match insn {
        Some(_) => times(loops, slot),
        None => 0,
    }
}

/// The most times that a run passes the slot: the product of the bounds of the loops that hold it. If it is above
/// 2^64 - 1, the result is that number.
pub fn times(loops: &[Loop], slot: u16) -> u64
    ensures { result ≡ saturated_weight (times_at loops.now slot) }
{
    let mut times = 1u64;
    for found in loops {
        times = times.saturating_mul(passes(found, slot));
    }
    times
}

/// The loop's bound, if it holds the slot, else 1.
fn passes(found: &Loop, slot: u16) -> u64
    ensures { result ≡ passes_of found.now slot }
{
    if found.head <= slot && slot <= found.back {
        u64::from(found.bound)
    } else {
        1
    }
}
