//! The weight of a program by the costs of its instructions.

ghost use Rattle.std.specs.Prelude.{◌≡◌, ◌*◌};
ghost use Rattle.bpf.specs.Weight.{saturated_weight, times_at};
ghost use Rattle.bver.specs.Costs.{IsSafeFor};
ghost use Rattle.bver_form.specs.Costs.{cost_here, weight_by};
ghost use Rattle.weights.specs.Classes.{cost_by, costs};
ghost use Rattle.weights.specs.Weights.{AreWeights};

use crate::costs::{Costs, are_small};
use bpf::{Image, Loop, times};
use bpf_insn::Insn;
use bver::{Accepted, justified_programs};

/// How many instructions of each class a run of a program takes at most. Together they are its weight.
#[derive(Clone, Copy, Debug, PartialEq, Eq)]
pub struct Weights {
    /// Divisions and remainders, signed or not, of any width.
    pub division: u64,
    /// Calls of helpers.
    pub call: u64,
    /// Conditional jumps.
    pub jump: u64,
    /// All other instructions.
    pub rest: u64,
}

/// What the instruction at the slot costs, as often as it is run at most. If that is above 2^64 - 1, the result is 2^64
/// - 1.
fn part(loops: &[Loop], slot: u16, insn: Option<Insn>, costs: &Costs) -> u64
    ensures { result ≡ saturated_weight (times_at loops.now slot
        * cost_here (cost_by costs.now) insn) }
{
    match insn {
        Some(insn) => times(loops, slot).saturating_mul(u64::from(costs.cost_of(&insn))),
        None => 0,
    }
}

/// The weight of an image by these costs, or 2^64 - 1 if it is above.
fn weight_in(image: &Image, costs: &Costs) -> u64
    ensures { result ≡ saturated_weight (weight_by (cost_by costs.now) image.now) }
{
    let mut weight = 0u64;
    for slot in 0..image.slots() {
        let cost = part(image.loops(), slot, image.insn(slot), costs);
        weight = weight.saturating_add(cost);
    }
    weight
}

/// The weight of an accepted program by these costs: what each of its instructions costs as often as its loops let it
/// run, added up. No run costs more.
pub fn weigh(program: &Accepted, costs: &Costs) -> u64
    ensures value { result ≡ weight_by (cost_by costs.now) program.now.program }
    ensures bound { IsSafeFor program.now.program (cost_by costs.now) }
{
    justified_programs();
    are_small(costs.division, costs.call, costs.jump, costs.rest);
    weight_in(program.image(), costs)
}

/// The weight of an accepted program by these costs of an instruction of each class.
fn share(program: &Accepted, division: u32, call: u32, jump: u32, rest: u32) -> u64
    ensures { result ≡ weight_by (cost_by (costs division call jump rest)) program.now.program }
{
    weigh(program, &Costs::new(division, call, jump, rest))
}

/// How many instructions of each class a run of an accepted program takes at most.
pub fn weights_of(program: &Accepted) -> Weights
    ensures { AreWeights program.now.program result }
{
    let division = share(program, 1, 0, 0, 0);
    let call = share(program, 0, 1, 0, 0);
    let jump = share(program, 0, 0, 1, 0);
    let rest = share(program, 0, 0, 0, 1);
    Weights {
        division,
        call,
        jump,
        rest,
    }
}
