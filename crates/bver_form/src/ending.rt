//! How a program ends, and its weight.

ghost use Rattle.std.specs.Prelude.{◌≡◌, ◌≤◌, ◌-◌, MatchResult, length};
ghost use Rattle.bpf.specs.Weight.{weight_of};
ghost use Rattle.bver_form.specs.Form.{IsBudgetFault, IsEndFault, IsEnded};

use crate::refusal::{Refusal, Refused};
use bpf::Image;
use bpf_insn::Insn;

/// The refusal of a program whose last instruction is no exit, but begins at that slot.
fn falls_off(slot: u16) -> Refused
    ensures code { result.code ≡ Refusal.FallOff }
    ensures slot { result.slot ≡ slot }
{
    Refused {
        code: Refusal::FallOff,
        slot,
    }
}

/// Tests that the last instruction is an exit. An instruction of two slots is none.
pub(crate) fn check_end(image: &Image) -> Result<(), Refused>
    ensures { MatchResult result (λ _. IsEnded image.now) (IsEndFault image.now) }
{
    let slot = image.slots() - 1;
    match image.insn(slot) {
        Some(Insn::Exit) => Ok(()),
        Some(_) => Err(falls_off(slot)),
        None => Err(falls_off(slot.saturating_sub(1))),
    }
}

/// Tests that the weight is within the budget.
pub(crate) fn check_budget(image: &Image) -> Result<(), Refused>
    ensures { MatchResult result (λ _. weight_of image.now ≤ image.now.budget)
        (IsBudgetFault image.now) }
{
    if image.weight() > u64::from(image.budget()) {
        return Err(Refused {
            code: Refusal::Budget,
            slot: 0,
        });
    }
    Ok(())
}
