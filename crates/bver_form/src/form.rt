//! The tests of a program's form, in the order in which they refuse.

ghost use Rattle.std.specs.Prelude.{All, IfErr, MatchResult, OnOk};
ghost use Rattle.bver_form.specs.Facts.{AreFacts};
ghost use Rattle.bver_form.specs.Form.{AreAllowed, IsAllowed, IsAllowedAt, IsRefusalAt, IsFormed, IsFormFault, IsInsnFault, IsLoopFault, ReportsFault, insn_fault, insn_at};
ghost use Rattle.bver_form.specs.Loops.{IsLoopFormed};

use crate::ending::{check_budget, check_end};
use crate::facts::{SLOTS, SlotFacts, no_facts, write_slots};
use crate::jumps::check_landing;
use crate::loops::check_loops;
use crate::refusal::{Refusal, Refused};
use crate::support::{check_call, check_written};
use bpf::Image;
use bpf_insn::Insn;

/// Tests that the instruction is allowed at the slot.
fn check_insn(image: &Image, slot: u16, insn: &Insn) -> Result<(), Refusal>
    ensures allowed { OnOk result (IsAllowed image.now slot insn.now) }
    ensures fault { ReportsFault result (insn_fault image.now slot insn.now) }
{
    match *insn {
        Insn::Alu { dst, .. }
        | Insn::Negate { dst, .. }
        | Insn::MoveSigned { dst, .. }
        | Insn::ByteSwap { dst, .. }
        | Insn::Load { dst, .. }
        | Insn::Wide { dst, .. }
        | Insn::LoadMap { dst, .. } => check_written(dst),
        Insn::Store { .. } | Insn::Exit => Ok(()),
        Insn::Jump { offset, .. } => check_landing(image, slot, i32::from(offset)),
        Insn::Goto { distance } => check_landing(image, slot, distance.slots()),
        Insn::Call { callee, number } => check_call(image.version(), callee, number),
        Insn::LoadAddress { .. } => Err(Refusal::Unsupported),
    }
}

/// Tests that the instruction that begins at the slot, if one does, is allowed there.
fn check_slot(image: &Image, slot: u16) -> Result<(), Refusal>
    ensures { MatchResult result (λ _. IsAllowedAt image.now slot (insn_at image.now slot))
        (IsRefusalAt image.now slot (insn_at image.now slot)) }
{
    match image.insn(slot) {
        Some(insn) => check_insn(image, slot, &insn),
        None => Ok(()),
    }
}

/// Tests that each instruction is allowed at its slot, and refuses the first that is not.
fn check_slots(image: &Image) -> Result<(), Refused>
    ensures { MatchResult result (λ _. AreAllowed image.now) (IsInsnFault image.now) }
{
    for slot in 0..image.slots() {
        check_slot(image, slot).map_err(|code| Refused { code, slot })?;
    }
    Ok(())
}

/// Tests that each declared loop has its form. It needs the facts of slots only if there is a loop.
fn check_declared(image: &Image) -> Result<(), Refused>
    ensures { MatchResult result (λ _. All (IsLoopFormed image.now) image.now.loops)
        (IsLoopFault image.now) }
{
    if image.loops().is_empty() {
        return Ok(());
    }
    let mut facts = no_facts();
    write_slots(image, &mut facts);
    check_loops(image, &facts)
}

/// Tests the form of a program (RFC 9669, sections 4.3 and 5.4, and choices of this project).
///
/// # Errors
///
/// The first refusal in this order.
///
/// 1. By rising slot, for the instruction at the slot: `Unsupported`, `Helper`, `FrameWrite`, `Target`, `BackJump`.
///    `Helper` says that the number of a call is that of no helper of the format's version.
/// 2. `FallOff` at the last instruction.
/// 3. `LoopShape` at the back of the first declared loop, by rising head, that does not have its form.
/// 4. `Budget` at slot 0.
pub fn check(image: &Image) -> Result<(), Refused>
    ensures formed { OnOk result (IsFormed image.now) }

    // The refusal is the first in that order.
    ensures first { IfErr result (IsFormFault image.now) }
{
    check_slots(image)?;
    check_end(image)?;
    check_declared(image)?;
    check_budget(image)
}

/// Tests the form of a program as [`check`] does, and writes the facts of its slots to an array that may hold any
/// before. If the program is refused, the facts may be any. A caller that goes on with a program that has loops reads
/// them, and looks at no instruction again.
///
/// # Errors
///
/// Those of [`check`].
pub fn check_with(image: &Image, facts: &mut [SlotFacts; SLOTS]) -> Result<(), Refused>
    ensures formed { OnOk result (IsFormed image.now) }
    ensures facts { OnOk result (AreFacts image.now facts.new) }

    // The refusal is the first in that order.
    ensures first { IfErr result (IsFormFault image.now) }
{
    check_slots(image)?;
    check_end(image)?;
    write_slots(image, facts);
    check_loops(image, facts)?;
    check_budget(image)
}
