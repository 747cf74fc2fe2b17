//! The form of the loops that a program declares.

ghost use Rattle.std.specs.Prelude.{◌≡◌, ◌≢◌, ◌<◌, ◌+◌, ◌↔◌, ℕ, IsTrue, All, MatchResult, Some, IfSome, length, slice_index_or};
ghost use Rattle.bpf.specs.declared.header.TheConstants.{MAX_SLOTS};
ghost use Rattle.bpf.specs.Program.{IsLoop, Program, insn_at};
ghost use Rattle.bver_form.specs.Facts.{AreFacts, AreFactsOf};
ghost use Rattle.bver_form.specs.Form.{IsLoopFault};
ghost use Rattle.bver_form.specs.Jumps.{jump_distance, target};
ghost use Rattle.bver_form.specs.Loops.{AreEnteredAtHead, EntersAllAtHeadFrom, EntersAtHead, EntersAtHeadFrom, IsAmongOthers, IsBackJump, IsEnteredAtHead, IsLoopFormed, IsNestedOrApart, IsStep, LeavesCounter, LeavesCounterAt, back_jump, holds, step_down};

use crate::facts::{SLOTS, SlotFacts};
use crate::jumps::target;
use crate::refusal::{Refusal, Refused};
use bpf::{Image, Loop};
use bpf_insn::{AluOp, Comparison, Condition, Insn, Operand, Width};

/// Whether the loop holds the slot.
fn holds(declared: &Loop, slot: u16) -> bool
    ensures { result ≡ holds declared.now slot }
{
    declared.head <= slot && slot <= declared.back
}

/// The instruction that ends the loop.
fn back_jump(declared: &Loop) -> Insn
    requires { IsLoop MAX_SLOTS declared.now }
    ensures { result ≡ back_jump declared.now }
{
    let len = (declared.back - declared.head).cast_signed();
    Insn::Jump {
        comparison: Comparison {
            condition: Condition::NotEqual,
            width: Width::Bits64,
            dst: declared.register,
            src: Operand::Immediate(0),
        },
        offset: -1 - len,
    }
}

/// The instruction that counts.
fn step_down(declared: &Loop) -> Insn
    ensures { result ≡ step_down declared.now }
{
    Insn::Alu {
        op: AluOp::Add,
        width: Width::Bits64,
        dst: declared.register,
        src: Operand::Immediate(-1),
    }
}

/// Whether the loop ends with its back jump.
fn check_back(image: &Image, declared: &Loop) -> bool
    requires { IsLoop MAX_SLOTS declared.now }
    ensures { IsTrue result ↔ IsBackJump image.now declared.now }
{
    image.insn(declared.back) == Some(back_jump(declared))
}

/// Whether the slot before the back counts.
fn check_step(image: &Image, declared: &Loop) -> bool
    requires { IsLoop MAX_SLOTS declared.now }
    ensures { IsTrue result ↔ IsStep image.now declared.now }
{
    image.insn(declared.back - 1) == Some(step_down(declared))
}

/// Whether the instruction at the slot does not write the loop's register, if it must not.
fn leaves_counter(facts: &SlotFacts, declared: &Loop, slot: u16) -> bool
    requires { IsLoop MAX_SLOTS declared.now }
    ensures { (p : Program) → AreFactsOf (insn_at p slot) facts.now
        → IsTrue result ↔ LeavesCounterAt p declared.now slot }
{
    if !holds(declared, slot) || slot == declared.back - 1 {
        return true;
    }
    !facts.writes(declared.register)
}

/// Whether no other slot of the loop writes its register.
fn check_counter(facts: &[SlotFacts; SLOTS], declared: &Loop) -> bool
    requires { IsLoop MAX_SLOTS declared.now }
    ensures { (p : Program) → AreFacts p facts.now → declared.now.back < length p.slots
        → IsTrue result ↔ LeavesCounter p declared.now }
{
    for slot in declared.head..declared.back + 1 {
        if !leaves_counter(&facts[usize::from(slot)], declared, slot) {
            return false;
        }
    }
    true
}

/// Whether a jump from the slot to that place, counted from the first slot, does not lead to the loop's back. If it
/// leads into the loop from outside, it must lead to its head.
fn enters_at_head(declared: &Loop, slot: u16, landing: i64) -> bool
    ensures { IsTrue result ↔ EntersAtHead declared.now slot landing }
{
    let back = i64::from(declared.back);
    landing != back
        && (landing <= i64::from(declared.head) || back < landing || holds(declared, slot))
}

/// The same of the instruction at the slot, if it jumps.
fn enters_at_head_from(facts: &SlotFacts, declared: &Loop, slot: u16) -> bool
    ensures { (p : Program) → AreFactsOf (insn_at p slot) facts.now
        → IsTrue result ↔ EntersAtHeadFrom p declared.now slot }
{
    match facts.distance() {
        Some(distance) => enters_at_head(declared, slot, target(slot, distance)),
        None => true,
    }
}

/// Whether no jump leads to the loop's back, and none from outside into it except to its head.
fn check_entry(image: &Image, facts: &[SlotFacts; SLOTS], declared: &Loop) -> bool
    requires { AreFacts image.now facts.now }
    ensures { IsTrue result ↔ IsEnteredAtHead image.now declared.now }
{
    for slot in 0..image.slots() {
        if !enters_at_head_from(&facts[usize::from(slot)], declared, slot) {
            return false;
        }
    }
    true
}

/// Whether the instruction at the slot enters each declared loop so, if it jumps.
fn enters_each_at_head(image: &Image, facts: &SlotFacts, slot: u16) -> bool
    requires { AreFactsOf (insn_at image.now slot) facts.now }
    ensures { IsTrue result ↔ EntersAllAtHeadFrom image.now slot }
{
    for declared in image.loops() {
        if !enters_at_head_from(facts, declared, slot) {
            return false;
        }
    }
    true
}

/// The same. It looks at the loops only if the instruction jumps.
fn enters_all_at_head(image: &Image, facts: &SlotFacts, slot: u16) -> bool
    requires { AreFactsOf (insn_at image.now slot) facts.now }
    ensures { IsTrue result ↔ EntersAllAtHeadFrom image.now slot }
{
    match facts.distance() {
        Some(_) => enters_each_at_head(image, facts, slot),
        None => true,
    }
}

/// Whether no jump leads to the back of a declared loop, and none from outside into one, except to its head. It is
/// one walk over the slots for all loops.
fn check_entries(image: &Image, facts: &[SlotFacts; SLOTS]) -> bool
    requires { AreFacts image.now facts.now }
    ensures { IsTrue result ↔ AreEnteredAtHead image.now }
{
    for slot in 0..image.slots() {
        if !enters_all_at_head(image, &facts[usize::from(slot)], slot) {
            return false;
        }
    }
    true
}

/// Whether one of the loops is nested in the other, or they are apart.
fn are_nested_or_apart(declared: &Loop, other: &Loop) -> bool
    ensures { IsTrue result ↔ IsNestedOrApart declared.now other.now }
{
    declared.back < other.head
        || other.back < declared.head
        || (other.head < declared.head && declared.back < other.back)
        || (declared.head < other.head && other.back < declared.back)
}

/// Whether the loop is nested so or apart with every declared loop of another head.
fn check_others(image: &Image, declared: &Loop) -> bool
    ensures { IsTrue result ↔ IsAmongOthers image.now declared.now }
{
    for other in image.loops() {
        if other.head != declared.head && !are_nested_or_apart(declared, other) {
            return false;
        }
    }
    true
}

/// Whether the declared loop has its form. If it is known that runs enter it at its head, that is not tested.
fn is_loop_formed(
    image: &Image,
    facts: &[SlotFacts; SLOTS],
    declared: &Loop,
    is_entered: bool,
) -> bool
    requires limits { IsLoop MAX_SLOTS declared.now }
    requires within { declared.now.back < length image.now.slots }
    requires facts { AreFacts image.now facts.now }
    requires entered { IsTrue is_entered → IsEnteredAtHead image.now declared.now }
    ensures { IsTrue result ↔ IsLoopFormed image.now declared.now }
{
    check_back(image, declared)
        && check_step(image, declared)
        && check_counter(facts, declared)
        && (is_entered || check_entry(image, facts, declared))
        && check_others(image, declared)
}

/// The refusal of a loop, at its back.
fn unformed(declared: &Loop) -> Refused
    ensures code { result.code ≡ Refusal.LoopShape }
    ensures slot { result.slot ≡ declared.now.back }
{
    Refused {
        code: Refusal::LoopShape,
        slot: declared.back,
    }
}

/// Tests that each declared loop has its form, by the facts of its slots. It refuses the first that does not, by
/// rising head. Only if a jump enters one at another slot than its head, it looks for that one.
pub(crate) fn check_loops(image: &Image, facts: &[SlotFacts; SLOTS]) -> Result<(), Refused>
    requires { AreFacts image.now facts.now }
    ensures { MatchResult result (λ _. All (IsLoopFormed image.now) image.now.loops)
        (IsLoopFault image.now) }
{
    let are_entered = check_entries(image, facts);
    for declared in image.loops() {
        if !is_loop_formed(image, facts, declared, are_entered) {
            return Err(unformed(declared));
        }
    }
    Ok(())
}
