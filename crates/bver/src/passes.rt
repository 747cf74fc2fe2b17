//! The pass over a program's slots.

ghost use Rattle.std.specs.Prelude.{◌≡◌, ◌<◌, IfErr, IfOk, IsSome, IsTrue, OnErr, OnOk, Some, None, length, if◌then◌else◌};
ghost use Rattle.machine.specs.Step.{insn_at};
ghost use Rattle.bver_form.specs.Form.{IsFormed};
ghost use Rattle.bver_pass.specs.Heads.{AreHeadsAt, IsWidened, IsWithinBound};
ghost use Rattle.bver_pass.specs.Justified.{IsCovered, IsCoveredIfAny, IsJudged};
ghost use Rattle.bver_pass.specs.Leading.{IsHeadFault, IsHeadFaultIfAny, IsLeastVisit, IsLeastVisitIfAny, IsWidenedAt, IsWidenedIfAny, IsVisitFaultIfAny};
ghost use Rattle.bver_form.specs.Lowered.{IsMore, IsSettled};
ghost use Rattle.bver_form.specs.declared.refusal.Refusal.TheVariants.{LoopEntry};
ghost use Rattle.bver_pass.specs.Refusals.{IsValueFault};
ghost use Rattle.bver_pass.specs.StateTable.{knowledge_in};
ghost use Rattle.bver.specs.Reported.{HasToLower, ReportsKnown};
ghost use Rattle.bver_form.specs.Targets.{IsKept};
ghost use Rattle.bver_pass.specs.Visit.{AreEntered, IsExtended, IsInsnVisit, IsLeastEntry, IsLeastOf, IsTableOf, IsVisit, visited_state};
ghost use Rattle.bver_pass.specs.Written.{AreWrittenByLoops};

use absdom::{
    Region, State, after_call_grows, apply_grows, apply_leaves, order_of_states, refine_grows,
    refine_shrinks,
};
use bpf::{Image, MAX_LOOPS};
use bpf_insn::Insn;
use bver_form::{Lowered, Refused, loops_are_counted};
use bver_pass::{Body, StateTable, Visit, Written, accessed_region, flow};
use machine::MapSizes;

/// Widens what is known at a head, if a run enters the loop within its bound.
fn widen_head(
    visit: &Visit,
    body: &Body<'_>,
    lowered: &Lowered,
    state: &mut State,
) -> Result<(), Refused>
    requires begins { IsSome (insn_at visit.now.program visit.now.slot) }
    ensures widened { OnOk result
        (IsWidened body.now.program body.now.declared lowered.now body.now.place
        state.old state.new) }
    ensures bound { OnOk result (IsWithinBound body.now.declared state.old) }
    ensures refused { IfErr result (IsValueFault visit.now.program) }
    ensures outside { IfErr result (λ _. IsWithinBound body.now.declared state.old → ⊥) }
    ensures slot { IfErr result (λ refused. refused.slot ≡ visit.now.slot) }
    ensures code { IfErr result (λ refused. refused.code ≡ LoopEntry) }
    ensures kept { OnErr result (state.new ≡ state.old) }
{
    match body.widen(lowered, state) {
        Ok(()) => Ok(()),
        Err(code) => Err(visit.refused(code)),
    }
}

/// At the head of a loop, widens what is known there to what holds in every pass.
fn enter(
    visit: &Visit,
    table: &mut StateTable<'_>,
    lowered: &Lowered,
    state: &mut State,
) -> Result<(), Refused>
    requires begins { IsSome (insn_at visit.now.program visit.now.slot) }
    requires table { IsTableOf visit.now table.old }
    requires known { knowledge_in table.old visit.now.slot ≡ Some state.old }
    requires inside { visit.now.slot < length visit.now.program.slots }
    ensures known { OnOk result (knowledge_in table.new visit.now.slot ≡ Some state.new) }
    ensures heads { OnOk result (AreHeadsAt visit.now.program visit.now.slot (Some state.new)) }
    ensures widened { OnOk result
        (IsWidenedAt visit.now.program lowered.now visit.now.slot state.old state.new) }
    ensures least { OnOk result
        (IsLeastOf (λ above. IsCovered state.new (above visit.now.slot)) table.old table.new) }
    ensures extended { IsExtended visit.now.slot table.old table.new }
    ensures refused { IfErr result (IsValueFault visit.now.program) }
    ensures fault { IfErr result (IsHeadFault visit.now state.old state.new) }
{
    order_of_states();
    table.stands_at_targets();
    match visit.head() {
        Some(body) => {
            state.stands_whole();
            widen_head(visit, &body, lowered, state)?;
            state.stands_whole();
            table.widen(visit.slot(), state);
            Ok(())
        }
        None => Ok(()),
    }
}

/// Comes to a slot. If the running state is there, it takes that. Else it writes what is known at the slot to the
/// state. The result is whether anything is known.
fn arrive(
    visit: &Visit,
    table: &mut StateTable<'_>,
    lowered: &Lowered,
    state: &mut State,
    runs: bool,
) -> Result<bool, Refused>
    requires begins { IsSome (insn_at visit.now.program visit.now.slot) }
    requires table { IsTableOf visit.now table.old }
    requires inside { visit.now.slot < length visit.now.program.slots }
    requires plain { IsTrue runs → IsKept visit.now.program visit.now.slot → ⊥ }
    ensures known { IfOk result
        (λ known. visited_state runs state.old table.new visit.now.slot
        ≡ (if known then Some state.new else None)) }
    ensures heads { OnOk result
        (AreHeadsAt visit.now.program visit.now.slot
        (visited_state runs state.old table.new visit.now.slot)) }
    ensures widened { OnOk result
        (IsWidenedIfAny visit.now.program lowered.now visit.now.slot
        (visited_state runs state.old table.old visit.now.slot)
        (visited_state runs state.old table.new visit.now.slot)) }
    ensures least { OnOk result
        (IsLeastOf (λ above. IsCoveredIfAny
        (visited_state runs state.old table.new visit.now.slot) (above visit.now.slot))
        table.old table.new) }
    ensures extended { IsExtended visit.now.slot table.old table.new }
    ensures refused { IfErr result (IsValueFault visit.now.program) }
    ensures fault { IfErr result
        (IsHeadFaultIfAny visit.now (visited_state runs state.old table.old visit.now.slot)
        state.new) }
{
    order_of_states();
    visit.stands_formed();
    if runs {
        return Ok(true);
    }
    if !table.read(visit.slot(), state) {
        return Ok(false);
    }
    enter(visit, table, lowered, state)?;
    Ok(true)
}

/// Visits the instruction at a slot. If nothing is known there, it skips the instruction, since no run comes there.
/// Before and after, the state is the running one if `runs` says so. The result is the region that the instruction
/// accesses.
fn visit_insn(
    visit: &Visit,
    table: &mut StateTable<'_>,
    lowered: &mut Lowered,
    state: &mut State,
    spare: &mut State,
    runs: &mut bool,
    insn: &Insn,
) -> Result<Option<Region>, Refused>
    requires table { IsTableOf visit.now table.old }
    requires begins { insn_at visit.now.program visit.now.slot ≡ Some insn.now }
    requires plain { IsTrue runs.old → IsKept visit.now.program visit.now.slot → ⊥ }
    ensures visit { IfOk result
        (λ region. IsInsnVisit visit.now table.old table.new runs.old runs.new state.old state.new
        (IsSettled lowered.old lowered.new) region insn.now) }
    ensures least { OnOk result
        (IsLeastVisit visit.now lowered.old lowered.new table.old table.new runs.old runs.new
        state.old state.new insn.now) }
    ensures table { IsTableOf visit.now table.new }
    ensures more { IsMore lowered.old lowered.new }
    ensures refused { IfErr result (IsValueFault visit.now.program) }
    ensures fault { IfErr result
        (IsVisitFaultIfAny visit.now lowered.old (knowledge_in table.old)
        (visited_state runs.old state.old table.old visit.now.slot) (Some insn.now)
        state.new) }
{
    order_of_states();
    visit.stands_formed();
    let known = arrive(visit, table, lowered, state, *runs)?;
    if !known {
        return Ok(None);
    }
    state.stands_whole();
    let region = accessed_region(state, insn);
    let goes_on = flow(visit, table, lowered, state, spare, insn)?;
    *runs = goes_on;
    Ok(region)
}

/// Visits a slot. It does nothing at a second slot.
fn visit_slot(
    visit: &Visit,
    table: &mut StateTable<'_>,
    lowered: &mut Lowered,
    state: &mut State,
    spare: &mut State,
    runs: &mut bool,
) -> Result<Option<Region>, Refused>
    requires table { IsTableOf visit.now table.old }
    requires plain { IsTrue runs.old → IsKept visit.now.program visit.now.slot → ⊥ }
    ensures visit { IfOk result
        (λ region. IsVisit visit.now table.old table.new runs.old runs.new state.old state.new
        (IsSettled lowered.old lowered.new) region (insn_at visit.now.program visit.now.slot)) }
    ensures least { OnOk result
        (IsLeastVisitIfAny visit.now lowered.old lowered.new table.old table.new runs.old runs.new
        state.old state.new (insn_at visit.now.program visit.now.slot)) }
    ensures table { IsTableOf visit.now table.new }
    ensures more { IsMore lowered.old lowered.new }
    ensures refused { IfErr result (IsValueFault visit.now.program) }
    ensures fault { IfErr result
        (IsVisitFaultIfAny visit.now lowered.old (knowledge_in table.old)
        (visited_state runs.old state.old table.old visit.now.slot)
        (insn_at visit.now.program visit.now.slot) state.new) }
{
    match visit.insn() {
        Some(insn) => visit_insn(visit, table, lowered, state, spare, runs, &insn),
        None => Ok(None),
    }
}

/// Passes over the slots of a program by rising slot, from a table that covers the entry. The caller lends what each
/// loop writes. The pass writes the region that each slot accesses. If it lowered nothing more, the program is
/// judged. The state may be any before. If the program is refused, it is what was known at the slot of the refusal.
///
/// # Errors
///
/// The first refusal of the pass, with its slot.
pub(crate) fn pass(
    table: &mut StateTable<'_>,
    lowered: &mut Lowered,
    image: &Image,
    maps: &MapSizes,
    written: &[Written; MAX_LOOPS],
    regions: &mut Vec<Option<Region>>,
    state: &mut State,
) -> Result<(), Refused>
    requires formed { IsFormed image.now }
    requires written { AreWrittenByLoops image.now written.now }
    requires table { table.old.program ≡ image.now }
    requires entered { AreEntered image.now (knowledge_in table.old) }
    requires least { IsLeastEntry (knowledge_in table.old) }
    requires regions { length regions.old.items ≡ length image.now.slots }
    ensures judged { OnOk result
        (IsSettled lowered.old lowered.new → IsJudged image.now maps.now regions.new.items) }
    ensures table { table.new.program ≡ image.now }
    ensures regions { length regions.new.items ≡ length image.now.slots }
    ensures more { IsMore lowered.old lowered.new }
    ensures refused { IfErr result (IsValueFault image.now) }
    ensures lowers { OnOk result
        (HasToLower image.now lowered.old → HasToLower image.now lowered.new) }
    ensures reported { IfErr result
        (λ refused. HasToLower image.now lowered.old
        → ReportsKnown image.now maps.now state.new refused) }
{
    order_of_states();
    apply_grows();
    refine_grows();
    after_call_grows();
    apply_leaves();
    refine_shrinks();
    loops_are_counted();
    let mut spare = State::entry();
    let mut runs = false;
    state.set_to(&spare);
    for slot in 0..image.slots() {
        let visit = Visit::new(image, maps, written, slot);
        let region = visit_slot(&visit, table, lowered, state, &mut spare, &mut runs)?;
        regions[usize::from(slot)] = region;
        table.stands_at_targets();
        state.stands_whole();
    }
    Ok(())
}
