//! What an instruction does to the table: the edges that it follows, and the reason for its refusal.

ghost use Rattle.std.specs.Prelude.{◌≡◌, ◌≤◌, ◌+◌, ◌⊎◌, IfErr, IfOk, IsErr, IsSome, IsTrue, MatchResult, OnErr, OnOk, Ok, Some, false};
ghost use Rattle.bpf_insn.specs.Spelling.{slots_of};
ghost use Rattle.machine.specs.Helpers.{helper_of};
ghost use Rattle.machine.specs.Step.{insn_at, is_map, knows_helper};
ghost use Rattle.absdom_stack.specs.Spill.{spill_of};
ghost use Rattle.absdom.specs.Edges.{edge_state, edge_states};
ghost use Rattle.absdom.specs.Kinds.{map_of, number_of};
ghost use Rattle.absdom.specs.State.{after_call, kind_at};
ghost use Rattle.bver_form.specs.Form.{IsAllowed};
ghost use Rattle.bver_form.specs.Jumps.{IsJump};
ghost use Rattle.bver_pass.specs.Codes.{refusal_of};
ghost use Rattle.bver_pass.specs.Faults.{RefusesForFault, argument_fault, asking_fault, calling_fault, fault_in};
ghost use Rattle.bver_pass.specs.Justified.{HasArgument, IsCovered, IsCoveredIfAny, IsNumber, IsPermitted, IsResultCovered, MayAsk, MayCall, accessed_region, edges_of_comparison, pointed_region};
ghost use Rattle.bver_form.specs.Lowered.{IsMore, IsSettled};
ghost use Rattle.bver_pass.specs.Refusals.{IsValueFault, IsValueRefusal};
ghost use Rattle.bver_pass.specs.StateTable.{knowledge_beside, knowledge_in, knowledge_next};
ghost use Rattle.bver_form.specs.Targets.{IsPlain};
ghost use Rattle.bver_pass.specs.Leading.{AreLoweredBack, BranchesBelow, IsFlowFault, GivesBelow, IsUncovered, IsUncoveredIfAny, LeadsBelow, jumping_state, outcome_at, taken_state};
ghost use Rattle.bver_pass.specs.Visit.{AreEdgesFollowed, GoesOnPlain, HasNext, IsExtendedAfter, IsLeastNext, IsLeastOf, IsNext, IsTableOf, LeadsBy, knowledge_at_target};

use crate::table::StateTable;
use crate::visit::Visit;
use absdom::{AbsKind, Cause, Edges, Operands, Region, State, order_of_states, refine};
use absdom_num::Range;
use bpf_insn::{Callee, Comparison, Insn, Register};
use bver_form::{Lowered, Refusal, Refused};
use machine::Helper;

/// The refusal for what an instruction may do wrong.
fn refusal_of(cause: Cause) -> Refusal
    ensures is { result ≡ refusal_of cause }
    ensures value { IsValueRefusal result }
{
    match cause {
        Cause::UnsetOperand => Refusal::Unset,
        Cause::KindMismatch => Refusal::KindMismatch,
        Cause::OutOfRegion => Refusal::OutOfRegion,
        Cause::UnsetStack => Refusal::UnsetStack,
        Cause::HeaderWrite => Refusal::HeaderWrite,
        Cause::PointerRange => Refusal::PointerRange,
    }
}

/// Follows a jump by this distance in slots: forward, or back to the head of a loop.
fn jump(
    visit: &Visit,
    table: &mut StateTable<'_>,
    lowered: &mut Lowered,
    distance: i32,
    state: &State,
) -> Result<(), Refused>
    requires table { IsTableOf visit.now table.old }
    requires jump { IsJump visit.now.program visit.now.slot distance }
    requires leads { LeadsBy visit.now distance }
    ensures covered { OnOk result
        (IsSettled lowered.old lowered.new
        → IsCovered state.now (knowledge_at_target visit.now distance (knowledge_in table.new))) }
    ensures least { OnOk result
        (IsLeastOf (λ above. IsCovered state.now (knowledge_at_target visit.now distance above))
        table.old table.new) }
    ensures extended { IsExtendedAfter visit.now table.old table.new }
    ensures more { IsMore lowered.old lowered.new }
    ensures lowered { OnOk result
        (AreLoweredBack visit.now.program visit.now.slot (knowledge_in table.old)
        (Some state.now) lowered.old lowered.new) }
    ensures refused { IfErr result (IsValueFault visit.now.program) }
    ensures uncovered { IfErr result
        (λ _. IsUncovered visit.now.program visit.now.slot lowered.old (knowledge_in table.old)
        state.now) }
{
    order_of_states();
    state.stands_whole();
    match visit.landing(distance) {
        Some(landing) => {
            if landing > visit.slot() {
                table.follow(landing, state);
                return Ok(());
            }
            match visit.closed(landing) {
                Some(body) => body.close(table, state, lowered),
                None => unreachable!(),
            }
        }
        None => unreachable!(),
    }
}

/// Follows the edge of a comparison on which it holds, if a run may take it. The spare state gets what is known
/// there.
fn follow_taken(
    visit: &Visit,
    table: &mut StateTable<'_>,
    lowered: &mut Lowered,
    state: &State,
    spare: &mut State,
    comparison: &Comparison,
    distance: i32,
    edge: &Option<Operands>,
) -> Result<(), Refused>
    requires begins { IsSome (insn_at visit.now.program visit.now.slot) }
    requires table { IsTableOf visit.now table.old }
    requires jump { IsJump visit.now.program visit.now.slot distance }
    requires leads { LeadsBy visit.now distance }
    ensures covered { OnOk result
        (IsSettled lowered.old lowered.new
        → IsCoveredIfAny (edge_state state.now comparison.now.dst comparison.now.src edge.now)
        (knowledge_at_target visit.now distance (knowledge_in table.new))) }
    ensures least { OnOk result
        (IsLeastOf (λ above. IsCoveredIfAny
        (edge_state state.now comparison.now.dst comparison.now.src edge.now)
        (knowledge_at_target visit.now distance above)) table.old table.new) }
    ensures extended { IsExtendedAfter visit.now table.old table.new }
    ensures more { IsMore lowered.old lowered.new }
    ensures lowered { OnOk result
        (AreLoweredBack visit.now.program visit.now.slot (knowledge_in table.old)
        (edge_state state.now comparison.now.dst comparison.now.src edge.now)
        lowered.old lowered.new) }
    ensures refused { IfErr result (IsValueFault visit.now.program) }
    ensures uncovered { IfErr result
        (λ _. IsUncoveredIfAny visit.now.program visit.now.slot lowered.old
        (knowledge_in table.old)
        (edge_state state.now comparison.now.dst comparison.now.src edge.now)) }
{
    order_of_states();
    match edge {
        Some(new) => {
            spare.set_to(state);
            spare.narrow(comparison.dst, &comparison.src, new);
            jump(visit, table, lowered, distance, spare)
        }
        None => Ok(()),
    }
}

/// Goes on to the next instruction, `slots` slots further. The result is whether the state is the running one there.
fn go_on(visit: &Visit, table: &mut StateTable<'_>, state: &State, slots: u16) -> bool
    requires table { IsTableOf visit.now table.old }
    requires next { IsNext visit.now slots }
    ensures covered { IsCovered state.now
        (knowledge_next table.new result (visit.now.slot + slots) state.now) }
    ensures least { IsLeastOf (λ above. IsCovered state.now (above (visit.now.slot + slots)))
        table.old table.new }
    ensures plain { IsTrue result → IsPlain visit.now.program (visit.now.slot + slots) }
    ensures extended { IsExtendedAfter visit.now table.old table.new }
{
    order_of_states();
    table.go_on(visit.slot() + slots, state)
}

/// Follows the other edge of a comparison, if a run may take it. The result is whether the state is the running one
/// there.
fn follow_not_taken(
    visit: &Visit,
    table: &mut StateTable<'_>,
    state: &mut State,
    comparison: &Comparison,
    edge: &Option<Operands>,
) -> bool
    requires table { IsTableOf visit.now table.old }
    requires next { IsNext visit.now 1 }
    ensures covered { IsCoveredIfAny
        (edge_state state.old comparison.now.dst comparison.now.src edge.now)
        (knowledge_next table.new result (visit.now.slot + 1) state.new) }
    ensures least { IsLeastNext (λ above. IsCoveredIfAny
        (edge_state state.old comparison.now.dst comparison.now.src edge.now)
        (above (visit.now.slot + 1)))
        table.old table.new result (visit.now.slot + 1) state.new }
    ensures plain { IsTrue result → IsPlain visit.now.program (visit.now.slot + 1) }
    ensures extended { IsExtendedAfter visit.now table.old table.new }
{
    order_of_states();
    match edge {
        Some(new) => {
            state.narrow(comparison.dst, &comparison.src, new);
            go_on(visit, table, state, 1)
        }
        None => false,
    }
}

/// Follows the edges of a comparison. The result is whether the state is the running one at the next instruction.
fn branch(
    visit: &Visit,
    table: &mut StateTable<'_>,
    lowered: &mut Lowered,
    state: &mut State,
    spare: &mut State,
    comparison: &Comparison,
    distance: i32,
    edges: &Edges,
) -> Result<bool, Refused>
    requires begins { IsSome (insn_at visit.now.program visit.now.slot) }
    requires table { IsTableOf visit.now table.old }
    requires jump { IsJump visit.now.program visit.now.slot distance }
    requires leads { LeadsBy visit.now distance }
    requires next { IsNext visit.now 1 }
    ensures covered { IfOk result
        (λ runs. IsSettled lowered.old lowered.new
        → AreEdgesFollowed visit.now distance
        (Ok (edge_states state.old comparison.now.dst comparison.now.src edges.now))
        table.new state.new runs) }
    ensures least { IfOk result
        (λ runs. IsLeastNext (λ above. BranchesBelow
        (Ok (edge_states state.old comparison.now.dst comparison.now.src edges.now))
        (knowledge_at_target visit.now distance above) (above (visit.now.slot + 1)))
        table.old table.new runs (visit.now.slot + 1) state.new) }
    ensures plain { IfOk result (GoesOnPlain visit.now.program (visit.now.slot + 1)) }
    ensures extended { IsExtendedAfter visit.now table.old table.new }
    ensures more { IsMore lowered.old lowered.new }
    ensures lowered { OnOk result
        (AreLoweredBack visit.now.program visit.now.slot (knowledge_in table.old)
        (edge_state state.old comparison.now.dst comparison.now.src edges.now.taken)
        lowered.old lowered.new) }
    ensures refused { IfErr result (IsValueFault visit.now.program) }
    ensures uncovered { IfErr result
        (λ _. IsUncoveredIfAny visit.now.program visit.now.slot lowered.old
        (knowledge_in table.old)
        (edge_state state.old comparison.now.dst comparison.now.src edges.now.taken)) }
    ensures kept { OnErr result (state.new ≡ state.old) }
{
    order_of_states();
    follow_taken(
        visit,
        table,
        lowered,
        state,
        spare,
        comparison,
        distance,
        &edges.taken,
    )?;
    let runs = follow_not_taken(visit, table, state, comparison, &edges.not_taken);
    table.stands_at_targets();
    Ok(runs)
}

/// Follows both edges of a comparison. The result is whether the state is the running one at the next instruction.
fn compare(
    visit: &Visit,
    table: &mut StateTable<'_>,
    lowered: &mut Lowered,
    state: &mut State,
    spare: &mut State,
    comparison: &Comparison,
    offset: i16,
) -> Result<bool, Refused>
    requires begins { IsSome (insn_at visit.now.program visit.now.slot) }
    requires table { IsTableOf visit.now table.old }
    requires jump { IsJump visit.now.program visit.now.slot offset }
    requires leads { LeadsBy visit.now offset }
    requires next { IsNext visit.now 1 }
    ensures covered { IfOk result
        (λ runs. IsSettled lowered.old lowered.new
        → AreEdgesFollowed visit.now offset
        (edges_of_comparison state.old comparison.now)
        table.new state.new runs) }
    ensures least { IfOk result
        (λ runs. IsLeastNext (λ above. BranchesBelow
        (edges_of_comparison state.old comparison.now)
        (knowledge_at_target visit.now offset above) (above (visit.now.slot + 1)))
        table.old table.new runs (visit.now.slot + 1) state.new) }
    ensures plain { IfOk result (GoesOnPlain visit.now.program (visit.now.slot + 1)) }
    ensures extended { IsExtendedAfter visit.now table.old table.new }
    ensures more { IsMore lowered.old lowered.new }
    ensures lowered { OnOk result
        (AreLoweredBack visit.now.program visit.now.slot (knowledge_in table.old)
        (taken_state (edges_of_comparison state.old comparison.now))
        lowered.old lowered.new) }
    ensures refused { IfErr result (IsValueFault visit.now.program) }
    ensures fault { IfErr result
        (λ refused. ((refused.slot ≡ visit.now.slot)
        × (fault_in (edges_of_comparison state.old comparison.now) ≡ Some refused.code))
        ⊎ IsUncoveredIfAny visit.now.program visit.now.slot lowered.old
        (knowledge_in table.old)
        (taken_state (edges_of_comparison state.old comparison.now))) }
    ensures kept { OnErr result (state.new ≡ state.old) }
{
    order_of_states();
    match refine(
        state,
        comparison.condition,
        comparison.width,
        comparison.dst,
        &comparison.src,
    ) {
        Ok(edges) => {
            branch(
                visit,
                table,
                lowered,
                state,
                spare,
                comparison,
                i32::from(offset),
                &edges,
            )
        }
        Err(cause) => Err(visit.refused(refusal_of(cause))),
    }
}

/// An instruction that goes on to the next one. The result is whether the state is the running one there.
fn straight(
    visit: &Visit,
    table: &mut StateTable<'_>,
    state: &mut State,
    insn: &Insn,
) -> Result<bool, Refused>
    requires begins { IsSome (insn_at visit.now.program visit.now.slot) }
    requires table { IsTableOf visit.now table.old }
    requires next { IsNext visit.now (slots_of insn.now) }
    ensures covered { IfOk result
        (λ runs. IsResultCovered (outcome_at visit.now state.old insn.now)
        (knowledge_next table.new runs (visit.now.slot + slots_of insn.now) state.new)) }
    ensures least { IfOk result
        (λ runs. IsLeastNext (λ above. GivesBelow (outcome_at visit.now state.old insn.now)
        (above (visit.now.slot + slots_of insn.now)))
        table.old table.new runs (visit.now.slot + slots_of insn.now) state.new) }
    ensures fault { IfErr result
        (λ refused. fault_in (outcome_at visit.now state.old insn.now)
        ≡ Some refused.code) }
    ensures plain { IfOk result
        (GoesOnPlain visit.now.program (visit.now.slot + slots_of insn.now)) }
    ensures extended { IsExtendedAfter visit.now table.old table.new }
    ensures refused { IfErr result (IsValueFault visit.now.program) }
    ensures slot { IfErr result (λ refused. refused.slot ≡ visit.now.slot) }
    ensures kept { OnErr result (state.new ≡ state.old) }
{
    order_of_states();
    match state.apply(visit.spill(), insn) {
        Ok(()) => Ok(go_on(visit, table, state, insn.slots())),
        Err(cause) => Err(visit.refused(refusal_of(cause))),
    }
}

/// Tests that there is a map of the index.
fn check_map(visit: &Visit, index: i32) -> Result<(), Refused>
    requires begins { IsSome (insn_at visit.now.program visit.now.slot) }
    ensures map { MatchResult result (λ _. IsTrue (is_map visit.now.maps index))
        (λ _. is_map visit.now.maps index ≡ false) }
    ensures code { IfErr result (λ refused. refused.code ≡ Refusal.MapKey) }
    ensures refused { IfErr result (IsValueFault visit.now.program) }
    ensures slot { IfErr result (λ refused. refused.slot ≡ visit.now.slot) }
{
    if index < 0 || index >= i32::from(visit.maps()) {
        return Err(visit.refused(Refusal::MapKey));
    }
    Ok(())
}

/// The number in a register, if an instruction wants one there.
fn number_in(visit: &Visit, state: &State, register: u8) -> Result<Range, Refused>
    requires begins { IsSome (insn_at visit.now.program visit.now.slot) }
    requires register { register ≤ 10 }
    ensures number { MatchResult result (λ n. number_of (kind_at state.now register) ≡ Ok n)
        (λ _. IsErr (number_of (kind_at state.now register))) }
    ensures fault { RefusesForFault result (fault_in (number_of (kind_at state.now register))) }
    ensures refused { IfErr result (IsValueFault visit.now.program) }
    ensures slot { IfErr result (λ refused. refused.slot ≡ visit.now.slot) }
{
    match Register::new(register) {
        Some(register) => match state.kind(register).number() {
            Ok(number) => Ok(number),
            Err(cause) => Err(visit.refused(refusal_of(cause))),
        },
        None => unreachable!(),
    }
}

/// Tests that r0 is a number, as EXIT wants.
fn check_answer(visit: &Visit, state: &State) -> Result<(), Refused>
    requires begins { IsSome (insn_at visit.now.program visit.now.slot) }
    ensures answer { MatchResult result (λ _. IsNumber (kind_at state.now 0))
        (λ _. IsNumber (kind_at state.now 0) → ⊥) }
    ensures fault { RefusesForFault result (fault_in (number_of (kind_at state.now 0))) }
    ensures refused { IfErr result (IsValueFault visit.now.program) }
    ensures slot { IfErr result (λ refused. refused.slot ≡ visit.now.slot) }
{
    number_in(visit, state, 0)?;
    Ok(())
}

/// The map in r1, which a helper asks.
fn asked_map(visit: &Visit, state: &State) -> Result<u8, Refused>
    requires begins { IsSome (insn_at visit.now.program visit.now.slot) }
    ensures map { MatchResult result (λ map. map_of (kind_at state.now 1) ≡ Ok map)
        (λ _. IsErr (map_of (kind_at state.now 1))) }
    ensures fault { RefusesForFault result (fault_in (map_of (kind_at state.now 1))) }
    ensures refused { IfErr result (IsValueFault visit.now.program) }
    ensures slot { IfErr result (λ refused. refused.slot ≡ visit.now.slot) }
{
    match Register::new(1) {
        Some(register) => match state.kind(register).map() {
            Ok(map) => Ok(map),
            Err(cause) => Err(visit.refused(refusal_of(cause))),
        },
        None => unreachable!(),
    }
}

/// Tests that r3 is a number, if the helper takes it as its argument.
fn check_argument(visit: &Visit, state: &State, helper: Helper) -> Result<(), Refused>
    requires begins { IsSome (insn_at visit.now.program visit.now.slot) }
    ensures argument { MatchResult result (λ _. HasArgument helper (kind_at state.now 3))
        (λ _. HasArgument helper (kind_at state.now 3) → ⊥) }
    ensures fault { RefusesForFault result (argument_fault helper (kind_at state.now 3)) }
    ensures refused { IfErr result (IsValueFault visit.now.program) }
    ensures slot { IfErr result (λ refused. refused.slot ≡ visit.now.slot) }
{
    if !helper.takes_argument() {
        return Ok(());
    }
    number_in(visit, state, 3)?;
    Ok(())
}

/// Tests that a helper may be asked: r1 is a map of its kind, r2 a key of it, and r3 its argument. It tests the kind
/// last.
fn check_asked(visit: &Visit, state: &State, helper: Helper) -> Result<(), Refused>
    requires begins { IsSome (insn_at visit.now.program visit.now.slot) }
    ensures asked { MatchResult result (λ _. MayAsk visit.now.maps helper state.now)
        (λ _. MayAsk visit.now.maps helper state.now → ⊥) }
    ensures fault { RefusesForFault result (asking_fault visit.now.maps helper state.now) }
    ensures refused { IfErr result (IsValueFault visit.now.program) }
    ensures slot { IfErr result (λ refused. refused.slot ≡ visit.now.slot) }
{
    let map = asked_map(visit, state)?;
    let keys = number_in(visit, state, 2)?;
    check_argument(visit, state, helper)?;
    if !visit.has_keys(map, keys.high()) {
        return Err(visit.refused(Refusal::MapKey));
    }
    if !visit.takes(map, helper) {
        return Err(visit.refused(Refusal::MapKind));
    }
    Ok(())
}

/// Tests that the helper that is called by its number may be asked.
fn check_called(visit: &Visit, state: &State, number: i32) -> Result<(), Refused>
    requires begins { IsSome (insn_at visit.now.program visit.now.slot) }
    requires known { IsTrue (knows_helper visit.now.program.version (helper_of number)) }
    ensures called { MatchResult result (λ _. MayCall visit.now.maps (helper_of number) state.now)
        (λ _. MayCall visit.now.maps (helper_of number) state.now → ⊥) }
    ensures fault { RefusesForFault result
        (calling_fault visit.now.maps (helper_of number) state.now) }
    ensures refused { IfErr result (IsValueFault visit.now.program) }
    ensures slot { IfErr result (λ refused. refused.slot ≡ visit.now.slot) }
{
    match Helper::of_number(number) {
        Some(helper) => check_asked(visit, state, helper),
        None => unreachable!(),
    }
}

/// A helper's call, which goes on with any answer. The result is whether the state is the running one at the next
/// instruction.
fn call(
    visit: &Visit,
    table: &mut StateTable<'_>,
    state: &mut State,
    number: i32,
) -> Result<bool, Refused>
    requires begins { IsSome (insn_at visit.now.program visit.now.slot) }
    requires known { IsTrue (knows_helper visit.now.program.version (helper_of number)) }
    requires table { IsTableOf visit.now table.old }
    requires next { IsNext visit.now 1 }
    ensures called { OnOk result (MayCall visit.now.maps (helper_of number) state.old) }
    ensures refuted { IfErr result (λ _. MayCall visit.now.maps (helper_of number) state.old → ⊥) }
    ensures fault { IfErr result
        (λ refused. calling_fault visit.now.maps (helper_of number) state.old
        ≡ Some refused.code) }
    ensures left { OnOk result (state.new ≡ after_call state.old) }
    ensures covered { IfOk result
        (λ runs. IsCovered (after_call state.old)
        (knowledge_next table.new runs (visit.now.slot + 1) state.new)) }
    ensures least { IfOk result
        (λ runs. IsLeastNext (λ above. IsCovered (after_call state.old)
        (above (visit.now.slot + 1)))
        table.old table.new runs (visit.now.slot + 1) state.new) }
    ensures plain { IfOk result (GoesOnPlain visit.now.program (visit.now.slot + 1)) }
    ensures extended { IsExtendedAfter visit.now table.old table.new }
    ensures refused { IfErr result (IsValueFault visit.now.program) }
    ensures slot { IfErr result (λ refused. refused.slot ≡ visit.now.slot) }
    ensures kept { OnErr result (state.new ≡ state.old) }
{
    order_of_states();
    check_called(visit, state, number)?;
    state.call();
    Ok(go_on(visit, table, state, 1))
}

/// The region of a pointer.
fn pointed_region(kind: &AbsKind) -> Option<Region>
    ensures { result ≡ pointed_region kind.now }
{
    match kind {
        AbsKind::Ptr(region, _) => Some(*region),
        AbsKind::Unset => None,
        AbsKind::Num(_) => None,
        AbsKind::Map(_) => None,
    }
}

/// The region that an instruction accesses.
pub fn accessed_region(state: &State, insn: &Insn) -> Option<Region>
    ensures { result ≡ accessed_region state.now insn.now }
{
    match insn.accessed() {
        Some(base) => pointed_region(&state.kind(base)),
        None => None,
    }
}

/// Tests an instruction with what is known at its slot, and follows the edges that a run may take from there. The
/// state changes to what is known at the next instruction. If the result is true, it stays the running one there. An
/// edge back to the head of a loop may lower registers there. If it lowered none, the instruction is permitted. The
/// spare state is for what is known on an edge of a comparison, and may be any before and after.
///
/// # Errors
///
/// The state is then as before.
///
/// - The first of `Unset` and `KindMismatch`, `PointerRange`, `HeaderWrite`, `OutOfRegion`, `UnsetStack`, `MapKey`
///   and `MapKind`. The destination comes before the source, and r1 before r2 before r3.
/// - `LoopEntry` at a head: an edge back to it lowers no register there and is not covered.
pub fn flow(
    visit: &Visit,
    table: &mut StateTable<'_>,
    lowered: &mut Lowered,
    state: &mut State,
    spare: &mut State,
    insn: &Insn,
) -> Result<bool, Refused>
    requires table { IsTableOf visit.now table.old }
    requires begins { insn_at visit.now.program visit.now.slot ≡ Some insn.now }
    requires allowed { IsAllowed visit.now.program visit.now.slot insn.now }
    requires next { HasNext visit.now insn.now }
    ensures permitted { IfOk result
        (λ runs. IsSettled lowered.old lowered.new
        → IsPermitted (spill_of visit.now.program.version) visit.now.maps
        (knowledge_beside table.new runs
        (visit.now.slot + slots_of insn.now) state.new) visit.now.slot state.old insn.now) }
    ensures least { IfOk result
        (λ runs. IsLeastNext (λ above. LeadsBelow (spill_of visit.now.program.version) above
        visit.now.slot state.old insn.now)
        table.old table.new runs (visit.now.slot + slots_of insn.now) state.new) }
    ensures plain { IfOk result
        (GoesOnPlain visit.now.program (visit.now.slot + slots_of insn.now)) }
    ensures extended { IsExtendedAfter visit.now table.old table.new }
    ensures more { IsMore lowered.old lowered.new }
    ensures lowered { OnOk result
        (AreLoweredBack visit.now.program visit.now.slot (knowledge_in table.old)
        (jumping_state state.old insn.now) lowered.old lowered.new) }
    ensures refused { IfErr result (IsValueFault visit.now.program) }
    ensures fault { IfErr result
        (IsFlowFault visit.now lowered.old (knowledge_in table.old) state.old insn.now) }
    ensures kept { OnErr result (state.new ≡ state.old) }
{
    order_of_states();
    match insn {
        Insn::Alu { .. }
        | Insn::Negate { .. }
        | Insn::MoveSigned { .. }
        | Insn::ByteSwap { .. }
        | Insn::Load { .. }
        | Insn::Store { .. }
        | Insn::Wide { .. } => straight(visit, table, state, insn),
        Insn::LoadMap { index, .. } => {
            check_map(visit, *index)?;
            straight(visit, table, state, insn)
        }
        Insn::Jump { comparison, offset } => {
            compare(visit, table, lowered, state, spare, comparison, *offset)
        }
        Insn::Goto { distance } => {
            jump(visit, table, lowered, distance.slots(), state)?;
            Ok(false)
        }
        Insn::Exit => {
            check_answer(visit, state)?;
            Ok(false)
        }
        Insn::Call { callee, number } => match callee {
            Callee::Helper => call(visit, table, state, *number),
            Callee::Local | Callee::ByTypeId => unreachable!(),
        },
        Insn::LoadAddress { .. } => unreachable!(),
    }
}
