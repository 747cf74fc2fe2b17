//! Laws about states. Each function does nothing: its contract is the law.

ghost use Rattle.absdom.specs.Laws.{BelowFits, BelowIsReflexive, BelowIsTransitive, BelowIsAntisymmetric, EntryFits, CallFits, JoinIsAbove, JoinIsLeast, ApplyFits, StateRefineFits, ApplyGrows, StateRefineGrows, JoinGrows, CallGrows, ApplyLeaves, CallLeaves, ForgetsAll, StateRefineShrinks};

/// A law and no work: whatever fits a state fits every state above it, and the states are in an order.
pub fn order_of_states()
    ensures fits { BelowFits }
    ensures reflexive { BelowIsReflexive }
    ensures transitive { BelowIsTransitive }
    ensures antisymmetric { BelowIsAntisymmetric }
{}

/// A law and no work: if [`apply`] does not refuse an instruction, the machine goes on from every state that fits
/// what is known. Its next state fits what `apply` gives.
///
/// [`apply`]: crate::State::apply
pub fn apply_fits()
    ensures { ApplyFits }
{
    machine::stored_bytes_are_read();
    machine::same_bytes();
    absdom_num::results_fit();
}

/// A law and no work: the machine's state at entry fits [`State::entry`].
///
/// [`State::entry`]: crate::State::entry
pub fn entry_fits()
    ensures { EntryFits }
{}

/// A law and no work: whatever a helper answers, the machine's state after the call fits [`State::call`] of a state
/// that fitted before.
///
/// [`State::call`]: crate::State::call
pub fn after_call_fits()
    ensures { CallFits }
{}

/// A law and no work: a joint state is above both, and below every state that is above both.
pub fn join_is_least()
    ensures above { JoinIsAbove }
    ensures least { JoinIsLeast }
    ensures grows { JoinGrows }
{}

/// A law and no work: from every state of the machine that fits what is known, a comparison takes an edge that
/// [`refine`] follows. The state then fits what is known on that edge. The condition is that `refine` does not refuse
/// the comparison.
///
/// [`refine`]: crate::refine
pub fn refine_fits()
    ensures { StateRefineFits }
{
    absdom_num::edges_fit();
}

/// A law and no work: from a smaller state [`apply`] gives a smaller one. If it does not refuse the larger, it does
/// not refuse the smaller.
///
/// [`apply`]: crate::State::apply
pub fn apply_grows()
    ensures { ApplyGrows }
{
    absdom_num::results_grow();
}

/// A law and no work: an instruction that [`apply`] does not refuse keeps all marks, and the kinds of registers that
/// it does not write. An instruction that is no store makes no mark, and keeps the range of each word.
/// [`State::call`] does the same for a helper's call.
///
/// [`apply`]: crate::State::apply
/// [`State::call`]: crate::State::call
pub fn apply_leaves()
    ensures apply { ApplyLeaves }
    ensures call { CallLeaves }
{}

/// A law and no work: if ranges are forgotten, and nothing was known of any word of the stack, nothing is known
/// after.
pub fn forgets_all()
    ensures { ForgetsAll }
{}

/// A law and no work: what [`refine`] gives on an edge that is followed is below the state that was refined.
///
/// [`refine`]: crate::refine
pub fn refine_shrinks()
    ensures { StateRefineShrinks }
{
    absdom_num::edges_shrink();
}

/// A law and no work: from a smaller state [`State::call`] gives a smaller one.
///
/// [`State::call`]: crate::State::call
pub fn after_call_grows()
    ensures { CallGrows }
{}

/// A law and no work: from a smaller state [`refine`] gives smaller edges. It follows none that it does not follow
/// from the larger. If it does not refuse the larger, it does not refuse the smaller.
///
/// [`refine`]: crate::refine
pub fn refine_grows()
    ensures { StateRefineGrows }
{
    absdom_num::edges_grow();
}
