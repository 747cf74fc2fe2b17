//! The programs that a node owns, each at its place.

ghost use Rattle.std.specs.Prelude.{◌≡◌, ◌≢◌, ◌<◌, ◌≤◌, ℕ, IfSome, OnErr, OnOk, Some, length, slice_get};
ghost use Rattle.single_node.specs.Slots.{shown_at};
ghost use Rattle.single_node.specs.declared.places.Placed.{Placed};

use crate::publishing::Publishing;
use std::alloc::AllocError;

/// The program at a place. The condition is a place that has a program.
pub(crate) fn own_program(programs: &Vec<Publishing>, place: usize) -> &Publishing
    requires { place < length programs.now.items }
    ensures { slice_get programs.now.items place ≡ Some result.now }
{
    &programs[place]
}

/// Puts a program at a place, and drops the one before it. At the place after the last one it is one more.
#[tactic(auto, using(crate::proofs::Holding::set_there, crate::proofs::Holding::set_other, crate::proofs::Holding::more_there, crate::proofs::Holding::more_other))]
pub(crate) fn hold(
    programs: &mut Vec<Publishing>,
    place: usize,
    next: Publishing,
) -> Result<(), AllocError>
    requires { place ≤ length programs.old.items }
    ensures there { OnOk result (slice_get programs.new.items place ≡ Some next) }
    ensures others { OnOk result ((k : ℕ) → k ≢ place → k < length programs.old.items
        → slice_get programs.new.items k ≡ slice_get programs.old.items k) }
    ensures same { OnErr result (programs.new.items ≡ programs.old.items) }
{
    if place < programs.len() {
        programs[place] = next;
        return Ok(());
    }
    programs.push(next)?;
    Ok(())
}

/// Names the slot for which the program at a place is published next. The programs stay. The condition is a place that
/// has a program.
pub(crate) fn name_slot(programs: &mut Vec<Publishing>, place: usize, slot: u8)
    requires { place < length programs.old.items }
    ensures shown { (s : Placed) → shown_at programs.new.items s ≡ shown_at programs.old.items s }
    ensures named { IfSome (slice_get programs.new.items place) (λ p. p.slot ≡ slot) }
    ensures count { length programs.new.items ≡ length programs.old.items }
{
    programs[place].slot = slot;
}

/// Makes the operations of the program at a place again, in their own memory, from its image. The condition is a place
/// that has a program.
pub(crate) fn renew_own(programs: &mut Vec<Publishing>, place: usize)
    requires { place < length programs.old.items }
    ensures { (s : Placed) → shown_at programs.new.items s ≡ shown_at programs.old.items s }
{
    programs[place].program.renew();
}
