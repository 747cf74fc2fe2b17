//! Laws of what ports know. Each function does no work: its contract is the law.

ghost use Rattle.std.specs.Prelude.{◌⊎◌};
ghost use mathlib.Core.List.{IsPrefix};
ghost use Rattle.annals.specs.Chains.{ActsGrow};
ghost use Rattle.annals.specs.Publishes.{EntriesAreNoLoads, LoadsAreListed, LoadsAreNoEntries, PublishesGrow};

use crate::chains::{Family, Front};

/// What two ports know is of one history: one has seen a beginning of what the other has seen.
pub fn share_one_history<J: Family>(one: &Front<J>, other: &Front<J>)
    ensures { IsPrefix one.now other.now ⊎ IsPrefix other.now one.now }
{
    one.meets(other);
}

/// What begins a history has the publishes that begin the history's.
pub fn publishes_grow()
    ensures { PublishesGrow }
{}

/// What begins a history has of each line's owner the acts that begin those which the history has of that owner.
pub fn acts_grow()
    ensures { ActsGrow }
{}

/// What a line asks for at banks and what it asks to publish are apart. What it asks to publish last is the last of its
/// publishes.
pub fn loads_are_apart()
    ensures loads { LoadsAreNoEntries }
    ensures entries { EntriesAreNoLoads }
    ensures listed { LoadsAreListed }
{}
