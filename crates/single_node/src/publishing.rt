//! The list of what was published. It exists only in proofs: it has no bytes, and its calls do nothing.

ghost use Rattle.std.specs.Prelude.{◌≡◌, List, []};
ghost use base.Fml.{ftrue};
ghost use Rattle.node_programs.specs.declared.publishes.Publish.{Publish};

use bver::Accepted;
use std::marker::Model;

/// A program that the node owns, and the last slot for which it was published.
#[derive(Drop)]
pub(crate) struct Publishing {
    pub slot: u8,
    pub program: Accepted,
}

/// What was published, for proofs. [`ProgramList`] holds it.
#[derive(Drop)]
pub(crate) struct Published {
    ghost programs: { List Publish },
}

impl Model for Published {
    ghost also_owns = { λ _. ftrue };
}

impl Published {
    ghost use Rattle.node_programs.specs.Histories.{longer_history};

    /// Nothing.
    pub(crate) fn new() -> Published
        ensures { result.programs ≡ [] }
    {
        Published {}
    }

    /// The same.
    pub(crate) fn again(&self) -> Published
        ensures { result.programs ≡ self.now.programs }
    {
        Published {}
    }

    /// One publish more.
    pub(crate) fn longer(&self, _next: &Publishing) -> Published
        ensures { result.programs ≡ longer_history self.now.programs _next.now.slot
            _next.now.program }
    {
        Published {}
    }
}
