//! The rule of the table of programs, and what the steps on it report.

use crate::table::Table;
use annals::Family;
use crossbeam_utils::rule::{Outcome, Protocol};
use node_programs::Publish;
use std::collections::LinkedList;
use std::marker::PhantomData;

/// What a reader saw of the history. No value of it is made.
pub(crate) type PublishedView = LinkedList<Publish>;

/// The rule: the table is of one family, and each reader saw a beginning of its programs.
pub(crate) struct InFamily<J: Family> {
    of: PhantomData<J>,
}

impl<J: Family> Protocol<Table, PublishedView> for InFamily<J> {
    ghost use Rattle.std.specs.Prelude.{[]};
    ghost use Rattle.publish.specs.PublishedViews.{IsInFamily};

    ghost holds = { IsInFamily J.book };

    ghost first = { [] };
}

/// A step of a reader, which sees the programs of the table.
pub(crate) struct Looks<J: Family> {
    of: PhantomData<J>,
}

impl<J: Family> Outcome<Table, PublishedView> for Looks<J> {
    ghost use Rattle.publish.specs.PublishedViews.{Sees};

    ghost then = { Sees J.book };
}

/// A step of the publisher, which sees nothing.
pub(crate) struct Shows;

impl Outcome<Table, PublishedView> for Shows {
    ghost use Rattle.std.specs.Prelude.{◌≡◌};

    ghost then = { λ before old new after. after ≡ before };
}
