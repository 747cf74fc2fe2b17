//! A beginning of a history, whosever it is.

ghost use Rattle.std.specs.Prelude.{◌≡◌, ◌⊎◌};
ghost use mathlib.Core.List.{IsPrefix};

use crate::chains::{Chain, Chained, Family, Front};
use crate::deed::HistoryEntry;
use logbook::Seen;
use std::marker::{Model, PhantomData};

/// A beginning of a history that was seen, as a value can hold it that is no node's. Contracts see it as the history's
/// book, and the entries.
#[derive(Drop)]
pub struct Beginning {
    pub(crate) seen: Seen<HistoryEntry, u64, Chained>,
}

impl Model for Beginning {
    ghost use Rattle.std.specs.Prelude.{◌≡◌};
    ghost use Rattle.annals.specs.Publishes.{BeginningValue};

    ghost Value = { BeginningValue };

    ghost view = { λ b. record { book = b.seen.book; log = b.seen.log } };
}

impl Beginning {
    /// A copy.
    pub fn again(&self) -> Beginning
        ensures { result ≡ self.now }
    {
        Beginning {
            seen: self.seen.again(),
        }
    }

    /// What a port of that node knows by it.
    pub fn front<J: Family>(&self) -> Front<J>
        requires { self.now.book ≡ J.book }
        ensures { result ≡ self.now.log }
    {
        Front {
            seen: self.seen.again(),
            of: PhantomData,
        }
    }

    /// Two beginnings of one history: one begins the other.
    pub fn meets(&self, other: &Beginning)
        requires { other.now.book ≡ self.now.book }
        ensures { IsPrefix self.now.log other.now.log ⊎ IsPrefix other.now.log self.now.log }
    {
        let mut both = self.seen.again();
        both.learn(&other.seen);
    }
}

impl<J: Family> Chain<J> {
    /// All that is known of the history.
    pub fn beginning(&self) -> Beginning
        ensures book { result.book ≡ J.book }
        ensures log { result.log ≡ self.now.log }
    {
        Beginning {
            seen: self.seen.again(),
        }
    }
}
