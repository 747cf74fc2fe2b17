//! The word that says how many programs readers see.

ghost use Rattle.std.specs.Prelude.{◌≡◌, ◌+◌, ◌<◌, ◌≤◌, None, true, length};
ghost use mathlib.Core.List.{IsPrefix};
ghost use Rattle.annals.specs.Chains.{chain_word_of};
ghost use Rattle.annals.specs.Publishes.{publishes_of};
ghost use Rattle.annals.specs.Rule.{Counts, Raises, showing, shown_word};
ghost use Rattle.annals.specs.Shown.{shown_in, AreListed, IsTakenAtMoment};

use crate::chains::{Chained, Family, Front, Nothing};
use crate::deed::HistoryEntry;
use logbook::{Offer, Plain, Play, Word};
use std::marker::PhantomData;

/// A step that reads how many programs readers see.
struct Count;

impl Play<HistoryEntry, u64> for Count {
    ghost then = { Counts };
}

/// A step that shows one program more.
struct Raise;

impl Play<HistoryEntry, u64> for Raise {
    ghost then = { Raises };
}

impl Plain<(), HistoryEntry, u64> for Raise {
    ghost ask = { λ _. showing };

    ghost state = { λ _. None };
}

/// The word that says how many of the published programs readers see. The publisher and the readers share it.
#[derive(Drop)]
pub struct PublishedCount<J: Family> {
    pub(crate) word: Word<HistoryEntry, u64, Chained>,
    pub(crate) of: PhantomData<J>,
    ghost word_is: { word ≡ chain_word_of J.book shown_word },
}

impl<J: Family> PublishedCount<J> {
    /// How many programs readers see, at the end of the history that somebody has then seen.
    pub fn count(&self, front: &mut Front<J>) -> u64
        ensures seen { IsPrefix front.old front.new }
        ensures shown { shown_in front.new ≡ result }
    {
        let mut offer: Offer<HistoryEntry, u64, Chained, Nothing> = front
            .seen
            .plain::<Nothing, (), Raise>(&());
        self.word
            .load::<Count, Nothing>(&mut front.seen, &mut offer)
    }

    /// Shows the program of that number, if the one before it is the last that readers see. So if they saw that one,
    /// they see this. The condition is a program that was published.
    pub fn raise(&self, front: &mut Front<J>, count: u64)
        requires some { 0 < count }
        requires published { count ≤ length (publishes_of front.old) }
        ensures seen { IsPrefix front.old front.new }
        ensures shown { count ≤ shown_in front.old + 1 → count ≤ shown_in front.new }
    {
        let mut offer: Offer<HistoryEntry, u64, Chained, Nothing> = front
            .seen
            .plain::<Nothing, (), Raise>(&());
        let mut pen = front.seen.no_pen();
        let _found = self
            .word
            .compare_exchange::<Raise, Nothing>(
                count - 1,
                count,
                &mut front.seen,
                &mut offer,
                &mut pen,
            );
    }

    /// Readers saw `least` programs, and then one reader got a table of `count`, of which `table` is what its publisher
    /// had seen. It is as if the reader got it at one moment in between, at which readers saw exactly these programs.
    /// No program was shown before that moment that the table does not have, and none that it has came later. If the
    /// table has fewer than were seen, the call gives `false` (no test met that).
    pub fn settle(&self, front: &mut Front<J>, least: u64, table: &Front<J>, count: u64) -> bool
        requires least { least ≡ shown_in front.old }
        requires count { count ≡ length (publishes_of table.now) }
        ensures seen { IsPrefix front.old front.new }
        ensures table { IsPrefix table.now front.new }
        ensures taken { result ≡ true → IsTakenAtMoment front.old front.new (publishes_of table.now) }
        ensures shown { count ≤ shown_in front.new }
        ensures listed { AreListed front.new }
    {
        front.learn(table);
        for shown in least..count {
            self.raise(front, shown + 1);
        }
        front.is_listed();
        least <= count
    }
}

impl<J: Family> Front<J> {
    /// A law and no work: at each moment that was seen, readers saw no more programs than had been published.
    fn is_listed(&self)
        ensures { AreListed self.now }
    {
        let mut again = self.seen.again();
        again.learn(&self.seen);
    }
}
