//! The history, and the right to add to a chain of it. It exists only in proofs.

ghost use Rattle.std.specs.Prelude.{◌≡◌, ◌<◌, ◌≤◌, ◌+◌, ◌∷◌, ◌++◌, ◌⊎◌, ℕ, List, [], length, IfSome};
ghost use mathlib.Core.List.{IsPrefix};
ghost use Rattle.logbook.specs.Pages.{may_write};
ghost use Rattle.annals.specs.declared.deed.HistoryEntry.{HistoryEntry};
ghost use Rattle.annals.specs.Chains.{chain_word_of, chain_of, asked_in, IsDue, IsLastOf, IsChainWhole};
ghost use Rattle.annals.specs.Banks.{memory_after, zeros, entries_of};
ghost use Rattle.annals.specs.Publishes.{publishes_in};

use crate::deed::{Announces, HistoryEntry, OpensBank};
use crate::published_count::PublishedCount;
use logbook::{Gain, Offer, Opening, Pen, Pens, Plain, Play, Rule, Seen, Start, Word};
use std::marker::{Brand, Model, PhantomData};

/// The rule of the history. Each entry of a chain, except its last, names a cell that is at home. One word counts the
/// programs that readers see.
pub(crate) struct Chained;

impl Rule<HistoryEntry, u64> for Chained {
    ghost use Rattle.std.specs.Prelude.{[]};
    ghost use base.Fml.{ftrue};
    ghost use Rattle.annals.specs.Rule.{AreChained};

    ghost holds = { λ cells log. AreChained cells log };

    ghost first = { [] };

    ghost hinted = { λ n log. Unit {0} };

    ghost shows = { λ log. [] };

    ghost keeps = { λ names log. ftrue };

    ghost moves = { λ ask before after answer. Unit {0} };
}

/// The history begins empty.
struct Empty;

impl Opening<(), HistoryEntry> for Empty {
    ghost use Rattle.std.specs.Prelude.{[]};

    ghost log = { λ n _. [] };
}

/// Callers trade nothing.
pub(crate) struct Nothing;

impl Gain<HistoryEntry, u64> for Nothing {
    ghost use base.Fml.{ftrue};

    ghost after = { λ names about answer. ftrue };
}

/// What a step adds to a chain: a deed, and the pen that adds the next one.
#[derive(Drop)]
struct Adding<'a, D: Announces> {
    word: &'a Word<HistoryEntry, u64, Chained>,
    seen: &'a Seen<HistoryEntry, u64, Chained>,
    reported: &'a D,
    fresh: &'a Pen,
}

/// A step that gives a pen of a new cell.
struct Draw;

impl Play<HistoryEntry, u64> for Draw {
    ghost use Rattle.annals.specs.Chains.{Draws};

    ghost then = { Draws };
}

impl Plain<(), HistoryEntry, u64> for Draw {
    ghost use Rattle.std.specs.Prelude.{None};
    ghost use Rattle.annals.specs.Chains.{blank};

    ghost ask = { λ _. blank };

    ghost state = { λ _. None };
}

/// A step that adds the first entry of a chain.
struct Begin;

impl Play<HistoryEntry, u64> for Begin {
    ghost use Rattle.annals.specs.Chains.{Begins};

    ghost then = { Begins };
}

/// A step that adds an entry.
struct Add;

impl Play<HistoryEntry, u64> for Add {
    ghost use Rattle.annals.specs.Chains.{Adds};

    ghost then = { Adds };
}

/// A step that looks whether the chain is longer.
struct Look;

impl Play<HistoryEntry, u64> for Look {
    ghost use Rattle.annals.specs.Chains.{Looks};

    ghost then = { Looks };
}

impl<'a, D: Announces> Plain<Adding<'a, D>, HistoryEntry, u64> for Add {
    ghost use Rattle.std.specs.Prelude.{None, length};
    ghost use Rattle.annals.specs.Chains.{link, chain_of};

    ghost ask = { λ x. link x.word.now.key (length (chain_of x.word.now.key x.seen.now.log)) (D.deed x.reported.now) x.fresh.now.nib.key };

    ghost state = { λ x. None };
}

/// Which node's history it is. Each call of a program picks it.
pub trait Family {
    ghost use Rattle.logbook.specs.Pages.{Book};

    ghost book: { Book };
}

impl Family for Brand {
    ghost book = { record { number = 0; log_name = 0; cells_name = 0 } };
}

/// A pen of a new cell.
fn drawn(word: &Word<HistoryEntry, u64, Chained>, seen: &Seen<HistoryEntry, u64, Chained>) -> Pen
    requires word { word.now ≡ chain_word_of seen.now.book word.now.key }
    requires few { word.now.key < 42 }
    ensures book { result.book ≡ seen.now.book }
    ensures right { result.nib.right ≡ may_write }
{
    let mut seen = seen.again();
    let mut offer: Offer<HistoryEntry, u64, Chained, Nothing> = seen.plain::<Nothing, (), Draw>(
        &(),
    );
    let mut pen = seen.no_pen();
    let _one = word.compare_exchange::<Draw, Nothing>(1, 1, &mut seen, &mut offer, &mut pen);
    let _cell: Word<HistoryEntry, u64, Chained> = Word::tracked(0, &mut pen);
    pen
}

/// An empty history, which belongs to no node yet, and the rights to its chains. Contracts see it as its book, and as
/// how many chains it has left.
#[derive(Drop)]
pub struct EmptyHistory {
    pens: Pens,
    seen: Seen<HistoryEntry, u64, Chained>,
}

impl Model for EmptyHistory {
    ghost use Rattle.std.specs.Prelude.{◌≡◌, ◌<◌, ◌+◌, ◌-◌, ℕ, []};
    ghost use Rattle.logbook.specs.Pages.{Book};

    ghost Value = { Book × ℕ };

    ghost view = { λ o. (o.seen.book, o.pens.left - 1) };

    ghost invariant = { λ o. (o.pens.book ≡ o.seen.book) × (o.pens.next + o.pens.left ≡ 43) × (0 < o.pens.left) × (o.seen.log ≡ []) };
}

impl EmptyHistory {
    /// Opens a history.
    pub fn new() -> EmptyHistory
        ensures { result.1 ≡ 42 }
    {
        let (seen, pens) = Seen::open_row::<(), Empty>(&(), Start::alone(), 43);
        EmptyHistory { pens, seen }
    }

    /// What nobody has added to yet.
    pub fn front<J: Family>(&self) -> Front<J>
        requires { self.now.0 ≡ J.book }
        ensures { result ≡ [] }
    {
        Front {
            seen: self.seen.again(),
            of: PhantomData,
        }
    }

    /// Leaves that many chains out: nobody adds to them.
    pub fn skip(&mut self, count: u8)
        requires { count ≤ self.old.1 }
        ensures left { self.new.1 + count ≡ self.old.1 }
        ensures family { self.new.0 ≡ self.old.0 }
    {
        let mut left = count;
        while left > 0 {
            let _pen = self.pens.take();
            left -= 1;
        }
    }

    /// The next chain, with its first entry. It is the chain of a bank with that many zero bytes from an address on,
    /// and room for that many entries in its journal. If it has an entry already, the call gives `None` (no test met
    /// that). The condition is a chain that is left.
    pub fn chain<J: Family>(&mut self, opening: (u32, u32, u32)) -> Option<Chain<J>>
        requires family { self.old.0 ≡ J.book }
        requires left { 0 < self.old.1 }
        ensures left { self.new.1 + 1 ≡ self.old.1 }
        ensures family { self.new.0 ≡ self.old.0 }
        ensures number { IfSome result (λ c. c.number + self.old.1 ≡ 42) }
        ensures memory { IfSome result (λ c. memory_after c.number c.log ≡ zeros (opening.0, opening.1)) }
        ensures entries { IfSome result (λ c. entries_of c.number c.log ≡ []) }
        ensures asked { IfSome result (λ c. asked_in (chain_of c.number c.log) ≡ []) }
        ensures publishes { IfSome result (λ c. publishes_in (chain_of c.number c.log) ≡ []) }
    {
        let mut pen = self.pens.take();
        let head: Word<HistoryEntry, u64, Chained> = Word::tracked(0, &mut pen);
        let mut seen = self.seen.again();
        let fresh = drawn(&head, &seen);
        let opening = OpensBank(opening);
        let mut offer: Offer<HistoryEntry, u64, Chained, Nothing> = seen.plain::<
            Nothing,
            Adding<OpensBank>,
            Add,
        >(&Adding {
            word: &head,
            seen: &seen,
            reported: &opening,
            fresh: &fresh,
        });
        let mut none = seen.no_pen();
        let found = head.compare_exchange::<Begin, Nothing>(0, 1, &mut seen, &mut offer, &mut none);
        if found != 0 {
            return None;
        }
        Some(Chain {
            word: head,
            pen: fresh,
            seen,
            of: PhantomData,
        })
    }
}

impl EmptyHistory {
    /// The word that counts the programs which readers see. The condition is a history of which all chains are taken or
    /// left out.
    pub fn into_published_count<J: Family>(self) -> PublishedCount<J>
        requires family { self.0 ≡ J.book }
        requires none { self.1 ≡ 0 }
    {
        let EmptyHistory { mut pens, seen: _ } = self;
        let mut pen = pens.take();
        PublishedCount {
            word: Word::tracked(0, &mut pen),
            of: PhantomData,
        }
    }
}

/// A chain of the history, whole, and the right to add to it. Contracts see it as its number, and as what is known of
/// the history, with all that the chain has.
#[derive(Drop)]
pub struct Chain<J: Family> {
    word: Word<HistoryEntry, u64, Chained>,
    pen: Pen,
    pub(crate) seen: Seen<HistoryEntry, u64, Chained>,
    of: PhantomData<J>,
}

impl<J: Family> Model for Chain<J> {
    ghost use Rattle.annals.specs.Chains.{ChainValue, IsChainHeld};

    ghost Value = { ChainValue };

    ghost view = { λ h. record { number = h.word.key; log = h.seen.log } };

    ghost invariant = { λ h. IsChainHeld J.book h.word h.pen.book h.pen.nib h.seen.book h.seen.log };
}

impl<J: Family> Chain<J> {
    /// Somebody learns all that is known of the chain.
    pub(crate) fn announce(&self, front: &mut Front<J>)
        ensures chain { IsPrefix self.now.log front.new }
        ensures front { IsPrefix front.old front.new }
    {
        front.seen.learn(&self.seen);
    }

    /// Adds a deed, after all that somebody has seen, who then has seen it too. The conditions are one who has seen all
    /// that is known of the chain, and a deed that may be the next.
    pub(crate) fn push<D: Announces>(&mut self, front: &mut Front<J>, reported: &D)
        requires begins { IsPrefix self.old.log front.old }
        requires due { IsDue self.old.number (D.deed reported.now) front.old }
        ensures number { self.new.number ≡ self.old.number }
        ensures log { self.new.log ≡ front.new }
        ensures added { IsLastOf self.old front.old front.new (D.deed reported.now) }
    {
        let fresh = drawn(&self.word, &self.seen);
        let mut offer: Offer<HistoryEntry, u64, Chained, Nothing> = front
            .seen
            .plain::<Nothing, Adding<D>, Add>(&Adding {
                word: &self.word,
                seen: &self.seen,
                reported,
                fresh: &fresh,
            });
        let _one = self
            .word
            .compare_exchange::<Add, Nothing>(1, 1, &mut front.seen, &mut offer, &mut self.pen);
        self.pen = fresh;
        self.seen = front.seen.again();
    }

    /// Adds a deed, after all that is known of the chain and all that somebody has seen, who then has seen it too. The
    /// condition is a deed of no command.
    pub(crate) fn add<D: Announces>(&mut self, front: &mut Front<J>, reported: &D)
        requires free { (log : List HistoryEntry) → IsDue self.old.number (D.deed reported.now) log }
        ensures number { self.new.number ≡ self.old.number }
        ensures log { self.new.log ≡ front.new }
        ensures added { IsLastOf self.old front.old front.new (D.deed reported.now) }
    {
        self.announce(front);
        self.push(front, reported);
    }

    /// What was seen is a beginning of a history of which the chain is whole.
    pub(crate) fn begins_with(&mut self, front: &Front<J>)
        ensures whole { IsChainWhole self.old front.now }
        ensures same { self.new ≡ self.old }
    {
        let opening = OpensBank((0, 0, 0));
        let mut offer: Offer<HistoryEntry, u64, Chained, Nothing> = self
            .seen
            .plain::<Nothing, Adding<OpensBank>, Add>(&Adding {
                word: &self.word,
                seen: &self.seen,
                reported: &opening,
                fresh: &self.pen,
            });
        let mut seen = self.seen.again();
        seen.learn(&front.seen);
        let _one = self
            .word
            .compare_exchange::<Look, Nothing>(1, 1, &mut seen, &mut offer, &mut self.pen);
    }
}

/// A beginning of the history that was seen. Contracts see it as its entries.
#[derive(Drop)]
pub struct Front<J: Family> {
    pub(crate) seen: Seen<HistoryEntry, u64, Chained>,
    pub(crate) of: PhantomData<J>,
}

impl<J: Family> Model for Front<J> {
    ghost use Rattle.std.specs.Prelude.{◌≡◌, List};
    ghost use Rattle.annals.specs.declared.deed.HistoryEntry.{HistoryEntry};

    ghost Value = { List HistoryEntry };

    ghost view = { λ f. f.seen.log };

    ghost invariant = { λ f. f.seen.book ≡ J.book };
}

impl<J: Family> Front<J> {
    /// A copy.
    pub fn again(&self) -> Front<J>
        ensures { result ≡ self.now }
    {
        Front {
            seen: self.seen.again(),
            of: PhantomData,
        }
    }

    /// Learns what another has seen. What each had seen begins what is known then.
    pub fn learn(&mut self, other: &Front<J>)
        ensures this { IsPrefix self.old self.new }
        ensures that { IsPrefix other.now self.new }
    {
        self.seen.learn(&other.seen);
    }

    /// What two have seen: one begins the other.
    pub(crate) fn meets(&self, other: &Front<J>)
        ensures { IsPrefix self.now other.now ⊎ IsPrefix other.now self.now }
    {
        let mut both = self.seen.again();
        both.learn(&other.seen);
    }
}
