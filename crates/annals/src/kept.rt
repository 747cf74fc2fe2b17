//! A bank with its chain, as a lock guards it.

ghost use Rattle.std.specs.Prelude.{◌≡◌, ◌<◌, ◌+◌, ℕ, [], IfSome, IfNone, length, true, false};
ghost use Rattle.bank.specs.Records.{after_command, after_rotation, after_setting, answer_of, covers, entry_of, fits, is_place_of, memory_of, next_share, number_left};
ghost use Rattle.annals.specs.declared.deed.Act.TheVariants.{Leaves, Rotates, Sets};
ghost use Rattle.annals.specs.declared.deed.Deed.TheVariants.{Does};
ghost use Rattle.annals.specs.Banks.{CountsOn, IsAppliedTo, IsDoneAtBank, IsFresh, IsRefusedAt, takes};
ghost use Rattle.annals.specs.Chains.{IsLastDeed, chain_of, instrument, line_with};
ghost use mathlib.Core.List.{IsPrefix};

use crate::chains::{Chain, EmptyHistory, Family, Front};
use crate::deed::{Rotation, Setting};
use crate::line::Line;
use bank::{Applied, Bank, Journal, Judged, Share};
use rmap::{Place, ReplyBuf};
use std::marker::Model;
use std::ops::Deref;

/// A bank, its number, and its chain of the history. The bank's memory is the replay of the chain. There the entries of
/// each port are numbered from 0 up to the bank's count of them, each once.
#[derive(Drop)]
pub struct Kept<J: Family> {
    number: u8,
    bank: Bank,
    chain: Chain<J>,
}

impl<J: Family> Model for Kept<J> {
    ghost use Rattle.std.specs.Prelude.{◌≡◌};
    ghost use Rattle.annals.specs.Banks.{KeptValue, IsBankKept};

    ghost Value = { KeptValue };

    ghost view = { λ k. record { bank = k.bank; chain = k.chain } };

    ghost invariant = { λ k. (k.number ≡ k.chain.number) × IsBankKept k.bank k.chain };
}

impl<J: Family> Kept<J> {
    /// A bank to which no command was applied, with the next chain of a history, which begins with it. If the chain has
    /// an entry already, the call gives `None` (no test met that). The conditions are a bank as [`Bank::new`] makes it,
    /// and a chain that is left.
    pub fn new(number: u8, bank: Bank, opened: &mut EmptyHistory) -> Option<Kept<J>>
        requires family { opened.old.0 ≡ J.book }
        requires number { (number < 9) × (number + opened.old.1 ≡ 42) }
        requires bank { IsFresh bank }
        ensures family { opened.new.0 ≡ opened.old.0 }
        ensures left { opened.new.1 + 1 ≡ opened.old.1 }
        ensures bank { IfSome result (λ kept. kept.bank ≡ bank) }
        ensures number { IfSome result (λ kept. kept.chain.number ≡ number) }
    {
        let (first, size) = bank.range();
        let chain = opened.chain((first, size, bank.room()))?;
        Some(Kept {
            number,
            bank,
            chain,
        })
    }

    /// The number of the bank.
    pub fn number(&self) -> u8
        ensures { result ≡ self.now.chain.number }
    {
        self.number
    }

    /// Does a judged command, as [`Bank::apply`] does. If it leaves an entry, that is the last of a history which goes
    /// on from what the port knew. Status and reply are then the definition's on the replay of what was before it.
    fn apply(
        &mut self,
        front: &mut Front<J>,
        line: &mut Line<J>,
        share: &mut Share,
        judged: Judged,
        reply: &mut ReplyBuf,
    ) -> Applied
        requires line { line.old.port ≡ share.old.port }
        requires place { is_place_of self.old.chain.number judged.place ≡ true }
        requires fits { fits self.old.bank share.old judged ≡ true }
        ensures bank { self.new.bank ≡ after_command self.old.bank share.old judged }
        ensures share { share.new ≡ next_share self.old.bank share.old judged }
        ensures status { result.status ≡ (answer_of self.old.bank judged).status }
        ensures memory { memory_of self.new.bank ≡ (answer_of self.old.bank judged).memory }
        ensures reply { reply.new ≡ (answer_of self.old.bank judged).reply }
        ensures number { result.number ≡ number_left self.old.bank share.old judged }
        ensures chain { self.new.chain.number ≡ self.old.chain.number }
        ensures done { IfSome result.number
            (λ n. IsDoneAtBank self.old.chain.number front.old front.new share.old judged result reply.new) }
        ensures full { IfNone result.number (front.new ≡ front.old) }
        ensures asked { IfSome result.number (λ n. line.new
            ≡ line_with line.old self.old.chain.number (Leaves (entry_of share.old judged result.status))) }
        ensures unasked { IfNone result.number (line.new ≡ line.old) }
        ensures counted { CountsOn self.old.chain.number share.old share.new line.old line.new }
    {
        let applied = self.bank.apply(share, judged, reply);
        if applied.number.is_some() {
            let Some(entry) = self.bank.entries().last() else {
                unreachable!()
            };
            line.leave(front, &mut self.chain, self.number, entry);
        }
        applied
    }

    /// Whether the place is this bank.
    pub fn is_at(&self, place: Place) -> bool
        ensures { result ≡ is_place_of self.now.chain.number place }
    {
        match place {
            Place::Bank(k) => k == self.number,
            Place::Staging | Place::LoadResult | Place::Control => false,
        }
    }

    /// Ends a judged command. If its place is this bank and it fits ([`Bank::fits`]), the bank does it. Otherwise the
    /// answer is a general error, and all is as it was.
    ///
    /// If the command leaves an entry, the port's line asked for it. The entry is the last of a history which goes on
    /// from what the port knew. Status and reply are then the definition's on the replay of what was before it. The
    /// condition is a line and a share of one port.
    pub fn finish(
        &mut self,
        front: &mut Front<J>,
        line: &mut Line<J>,
        share: &mut Share,
        judged: Judged,
        reply: &mut ReplyBuf,
    ) -> Applied
        requires { line.old.port ≡ share.old.port }
        ensures done { IfSome result.number
            (λ n. IsDoneAtBank self.old.chain.number front.old front.new share.old judged result reply.new) }
        ensures none { IfNone result.number (front.new ≡ front.old) }
        ensures asked { IfSome result.number (λ n. line.new
            ≡ line_with line.old self.old.chain.number (Leaves (entry_of share.old judged result.status))) }
        ensures unasked { IfNone result.number (line.new ≡ line.old) }
        ensures counted { CountsOn self.old.chain.number share.old share.new line.old line.new }
        ensures applied { takes self.old share.old judged ≡ true
            → IsAppliedTo self.old.bank self.new.bank share.old share.new judged result reply.new }
        ensures refused { takes self.old share.old judged ≡ false
            → IsRefusedAt self.old self.new share.old share.new judged result reply.new }
        ensures number { self.new.chain.number ≡ self.old.chain.number }
    {
        if !self.is_at(judged.place()) {
            return Applied {
                status: judged.answer_elsewhere(self.number, reply),
                number: None,
            };
        }
        if !self.bank.fits(share, &judged) {
            return Applied {
                status: judged.answer_error(&self.bank, share, reply),
                number: None,
            };
        }
        self.apply(front, line, share, judged, reply)
    }

    /// Begins a new journal and hands the old one out, as [`Bank::rotate`] does, and adds that to the history, as the
    /// instrument's line asks. The conditions are the instrument's line, and an empty `fresh`.
    pub fn rotate(&mut self, front: &mut Front<J>, line: &mut Line<J>, fresh: Journal) -> Journal
        requires line { line.old.port ≡ instrument }
        requires empty { fresh.entries ≡ [] }
        ensures bank { self.new.bank ≡ after_rotation self.old.bank fresh }
        ensures journal { result ≡ self.old.bank.journal }
        ensures number { self.new.chain.number ≡ self.old.chain.number }
        ensures last { IsLastDeed self.old.chain.number front.old front.new (Does (Rotates fresh.room)) }
        ensures asked { line.new ≡ line_with line.old self.old.chain.number (Rotates fresh.room) }
    {
        let room = fresh.journal_room_left();
        let journal = self.bank.rotate(fresh);
        line.leave(front, &mut self.chain, self.number, &Rotation { room });
        journal
    }

    /// Puts bytes at an address without a command, as [`Bank::set`] does, and adds that to the history, as the
    /// instrument's line asks. The conditions are the instrument's line, an empty `fresh`, and bytes that lie inside
    /// ([`Bank::covers`]).
    pub fn set(
        &mut self,
        front: &mut Front<J>,
        line: &mut Line<J>,
        address: u32,
        bytes: &[u8],
        fresh: Journal,
    ) -> Journal
        requires line { line.old.port ≡ instrument }
        requires empty { fresh.entries ≡ [] }
        requires inside { covers self.old.bank address (length bytes.now) ≡ true }
        ensures bank { self.new.bank ≡ after_setting self.old.bank address bytes.now fresh }
        ensures journal { result ≡ self.old.bank.journal }
        ensures number { self.new.chain.number ≡ self.old.chain.number }
        ensures last { IsLastDeed self.old.chain.number front.old front.new
            (Does (Sets (address, bytes.now))) }
        ensures asked { line.new
            ≡ line_with line.old self.old.chain.number (Sets (address, bytes.now)) }
    {
        let journal = self.bank.set(address, bytes, fresh);
        line.leave(
            front,
            &mut self.chain,
            self.number,
            &Setting { address, bytes },
        );
        journal
    }

    /// Whatever a port knows of this bank begins what is known here, which is all of it.
    pub fn knows_all(&mut self, front: &Front<J>)
        ensures begins { IsPrefix (chain_of self.old.chain.number front.now)
            (chain_of self.old.chain.number self.old.chain.log) }
        ensures same { self.new ≡ self.old }
    {
        self.chain.begins_with(front);
    }
}

impl<J: Family> Deref for Kept<J> {
    type Target = Bank;

    ghost use Rattle.std.specs.Prelude.{◌≡◌};

    fn deref(&self) -> &Bank
        ensures { result.now ≡ self.now.bank }
    {
        &self.bank
    }
}
