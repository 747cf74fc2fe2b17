//! A node that is not shared yet.

ghost use Rattle.std.specs.Prelude.{◌≡◌, ◌≤◌, ◌+◌, ◌-◌, [], All, length, map, IfOk, IfErr, None, true};
ghost use base.Stored.{Gv};
ghost use Rattle.std.specs.List.{All};
ghost use Rattle.annals.specs.Banks.{IsFresh};
ghost use Rattle.annals.specs.Chains.{IsLastDeed, instrument, line_with};
ghost use Rattle.annals.specs.Publishes.{publishes_chain, publishes_of};
ghost use Rattle.annals.specs.declared.deed.Act.TheVariants.{Sets};
ghost use Rattle.annals.specs.declared.deed.Deed.TheVariants.{Does};
ghost use Rattle.bank.specs.Records.{extent_of};
ghost use Rattle.cells.specs.Seats.{cells};
ghost use Rattle.node_parts.specs.Nodes.{IsNodeFault, fresh_banks, limit_fault};
ghost use Rattle.publish.specs.Lines.{opening_line};
ghost use Rattle.publish.specs.Firsts.{IsFirstProgram, line_with_firsts};
ghost use Rattle.target.specs.Nodes.{AreInPlace, informed_passes};
ghost use Rattle.target.specs.Passes.{unasked};
ghost use Rattle.target.specs.Unshared.{banks_of, chain_numbers, covers_at, with_setting};

use crate::lock::BankLock;
use crate::node::Node;
use crate::parts::cells_and_passes;
use crate::pass::Pass;
use annals::{BANK_CHAINS, Chain, Family, Front, Kept, Line};
use bank::Journal;
use bver::Accepted;
use cells::Cells;
use node_parts::{Banks, NodeConfig, NodeFault};
use publish::{NodeHistory, Publisher};
use rmap::MAX_BANKS;
use std::alloc::{AllocError, Global};
use std::marker::Model;
use std::sync::Wait;

/// A node that is not shared yet: its banks, each with its chain of one history, and what publishes its programs. No
/// lock hides them, so its owner knows the bank of each number, and can put bytes into it before the first packet. The
/// value of such a node is its banks, in order. [`UnsharedNode::share`] puts a lock round each. Its end waits for
/// readers.
#[derive(Drop)]
pub struct UnsharedNode<J: Family, R: Wait + Drop> {
    banks: Vec<Kept<J>>,
    publisher: Publisher<J, R>,
    front: Front<J>,
}

impl<J: Family, R: Wait + Drop> Model for UnsharedNode<J, R> {
    ghost use Rattle.std.specs.Prelude.{◌≡◌, List, []};
    ghost use Rattle.bank.specs.Records.{BankValue};
    ghost use Rattle.target.specs.Nodes.{AreInPlace};
    ghost use Rattle.target.specs.Unshared.{banks_of, chain_numbers};

    ghost Value = { List BankValue };

    ghost view = { λ n. banks_of n.banks.items };

    ghost invariant = { λ n. AreInPlace (chain_numbers n.banks.items) × (n.front ≡ []) };
}

/// The banks in order, each with its number and the chain of that number in the history. Chains of banks that do not
/// exist are left out.
///
/// # Errors
///
/// `AllocError` if memory was refused, and also if a chain has begun before (no test met that).
fn kept_banks<J: Family>(
    alloc: Global,
    banks: Banks,
    history: &mut annals::EmptyHistory,
) -> Result<Vec<Kept<J>>, AllocError>
    requires family { history.old.0 ≡ J.book }
    requires chains { history.old.1 ≡ 42 }
    requires few { length banks ≤ MAX_BANKS }
    requires fresh { All IsFresh banks }
    ensures banks { IfOk result (λ all. banks_of all.items ≡ banks) }
    ensures numbers { IfOk result (λ all. AreInPlace (chain_numbers all.items)) }
    ensures chains { IfOk result (λ _. history.new.1 + publishes_chain ≡ 42) }
    ensures family { IfOk result (λ _. history.new.0 ≡ history.old.0) }
{
    let mut all = Vec::with_capacity(alloc, banks.len())?;
    let mut number = 0;
    for bank in banks.into_banks() {
        let Some(kept) = Kept::new(number, bank, history) else {
            return Err(AllocError);
        };
        all.push(kept)?;
        number += 1;
    }
    history.skip(BANK_CHAINS - number);
    Ok(all)
}

/// The banks, as [`kept_banks`] makes them, the chain of what is published, which is empty, and the instrument's line,
/// in which nothing was asked for. The lines of ports come after it.
fn banks_and_chain<J: Family>(
    alloc: Global,
    banks: Banks,
    history: &mut annals::EmptyHistory,
) -> Result<(Vec<Kept<J>>, Chain<J>, Line<J>), AllocError>
    requires family { history.old.0 ≡ J.book }
    requires chains { history.old.1 ≡ 42 }
    requires few { length banks ≤ MAX_BANKS }
    requires fresh { All IsFresh banks }
    ensures banks { IfOk result (λ made. banks_of made.0.items ≡ banks) }
    ensures numbers { IfOk result (λ made. AreInPlace (chain_numbers made.0.items)) }
    ensures chain { IfOk result (λ made. made.1.number ≡ publishes_chain) }
    ensures none { IfOk result (λ made. publishes_of made.1.log ≡ []) }
    ensures line { IfOk result (λ made. made.2 ≡ record { port = instrument; asked = [] }) }
    ensures chains { IfOk result (λ _. history.new.1 ≡ 32) }
    ensures family { IfOk result (λ _. history.new.0 ≡ history.old.0) }
{
    let banks = kept_banks(alloc, banks, history)?;
    let Some(chain) = history.publishes() else {
        return Err(AllocError);
    };
    let Some(line) = Line::of_instrument(history) else {
        return Err(AllocError);
    };
    Ok((banks, chain, line))
}

/// Each bank in its lock, in order.
fn locks<J: Family>(alloc: Global, banks: Vec<Kept<J>>) -> Result<Vec<BankLock<J>>, AllocError>
    ensures { IfOk result (λ locks. locks.items ≡ chain_numbers banks.items) }
{
    banks
        .into_iter()
        .map(|kept| {
            let number = kept.number();
            BankLock::new(number, kept)
        })
        .collect(alloc)
}

impl<J: Family, R: Wait + Drop> UnsharedNode<J, R> {
    /// Banks of zero bytes and what publishes programs, as [`Node::with_programs`] has them, with no lock round them.
    /// Beside them is what that call makes: the cells, a pass for each port, and the instrument's line. Conditions and
    /// order of refusals are those of that call.
    ///
    /// # Errors
    ///
    /// Those of [`Node::new`].
    pub fn with_programs(
        alloc: Global,
        rt: R,
        opened: NodeHistory,
        config: &NodeConfig,
        factory: Accepted,
        firsts: &[(u8, Accepted)],
    ) -> Result<(UnsharedNode<J, R>, Cells, Vec<Pass<J>>, Line<J>), NodeFault>
        requires family { opened ≡ J.book }
        requires sizes { factory.sizes ≡ config.now.sizes }
        requires firsts { All (IsFirstProgram config.now.sizes) firsts.now }
        requires few { length firsts.now ≤ 4294967295 }
        ensures banks { IfOk result (λ made. made.0 ≡ fresh_banks config.now) }
        ensures cells { IfOk result
            (λ made. made.1 ≡ cells config.now.sizes made.1.home (256 - config.now.ports) []) }
        ensures passes { IfOk result (λ made.
            made.2.items ≡ unasked (informed_passes config.now factory firsts.now made.1.home)) }
        ensures line { IfOk result (λ made.
            made.3 ≡ line_with_firsts (opening_line factory) firsts.now) }
        ensures instrument { IfOk result (λ made. made.3.port ≡ instrument) }
        ensures limits { IfOk result (λ _. limit_fault config.now ≡ None) }
        ensures fault { IfErr result (IsNodeFault (limit_fault config.now)) }
    {
        let mut history = opened.into_chains();
        let front = history.front();
        let (banks, mut by_port) = Banks::new(alloc, config)?;
        let (banks, chain, mut line) = banks_and_chain(alloc, banks, &mut history)?;
        let (cells, publisher, passes) = cells_and_passes(
            alloc,
            rt,
            chain,
            &mut line,
            history,
            config,
            factory,
            firsts,
            &mut by_port,
        )?;
        let node = UnsharedNode {
            banks,
            publisher,
            front,
        };
        Ok((node, cells, passes, line))
    }

    /// What is known at first of the history of the node's banks: nothing.
    pub fn front(&self) -> Front<J>
        ensures { result ≡ [] }
    {
        self.front.again()
    }

    /// Puts bytes at an address of the bank of that number without a command, as [`Kept::set`] does. It adds that to
    /// the history, as the instrument's line asks. The journal before is dropped. The conditions are the instrument's
    /// line, an empty `fresh`, and bytes that lie in that bank, as its configuration says.
    pub fn set(
        &mut self,
        number: u8,
        front: &mut Front<J>,
        line: &mut Line<J>,
        address: u32,
        bytes: &[u8],
        fresh: Journal,
    )
        requires line { line.old.port ≡ instrument }
        requires empty { fresh.entries ≡ [] }
        requires inside { covers_at self.old number address (length bytes.now) ≡ true }
        ensures banks { self.new ≡ with_setting self.old number address bytes.now fresh }
        ensures extents { map extent_of self.new ≡ map extent_of self.old }
        ensures last { IsLastDeed number front.old front.new (Does (Sets (address, bytes.now))) }
        ensures asked { line.new ≡ line_with line.old number (Sets (address, bytes.now)) }
    {
        let kept = &mut self.banks[usize::from(number)];
        let _journal = kept.set(front, line, address, bytes, fresh);
    }

    /// The node, as threads share it: each bank is in its lock.
    ///
    /// # Errors
    ///
    /// `AllocError` if memory was refused. Then the publisher ends, which may wait.
    pub fn share(self, alloc: Global) -> Result<Node<J, R>, AllocError>
        ensures { IfOk result (λ node. node ≡ length self) }
    {
        let UnsharedNode {
            banks,
            publisher,
            front,
        } = self;
        let locks = locks(alloc, banks)?;
        Ok(Node::of_parts(locks, publisher, front))
    }
}
