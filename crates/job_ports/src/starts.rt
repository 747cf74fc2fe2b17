//! What is done at a node of threads before its first packet: its banks begin with their contents.

ghost use Rattle.std.specs.Prelude.{◌≡◌, ◌≤◌, [], IfOk, OnOk, length, map, true};
ghost use Rattle.annals.specs.Chains.{instrument};
ghost use Rattle.bank.specs.Records.{extent_of};
ghost use Rattle.job_config.specs.OwnNodes.{fit};
ghost use Rattle.job_ports.specs.Starts.{SetsAll, SetsFirst};
ghost use Rattle.node_parts.specs.Nodes.{are_within, is_within, range_of};
ghost use Rattle.target.specs.Unshared.{covers_at};

use bank::{BankFault, Journal};
use job_config::own_node::Contents;
use node_parts::BankConfig;
use std::alloc::{AllocError, Global};
use std::sync::Wait;
use target::{Family, Front, Line, UnsharedNode};

/// Why the journal of a bank within its limits could not be made: memory was refused.
fn refused(fault: BankFault) -> AllocError
    requires { fault ≡ BankFault.Memory }
{
    match fault {
        BankFault::Memory => AllocError,
        BankFault::Size => unreachable!(),
    }
}

/// An empty journal of a bank within its limits.
fn journal(alloc: Global, bank: &BankConfig) -> Result<Journal, AllocError>
    requires { is_within bank.now ≡ true }
    ensures { IfOk result (λ journal. journal.entries ≡ []) }
{
    match Journal::new(alloc, bank.room) {
        Ok(journal) => Ok(journal),
        Err(fault) => Err(refused(fault)),
    }
}

/// Puts bytes at the beginning of the bank of that number, as its instrument does. If there are no bytes, it changes
/// nothing.
fn set_first<J: Family, R: Wait + Drop>(
    alloc: Global,
    node: &mut UnsharedNode<J, R>,
    number: u8,
    line: &mut Line<J>,
    known: &mut Front<J>,
    bank: &BankConfig,
    bytes: &[u8],
) -> Result<(), AllocError>
    requires line { line.old.port ≡ instrument }
    requires within { is_within bank.now ≡ true }
    requires inside { covers_at node.old number bank.now.base (length bytes.now) ≡ true }
    ensures set { OnOk result (SetsFirst number bank.now.base bytes.now known.old known.new) }
    ensures line { line.new.port ≡ instrument }
    ensures extents { map extent_of node.new ≡ map extent_of node.old }
{
    if bytes.is_empty() {
        return Ok(());
    }
    let fresh = journal(alloc, bank)?;
    node.set(number, known, line, bank.base, bytes, fresh);
    Ok(())
}

/// Puts the contents of each bank of a fresh node at its beginning.
pub(crate) fn set_all<J: Family, R: Wait + Drop>(
    alloc: Global,
    node: &mut UnsharedNode<J, R>,
    line: &mut Line<J>,
    known: &mut Front<J>,
    banks: &[BankConfig],
    contents: &[Contents],
) -> Result<(), AllocError>
    requires line { line.old.port ≡ instrument }
    requires within { are_within banks.now ≡ true }
    requires fit { fit banks.now contents.now ≡ true }
    requires banks { map extent_of node.old ≡ map range_of banks.now }
    ensures sets { OnOk result (SetsAll banks.now contents.now (length banks.now) known.old known.new) }
    ensures extents { map extent_of node.new ≡ map range_of banks.now }
{
    let count = banks.len() as u8;
    for number in 0..count {
        let place = usize::from(number);
        let bank = &banks[place];
        let bytes = contents[place].bytes();
        set_first(alloc, node, number, line, known, bank, bytes)?;
    }
    Ok(())
}
