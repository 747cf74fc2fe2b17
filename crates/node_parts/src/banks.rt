//! The banks of a node.

ghost use Rattle.std.specs.Prelude.{◌≡◌, ◌<◌, ◌≤◌, length, slice_get, Some, None, OnOk, IfOk, IfErr, true, map};
ghost use Rattle.std.specs.List.{range_with_len, list_all};
ghost use Rattle.bank.specs.Limits.{is_ports};
ghost use Rattle.bank.specs.Records.{first_share};
ghost use Rattle.node_parts.specs.Nodes.{AreDistributed, ArePortShares, AreSharesOf, IsNodeFault, bank_of, fresh_banks, is_within, are_within, limit_fault};

use crate::config::{BankConfig, NodeConfig};
use crate::faults::NodeFault;
use crate::shares::PortShares;
use bank::{Bank, BankFault, Journal, Share, is_bank_size};
use rmap::MAX_BANKS;
use spw::PORTS;
use std::alloc::{AllocError, Global};
use std::marker::Model;

/// The banks of a node, by number.
#[derive(Debug, Drop)]
pub struct Banks {
    banks: Vec<Bank>,
}

impl Model for Banks {
    ghost use Rattle.std.specs.Prelude.{List};
    ghost use Rattle.bank.specs.Records.{BankValue};

    ghost Value = { List BankValue };

    ghost view = { λ b. b.banks.items };
}

/// Whether a bank is within its limits.
fn is_within(bank: &BankConfig) -> bool
    ensures { result ≡ is_within bank.now }
{
    is_bank_size(bank.base, bank.size, bank.room)
}

/// Whether all banks are within their limits.
fn are_all_within(banks: &[BankConfig]) -> bool
    ensures { result ≡ list_all is_within banks.now }
{
    banks.iter().all(is_within)
}

/// Whether a node may have those banks.
fn are_within(banks: &[BankConfig]) -> bool
    ensures { result ≡ are_within banks.now }
{
    1 <= banks.len() && banks.len() <= MAX_BANKS && are_all_within(banks)
}

/// The shares of each port, none yet.
fn empty_shares(alloc: Global, ports: u8) -> Result<Vec<PortShares>, AllocError>
    ensures { IfOk result (λ by_port. ArePortShares 0 ports by_port.items) }
{
    let mut by_port = Vec::with_capacity(alloc, usize::from(ports))?;
    for _port in 0..ports {
        by_port.push(PortShares::new(alloc))?;
    }
    Ok(by_port)
}

/// Gives each port its share of a bank.
fn distribute(by_port: &mut Vec<PortShares>, mut shares: Vec<Share>) -> Result<(), AllocError>
    requires { length shares.items ≡ length by_port.old.items }
    ensures { OnOk result (AreDistributed by_port.old.items shares.items by_port.new.items) }
{
    while let Some(share) = shares.pop() {
        let port = shares.len();
        by_port[port].push(share)?;
    }
    Ok(())
}

/// Why a bank within its limits could not be made: memory was refused.
fn refused(fault: BankFault) -> AllocError
    requires { fault ≡ BankFault.Memory }
{
    match fault {
        BankFault::Memory => AllocError,
        BankFault::Size => unreachable!(),
    }
}

/// A bank, and the share of each port.
fn bank_with_shares(
    alloc: Global,
    bank: &BankConfig,
    ports: u8,
) -> Result<(Bank, Vec<Share>), AllocError>
    requires within { is_within bank.now ≡ true }
    requires ports { is_ports ports ≡ true }
    ensures bank { IfOk result (λ made. made.0 ≡ bank_of ports bank.now) }
    ensures shares { IfOk result (λ made. made.1.items ≡ map first_share (range_with_len 0 ports)) }
{
    let journal = match Journal::new(alloc, bank.room) {
        Ok(journal) => journal,
        Err(fault) => return Err(refused(fault)),
    };
    match Bank::new(alloc, bank.base, bank.size, journal, ports) {
        Ok(made) => Ok(made),
        Err(fault) => Err(refused(fault)),
    }
}

/// The banks, and in `by_port` their shares.
fn make_banks(
    alloc: Global,
    config: &NodeConfig,
    by_port: &mut Vec<PortShares>,
) -> Result<Vec<Bank>, AllocError>
    requires within { list_all is_within config.now.banks.now ≡ true }
    requires ports { is_ports config.now.ports ≡ true }
    requires by_port { ArePortShares 0 config.now.ports by_port.old.items }
    ensures banks { IfOk result (λ banks. banks.items ≡ fresh_banks config.now) }
    ensures by_port { OnOk result (AreSharesOf config.now by_port.new.items) }
{
    let mut banks = Vec::with_capacity(alloc, config.banks.len())?;
    for bank in config.banks {
        let (bank, shares) = bank_with_shares(alloc, bank, config.ports)?;
        distribute(by_port, shares)?;
        banks.push(bank)?;
    }
    Ok(banks)
}

impl Banks {
    ghost use Rattle.std.specs.Borrow.{sem};
    ghost use Rattle.node_parts.specs.Loans.{LendsBank};

    /// Banks of zero bytes, and for each port, in order, its share of each.
    ///
    /// # Errors
    ///
    /// - `Ports`, and then `Banks`, if one of their numbers is outside its limits.
    /// - `Memory` if memory was refused.
    pub fn new(alloc: Global, config: &NodeConfig) -> Result<(Banks, Vec<PortShares>), NodeFault>
        ensures banks { IfOk result (λ made. made.0 ≡ fresh_banks config.now) }
        ensures by_port { IfOk result (λ made. AreSharesOf config.now made.1.items) }
        ensures few_ports { IfOk result (λ _. config.now.ports ≤ PORTS) }
        ensures few_banks { IfOk result (λ _. length config.now.banks.now ≤ MAX_BANKS) }
        ensures limits { IfOk result (λ _. limit_fault config.now ≡ None) }
        ensures fault { IfErr result (IsNodeFault (limit_fault config.now)) }
    {
        if config.ports == 0 || config.ports > PORTS {
            return Err(NodeFault::Ports);
        }
        if !are_within(config.banks) {
            return Err(NodeFault::Banks);
        }
        let mut by_port = empty_shares(alloc, config.ports)?;
        let banks = make_banks(alloc, config, &mut by_port)?;
        Ok((Banks { banks }, by_port))
    }

    /// The banks, by number.
    pub fn into_banks(self) -> Vec<Bank>
        ensures { result.items ≡ self }
    {
        self.banks
    }

    /// How many banks there are.
    pub fn len(&self) -> usize
        ensures { result ≡ length self.now }
    {
        self.banks.len()
    }

    /// The bank of that number. The condition is a number below [`Banks::len`].
    pub fn bank(&self, k: u8) -> &Bank
        requires { k < length self.now }
        ensures { slice_get self.now k ≡ Some result.now }
    {
        &self.banks[usize::from(k)]
    }

    /// The bank of that number, to apply commands to. The condition is a number below [`Banks::len`].
    pub fn bank_mut(&mut self, k: u8) -> &mut Bank
        requires { k < length self.old }
        ensures* writes_back { sem 𝓛 (LendsBank self.entry k result) }
        ensures value { slice_get self.old k ≡ Some result.now }
    {
        &mut self.banks[usize::from(k)]
    }
}
