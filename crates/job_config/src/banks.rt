//! The banks of a node's file.

ghost use Rattle.std.specs.Prelude.{◌≡◌, ◌∷◌, ◌&&◌, [], IfErr, IfOk, Ok, length, nat_le, true};
ghost use Rattle.job_config.specs.Configured.{bank_in, banks_at, each, greatest_size, next_bank};
ghost use Rattle.job_config.specs.Faults.{IsFaultOf};
ghost use Rattle.job_config.specs.OwnNodes.{own_bank};
ghost use Rattle.node_parts.specs.Nodes.{are_within, is_within};
ghost use Rattle.std.specs.List.{list_all};
ghost use Rattle.toml.specs.View.{items_view, table_view, view};

use crate::faults::ConfigFault;
use crate::numbers::number_at_key;
use crate::own_node::OWN_BANK;
use crate::places::{NumberKey, TableKind, TablePlace};
use crate::tables::{list_at, table_in};
use bank::{MAX_ROOM, MAX_SIZE};
use node_parts::BankConfig;
use rmap::MAX_BANKS;
use std::alloc::{AllocError, Global};
use toml::{Table, Value};

/// The greatest size of a bank at an address: its last byte is at most at the last address.
pub(crate) fn greatest_size(base: u32) -> u32
    ensures { result ≡ greatest_size base }
{
    let following = u32::MAX - base;
    if following < MAX_SIZE {
        following + 1
    } else {
        MAX_SIZE
    }
}

/// The bank of a table.
#[tactic(auto, unfolding(crate::specs::Configured::bank_in))]
fn bank_in(item: &Value, number: usize) -> Result<BankConfig, ConfigFault>
    ensures value { result ≡ bank_in number (view item.now) }
    ensures within { IfOk result (λ bank. is_within bank ≡ true) }
{
    let place = TablePlace {
        kind: TableKind::Bank,
        number,
    };
    let table = table_in(item, place)?;
    let base = number_at_key(table, place, NumberKey::Base, 0, u32::MAX)?;
    let size = number_at_key(table, place, NumberKey::Size, 1, greatest_size(base))?;
    let room = number_at_key(table, place, NumberKey::Journal, 1, MAX_ROOM)?;
    Ok(BankConfig { base, size, room })
}

/// The banks of a list of tables.
fn banks_in(alloc: Global, list: &[Value]) -> Result<Vec<BankConfig>, ConfigFault>
    ensures ok { IfOk result (λ banks. each next_bank [] (items_view list.now) ≡ Ok banks.items) }
    ensures err { IfErr result (IsFaultOf (each next_bank [] (items_view list.now))) }
    ensures within { IfOk result (λ banks. list_all is_within banks.items ≡ true) }
    ensures count { IfOk result (λ banks. length banks.items ≡ length list.now) }
{
    let mut banks = Vec::new(alloc);
    for item in list {
        let bank = bank_in(item, banks.len())?;
        banks.push(bank)?;
    }
    Ok(banks)
}

/// The bank of a node for which no bank is given.
fn own_banks(alloc: Global) -> Result<Vec<BankConfig>, AllocError>
    ensures { IfOk result (λ banks. banks.items ≡ own_bank ∷ []) }
{
    let mut banks = Vec::new(alloc);
    banks.push(OWN_BANK)?;
    Ok(banks)
}

/// Whether a node may have this many banks.
pub(crate) fn is_count(count: usize) -> bool
    ensures { result ≡ (nat_le 1 count && nat_le count 8) }
{
    1 <= count && count <= MAX_BANKS
}

/// The banks of a file, by their extended address.
///
/// # Errors
///
/// `NoList` if what the file has there is no list, and `BadCount` if the list does not have 1 to 8 items. Else the
/// first fault of an item: `NoTable`, or `BadNumber` for its base, its size or its journal. `Memory` if memory was
/// refused.
#[tactic(auto, using(crate::proofs::Each::count_view), unfolding(crate::specs::Configured::banks_at))]
pub fn banks_of(alloc: Global, table: &Table) -> Result<Vec<BankConfig>, ConfigFault>
    ensures ok { IfOk result (λ banks. banks_at (table_view table.now) ≡ Ok banks.items) }
    ensures err { IfErr result (IsFaultOf (banks_at (table_view table.now))) }
    ensures within { IfOk result (λ banks. are_within banks.items ≡ true) }
{
    let Some(list) = list_at(table, TableKind::Bank)? else {
        return Ok(own_banks(alloc)?);
    };
    let count = list.len();
    if !is_count(count) {
        return Err(ConfigFault::BadCount {
            kind: TableKind::Bank,
            count,
        });
    }
    banks_in(alloc, list)
}
