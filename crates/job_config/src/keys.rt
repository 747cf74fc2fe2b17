//! The keys that tables of a node's file have.

ghost use Rattle.std.specs.Prelude.{◌≡◌, IfErr, IfOk, None, Some, option_map};
ghost use Rattle.job_config.specs.Configured.{IsKeyFault, unknown, unknown_among, unknown_at_all, unknown_key, unknown_of_kind};
ghost use Rattle.toml.specs.View.{items_view, table_view};

use crate::faults::{ConfigFault, NameWord};
use crate::places::{TableKind, TablePlace};
use crate::tables::{OWN, held};
use std::alloc::Global;
use toml::{Table, Value};

/// The first key of a table that none of this kind may have, by the bytes of keys.
fn unknown_key(table: &Table, kind: TableKind) -> Option<&str>
    ensures { option_map (λ key. key.now) result ≡ unknown_key kind (table_view table.now) }
{
    for (key, _value) in table.iter() {
        if !kind.knows(key.as_str()) {
            return Some(key.as_str());
        }
    }
    None
}

/// Refuses a table with a key that it may not have.
fn check_table(alloc: Global, table: &Table, place: TablePlace) -> Result<(), ConfigFault>
    ensures ok { IfOk result
        (λ _. unknown place (unknown_key place.kind (table_view table.now)) ≡ None) }
    ensures err { IfErr result
        (IsKeyFault (unknown place (unknown_key place.kind (table_view table.now)))) }
{
    match unknown_key(table, place.kind) {
        Some(key) => {
            let key = NameWord::new(alloc, key)?;
            Err(ConfigFault::UnknownKey { place, key })
        }
        None => Ok(()),
    }
}

/// Refuses a list if one of its tables has a key that it may not have.
fn check_list(alloc: Global, list: &[Value], kind: TableKind) -> Result<(), ConfigFault>
    ensures ok { IfOk result (λ _. unknown_among kind 0 (items_view list.now) ≡ None) }
    ensures err { IfErr result (IsKeyFault (unknown_among kind 0 (items_view list.now))) }
{
    let mut number = 0;
    for item in list {
        if let Some(table) = item.as_table() {
            check_table(alloc, table, TablePlace { kind, number })?;
        }
        number += 1;
    }
    Ok(())
}

/// Refuses a file if one of its tables of this kind has a key that it may not have.
fn check_kind(alloc: Global, table: &Table, kind: TableKind) -> Result<(), ConfigFault>
    ensures ok { IfOk result (λ _. unknown_of_kind (table_view table.now) kind ≡ None) }
    ensures err { IfErr result (IsKeyFault (unknown_of_kind (table_view table.now) kind)) }
{
    let Some(value) = held(table, kind.word()) else {
        return Ok(());
    };
    match value.as_array() {
        Some(list) => check_list(alloc, list.as_slice(), kind),
        None => Ok(()),
    }
}

/// Refuses a file if one of its tables has a key that it may not have: the node's own first, then those of banks, maps
/// and publishes.
///
/// # Errors
///
/// `UnknownKey` for the first such key, or `Memory` if memory was refused.
pub fn check_keys(alloc: Global, table: &Table) -> Result<(), ConfigFault>
    ensures ok { IfOk result (λ _. unknown_at_all (table_view table.now) ≡ None) }
    ensures err { IfErr result (IsKeyFault (unknown_at_all (table_view table.now))) }
{
    check_table(alloc, table, OWN)?;
    check_kind(alloc, table, TableKind::Bank)?;
    check_kind(alloc, table, TableKind::Map)?;
    check_kind(alloc, table, TableKind::Publish)
}
