//! The tables of a node's file.

ghost use Rattle.std.specs.Prelude.{◌≡◌, IfErr, IfOk, Err, Ok, option_map};
ghost use Rattle.job_config.specs.Configured.{list_at, table_in};
ghost use Rattle.toml.specs.Data.{get_member};
ghost use Rattle.toml.specs.View.{items_view, table_view, view};

use crate::faults::ConfigFault;
use crate::places::{TableKind, TablePlace};
use toml::{Table, Value};

/// The place of the node's own table.
pub const OWN: TablePlace = TablePlace {
    kind: TableKind::Node,
    number: 0,
};

/// What a key of a table holds.
pub fn held<'a>(table: &'a Table, key: &str) -> Option<&'a Value>
    ensures { option_map (λ v. view v.now) result ≡ get_member key.now (table_view table.now) }
{
    table.get(key)
}

/// The list of the tables of a kind, if the file has one.
///
/// # Errors
///
/// `NoList` if the key of the kind holds something else than a list.
pub fn list_at(table: &Table, kind: TableKind) -> Result<Option<&[Value]>, ConfigFault>
    ensures ok { IfOk result (λ list.
        list_at (table_view table.now) kind ≡ Ok (option_map (λ l. items_view l.now) list)) }
    ensures err { IfErr result (λ fault. list_at (table_view table.now) kind ≡ Err fault) }
{
    let Some(value) = held(table, kind.word()) else {
        return Ok(None);
    };
    match value.as_array() {
        Some(list) => Ok(Some(list.as_slice())),
        None => Err(ConfigFault::NoList(kind)),
    }
}

/// The table that an item of such a list is.
///
/// # Errors
///
/// `NoTable` if the item is no table.
pub fn table_in(item: &Value, place: TablePlace) -> Result<&Table, ConfigFault>
    ensures ok { IfOk result (λ table. table_in (view item.now) place ≡ Ok (table_view table.now)) }
    ensures err { IfErr result (λ fault. table_in (view item.now) place ≡ Err fault) }
{
    match item.as_table() {
        Some(table) => Ok(table),
        None => Err(ConfigFault::NoTable(place)),
    }
}
