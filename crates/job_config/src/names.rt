//! The names of files in a node's file.

ghost use Rattle.std.specs.Prelude.{◌≡◌, IfErr, IfOk, Ok, Err, option_map, string_bytes, Some};
ghost use Rattle.job_config.specs.Names.{IsBeside, IsFolder, name_at, path_in};
ghost use Rattle.toml.specs.View.{table_view};

use crate::faults::ConfigFault;
use crate::places::{NameKey, TablePlace};
use crate::tables::held;
use std::alloc::{AllocError, Global};
use toml::Table;

/// The name of a file that a key of a table holds, if the table has the key.
///
/// # Errors
///
/// `NoName` if the key holds no text.
pub fn name_at(table: &Table, place: TablePlace, key: NameKey) -> Result<Option<&str>, ConfigFault>
    ensures ok { IfOk result
        (λ name. name_at (table_view table.now) place key ≡ Ok (option_map (λ n. n.now) name)) }
    ensures err { IfErr result (λ fault. name_at (table_view table.now) place key ≡ Err fault) }
{
    let Some(value) = held(table, key.word()) else {
        return Ok(None);
    };
    match value.as_str() {
        Some(name) => Ok(Some(name)),
        None => Err(ConfigFault::NoName { place, key }),
    }
}

/// The name of a file that a key of a table holds.
///
/// # Errors
///
/// `NoName` if the table does not have the key, or the key holds no text.
pub fn name_of_contents(table: &Table, place: TablePlace, key: NameKey) -> Result<&str, ConfigFault>
    ensures ok { IfOk result (λ name. name_at (table_view table.now) place key ≡ Ok (Some name.now)) }
{
    match name_at(table, place, key)? {
        Some(name) => Ok(name),
        None => Err(ConfigFault::NoName { place, key }),
    }
}

/// The folder of a file: all before the last slash of its name, if it has one.
fn folder_of(file: &str) -> Option<&str>
    ensures { IsFolder file.now (option_map (λ folder. folder.now) result) }
{
    let (folder, _) = file.rsplit_once('/')?;
    Some(folder)
}

/// The path of a name in a folder; without a folder in the one that the program runs in.
fn path_in(alloc: Global, folder: Option<&str>, name: &str) -> Result<String, AllocError>
    ensures { IfOk result (λ path.
        string_bytes path ≡ path_in (option_map (λ f. f.now) folder.entry) name.now) }
{
    match folder {
        Some(folder) => format!(in alloc; "{folder}/{name}"),
        None => format!(in alloc; "./{name}"),
    }
}

/// The path of the file of a name beside another one. A name that begins with a slash is its path.
///
/// # Errors
///
/// An error if memory is refused.
pub fn beside(alloc: Global, file: &str, name: &str) -> Result<String, AllocError>
    ensures { IfOk result (λ path. IsBeside file.now name.now (string_bytes path)) }
{
    if name.starts_with('/') {
        return String::from_str(alloc, name);
    }
    path_in(alloc, folder_of(file), name)
}
