//! The files that banks begin with, by their names in a node's file.

ghost use Rattle.std.specs.Prelude.{◌≡◌, IfOk, OnOk, map, option_map, string_bytes};
ghost use Rattle.job_config.specs.ContentsNamed.{AreContentsPaths, ArePathsIn, IsPathAdded, contents_name};
ghost use Rattle.toml.specs.View.{items_view, view};

use crate::names::beside;
use crate::places::{NameKey, TableKind};
use crate::tables::{held, list_at};
use std::alloc::{AllocError, Global};
use toml::Value;

/// The name of the file that the bank of a table begins with, if it has one.
fn named_in(bank: &Value) -> Option<&str>
    ensures { option_map (λ n. n.now) result ≡ contents_name (view bank.now) }
{
    let table = bank.as_table()?;
    held(table, NameKey::Contents.word())?.as_str()
}

/// Adds the path of the file that a bank begins with, if it names one; the node's file has that name.
fn add_path(
    alloc: Global,
    file: &str,
    bank: &Value,
    paths: &mut Vec<String>,
) -> Result<(), AllocError>
    ensures { OnOk result (IsPathAdded file.now (contents_name (view bank.now))
        (map string_bytes paths.old.items) (map string_bytes paths.new.items)) }
{
    if let Some(name) = named_in(bank) {
        let path = beside(alloc, file, name)?;
        paths.push(path)?;
    }
    Ok(())
}

/// The paths of the files that the banks of a list begin with, in its order; the node's file has that name.
fn paths_in(alloc: Global, file: &str, list: &[Value]) -> Result<Vec<String>, AllocError>
    ensures { IfOk result (λ paths.
        ArePathsIn file.now (items_view list.now) (map string_bytes paths.items)) }
{
    let mut paths = Vec::new(alloc);
    for index in 0..list.len() {
        add_path(alloc, file, &list[index], &mut paths)?;
    }
    Ok(paths)
}

/// The paths of the files that the banks of a node's file of this name begin with, by its text, in their order. There is none if the
/// text is no TOML, or has no list of banks.
///
/// # Errors
///
/// If memory was refused.
pub fn contents_paths(alloc: Global, file: &str, text: &str) -> Result<Vec<String>, AllocError>
    ensures { IfOk result (λ paths.
        AreContentsPaths file.now text.now (map string_bytes paths.items)) }
{
    let table = match toml::table_from_str(alloc, text) {
        Ok(table) => table,
        Err(fault) => {
            return match fault.span() {
                Some(_) => Ok(Vec::new(alloc)),
                None => Err(AllocError),
            };
        }
    };
    match list_at(&table, TableKind::Bank) {
        Ok(Some(list)) => paths_in(alloc, file, list),
        Ok(None) | Err(_) => Ok(Vec::new(alloc)),
    }
}
