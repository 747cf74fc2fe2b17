//! Numbers of a node's file.

ghost use Rattle.std.specs.Prelude.{◌≡◌, ◌≤◌, IfOk, IfSome};
ghost use Rattle.job_config.specs.Numbers.{found_at, number_at_key, number_or, within};
ghost use Rattle.toml.specs.View.{table_view};

use crate::faults::{ConfigFault, FoundWord};
use crate::places::{NumberKey, TablePlace};
use crate::tables::held;
use toml::Table;

/// What a key of a table holds in the place of a number.
fn found_at(table: &Table, key: NumberKey) -> FoundWord
    ensures { result ≡ found_at (table_view table.now) key }
{
    match held(table, key.word()) {
        Some(value) => match value.as_integer() {
            Some(number) => FoundWord::Number(number),
            None => FoundWord::Other,
        },
        None => FoundWord::Missing,
    }
}

/// The number that was found, if it is one from `least` to `most`.
fn within(found: FoundWord, least: u32, most: u32) -> Option<u32>
    ensures value { result ≡ within least most found }
    ensures range { IfSome result (λ number. (least ≤ number) × (number ≤ most)) }
{
    match found {
        FoundWord::Number(number) if i64::from(least) <= number && number <= i64::from(most) => {
            Some(number as u32)
        }
        FoundWord::Number(_) | FoundWord::Missing | FoundWord::Other => None,
    }
}

/// The number from `least` to `most` that a key of a table holds.
///
/// # Errors
///
/// `BadNumber` if the key holds no such number, or the table does not have the key.
pub fn number_at_key(
    table: &Table,
    place: TablePlace,
    key: NumberKey,
    least: u32,
    most: u32,
) -> Result<u32, ConfigFault>
    ensures value { result ≡ number_at_key (table_view table.now) place key least most }
    ensures range { IfOk result (λ number. (least ≤ number) × (number ≤ most)) }
{
    let found = found_at(table, key);
    match within(found, least, most) {
        Some(number) => Ok(number),
        None => Err(ConfigFault::BadNumber {
            place,
            key,
            found,
            least,
            most,
        }),
    }
}

/// The same, or `other` if the table does not have the key.
///
/// # Errors
///
/// `BadNumber` if the table has the key, and it holds no such number.
pub fn number_or(
    table: &Table,
    place: TablePlace,
    key: NumberKey,
    least: u32,
    most: u32,
    other: u32,
) -> Result<u32, ConfigFault>
    requires { (least ≤ other) × (other ≤ most) }
    ensures value { result ≡ number_or (table_view table.now) place key least most other }
    ensures range { IfOk result (λ number. (least ≤ number) × (number ≤ most)) }
{
    if let FoundWord::Missing = found_at(table, key) {
        return Ok(other);
    }
    number_at_key(table, place, key, least, most)
}
