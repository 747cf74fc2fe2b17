//! Whose loads a program is asked about: initiators and keys.

ghost use Rattle.std.specs.Prelude.{◌≡◌, ◌++◌, IfOk, OnOk, drop, string_bytes};
ghost use Rattle.std.specs.List.{list_any};
ghost use Rattle.job_rehearse.specs.Askers.{asker_text, asker_words, askers_of, each_value, every_asker, is_wanted, table_askers, value_at, value_text, values_of, wanted_field, with_keys, with_pairs};

use policy::{Policy, PortRule, Rule};
use std::alloc::{AllocError, Global};

/// A value of a field of a header, about which a program is asked.
#[derive(Clone, Copy, Debug, PartialEq, Eq)]
pub struct HeaderFieldValue {
    /// The value.
    pub byte: u8,
    /// Whether it means only itself. If not, it means all values that no rule names.
    pub is_named: bool,
}

/// An initiator and a key, about whose loads a program is asked.
#[derive(Clone, Copy, Debug, PartialEq, Eq)]
pub struct LoadInitiator {
    /// The initiator logical address.
    pub initiator: HeaderFieldValue,
    /// The key.
    pub key: HeaderFieldValue,
}

/// A field of a header that says who loads.
#[derive(Clone, Copy, Debug, PartialEq, Eq)]
pub enum Field {
    /// The initiator logical address.
    Initiator,
    /// The key.
    Key,
}

/// What a rule wants of a field; `None` agrees with each value.
fn wanted_field(field: Field, rule: &Rule) -> Option<u8>
    ensures { result ≡ wanted_field field rule.now }
{
    match field {
        Field::Initiator => rule.initiator,
        Field::Key => rule.key,
    }
}

/// Whether a rule wants just this value of a field, at whatever port it is asked.
fn is_wanted(field: Field, byte: u8, own: &PortRule) -> bool
    ensures { result ≡ is_wanted field byte own.now }
{
    match wanted_field(field, &own.rule) {
        Some(own) => own == byte,
        None => false,
    }
}

/// Whether some rule names a value of a field.
fn names(rules: &[PortRule], field: Field, byte: u8) -> bool
    ensures { result ≡ list_any (is_wanted field byte) rules.now }
{
    rules.iter().any(|own| is_wanted(field, byte, own))
}

/// Adds a value, if a rule names it, or if it is the first that none names.
fn push_value(
    values: &mut Vec<HeaderFieldValue>,
    byte: u8,
    is_named: bool,
    are_values_named: bool,
) -> Result<(), AllocError>
    ensures { OnOk result (values.new.items
        ≡ values.old.items ++ value_at byte is_named are_values_named) }
{
    if is_named || are_values_named {
        values.push(HeaderFieldValue { byte, is_named })?;
    }
    Ok(())
}

/// The values of a field that some rule names, and the least that none names, from the least on.
fn values_of(
    alloc: Global,
    rules: &[PortRule],
    field: Field,
) -> Result<Vec<HeaderFieldValue>, AllocError>
    ensures { IfOk result (λ values. values.items ≡ values_of rules.now field) }
{
    let mut values = Vec::new(alloc);
    let mut are_values_named = true;
    for byte in 0..256u16 {
        let is_named = names(rules, field, byte as u8);
        push_value(&mut values, byte as u8, is_named, are_values_named)?;
        are_values_named = are_values_named && is_named;
    }
    Ok(values)
}

/// Each value of a byte, from the least on.
fn each_value(alloc: Global) -> Result<Vec<HeaderFieldValue>, AllocError>
    ensures { IfOk result (λ values. values.items ≡ each_value) }
{
    let mut values = Vec::new(alloc);
    for byte in 0..256u16 {
        push_value(&mut values, byte as u8, true, true)?;
    }
    Ok(values)
}

/// Adds an initiator with each of some keys.
fn add_keys(
    askers: &mut Vec<LoadInitiator>,
    initiator: HeaderFieldValue,
    keys: &[HeaderFieldValue],
) -> Result<(), AllocError>
    ensures { OnOk result (askers.new.items ≡ with_keys askers.old.items initiator keys.now) }
{
    for key in keys {
        askers.push(LoadInitiator {
            initiator,
            key: *key,
        })?;
    }
    Ok(())
}

/// Adds each of some initiators with each of some keys.
fn add_pairs(
    askers: &mut Vec<LoadInitiator>,
    initiators: &[HeaderFieldValue],
    keys: &[HeaderFieldValue],
) -> Result<(), AllocError>
    ensures { OnOk result (askers.new.items ≡ with_pairs askers.old.items initiators.now keys.now) }
{
    for initiator in initiators {
        add_keys(askers, *initiator, keys)?;
    }
    Ok(())
}

/// Whose loads the program of a table is asked about.
pub(crate) fn table_askers(
    alloc: Global,
    rules: &[PortRule],
) -> Result<Vec<LoadInitiator>, AllocError>
    ensures { IfOk result (λ askers. askers.items ≡ table_askers rules.now) }
{
    let initiators = values_of(alloc, rules, Field::Initiator)?;
    let keys = values_of(alloc, rules, Field::Key)?;
    let mut askers = Vec::new(alloc);
    add_pairs(&mut askers, initiators.as_slice(), keys.as_slice())?;
    Ok(askers)
}

/// The values after the first.
fn after_first(values: &[HeaderFieldValue]) -> &[HeaderFieldValue]
    ensures { result.now ≡ drop 1 values.now }
{
    match values {
        [_, rest @ ..] => rest,
        [] => values,
    }
}

/// Whose loads a program that is of no table is asked about: each initiator with key 00, and initiator 67 with each
/// other key.
fn every_asker(alloc: Global) -> Result<Vec<LoadInitiator>, AllocError>
    ensures { IfOk result (λ askers. askers.items ≡ every_asker) }
{
    let values = each_value(alloc)?;
    let values = values.as_slice();
    let key = HeaderFieldValue {
        byte: 0,
        is_named: true,
    };
    let initiator = HeaderFieldValue {
        byte: 0x67,
        is_named: true,
    };
    let mut askers = Vec::new(alloc);
    add_pairs(&mut askers, values, &[key])?;
    add_keys(&mut askers, initiator, after_first(values))?;
    Ok(askers)
}

/// Whose loads the program of a policy is asked about. If it is of a table: each initiator and each key that a rule
/// names, and the least that none names. For an image: each initiator with key 00, and initiator 67 with each other
/// key.
///
/// # Errors
///
/// An error if memory is refused.
pub fn askers_of(alloc: Global, table: &Option<Policy>) -> Result<Vec<LoadInitiator>, AllocError>
    ensures { IfOk result (λ askers. askers.items ≡ askers_of table.now) }
{
    match table {
        Some(table) => table_askers(alloc, table.rules()),
        None => every_asker(alloc),
    }
}

/// A value in two digits, or `*` if it means all that no rule names.
fn value_text(alloc: Global, value: HeaderFieldValue) -> Result<String, AllocError>
    ensures { IfOk result (λ text. string_bytes text ≡ value_text value) }
{
    if value.is_named {
        hex::encode_upper(alloc, &[value.byte])
    } else {
        String::from_str(alloc, "*")
    }
}

/// Adds the words of an initiator and a key that are written so.
fn add_words(text: &mut String, initiator: &str, key: &str) -> Result<(), AllocError>
    ensures { OnOk result (string_bytes text.new
        ≡ string_bytes text.old ++ asker_words initiator.now key.now) }
{
    write!(text, " initiator {initiator} key {key}")
}

/// The words of an initiator and a key that are written so.
fn asker_words(alloc: Global, initiator: &str, key: &str) -> Result<String, AllocError>
    ensures { IfOk result (λ text. string_bytes text ≡ asker_words initiator.now key.now) }
{
    let mut text = String::new(alloc);
    add_words(&mut text, initiator, key)?;
    Ok(text)
}

/// The words of an initiator and a key.
///
/// # Errors
///
/// An error if memory is refused.
pub fn asker_text(alloc: Global, asker: LoadInitiator) -> Result<String, AllocError>
    ensures { IfOk result (λ text. string_bytes text ≡ asker_text asker) }
{
    let initiator = value_text(alloc, asker.initiator)?;
    let key = value_text(alloc, asker.key)?;
    asker_words(alloc, initiator.as_str(), key.as_str())
}
