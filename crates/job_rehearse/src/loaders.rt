//! Who loads: the port, the initiator and the key of the packets of a load.

ghost use Rattle.std.specs.Prelude.{◌≡◌, ◌++◌, IfOk, MatchResult, OnOk, string_bytes, true};
ghost use Rattle.clap.specs.Walk.{rows_of};
ghost use Rattle.clap.specs.Matches.{found_of};
ghost use Rattle.job_packets.specs.HexWords.{Has};
ghost use Rattle.job_packets.specs.Requests.{has_reply_address};
ghost use Rattle.job_packets.specs.Slips.{IsBadWord};
ghost use Rattle.job_parts.specs.Options.{IsBadValue};
ghost use Rattle.job_rehearse.specs.Loaders.{GivesLoader, GivesLoaders, IsHeaderOf, has_value, is_any_beside, loader_in, loader_text, named_text, named_words, names_loader, ports_in};

use clap::ArgMatches;
use job_config::own_node::NODE_ADDRESS;
use job_packets::packet_options::{HeaderWords, byte_of, port_of};
use job_packets::slips::{PacketFault, PacketWord};
use job_parts::arguments::{is_flag_set, text_of};
use job_parts::usage::UsageFault;
use std::alloc::{AllocError, Global};

/// Who loads: the port at which its packets come in, and what their headers say of it and of the node.
#[derive(Clone, Copy, Debug, PartialEq, Eq)]
pub struct LoadSender {
    /// The port, 0 to 31.
    pub port: u8,
    /// The initiator logical address.
    pub initiator: u8,
    /// The key.
    pub key: u8,
    /// The logical address of the node that is loaded.
    pub target: u8,
}

/// Whose loads are rehearsed.
#[derive(Clone, Copy, Debug, PartialEq, Eq)]
pub enum Loaders {
    /// Those of this one, at a node of 32 ports; without it those of initiator 67 with key 00, at a node of one port.
    One(Option<LoadSender>),
    /// Nobody's: the new policy is asked whose loads it lets pass.
    Any,
}

/// Whether an option has a value.
fn has_value(found: &ArgMatches, name: &str) -> bool
    ensures { result ≡ has_value name.now (rows_of (found_of found.now)) }
{
    text_of(found, name).is_some()
}

/// Whether an option names who loads.
fn names_loader(found: &ArgMatches) -> bool
    ensures { result ≡ names_loader (rows_of (found_of found.now)) }
{
    has_value(found, "port") || has_value(found, "initiator") || has_value(found, "key")
}

/// Whether `--any` is there, and with it an option of loads that are done: who loads, or into which slots.
pub fn is_any_beside(found: &ArgMatches) -> bool
    ensures { result ≡ is_any_beside (rows_of (found_of found.now)) }
{
    is_flag_set(found, "any") && (names_loader(found) || has_value(found, "slot"))
}

/// Who loads by `--port`, `--initiator` and `--key`; port 0, initiator 67 and key 00 without them.
///
/// # Errors
///
/// The slip of the first option that has a value that it may not have.
pub fn loader_of(found: &ArgMatches) -> Result<LoadSender, PacketFault>
    ensures { MatchResult result (GivesLoader (rows_of (found_of found.now)))
        (IsBadWord (Has (GivesLoader (rows_of (found_of found.now))))) }
{
    let port = port_of(found)?;
    let initiator = byte_of(found, "initiator", PacketWord::Initiator, 0x67)?;
    let key = byte_of(found, "key", PacketWord::Key, 0)?;
    Ok(LoadSender {
        port,
        initiator,
        key,
        target: NODE_ADDRESS,
    })
}

/// Whose loads are rehearsed by the options.
///
/// # Errors
///
/// `BadOption` if an option has a value that it may not have, or is beside `--any`.
pub fn loaders_of(found: &ArgMatches) -> Result<Loaders, UsageFault>
    ensures { MatchResult result (GivesLoaders (rows_of (found_of found.now)))
        (IsBadValue (Has (GivesLoaders (rows_of (found_of found.now))))) }
{
    if is_any_beside(found) {
        return Err(UsageFault::BadOption);
    }
    if is_flag_set(found, "any") {
        return Ok(Loaders::Any);
    }
    if !names_loader(found) {
        return Ok(Loaders::One(None));
    }
    match loader_of(found) {
        Ok(loader) => Ok(Loaders::One(Some(loader))),
        Err(fault) => Err(fault.usage()),
    }
}

/// Who loads: the one that is named, or port 0, initiator 67 and key 00.
pub fn loader_in(named: Option<LoadSender>) -> LoadSender
    ensures { result ≡ loader_in named }
{
    match named {
        Some(loader) => loader,
        None => LoadSender {
            port: 0,
            initiator: 0x67,
            key: 0,
            target: NODE_ADDRESS,
        },
    }
}

/// How many ports the node has: 32 if someone is named to load, or else one.
pub fn ports_in(named: Option<LoadSender>) -> u8
    ensures { result ≡ ports_in named }
{
    match named {
        Some(_) => 32,
        None => 1,
    }
}

/// Adds what the last line says of a port, and of an initiator and a key that are written so.
fn add_named(text: &mut String, port: u8, initiator: &str, key: &str) -> Result<(), AllocError>
    ensures { OnOk result (string_bytes text.new
        ≡ string_bytes text.old ++ named_words port initiator.now key.now) }
{
    write!(text, " (port {port} initiator {initiator} key {key})")
}

/// What the last line says of a port, and of an initiator and a key that are written so.
fn named_words(alloc: Global, port: u8, initiator: &str, key: &str) -> Result<String, AllocError>
    ensures { IfOk result (λ text. string_bytes text ≡ named_words port initiator.now key.now) }
{
    let mut text = String::new(alloc);
    add_named(&mut text, port, initiator, key)?;
    Ok(text)
}

/// What the last line says of a loader.
fn named_text(alloc: Global, loader: LoadSender) -> Result<String, AllocError>
    ensures { IfOk result (λ text. string_bytes text ≡ named_text loader) }
{
    let initiator = hex::encode_upper(alloc, &[loader.initiator])?;
    let key = hex::encode_upper(alloc, &[loader.key])?;
    named_words(alloc, loader.port, initiator.as_str(), key.as_str())
}

/// What the last line says of who loads: the one that is named, or port 0, initiator 67 and key 00.
///
/// # Errors
///
/// An error if memory is refused.
pub fn loader_text(alloc: Global, named: Option<LoadSender>) -> Result<String, AllocError>
    ensures { IfOk result (λ text. string_bytes text ≡ loader_text named) }
{
    named_text(alloc, loader_in(named))
}

/// The words of the headers of a loader. They are those that `packet` has without an option, except its port,
/// initiator, key and target.
pub fn header_of(alloc: Global, loader: LoadSender) -> HeaderWords
    ensures given { IsHeaderOf loader result }
    ensures address { has_reply_address result ≡ true }
{
    HeaderWords {
        port: loader.port,
        target: loader.target,
        key: loader.key,
        initiator: loader.initiator,
        transaction: 0,
        extended: 0,
        reply_address: Vec::new(alloc),
    }
}
