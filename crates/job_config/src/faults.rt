//! What is wrong with a node's file, and where.

ghost use Rattle.std.specs.Prelude.{◌≡◌, IfOk};
ghost use Rattle.job_config.specs.Faults.{code_of_fault, kind_code, name_code, number_fault_code};
ghost use Rattle.job_config.specs.declared.faults.ConfigFault.TheVariants.{Memory};

use crate::places::{NameKey, NumberKey, TableKind, TablePlace};
use bpf::ImageFault;
use bver::Refused;
use job_parts::node_codes::NodeCode;
use std::alloc::{AllocError, AllocFailed, Global};
use std::fmt;
use std::marker::Model;

/// What was found in the place of a number.
#[derive(Clone, Copy, Debug, PartialEq, Eq)]
pub enum FoundWord {
    /// Nothing.
    Missing,
    /// This number.
    Number(i64),
    /// Something else.
    Other,
}

/// A word of a node's file. Contracts see its bytes.
#[derive(Debug, Drop)]
pub struct NameWord {
    text: String,
}

impl Model for NameWord {
    ghost use Rattle.std.specs.Prelude.{ℕ, List, string_bytes};

    ghost Value = { List ℕ };

    ghost view = { λ w. string_bytes w.text };
}

impl NameWord {
    /// A copy of this text.
    ///
    /// # Errors
    ///
    /// An error if memory is refused.
    pub fn new(alloc: Global, text: &str) -> Result<NameWord, AllocError>
        ensures { IfOk result (λ word. word ≡ text.now) }
    {
        Ok(NameWord {
            text: String::from_str(alloc, text)?,
        })
    }
}

/// Why a file beside a node's file cannot be used.
#[derive(Clone, Copy, Debug)]
pub enum Trouble {
    /// It cannot be read.
    Unread,
    /// It has more bytes than the most that are allowed.
    TooLong {
        /// How many bytes it has.
        bytes: usize,
        /// The most that are allowed.
        most: usize,
    },
    /// It is no image; the line of a text or a table, if it is one, or no line.
    NoImage(ImageFault, &'static str),
    /// Its program may not judge on the node's maps.
    Refused(Refused),
}

/// What is wrong with a node's file.
#[derive(Debug, Drop)]
pub enum ConfigFault {
    /// Memory was refused.
    Memory,
    /// The text is no TOML.
    NoToml {
        /// The line, from 1.
        line: usize,
        /// What the reader says.
        message: NameWord,
    },
    /// A table has a key that it may not have.
    UnknownKey {
        /// The table.
        place: TablePlace,
        /// The key.
        key: NameWord,
    },
    /// What a key holds is no number within limits.
    BadNumber {
        /// The table.
        place: TablePlace,
        /// The key.
        key: NumberKey,
        /// What it holds.
        found: FoundWord,
        /// The least number that is allowed.
        least: u32,
        /// The greatest.
        most: u32,
    },
    /// The key `peak` of a map holds neither true nor false.
    BadPeak(TablePlace),
    /// What the file has there is no table.
    NoTable(TablePlace),
    /// What the file has under the key of a kind is no list of tables.
    NoList(TableKind),
    /// The number of tables of a kind is too great, or too small.
    BadCount {
        /// The kind.
        kind: TableKind,
        /// How many there are.
        count: usize,
    },
    /// What a key holds is no name of a file.
    NoName {
        /// The table.
        place: TablePlace,
        /// The key.
        key: NameKey,
    },
    /// The file that a key names cannot be used.
    BadFile {
        /// The table.
        place: TablePlace,
        /// The key.
        key: NameKey,
        /// The name.
        name: NameWord,
        /// Why.
        trouble: Trouble,
    },
}

/// What faults of the tables of a kind are.
fn code_of_kind(kind: TableKind) -> NodeCode
    ensures { result ≡ kind_code kind }
{
    match kind {
        TableKind::Node => NodeCode::Text,
        TableKind::Bank => NodeCode::Bank,
        TableKind::Map => NodeCode::Map,
        TableKind::Publish => NodeCode::Load,
    }
}

/// What faults of the numbers of a key are.
fn code_of_number(key: NumberKey) -> NodeCode
    ensures { result ≡ number_fault_code key }
{
    match key {
        NumberKey::Address => NodeCode::Address,
        NumberKey::Ports => NodeCode::Ports,
        NumberKey::Base | NumberKey::Size | NumberKey::Journal => NodeCode::Bank,
        NumberKey::Cells => NodeCode::Map,
        NumberKey::Slot => NodeCode::Load,
    }
}

/// What faults of the files of a key are.
fn code_of_name(key: NameKey) -> NodeCode
    ensures { result ≡ name_code key }
{
    match key {
        NameKey::Contents => NodeCode::Contents,
        NameKey::Program => NodeCode::Program,
        NameKey::Image => NodeCode::Load,
    }
}

impl ConfigFault {
    /// The code that is printed of it; `None` if memory was refused.
    pub fn code(&self) -> Option<NodeCode>
        ensures { result ≡ code_of_fault self.now }
    {
        match self {
            ConfigFault::Memory => None,
            ConfigFault::NoToml { .. } => Some(NodeCode::Text),
            ConfigFault::UnknownKey { .. } => Some(NodeCode::Key),
            ConfigFault::BadNumber { key, .. } => Some(code_of_number(*key)),
            ConfigFault::BadPeak(_) => Some(NodeCode::Map),
            ConfigFault::NoTable(place) => Some(code_of_kind(place.kind)),
            ConfigFault::NoList(kind) | ConfigFault::BadCount { kind, .. } => {
                Some(code_of_kind(*kind))
            }
            ConfigFault::NoName { key, .. } | ConfigFault::BadFile { key, .. } => {
                Some(code_of_name(*key))
            }
        }
    }
}

impl From<AllocError> for ConfigFault {
    ghost from_gives = { λ _ fault. fault ≡ Memory };

    fn from(_refused: AllocError) -> ConfigFault {
        ConfigFault::Memory
    }
}

impl<T: Drop> From<AllocFailed<T>> for ConfigFault {
    ghost from_gives = { λ _ fault. fault ≡ Memory };

    fn from(_refused: AllocFailed<T>) -> ConfigFault {
        ConfigFault::Memory
    }
}

/// Prints why bytes are no image, and what else they are, if that is known.
fn print_no_image<W: fmt::Write>(
    f: &mut fmt::Formatter<W>,
    fault: ImageFault,
    form: &str,
) -> fmt::Result {
    let (code, slot) = (fault.code(), fault.slot());
    write!(f, ": image fault {code} slot {slot}")?;
    let form = form.trim_end();
    if form.is_empty() {
        Ok(())
    } else {
        write!(f, ": {form}")
    }
}

impl fmt::Display for Trouble {
    fn fmt<W: fmt::Write>(&self, f: &mut fmt::Formatter<W>) -> fmt::Result {
        match self {
            Trouble::Unread => write!(f, ": cannot be read"),
            Trouble::TooLong { bytes, most } => write!(f, " {bytes} bytes: wanted at most {most}"),
            Trouble::NoImage(fault, form) => print_no_image(f, *fault, form),
            Trouble::Refused(refused) => {
                let (code, slot) = (refused.number(), refused.slot);
                write!(f, ": refused V{code} slot {slot}")
            }
        }
    }
}

/// How many tables of a kind a node's file may have, for the user.
fn wanted(kind: TableKind) -> &'static str {
    match kind {
        TableKind::Bank => "1 to 8",
        TableKind::Node | TableKind::Map => "at most 8",
        TableKind::Publish => "at most 4294967295",
    }
}

/// The keys that a table of a kind may have, for the user.
fn keys(kind: TableKind) -> &'static str {
    match kind {
        TableKind::Node => "address, bank, map, ports, program or publish",
        TableKind::Bank => "base, contents, journal or size",
        TableKind::Map => "cells or peak",
        TableKind::Publish => "image or slot",
    }
}

impl fmt::Display for FoundWord {
    fn fmt<W: fmt::Write>(&self, f: &mut fmt::Formatter<W>) -> fmt::Result {
        match self {
            FoundWord::Missing => write!(f, " is missing"),
            FoundWord::Number(number) => write!(f, " {number}"),
            FoundWord::Other => write!(f, " is no number"),
        }
    }
}

/// What the file had in the place of `[[publish]]` before 1.0+6, for the user.
const LOADS: &str = "\
[[load]] is [[publish]] since 1.0+6, without packets (CHANGELOG); packets of a load are lines of packet load";

/// Prints that a table has a key that it may not have.
fn print_unknown<W: fmt::Write>(
    f: &mut fmt::Formatter<W>,
    place: &TablePlace,
    key: &NameWord,
) -> fmt::Result {
    if place.kind == TableKind::Node && key.text.as_str() == "load" {
        return write!(f, "key load: {LOADS}");
    }
    let (key, keys) = (key.text.escape_debug(), keys(place.kind));
    write!(f, "{place}key {key}: wanted {keys}")
}

/// Prints that there are too many tables of a kind, or too few.
fn print_count<W: fmt::Write>(
    f: &mut fmt::Formatter<W>,
    kind: TableKind,
    count: usize,
) -> fmt::Result {
    let (word, wanted) = (kind.word(), wanted(kind));
    let plural = if kind == TableKind::Publish {
        "es"
    } else {
        "s"
    };
    write!(f, "{count} {word}{plural}: wanted {wanted}")
}

/// Prints that a number is not one of those that are allowed. For a logical address it also prints the digits that a
/// packet has.
fn print_number<W: fmt::Write>(
    f: &mut fmt::Formatter<W>,
    place: &TablePlace,
    key: NumberKey,
    found: &FoundWord,
    least: u32,
    most: u32,
) -> fmt::Result {
    let word = key.word();
    write!(f, "{place}{word}{found}: wanted {least} to {most}")?;
    match key {
        NumberKey::Address => write!(f, ", {least:02X} to {most:02X} hexadecimal"),
        _ => Ok(()),
    }
}

impl fmt::Display for ConfigFault {
    fn fmt<W: fmt::Write>(&self, f: &mut fmt::Formatter<W>) -> fmt::Result {
        match self {
            ConfigFault::Memory => write!(f, "no memory"),
            ConfigFault::NoToml { line, message } => {
                let message = message.text.as_str();
                write!(f, "line {line}: {message}")
            }
            ConfigFault::UnknownKey { place, key } => print_unknown(f, place, key),
            ConfigFault::BadNumber {
                place,
                key,
                found,
                least,
                most,
            } => { print_number(f, place, *key, found, *least, *most) }
            ConfigFault::BadPeak(place) => write!(f, "{place}peak: wanted true or false"),
            ConfigFault::NoTable(place) => {
                let word = place.kind.word();
                write!(f, "{place}is no table: wanted [[{word}]]")
            }
            ConfigFault::NoList(kind) => {
                let word = kind.word();
                write!(f, "{word} is no list of tables: wanted [[{word}]]")
            }
            ConfigFault::BadCount { kind, count } => print_count(f, *kind, *count),
            ConfigFault::NoName { place, key } => {
                let key = key.word();
                write!(f, "{place}{key}: wanted the name of a file")
            }
            ConfigFault::BadFile {
                place,
                key,
                name,
                trouble,
            } => {
                let (key, name) = (key.word(), name.text.escape_debug());
                write!(f, "{place}{key} {name}{trouble}")
            }
        }
    }
}
