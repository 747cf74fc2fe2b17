//! Where something is in a node's file.

ghost use Rattle.std.specs.Prelude.{◌≡◌};
ghost use Rattle.job_config.specs.Places.{kind_key, knows, name_word, number_word};
ghost use Rattle.job_config.specs.declared.places.TableKind.TheVariants.{Node};

use std::fmt;

/// The tables of a node's file.
#[derive(Clone, Copy, Debug, PartialEq, Eq)]
pub enum TableKind {
    /// The node's own, which is the whole file.
    Node,
    /// That of a bank.
    Bank,
    /// That of a map.
    Map,
    /// That of a publish.
    Publish,
}

impl TableKind {
    /// The key under which the file has such tables; the node's own table has none.
    pub fn word(self) -> &'static str
        ensures { result.now ≡ kind_key self }
    {
        match self {
            TableKind::Node => "",
            TableKind::Bank => "bank",
            TableKind::Map => "map",
            TableKind::Publish => "publish",
        }
    }

    /// Whether such a table may have the key.
    pub fn knows(self, key: &str) -> bool
        ensures { result ≡ knows self key.now }
    {
        match self {
            TableKind::Node => is_node_key(key),
            TableKind::Bank => key == "base"
                || key == "contents"
                || key == "journal"
                || key == "size",
            TableKind::Map => key == "cells" || key == "peak",
            TableKind::Publish => key == "image" || key == "slot",
        }
    }
}

/// Whether the node's own table may have the key.
fn is_node_key(key: &str) -> bool
    ensures { result ≡ knows Node key.now }
{
    if key == "address" || key == "bank" || key == "map" {
        return true;
    }
    key == "ports" || key == "program" || key == "publish"
}

/// A table of a node's file: its kind, and its number, from 0, among those of its kind; that of the node's own is 0.
#[derive(Clone, Copy, Debug, PartialEq, Eq)]
pub struct TablePlace {
    /// Which kind of table it is.
    pub kind: TableKind,
    /// Its number.
    pub number: usize,
}

impl fmt::Display for TablePlace {
    fn fmt<W: fmt::Write>(&self, f: &mut fmt::Formatter<W>) -> fmt::Result {
        let word = self.kind.word();
        let number = self.number;
        match self.kind {
            TableKind::Node => Ok(()),
            TableKind::Bank | TableKind::Map => write!(f, "{word} {number} "),
            // A publish has the number of its generation, from 1.
            TableKind::Publish => {
                let number = number.saturating_add(1);
                write!(f, "{word} {number} ")
            }
        }
    }
}

/// A key that holds a number.
#[derive(Clone, Copy, Debug, PartialEq, Eq)]
pub enum NumberKey {
    /// The logical address of the node.
    Address,
    /// How many ports the node has.
    Ports,
    /// The first address of a bank.
    Base,
    /// How many bytes a bank has.
    Size,
    /// How many entries the journal of a bank has room for.
    Journal,
    /// How many cells a map has.
    Cells,
    /// The slot of a publish.
    Slot,
}

impl NumberKey {
    /// The key.
    pub fn word(self) -> &'static str
        ensures { result.now ≡ number_word self }
    {
        match self {
            NumberKey::Address => "address",
            NumberKey::Ports => "ports",
            NumberKey::Base => "base",
            NumberKey::Size => "size",
            NumberKey::Journal => "journal",
            NumberKey::Cells => "cells",
            NumberKey::Slot => "slot",
        }
    }
}

/// A key that holds the name of a file.
#[derive(Clone, Copy, Debug, PartialEq, Eq)]
pub enum NameKey {
    /// The bytes that a bank begins with.
    Contents,
    /// The image that judges in all slots at first.
    Program,
    /// The image that is published.
    Image,
}

impl NameKey {
    /// The key.
    pub fn word(self) -> &'static str
        ensures { result.now ≡ name_word self }
    {
        match self {
            NameKey::Contents => "contents",
            NameKey::Program => "program",
            NameKey::Image => "image",
        }
    }
}
