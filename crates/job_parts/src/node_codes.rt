//! What is wrong with a node's file.

ghost use Rattle.std.specs.Prelude.{◌≡◌, IfSome, is_some, true};
ghost use Rattle.job_parts.specs.NodeCodes.{node_code, node_code_of};

use thiserror::Error;

const TEXT: &str = "\
The node's file is no TOML 1.1: its line, and what is there that TOML does not have, are printed on standard
error. Keys of the node are before the first `[[bank]]`, `[[map]]` or `[[publish]]`; a name of a file is in
quotes.";

const KEY: &str = "\
The node's file has a key that a node has not: of the node, of a bank, of a map or of a publish. Each is printed
on standard error. A node has address, ports, program, bank, map and publish; a bank base, size, journal and
contents; a map cells and peak; a publish slot and image. Before 1.0+6 a file had `[[load]]` in the place of
`[[publish]]`.";

const ADDRESS: &str = "\
The key address of a node's file is no logical address: a number from 32 to 254, 20 to FE hexadecimal. Without
the key it is 254. A number below 32 is a path address. Give the address of the instrument, as 0x42 or 66.";

const PORTS: &str = "\
The key ports of a node's file is no number from 1 to 32. Without it there is one port. Give as many ports as
the instrument has links.";

const BANK: &str = "\
A node's file has an empty list of banks or more than 8, or a bank without a base, a size or a journal in their
limits: a base is an address of 32 bits, a size 1 to 1,048,576 bytes of which none is past the last address, a
journal 1 to 65,536 entries. Give each `[[bank]]` the three; two banks may have the same addresses, since the
extended address names them. A file without `[[bank]]` has the one bank of `judge`: 65,536 bytes at A0000000,
with a journal of 1,024 entries.";

const MAP: &str = "\
A node's file has more than 8 maps, or a map without cells, or more than 256 cells in all; or peak is not true
or false. Give each `[[map]]` its cells; `peak = true` makes it a map of the greatest numbers.";

const CONTENTS: &str = "\
The file that a bank begins with cannot be read, or is longer than the bank; or contents is no name in quotes.
Its name is beside the node's file. Give a shorter file, or a larger bank.";

const PROGRAM: &str = "\
The program of a node's file cannot be read, is no image, or may not judge on the node's maps; or program is no
name in quotes. Its name is beside the node's file. `rmapctl why FILE --maps LIST` prints why an image is
refused.";

const LOAD: &str = "\
A publish of a node's file has no slot from 0 to 3, or its image cannot be read, is longer than 16,384 bytes, is
no image, or may not judge on the node's maps. The image's name is beside the node's file. `rmapctl why FILE
--node FILE` prints why an image is refused.";

/// What is wrong with a node's file: the first of these that is found.
#[derive(Clone, Copy, Debug, PartialEq, Eq, Error)]
pub enum NodeCode {
    /// Its text is no TOML.
    #[error("the node's file is no TOML")]
    Text,
    /// It has a key that no node has.
    #[error("an unknown key in a node's file")]
    Key,
    /// The logical address is not valid.
    #[error("bad logical address of a node")]
    Address,
    /// The number of ports is outside its limits.
    #[error("bad number of ports of a node")]
    Ports,
    /// The banks are outside their limits.
    #[error("bad bank of a node")]
    Bank,
    /// The maps are outside their limits.
    #[error("bad map of a node")]
    Map,
    /// The bytes that a bank begins with are not valid.
    #[error("bad contents of a bank")]
    Contents,
    /// The program may not judge.
    #[error("bad program of a node")]
    Program,
    /// A program cannot be published.
    #[error("bad publish of a node")]
    Load,
}

impl NodeCode {
    /// The number that is printed of it, 1 to 9.
    pub fn number(self) -> u8
        ensures { result ≡ node_code self }
    {
        match self {
            NodeCode::Text => 1,
            NodeCode::Key => 2,
            NodeCode::Address => 3,
            NodeCode::Ports => 4,
            NodeCode::Bank => 5,
            NodeCode::Map => 6,
            NodeCode::Contents => 7,
            NodeCode::Program => 8,
            NodeCode::Load => 9,
        }
    }

    /// What is wrong with a node's file if this number is printed of it. `None` if nothing has the number.
    pub fn from_number(number: u8) -> Option<NodeCode>
        ensures value { result ≡ node_code_of number }
        ensures number { IfSome result (λ code. node_code code ≡ number) }
        ensures all { (code : NodeCode) → node_code code ≡ number → is_some result ≡ true }
    {
        match number {
            1 => Some(NodeCode::Text),
            2 => Some(NodeCode::Key),
            3 => Some(NodeCode::Address),
            4 => Some(NodeCode::Ports),
            5 => Some(NodeCode::Bank),
            6 => Some(NodeCode::Map),
            7 => Some(NodeCode::Contents),
            8 => Some(NodeCode::Program),
            9 => Some(NodeCode::Load),
            _ => None,
        }
    }

    /// When it comes, and what to do, in lines of at most 114 columns.
    pub fn advice(self) -> &'static str {
        match self {
            NodeCode::Text => TEXT,
            NodeCode::Key => KEY,
            NodeCode::Address => ADDRESS,
            NodeCode::Ports => PORTS,
            NodeCode::Bank => BANK,
            NodeCode::Map => MAP,
            NodeCode::Contents => CONTENTS,
            NodeCode::Program => PROGRAM,
            NodeCode::Load => LOAD,
        }
    }
}
