//! What a node takes of its configuration.

ghost use Rattle.std.specs.Prelude.{◌≡◌, ◌<◌, ◌≤◌, [], ◌∷◌, All, IfOk, length, slice_index_or, true};
ghost use Rattle.job_config.specs.OwnNodes.{IsConfigOf, IsPublish, fit, own_bank, own_node, plain_node};
ghost use Rattle.machine.specs.Sizes.{listed_maps};
ghost use Rattle.node_parts.specs.Nodes.{are_within};

use bver::{Accepted, MapSizes};
use node_parts::{BankConfig, NodeConfig};
use std::alloc::{AllocError, Global};
use std::marker::Model;

/// The logical address of a node if nothing else is said of it.
pub const NODE_ADDRESS: u8 = 0xFE;

/// The least logical address: those below it are path addresses (ECSS-E-ST-50-12C).
pub const LEAST_ADDRESS: u8 = 0x20;

/// The greatest logical address: FF is reserved.
pub const MOST_ADDRESS: u8 = 0xFE;

/// The first address of the bank of such a node.
pub const BANK_BASE: u32 = 0xA000_0000;

/// How many bytes that bank has.
pub const BANK_SIZE: u32 = 0x1_0000;

/// How many entries the journal of that bank has room for.
pub const BANK_ROOM: u32 = 1024;

/// The bank of a node for which no bank is given.
pub const OWN_BANK: BankConfig = BankConfig {
    base: BANK_BASE,
    size: BANK_SIZE,
    room: BANK_ROOM,
};

/// The bytes at the beginning of a bank; the rest of it is zeros. Contracts see the bytes.
#[derive(Debug, Drop)]
pub struct Contents {
    bytes: Vec<u8>,
}

impl Model for Contents {
    ghost use Rattle.std.specs.Prelude.{ℕ, List};

    ghost Value = { List ℕ };

    ghost view = { λ c. c.bytes.items };
}

impl Contents {
    /// These bytes.
    pub fn new(bytes: Vec<u8>) -> Contents
        ensures { result ≡ bytes.items }
    {
        Contents { bytes }
    }

    /// The bytes.
    pub fn bytes(&self) -> &[u8]
        ensures { result.now ≡ self.now }
    {
        self.bytes.as_slice()
    }
}

/// What a node takes of its configuration, beside the program that judges in all slots at first. Contracts see a record
/// of these parts:
///
/// - its logical address
/// - its ports, which [`single_node`] and `target` want to be 1 to 32
/// - 1 to 8 banks within their limits, the extended address of each being its place
/// - for each bank the bytes at its beginning, no more than it has
/// - its maps
/// - the programs that are published before the first packet, in this order: each with its slot, 0 to 3, and accepted
///   for the maps
#[derive(Debug, Drop)]
pub struct OwnNode {
    address: u8,
    ports: u8,
    banks: Vec<BankConfig>,
    contents: Vec<Contents>,
    sizes: MapSizes,
    publishes: Vec<(u8, Accepted)>,
}

impl Model for OwnNode {
    ghost use Rattle.job_config.specs.OwnNodes.{OwnNodeValue, IsOwnNode, own_node};

    ghost Value = { OwnNodeValue };

    ghost view = { λ n. own_node n.address n.ports n.banks.items n.contents.items n.sizes n.publishes.items };

    ghost invariant = { λ n. IsOwnNode (own_node n.address n.ports n.banks.items n.contents.items n.sizes n.publishes.items) };
}

impl OwnNode {
    /// The node of which no file says anything: address FE, this many ports and these maps. Its one bank has 65,536
    /// zero bytes at A0000000, and a journal with room for 1,024 entries. Nothing is published for it.
    ///
    /// # Errors
    ///
    /// An error if memory is refused.
    pub fn plain(alloc: Global, ports: u8, sizes: MapSizes) -> Result<OwnNode, AllocError>
        ensures { IfOk result (λ node. node ≡ plain_node ports sizes) }
    {
        let mut banks = Vec::new(alloc);
        banks.push(OWN_BANK)?;
        let mut contents = Vec::new(alloc);
        contents.push(Contents::new(Vec::new(alloc)))?;
        Ok(OwnNode {
            address: NODE_ADDRESS,
            ports,
            banks,
            contents,
            sizes,
            publishes: Vec::new(alloc),
        })
    }

    /// The node of these parts: banks within their limits, for each the bytes at its beginning, no more than it has,
    /// and programs. The programs were accepted for the maps, each with a slot of 0 to 3, at most 4,294,967,295.
    pub fn of_parts(
        address: u8,
        ports: u8,
        banks: Vec<BankConfig>,
        contents: Vec<Contents>,
        sizes: MapSizes,
        publishes: Vec<(u8, Accepted)>,
    ) -> OwnNode
        requires within { are_within banks.items ≡ true }
        requires fits { fit banks.items contents.items ≡ true }
        requires publishes { All (IsPublish sizes) publishes.items }
        requires few { length publishes.items ≤ 4294967295 }
        ensures { result ≡ own_node address ports banks.items contents.items sizes publishes.items }
    {
        OwnNode {
            address,
            ports,
            banks,
            contents,
            sizes,
            publishes,
        }
    }

    /// The configuration of the node for [`single_node`] and `target`.
    pub fn config(&self) -> NodeConfig<'_>
        ensures { IsConfigOf self.now result }
    {
        NodeConfig {
            address: self.address,
            ports: self.ports,
            banks: self.banks.as_slice(),
            sizes: self.sizes,
        }
    }

    /// The logical address.
    pub fn address(&self) -> u8
        ensures { result ≡ self.now.address }
    {
        self.address
    }

    /// How many ports there are.
    pub fn ports(&self) -> u8
        ensures { result ≡ self.now.ports }
    {
        self.ports
    }

    /// The banks, by their extended address.
    pub fn banks(&self) -> &[BankConfig]
        ensures banks { result.now ≡ self.now.banks }
        ensures within { are_within self.now.banks ≡ true }
    {
        self.banks.as_slice()
    }

    /// The bytes at the beginning of each bank, by its extended address. There are as many as banks, each no longer
    /// than its bank.
    pub fn contents(&self) -> &[Contents]
        ensures contents { result.now ≡ self.now.contents }
        ensures fit { fit self.now.banks self.now.contents ≡ true }
    {
        self.contents.as_slice()
    }

    /// How many cells each map has, and of which kind it is.
    pub fn sizes(&self) -> MapSizes
        ensures { result ≡ self.now.sizes }
    {
        self.sizes
    }

    /// The programs that are published before the first packet, in this order, each with its slot.
    pub fn publishes(&self) -> &[(u8, Accepted)]
        ensures publishes { result.now ≡ self.now.publishes }
        ensures each { All (IsPublish self.now.sizes) self.now.publishes }
        ensures few { length self.now.publishes ≤ 4294967295 }
    {
        self.publishes.as_slice()
    }
}
