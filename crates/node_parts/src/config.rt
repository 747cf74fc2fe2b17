//! What a node is made of.

ghost use Rattle.std.specs.Prelude.{◌≡◌, ◌≤◌, length};
ghost use Rattle.node_parts.specs.Nodes.{windows_of};

use bver::MapSizes;
use rmap::{MAX_BANKS, Windows};

/// One bank of a node.
#[derive(Clone, Copy, Debug)]
pub struct BankConfig {
    /// The address of its first byte.
    pub base: u32,
    /// Its size in bytes: 1 to 1,048,576, none past the last address.
    pub size: u32,
    /// How many entries its journal has room for: 1 to 65,536.
    pub room: u32,
}

/// What a node is made of.
#[derive(Clone, Copy, Debug)]
pub struct NodeConfig<'a> {
    /// The node's logical address.
    pub address: u8,
    /// How many ports it has: 1 to 32.
    pub ports: u8,
    /// Its banks, 1 to 8. The extended address of a bank is its place in the list.
    pub banks: &'a [BankConfig],
    /// Its maps: how many cells each has, and of which kind it is.
    pub sizes: MapSizes,
}

impl NodeConfig<'_> {
    /// The windows of the node: its address, and where its banks lie. The condition is at most eight banks.
    pub fn windows(&self) -> Windows
        requires { length self.now.banks.now ≤ MAX_BANKS }
        ensures { result ≡ windows_of self.now.address self.now.banks.now }
    {
        let mut ranges = [(0, 0); MAX_BANKS];
        let banks = self.banks;
        for k in 0..banks.len() {
            ranges[k] = (banks[k].base, banks[k].size);
        }
        Windows::new(self.address, &ranges[..banks.len()])
    }
}
