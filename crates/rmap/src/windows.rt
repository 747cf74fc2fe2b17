//! What a node has under its addresses.

ghost use Rattle.std.specs.Prelude.{◌≡◌, ◌≤◌, length, slice_get};

use arrayvec::ArrayVec;
use std::marker::Model;

/// The most banks that a node has.
pub const MAX_BANKS: usize = 8;

/// The logical address of a node, and the base and the size in bytes of each of its banks. Every
/// node has the boot window beside them.
#[derive(Debug, Drop)]
pub struct Windows {
    node_address: u8,
    banks: ArrayVec<(u32, u32), MAX_BANKS>,
}

impl Model for Windows {
    ghost use Rattle.rmap.specs.Windows.{WindowsValue};

    ghost Value = { WindowsValue };

    ghost view = { λ w. record { node_address = w.node_address; banks = w.banks.items } };
}

impl Windows {
    /// The windows of a node with that logical address and those banks, each a base and a size in bytes, at most
    /// eight. The extended address of a bank is its place in the list, from 0.
    pub fn new(node_address: u8, banks: &[(u32, u32)]) -> Windows
        requires { length banks.now ≤ MAX_BANKS }
        ensures node { result.node_address ≡ node_address }
        ensures banks { result.banks ≡ banks.now }
    {
        Windows {
            node_address,
            banks: ArrayVec::try_from(banks).unwrap(),
        }
    }

    /// The node's logical address.
    pub fn node_address(&self) -> u8
        ensures { result ≡ self.now.node_address }
    {
        self.node_address
    }

    /// The base and the size in bytes of the bank of that number, if there is one.
    pub fn bank(&self, number: u8) -> Option<(u32, u32)>
        ensures { result ≡ slice_get self.now.banks number }
    {
        self.banks.as_slice().get(usize::from(number)).copied()
    }
}
