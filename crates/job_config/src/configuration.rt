//! The configuration of a node by the text of its file.

ghost use Rattle.std.specs.Prelude.{◌≡◌, IfErr, IfOk, Ok, true};
ghost use Rattle.job_config.specs.Configured.{IsBadConfiguration, IsConfiguration, banks_at};
ghost use Rattle.node_parts.specs.Nodes.{are_within, windows_of};
ghost use Rattle.toml.specs.View.{table_view};

use crate::banks::banks_of;
use crate::faults::ConfigFault;
use crate::keys::check_keys;
use crate::maps::maps_of;
use crate::numbers::number_or;
use crate::own_node::{LEAST_ADDRESS, MOST_ADDRESS, NODE_ADDRESS};
use crate::places::NumberKey;
use crate::tables::OWN;
use bver::MapSizes;
use node_parts::{BankConfig, NodeConfig};
use rmap::Windows;
use spw::PORTS;
use std::alloc::Global;
use toml::Table;

/// What the text of a node's file says in numbers.
#[derive(Debug, Drop)]
pub struct Configuration {
    /// The logical address.
    pub address: u8,
    /// How many ports there are.
    pub ports: u8,
    /// The banks, by their extended address.
    pub banks: Vec<BankConfig>,
    /// How many cells each map has, and of which kind it is.
    pub sizes: MapSizes,
}

impl Configuration {
    /// The windows of the node: its address, and where its banks are. The condition is banks that a node may have.
    #[tactic(auto, using(crate::proofs::BankLimits::at_most_eight))]
    pub fn windows(&self) -> Windows
        requires { are_within self.now.banks.items ≡ true }
        ensures { result ≡ windows_of self.now.address self.now.banks.items }
    {
        let config = NodeConfig {
            address: self.address,
            ports: self.ports,
            banks: self.banks.as_slice(),
            sizes: self.sizes,
        };
        config.windows()
    }
}

/// The configuration that a table says.
///
/// # Errors
///
/// The first fault, in this order: an unknown key, the address, the ports, the banks, the maps. `Memory` if memory was
/// refused.
#[tactic(auto, unfolding(crate::specs::Configured::node_numbers_at))]
pub fn configuration_of(alloc: Global, table: &Table) -> Result<Configuration, ConfigFault>
    ensures says { IfOk result (IsConfiguration (table_view table.now)) }
    ensures bad { IfErr result (IsBadConfiguration (table_view table.now)) }
    ensures banks { IfOk result (λ c. banks_at (table_view table.now) ≡ Ok c.banks.items) }
    ensures within { IfOk result (λ c. are_within c.banks.items ≡ true) }
{
    check_keys(alloc, table)?;
    let address = number_or(
        table,
        OWN,
        NumberKey::Address,
        u32::from(LEAST_ADDRESS),
        u32::from(MOST_ADDRESS),
        u32::from(NODE_ADDRESS),
    )?;
    let ports = number_or(table, OWN, NumberKey::Ports, 1, u32::from(PORTS), 1)?;
    let banks = banks_of(alloc, table)?;
    let sizes = maps_of(alloc, table)?;
    Ok(Configuration {
        address: address as u8,
        ports: ports as u8,
        banks,
        sizes,
    })
}
