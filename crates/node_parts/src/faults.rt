//! Why a node could not be made.

ghost use Rattle.std.specs.Prelude.{◌≡◌};
ghost use Rattle.node_parts.specs.Codes.{node_fault_code};
ghost use Rattle.node_parts.specs.declared.faults.NodeFault.TheVariants.{Memory};

use std::alloc::AllocError;
use thiserror::Error;

/// Why a node could not be made. The limits are tested before memory is taken, first `Ports`, then `Banks`.
#[derive(Clone, Copy, Debug, PartialEq, Eq, Error)]
pub enum NodeFault {
    /// Memory was refused.
    #[error("no memory")]
    Memory,
    /// No ports, or more than 32.
    #[error("number of ports outside its limits")]
    Ports,
    /// No banks or more than 8, or a bank outside its limits.
    #[error("banks outside their limits")]
    Banks,
}

impl NodeFault {
    /// The number of the fault, 1 to 3.
    pub fn code(self) -> u8
        ensures { result ≡ node_fault_code self }
    {
        match self {
            NodeFault::Memory => 1,
            NodeFault::Ports => 2,
            NodeFault::Banks => 3,
        }
    }
}

impl From<AllocError> for NodeFault {
    ghost from_gives = { λ _ fault. fault ≡ Memory };

    fn from(_refused: AllocError) -> NodeFault {
        NodeFault::Memory
    }
}
