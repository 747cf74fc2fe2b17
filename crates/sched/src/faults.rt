//! Why there is no world, or no next one.

ghost use Rattle.std.specs.Prelude.{◌≡◌};
ghost use Rattle.sched.specs.Codes.{fault_of_node, fault_of_refusal, world_fault_code};
ghost use Rattle.sched.specs.declared.faults.WorldFault.TheVariants.{Memory as NoMemory};

use bver::{Refusal, Refused};
use node_parts::NodeFault;
use std::alloc::{AllocError, AllocFailed};
use thiserror::Error;

/// Why a world could not be made, or could not go on.
#[derive(Clone, Copy, Debug, PartialEq, Eq, Error)]
pub enum WorldFault {
    /// Memory was refused. A world that existed before is unchanged.
    #[error("no memory")]
    Memory,
    /// The ports or the banks are outside their limits.
    #[error("ports or banks outside their limits")]
    Config,
    /// The verifier refuses the factory program.
    #[error("factory program refused")]
    Image,
}

impl WorldFault {
    /// The number of the fault, 1 to 3.
    pub fn code(self) -> u8
        ensures { result ≡ world_fault_code self }
    {
        match self {
            WorldFault::Memory => 1,
            WorldFault::Config => 2,
            WorldFault::Image => 3,
        }
    }
}

impl From<AllocError> for WorldFault {
    ghost from_gives = { λ _ fault. fault ≡ NoMemory };

    fn from(_refused: AllocError) -> WorldFault {
        WorldFault::Memory
    }
}

impl<T: Drop> From<AllocFailed<T>> for WorldFault {
    ghost from_gives = { λ _ fault. fault ≡ NoMemory };

    fn from(_refused: AllocFailed<T>) -> WorldFault {
        WorldFault::Memory
    }
}

impl From<NodeFault> for WorldFault {
    ghost from_gives = { λ refused fault. fault ≡ fault_of_node refused };

    fn from(refused: NodeFault) -> WorldFault {
        match refused {
            NodeFault::Memory => WorldFault::Memory,
            NodeFault::Ports | NodeFault::Banks => WorldFault::Config,
        }
    }
}

impl From<Refused> for WorldFault {
    ghost from_gives = { λ refused fault. fault ≡ fault_of_refusal refused.code };

    fn from(refused: Refused) -> WorldFault {
        if matches!(refused.code, Refusal::Memory) {
            WorldFault::Memory
        } else {
            WorldFault::Image
        }
    }
}
