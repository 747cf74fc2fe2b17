//! Why a program was not published.

ghost use Rattle.std.specs.Prelude.{◌≡◌};
ghost use Rattle.node_programs.specs.Codes.{publish_fault_code};
ghost use Rattle.node_programs.specs.declared.faults.PublishFault.TheVariants.{Memory as NoMemory};

use std::alloc::{AllocError, AllocFailed};
use thiserror::Error;

/// Why a program was not published. They are tested in the order `Slot`, `GenerationsFull`, `Memory`.
#[derive(Clone, Copy, Debug, PartialEq, Eq, Error)]
pub enum PublishFault {
    /// Memory was refused.
    #[error("no memory")]
    Memory,
    /// A slot above 3.
    #[error("no such slot")]
    Slot,
    /// 4,294,967,295 programs were published.
    #[error("generations full")]
    GenerationsFull,
}

impl PublishFault {
    /// The number of the fault, 1 to 3.
    pub fn code(self) -> u8
        ensures { result ≡ publish_fault_code self }
    {
        match self {
            PublishFault::Memory => 1,
            PublishFault::Slot => 2,
            PublishFault::GenerationsFull => 3,
        }
    }
}

impl From<AllocError> for PublishFault {
    ghost from_gives = { λ _ fault. fault ≡ NoMemory };

    fn from(_refused: AllocError) -> PublishFault {
        PublishFault::Memory
    }
}

impl<T: Drop> From<AllocFailed<T>> for PublishFault {
    ghost from_gives = { λ _ fault. fault ≡ NoMemory };

    fn from(_refused: AllocFailed<T>) -> PublishFault {
        PublishFault::Memory
    }
}
