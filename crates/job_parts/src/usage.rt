//! Why a command line names no job.

ghost use Rattle.std.specs.Prelude.{◌≡◌};
ghost use Rattle.job_parts.specs.Statuses.{usage_status};
ghost use Rattle.job_parts.specs.declared.usage.UsageFault.TheVariants.{Memory};

use std::alloc::{AllocError, AllocFailed};
use thiserror::Error;

/// Why a command line names no job.
#[derive(Debug, PartialEq, Eq, Drop, Error)]
pub enum UsageFault {
    /// The words fit no subcommand, or ask for help: the text for the user, with its line feeds.
    #[error("{0}")]
    Parse(String),
    /// The value of an option is none that it may have.
    #[error("bad option")]
    BadOption,
    /// Memory was refused.
    #[error("no memory")]
    Memory,
}

impl UsageFault {
    /// The exit status of a program whose command line has this fault.
    pub fn status(&self) -> u8
        ensures { result ≡ usage_status self.now }
    {
        match self {
            UsageFault::Parse(_) | UsageFault::BadOption => 2,
            UsageFault::Memory => 1,
        }
    }
}

impl From<AllocError> for UsageFault {
    ghost from_gives = { λ _ fault. fault ≡ Memory };

    fn from(_refused: AllocError) -> UsageFault {
        UsageFault::Memory
    }
}

impl<T: Drop> From<AllocFailed<T>> for UsageFault {
    ghost from_gives = { λ _ fault. fault ≡ Memory };

    fn from(_refused: AllocFailed<T>) -> UsageFault {
        UsageFault::Memory
    }
}
