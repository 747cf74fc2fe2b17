//! Why an image may not judge, and why a node is not opened.

ghost use Rattle.std.specs.Prelude.{◌≡◌};
ghost use Rattle.single_node_c.specs.Opening.{code_of_opening, no_why, why_of};

use crate::codes::{BAD_CONFIG, BAD_IMAGE, BAD_MAPS, NO_MEMORY, REFUSED};
use crate::numbers::Why;
use bpf::ImageFault;
use bver::Refused;

/// Why an image may not judge, or a node is not opened.
#[derive(Clone, Copy, Debug, PartialEq, Eq)]
pub enum Unfit {
    /// Memory was refused.
    Memory,
    /// Ports or banks are outside their limits.
    Config,
    /// A node may not have these maps.
    Maps,
    /// The bytes are no image.
    Image(ImageFault),
    /// The verifier refuses the program.
    Program(Refused),
}

/// What a call reports if there is no reason.
pub fn no_why() -> Why
    ensures { result ≡ no_why }
{
    Why { code: 0, slot: 0 }
}

impl Unfit {
    /// The code for it.
    pub fn code(self) -> u32
        ensures { result ≡ code_of_opening self }
    {
        match self {
            Unfit::Memory => NO_MEMORY,
            Unfit::Config => BAD_CONFIG,
            Unfit::Maps => BAD_MAPS,
            Unfit::Image(_) => BAD_IMAGE,
            Unfit::Program(_) => REFUSED,
        }
    }

    /// The number of the image's fault or of the refusal, and its slot.
    pub fn why(self) -> Why
        ensures { result ≡ why_of self }
    {
        match self {
            Unfit::Memory | Unfit::Config | Unfit::Maps => no_why(),
            Unfit::Image(fault) => Why {
                code: u16::from(fault.code()),
                slot: fault.slot(),
            },
            Unfit::Program(refused) => Why {
                code: u16::from(refused.number()),
                slot: refused.slot,
            },
        }
    }
}
