//! Why an instruction is refused.

ghost use Rattle.std.specs.Prelude.{◌≡◌};
ghost use Rattle.absdom.specs.Codes.{cause_code};

use thiserror::Error;

/// Why an instruction is refused at a state. The verifier tests the operands first, the destination before the
/// source. Of each it tests whether it is set, and then its kind.
#[derive(Clone, Copy, Debug, PartialEq, Eq, Error)]
pub enum Cause {
    /// An operand may be unset.
    #[error("an operand is unset")]
    UnsetOperand,
    /// An operand is of another kind than the instruction takes.
    #[error("an operand is of the wrong kind")]
    KindMismatch,
    /// An access does not lie wholly inside its region.
    #[error("an access is not wholly inside its region")]
    OutOfRegion,
    /// A byte of the stack that a load may read may be unset.
    #[error("a byte of the stack is read that is unset")]
    UnsetStack,
    /// A store goes to a region of the header, which is read-only.
    #[error("the header is written")]
    HeaderWrite,
    /// A pointer moves by a number of unknown sign, or to an offset outside -65,536 to 65,536.
    #[error("a pointer is moved too far")]
    PointerRange,
}

impl Cause {
    /// The number of the refusal: 5 to 9, or 11.
    pub fn code(self) -> u8
        ensures { result ≡ cause_code self }
    {
        match self {
            Cause::UnsetOperand => 5,
            Cause::KindMismatch => 6,
            Cause::OutOfRegion => 7,
            Cause::UnsetStack => 8,
            Cause::HeaderWrite => 9,
            Cause::PointerRange => 11,
        }
    }
}
