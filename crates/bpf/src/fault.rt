//! Why bytes are no image.

ghost use Rattle.std.specs.Prelude.{◌≡◌, IfSome, IsSome};
ghost use Rattle.bpf.specs.Fault.{image_fault_code, image_fault_of_code, image_fault_slot};
ghost use Rattle.bpf.specs.declared.fault.ImageFault.TheVariants.{Memory};

use bpf_insn::BadInsn;
use std::alloc::{AllocError, AllocFailed};
use thiserror::Error;

const MAGIC: &str = "\
The file does not begin with BPFA. Is it a text, or a table?
`rmapctl asm FILE OUT` makes an image of a text, `rmapctl policy FILE OUT` one of a table.";

const VERSION: &str = "\
The fifth byte is the version of the format, and this target reads versions 1 and 2.
Assemble the program's text anew.";

const LENGTH: &str = "\
The header declares how many loops and slots follow, 8 bytes each, and the file has fewer bytes or more.
Look whether the file was cut off, or something was written after it.";

const COUNT: &str = "\
An image has at most 8 loops, 1 to 512 slots, and four zero bytes after its budget.
Make the program shorter, or look at bytes 5 to 15 of the file.";

const BUDGET: &str = "\
The budget is from 1 to 65,536.
Look at the four bytes from 8 on, the least significant first.";

const LOOP: &str = "\
A loop has its head before its back, the back at a slot of the program, a bound from 1 to 4,096, a register from
r0 to r9 and a zero byte; heads rise from loop to loop.
Look at the 8 bytes of each loop, from byte 16 on, or assemble the program's text anew.";

const INSN: &str = "\
The 8 bytes of the slot that is printed spell no instruction; `rmapctl explain insn1` to `insn4` say why.
Assemble the program's text anew, or compare the bytes with docs/BPF.md.";

const MEMORY: &str = "\
The process was refused memory while the image was read.
Give the process more memory.";

/// Why bytes are no image: the first fault in the order of the variants. The length is tested twice. If there are
/// fewer than 16 bytes after a right magic and version, the fault is `Length` at once. Else `Length` comes after
/// `Budget`.
#[derive(Clone, Copy, Debug, PartialEq, Eq, Error)]
pub enum ImageFault {
    /// The first four bytes are not `BPFA`.
    #[error("the image does not begin with BPFA")]
    Magic,
    /// The version is neither 1 nor 2.
    #[error("the image's version is neither 1 nor 2")]
    Version,
    /// There are fewer bytes than the image declares, or more.
    #[error("the image has another length than it declares")]
    Length,
    /// There are over 8 loops, no slots or over 512, or the reserved word is not zero.
    #[error("a count of the image is out of range")]
    Count,
    /// The budget is 0 or over 65,536.
    #[error("the image's budget is out of range")]
    Budget,
    /// A loop's field is out of range, or the heads do not rise.
    #[error("a loop of the image is out of range")]
    Loop,
    /// The bytes of a slot spell no instruction.
    #[error("slot {slot}: {fault}")]
    Insn { slot: u16, fault: BadInsn },
    /// Memory was refused.
    #[error("no memory")]
    Memory,
}

impl ImageFault {
    /// The number of the fault: 1 to 8.
    pub fn code(self) -> u8
        ensures value { result ≡ image_fault_code self }
        ensures known { IsSome (image_fault_of_code result) }
    {
        match self {
            ImageFault::Magic => 1,
            ImageFault::Version => 2,
            ImageFault::Length => 3,
            ImageFault::Count => 4,
            ImageFault::Budget => 5,
            ImageFault::Loop => 6,
            ImageFault::Insn { .. } => 7,
            ImageFault::Memory => 8,
        }
    }

    /// A fault of a number, as [`ImageFault::code`] gives it, or `None` if no fault has it. Each fault of an
    /// instruction has number 7, for which the result is `Opcode` at slot 0.
    pub fn from_code(code: u8) -> Option<ImageFault>
        ensures value { result ≡ image_fault_of_code code }
        ensures number { IfSome result (λ fault. image_fault_code fault ≡ code) }
    {
        match code {
            1 => Some(ImageFault::Magic),
            2 => Some(ImageFault::Version),
            3 => Some(ImageFault::Length),
            4 => Some(ImageFault::Count),
            5 => Some(ImageFault::Budget),
            6 => Some(ImageFault::Loop),
            7 => Some(ImageFault::Insn {
                slot: 0,
                fault: BadInsn::Opcode,
            }),
            8 => Some(ImageFault::Memory),
            _ => None,
        }
    }

    /// What to say of the fault beside its name: when it comes, and what to do. The lines have at most 113 columns.
    pub fn advice(self) -> &'static str {
        match self {
            ImageFault::Magic => MAGIC,
            ImageFault::Version => VERSION,
            ImageFault::Length => LENGTH,
            ImageFault::Count => COUNT,
            ImageFault::Budget => BUDGET,
            ImageFault::Loop => LOOP,
            ImageFault::Insn { .. } => INSN,
            ImageFault::Memory => MEMORY,
        }
    }

    /// The slot of a faulty instruction, or 0 for every other fault.
    pub fn slot(self) -> u16
        ensures { result ≡ image_fault_slot self }
    {
        match self {
            ImageFault::Insn { slot, .. } => slot,
            _ => 0,
        }
    }
}

impl From<AllocError> for ImageFault {
    ghost from_gives = { λ _ e. e ≡ Memory };

    fn from(_e: AllocError) -> ImageFault {
        ImageFault::Memory
    }
}

impl<T: Drop> From<AllocFailed<T>> for ImageFault {
    ghost from_gives = { λ _ e. e ≡ Memory };

    fn from(_e: AllocFailed<T>) -> ImageFault {
        ImageFault::Memory
    }
}
