//! What ends a job before its end.

ghost use Rattle.std.specs.Prelude.{◌≡◌, Some};
ghost use Rattle.job_parts.specs.Printed.{fault_text};
ghost use Rattle.job_parts.specs.declared.faults.Fault.TheVariants.{BadImage, BadTable, BadText, NoMemory, Refused as IsRefused};

use crate::bad_lines::BadLine;
use crate::node_codes::NodeCode;
use basm::AsmFault;
use bpf::ImageFault;
use bver::Refused;
use policy::PolicyFault;
use std::alloc::AllocError;
use std::fmt;

/// What ends a job before its end. It is the last line that the job prints.
#[derive(Debug, Drop)]
pub enum Fault<'a> {
    /// The file of this name cannot be read, or is no text but must be one.
    CannotRead(&'a str),
    /// The file of this name cannot be written.
    CannotWrite(&'a str),
    /// Memory was refused, and that has no number of its own.
    NoMemory,
    /// What a node is made of is no longer what it was when it was opened: memory changed.
    Damaged,
    /// A text is no image.
    BadText(AsmFault),
    /// A policy table is bad, or memory was refused to it or to its image.
    BadTable(PolicyFault),
    /// The bytes of a file are no image.
    BadImage(ImageFault),
    /// The verifier refuses an image.
    Refused(Refused),
    /// A node's file is bad.
    BadNode {
        /// What is wrong with it.
        code: NodeCode,
        /// Its place, in the words of the file, for the user.
        place: String,
    },
    /// A packet line or an event line is bad.
    BadLine {
        /// The number of the line, from 1.
        number: usize,
        /// What is wrong with it.
        fault: BadLine,
    },
}

impl From<ImageFault> for Fault<'_> {
    ghost from_gives = { λ fault given. given ≡ BadImage fault };

    fn from(fault: ImageFault) -> Self {
        Fault::BadImage(fault)
    }
}

impl From<AsmFault> for Fault<'_> {
    ghost from_gives = { λ fault given. given ≡ BadText fault };

    fn from(fault: AsmFault) -> Self {
        Fault::BadText(fault)
    }
}

impl From<PolicyFault> for Fault<'_> {
    ghost from_gives = { λ fault given. given ≡ BadTable fault };

    fn from(fault: PolicyFault) -> Self {
        Fault::BadTable(fault)
    }
}

impl From<Refused> for Fault<'_> {
    ghost from_gives = { λ refused given. given ≡ IsRefused refused };

    fn from(refused: Refused) -> Self {
        Fault::Refused(refused)
    }
}

impl From<AllocError> for Fault<'_> {
    ghost from_gives = { λ _ given. given ≡ NoMemory };

    fn from(_refused: AllocError) -> Self {
        Fault::NoMemory
    }
}

impl fmt::Display for Fault<'_> {
    ghost output = { λ fault. Some (fault_text fault) };

    fn fmt<W: fmt::Write>(&self, f: &mut fmt::Formatter<W>) -> fmt::Result {
        match self {
            Fault::CannotRead(name) => write!(f, "cannot read {name}"),
            Fault::CannotWrite(name) => write!(f, "cannot write {name}"),
            Fault::NoMemory => write!(f, "no memory"),
            Fault::Damaged => write!(f, "damaged"),
            Fault::BadText(fault) => {
                let code = fault.number();
                let line = fault.line;
                write!(f, "asm fault {code} line {line}")
            }
            Fault::BadTable(fault) => {
                let code = fault.code();
                write!(f, "policy fault {code}")
            }
            Fault::BadImage(fault) => {
                let code = fault.code();
                let slot = fault.slot();
                write!(f, "image fault {code} slot {slot}")
            }
            Fault::Refused(refused) => {
                let code = refused.number();
                let slot = refused.slot;
                write!(f, "refused V{code} slot {slot}")
            }
            Fault::BadNode { code, .. } => {
                let code = code.number();
                write!(f, "node fault {code}")
            }
            Fault::BadLine { number, fault } => {
                let code = fault.number();
                write!(f, "line {number} fault {code}")
            }
        }
    }
}
