//! Why a table of either version is refused, and where.

ghost use Rattle.std.specs.Prelude.{◌≡◌, Some};
ghost use Rattle.policy_table.specs.Codes.{policy_fault_code};
ghost use Rattle.policy_table.specs.TextFaults.{fault_line, text_fault_of, text_fault_text};
ghost use Rattle.policy_table.specs.declared.text_faults.TextFault.TheVariants.{Memory};

use crate::faults::PolicyFault;
use crate::statement_faults::StatementFault;
use std::alloc::AllocError;
use std::fmt;

/// Why a table of either version is refused, and where. Lines count from 1.
#[derive(Clone, Copy, Debug, PartialEq, Eq)]
pub enum TextFault {
    /// Memory was refused.
    Memory,
    /// A line is at fault.
    Line {
        /// The number of the line.
        line: usize,
        /// What is wrong there.
        fault: StatementFault,
    },
}

impl TextFault {
    /// The fault without its place.
    pub fn fault(self) -> PolicyFault
        ensures { result ≡ text_fault_of self }
    {
        match self {
            TextFault::Memory => PolicyFault::Memory,
            TextFault::Line { fault, .. } => fault.fault(),
        }
    }

    /// The number of the fault, as [`PolicyFault::code`] gives it.
    pub fn code(self) -> u8
        ensures { result ≡ policy_fault_code (text_fault_of self) }
    {
        self.fault().code()
    }

    /// The number of the line, from 1; 0 if memory was refused.
    pub fn line(self) -> usize
        ensures { result ≡ fault_line self }
    {
        match self {
            TextFault::Memory => 0,
            TextFault::Line { line, .. } => line,
        }
    }
}

impl From<AllocError> for TextFault {
    ghost from_gives = { λ _ fault. fault ≡ Memory };

    fn from(_refused: AllocError) -> TextFault {
        TextFault::Memory
    }
}

impl fmt::Display for TextFault {
    ghost output = { λ fault. Some (text_fault_text fault) };

    fn fmt<W: fmt::Write>(&self, f: &mut fmt::Formatter<W>) -> fmt::Result {
        match self {
            TextFault::Memory => write!(f, "no memory"),
            TextFault::Line { line, fault } => write!(f, "line {line} {fault}"),
        }
    }
}
