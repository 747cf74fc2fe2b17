//! Why a text is no image.

ghost use Rattle.std.specs.Prelude.{◌≡◌, Ok, IfOk, Some, IfSome};
ghost use Rattle.basm.specs.Codes.{asm_code, lower_code, number_code, asm_of_code};
ghost use Rattle.basm.specs.Outcomes.{image_code, line_fault, out_of_memory, text_fault};
ghost use Rattle.basm.specs.declared.faults.AsmCode.TheVariants.{Memory};

use basm_lex::NumberFault;
use bpf::ImageFault;
use std::alloc::{AllocError, AllocFailed};
use thiserror::Error;

const BAD_WORD: &str = "\
The line begins with a word that is no instruction and no directive, or more follows a label.
Compare the word with docs/COMMANDS.md, \"The text of a program\"; a label has a line of its own.";

const BAD_OPERAND: &str = "\
The instruction wants other operands, another number of them, or registers from r0 to r10.
Compare the line with the forms of docs/COMMANDS.md, \"The text of a program\": commas are between operands,
and brackets around addresses.";

const BAD_NUMBER: &str = "\
A number does not fit its field: decimals are from -2^31 to 2^31 - 1, and for `lddw` from -2^63 to 2^64 - 1; `0x`
writes at most 8 digits and for `lddw` 16; an offset of memory is from -2^15 to 2^15 - 1.
Write a smaller number, or load it by `lddw` first.";

const BAD_LABEL: &str = "\
The line jumps to a name that no line defines, or defines a name that another line has defined.
Look for the name's other lines: upper and lower case differ.";

const REACH: &str = "\
The target is further away than its field can say: a jump reaches 32,768 slots back and 32,767 forward.
Jump in two steps, or by `ja32`.";

const TOO_MANY: &str = "\
A program has 1 to 512 slots and at most 8 loops; line 0 means that there is no instruction.
Make the program shorter, or share what branches have in common.";

const BAD_BUDGET: &str = "\
A program declares once how many steps a run may take: a line `.budget N` with N from 1 to 65,536. Line 0 means
that there is none.
Put `.budget 65536` first; `rmapctl verify` then prints the weight, which is the least budget.";

const BAD_LOOP: &str = "\
A line `.loop HEAD, BACK, N, rK` has two slots or names of which BACK is after HEAD, a bound N from 1 to 4,096
and a register from r0 to r9; no two loops have one head.
Compare the fields with the slots of the text.";

const BAD_VERSION: &str = "\
A text declares at most once which version of the format its image has: a line `.version N` with N 1 or 2. Without
it the version is 1.
Keep one such line; in version 2 a number that is loaded from the stack has the range with which it was stored,
and there is helper 3.";

const MEMORY: &str = "\
The process was refused memory while the text was assembled.
Give the process more memory.";

/// What is wrong with a line.
#[derive(Clone, Copy, Debug, PartialEq, Eq, Error)]
pub enum AsmCode {
    /// No instruction, directive or label begins with the word.
    #[error("an unknown word")]
    BadWord,
    /// The operands have another number or form.
    #[error("other operands are wanted")]
    BadOperand,
    /// A number is out of range.
    #[error("a number is out of range")]
    BadNumber,
    /// A name is unknown, or defined twice.
    #[error("the name is unknown or defined twice")]
    BadLabel,
    /// A target is too far away for its field.
    #[error("the target is too far away")]
    Reach,
    /// There are over 512 slots or 8 loops, or no instruction.
    #[error("there is no instruction, or too many slots or loops")]
    TooMany,
    /// The budget is missing, declared twice or out of range.
    #[error("the budget is missing, declared twice or out of range")]
    BadBudget,
    /// A field of a loop is out of range, or two loops have one head.
    #[error("a field of the loop is out of range")]
    BadLoop,
    /// Memory was refused.
    #[error("no memory")]
    Memory,
    /// The version is declared twice, or there is no such version.
    #[error("the version is declared twice or is neither 1 nor 2")]
    BadVersion,
}

impl AsmCode {
    /// The number of the fault: 1 to 10.
    pub fn code(self) -> u8
        ensures value { result ≡ asm_code self }
        ensures back { asm_of_code result ≡ Some self }
    {
        match self {
            AsmCode::BadWord => 1,
            AsmCode::BadOperand => 2,
            AsmCode::BadNumber => 3,
            AsmCode::BadLabel => 4,
            AsmCode::Reach => 5,
            AsmCode::TooMany => 6,
            AsmCode::BadBudget => 7,
            AsmCode::BadLoop => 8,
            AsmCode::Memory => 9,
            AsmCode::BadVersion => 10,
        }
    }

    /// The fault of a number, as [`AsmCode::code`] gives it, or `None` if no fault has it.
    pub fn from_code(code: u8) -> Option<AsmCode>
        ensures value { result ≡ asm_of_code code }
        ensures number { IfSome result (λ fault. asm_code fault ≡ code) }
    {
        match code {
            1 => Some(AsmCode::BadWord),
            2 => Some(AsmCode::BadOperand),
            3 => Some(AsmCode::BadNumber),
            4 => Some(AsmCode::BadLabel),
            5 => Some(AsmCode::Reach),
            6 => Some(AsmCode::TooMany),
            7 => Some(AsmCode::BadBudget),
            8 => Some(AsmCode::BadLoop),
            9 => Some(AsmCode::Memory),
            10 => Some(AsmCode::BadVersion),
            _ => None,
        }
    }

    /// What to say of the fault beside its name: when it comes, and what to do. The lines have at most 114 columns.
    pub fn advice(self) -> &'static str {
        match self {
            AsmCode::BadWord => BAD_WORD,
            AsmCode::BadOperand => BAD_OPERAND,
            AsmCode::BadNumber => BAD_NUMBER,
            AsmCode::BadLabel => BAD_LABEL,
            AsmCode::Reach => REACH,
            AsmCode::TooMany => TOO_MANY,
            AsmCode::BadBudget => BAD_BUDGET,
            AsmCode::BadLoop => BAD_LOOP,
            AsmCode::Memory => MEMORY,
            AsmCode::BadVersion => BAD_VERSION,
        }
    }

    /// The one of two faults of a line that has the lower number.
    pub fn lower(self, other: AsmCode) -> AsmCode
        ensures { result ≡ lower_code self other }
    {
        if other.code() < self.code() {
            other
        } else {
            self
        }
    }
}

/// Both values.
///
/// # Errors
///
/// The fault, or the one of two faults that has the lower number.
pub fn both<A: Drop, B: Drop>(
    first: Result<A, AsmCode>,
    second: Result<B, AsmCode>,
) -> Result<(A, B), AsmCode>
    ensures both { IfOk result (λ both. (first ≡ Ok both.0) × (second ≡ Ok both.1)) }
    ensures exact { IfOk first (λ a. IfOk second (λ b. result ≡ Ok (a, b))) }
{
    match first {
        Ok(a) => match second {
            Ok(b) => Ok((a, b)),
            Err(fault) => Err(fault),
        },
        Err(fault) => match second {
            Ok(_) => Err(fault),
            Err(other) => Err(fault.lower(other)),
        },
    }
}

impl From<AllocError> for AsmCode {
    ghost from_gives = { λ _ code. code ≡ Memory };

    fn from(_refused: AllocError) -> AsmCode {
        AsmCode::Memory
    }
}

impl<T: Drop> From<AllocFailed<T>> for AsmCode {
    ghost from_gives = { λ _ code. code ≡ Memory };

    fn from(_refused: AllocFailed<T>) -> AsmCode {
        AsmCode::Memory
    }
}

impl From<NumberFault> for AsmCode {
    ghost from_gives = { λ fault code. code ≡ number_code fault };

    fn from(fault: NumberFault) -> AsmCode {
        match fault {
            NumberFault::Form => AsmCode::BadOperand,
            NumberFault::Range => AsmCode::BadNumber,
        }
    }
}

/// Why a text is no image: the lowest line that has a fault, and on that line the lowest code.
#[derive(Clone, Copy, Debug, PartialEq, Eq, Error)]
#[error("line {line}: {code}")]
pub struct AsmFault {
    /// The number of the line, from 1. It is 0 if the fault is the whole text's.
    pub line: u32,
    /// What is wrong.
    pub code: AsmCode,
}

impl AsmFault {
    /// A fault of the whole text.
    pub fn of_text(code: AsmCode) -> AsmFault
        ensures { result ≡ text_fault code }
    {
        AsmFault { line: 0, code }
    }

    /// A fault of a line. Refused memory is no line's.
    pub fn of_line(line: u32, code: AsmCode) -> AsmFault
        ensures { result ≡ line_fault line code }
    {
        match code {
            AsmCode::Memory => AsmFault::of_text(code),
            _ => AsmFault { line, code },
        }
    }

    /// The number of what is wrong: 1 to 10.
    pub fn number(self) -> u8
        ensures { result ≡ asm_code self.code }
    {
        AsmCode::code(self.code)
    }
}

impl From<AllocError> for AsmFault {
    ghost from_gives = { λ _ fault. fault ≡ out_of_memory };

    fn from(_refused: AllocError) -> AsmFault {
        AsmFault::of_text(AsmCode::Memory)
    }
}

impl<T: Drop> From<AllocFailed<T>> for AsmFault {
    ghost from_gives = { λ _ fault. fault ≡ out_of_memory };

    fn from(_refused: AllocFailed<T>) -> AsmFault {
        AsmFault::of_text(AsmCode::Memory)
    }
}

impl From<ImageFault> for AsmFault {
    ghost from_gives = { λ found fault. fault ≡ text_fault (image_code found) };

    fn from(fault: ImageFault) -> AsmFault {
        AsmFault::of_text(match fault {
            ImageFault::Budget => AsmCode::BadBudget,
            ImageFault::Loop => AsmCode::BadLoop,
            ImageFault::Memory => AsmCode::Memory,
            ImageFault::Version => AsmCode::BadVersion,
            _ => AsmCode::TooMany,
        })
    }
}
