//! Memory operands in a text.

ghost use Rattle.std.specs.Prelude.{◌≡◌, ℕ, ℤ, ◌∷◌, IfOk, MatchOption, MatchResult};
ghost use Rattle.basm_lex.specs.Operands.{IsBracketed, IsUnbracketed, WritesOffset, WritesMemoryOperand, WritesRegister};

use crate::numbers::{NumberFault, magnitude};
use crate::registers::register;
use bpf_insn::{MemoryOperand, Register};

/// The memory operand that a word writes: `[rB+N]` or `[rB-N]`.
///
/// # Errors
///
/// - `Form`: the word does not have this form.
/// - `Range`: the offset does not fit 16 bits.
pub fn read_memory_operand(word: &str) -> Result<MemoryOperand, NumberFault>
    ensures writes { IfOk result (WritesMemoryOperand word.now) }
    ensures exact { (place : MemoryOperand) → WritesMemoryOperand word.now place
        → result ≡ Ok place }
{
    let inner = inside(word)?;
    match inner.split_once('+') {
        Some((base, digits)) => {
            let base = based(base)?;
            let offset = forward(digits)?;
            Ok(MemoryOperand { base, offset })
        }
        None => {
            let Some((base, digits)) = inner.split_once('-') else {
                return Err(NumberFault::Form);
            };
            let base = based(base)?;
            let offset = backward(digits)?;
            Ok(MemoryOperand { base, offset })
        }
    }
}

/// The offset that digits after a plus write.
fn forward(digits: &str) -> Result<i16, NumberFault>
    ensures writes { IfOk result (WritesOffset (43 ∷ digits.now)) }
    ensures exact { (offset : ℤ) → WritesOffset (43 ∷ digits.now) offset → result ≡ Ok offset }
{
    let offset = magnitude(digits)?;
    i16::try_from(offset).map_err(|_| NumberFault::Range)
}

/// The offset that digits after a minus write.
fn backward(digits: &str) -> Result<i16, NumberFault>
    ensures writes { IfOk result (WritesOffset (45 ∷ digits.now)) }
    ensures exact { (offset : ℤ) → WritesOffset (45 ∷ digits.now) offset → result ≡ Ok offset }
{
    let offset = -magnitude(digits)?;
    i16::try_from(offset).map_err(|_| NumberFault::Range)
}

/// The text between the brackets.
fn inside(word: &str) -> Result<&str, NumberFault>
    ensures { MatchResult result (λ inner. IsBracketed word.now inner.now)
        (λ _. IsUnbracketed word.now) }
{
    match within(word) {
        Some(inner) => Ok(inner),
        None => Err(NumberFault::Form),
    }
}

fn within(word: &str) -> Option<&str>
    ensures { MatchOption result (IsUnbracketed word.now)
        (λ inner. IsBracketed word.now inner.now) }
{
    match word.strip_prefix('[') {
        Some(rest) => rest.strip_suffix(']'),
        None => None,
    }
}

fn based(word: &str) -> Result<Register, NumberFault>
    ensures writes { IfOk result (WritesRegister word.now) }
    ensures exact { (number : ℕ) → WritesRegister word.now number → result ≡ Ok number }
{
    match register(word) {
        Some(found) => Ok(found),
        None => Err(NumberFault::Form),
    }
}
