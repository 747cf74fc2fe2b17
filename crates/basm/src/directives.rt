//! Directives: the version, the budget and the loops.

ghost use Rattle.std.specs.Prelude.{◌≡◌, ◌≤◌, ◌<◌, ℕ, ℤ, pos, IfOk};
ghost use Rattle.basm_lex.specs.Numbers.{WritesNumber};
ghost use Rattle.bpf.specs.declared.header.TheConstants.{MAX_SLOTS};
ghost use Rattle.bpf.specs.Program.{IsBudget, IsLoop};
ghost use Rattle.bpf.specs.declared.version.Version.{Version as AVersion};
ghost use Rattle.basm.specs.PartialImage.{WritesLoop, names_in};
ghost use Rattle.basm.specs.Names.{slot_named};
ghost use Rattle.basm.specs.Relation.{WritesEnd, texts};
ghost use Rattle.basm.specs.Readers.{WritesBudget, WritesVersion};

use crate::faults::{AsmCode, both};
use crate::instructions::reg;
use crate::names::Names;
use crate::survey::Survey;
use basm_lex::{NumberFault, is_name, number};
use bpf::{Loop, MAX_SLOTS, Version, is_budget};

/// The version that the operands of `.version` declare.
///
/// # Errors
///
/// - `BadOperand`: there is not exactly one operand, or it is no number.
/// - `BadVersion`: the number is out of range, or no version has it.
pub fn read_version(operands: &[&str]) -> Result<Version, AsmCode>
    ensures writes { IfOk result (WritesVersion operands.now) }
    ensures exact { (version : AVersion) → WritesVersion operands.now version
        → result ≡ Ok version }
{
    let [number] = operands else {
        return Err(AsmCode::BadOperand);
    };
    let number = field(number, AsmCode::BadVersion)?;
    let number = u8::try_from(number).map_err(|_| AsmCode::BadVersion)?;
    Version::from_number(number).ok_or(AsmCode::BadVersion)
}

/// The budget that the operands of `.budget` declare.
///
/// # Errors
///
/// - `BadOperand`: there is not exactly one operand, or it is no number.
/// - `BadBudget`: the number is out of range.
pub fn read_budget(operands: &[&str]) -> Result<u32, AsmCode>
    ensures writes { IfOk result (WritesBudget operands.now) }
    ensures exact { (n : ℕ) → IsBudget n → WritesBudget operands.now n → result ≡ Ok n }
{
    let [budget] = operands else {
        return Err(AsmCode::BadOperand);
    };
    let budget = field(budget, AsmCode::BadBudget)?;
    if 0 <= budget && is_budget(budget as u32) {
        Ok(budget as u32)
    } else {
        Err(AsmCode::BadBudget)
    }
}

/// The loop that the operands of `.loop` declare.
///
/// # Errors
///
/// `BadOperand` if there are not exactly four operands. Else the one with the lowest code of the operands' faults:
///
/// - `BadOperand`: an operand is no number, no name or no register.
/// - `BadLabel`: the name of the head or the back is unknown.
/// - `BadLoop`: a number is out of range.
///
/// `BadLoop` also if the operands are right, and the loop does not fit the program.
pub fn read_loop(operands: &[&str], survey: &Survey) -> Result<Loop, AsmCode>
    ensures writes { IfOk result (WritesLoop (names_in survey.now) (texts operands.now)) }
    ensures exact { (l : Loop) → IsLoop survey.now.slots l → survey.now.slots ≤ MAX_SLOTS
        → WritesLoop (names_in survey.now) (texts operands.now) l → result ≡ Ok l }
{
    let [head, back, bound, counter] = operands else {
        return Err(AsmCode::BadOperand);
    };
    let ends = both(read_end(head, &survey.names), read_end(back, &survey.names));
    let counted = both(read_short(bound), reg(counter));
    let ((head, back), (bound, register)) = both(ends, counted)?;
    let found = Loop {
        head,
        back,
        bound,
        register,
    };
    if found.fits(most_slots(survey)) {
        Ok(found)
    } else {
        Err(AsmCode::BadLoop)
    }
}

/// The number of a directive's field. If the number is out of range, the fault is the directive's own.
fn field(word: &str, out_of_range: AsmCode) -> Result<i32, AsmCode>
    ensures writes { IfOk result (WritesNumber word.now) }
    ensures exact { (value : ℤ) → WritesNumber word.now value → result ≡ Ok value }
{
    match number(word) {
        Ok(value) => Ok(value),
        Err(NumberFault::Form) => Err(AsmCode::BadOperand),
        Err(NumberFault::Range) => Err(out_of_range),
    }
}

/// The slots of the program, if an image may have as many.
fn most_slots(survey: &Survey) -> u16
    ensures { survey.now.slots ≤ MAX_SLOTS → result ≡ survey.now.slots }
{
    survey.slots.min(u32::from(MAX_SLOTS)) as u16
}

/// A number of 16 bits in a field of `.loop`.
fn read_short(word: &str) -> Result<u16, AsmCode>
    ensures writes { IfOk result (λ value. WritesNumber word.now (pos value)) }
    ensures exact { (value : ℕ) → value < 65536 → WritesNumber word.now (pos value)
        → result ≡ Ok value }
{
    let value = field(word, AsmCode::BadLoop)?;
    u16::try_from(value).map_err(|_| AsmCode::BadLoop)
}

/// A slot, by its number or a name.
fn read_end(word: &str, names: &Names) -> Result<u16, AsmCode>
    ensures writes { IfOk result (WritesEnd (slot_named names.now) word.now) }
    ensures exact { (slot : ℕ) → slot < 65536 → WritesEnd (slot_named names.now) word.now slot
        → result ≡ Ok slot }
{
    if is_name(word) {
        let slot = names.slot_of(word).ok_or(AsmCode::BadLabel)?;
        u16::try_from(slot).map_err(|_| AsmCode::BadLoop)
    } else {
        read_short(word)
    }
}
