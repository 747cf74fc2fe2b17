//! The targets of jumps.

ghost use Rattle.std.specs.Prelude.{◌≡◌, ℤ, IfOk, FitsSigned};
ghost use Rattle.std.specs.Int.{w16, w32};
ghost use Rattle.basm.specs.Names.{slot_named};
ghost use Rattle.basm.specs.Relation.{WritesLongTarget, WritesShortTarget, WritesTarget};

use crate::faults::AsmCode;
use crate::names::Names;
use basm_lex::{NumberFault, distance, is_name};

/// The distance of a jump from the slot to the target, in slots from the next one: `+N`, `-N` or a name.
///
/// # Errors
///
/// - `BadOperand`: the word is no name and no distance.
/// - `BadLabel`: the name is unknown.
/// - `Reach`: the digits of the distance do not fit 32 bits.
pub fn read_target(word: &str, names: &Names, slot: u32) -> Result<i64, AsmCode>
    ensures writes { IfOk result (WritesTarget (slot_named names.now) slot word.now) }
    ensures exact { (offset : ℤ) → WritesTarget (slot_named names.now) slot word.now offset
        → FitsSigned w32 offset → result ≡ Ok offset }
{
    if is_name(word) {
        match names.slot_of(word) {
            Some(found) => Ok(i64::from(found) - i64::from(slot) - 1),
            None => Err(AsmCode::BadLabel),
        }
    } else {
        match distance(word) {
            Ok(slots) => Ok(slots),
            Err(NumberFault::Form) => Err(AsmCode::BadOperand),
            Err(NumberFault::Range) => Err(AsmCode::Reach),
        }
    }
}

/// The target of a jump, as a distance that a field of 16 bits holds.
///
/// # Errors
///
/// Those of [`read_target`], and `Reach` if the field does not hold the distance.
pub fn read_short_target(word: &str, names: &Names, slot: u32) -> Result<i16, AsmCode>
    ensures writes { IfOk result (WritesShortTarget (slot_named names.now) slot word.now) }
    ensures exact { (offset : ℤ) → WritesTarget (slot_named names.now) slot word.now offset
        → FitsSigned w16 offset → result ≡ Ok offset }
{
    let slots = read_target(word, names, slot)?;
    i16::try_from(slots).map_err(|_| AsmCode::Reach)
}

/// The same in a field of 32 bits.
///
/// # Errors
///
/// Those of [`read_target`], and `Reach` if the field does not hold the distance.
pub fn read_long_target(word: &str, names: &Names, slot: u32) -> Result<i32, AsmCode>
    ensures writes { IfOk result (WritesLongTarget (slot_named names.now) slot word.now) }
    ensures exact { (offset : ℤ) → WritesTarget (slot_named names.now) slot word.now offset
        → FitsSigned w32 offset → result ≡ Ok offset }
{
    let slots = read_target(word, names, slot)?;
    i32::try_from(slots).map_err(|_| AsmCode::Reach)
}
