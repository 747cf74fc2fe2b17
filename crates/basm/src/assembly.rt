//! From a text to an image.

ghost use Rattle.std.specs.Prelude.{◌≡◌, ◌==◌, IfOk, MatchResult};
ghost use Rattle.bpf.specs.Program.{Program};
ghost use Rattle.basm.specs.PartialImage.{ArePartsOf, SayParts, SurveysText, names_in};
ghost use Rattle.basm.specs.Outcomes.{Makes, out_of_memory};
ghost use Rattle.basm.specs.Relation.{IsText, pieces_of};
ghost use Rattle.basm.specs.declared.faults.AsmCode.TheVariants.{Memory};

use crate::faults::{AsmCode, AsmFault};
use crate::partial_image::PartialImage;
use crate::pieces::pieces_of;
use crate::survey::Survey;
use basm_lex::mnemonic_laws;
use bpf::Image;
use std::alloc::Global;

/// The image that the text writes. Its loops are in the order of their heads.
///
/// # Errors
///
/// The fault of the lowest line that has one, and on that line the one with the lowest code. A fault of the whole
/// text is at line 0:
///
/// - `TooMany`: the text has no instructions.
/// - `BadBudget`: the text has no budget.
/// - `Memory`: memory is refused, at whatever line.
pub fn assemble(alloc: Global, text: &str) -> Result<Image, AsmFault>
    ensures text { IfOk result (IsText text.now) }

    // A text of an image gives that image, unless memory is refused.
    ensures exact { (p : Program) → IsText text.now p → Makes p result }
{
    mnemonic_laws();
    let survey = Survey::of(alloc, text)?;
    if survey.slots == 0 {
        return Err(AsmFault::of_text(AsmCode::TooMany));
    }
    if !survey.has_budget {
        return Err(AsmFault::of_text(AsmCode::BadBudget));
    }
    let parts = read_lines(alloc, text, &survey)?;
    if let Some(line) = survey.repeated {
        return Err(AsmFault::of_line(line, AsmCode::BadLabel));
    }
    parts.into_image(alloc)
}

/// What the lines declare.
fn read_lines(alloc: Global, text: &str, survey: &Survey) -> Result<PartialImage, AsmFault>
    ensures parts { IfOk result (SayParts (names_in survey.now) (pieces_of text.now)) }
    ensures exact { (p : Program) (t : IsText text.now p) → SurveysText t survey.now
        → MatchResult result (ArePartsOf t.items) (λ fault. fault ≡ out_of_memory) }
{
    let mut parts = PartialImage::new(alloc);
    let mut number: u32 = 0;
    for line in pieces_of(text) {
        number = number.saturating_add(1);
        if let Err(code) = parts.add_line(alloc, survey, line) {
            return Err(first_fault(survey.repeated, number, code));
        }
    }
    Ok(parts)
}

/// The fault of this line, or that of an earlier one that defines a name again.
fn first_fault(repeated: Option<u32>, number: u32, code: AsmCode) -> AsmFault
    ensures { code ≡ Memory → result ≡ out_of_memory }
{
    match repeated {
        Some(line) if line < number && code != AsmCode::Memory => {
            AsmFault::of_line(line, AsmCode::BadLabel)
        }
        _ => AsmFault::of_line(number, code),
    }
}
