//! Whether a program may judge, and, if it may not, what was known at the slot.

ghost use Rattle.std.specs.Prelude.{◌≡◌, ◌≢◌, IfErr, IfOk};
ghost use Rattle.bver.specs.Justified.{IsJustified};
ghost use Rattle.bver.specs.Refusals.{IsRefusal};
ghost use Rattle.bver.specs.Reported.{ReportsKnown};
ghost use Rattle.bver_form.specs.Form.{IsFormed};
ghost use Rattle.bver_form.specs.declared.refusal.Refusal.TheVariants.{Memory};
ghost use Rattle.bver.specs.Unjustified.{ReportsUnjustified};
ghost use Rattle.machine.specs.Runs.{IsSafe};

use bpf::Image;
use bver::{Accepted, MapSizes, Refusal, Refused, State, explain};
use bver_form::{check, first_faults};
use std::alloc::Global;

/// Verifies a copy of an image. It finds a fault of its form before it asks for memory. If the image is refused for its
/// values, `known` is then what was known at the slot.
fn verified(
    alloc: Global,
    image: &Image,
    sizes: &MapSizes,
    known: &mut State,
) -> Result<Accepted, Refused>
    ensures program { IfOk result (λ program. program.program ≡ image.now) }
    ensures justified { IfOk result (λ program. IsJustified image.now sizes.now) }
    ensures safe { IfOk result (λ program. IsSafe image.now sizes.now) }
    ensures refused { IfErr result (IsRefusal image.now) }
    ensures unjustified { IfErr result (ReportsUnjustified image.now sizes.now) }
    ensures known { IfErr result
        (λ refused. IsFormed image.now → refused.code ≢ Memory
        → ReportsKnown image.now sizes.now known.new refused) }
{
    first_faults();
    check(image)?;
    match image.copy() {
        Ok(copy) => explain(alloc, copy, sizes, known),
        Err(_) => Err(Refused {
            code: Refusal::Memory,
            slot: 0,
        }),
    }
}

/// Checks that a program may judge on a node with maps of these sizes.
///
/// # Errors
///
/// The refusal. If the form of the image is right and memory was not refused, `known` is then what was known at its
/// slot.
pub fn checked(
    alloc: Global,
    image: &Image,
    sizes: &MapSizes,
    known: &mut State,
) -> Result<(), Refused>
    ensures justified { IfOk result (λ _. IsJustified image.now sizes.now) }
    ensures safe { IfOk result (λ _. IsSafe image.now sizes.now) }
    ensures refused { IfErr result (IsRefusal image.now) }
    ensures unjustified { IfErr result (ReportsUnjustified image.now sizes.now) }
    ensures known { IfErr result
        (λ refused. IsFormed image.now → refused.code ≢ Memory
        → ReportsKnown image.now sizes.now known.new refused) }
{
    let _accepted = verified(alloc, image, sizes, known)?;
    Ok(())
}
