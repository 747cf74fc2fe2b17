//! Which instructions there may be, whatever their slot.

ghost use Rattle.std.specs.Prelude.{◌≡◌, ◌≢◌, OnOk, Some};
ghost use Rattle.machine.specs.Helpers.{helper_of};
ghost use Rattle.machine.specs.Step.{knows_helper};
ghost use Rattle.bver_form.specs.Form.{ReportsFault};
ghost use Rattle.bver_form.specs.Support.{IsSupportedCall, call_fault, frame_fault};

use crate::refusal::Refusal;
use bpf::Version;
use bpf_insn::{Callee, FRAME_POINTER, Register};
use machine::Helper;

/// Whether the number is that of a helper which the version of the format has.
fn knows_helper(version: Version, number: i32) -> bool
    ensures { result ≡ knows_helper version (helper_of number) }
{
    match Helper::of_number(number) {
        Some(helper) => helper.is_in(version),
        None => false,
    }
}

/// Tests that the call is of a helper that the version of the format has.
pub(crate) fn check_call(version: Version, callee: Callee, number: i32) -> Result<(), Refusal>
    ensures supported { OnOk result (IsSupportedCall version callee number) }
    ensures fault { ReportsFault result (call_fault version callee number) }
{
    match callee {
        Callee::Helper => {
            if knows_helper(version, number) {
                Ok(())
            } else {
                Err(Refusal::Helper)
            }
        }
        Callee::Local | Callee::ByTypeId => Err(Refusal::Unsupported),
    }
}

/// Tests that the register, which an instruction writes, is not the frame pointer.
pub(crate) fn check_written(register: Register) -> Result<(), Refusal>
    ensures leaves { OnOk result (register ≢ 10) }
    ensures fault { ReportsFault result (frame_fault (Some register)) }
{
    if register.number() == FRAME_POINTER {
        return Err(Refusal::FrameWrite);
    }
    Ok(())
}
