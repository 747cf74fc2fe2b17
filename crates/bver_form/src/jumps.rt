//! The slot to which an instruction jumps, and whether it may (RFC 9669, section 4.3).

ghost use Rattle.std.specs.Prelude.{◌≡◌, OnOk, Some};
ghost use Rattle.bver_form.specs.Form.{ReportsFault, jump_fault};
ghost use Rattle.bver_form.specs.Jumps.{IsJump, first_slot, is_loop_back, target};

use crate::refusal::Refusal;
use bpf::Image;

/// The place to which a jump at the slot by this distance in slots leads, counted from the first slot.
pub(crate) fn target(slot: u16, distance: i32) -> i64
    ensures { result ≡ target slot distance }
{
    i64::from(slot) + 1 + i64::from(distance)
}

/// The slot to which a jump leads from the slot by a distance in slots from the next one. It is `None` if no
/// instruction begins there: outside the code, or at a second slot.
pub fn landing(image: &Image, slot: u16, distance: i32) -> Option<u16>
    ensures { result ≡ first_slot image.now (target slot distance) }
{
    let landing = target(slot, distance);
    if landing < 0 || landing >= i64::from(image.slots()) {
        return None;
    }
    let landing = landing.cast_unsigned() as u16;
    if image.insn(landing).is_some() {
        Some(landing)
    } else {
        None
    }
}

/// Whether a declared loop has its back at the one slot, and its head at the other.
fn is_loop_back(image: &Image, slot: u16, head: u16) -> bool
    ensures { result ≡ is_loop_back image.now slot head }
{
    image
        .loops()
        .iter()
        .any(|declared| declared.back == slot && declared.head == head)
}

/// Tests that a jump by this distance, in slots from the next one, leads to a slot at which an instruction begins. It
/// must not go backward, except at the back of a declared loop to its head.
pub(crate) fn check_landing(image: &Image, slot: u16, distance: i32) -> Result<(), Refusal>
    ensures jump { OnOk result (IsJump image.now slot distance) }
    ensures fault { ReportsFault result (jump_fault image.now slot (Some distance)) }
{
    match landing(image, slot, distance) {
        Some(landing) => {
            if landing > slot || is_loop_back(image, slot, landing) {
                Ok(())
            } else {
                Err(Refusal::BackJump)
            }
        }
        None => Err(Refusal::Target),
    }
}
