//! The boot window, by which an initiator loads programs. Every node has it beside its banks. The standard leaves to
//! the target what is at an address.

ghost use Rattle.std.specs.Prelude.{◌≡◌};
ghost use Rattle.rmap.specs.Windows.{boot_place, is_register};

use crate::command::Command;
use crate::kind::Kind;
use crate::places::Place;

/// The extended address of the boot window.
pub const BOOT_WINDOW: u8 = 0xFF;

/// The size in bytes of a port's staging, which begins at address 0 of the boot window.
pub const STAGING_SIZE: u32 = 16_384;

/// The address of the load result and of control writes in the boot window.
pub const LOAD_REGISTER: u32 = 0x10000;

/// The highest slot of a program.
pub const LAST_SLOT: u8 = 3;

/// The bytes of a load result.
pub const LOAD_RESULT_SIZE: u32 = 8;

/// The bytes of a control write.
pub const CONTROL_SIZE: u32 = 4;

/// Whether the command is for exactly those bytes of the load register, with increment.
fn is_register(command: &Command, size: u32) -> bool
    ensures { result ≡ is_register size command.now }
{
    command.address() == LOAD_REGISTER && command.length() == size && command.increments()
}

/// The place of the command's bytes in the boot window.
pub(crate) fn boot_place(command: &Command) -> Option<Place>
    ensures { result ≡ boot_place command.now }
{
    let kind = command.kind();
    if !matches!(kind, Kind::Unused) && command.lies_inside(0, STAGING_SIZE) {
        return Some(Place::Staging);
    }
    match kind {
        Kind::Read if is_register(command, LOAD_RESULT_SIZE) => Some(Place::LoadResult),
        Kind::Write if is_register(command, CONTROL_SIZE) => Some(Place::Control),
        _ => None,
    }
}
