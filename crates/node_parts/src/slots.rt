//! Which program judges a command.

ghost use Rattle.std.specs.Prelude.{◌≡◌, ◌<◌};
ghost use Rattle.node_parts.specs.Slots.{bank_slot_of, slot_of};

use rmap::{Kind, Place};

/// The slot of the program that judges a command of that kind at that place:
///
/// - 0 for reads of banks
/// - 1 for writes to banks
/// - 2 for read-modify-writes of banks
/// - 3 for every command to the boot window
///
/// If a code is not used, its header stops the command, which comes to no program.
pub fn slot(kind: Kind, place: Place) -> u8
    ensures value { result ≡ slot_of kind place }
    ensures few { result < 4 }
{
    match place {
        Place::Bank(_) => bank_slot(kind),
        Place::Staging | Place::LoadResult | Place::Control => 3,
    }
}

/// The slot for commands of that kind to banks.
fn bank_slot(kind: Kind) -> u8
    ensures value { result ≡ bank_slot_of kind }
    ensures few { result < 3 }
{
    match kind {
        Kind::Read | Kind::Unused => 0,
        Kind::Write => 1,
        Kind::Rmw => 2,
    }
}
