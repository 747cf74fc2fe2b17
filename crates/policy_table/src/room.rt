//! Which rule of a table is the first for which there is no room.

ghost use Rattle.std.specs.Prelude.{◌≡◌, ◌≤◌, Some};
ghost use Rattle.policy_table.specs.Room.{first_port_slots, is_too_much, length_fault, room_after, room_left, room_taken, room_fault, too_many, whole_room};

use crate::port_rules::PortRule;
use crate::slots::port_rule_slots;
use crate::statement_faults::StatementFault;
use crate::text_faults::TextFault;
use crate::versions::TableVersion;
use bpf::MAX_SLOTS;

/// The most rules of a table of version 1 that is compiled.
const MAX_RULES: u16 = 12;

/// The slots before and after the rules.
const OTHER_SLOTS: u16 = 16;

/// What room is left in a table: for rules in version 1, and for their slots in version 2.
#[derive(Clone, Copy, Debug, PartialEq, Eq)]
pub struct Room {
    /// How much is left.
    pub left: u16,
    /// Whether a rule before asks the port.
    pub asks: bool,
}

/// The room of a table before its first rule.
pub fn whole_room(version: TableVersion) -> Room
    ensures { result ≡ whole_room version }
{
    let left = match version {
        TableVersion::One => MAX_RULES,
        TableVersion::Two => MAX_SLOTS - OTHER_SLOTS,
    };
    Room { left, asks: false }
}

/// The slot that puts the port on the stack, if this is the first rule that asks it.
fn first_port_slots(asks: bool, port: Option<u8>) -> u8
    ensures slots { result ≡ first_port_slots asks port }
    ensures few { result ≤ 1 }
{
    if asks || port.is_none() { 0 } else { 1 }
}

/// How much room a rule takes.
fn room_taken(version: TableVersion, asks: bool, own: &PortRule) -> u16
    ensures { result ≡ room_taken version asks own.now }
{
    match version {
        TableVersion::One => 1,
        TableVersion::Two => {
            u16::from(first_port_slots(asks, own.port)) + u16::from(port_rule_slots(own))
        }
    }
}

/// Whether there is no room for a rule.
fn is_too_much(version: TableVersion, room: Room, own: &PortRule) -> bool
    ensures { result ≡ is_too_much version room own.now }
{
    room.left < room_taken(version, room.asks, own)
}

/// The fault of a rule for which there is no room.
fn too_many(version: TableVersion, room: Room, own: &PortRule) -> StatementFault
    ensures { result ≡ too_many version room own.now }
{
    match version {
        TableVersion::One => StatementFault::TooManyRules,
        TableVersion::Two => StatementFault::TooManySlots {
            slots: room_taken(version, room.asks, own),
            left: room.left,
        },
    }
}

/// The room that is left after a rule.
fn room_left(version: TableVersion, room: Room, own: &PortRule) -> Room
    ensures { result ≡ room_left version room own.now }
{
    Room {
        left: room
            .left
            .saturating_sub(room_taken(version, room.asks, own)),
        asks: room.asks || own.port.is_some(),
    }
}

/// The fault of a rule for which there is no room, with its place, unless a rule before it had none.
pub fn room_fault(version: TableVersion, room: Option<Room>, own: &PortRule) -> Option<TextFault>
    ensures { result ≡ room_fault version room own.now }
{
    let room = room?;
    if !is_too_much(version, room, own) {
        return None;
    }
    let line = own.line;
    let fault = too_many(version, room, own);
    Some(TextFault::Line { line, fault })
}

/// The room after a rule; none after the first for which there is none.
pub fn room_after(version: TableVersion, room: Option<Room>, own: &PortRule) -> Option<Room>
    ensures { result ≡ room_after version room own.now }
{
    let room = room?;
    if is_too_much(version, room, own) {
        None
    } else {
        Some(room_left(version, room, own))
    }
}

/// The fault of a table that is too long: its first rule for which there is no room.
pub fn length_fault(version: TableVersion, rules: &[PortRule]) -> Option<TextFault>
    ensures { result ≡ length_fault version rules.now }
{
    let mut room = Some(whole_room(version));
    for own in rules {
        if let Some(fault) = room_fault(version, room, own) {
            return Some(fault);
        }
        room = room_after(version, room, own);
    }
    None
}
