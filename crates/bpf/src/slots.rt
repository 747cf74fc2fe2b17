//! The slots of an image.

ghost use Rattle.std.specs.Prelude.{◌≡◌, ◌≤◌, ◌+◌, ◌*◌, ◌<◌, ◌++◌, false, length, Some, IfOk, IfErr, OnOk};
ghost use Rattle.std.specs.Option.{option_copied};
ghost use Rattle.std.specs.List.{flat_map};
ghost use Rattle.bpf_insn.specs.Spelling.{spelling};
ghost use Rattle.bpf.specs.Program.{SpellSlots, slot_bytes};
ghost use Rattle.bpf.specs.Reading.{FailsReading, Gives, IsSlot, PushesSlot, begins_two, slot_in, slot_reading, slots_reading};

use crate::fault::ImageFault;
use bpf_insn::{Insn, decode, encode, spelling_laws};
use std::alloc::{AllocError, Global};

/// The instructions that the bytes spell, each at its first slot; a second slot has none.
///
/// # Errors
///
/// `Insn` with the first slot whose bytes spell no instruction, and the fault there. `Memory` if memory is refused.
pub fn read_slots(alloc: Global, bytes: &[u8], count: u16) -> Result<Vec<Option<Insn>>, ImageFault>
    requires { length bytes.now ≡ 8 * count }
    ensures value { Gives (λ v. v.items) result (slots_reading count 0 false bytes.now) }
    ensures length { IfOk result (λ slots. length slots.items ≡ count) }
    ensures spelled { IfOk result (λ slots. SpellSlots bytes.now slots.items) }
{
    let mut slots = Vec::with_capacity(alloc, usize::from(count))?;
    let mut rest = bytes;
    let mut second = false;
    for slot in 0..count {
        let (_, after) = rest.split_at(8);
        second = push_slot(&mut slots, slot, second, rest)?;
        rest = after;
    }
    Ok(slots)
}

/// Appends the slot in the first 8 bytes. The result is whether an instruction of two slots begins there.
#[tactic(auto, unfolding(crate::specs::Reading::slot_reading))]
fn push_slot(
    slots: &mut Vec<Option<Insn>>,
    slot: u16,
    second: bool,
    bytes: &[u8],
) -> Result<bool, ImageFault>
    requires { 8 ≤ length bytes.now }
    ensures pushed { IfOk result
        (PushesSlot slots.old.items slots.new.items slot second bytes.now) }
    ensures fails { IfErr result (λ e. FailsReading e (slot_reading slot second bytes.now)) }
{
    if second {
        slots.push(None)?;
        return Ok(false);
    }
    let (insn, two) = read_insn(slot, bytes)?;
    slots.push(Some(insn))?;
    Ok(two)
}

/// The instruction that begins in the first 8 bytes, and whether it has two slots.
#[tactic(auto, unfolding(crate::specs::Reading::slot_reading))]
fn read_insn(slot: u16, bytes: &[u8]) -> Result<(Insn, bool), ImageFault>
    requires { 8 ≤ length bytes.now }
    ensures value { Gives (λ p. Some p.0) result (slot_reading slot false bytes.now) }
    ensures two { IfOk result (λ p. p.1 ≡ begins_two (Some p.0)) }
    ensures spelled { IfOk result (λ p. IsSlot false bytes.now (Some p.0)) }
{
    spelling_laws();
    let Some((first, after)) = bytes.split_first_chunk::<8>() else {
        unreachable!();
    };
    match decode(first, next_slot(after)) {
        Ok(insn) => {
            let two = insn.is_wide();
            Ok((insn, two))
        }
        Err(fault) => Err(ImageFault::Insn { slot, fault }),
    }
}

/// The first slot of the bytes, if it is there.
fn next_slot(bytes: &[u8]) -> Option<&[u8; 8]>
    ensures { option_copied result ≡ slot_in bytes.now }
{
    bytes.first_chunk::<8>()
}

/// Appends the bytes of the slots.
///
/// # Errors
///
/// Memory is refused.
pub fn write_slots(bytes: &mut Vec<u8>, slots: &[Option<Insn>]) -> Result<(), AllocError>
    ensures { OnOk result (bytes.new.items ≡ bytes.old.items ++ flat_map slot_bytes slots.now) }
{
    for slot in slots {
        write_slot(bytes, slot)?;
    }
    Ok(())
}

/// Appends both slots of an instruction at its first slot, and nothing at its second.
fn write_slot(bytes: &mut Vec<u8>, slot: &Option<Insn>) -> Result<(), AllocError>
    ensures { OnOk result (bytes.new.items ≡ bytes.old.items ++ slot_bytes slot.now) }
{
    match slot {
        Some(insn) => write_insn(bytes, insn),
        None => Ok(()),
    }
}

/// Appends the 8 or 16 bytes of an instruction.
fn write_insn(bytes: &mut Vec<u8>, insn: &Insn) -> Result<(), AllocError>
    ensures { OnOk result (bytes.new.items ≡ bytes.old.items ++ spelling insn.now) }
{
    let (first, second) = encode(insn);
    bytes.extend_from_slice(&first)?;
    match second {
        Some(second) => bytes.extend_from_slice(&second),
        None => Ok(()),
    }
}
