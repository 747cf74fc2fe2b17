//! Loads and stores through a pointer (RFC 9669, section 5).

ghost use Rattle.std.specs.Prelude.{◌≡◌, ◌+◌, ◌-◌, ◌^◌, ◌<◌, ◌≤◌, ◌≤ℤ◌, ◌+ℤ◌, pos, negsuc, IfSome, Some};
ghost use Rattle.bpf_parts.specs.Sizes.{size_bytes, load_bytes};
ghost use Rattle.machine.specs.Memory.{place_within, region_place_of};
ghost use Rattle.absdom.specs.Offsets.{IsOffset};
ghost use Rattle.absdom.specs.Effect.{access_places, is_set, loaded_range, kept_range, read_range, load_kind, after_stack_write, Becomes, Stores};
ghost use Rattle.absdom_stack.specs.Marks.{AreInside};

use crate::cause::Cause;
use crate::kinds::AbsKind;
use crate::offsets::Offsets;
use crate::state::State;
use absdom_num::Range;
use absdom_stack::{Spill, WORD_BYTES, is_stack_word};
use bpf_insn::{LoadSize, Size};
use machine::{Region, STACK_SIZE};

/// The place of the first of `bytes` bytes, if all of them lie in memory of that size.
fn place_within(size: usize, bytes: usize, place: i32) -> Option<usize>
    requires size { size ≤ STACK_SIZE }
    requires bytes { bytes ≤ 8 }
    ensures value { result ≡ place_within size bytes place }
    ensures bound { IfSome result (λ first. first + bytes ≤ size) }
{
    if place < 0 {
        return None;
    }
    let place = place.cast_unsigned() as usize;
    if place + bytes <= size {
        Some(place)
    } else {
        None
    }
}

/// An offset of the stack, counted from its first byte.
fn from_bottom(offset: i32) -> i32
    requires low { negsuc 100000 ≤ℤ offset }
    requires high { offset ≤ℤ pos 100000 }
    ensures { result ≡ offset +ℤ pos STACK_SIZE }
{
    offset + STACK_SIZE as i32
}

/// The place in the region of an access of `bytes` bytes, if it is wholly inside.
fn place(region: Region, bytes: usize, offset: i32) -> Option<usize>
    requires low { negsuc 100000 ≤ℤ offset }
    requires high { offset ≤ℤ pos 100000 }
    requires bytes { bytes ≤ 8 }
    ensures value { result ≡ region_place_of region bytes offset }
    ensures bound { IfSome result (λ first. first + bytes ≤ STACK_SIZE) }
{
    let from_start = match region {
        Region::Front | Region::Tail => offset,
        Region::Stack => from_bottom(offset),
    };
    place_within(region.size(), bytes, from_start)
}

/// The sum of a pointer's offset and an instruction's.
fn offset_sum(start: i32, offset: i16) -> i32
    requires { IsOffset start }
    ensures value { result ≡ start +ℤ offset }
    ensures low { negsuc 100000 ≤ℤ result }
    ensures high { result ≤ℤ pos 100000 }
{
    start + i32::from(offset)
}

/// The first place of an access of `bytes` bytes, at the least offset and at the greatest. It is `None` if one of the
/// two is not wholly inside the region.
fn access(region: Region, bytes: usize, offsets: Offsets, offset: i16) -> Option<(usize, usize)>
    requires { bytes ≤ 8 }
    ensures value { result ≡ access_places region bytes offsets offset }
    ensures inside { IfSome result (λ places. AreInside bytes places) }
{
    let lowest = place(region, bytes, offset_sum(offsets.low(), offset))?;
    let highest = place(region, bytes, offset_sum(offsets.high(), offset))?;
    Some((lowest, highest))
}

/// Whether all bytes of an access are set; those of the header always are.
fn is_set(state: &State, region: Region, bytes: usize, lowest: usize, highest: usize) -> bool
    requires { AreInside bytes (lowest, highest) }
    ensures { result ≡ is_set region state.now.marks bytes (lowest, highest) }
{
    match region {
        Region::Front => true,
        Region::Tail => true,
        Region::Stack => state.are_set(lowest, highest + bytes),
    }
}

/// The range of what a load gives.
fn loaded_range(size: LoadSize) -> Range
    ensures { result ≡ loaded_range size }
{
    match size {
        LoadSize::LoadByte => Range::new(0, u64::from(u8::MAX)),
        LoadSize::LoadHalf => Range::new(0, u64::from(u16::MAX)),
        LoadSize::LoadWord => Range::new(0, u64::from(u32::MAX)),
        LoadSize::LoadDouble => Range::whole(),
        LoadSize::SignedByte => Range::whole(),
        LoadSize::SignedHalf => Range::whole(),
        LoadSize::SignedWord => Range::whole(),
    }
}

/// The range of what a load gives if numbers keep their ranges: of one word of the stack it is the word's range.
fn kept_range(state: &State, size: LoadSize, region: Region, lowest: usize, highest: usize) -> Range
    requires { AreInside (load_bytes size) (lowest, highest) }
    ensures { result ≡ kept_range state.now size region (lowest, highest) }
{
    match region {
        Region::Front => loaded_range(size),
        Region::Tail => loaded_range(size),
        Region::Stack => {
            if is_stack_word(size.bytes(), lowest, highest) {
                state.range(lowest / WORD_BYTES)
            } else {
                loaded_range(size)
            }
        }
    }
}

/// The range of what a load of bytes that are set gives.
fn read_range(
    state: &State,
    spill: Spill,
    size: LoadSize,
    region: Region,
    lowest: usize,
    highest: usize,
) -> Range
    requires { AreInside (load_bytes size) (lowest, highest) }
    ensures { result ≡ read_range spill state.now size region (lowest, highest) }
{
    match spill {
        Spill::Forgets => loaded_range(size),
        Spill::Keeps => kept_range(state, size, region, lowest, highest),
    }
}

/// A load from a region at one of these offsets.
fn read(
    state: &State,
    spill: Spill,
    size: LoadSize,
    region: Region,
    offsets: Offsets,
    offset: i16,
) -> Result<AbsKind, Cause>
    ensures { result ≡ load_kind spill state.now size (AbsKind.Ptr region offsets) offset }
{
    let bytes = size.bytes();
    match access(region, bytes, offsets, offset) {
        Some((lowest, highest)) => {
            if is_set(state, region, bytes, lowest, highest) {
                let range = read_range(state, spill, size, region, lowest, highest);
                Ok(AbsKind::Num(range))
            } else {
                Err(Cause::UnsetStack)
            }
        }
        None => Err(Cause::OutOfRegion),
    }
}

/// A load through a pointer.
pub(crate) fn load(
    state: &State,
    spill: Spill,
    size: LoadSize,
    base: &AbsKind,
    offset: i16,
) -> Result<AbsKind, Cause>
    ensures { result ≡ load_kind spill state.now size base.now offset }
{
    match base {
        AbsKind::Unset => Err(Cause::UnsetOperand),
        AbsKind::Num(_) => Err(Cause::KindMismatch),
        AbsKind::Ptr(region, offsets) => read(state, spill, size, *region, *offsets, offset),
        AbsKind::Map(_) => Err(Cause::KindMismatch),
    }
}

/// A store to the stack of a number of that range, at one of these offsets.
fn write(
    state: &mut State,
    spill: Spill,
    bytes: usize,
    offsets: Offsets,
    offset: i16,
    value: Range,
) -> Result<(), Cause>
    requires some { 1 ≤ bytes }
    requires bytes { bytes ≤ 8 }
    ensures { Becomes result state.old state.new
        (after_stack_write spill state.old bytes offsets offset value) }
{
    match access(Region::Stack, bytes, offsets, offset) {
        Some((lowest, highest)) => {
            state.store(spill, bytes, lowest, highest, value);
            Ok(())
        }
        None => Err(Cause::OutOfRegion),
    }
}

/// A store through a pointer of a value that is this one.
pub(crate) fn store(
    state: &mut State,
    spill: Spill,
    size: Size,
    base: &AbsKind,
    offset: i16,
    value: &AbsKind,
) -> Result<(), Cause>
    ensures { Stores spill result state.old state.new (size_bytes size) base.now offset value.now }
{
    match base {
        AbsKind::Unset => Err(Cause::UnsetOperand),
        AbsKind::Num(_) => Err(Cause::KindMismatch),
        AbsKind::Ptr(region, offsets) => store_to(
            state,
            spill,
            size.bytes(),
            *region,
            *offsets,
            offset,
            value,
        ),
        AbsKind::Map(_) => Err(Cause::KindMismatch),
    }
}

/// A store to a region: the header is read-only.
fn store_to(
    state: &mut State,
    spill: Spill,
    bytes: usize,
    region: Region,
    offsets: Offsets,
    offset: i16,
    value: &AbsKind,
) -> Result<(), Cause>
    requires some { 1 ≤ bytes }
    requires bytes { bytes ≤ 8 }
    ensures { Stores spill result state.old state.new bytes
        (AbsKind.Ptr region offsets) offset value.now }
{
    let value = value.number()?;
    match region {
        Region::Front => Err(Cause::HeaderWrite),
        Region::Tail => Err(Cause::HeaderWrite),
        Region::Stack => write(state, spill, bytes, offsets, offset, value),
    }
}
