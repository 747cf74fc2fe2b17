//! The maps that a program needs.

ghost use Rattle.std.specs.Prelude.{◌≡◌, ◌++◌, [], IfOk, MatchOption, OnOk, string_bytes};
ghost use Rattle.std.specs.List.{flat_map};
ghost use Rattle.bver.specs.Justified.{IsJustified};
ghost use Rattle.machine.specs.Sizes.{listed_maps};
ghost use Rattle.job_texts.specs.Needed.{AreNeeded, IsMapsLine, map_text, maps_line, next_map_text};

use crate::checking::checked;
use absdom::AbsKind;
use bpf::Image;
use bpf_insn::{Insn, Register};
use bver::{MapSizes, Refusal, Refused, State};
use job_parts::options::no_maps;
use machine::{MAX_CELLS, MAX_MAPS, MapKind};
use std::alloc::{AllocError, Global};
use std::fmt::Write;

/// The most lists of maps that are tried. Each has a map more than the one before, or more cells, or a peak map more.
const MAX_LISTS: u16 = MAX_CELLS + 2 * MAX_MAPS as u16;

/// Whether an instruction of a program names a map.
fn names_map(image: &Image) -> bool {
    for slot in 0..image.slots() {
        if let Some(Insn::LoadMap { .. }) = image.insn(slot) {
            return true;
        }
    }
    false
}

/// What is known of a register.
fn kind_in(known: &State, number: u8) -> AbsKind {
    match Register::new(number) {
        Some(register) => known.kind(register),
        None => AbsKind::Unset,
    }
}

/// The map that a call asks.
fn asked_map(known: &State) -> Option<usize> {
    match kind_in(known, 1) {
        AbsKind::Map(index) => Some(usize::from(index)),
        AbsKind::Unset | AbsKind::Num(_) | AbsKind::Ptr(_, _) => None,
    }
}

/// How many cells the map of a call must have, if a map may have as many.
fn wanted_cells(known: &State) -> Option<u16> {
    match kind_in(known, 2) {
        AbsKind::Num(range) if range.high() < u64::from(MAX_CELLS) => Some(range.high() as u16 + 1),
        _ => None,
    }
}

/// Adds maps until there is one of this index. Returns whether a node may have it.
fn add_maps(maps: &mut Vec<(u16, MapKind)>, index: i32) -> Result<bool, AllocError> {
    let Ok(index) = usize::try_from(index) else {
        return Ok(false);
    };
    if index >= MAX_MAPS {
        return Ok(false);
    }
    for _map in maps.len()..index + 1 {
        maps.push((1, MapKind::Counter))?;
    }
    Ok(true)
}

/// Gives the map of a call the cells that its keys want. Returns whether it may have them.
fn add_cells(maps: &mut Vec<(u16, MapKind)>, known: &State) -> bool {
    let (Some(map), Some(cells)) = (asked_map(known), wanted_cells(known)) else {
        return false;
    };
    match maps.get_mut(map) {
        Some(map) => {
            map.0 = cells;
            true
        }
        None => false,
    }
}

/// Makes the map of a call a peak map. Returns whether it was none.
fn raise(maps: &mut Vec<(u16, MapKind)>, known: &State) -> bool {
    let Some(map) = asked_map(known) else {
        return false;
    };
    match maps.get_mut(map) {
        Some(map) => {
            let is_counter = map.1 == MapKind::Counter;
            map.1 = MapKind::Peak;
            is_counter
        }
        None => false,
    }
}

/// Changes maps as little as a refusal on them asks. Returns whether the refusal is for its maps, and can be met.
fn meet(
    maps: &mut Vec<(u16, MapKind)>,
    image: &Image,
    refused: Refused,
    known: &State,
) -> Result<bool, AllocError> {
    match refused.code {
        Refusal::MapKey => match image.insn(refused.slot) {
            Some(Insn::LoadMap { index, .. }) => add_maps(maps, index),
            _ => Ok(add_cells(maps, known)),
        },
        Refusal::MapKind => Ok(raise(maps, known)),
        _ => Ok(false),
    }
}

/// How a program is refused on a node with these maps, if it is; and then `known` is what was known at the slot.
fn refusal_on(
    alloc: Global,
    image: &Image,
    sizes: &MapSizes,
    known: &mut State,
) -> Result<Option<Refused>, AllocError>
    ensures { IfOk result (λ refusal. MatchOption refusal (IsJustified image.now sizes.now)
        (λ _. ¬ IsJustified image.now sizes.now)) }
{
    match checked(alloc, image, sizes, known) {
        Ok(()) => Ok(None),
        Err(refused) => {
            if refused.code == Refusal::Memory {
                return Err(AllocError);
            }
            Ok(Some(refused))
        }
    }
}

/// The least maps on which a program may judge that is refused without maps, for the refusal that is given. Or no maps,
/// if there are none such.
fn enough_maps(
    alloc: Global,
    image: &Image,
    reported: Refused,
    known: &mut State,
) -> Result<Vec<(u16, MapKind)>, AllocError>
    requires { ¬ IsJustified image.now (listed_maps []) }
    ensures { IfOk result (λ maps. AreNeeded image.now maps.items) }
{
    let mut maps = Vec::new(alloc);
    let mut refused = reported;
    for _list in 0..MAX_LISTS {
        if !meet(&mut maps, image, refused, known)? {
            break;
        }
        let Ok(sizes) = MapSizes::with_kinds(maps.as_slice()) else {
            break;
        };
        match refusal_on(alloc, image, &sizes, known)? {
            Some(next) => refused = next,
            None => return Ok(maps),
        }
    }
    Ok(Vec::new(alloc))
}

/// The least maps that a program needs to judge. There are none if it may judge without, or if no maps are enough.
fn needed_maps(alloc: Global, image: &Image) -> Result<Vec<(u16, MapKind)>, AllocError>
    ensures { IfOk result (λ maps. AreNeeded image.now maps.items) }
{
    if !names_map(image) {
        return Ok(Vec::new(alloc));
    }
    let mut known = State::entry();
    let none = no_maps();
    match refusal_on(alloc, image, &none, &mut known)? {
        Some(refused) => enough_maps(alloc, image, refused, &mut known),
        None => Ok(Vec::new(alloc)),
    }
}

/// Adds a map as `--maps` writes it.
fn add_map(text: &mut String, map: &(u16, MapKind)) -> Result<(), AllocError>
    ensures { OnOk result (string_bytes text.new ≡ string_bytes text.old ++ map_text map.now) }
{
    let cells = map.0;
    match map.1 {
        MapKind::Counter => write!(text, "{cells}"),
        MapKind::Peak => write!(text, "{cells}p"),
    }
}

/// Adds a map after others.
fn add_next_map(text: &mut String, map: &(u16, MapKind)) -> Result<(), AllocError>
    ensures { OnOk result (string_bytes text.new ≡ string_bytes text.old ++ next_map_text map.now) }
{
    text.push_str(",")?;
    add_map(text, map)
}

/// Adds maps after others.
fn add_next_maps(text: &mut String, maps: &[(u16, MapKind)]) -> Result<(), AllocError>
    ensures { OnOk result
        (string_bytes text.new ≡ string_bytes text.old ++ flat_map next_map_text maps.now) }
{
    for map in maps {
        add_next_map(text, map)?;
    }
    Ok(())
}

/// The line of maps, after a sign; without maps there is none.
fn line_of(alloc: Global, sign: &str, maps: &[(u16, MapKind)]) -> Result<String, AllocError>
    ensures { IfOk result (λ line. string_bytes line ≡ maps_line sign.now maps.now) }
{
    let mut line = String::new(alloc);
    let [map, later @ ..] = maps else {
        return Ok(line);
    };
    write!(line, "{sign}maps ")?;
    add_map(&mut line, map)?;
    add_next_maps(&mut line, later)?;
    line.push_str("\n")?;
    Ok(line)
}

/// The line of the maps that a program needs, after a sign: `maps 5,1p`. There is none if the program may judge without
/// maps, or if no maps are enough. The maps are the least that are enough.
///
/// # Errors
///
/// An error if memory is refused.
pub fn needed_line(alloc: Global, sign: &str, image: &Image) -> Result<String, AllocError>
    ensures { IfOk result (λ line. IsMapsLine sign.now image.now (string_bytes line)) }
{
    let maps = needed_maps(alloc, image)?;
    line_of(alloc, sign, maps.as_slice())
}
