//! Where the point is looked for whose packet is printed.

use regions::{ByteSet, PointRegion, Stretch};
use rmap::{BOOT_WINDOW, CONTROL_SIZE, LOAD_REGISTER, LOAD_RESULT_SIZE, STAGING_SIZE, Windows};
use std::alloc::{AllocError, Global};

/// The initiator that is taken if any may be.
const INITIATOR: u8 = 0x67;

/// The most banks that a node has.
const BANKS: u8 = 8;

/// The commands whose bytes lie in this many from an address on, of an extended address.
fn range(extended: u8, base: u32, size: u32) -> PointRegion {
    let addresses = Stretch {
        start: u64::from(base),
        end: u64::from(base) + u64::from(size),
    };
    let mut region = of_extended(extended);
    region.first = addresses;
    region.last = addresses;
    region
}

/// The commands to just these bytes of the load register.
fn register(size: u32) -> PointRegion {
    let base = u64::from(LOAD_REGISTER);
    let following = base + u64::from(size);
    let mut region = range(BOOT_WINDOW, LOAD_REGISTER, size);
    region.first.end = base + 1;
    region.last.start = following.saturating_sub(1);
    region
}

/// Reads of the load result.
fn results() -> PointRegion {
    let mut region = register(LOAD_RESULT_SIZE);
    region.kinds.write = false;
    region.kinds.rmw = false;
    region
}

/// Control writes.
fn controls() -> PointRegion {
    let mut region = register(CONTROL_SIZE);
    region.kinds.read = false;
    region.kinds.rmw = false;
    region
}

/// The commands of an extended address.
fn of_extended(extended: u8) -> PointRegion {
    let mut region = PointRegion::whole();
    region.extended = ByteSet::only(extended);
    region
}

/// Adds the commands of a region that are of these initiators.
fn add_place(
    places: &mut Vec<PointRegion>,
    region: PointRegion,
    initiators: &ByteSet,
) -> Result<(), AllocError> {
    let mut place = region;
    place.initiators = *initiators;
    places.push(place)?;
    Ok(())
}

/// Adds the places of a node with these windows, of these initiators: first where it brings commands to its table.
fn add_places(
    places: &mut Vec<PointRegion>,
    windows: &Windows,
    initiators: &ByteSet,
) -> Result<(), AllocError> {
    for number in 0..BANKS {
        if let Some((base, size)) = windows.bank(number) {
            add_place(places, range(number, base, size), initiators)?;
        }
    }
    add_place(places, range(BOOT_WINDOW, 0, STAGING_SIZE), initiators)?;
    add_place(places, results(), initiators)?;
    add_place(places, controls(), initiators)?;
    for number in 0..BANKS {
        if windows.bank(number).is_some() {
            add_place(places, of_extended(number), initiators)?;
        }
    }
    add_place(places, of_extended(BOOT_WINDOW), initiators)?;
    add_place(places, PointRegion::whole(), initiators)
}

/// The places where the point of a row is looked for, in their order. Those with initiator 67 come before those with
/// any other. In each part, those where a node with these windows brings commands to its table come first.
///
/// # Errors
///
/// An error if memory is refused.
pub fn places(alloc: Global, windows: &Windows) -> Result<Vec<PointRegion>, AllocError> {
    let mut places = Vec::new(alloc);
    add_places(&mut places, windows, &ByteSet::only(INITIATOR))?;
    add_places(&mut places, windows, &ByteSet::all())?;
    Ok(places)
}
