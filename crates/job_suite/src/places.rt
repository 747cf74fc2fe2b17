//! The rows of places that are not allowed.

use crate::headers::plain_length;
use crate::maker::{Area, Maker, READ, READ_ONE, RMW, WRITE, WRITE_ONE};
use crate::rows::SuiteRow;
use rmap::{BOOT_WINDOW, LOAD_REGISTER, STAGING_SIZE};
use std::alloc::{AllocError, Global};

/// Adds a command that has no place.
fn at(
    alloc: Global,
    maker: &mut Maker,
    code: u8,
    extended: u8,
    address: u32,
    length: u32,
) -> Result<(), AllocError> {
    let shape = maker.shape(code, extended, address, length);
    maker.put(alloc, SuiteRow::Place, shape)
}

/// Commands beside a bank: one before its first byte, one past its last, and across its end.
///
/// # Errors
///
/// An error if memory is refused.
pub fn beside_bank(alloc: Global, maker: &mut Maker, area: Area) -> Result<(), AllocError> {
    for code in [READ, READ_ONE, WRITE, WRITE_ONE, RMW] {
        let (code, length) = (code, plain_length(code));
        at(
            alloc,
            maker,
            code,
            area.extended,
            area.base.wrapping_sub(1),
            length,
        )?;
        at(alloc, maker, code, area.extended, area.past(), length)?;
        at(alloc, maker, code, area.extended, area.last(1), length)?;
    }
    let more = area.size.saturating_add(1).min(4096);
    at(
        alloc,
        maker,
        READ,
        area.extended,
        area.last(more.saturating_sub(1)),
        more,
    )
}

/// Commands to extended addresses at which nothing is, if a node has this many banks.
///
/// # Errors
///
/// An error if memory is refused.
pub fn no_bank(alloc: Global, maker: &mut Maker, area: Area, banks: u8) -> Result<(), AllocError> {
    for extended in [banks, 0x7F, 0xFE] {
        at(alloc, maker, READ, extended, area.base, 4)?;
        at(alloc, maker, WRITE, extended, area.base, 4)?;
        at(alloc, maker, RMW, extended, area.base, 4)?;
    }
    Ok(())
}

/// Commands to the boot window at which nothing is.
///
/// # Errors
///
/// An error if memory is refused.
pub fn no_window(alloc: Global, maker: &mut Maker) -> Result<(), AllocError> {
    at(alloc, maker, READ, BOOT_WINDOW, STAGING_SIZE, 4)?;
    at(alloc, maker, READ, BOOT_WINDOW, STAGING_SIZE - 1, 2)?;
    at(alloc, maker, WRITE, BOOT_WINDOW, STAGING_SIZE - 1, 2)?;
    at(alloc, maker, WRITE, BOOT_WINDOW, STAGING_SIZE, 4)?;
    at(alloc, maker, READ, BOOT_WINDOW, LOAD_REGISTER - 1, 8)?;
    at(alloc, maker, READ, BOOT_WINDOW, LOAD_REGISTER, 4)?;
    at(alloc, maker, READ, BOOT_WINDOW, LOAD_REGISTER, 9)?;
    at(alloc, maker, READ_ONE, BOOT_WINDOW, LOAD_REGISTER, 8)?;
    at(alloc, maker, READ, BOOT_WINDOW, LOAD_REGISTER + 1, 8)?;
    at(alloc, maker, WRITE, BOOT_WINDOW, LOAD_REGISTER, 3)?;
    at(alloc, maker, WRITE, BOOT_WINDOW, LOAD_REGISTER, 5)?;
    at(alloc, maker, WRITE_ONE, BOOT_WINDOW, LOAD_REGISTER, 4)?;
    at(alloc, maker, RMW, BOOT_WINDOW, LOAD_REGISTER, 8)?;
    at(alloc, maker, READ, BOOT_WINDOW, u32::MAX, 4)
}
