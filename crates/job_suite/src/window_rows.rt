//! The rows of the boot window, and the loads of the node's own programs, which come last.

use crate::judges::Judges;
use crate::maker::{Maker, READ, RMW, WRITE, WRITE_VERIFIED};
use crate::rows::SuiteRow;
use initiator::{PART_SIZE, part_of};
use rmap::{BOOT_WINDOW, LOAD_REGISTER, LOAD_RESULT_SIZE, STAGING_SIZE};
use std::alloc::{AllocError, Global};

/// Adds a write of these bytes to the boot window.
fn write(
    alloc: Global,
    maker: &mut Maker,
    row: SuiteRow,
    address: u32,
    bytes: &[u8],
) -> Result<(), AllocError> {
    let length = bytes.len().min(4096) as u32;
    let shape = maker.shape(WRITE, BOOT_WINDOW, address, length);
    let data = Vec::from_slice(alloc, bytes)?;
    maker.push(row, shape, Some(data))
}

/// Adds a read of the boot window.
fn read(maker: &mut Maker, row: SuiteRow, address: u32, length: u32) -> Result<(), AllocError> {
    let shape = maker.shape(READ, BOOT_WINDOW, address, length);
    maker.bare(row, shape)
}

/// Adds a read of the load result.
fn read_result(maker: &mut Maker, row: SuiteRow) -> Result<(), AllocError> {
    read(maker, row, LOAD_REGISTER, LOAD_RESULT_SIZE)
}

/// Adds a control write of these bytes, and a read of the load result.
fn control(
    alloc: Global,
    maker: &mut Maker,
    row: SuiteRow,
    bytes: [u8; 4],
) -> Result<(), AllocError> {
    write(alloc, maker, row, LOAD_REGISTER, &bytes)?;
    read_result(maker, row)
}

/// Commands to the staging.
fn staging(alloc: Global, maker: &mut Maker) -> Result<(), AllocError> {
    let row = SuiteRow::BootWindow;
    read(maker, row, 0, 16)?;
    for address in [0, 8192, STAGING_SIZE - 4] {
        let shape = maker.shape(WRITE, BOOT_WINDOW, address, 4);
        maker.full(alloc, row, shape)?;
        read(maker, row, address, 4)?;
    }
    let shape = maker.shape(WRITE_VERIFIED, BOOT_WINDOW, 0, 1024);
    maker.full(alloc, row, shape)?;
    let shape = maker.shape(RMW, BOOT_WINDOW, 16, 8);
    maker.full(alloc, row, shape)?;
    read(maker, row, 0, 64)?;
    read(maker, row, STAGING_SIZE - 4096, 4096)
}

/// Loads that are refused, whatever is staged, and a load of what was staged before.
fn refused(alloc: Global, maker: &mut Maker) -> Result<(), AllocError> {
    read_result(maker, SuiteRow::BootWindow)?;
    for bytes in [
        [0, 1, 0, 8],
        [0, 0, 64, 1],
        [4, 0, 0, 16],
        [0, 0, 0, 0],
        [0, 0, 0, 64],
    ] {
        control(alloc, maker, SuiteRow::BootWindow, bytes)?;
    }
    Ok(())
}

/// The bytes of a control write for an image of this many bytes.
fn control_bytes(slot: u8, count: usize) -> [u8; 4] {
    [slot, 0, (count / 256 % 256) as u8, (count % 256) as u8]
}

/// Writes an image to the staging.
fn stage(alloc: Global, maker: &mut Maker, row: SuiteRow, image: &[u8]) -> Result<(), AllocError> {
    for number in 0..4_u16 {
        if PART_SIZE * usize::from(number) < image.len() {
            let address = 4096 * u32::from(number);
            write(alloc, maker, row, address, part_of(image, number))?;
        }
    }
    Ok(())
}

/// Loads of an image in which one byte is changed.
fn altered(alloc: Global, maker: &mut Maker, image: &[u8]) -> Result<(), AllocError> {
    let row = SuiteRow::BootWindow;
    stage(alloc, maker, row, image)?;
    for place in [0_u8, 4, 5, 6, 8, 12, 16, 17, 20] {
        let byte = image.get(usize::from(place)).copied().unwrap_or(0);
        let address = u32::from(place);
        write(alloc, maker, row, address, &[byte ^ 0xFF])?;
        control(alloc, maker, row, control_bytes(0, image.len()))?;
        write(alloc, maker, row, address, &[byte])?;
    }
    control(
        alloc,
        maker,
        row,
        control_bytes(0, image.len().saturating_sub(1)),
    )
}

/// Loads the program of a slot again.
fn load(alloc: Global, maker: &mut Maker, slot: u8, image: &[u8]) -> Result<(), AllocError> {
    stage(alloc, maker, SuiteRow::Load, image)?;
    control(
        alloc,
        maker,
        SuiteRow::Load,
        control_bytes(slot, image.len()),
    )
}

/// The rows of the boot window.
///
/// # Errors
///
/// An error if memory is refused.
pub fn window_rows(alloc: Global, maker: &mut Maker, judges: &Judges) -> Result<(), AllocError> {
    staging(alloc, maker)?;
    refused(alloc, maker)?;
    let image = judges.judge(0).image().write()?;
    altered(alloc, maker, image.as_slice())
}

/// The loads of the node's own programs.
///
/// # Errors
///
/// An error if memory is refused.
pub fn load_rows(alloc: Global, maker: &mut Maker, judges: &Judges) -> Result<(), AllocError> {
    for slot in [3_u8, 2, 1, 0] {
        let image = judges.judge(slot).image().write()?;
        load(alloc, maker, slot, image.as_slice())?;
    }
    Ok(())
}
