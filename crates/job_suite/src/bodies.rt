//! The rows of what is found after a header, each with a read of the memory that must stay.

use crate::headers::plain_length;
use crate::maker::{Area, Maker, READ, RMW, WRITE, WRITE_SILENT, WRITE_VERIFIED};
use crate::rows::SuiteRow;
use spw::End;
use std::alloc::{AllocError, Global};

/// Adds a read of the first bytes of a bank.
///
/// # Errors
///
/// An error if memory is refused.
pub fn look(maker: &mut Maker, area: Area) -> Result<(), AllocError> {
    let shape = maker.shape(READ, area.extended, area.base, area.size.min(16));
    maker.bare(SuiteRow::Memory, shape)
}

/// Packets that end in EEP, whole and cut.
fn eep(alloc: Global, maker: &mut Maker, area: Area) -> Result<(), AllocError> {
    for code in [READ, WRITE, RMW] {
        for keep in [16_u16, 4200] {
            let mut shape = maker.shape(code, area.extended, area.base, plain_length(code));
            shape.end = End::Eep;
            shape.keep = keep;
            maker.put(alloc, SuiteRow::Eep, shape)?;
        }
    }
    look(maker, area)
}

/// Packets of a command of that code, each cut after this many bytes.
fn cut(
    alloc: Global,
    maker: &mut Maker,
    area: Area,
    code: u8,
    keeps: &[u16],
) -> Result<(), AllocError> {
    for keep in keeps {
        let mut shape = maker.shape(code, area.extended, area.base, plain_length(code));
        shape.keep = *keep;
        maker.full(alloc, SuiteRow::EarlyEop, shape)?;
    }
    Ok(())
}

/// Packets that end too early: without data, without the last byte of data, and without the data CRC.
fn early_eop(alloc: Global, maker: &mut Maker, area: Area) -> Result<(), AllocError> {
    cut(alloc, maker, area, WRITE, &[16, 19, 20])?;
    cut(alloc, maker, area, WRITE_SILENT, &[16, 19, 20])?;
    cut(alloc, maker, area, RMW, &[16, 23, 24])?;
    look(maker, area)
}

/// Packets with too many bytes.
fn too_much_data(alloc: Global, maker: &mut Maker, area: Area) -> Result<(), AllocError> {
    for code in [READ, WRITE, WRITE_SILENT, RMW] {
        let mut shape = maker.shape(code, area.extended, area.base, plain_length(code));
        shape.extra = 1;
        maker.put(alloc, SuiteRow::TooMuchData, shape)?;
    }
    let mut shape = maker.shape(WRITE, area.extended, area.base, 0);
    shape.extra = 3;
    maker.full(alloc, SuiteRow::TooMuchData, shape)?;
    look(maker, area)
}

/// Packets with a wrong data CRC.
fn data_crc(alloc: Global, maker: &mut Maker, area: Area) -> Result<(), AllocError> {
    for code in [WRITE, WRITE_SILENT, WRITE_VERIFIED, RMW] {
        for packet_error in [1_u8, 0x80] {
            let mut shape = maker.shape(code, area.extended, area.base, plain_length(code));
            shape.data_error = packet_error;
            maker.full(alloc, SuiteRow::DataCrc, shape)?;
        }
    }
    let mut shape = maker.shape(WRITE, area.extended, area.base, 0);
    shape.data_error = 1;
    maker.full(alloc, SuiteRow::DataCrc, shape)?;
    look(maker, area)
}

/// All of these, at a bank.
///
/// # Errors
///
/// An error if memory is refused.
pub fn body_rows(alloc: Global, maker: &mut Maker, area: Area) -> Result<(), AllocError> {
    eep(alloc, maker, area)?;
    early_eop(alloc, maker, area)?;
    too_much_data(alloc, maker, area)?;
    data_crc(alloc, maker, area)
}
