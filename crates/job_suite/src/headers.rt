//! The rows of what is found in a header.

use crate::maker::{Area, Maker, READ, RMW, WRITE, WRITE_SILENT, WRITE_VERIFIED};
use crate::rows::SuiteRow;
use std::alloc::{AllocError, Global};

/// How many bytes a plain command of that code has.
pub fn plain_length(code: u8) -> u32 {
    if code == RMW { 8 } else { 4 }
}

/// Packets that are cut in their header.
fn short(maker: &mut Maker, area: Area) -> Result<(), AllocError> {
    for keep in [0_u16, 1, 2, 3, 4, 11, 15] {
        let mut shape = maker.shape(READ, area.extended, area.base, 4);
        shape.keep = keep;
        maker.bare(SuiteRow::Short, shape)?;
    }
    for keep in [16_u16, 27] {
        let mut shape = maker.shape(READ, area.extended, area.base, 4);
        shape.words = 3;
        shape.keep = keep;
        maker.bare(SuiteRow::Short, shape)?;
    }
    Ok(())
}

/// Packets of other protocols.
fn protocol(alloc: Global, maker: &mut Maker, area: Area) -> Result<(), AllocError> {
    for protocol in [0_u8, 2, 3, 0xFF] {
        let mut shape = maker.shape(READ, area.extended, area.base, 4);
        shape.protocol = protocol;
        maker.bare(SuiteRow::Protocol, shape)?;
    }
    let mut shape = maker.shape(WRITE, area.extended, area.base, 4);
    shape.protocol = 2;
    maker.full(alloc, SuiteRow::Protocol, shape)
}

/// Packets of another type than that of commands.
fn types(
    alloc: Global,
    maker: &mut Maker,
    area: Area,
    kind: u8,
    row: SuiteRow,
) -> Result<(), AllocError> {
    for code in [READ, WRITE, WRITE_SILENT, RMW] {
        let mut shape = maker.shape(code, area.extended, area.base, plain_length(code));
        shape.kind = kind;
        maker.put(alloc, row, shape)?;
    }
    Ok(())
}

/// Packets with a wrong header CRC.
fn header_crc(alloc: Global, maker: &mut Maker, area: Area) -> Result<(), AllocError> {
    for packet_error in [1_u8, 0x80, 0xFF] {
        for code in [READ, WRITE, RMW] {
            let mut shape = maker.shape(code, area.extended, area.base, plain_length(code));
            shape.header_error = packet_error;
            maker.put(alloc, SuiteRow::HeaderCrc, shape)?;
        }
    }
    Ok(())
}

/// Commands of each code that is unused.
fn unused_code(maker: &mut Maker, area: Area) -> Result<(), AllocError> {
    for code in [0_u8, 1, 4, 5, 6] {
        let shape = maker.shape(code, area.extended, area.base, 4);
        maker.bare(SuiteRow::UnusedCode, shape)?;
    }
    Ok(())
}

/// Commands to other logical addresses: each bit of the node's, in turn.
fn target_address(alloc: Global, maker: &mut Maker, area: Area) -> Result<(), AllocError> {
    for bit in [1_u8, 2, 4, 8, 16, 32, 64, 128] {
        let mut shape = maker.shape(READ, area.extended, area.base, 4);
        shape.target ^= bit;
        maker.bare(SuiteRow::TargetAddress, shape)?;
    }
    for code in [WRITE, WRITE_SILENT, RMW] {
        let mut shape = maker.shape(code, area.extended, area.base, plain_length(code));
        shape.target ^= 1;
        maker.full(alloc, SuiteRow::TargetAddress, shape)?;
    }
    Ok(())
}

/// Read-modify-writes with lengths that none has.
fn rmw_length(alloc: Global, maker: &mut Maker, area: Area) -> Result<(), AllocError> {
    for length in [1_u32, 3, 5, 7, 9, 10, 12, 16] {
        let shape = maker.shape(RMW, area.extended, area.base, length);
        maker.full(alloc, SuiteRow::RmwLength, shape)?;
    }
    Ok(())
}

/// Writes with more data to verify than the buffer takes.
fn verify_buffer(alloc: Global, maker: &mut Maker, area: Area) -> Result<(), AllocError> {
    for length in [1025_u32, 2048, 4096] {
        let shape = maker.shape(WRITE_VERIFIED, area.extended, area.base, length);
        maker.full(alloc, SuiteRow::VerifyBuffer, shape)?;
    }
    Ok(())
}

/// Commands with more data than one may have.
fn length(alloc: Global, maker: &mut Maker, area: Area) -> Result<(), AllocError> {
    for length in [4097_u32, 5000, 65_536, 16_777_215] {
        let shape = maker.shape(READ, area.extended, area.base, length);
        maker.bare(SuiteRow::Length, shape)?;
    }
    let shape = maker.shape(WRITE, area.extended, area.base, 4097);
    maker.full(alloc, SuiteRow::Length, shape)
}

/// All of these, at a bank.
///
/// # Errors
///
/// An error if memory is refused.
pub fn header_rows(alloc: Global, maker: &mut Maker, area: Area) -> Result<(), AllocError> {
    short(maker, area)?;
    protocol(alloc, maker, area)?;
    types(alloc, maker, area, 0, SuiteRow::ReplyType)?;
    header_crc(alloc, maker, area)?;
    types(alloc, maker, area, 2, SuiteRow::ReservedType)?;
    types(alloc, maker, area, 3, SuiteRow::ReservedType)?;
    unused_code(maker, area)?;
    target_address(alloc, maker, area)?;
    rmw_length(alloc, maker, area)?;
    verify_buffer(alloc, maker, area)?;
    length(alloc, maker, area)
}
