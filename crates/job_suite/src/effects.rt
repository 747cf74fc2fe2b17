//! The rows of commands that are carried out.

use crate::bodies::look;
use crate::headers::plain_length;
use crate::maker::{
    Area, Maker, READ, READ_ONE, RMW, WRITE, WRITE_ONE, WRITE_SILENT, WRITE_VERIFIED,
};
use crate::rows::SuiteRow;
use std::alloc::{AllocError, Global};

/// The lengths that are tried, as far as a bank goes.
const LENGTHS: [u32; 16] = [
    0, 1, 2, 3, 4, 8, 16, 32, 64, 128, 256, 512, 1024, 2048, 4095, 4096,
];

/// Reads from the first byte and up to the last, and of one address.
fn reads(maker: &mut Maker, area: Area) -> Result<(), AllocError> {
    for length in LENGTHS {
        let shape = maker.shape(READ, area.extended, area.base, length);
        maker.bare(SuiteRow::Read, shape)?;
        let last = area.last(length.max(1));
        let shape = maker.shape(READ, area.extended, last, length);
        maker.bare(SuiteRow::Read, shape)?;
    }
    for address in [area.base, area.last(1)] {
        let shape = maker.shape(READ_ONE, area.extended, address, 4);
        maker.bare(SuiteRow::Read, shape)?;
    }
    Ok(())
}

/// A write of that code at this place, and a read of the same memory.
fn write(
    alloc: Global,
    maker: &mut Maker,
    area: Area,
    row: SuiteRow,
    code: u8,
    address: u32,
    length: u32,
) -> Result<(), AllocError> {
    let shape = maker.shape(code, area.extended, address, length);
    maker.full(alloc, row, shape)?;
    let shape = maker.shape(READ, area.extended, address, length.min(64));
    maker.bare(SuiteRow::Memory, shape)
}

/// Writes of each length, at places that are drawn.
fn writes(alloc: Global, maker: &mut Maker, area: Area) -> Result<(), AllocError> {
    for length in LENGTHS {
        let room = area.size.saturating_sub(length).saturating_add(1);
        let address = area.base.wrapping_add(maker.draw_below(room));
        write(alloc, maker, area, SuiteRow::Write, WRITE, address, length)?;
    }
    write(alloc, maker, area, SuiteRow::Write, WRITE, area.last(1), 1)?;
    write(alloc, maker, area, SuiteRow::Write, WRITE_ONE, area.base, 4)?;
    write(
        alloc,
        maker,
        area,
        SuiteRow::Write,
        WRITE_ONE,
        area.last(1),
        3,
    )
}

/// Verified writes, of up to as many bytes as the buffer takes.
fn verified_writes(alloc: Global, maker: &mut Maker, area: Area) -> Result<(), AllocError> {
    for length in [0_u32, 1, 4, 1023, 1024] {
        write(
            alloc,
            maker,
            area,
            SuiteRow::VerifiedWrite,
            WRITE_VERIFIED,
            area.base,
            length,
        )?;
    }
    Ok(())
}

/// Read-modify-writes of each length, at places that are drawn.
fn rmws(alloc: Global, maker: &mut Maker, area: Area) -> Result<(), AllocError> {
    for length in [0_u32, 2, 4, 6, 8] {
        let room = area.size.saturating_sub(8).max(1);
        let address = area.base.wrapping_add(maker.draw_below(room));
        write(alloc, maker, area, SuiteRow::Rmw, RMW, address, length)?;
    }
    write(alloc, maker, area, SuiteRow::Rmw, RMW, area.last(8), 8)
}

/// Commands that want no reply, each with a read of what it wrote.
fn no_reply(alloc: Global, maker: &mut Maker, area: Area) -> Result<(), AllocError> {
    for code in [8_u8, WRITE_SILENT, 12, 13] {
        write(alloc, maker, area, SuiteRow::NoReply, code, area.base, 4)?;
    }
    Ok(())
}

/// Commands with other keys.
fn key(alloc: Global, maker: &mut Maker, area: Area) -> Result<(), AllocError> {
    for packet_error in [1_u8, 0x80] {
        for code in [READ, WRITE, RMW] {
            let mut shape = maker.shape(code, area.extended, area.base, plain_length(code));
            shape.key ^= packet_error;
            maker.put(alloc, SuiteRow::Key, shape)?;
        }
        look(maker, area)?;
    }
    Ok(())
}

/// Reads and writes with reply addresses of each length, with zeros in front of the last byte, and with only zeros.
fn reply_address(alloc: Global, maker: &mut Maker, area: Area) -> Result<(), AllocError> {
    for code in [READ, WRITE, RMW] {
        for words in [0_u8, 1, 2, 3] {
            for path in [0_u8, 5] {
                let mut shape = maker.shape(code, area.extended, area.base, 2);
                shape.words = words;
                shape.path = path;
                maker.put(alloc, SuiteRow::ReplyAddress, shape)?;
            }
        }
    }
    Ok(())
}

/// All of these, at a bank.
///
/// # Errors
///
/// An error if memory is refused.
pub fn effect_rows(alloc: Global, maker: &mut Maker, area: Area) -> Result<(), AllocError> {
    reads(maker, area)?;
    writes(alloc, maker, area)?;
    verified_writes(alloc, maker, area)?;
    rmws(alloc, maker, area)?;
    no_reply(alloc, maker, area)?;
    key(alloc, maker, area)?;
    reply_address(alloc, maker, area)
}
