//! The rows of packets with two faults, of which the first in the order of checks decides.

use crate::maker::{Area, Maker, READ, RMW, WRITE, WRITE_VERIFIED};
use crate::rows::SuiteRow;
use std::alloc::{AllocError, Global};

/// Pairs of which the first is a reason to discard.
fn discards(maker: &mut Maker, area: Area) -> Result<(), AllocError> {
    let plain = maker.shape(READ, area.extended, area.base, 4);
    let mut shape = plain;
    shape.protocol = 2;
    shape.keep = 2;
    maker.bare(SuiteRow::ShortBeforeProtocol, shape)?;
    shape.keep = 5;
    maker.bare(SuiteRow::ProtocolBeforeShort, shape)?;
    let mut shape = plain;
    shape.protocol = 2;
    shape.kind = 0;
    maker.bare(SuiteRow::ProtocolBeforeReplyType, shape)?;
    let mut shape = plain;
    shape.kind = 0;
    shape.keep = 5;
    maker.bare(SuiteRow::ReplyTypeBeforeShort, shape)?;
    let mut shape = plain;
    shape.kind = 0;
    shape.header_error = 1;
    maker.bare(SuiteRow::ReplyTypeBeforeHeaderCrc, shape)?;
    let mut shape = plain;
    shape.code = 6;
    shape.header_error = 1;
    maker.bare(SuiteRow::HeaderCrcBeforeUnusedCode, shape)
}

/// Pairs of which the first is a fault of the header.
fn headers(alloc: Global, maker: &mut Maker, area: Area, banks: u8) -> Result<(), AllocError> {
    let mut shape = maker.shape(6, area.extended, area.base, 4);
    shape.target ^= 1;
    maker.bare(SuiteRow::UnusedCodeBeforeTargetAddress, shape)?;
    let mut shape = maker.shape(RMW, area.extended, area.base, 3);
    shape.target ^= 1;
    maker.full(alloc, SuiteRow::TargetAddressBeforeRmwLength, shape)?;
    let shape = maker.shape(RMW, area.extended, area.base, 1026);
    maker.full(alloc, SuiteRow::RmwLengthBeforeVerifyBuffer, shape)?;
    let shape = maker.shape(WRITE_VERIFIED, area.extended, area.base, 4097);
    maker.full(alloc, SuiteRow::VerifyBufferBeforeLength, shape)?;
    let shape = maker.shape(READ, banks, area.base, 4097);
    maker.bare(SuiteRow::LengthBeforePlace, shape)
}

/// Pairs before the program.
///
/// # Errors
///
/// An error if memory is refused.
pub fn header_pairs(
    alloc: Global,
    maker: &mut Maker,
    area: Area,
    banks: u8,
) -> Result<(), AllocError> {
    discards(maker, area)?;
    headers(alloc, maker, area, banks)
}

/// Pairs after the program.
///
/// # Errors
///
/// An error if memory is refused.
pub fn body_pairs(alloc: Global, maker: &mut Maker, area: Area) -> Result<(), AllocError> {
    let mut shape = maker.shape(WRITE, area.extended, area.base, 4);
    shape.keep = 18;
    shape.end = spw::End::Eep;
    maker.full(alloc, SuiteRow::EepBeforeEarlyEop, shape)?;
    let mut shape = maker.shape(WRITE, area.extended, area.base, 4);
    shape.extra = 1;
    shape.data_error = 1;
    maker.full(alloc, SuiteRow::TooMuchDataBeforeDataCrc, shape)
}
