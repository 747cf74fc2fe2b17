//! The places of memory that a suite may change, as its words name them.

ghost use Rattle.std.specs.Prelude.{◌≡◌, IfErr, IfOk, MatchOption};
ghost use Rattle.std.specs.List.{after_first, before_first};
ghost use Rattle.job_parts.specs.Options.{IsOptionFault, list_parts};
ghost use Rattle.job_suite.specs.Ranges.{IsRangeWord, WriteRanges, WritesRange, is_colon, is_dash};
ghost use Rattle.job_suite.specs.SuiteJob.{IsRangeList};

use job_packets::hex_words::hex_written;
use job_parts::usage::UsageFault;
use std::alloc::{AllocError, Global};

/// Bytes of memory that follow each other.
#[derive(Clone, Copy, Debug, PartialEq, Eq)]
pub struct MemoryRange {
    /// The extended address.
    pub extended: u8,
    /// The first address.
    pub low: u32,
    /// The last address.
    pub high: u32,
}

/// What is before the colon of a word, and what is after it.
pub fn at_colon(part: &str) -> (&str, &str)
    ensures before { result.0.now ≡ before_first is_colon part.now }
    ensures following { result.1.now ≡ after_first is_colon part.now }
{
    match part.split_once(':') {
        Some((before, following)) => (before, following),
        None => (part, ""),
    }
}

/// What is before the dash of a part, and what is after it.
fn at_dash(part: &str) -> (&str, &str)
    ensures before { result.0.now ≡ before_first is_dash part.now }
    ensures following { result.1.now ≡ after_first is_dash part.now }
{
    match part.split_once('-') {
        Some((before, following)) => (before, following),
        None => (part, ""),
    }
}

/// The range that a part of a list writes: `HH:LOW-HIGH`, all in hexadecimal digits, LOW not above HIGH.
#[tactic(auto, using(crate::proofs::RangeLists::no_extended, crate::proofs::RangeLists::no_low, crate::proofs::RangeLists::no_high, crate::proofs::RangeLists::no_order))]
fn range_written(part: &str) -> Option<MemoryRange>
    ensures { MatchOption result (¬ IsRangeWord part.now) (WritesRange part.now) }
{
    let (before, following) = at_colon(part);
    let (first, last) = at_dash(following);
    let Some(extended) = hex_written(before, 2) else {
        return None;
    };
    let Some(low) = hex_written(first, 8) else {
        return None;
    };
    let Some(high) = hex_written(last, 8) else {
        return None;
    };
    if low > high {
        return None;
    }
    Some(MemoryRange {
        extended: extended as u8,
        low,
        high,
    })
}

/// The ranges that a list writes, with commas between them.
///
/// # Errors
///
/// `BadOption` if a part writes no range, or `Memory` if memory is refused.
pub fn ranges_written(alloc: Global, text: &str) -> Result<Vec<MemoryRange>, UsageFault>
    ensures ok { IfOk result (λ ranges. WriteRanges (list_parts text.now) ranges.items) }
    ensures err { IfErr result (IsOptionFault (IsRangeList text.now)) }
{
    let mut ranges = Vec::new(alloc);
    for part in text.split(',') {
        let Some(range) = range_written(part) else {
            return Err(UsageFault::BadOption);
        };
        ranges.push(range)?;
    }
    Ok(ranges)
}
