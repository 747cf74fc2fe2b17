//! The value of the option `--ns`: how many nanoseconds an instruction of each class takes.

ghost use Rattle.std.specs.Prelude.{◌≡◌, ◌≤◌, ◌-◌, ◌++◌, All, IfErr, IfOk, MatchResult, codes, length, map, replicate, string_bytes};
ghost use Rattle.std.specs.List.{after_first, before_first};
ghost use Rattle.job_parts.specs.Matched.{first_of, found_of, rows_of};
ghost use Rattle.job_parts.specs.Options.{IsBadValue, IsOptionFault, WritesSuch, list_parts};
ghost use Rattle.job_weigh.specs.Times.{GivesTimes, IsTime, IsTimeIn, IsTimes, LacksTimes, RefusesTimes, WritesIn, WritesTimes, in_nanoseconds, is_point, rounded_up, times_of, value_in, written_times};
ghost use Rattle.job_weigh.specs.declared.times.Unit.TheVariants.{Thousandth};

use clap::ArgMatches;
use job_parts::arguments::text_of;
use job_parts::usage::UsageFault;
use std::alloc::{AllocError, Global};
use weights::Costs;

/// What times are counted in.
#[derive(Clone, Copy, Debug, PartialEq, Eq)]
pub enum Unit {
    /// Nanoseconds.
    Nanosecond,
    /// Thousandths of a nanosecond.
    Thousandth,
}

/// What an instruction of each class takes.
#[derive(Clone, Copy, Debug, PartialEq, Eq)]
pub struct Times {
    /// How many units one of each class takes.
    pub costs: Costs,
    /// What they are counted in.
    pub unit: Unit,
}

/// This many thousandths, in whole numbers: a rest counts as one more.
fn rounded_up(count: u64) -> u64
    ensures { result ≡ rounded_up count }
{
    if count % 1000 == 0 {
        return count / 1000;
    }
    count / 1000 + 1
}

impl Times {
    /// This many of its units, in nanoseconds: a rest counts as one more.
    pub fn nanoseconds(&self, count: u64) -> u64
        ensures { result ≡ in_nanoseconds self.now.unit count }
    {
        match self.unit {
            Unit::Nanosecond => count,
            Unit::Thousandth => rounded_up(count),
        }
    }
}

/// How many units digits write, or `BadOption`.
fn digits_written(digits: &str) -> Result<u32, UsageFault>
    ensures { MatchResult result (WritesSuch IsTime digits.now) (IsBadValue (IsTime digits.now)) }
{
    if digits.starts_with('+') {
        return Err(UsageFault::BadOption);
    }
    let time: u32 = digits.parse().map_err(|_| UsageFault::BadOption)?;
    Ok(time)
}

/// What is before the point of a part, and what is after it.
fn at_point(part: &str) -> (&str, &str)
    ensures before { result.0.now ≡ before_first is_point part.now }
    ensures following { result.1.now ≡ after_first is_point part.now }
{
    match part.split_once('.') {
        Some((before, following)) => (before, following),
        None => (part, ""),
    }
}

/// The zeros that this many digits lack to three.
fn zeros_after(count: usize) -> &'static str
    ensures { result.now ≡ replicate (3 - count) 48 }
{
    match count {
        0 => "000",
        1 => "00",
        2 => "0",
        _ => "",
    }
}

/// The digits of thousandths, of those before and after a point.
fn thousandths(alloc: Global, before: &str, following: &str) -> Result<String, AllocError>
    ensures { IfOk result (λ digits. string_bytes digits
        ≡ (before.now ++ following.now) ++ replicate (3 - length following.now) 48) }
{
    let mut digits = String::from_str(alloc, before)?;
    digits.push_str(following)?;
    digits.push_str(zeros_after(following.len()))?;
    Ok(digits)
}

/// How many thousandths of a nanosecond a part writes, or `BadOption`.
fn fraction_written(alloc: Global, part: &str) -> Result<u32, UsageFault>
    ensures ok { IfOk result (λ time. IsTimeIn Thousandth part.now
        × (time ≡ value_in Thousandth part.now)) }
    ensures err { IfErr result (IsOptionFault (IsTimeIn Thousandth part.now)) }
{
    let (before, following) = at_point(part);
    if before.is_empty() || following.len() > 3 {
        return Err(UsageFault::BadOption);
    }
    let digits = thousandths(alloc, before, following)?;
    digits_written(digits.as_str())
}

/// How many units a part writes, or `BadOption`.
fn time_written(alloc: Global, part: &str, unit: Unit) -> Result<u32, UsageFault>
    ensures ok { IfOk result (λ time. IsTimeIn unit part.now × (time ≡ value_in unit part.now)) }
    ensures err { IfErr result (IsOptionFault (IsTimeIn unit part.now)) }
{
    match unit {
        Unit::Nanosecond => digits_written(part),
        Unit::Thousandth => fraction_written(alloc, part),
    }
}

/// The times that the parts of a list write.
fn each_time(alloc: Global, parts: &[&str], unit: Unit) -> Result<Vec<u32>, UsageFault>
    ensures ok { IfOk result (λ times. All (λ part. IsTimeIn unit part.now) parts.now
        × (times.items ≡ map (λ part. value_in unit part.now) parts.now)) }
    ensures err { IfErr result (IsOptionFault (All (λ part. IsTimeIn unit part.now) parts.now)) }
{
    let mut times = Vec::new(alloc);
    for part in parts {
        let time = time_written(alloc, part, unit)?;
        times.push(time)?;
    }
    Ok(times)
}

/// The parts of a list, which commas separate.
fn parts_of(alloc: Global, text: &str) -> Result<Vec<&str>, AllocError>
    ensures { IfOk result (λ parts. map (λ part. part.now) parts.items
        ≡ list_parts text.now) }
{
    text.split(',').collect(alloc)
}

/// Four times by their classes: of a division, a call, a conditional jump and any other instruction.
fn by_class(times: &[u32]) -> Result<Costs, UsageFault>
    ensures ok { IfOk result (λ found. (length times.now ≡ 4) × (found ≡ times_of times.now)) }
    ensures err { IfErr result (IsBadValue (length times.now ≡ 4)) }
{
    if times.len() == 4 {
        Ok(Costs::new(times[0], times[1], times[2], times[3]))
    } else {
        Err(UsageFault::BadOption)
    }
}

/// The times that a list writes in a unit.
fn times_written(alloc: Global, text: &str, unit: Unit) -> Result<Costs, UsageFault>
    ensures ok { IfOk result (λ times. IsTimes unit text.now
        × (times ≡ written_times unit text.now)) }
    ensures err { IfErr result (IsOptionFault (IsTimes unit text.now)) }
{
    let parts = parts_of(alloc, text)?;
    let times = each_time(alloc, parts.as_slice(), unit)?;
    by_class(times.as_slice())
}

/// The times that a list writes in a unit, with the unit.
fn times_in(alloc: Global, text: &str, unit: Unit) -> Result<Times, UsageFault>
    ensures ok { IfOk result (WritesIn unit text.now) }
    ensures err { IfErr result (IsOptionFault (IsTimes unit text.now)) }
{
    let costs = times_written(alloc, text, unit)?;
    Ok(Times { costs, unit })
}

/// The times that a list writes: in nanoseconds if its parts are whole numbers, and else in thousandths.
fn listed_times(alloc: Global, text: &str) -> Result<Times, UsageFault>
    ensures ok { IfOk result (WritesTimes text.now) }
    ensures err { IfErr result (LacksTimes text.now) }
{
    match times_in(alloc, text, Unit::Nanosecond) {
        Err(UsageFault::BadOption) => times_in(alloc, text, Unit::Thousandth),
        whole => whole,
    }
}

/// What an instruction of each class takes by `--ns`: four decimal numbers of nanoseconds with commas between them,
/// each below 2^32. Or, if one has a point, with at most three digits after it, each below 2^32 thousandths. Without
/// the option no times are given.
///
/// # Errors
///
/// `BadOption` if the value is no such list, or `Memory` if memory is refused.
pub fn times_of(alloc: Global, found: &ArgMatches) -> Result<Option<Times>, UsageFault>
    ensures ok { IfOk result (GivesTimes (first_of (codes "ns") (rows_of (found_of found.now)))) }
    ensures err { IfErr result (RefusesTimes (rows_of (found_of found.now))) }
{
    match text_of(found, "ns") {
        Some(text) => Ok(Some(listed_times(alloc, text)?)),
        None => Ok(None),
    }
}
