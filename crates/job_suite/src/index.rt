//! The index of a suite: for each line its number, its row, and what it tries.

use crate::candidates::{COMMAND, Shape};
use crate::rows::{SuiteRow, name_of};
use crate::search::Findings;
use crate::trials::Trial;
use initiator::RMW_CODE;
use rmap::{BOOT_WINDOW, Instruction, Kind, PROTOCOL};
use spw::End;
use std::alloc::{AllocError, Global};

/// What the command code of a shape is.
fn kind_words(shape: &Shape) -> &'static str {
    match Instruction(COMMAND * 64 + (shape.code % 16) * 4).kind() {
        Kind::Read => "read",
        Kind::Write => "write",
        Kind::Rmw => "read-modify-write",
        Kind::Unused => "unused code",
    }
}

/// Adds the options of a command.
fn add_code(text: &mut String, shape: &Shape) -> Result<(), AllocError> {
    let code = shape.code % 16;
    if code >= 8 && code & 4 != 0 {
        write!(text, ", verified")?;
    }
    if code >= 8 && code & 2 == 0 {
        write!(text, ", no reply")?;
    }
    if code & 1 == 0 {
        write!(text, ", no increment")?;
    }
    Ok(())
}

/// Adds what is spoilt in the header.
fn add_header_errors(text: &mut String, shape: &Shape) -> Result<(), AllocError> {
    let (protocol, kind, packet_error) = (shape.protocol, shape.kind, shape.header_error);
    if protocol != PROTOCOL {
        write!(text, ", protocol {protocol:02X}")?;
    }
    if kind != COMMAND {
        write!(text, ", packet type {kind}")?;
    }
    if packet_error != 0 {
        write!(text, ", wrong header CRC")?;
    }
    let words = shape.words;
    let count = u32::from(words % 4) * 4;
    if words != 0 {
        write!(text, ", reply address of {count} bytes")?;
    }
    Ok(())
}

/// Adds what is spoilt after the header.
fn add_body_errors(text: &mut String, shape: &Shape) -> Result<(), AllocError> {
    let (keep, extra) = (shape.keep, shape.extra);
    if shape.data_error != 0 {
        write!(text, ", wrong data CRC")?;
    }
    if keep < 4200 {
        write!(text, ", cut after {keep} bytes")?;
    }
    if extra != 0 {
        write!(text, ", {extra} bytes more")?;
    }
    if shape.end == End::Eep {
        write!(text, ", EEP")?;
    }
    Ok(())
}

/// Adds to whom a command goes, if it does not go to the node of this address. For a row of the program or of keys it
/// adds who asks.
fn add_addresses(
    text: &mut String,
    address: u8,
    row: SuiteRow,
    shape: &Shape,
) -> Result<(), AllocError> {
    let (target, initiator, key) = (shape.target, shape.initiator, shape.key);
    if target != address {
        write!(text, ", target {target:02X}")?;
    }
    match row {
        SuiteRow::Program(_) | SuiteRow::ProgramBeforeEep(_) | SuiteRow::Key => {
            write!(text, ", initiator {initiator:02X}, key {key:02X}")
        }
        _ => Ok(()),
    }
}

/// Adds the line of a packet, for a node of that logical address.
fn add_trial(
    alloc: Global,
    text: &mut String,
    address: u8,
    number: usize,
    trial: &Trial,
) -> Result<(), AllocError> {
    let shape = &trial.shape;
    let name = name_of(alloc, trial.row)?;
    let (row, kind) = (name.as_str(), kind_words(shape));
    let (extended, first, length) = (shape.extended, shape.address, shape.length);
    write!(
        text,
        "{number} {row} {kind} of {length} bytes at {extended:02X}:{first:08X}"
    )?;
    add_code(text, shape)?;
    add_addresses(text, address, trial.row, shape)?;
    add_header_errors(text, shape)?;
    add_body_errors(text, shape)?;
    writeln!(text)
}

/// Adds the index of these packets.
fn add_trials(
    alloc: Global,
    text: &mut String,
    address: u8,
    trials: &[Trial],
) -> Result<(), AllocError> {
    let mut number: usize = 0;
    for trial in trials {
        number = number.saturating_add(1);
        add_trial(alloc, text, address, number, trial)?;
    }
    Ok(())
}

/// The index of these packets, for a node of that logical address.
///
/// # Errors
///
/// An error if memory is refused.
pub fn index_of(alloc: Global, address: u8, trials: &[Trial]) -> Result<String, AllocError> {
    let mut text = String::new(alloc);
    add_trials(alloc, &mut text, address, trials)?;
    Ok(text)
}

/// The slot of a command's program.
fn slot_of(shape: &Shape) -> u8 {
    if shape.extended == BOOT_WINDOW {
        3
    } else if shape.code >= 8 {
        1
    } else if shape.code == RMW_CODE {
        2
    } else {
        0
    }
}

/// Whether a packet is of the row of a verdict, and for a slot.
fn is_judged(verdict: u64, slot: u8, trials: &[Trial]) -> bool {
    for trial in trials {
        if trial.row == SuiteRow::Program(verdict) && slot_of(&trial.shape) == slot {
            return true;
        }
    }
    false
}

/// Adds a line if no packet is of the row of a verdict and for a slot: none was found, or it may not be printed.
///
/// # Errors
///
/// An error if memory is refused.
pub fn add_missing_verdict(
    text: &mut String,
    findings: &Findings,
    trials: &[Trial],
    slot: u8,
    verdict: u64,
) -> Result<(), AllocError> {
    if is_judged(verdict, slot, trials) {
        return Ok(());
    }
    let why = if findings.has(slot, verdict) {
        "may be printed"
    } else {
        "was found"
    };
    writeln!(text, "- program-{verdict} no packet {why} for slot {slot}")
}

/// Whether a packet is of a row.
pub fn is_there(row: SuiteRow, trials: &[Trial]) -> bool {
    for trial in trials {
        if trial.row == row {
            return true;
        }
    }
    false
}

/// Adds the line of a row that has no packet. It adds none for a row of the program, of which each slot has its lines.
///
/// # Errors
///
/// An error if memory is refused.
pub fn add_missing_row(alloc: Global, text: &mut String, row: SuiteRow) -> Result<(), AllocError> {
    if let SuiteRow::Program(_) = row {
        return Ok(());
    }
    let name = name_of(alloc, row)?;
    let name = name.as_str();
    writeln!(text, "- {name} no packet may be printed or meets the row")
}
