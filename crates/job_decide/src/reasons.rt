//! Why a rule does not match, and why a command is answered without a verdict.

use policy::{Mismatch, OtherByte, Passed, PortRule, RuleKind};
use rmap::{
    CONTROL_SIZE, HeaderFault, Instruction, Kind, LOAD_REGISTER, LOAD_RESULT_SIZE, NoPlace,
};
use std::alloc::{AllocError, Global};

/// The word of a table for a kind.
fn word_of(kind: RuleKind) -> &'static str {
    match kind {
        RuleKind::Read => "read",
        RuleKind::Write => "write",
        RuleKind::Rmw => "rmw",
        RuleKind::Any => "any",
    }
}

/// What a command is.
fn name_of(kind: Kind) -> &'static str {
    match kind {
        Kind::Read => "a read",
        Kind::Write => "a write",
        Kind::Rmw => "a read-modify-write",
        // A check of the header answers it, and no rule is asked.
        Kind::Unused => "of no kind",
    }
}

/// That a byte of a rule is not the command's.
fn add_byte(text: &mut String, name: &str, bytes: OtherByte) -> Result<(), AllocError> {
    let (wanted, given) = (bytes.wanted, bytes.given);
    writeln!(text, "{name} is {wanted:02X}, the command's {given:02X}")
}

/// The first word of a rule that does not agree with the command, and how.
fn add_mismatch(text: &mut String, mismatch: Mismatch) -> Result<(), AllocError> {
    match mismatch {
        Mismatch::Kind { wanted, given } => {
            let wanted = word_of(wanted);
            let given = name_of(given);
            writeln!(text, "KIND is {wanted}, the command {given}")
        }
        Mismatch::Key(bytes) => add_byte(text, "KEY", bytes),
        Mismatch::Initiator(bytes) => add_byte(text, "INIT", bytes),
        Mismatch::Extended(bytes) => add_byte(text, "EXT", bytes),
        Mismatch::Low { address, .. } => {
            writeln!(text, "the address {address:08X} is below LOW")
        }
        Mismatch::High { last, .. } => {
            writeln!(text, "the last address {last:08X} is above HIGH")
        }
    }
}

/// Why a rule does not match.
fn add_passed(text: &mut String, why: Passed) -> Result<(), AllocError> {
    match why {
        Passed::Unlike(mismatch) => add_mismatch(text, mismatch),
        Passed::Spent { call, limit } => {
            let (ticket, map, cell) = (call.answer, call.question.map, call.question.key);
            writeln!(
                text,
                "the ticket {ticket} of {map}:{cell} is not below {limit}"
            )
        }
    }
}

/// The port of a rule that is not asked at another port.
fn other_port(own: &PortRule, port: u8) -> Option<u8> {
    let wanted = own.port?;
    if wanted == port { None } else { Some(wanted) }
}

/// A line for each rule before the one that decides, from the first on: its line, and why it does not match. If a rule
/// is for another port, its line says so. `passed` has the reasons of the rules that are asked at the port, in order;
/// the rule after them decides.
///
/// # Errors
///
/// An error if memory is refused.
pub fn reasons(
    alloc: Global,
    rules: &[PortRule],
    port: u8,
    passed: &[Passed],
) -> Result<String, AllocError> {
    let mut text = String::new(alloc);
    let mut left = passed;
    for own in rules {
        let line = own.line;
        if let Some(wanted) = other_port(own, port) {
            writeln!(
                text,
                "    rule {line}: PORT is {wanted}, the packet's {port}"
            )?;
            continue;
        }
        let Some((why, rest)) = left.split_first() else {
            return Ok(text);
        };
        left = rest;
        write!(text, "    rule {line}: ")?;
        add_passed(&mut text, *why)?;
    }
    Ok(text)
}

/// Why the bytes of a command have no place.
fn add_no_place(text: &mut String, miss: NoPlace) -> Result<(), AllocError> {
    write!(text, "no place, ")?;
    match miss {
        NoPlace::NoBank { extended } => {
            writeln!(text, "the extended address {extended:02X} is of no bank")
        }
        NoPlace::OutsideBank { address } => {
            writeln!(text, "the address {address:08X} is in no bank")
        }
        NoPlace::AfterBank { address, length } => {
            let last = (u64::from(address) + u64::from(length)).saturating_sub(1);
            writeln!(
                text,
                "the last address {last:08X} is after the end of the bank"
            )
        }
        NoPlace::OtherAtRegister { .. } => {
            let (register, read, write) = (LOAD_REGISTER, LOAD_RESULT_SIZE, CONTROL_SIZE);
            write!(text, "at {register:08X} there are a read of {read} bytes ")?;
            writeln!(text, "and a write of {write}, with increment")
        }
        NoPlace::OutsideBootWindow { address, length } => {
            writeln!(
                text,
                "the boot window has no {length} bytes at {address:08X}"
            )
        }
    }
}

/// Why a command is of no used kind.
fn add_unused(text: &mut String, instruction: Instruction) -> Result<(), AllocError> {
    if instruction.is_command() {
        let code = instruction.0 >> 2 & 0b1111;
        writeln!(text, "the command code {code:04b} is unused")
    } else {
        writeln!(text, "the packet type is reserved")
    }
}

/// The check of its header by which a command is answered, and what it found, as a line.
///
/// # Errors
///
/// An error if memory is refused.
pub fn fault_text(alloc: Global, fault: HeaderFault) -> Result<String, AllocError> {
    let mut text = String::new(alloc);
    match fault {
        HeaderFault::UnusedCode { instruction } => add_unused(&mut text, instruction)?,
        HeaderFault::OtherNode { target, node } => {
            writeln!(
                text,
                "the target logical address is {target:02X}, the node's {node:02X}"
            )?;
        }
        HeaderFault::WrongRmwLength { length } => {
            writeln!(
                text,
                "a read-modify-write has a length of 0, 2, 4, 6 or 8, and not {length}"
            )?;
        }
        HeaderFault::TooManyToVerify { length } => {
            writeln!(
                text,
                "the verify bit goes with at most 1024 bytes, and not {length}"
            )?;
        }
        HeaderFault::TooManyBytes { length } => {
            writeln!(text, "a command has at most 4096 bytes, and not {length}")?;
        }
        HeaderFault::NoPlace(miss) => add_no_place(&mut text, miss)?,
    }
    Ok(text)
}
