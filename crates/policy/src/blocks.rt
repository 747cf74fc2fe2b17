//! The tests of compiled tables, and the code before and after them. A test that fails skips `behind` slots after it,
//! to the end of its rule.

ghost use Rattle.std.specs.Prelude.{◌≡◌, ◌≤◌, ◌<◌, ◌++◌, OnOk};
ghost use Rattle.policy.specs.Code.{address_code, field_test, keep_code, kind_test, last_address_code, masked_test, port_byte_place, port_test, quota_test, range_test, verdict_code};
ghost use Rattle.policy_table.specs.Limits.{IsLimited};
ghost use Rattle.rmap.specs.Verdict.{verdict_number};

use crate::insns::{apply, load, register, set, set_bits, skip_if, source, swap};
use bpf_insn::{AluOp, Callee, Condition, Insn, LoadSize, MemoryOperand, Operand, Size};
use machine::Helper;
use policy_table::{Quota, RuleKind};
use rmap::field::{ADDRESS, INSTRUCTION, LENGTH};
use rmap::{
    INCREMENT_BIT, READ_BITS, READ_MASK, RMW_BITS, RMW_MASK, Verdict, WRITE_BITS, WRITE_MASK,
};
use std::alloc::AllocError;

/// r0: the value that is compared, the answer of a helper, and the verdict.
const VALUE: u8 = 0;

/// r1 at entry: points to the first four bytes of the header.
const GIVEN_FRONT: u8 = 1;

/// r2 at entry: points to the last twelve bytes of the header.
const GIVEN_TAIL: u8 = 2;

/// r1 at a call: the map.
const MAP: u8 = 1;

/// r2 at a call: the cell of the map.
const CELL: u8 = 2;

/// r3 at entry: the number of the port.
const GIVEN_PORT: u8 = 3;

/// r10: points to the byte after the last of the stack.
const FRAME: u8 = 10;

/// r6: points to the first four bytes of the header. No call changes r6 to r9.
pub const FRONT: u8 = 6;

/// r7: points to the last twelve bytes of the header.
pub const TAIL: u8 = 7;

/// r8: the first address of the command.
const FIRST: u8 = 8;

/// r9: the last address of the command, which may pass the last of 32 bits.
const LAST: u8 = 9;

/// Tests that the instruction byte under a mask is that number.
///
/// # Errors
///
/// Memory is refused.
fn push_masked(insns: &mut Vec<Insn>, mask: u8, wanted: u8, following: u8) -> Result<(), AllocError>
    ensures { OnOk result (insns.new.items ≡ insns.old.items ++ masked_test mask wanted following) }
{
    let wanted = Operand::Immediate(i32::from(wanted));
    insns.extend_from_slice(&[
        load(LoadSize::LoadByte, VALUE, FRONT, INSTRUCTION),
        apply(AluOp::And, VALUE, Operand::Immediate(i32::from(mask))),
        skip_if(Condition::NotEqual, VALUE, wanted, following),
    ])
}

/// Tests that the command is of the kind, by packet type and command code.
///
/// # Errors
///
/// Memory is refused.
pub fn push_kind(insns: &mut Vec<Insn>, kind: RuleKind, following: u8) -> Result<(), AllocError>
    ensures { OnOk result (insns.new.items ≡ insns.old.items ++ kind_test kind following) }
{
    match kind {
        RuleKind::Any => Ok(()),
        RuleKind::Read => push_masked(insns, READ_MASK, READ_BITS, following),
        RuleKind::Write => push_masked(insns, WRITE_MASK, WRITE_BITS, following),
        RuleKind::Rmw => push_masked(insns, RMW_MASK, RMW_BITS, following),
    }
}

/// Tests that a byte of the header is that of the field.
///
/// # Errors
///
/// Memory is refused.
pub fn push_field(
    insns: &mut Vec<Insn>,
    field: Option<u8>,
    base: u8,
    offset: usize,
    following: u8,
) -> Result<(), AllocError>
    requires base { base ≤ 10 }
    requires inside { offset < 12 }
    ensures { OnOk result
        (insns.new.items ≡ insns.old.items ++ field_test field base offset following) }
{
    let Some(wanted) = field else {
        return Ok(());
    };
    let wanted = Operand::Immediate(i32::from(wanted));
    insns.extend_from_slice(&[
        load(LoadSize::LoadByte, VALUE, base, offset),
        skip_if(Condition::NotEqual, VALUE, wanted, following),
    ])
}

/// The last byte of the stack, which holds the port.
fn port_byte_place() -> MemoryOperand
    ensures { result ≡ port_byte_place }
{
    MemoryOperand {
        base: register(FRAME),
        offset: -1,
    }
}

/// Puts the port on the stack, if a rule asks it: a call unsets r3.
///
/// # Errors
///
/// Memory is refused.
pub fn push_keep(insns: &mut Vec<Insn>, asked: bool) -> Result<(), AllocError>
    ensures { OnOk result (insns.new.items ≡ insns.old.items ++ keep_code asked) }
{
    if !asked {
        return Ok(());
    }
    insns.extend_from_slice(&[Insn::Store {
        size: Size::Byte,
        place: port_byte_place(),
        src: source(GIVEN_PORT),
    }])
}

/// Tests that the port is that of the field.
///
/// # Errors
///
/// Memory is refused.
pub fn push_port(insns: &mut Vec<Insn>, port: Option<u8>, following: u8) -> Result<(), AllocError>
    ensures { OnOk result (insns.new.items ≡ insns.old.items ++ port_test port following) }
{
    let Some(port) = port else {
        return Ok(());
    };
    let wanted = Operand::Immediate(i32::from(port));
    let loaded = Insn::Load {
        size: LoadSize::LoadByte,
        dst: register(VALUE),
        place: port_byte_place(),
    };
    insns.extend_from_slice(&[
        loaded,
        skip_if(Condition::NotEqual, VALUE, wanted, following),
    ])
}

/// Tests that the address is not below the range, and the last address not above it.
///
/// # Errors
///
/// Memory is refused.
pub fn push_range(
    insns: &mut Vec<Insn>,
    low: u32,
    high: u32,
    following: u8,
) -> Result<(), AllocError>
    requires { following ≤ 250 }
    ensures { OnOk result (insns.new.items ≡ insns.old.items ++ range_test low high following) }
{
    insns.extend_from_slice(&[
        set_bits(VALUE, low),
        skip_if(Condition::Less, FIRST, source(VALUE), following + 2),
        set_bits(VALUE, high),
        skip_if(Condition::Greater, LAST, source(VALUE), following),
    ])
}

/// Draws a ticket of the quota's cell, and tests that it is below the limit.
///
/// # Errors
///
/// Memory is refused.
pub fn push_quota(
    insns: &mut Vec<Insn>,
    quota: Option<Quota>,
    following: u8,
) -> Result<(), AllocError>
    requires { IsLimited quota }
    ensures { OnOk result (insns.new.items ≡ insns.old.items ++ quota_test quota following) }
{
    let Some(quota) = quota else {
        return Ok(());
    };
    let map = Insn::LoadMap {
        dst: register(MAP),
        index: i32::from(quota.map),
    };
    let ticket = Insn::Call {
        callee: Callee::Helper,
        number: i32::from(Helper::Ticket.number()),
    };
    let limit = Operand::Immediate(quota.limit as i32);
    insns.extend_from_slice(&[
        map,
        set(CELL, quota.cell),
        ticket,
        skip_if(Condition::GreaterEqual, VALUE, limit, following),
    ])
}

/// Ends a run with the verdict.
///
/// # Errors
///
/// Memory is refused.
pub fn push_verdict(insns: &mut Vec<Insn>, verdict: Verdict) -> Result<(), AllocError>
    ensures { OnOk result
        (insns.new.items ≡ insns.old.items ++ verdict_code (verdict_number verdict)) }
{
    insns.extend_from_slice(&[set(VALUE, u16::from(verdict.number())), Insn::Exit])
}

/// Finds the parts of the header and the first address.
///
/// # Errors
///
/// Memory is refused.
pub fn push_address(insns: &mut Vec<Insn>) -> Result<(), AllocError>
    ensures { OnOk result (insns.new.items ≡ insns.old.items ++ address_code) }
{
    insns.extend_from_slice(&[
        apply(AluOp::Mov, FRONT, source(GIVEN_FRONT)),
        apply(AluOp::Mov, TAIL, source(GIVEN_TAIL)),
        load(LoadSize::LoadWord, FIRST, TAIL, ADDRESS),
        swap(FIRST),
        apply(AluOp::Mov, LAST, source(FIRST)),
    ])
}

/// Finds the last address. It is after the first if the increment bit is set and the data length is more than one.
///
/// # Errors
///
/// Memory is refused.
pub fn push_last_address(insns: &mut Vec<Insn>) -> Result<(), AllocError>
    ensures { OnOk result (insns.new.items ≡ insns.old.items ++ last_address_code) }
{
    insns.extend_from_slice(&[
        load(LoadSize::LoadByte, VALUE, FRONT, INSTRUCTION),
        apply(
            AluOp::And,
            VALUE,
            Operand::Immediate(i32::from(INCREMENT_BIT)),
        ),
        skip_if(Condition::Equal, VALUE, Operand::Immediate(0), 6),
        load(LoadSize::LoadWord, VALUE, TAIL, LENGTH),
        swap(VALUE),
        apply(AluOp::Rsh, VALUE, Operand::Immediate(8)),
        skip_if(Condition::Equal, VALUE, Operand::Immediate(0), 2),
        apply(AluOp::Add, LAST, source(VALUE)),
        apply(AluOp::Sub, LAST, Operand::Immediate(1)),
    ])
}
