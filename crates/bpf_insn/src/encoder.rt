//! From an instruction to its bytes.

ghost use Rattle.std.specs.Prelude.{◌≡◌, ◌<◌, ◌*◌, ◌+◌, ◌/◌, ◌%◌, ◌^◌, ℤ, pos};
ghost use Rattle.std.specs.Int.{w32, cast_signed};
ghost use Rattle.bpf_parts.specs.Codes.{store_class};
ghost use Rattle.bpf_insn.specs.Spelling.{RegistersFit, Spells, fields, first_bytes, first_fields, load_wide, second_bytes, second_immediate};

use crate::fields::Fields;
use crate::insn::Insn;
use bpf_parts::opcode::{
    CALL, CONSTANT, END, EXIT, GOTO_LONG, GOTO_SHORT, K, LDX, LOAD_WIDE, MAP_BY_INDEX, MOV, NEG,
    ST, STX, X,
};
use bpf_parts::{
    Address, AluOp, Comparison, Distance, Extension, LoadSize, MemoryOperand, Operand, Register,
    Size, Swap, SwapBits, Width,
};

/// The bytes that spell the instruction: the first slot, and the second of an instruction that has
/// two (RFC 9669, section 3).
pub fn encode(insn: &Insn) -> ([u8; 8], Option<[u8; 8]>)
    ensures spells { Spells result.0 result.1 insn.now }
    ensures first { result.0 ≡ first_bytes insn.now }
    ensures second { result.1 ≡ second_bytes insn.now }
{
    insn.keeps_limits();
    (first_fields(insn).bytes(), second_bytes(insn))
}

/// The bytes of the second slot, if the instruction has one.
fn second_bytes(insn: &Insn) -> Option<[u8; 8]>
    ensures { result ≡ second_bytes insn.now }
{
    match second_immediate(insn) {
        None => None,
        Some(immediate) => Some(Fields::new(0, 0, 0, 0, immediate).bytes()),
    }
}

/// The fields of the first slot.
pub fn first_fields(insn: &Insn) -> Fields
    ensures value { result ≡ first_fields insn.now }
    ensures registers { RegistersFit result }
{
    match *insn {
        Insn::Alu {
            op,
            width,
            dst,
            src,
        } => alu_fields(op, width, dst, src),
        Insn::Negate { width, dst } => negate_fields(width, dst),
        Insn::MoveSigned {
            extension,
            dst,
            src,
        } => move_fields(extension, dst, src),
        Insn::ByteSwap { swap, bits, dst } => swap_fields(swap, bits, dst),
        Insn::Load { size, dst, place } => load_fields(size, dst, place),
        Insn::Store { size, place, src } => store_fields(size, place, src),
        Insn::Jump { comparison, offset } => jump_fields(comparison, offset),
        Insn::Goto { distance } => goto_fields(distance),
        Insn::Wide { dst, value } => wide_fields(dst, CONSTANT, low_half(value)),
        Insn::LoadMap { dst, index } => wide_fields(dst, MAP_BY_INDEX, index),
        Insn::LoadAddress { dst, address } => address_fields(dst, address),
        Insn::Call { callee, number } => Fields::new(CALL, 0, callee.code(), 0, number),
        Insn::Exit => Fields::new(EXIT, 0, 0, 0, 0),
    }
}

/// The immediate of the second slot, if the instruction has one.
pub fn second_immediate(insn: &Insn) -> Option<i32>
    ensures { result ≡ second_immediate insn.now }
{
    match *insn {
        Insn::Wide { value, .. } => Some(high_half(value)),
        Insn::LoadMap { .. } => Some(0),
        Insn::LoadAddress { address, .. } => Some(address.second()),
        _ => None,
    }
}

fn alu_fields(op: AluOp, width: Width, dst: Register, src: Operand) -> Fields
    ensures value { result ≡ first_fields (Insn.Alu op width dst src) }
    ensures registers { RegistersFit result }
{
    let opcode = width.arithmetic_class() + src.source_bit() + op.code() * 16;
    Fields::new(
        opcode,
        dst.number(),
        src.source_field(),
        op.offset(),
        src.immediate_field(),
    )
}

fn negate_fields(width: Width, dst: Register) -> Fields
    ensures value { result ≡ first_fields (Insn.Negate width dst) }
    ensures registers { RegistersFit result }
{
    let opcode = width.arithmetic_class() + K + NEG * 16;
    Fields::new(opcode, dst.number(), 0, 0, 0)
}

fn move_fields(extension: Extension, dst: Register, src: Register) -> Fields
    ensures value { result ≡ first_fields (Insn.MoveSigned extension dst src) }
    ensures registers { RegistersFit result }
{
    let opcode = extension.width().arithmetic_class() + X + MOV * 16;
    Fields::new(opcode, dst.number(), src.number(), extension.bits(), 0)
}

fn swap_fields(swap: Swap, bits: SwapBits, dst: Register) -> Fields
    ensures value { result ≡ first_fields (Insn.ByteSwap swap bits dst) }
    ensures registers { RegistersFit result }
{
    let opcode = swap.width().arithmetic_class() + swap.source_bit() + END * 16;
    Fields::new(opcode, dst.number(), 0, 0, bits.bits())
}

fn load_fields(size: LoadSize, dst: Register, place: MemoryOperand) -> Fields
    ensures value { result ≡ first_fields (Insn.Load size dst place) }
    ensures registers { RegistersFit result }
{
    Fields::new(
        LDX + size.code(),
        dst.number(),
        place.base.number(),
        place.offset,
        0,
    )
}

fn store_fields(size: Size, place: MemoryOperand, src: Operand) -> Fields
    ensures value { result ≡ first_fields (Insn.Store size place src) }
    ensures registers { RegistersFit result }
{
    let opcode = store_class(&src) + size.code();
    Fields::new(
        opcode,
        place.base.number(),
        src.source_field(),
        place.offset,
        src.immediate_field(),
    )
}

fn jump_fields(comparison: Comparison, offset: i16) -> Fields
    ensures value { result ≡ first_fields (Insn.Jump comparison offset) }
    ensures registers { RegistersFit result }
{
    let (dst, src) = (comparison.dst, comparison.src);
    let opcode = comparison.width.jump_class()
        + src.source_bit()
        + comparison.condition.code() * 16;
    Fields::new(
        opcode,
        dst.number(),
        src.source_field(),
        offset,
        src.immediate_field(),
    )
}

fn goto_fields(distance: Distance) -> Fields
    ensures value { result ≡ first_fields (Insn.Goto distance) }
    ensures registers { RegistersFit result }
{
    match distance {
        Distance::Short(offset) => Fields::new(GOTO_SHORT, 0, 0, offset, 0),
        Distance::Long(slots) => Fields::new(GOTO_LONG, 0, 0, 0, slots),
    }
}

fn address_fields(dst: Register, address: Address) -> Fields
    ensures value { result ≡ first_fields (Insn.LoadAddress dst address) }
    ensures registers { RegistersFit result }
{
    wide_fields(dst, address.subtype(), address.first())
}

/// The first slot of a two-slot load of this subtype.
fn wide_fields(dst: Register, subtype: u8, first: i32) -> Fields
    requires { subtype < 16 }
    ensures value { result ≡ fields load_wide dst subtype (pos 0) first }
    ensures registers { RegistersFit result }
{
    Fields::new(LOAD_WIDE, dst.number(), subtype, 0, first)
}

/// The class of a store: ST of an immediate, STX of a register.
fn store_class(src: &Operand) -> u8
    ensures value { result ≡ store_class src.now }
    ensures small { result < 8 }
{
    match src {
        Operand::FromRegister(_) => STX,
        Operand::Immediate(_) => ST,
    }
}

fn low_half(value: u64) -> i32
    ensures { result ≡ cast_signed w32 (value % 2 ^ 32) }
{
    ((value % 0x1_0000_0000) as u32).cast_signed()
}

fn high_half(value: u64) -> i32
    ensures { result ≡ cast_signed w32 (value / 2 ^ 32) }
{
    ((value / 0x1_0000_0000) as u32).cast_signed()
}
