//! From bytes to an instruction.

ghost use Rattle.std.specs.Prelude.{◌≡◌, ◌≤◌, ◌<◌, ◌^◌, Ok, IfOk, IfErr, IsTrue, Some, IfSome};
ghost use Rattle.std.specs.Option.{option_copied};
ghost use Rattle.bpf_insn.specs.declared.insn.Insn.{Insn};
ghost use Rattle.bpf_insn.specs.Faults.{bad_insn_code, IsFault, bad_insn_of_code};
ghost use Rattle.bpf_insn.specs.Spelling.{HasSecond, HasSlots, IsInsn, Spells};
ghost use Rattle.bpf_parts.specs.Operands.{IsOperand};
ghost use Rattle.bpf_insn.specs.Reading.{arithmetic_of, branch_of, byte_swap_of, call_of, constant_of, has_fields, jump_of, load_of, meant_of, move_of, names_register, negation_of, next_fields, operand_of, pair_of, reading_of, register_of, same_second, store_of, two_operands_of, wide_of};

use crate::encoder::{first_fields, second_immediate};
use crate::fields::Fields;
use crate::insn::Insn;
use bpf_parts::opcode::{
    ALU, CALL, CONSTANT, END, EXIT, GOTO_LONG, GOTO_SHORT, JMP, JMP32, LD, LDX, LOAD_WIDE,
    MAP_BY_INDEX, MOV, NEG, ST, STX,
};
use bpf_parts::{
    Address, AluOp, Callee, Comparison, Condition, Distance, Extension, LoadSize, MemoryOperand,
    Operand, Register, Size, Swap, SwapBits, Width,
};
use thiserror::Error;

const OPCODE: &str = "\
The first byte of the slot is the opcode of no instruction of RFC 9669's groups base32, base64, divmul32 and
divmul64. No others are read: its atomic and its packet instructions are refused so.
Look whether the slot before it has two slots, or the file holds something else than instructions.";

const REGISTER: &str = "\
The second byte names two registers, and there are only r0 to r10.
Compare the byte with the instruction: the destination is in its low four bits, the source in its high four.";

const UNUSED: &str = "\
A field that the instruction does not use must be zero, as the offset of `add` and the source of a move of a
number.
Clear the field.";

const HALF: &str = "\
`lddw`, `ldmap` and `ldimm` have two slots, and the second is missing.
Look whether the image was cut off, or a slot taken out.";

/// Why bytes spell no instruction: the first fault in the order of the variants, except that `Half` comes before
/// `Unused`.
#[derive(Clone, Copy, Debug, PartialEq, Eq, Error)]
pub enum BadInsn {
    /// No instruction that the reader knows has the opcode.
    #[error("no instruction has the opcode")]
    Opcode,
    /// A register's number is over 10.
    #[error("a register's number is over 10")]
    Register,
    /// A field that the instruction does not use is not zero, or a field that selects among instructions selects
    /// none.
    #[error("an unused field is not zero")]
    Unused,
    /// The second slot of an instruction of two is missing.
    #[error("the second slot is missing")]
    Half,
}

impl BadInsn {
    /// The number of the fault: 1 to 4.
    pub fn code(self) -> u8
        ensures value { result ≡ bad_insn_code self }
        ensures back { bad_insn_of_code result ≡ Some self }
    {
        match self {
            BadInsn::Opcode => 1,
            BadInsn::Register => 2,
            BadInsn::Unused => 3,
            BadInsn::Half => 4,
        }
    }

    /// The fault of a number, as [`BadInsn::code`] gives it, or `None` if no fault has it.
    pub fn from_code(code: u8) -> Option<BadInsn>
        ensures value { result ≡ bad_insn_of_code code }
        ensures number { IfSome result (λ fault. bad_insn_code fault ≡ code) }
    {
        match code {
            1 => Some(BadInsn::Opcode),
            2 => Some(BadInsn::Register),
            3 => Some(BadInsn::Unused),
            4 => Some(BadInsn::Half),
            _ => None,
        }
    }

    /// What to say of the fault beside its name: when it comes, and what to do. The lines have at most 113 columns.
    pub fn advice(self) -> &'static str {
        match self {
            BadInsn::Opcode => OPCODE,
            BadInsn::Register => REGISTER,
            BadInsn::Unused => UNUSED,
            BadInsn::Half => HALF,
        }
    }
}

/// The instruction that the bytes spell, if `next` holds the bytes of the next slot. If the instruction has one slot,
/// `next` is not read.
///
/// # Errors
///
/// The first fault of `Opcode`, `Register`, `Half` and `Unused`.
#[tactic(auto, unfolding(crate::specs::Reading::insn_reading))]
pub fn decode(bytes: &[u8; 8], next: Option<&[u8; 8]>) -> Result<Insn, BadInsn>
    // The bytes that were decoded are those that spell the instruction, and bytes that spell an instruction are
    // decoded as it.
    ensures found { IfOk result (Spells bytes.now (option_copied next.entry)) }
    ensures only { (insn : Insn) → Spells bytes.now (option_copied next.entry) insn
        → result ≡ Ok insn }

    // An error is the first fault.
    ensures fault { IfErr result (IsFault bytes.now (option_copied next.entry)) }
{
    checked(&Fields::read(bytes), next)
}

/// The instruction that has these fields, and its own in the next slot.
#[tactic(auto, unfolding(crate::specs::Reading::reading_of))]
fn checked(fields: &Fields, next: Option<&[u8; 8]>) -> Result<Insn, BadInsn>
    ensures value { result ≡ reading_of fields.now (next_fields (option_copied next.entry)) }
    ensures insn { IfOk result IsInsn }
    ensures own { IfOk result (λ insn. HasSlots insn fields.now (option_copied next.entry)) }
{
    let insn = meant(fields, next)?;
    if has_fields(&insn, fields, next) {
        Ok(insn)
    } else {
        Err(BadInsn::Unused)
    }
}

/// Whether these are the instruction's fields, unused ones too.
fn has_fields(insn: &Insn, fields: &Fields, next: Option<&[u8; 8]>) -> bool
    ensures value { result ≡ has_fields insn.now fields.now
        (next_fields (option_copied next.entry)) }
    ensures own { IsTrue result → HasSlots insn.now fields.now (option_copied next.entry) }
{
    first_fields(insn) == *fields && has_second(second_immediate(insn), next)
}

/// Whether the next slot, if a second one is wanted, holds only the immediate.
fn has_second(immediate: Option<i32>, next: Option<&[u8; 8]>) -> bool
    ensures value { result ≡ same_second immediate (next_fields (option_copied next.entry)) }
    ensures own { IsTrue result → HasSecond immediate (option_copied next.entry) }
{
    match immediate {
        None => true,
        Some(immediate) => match next {
            None => false,
            Some(bytes) => Fields::read(bytes) == Fields::new(0, 0, 0, 0, immediate),
        },
    }
}

/// The instruction that the used fields mean, whatever the unused ones hold.
#[tactic(auto, unfolding(crate::specs::Reading::meant_of))]
fn meant(fields: &Fields, next: Option<&[u8; 8]>) -> Result<Insn, BadInsn>
    ensures value { result ≡ meant_of fields.now (next_fields (option_copied next.entry)) }
    ensures insn { IfOk result IsInsn }
{
    match fields.opcode % 8 {
        LD => wide(fields, next),
        LDX => load(fields),
        ST => store(fields, false),
        STX => store(fields, true),
        ALU => arithmetic(fields, Width::Bits32),
        JMP => jump(fields, Width::Bits64),
        JMP32 => jump(fields, Width::Bits32),
        _ => arithmetic(fields, Width::Bits64),
    }
}

/// Whether the source bit of arithmetic and jumps says that the source is a register.
fn names_register(fields: &Fields) -> bool
    ensures { result ≡ names_register fields.now }
{
    fields.opcode / 8 % 2 == 1
}

fn register(number: u8) -> Result<Register, BadInsn>
    ensures value { result ≡ register_of number }
    ensures bound { IfOk result (λ number. number ≤ 10) }
{
    match Register::new(number) {
        Some(register) => Ok(register),
        None => Err(BadInsn::Register),
    }
}

fn operand(fields: &Fields, from_register: bool) -> Result<Operand, BadInsn>
    ensures value { result ≡ operand_of fields.now from_register }
    ensures operand { IfOk result IsOperand }
{
    if from_register {
        Ok(Operand::FromRegister(register(fields.src)?))
    } else {
        Ok(Operand::Immediate(fields.immediate))
    }
}

#[tactic(auto, unfolding(crate::specs::Reading::arithmetic_of))]
fn arithmetic(fields: &Fields, width: Width) -> Result<Insn, BadInsn>
    ensures value { result ≡ arithmetic_of fields.now width }
    ensures insn { IfOk result IsInsn }
{
    match fields.opcode / 16 {
        NEG => negation(fields, width),
        MOV => move_of(fields, width),
        END => byte_swap(fields, width),
        code => two_operands(fields, width, code),
    }
}

#[tactic(auto, unfolding(crate::specs::Reading::negation_of))]
fn negation(fields: &Fields, width: Width) -> Result<Insn, BadInsn>
    ensures value { result ≡ negation_of fields.now width }
    ensures insn { IfOk result IsInsn }
{
    if names_register(fields) {
        return Err(BadInsn::Opcode);
    }
    let dst = register(fields.dst)?;
    Ok(Insn::Negate { width, dst })
}

#[tactic(auto, unfolding(crate::specs::Reading::byte_swap_of))]
fn byte_swap(fields: &Fields, width: Width) -> Result<Insn, BadInsn>
    ensures value { result ≡ byte_swap_of fields.now width }
    ensures insn { IfOk result IsInsn }
{
    let swap = Swap::from_parts(width, names_register(fields)).ok_or(BadInsn::Opcode)?;
    let dst = register(fields.dst)?;
    let bits = SwapBits::from_bits(fields.immediate).ok_or(BadInsn::Unused)?;
    Ok(Insn::ByteSwap { swap, bits, dst })
}

#[tactic(auto, unfolding(crate::specs::Reading::two_operands_of))]
fn two_operands(fields: &Fields, width: Width, code: u8) -> Result<Insn, BadInsn>
    ensures value { result ≡ two_operands_of fields.now width code }
    ensures insn { IfOk result IsInsn }
{
    let op = AluOp::from_code(code, fields.offset == 1).ok_or(BadInsn::Opcode)?;
    let dst = register(fields.dst)?;
    let src = operand(fields, names_register(fields))?;
    Ok(Insn::Alu {
        op,
        width,
        dst,
        src,
    })
}

/// A move. If the offset says how many, it moves a register's low bits.
#[tactic(auto, unfolding(crate::specs::Reading::move_of))]
fn move_of(fields: &Fields, width: Width) -> Result<Insn, BadInsn>
    ensures value { result ≡ move_of fields.now width }
    ensures insn { IfOk result IsInsn }
{
    let dst = register(fields.dst)?;
    if !names_register(fields) {
        let src = Operand::Immediate(fields.immediate);
        return Ok(Insn::Alu {
            op: AluOp::Mov,
            width,
            dst,
            src,
        });
    }
    let src = register(fields.src)?;
    match Extension::from_bits(width, fields.offset) {
        Some(extension) => Ok(Insn::MoveSigned {
            extension,
            dst,
            src,
        }),
        None => {
            let src = Operand::FromRegister(src);
            Ok(Insn::Alu {
                op: AluOp::Mov,
                width,
                dst,
                src,
            })
        }
    }
}

#[tactic(auto, unfolding(crate::specs::Reading::jump_of))]
fn jump(fields: &Fields, width: Width) -> Result<Insn, BadInsn>
    ensures value { result ≡ jump_of fields.now width }
    ensures insn { IfOk result IsInsn }
{
    match fields.opcode {
        GOTO_SHORT => Ok(Insn::Goto {
            distance: Distance::Short(fields.offset),
        }),
        GOTO_LONG => Ok(Insn::Goto {
            distance: Distance::Long(fields.immediate),
        }),
        CALL => call(fields),
        EXIT => Ok(Insn::Exit),
        _ => branch(fields, width),
    }
}

/// A conditional jump.
#[tactic(auto, unfolding(crate::specs::Reading::branch_of))]
fn branch(fields: &Fields, width: Width) -> Result<Insn, BadInsn>
    ensures value { result ≡ branch_of fields.now width }
    ensures insn { IfOk result IsInsn }
{
    let condition = Condition::from_code(fields.opcode / 16).ok_or(BadInsn::Opcode)?;
    let dst = register(fields.dst)?;
    let src = operand(fields, names_register(fields))?;
    let comparison = Comparison {
        condition,
        width,
        dst,
        src,
    };
    Ok(Insn::Jump {
        comparison,
        offset: fields.offset,
    })
}

#[tactic(auto, unfolding(crate::specs::Reading::call_of))]
fn call(fields: &Fields) -> Result<Insn, BadInsn>
    ensures value { result ≡ call_of fields.now }
    ensures insn { IfOk result IsInsn }
{
    let callee = Callee::from_code(fields.src).ok_or(BadInsn::Unused)?;
    Ok(Insn::Call {
        callee,
        number: fields.immediate,
    })
}

#[tactic(auto, unfolding(crate::specs::Reading::load_of))]
fn load(fields: &Fields) -> Result<Insn, BadInsn>
    ensures value { result ≡ load_of fields.now }
    ensures insn { IfOk result IsInsn }
{
    let size = LoadSize::from_code(fields.opcode - fields.opcode % 8).ok_or(BadInsn::Opcode)?;
    let dst = register(fields.dst)?;
    let place = MemoryOperand {
        base: register(fields.src)?,
        offset: fields.offset,
    };
    Ok(Insn::Load { size, dst, place })
}

#[tactic(auto, unfolding(crate::specs::Reading::store_of))]
fn store(fields: &Fields, from_register: bool) -> Result<Insn, BadInsn>
    ensures value { result ≡ store_of fields.now from_register }
    ensures insn { IfOk result IsInsn }
{
    let size = Size::from_code(fields.opcode - fields.opcode % 8).ok_or(BadInsn::Opcode)?;
    let place = MemoryOperand {
        base: register(fields.dst)?,
        offset: fields.offset,
    };
    let src = operand(fields, from_register)?;
    Ok(Insn::Store { size, place, src })
}

#[tactic(auto, unfolding(crate::specs::Reading::wide_of))]
fn wide(fields: &Fields, next: Option<&[u8; 8]>) -> Result<Insn, BadInsn>
    ensures value { result ≡ wide_of fields.now (next_fields (option_copied next.entry)) }
    ensures insn { IfOk result IsInsn }
{
    if fields.opcode != LOAD_WIDE {
        return Err(BadInsn::Opcode);
    }
    let dst = register(fields.dst)?;
    let second = next.ok_or(BadInsn::Half)?;
    pair(fields, dst, &Fields::read(second))
}

/// An instruction of two slots, by its subtype.
#[tactic(auto, unfolding(crate::specs::Reading::pair_of))]
fn pair(fields: &Fields, dst: Register, second: &Fields) -> Result<Insn, BadInsn>
    ensures value { result ≡ pair_of fields.now dst second.now }
    ensures insn { IfOk result IsInsn }
{
    match fields.src {
        CONSTANT => Ok(Insn::Wide {
            dst,
            value: constant_of(fields.immediate, second.immediate),
        }),
        MAP_BY_INDEX => Ok(Insn::LoadMap {
            dst,
            index: fields.immediate,
        }),
        subtype => {
            let address = Address::from_parts(subtype, fields.immediate, second.immediate).ok_or(
                BadInsn::Unused,
            )?;
            Ok(Insn::LoadAddress { dst, address })
        }
    }
}

/// The constant of two halves.
fn constant_of(low: i32, high: i32) -> u64
    ensures value { result ≡ constant_of low high }
    ensures bound { result < 2 ^ 64 }
{
    u64::from(low.cast_unsigned()) + u64::from(high.cast_unsigned()) * 0x1_0000_0000
}
