//! From a line to an instruction.

ghost use Rattle.std.specs.Prelude.{◌≡◌, ◌+◌, ◌≤◌, [], ℕ, ℤ, Option, pos, IfOk, IfSome};
ghost use Rattle.bpf_parts.specs.Codes.{address_first, address_second, address_subtype};
ghost use Rattle.bpf_insn.specs.declared.insn.Insn.{Insn as AnInsn};
ghost use Rattle.bpf.specs.declared.header.TheConstants.{MAX_SLOTS};
ghost use Rattle.bpf_insn.specs.Spelling.{slots_of};
ghost use Rattle.basm_lex.specs.Numbers.{WritesNumber};
ghost use Rattle.basm_lex.specs.Operands.{WritesMemoryOperand, WritesRegister};
ghost use Rattle.basm.specs.PartialImage.{PushesInsn, UnlessMemory};
ghost use Rattle.basm_lex.specs.Mnemonics.{mnemonic_word};
ghost use Rattle.basm.specs.Names.{slot_named};
ghost use Rattle.basm.specs.Relation.{Four, Three, Two, WritesInsn, WritesOperand, texts};
ghost use Rattle.basm.specs.Readers.{HasAddressFields, IsRead, IsReadAt, Reads, ReadsAt, WriteFields, WriteNumbers, WriteRegisterAndNumbers};
ghost use Rattle.basm.specs.Additions.{AppendsInsn};

use crate::faults::{AsmCode, both};
use crate::names::Names;
use crate::targets::{read_long_target, read_short_target};
use basm_lex::{Mnemonic, mnemonic_laws, number, read_memory_operand, register, wide_number};
use bpf::MAX_SLOTS;
use bpf_insn::{
    Address, AluOp, Callee, Comparison, Condition, Distance, Extension, Insn, LoadSize,
    MemoryOperand, Operand, Register, Size, Swap, SwapBits, Width,
};

/// Appends the instruction of this name with these operands, at the slot, and gives the slot after it.
///
/// # Errors
///
/// The fault of the operands, else `TooMany` if the instruction goes past the last slot of a program, or `Memory` if
/// memory is refused.
pub fn add_insn(
    insns: &mut Vec<Insn>,
    found: Mnemonic,
    operands: &[&str],
    names: &Names,
    slot: u32,
) -> Result<u32, AsmCode>
    ensures writes { IfOk result
        (AppendsInsn (slot_named names.now) slot found operands.now
        insns.old.items insns.new.items) }
    ensures exact { (insn : AnInsn)
        → WritesInsn (slot_named names.now) slot (mnemonic_word found) (texts operands.now) insn
        → slot + slots_of insn ≤ MAX_SLOTS
        → UnlessMemory result (PushesInsn insns.old.items insns.new.items slot insn) }
{
    match read_insn(found, operands, names, slot) {
        Ok(insn) => push_insn(insns, slot, &insn),
        Err(fault) => Err(fault),
    }
}

fn push_insn(insns: &mut Vec<Insn>, slot: u32, insn: &Insn) -> Result<u32, AsmCode>
    ensures pushes { IfOk result (PushesInsn insns.old.items insns.new.items slot insn.now) }
    ensures exact { slot + slots_of insn.now ≤ MAX_SLOTS → UnlessMemory result (λ _. Unit {0}) }
{
    let after = slot_after(slot, insn)?;
    // `push` of an instruction is not covered by the toolchain's borrow checker today.
    insns.extend_from_slice(&[*insn])?;
    Ok(after)
}

fn slot_after(slot: u32, insn: &Insn) -> Result<u32, AsmCode>
    ensures after { IfOk result
        (λ after. (after ≡ slot + slots_of insn.now) × (after ≤ MAX_SLOTS)) }
    ensures exact { slot + slots_of insn.now ≤ MAX_SLOTS → result ≡ Ok (slot + slots_of insn.now) }
{
    let after = slot.saturating_add(u32::from(insn.slots()));
    if after > u32::from(MAX_SLOTS) {
        Err(AsmCode::TooMany)
    } else {
        Ok(after)
    }
}

/// The instruction of this name with these operands, at the slot.
fn read_insn(found: Mnemonic, operands: &[&str], names: &Names, slot: u32) -> Result<Insn, AsmCode>
    ensures writes { ReadsAt (slot_named names.now) slot found operands.now result }
    ensures exact { (insn : Insn)
        → WritesInsn (slot_named names.now) slot (mnemonic_word found) (texts operands.now) insn
        → result ≡ Ok insn }
{
    mnemonic_laws();
    match found {
        Mnemonic::Arithmetic(op, width) => arithmetic(op, width, operands),
        Mnemonic::Negation(width) => negation(width, operands),
        Mnemonic::SignedMove(extension) => signed_move(extension, operands),
        Mnemonic::Swapping(swap, bits) => byte_swap(swap, bits, operands),
        Mnemonic::Loading(size) => load(size, operands),
        Mnemonic::Storing(size) => store(size, operands),
        Mnemonic::StoringRegister(size) => store_register(size, operands),
        Mnemonic::Jumping(condition, width) => jump(condition, width, operands, names, slot),
        Mnemonic::ShortGoto => short_goto(operands, names, slot),
        Mnemonic::LongGoto => long_goto(operands, names, slot),
        Mnemonic::WideLoad => wide(operands),
        Mnemonic::MapLoad => map(operands),
        Mnemonic::AddressLoad => address_load(operands),
        Mnemonic::Calling(callee) => call(callee, operands),
        Mnemonic::Exiting => exit(operands),
    }
}

/// The register that an operand names.
///
/// # Errors
///
/// `BadOperand`: the operand names no register.
pub fn reg(word: &str) -> Result<Register, AsmCode>
    ensures writes { IfOk result (WritesRegister word.now) }
    ensures exact { (number : ℕ) → WritesRegister word.now number → result ≡ Ok number }
{
    register(word).ok_or(AsmCode::BadOperand)
}

fn immediate(word: &str) -> Result<i32, AsmCode>
    ensures writes { IfOk result (WritesNumber word.now) }
    ensures exact { (value : ℤ) → WritesNumber word.now value → result ≡ Ok value }
{
    Ok(number(word)?)
}

fn memory(word: &str) -> Result<MemoryOperand, AsmCode>
    ensures writes { IfOk result (WritesMemoryOperand word.now) }
    ensures exact { (place : MemoryOperand) → WritesMemoryOperand word.now place
        → result ≡ Ok place }
{
    Ok(read_memory_operand(word)?)
}

/// A register or a number.
fn source(word: &str) -> Result<Operand, AsmCode>
    ensures writes { IfOk result (WritesOperand word.now) }
    ensures exact { (src : Operand) → WritesOperand word.now src → result ≡ Ok src }
{
    match register(word) {
        Some(found) => Ok(Operand::FromRegister(found)),
        None => Ok(Operand::Immediate(number(word)?)),
    }
}

fn arithmetic(op: AluOp, width: Width, operands: &[&str]) -> Result<Insn, AsmCode>
    ensures writes { Reads (Mnemonic.Arithmetic op width) operands.now result }
    ensures exact { (dst : ℕ) (src : Operand)
        → IsRead operands.now (Insn.Alu op width dst src) result }
{
    let [dst, src] = operands else {
        return Err(AsmCode::BadOperand);
    };
    let (dst, src) = both(reg(dst), source(src))?;
    Ok(Insn::Alu {
        op,
        width,
        dst,
        src,
    })
}

fn negation(width: Width, operands: &[&str]) -> Result<Insn, AsmCode>
    ensures writes { Reads (Mnemonic.Negation width) operands.now result }
    ensures exact { (dst : ℕ) → IsRead operands.now (Insn.Negate width dst) result }
{
    let [dst] = operands else {
        return Err(AsmCode::BadOperand);
    };
    let dst = reg(dst)?;
    Ok(Insn::Negate { width, dst })
}

fn signed_move(extension: Extension, operands: &[&str]) -> Result<Insn, AsmCode>
    ensures writes { Reads (Mnemonic.SignedMove extension) operands.now result }
    ensures exact { (dst src : ℕ) → IsRead operands.now (Insn.MoveSigned extension dst src) result }
{
    let [dst, src] = operands else {
        return Err(AsmCode::BadOperand);
    };
    let (dst, src) = both(reg(dst), reg(src))?;
    Ok(Insn::MoveSigned {
        extension,
        dst,
        src,
    })
}

fn byte_swap(swap: Swap, bits: SwapBits, operands: &[&str]) -> Result<Insn, AsmCode>
    ensures writes { Reads (Mnemonic.Swapping swap bits) operands.now result }
    ensures exact { (dst : ℕ) → IsRead operands.now (Insn.ByteSwap swap bits dst) result }
{
    let [dst] = operands else {
        return Err(AsmCode::BadOperand);
    };
    let dst = reg(dst)?;
    Ok(Insn::ByteSwap { swap, bits, dst })
}

fn load(size: LoadSize, operands: &[&str]) -> Result<Insn, AsmCode>
    ensures writes { Reads (Mnemonic.Loading size) operands.now result }
    ensures exact { (dst : ℕ) (place : MemoryOperand)
        → IsRead operands.now (Insn.Load size dst place) result }
{
    let [dst, place] = operands else {
        return Err(AsmCode::BadOperand);
    };
    let (dst, place) = both(reg(dst), memory(place))?;
    Ok(Insn::Load { size, dst, place })
}

fn store(size: Size, operands: &[&str]) -> Result<Insn, AsmCode>
    ensures writes { Reads (Mnemonic.Storing size) operands.now result }
    ensures exact { (place : MemoryOperand) (value : ℤ)
        → IsRead operands.now (Insn.Store size place (Operand.Immediate value)) result }
{
    let [place, src] = operands else {
        return Err(AsmCode::BadOperand);
    };
    let (place, src) = both(memory(place), immediate(src))?;
    let src = Operand::Immediate(src);
    Ok(Insn::Store { size, place, src })
}

fn store_register(size: Size, operands: &[&str]) -> Result<Insn, AsmCode>
    ensures writes { Reads (Mnemonic.StoringRegister size) operands.now result }
    ensures exact { (place : MemoryOperand) (src : ℕ)
        → IsRead operands.now (Insn.Store size place (Operand.FromRegister src)) result }
{
    let [place, src] = operands else {
        return Err(AsmCode::BadOperand);
    };
    let (place, src) = both(memory(place), reg(src))?;
    let src = Operand::FromRegister(src);
    Ok(Insn::Store { size, place, src })
}

fn jump(
    condition: Condition,
    width: Width,
    operands: &[&str],
    names: &Names,
    slot: u32,
) -> Result<Insn, AsmCode>
    ensures writes { ReadsAt (slot_named names.now) slot
        (Mnemonic.Jumping condition width) operands.now result }
    ensures exact { (dst : ℕ) (src : Operand) (offset : ℤ)
        → IsReadAt (slot_named names.now) slot operands.now
        (Insn.Jump (record { condition = condition; width = width; dst = dst; src = src }) offset)
        result }
{
    let [dst, src, target] = operands else {
        return Err(AsmCode::BadOperand);
    };
    let target = read_short_target(target, names, slot);
    let ((dst, src), offset) = both(both(reg(dst), source(src)), target)?;
    let comparison = Comparison {
        condition,
        width,
        dst,
        src,
    };
    Ok(Insn::Jump { comparison, offset })
}

fn short_goto(operands: &[&str], names: &Names, slot: u32) -> Result<Insn, AsmCode>
    ensures writes { ReadsAt (slot_named names.now) slot Mnemonic.ShortGoto operands.now result }
    ensures exact { (offset : ℤ)
        → IsReadAt (slot_named names.now) slot operands.now
        (Insn.Goto (Distance.Short offset)) result }
{
    let [target] = operands else {
        return Err(AsmCode::BadOperand);
    };
    let offset = read_short_target(target, names, slot)?;
    Ok(Insn::Goto {
        distance: Distance::Short(offset),
    })
}

fn long_goto(operands: &[&str], names: &Names, slot: u32) -> Result<Insn, AsmCode>
    ensures writes { ReadsAt (slot_named names.now) slot Mnemonic.LongGoto operands.now result }
    ensures exact { (slots : ℤ)
        → IsReadAt (slot_named names.now) slot operands.now
        (Insn.Goto (Distance.Long slots)) result }
{
    let [target] = operands else {
        return Err(AsmCode::BadOperand);
    };
    let slots = read_long_target(target, names, slot)?;
    Ok(Insn::Goto {
        distance: Distance::Long(slots),
    })
}

fn wide(operands: &[&str]) -> Result<Insn, AsmCode>
    ensures writes { Reads Mnemonic.WideLoad operands.now result }
    ensures exact { (dst value : ℕ) → IsRead operands.now (Insn.Wide dst value) result }
{
    let [dst, value] = operands else {
        return Err(AsmCode::BadOperand);
    };
    let value = wide_number(value).map_err(AsmCode::from);
    let (dst, value) = both(reg(dst), value)?;
    Ok(Insn::Wide { dst, value })
}

fn map(operands: &[&str]) -> Result<Insn, AsmCode>
    ensures writes { Reads Mnemonic.MapLoad operands.now result }
    ensures exact { (dst : ℕ) (index : ℤ) → IsRead operands.now (Insn.LoadMap dst index) result }
{
    let [dst, index] = operands else {
        return Err(AsmCode::BadOperand);
    };
    let (dst, index) = both(reg(dst), immediate(index))?;
    Ok(Insn::LoadMap { dst, index })
}

/// A load of another kind of address.
fn address_load(operands: &[&str]) -> Result<Insn, AsmCode>
    ensures writes { Reads Mnemonic.AddressLoad operands.now result }
    ensures exact { (dst : ℕ) (address : Address)
        → IsRead operands.now (Insn.LoadAddress dst address) result }
{
    let (subtype, (dst, (first, second))) = address_operands(operands)?;
    match address(subtype, first, second) {
        Some(address) => Ok(Insn::LoadAddress { dst, address }),
        None => Err(AsmCode::BadNumber),
    }
}

/// A subtype, a register and two numbers.
fn address_operands(operands: &[&str]) -> Result<(i32, (Register, (i32, i32))), AsmCode>
    ensures writes { IfOk result (WriteFields operands.now) }
    ensures exact { (subtype : ℤ) (dst : ℕ) (first second : ℤ)
        → Four (texts operands.now) (λ a. WritesNumber a subtype) (λ b. WritesRegister b dst)
        (λ c. WritesNumber c first) (λ d. WritesNumber d second)
        → result ≡ Ok (subtype, (dst, (first, second))) }
{
    let [subtype, rest @ ..] = operands else {
        return Err(AsmCode::BadOperand);
    };
    both(immediate(subtype), address_place(rest))
}

/// A register and two numbers.
fn address_place(operands: &[&str]) -> Result<(Register, (i32, i32)), AsmCode>
    ensures writes { IfOk result (WriteRegisterAndNumbers operands.now) }
    ensures exact { (dst : ℕ) (first second : ℤ)
        → Three (texts operands.now) (λ a. WritesRegister a dst) (λ b. WritesNumber b first)
        (λ c. WritesNumber c second) → result ≡ Ok (dst, (first, second)) }
{
    let [dst, rest @ ..] = operands else {
        return Err(AsmCode::BadOperand);
    };
    both(reg(dst), two_numbers(rest))
}

fn two_numbers(operands: &[&str]) -> Result<(i32, i32), AsmCode>
    ensures writes { IfOk result (WriteNumbers operands.now) }
    ensures exact { (first second : ℤ)
        → Two (texts operands.now) (λ a. WritesNumber a first)
        (λ b. WritesNumber b second) → result ≡ Ok (first, second) }
{
    let [first, second] = operands else {
        return Err(AsmCode::BadOperand);
    };
    both(immediate(first), immediate(second))
}

/// The address of this subtype, or `None` if no address has it with these numbers.
fn address(subtype: i32, first: i32, second: i32) -> Option<Address>
    ensures writes { IfSome result (HasAddressFields subtype first second) }
    ensures exact { (found : Address) → pos (address_subtype found) ≡ subtype
        → address_first found ≡ first → address_second found ≡ second → result ≡ Some found }
{
    match u8::try_from(subtype) {
        Ok(subtype) => {
            let found = known_address(subtype, first, second)?;
            if found.second() == second {
                Some(found)
            } else {
                None
            }
        }
        Err(_) => None,
    }
}

/// The address of this subtype. The second number may be left out.
fn known_address(subtype: u8, first: i32, second: i32) -> Option<Address>
    ensures writes { IfSome result
        (λ found. (address_subtype found ≡ subtype) × (address_first found ≡ first)) }
    ensures exact { (found : Address) → address_subtype found ≡ subtype
        → address_first found ≡ first → address_second found ≡ second → result ≡ Some found }
{
    Address::from_parts(subtype, first, second)
}

fn call(callee: Callee, operands: &[&str]) -> Result<Insn, AsmCode>
    ensures writes { Reads (Mnemonic.Calling callee) operands.now result }
    ensures exact { (number : ℤ) → IsRead operands.now (Insn.Call callee number) result }
{
    let [number] = operands else {
        return Err(AsmCode::BadOperand);
    };
    let number = immediate(number)?;
    Ok(Insn::Call { callee, number })
}

fn exit(operands: &[&str]) -> Result<Insn, AsmCode>
    ensures writes { Reads Mnemonic.Exiting operands.now result }
    ensures exact { operands.now ≡ [] → result ≡ Ok Insn.Exit }
{
    if operands.is_empty() {
        Ok(Insn::Exit)
    } else {
        Err(AsmCode::BadOperand)
    }
}
