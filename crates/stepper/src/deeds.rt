//! What each instruction does, found before it is done (RFC 9669, sections 4 and 5).

ghost use Rattle.std.specs.Prelude.{◌≡◌, ◌^◌, ◌<◌, ◌≤◌, ◌<ℤ◌, pos, slice_index, slice_index_or, IfSome, ◌+◌, if◌then◌else◌, nat_lt, Some};
ghost use Rattle.bpf.specs.declared.header.TheConstants.{MAX_SLOTS};
ghost use Rattle.stepper.specs.Bytes.{lent_header};
ghost use Rattle.stepper.specs.Near.{IsNear, AreNear};
ghost use Rattle.stepper.specs.Deeds.{state_in, outcome_in, Does, DoesWith, IsPlaced, Writes, stored_at, asks_of, asks_with, calls_with};
ghost use Rattle.machine.specs.Sizes.{kind_of_map};
ghost use Rattle.machine.specs.Helpers.{takes_kind};
ghost use Rattle.machine.specs.declared.regions.TheConstants.{STACK_SIZE};
ghost use Rattle.machine.specs.Step.{argument_of, operand, lands, jumps, loads, map_at, is_map};

use crate::arithmetic::{alu, byte_swap, move_signed, negate, number};
use crate::memory::{Memory, place_of, read};
use bpf_insn::{
    AluOp, Callee, Comparison, FRAME_POINTER, Insn, LoadSize, MemoryOperand, Operand, REGISTERS,
    Register, Size, Swap, SwapBits, Width,
};
use machine::{
    Helper, MapKind, MapSizes, Question, Region, Value, holds_words, loaded_value, word,
};

/// What an instruction does.
#[derive(Clone, Copy)]
pub enum InstructionEffect {
    /// Writes the register; the next instruction is `slots` slots further.
    Write {
        register: Register,
        value: Value,
        slots: u32,
    },
    /// Writes the low bytes of the number to the stack from the place.
    Put {
        place: usize,
        bytes: usize,
        number: u64,
    },
    /// The next instruction is at the slot.
    Go(u32),
    /// A helper asks.
    Ask(Question),
    /// The program ends with a verdict.
    Verdict(u64),
    /// A trap.
    Trap,
}

/// What an instruction sees: its own slot, the registers and the memory.
#[derive(Clone, Copy)]
pub struct MachineView<'a> {
    pub slot: u32,
    pub registers: &'a [Value; REGISTERS],
    pub memory: Memory<'a>,
}

/// What the register of this number holds.
fn value_at(frame: MachineView<'_>, number: u8) -> Value
    requires { number ≤ 10 }
    ensures { result ≡ slice_index_or frame.entry.registers.now number Value.Unset }
{
    let registers: &[Value; REGISTERS] = frame.registers;
    registers[usize::from(number)]
}

/// What the register of an instruction holds.
fn value_of(frame: MachineView<'_>, register: Register) -> Value
    ensures { result ≡ slice_index_or frame.entry.registers.now register Value.Unset }
{
    value_at(frame, register.number())
}

/// A register's value, or the immediate.
fn operand(frame: MachineView<'_>, src: &Operand) -> Value
    ensures { result ≡ operand (state_in frame.entry) src.now }
{
    match src {
        Operand::FromRegister(register) => value_of(frame, *register),
        Operand::Immediate(value) => Value::Num(word(i64::from(*value))),
    }
}

/// The write of a register. It is a trap if there is no value, or if the register is r10.
fn write(
    frame: MachineView<'_>,
    register: Register,
    value: Option<Value>,
    slots: u32,
) -> InstructionEffect
    requires { slots ≤ 2 }
    ensures outcome { Writes frame.entry register value slots result }
    ensures placed { IsPlaced result }
{
    match value {
        None => InstructionEffect::Trap,
        Some(value) => {
            if register.number() == FRAME_POINTER {
                InstructionEffect::Trap
            } else {
                InstructionEffect::Write {
                    register,
                    value,
                    slots,
                }
            }
        }
    }
}

/// An operation on a register and a source.
fn calculate(
    frame: MachineView<'_>,
    op: AluOp,
    width: Width,
    dst: Register,
    src: &Operand,
) -> InstructionEffect
    requires { AreNear (2 ^ 126) frame.registers.now }
    ensures outcome { Does frame.entry (Insn.Alu op width dst src.now) result }
    ensures placed { IsPlaced result }
{
    let value = alu(op, width, value_of(frame, dst), operand(frame, src));
    write(frame, dst, value, 1)
}

/// END: the bytes of a register in another order.
fn reorder(frame: MachineView<'_>, swap: Swap, bits: SwapBits, dst: Register) -> InstructionEffect
    ensures outcome { Does frame.entry (Insn.ByteSwap swap bits dst) result }
    ensures placed { IsPlaced result }
{
    write(frame, dst, byte_swap(swap, bits, value_of(frame, dst)), 1)
}

/// The next instruction is at the target. It is a trap if that is before the code.
fn land(frame: MachineView<'_>, target: i64) -> InstructionEffect
    requires { target <ℤ pos (2 ^ 32) }
    ensures outcome { outcome_in frame.entry result ≡ lands (state_in frame.entry) target }
    ensures placed { IsPlaced result }
{
    if target < 0 {
        InstructionEffect::Trap
    } else {
        InstructionEffect::Go(target as u32)
    }
}

/// A jump by this distance in slots from the next one.
fn jump(frame: MachineView<'_>, offset: i32) -> InstructionEffect
    requires { frame.slot < MAX_SLOTS }
    ensures outcome { outcome_in frame.entry result ≡ jumps (state_in frame.entry) offset }
    ensures placed { IsPlaced result }
{
    land(frame, i64::from(frame.slot) + 1 + i64::from(offset))
}

/// A jump if the condition holds of a register and a source, which must be numbers.
fn compare(frame: MachineView<'_>, comparison: &Comparison, offset: i16) -> InstructionEffect
    requires { frame.slot < MAX_SLOTS }
    ensures outcome { Does frame.entry (Insn.Jump comparison.now offset) result }
    ensures placed { IsPlaced result }
{
    match value_of(frame, comparison.dst) {
        Value::Num(a) => match operand(frame, &comparison.src) {
            Value::Num(b) => {
                if holds_words(comparison.condition, comparison.width, a, b) {
                    jump(frame, i32::from(offset))
                } else {
                    InstructionEffect::Go(frame.slot + 1)
                }
            }
            Value::Unset | Value::Ptr { .. } | Value::Map(_) => InstructionEffect::Trap,
        },
        Value::Unset | Value::Ptr { .. } | Value::Map(_) => InstructionEffect::Trap,
    }
}

/// A load through a pointer. `None` is a trap.
fn load(frame: MachineView<'_>, size: LoadSize, base: Value, offset: i16) -> Option<Value>
    requires { IsNear (2 ^ 126) base }
    ensures { result
        ≡ loads (lent_header frame.entry.memory) (state_in frame.entry) size base offset }
{
    match base {
        Value::Ptr {
            region,
            offset: start,
        } => match read(
            frame.memory,
            region,
            size.bytes(),
            start + i128::from(offset),
        ) {
            Some(number) => Some(Value::Num(loaded_value(size, number))),
            None => None,
        },
        Value::Unset | Value::Num(_) | Value::Map(_) => None,
    }
}

/// A load into a register, through the pointer in another.
fn load_into(
    frame: MachineView<'_>,
    size: LoadSize,
    dst: Register,
    place: &MemoryOperand,
) -> InstructionEffect
    requires { AreNear (2 ^ 126) frame.registers.now }
    ensures outcome { Does frame.entry (Insn.Load size dst place.now) result }
    ensures placed { IsPlaced result }
{
    let value = load(frame, size, value_of(frame, place.base), place.offset);
    write(frame, dst, value, 1)
}

/// The place in the stack of the first of `bytes` bytes at that distance from a pointer. It is `None` if the base is
/// no pointer into the stack, or if the bytes are not wholly inside.
pub fn stored_at(base: Value, bytes: usize, distance: i16) -> Option<usize>
    requires few { bytes ≤ 8 }
    requires near { IsNear (2 ^ 126) base }
    ensures value { result ≡ stored_at base bytes distance }
    ensures within { IfSome result (λ place. place + bytes ≤ STACK_SIZE) }
{
    match base {
        Value::Ptr {
            region: Region::Stack,
            offset,
        } => place_of(Region::Stack, bytes, offset + i128::from(distance)),
        _ => None,
    }
}

/// A store of a number through a register's pointer into the stack.
fn store(
    frame: MachineView<'_>,
    size: Size,
    place: &MemoryOperand,
    src: &Operand,
) -> InstructionEffect
    requires { AreNear (2 ^ 126) frame.registers.now }
    ensures outcome { Does frame.entry (Insn.Store size place.now src.now) result }
    ensures placed { IsPlaced result }
{
    let bytes = size.bytes();
    match stored_at(value_of(frame, place.base), bytes, place.offset) {
        Some(place) => match number(operand(frame, src)) {
            Some(number) => InstructionEffect::Put {
                place,
                bytes,
                number,
            },
            None => InstructionEffect::Trap,
        },
        None => InstructionEffect::Trap,
    }
}

/// A map by its index, if there is one.
fn map_at(sizes: &MapSizes, index: i32) -> Option<Value>
    ensures { result ≡ (if is_map sizes.now index then map_at index else None) }
{
    if index >= 0 && index < i32::from(sizes.maps()) {
        Some(Value::Map(index as u8))
    } else {
        None
    }
}

/// The key, if the map has it.
fn key_in(sizes: &MapSizes, map: u8, key: u64) -> Option<u16>
    ensures { result ≡ (if nat_lt key (slice_index sizes.now.cells map) then Some key else None) }
{
    match sizes.cells(map) {
        Some(cells) => {
            if key < u64::from(cells) {
                Some(key as u16)
            } else {
                None
            }
        }
        None => None,
    }
}

/// The kind of the map.
fn kind_of(sizes: &MapSizes, map: u8) -> MapKind
    ensures { result ≡ kind_of_map sizes.now map }
{
    match sizes.kind(map) {
        Some(kind) => kind,
        None => MapKind::Counter,
    }
}

/// Whether the helper may be asked of the map.
fn takes_map(sizes: &MapSizes, helper: Helper, map: u8) -> bool
    ensures { result ≡ takes_kind helper (kind_of_map sizes.now map) }
{
    kind_of(sizes, map).takes(helper)
}

/// The argument of a helper: a number in r3, if it takes one. The others have 0.
fn argument(frame: MachineView<'_>, helper: Helper) -> Option<u64>
    ensures { result
        ≡ argument_of helper (slice_index_or frame.entry.registers.now 3 Value.Unset) }
{
    if helper.takes_argument() {
        number(value_at(frame, 3))
    } else {
        Some(0)
    }
}

/// The question of a helper for a key that the map has.
fn question(
    frame: MachineView<'_>,
    sizes: &MapSizes,
    helper: Helper,
    map: u8,
    key: u16,
) -> InstructionEffect
    ensures outcome { outcome_in frame.entry result
        ≡ asks_of sizes.now (state_in frame.entry) helper map key }
    ensures placed { IsPlaced result }
{
    if !takes_map(sizes, helper, map) {
        return InstructionEffect::Trap;
    }
    match argument(frame, helper) {
        Some(argument) => InstructionEffect::Ask(Question {
            helper,
            map,
            key,
            argument,
        }),
        None => InstructionEffect::Trap,
    }
}

/// The question of a helper: r1 is a map of which it may be asked, r2 a key below its size.
fn ask(frame: MachineView<'_>, sizes: &MapSizes, helper: Helper) -> InstructionEffect
    ensures outcome { outcome_in frame.entry result
        ≡ asks_with sizes.now (state_in frame.entry) helper }
    ensures placed { IsPlaced result }
{
    match value_at(frame, 1) {
        Value::Map(map) => match value_at(frame, 2) {
            Value::Num(key) => match key_in(sizes, map, key) {
                Some(key) => question(frame, sizes, helper, map, key),
                None => InstructionEffect::Trap,
            },
            Value::Unset | Value::Ptr { .. } | Value::Map(_) => InstructionEffect::Trap,
        },
        Value::Unset | Value::Num(_) | Value::Ptr { .. } => InstructionEffect::Trap,
    }
}

/// A call.
fn call(frame: MachineView<'_>, sizes: &MapSizes, callee: Callee, number: i32) -> InstructionEffect
    ensures outcome { outcome_in frame.entry result
        ≡ calls_with sizes.now (state_in frame.entry) callee number }
    ensures placed { IsPlaced result }
{
    match callee {
        Callee::Helper => match Helper::of_number(number) {
            Some(helper) => ask(frame, sizes, helper),
            None => InstructionEffect::Trap,
        },
        Callee::Local | Callee::ByTypeId => InstructionEffect::Trap,
    }
}

/// EXIT: r0 is the verdict.
fn exit(frame: MachineView<'_>) -> InstructionEffect
    ensures outcome { Does frame.entry Insn.Exit result }
    ensures placed { IsPlaced result }
{
    match value_at(frame, 0) {
        Value::Num(verdict) => InstructionEffect::Verdict(verdict),
        Value::Unset | Value::Ptr { .. } | Value::Map(_) => InstructionEffect::Trap,
    }
}

/// What an instruction does, with maps of these sizes.
pub fn perform(frame: MachineView<'_>, sizes: &MapSizes, insn: &Insn) -> InstructionEffect
    requires inside { frame.slot < MAX_SLOTS }
    requires near { AreNear (2 ^ 126) frame.registers.now }
    ensures outcome { DoesWith sizes.now frame.entry insn.now result }
    ensures placed { IsPlaced result }
{
    match *insn {
        Insn::Alu {
            op,
            width,
            dst,
            src,
        } => calculate(frame, op, width, dst, &src),
        Insn::Negate { width, dst } => write(frame, dst, negate(width, value_of(frame, dst)), 1),
        Insn::MoveSigned {
            extension,
            dst,
            src,
        } => write(frame, dst, move_signed(extension, value_of(frame, src)), 1),
        Insn::ByteSwap { swap, bits, dst } => reorder(frame, swap, bits, dst),
        Insn::Load { size, dst, place } => load_into(frame, size, dst, &place),
        Insn::Store { size, place, src } => store(frame, size, &place, &src),
        Insn::Jump { comparison, offset } => compare(frame, &comparison, offset),
        Insn::Goto { distance } => jump(frame, distance.slots()),
        Insn::Wide { dst, value } => write(frame, dst, Some(Value::Num(value)), 2),
        Insn::LoadMap { dst, index } => write(frame, dst, map_at(sizes, index), 2),
        Insn::LoadAddress { .. } => InstructionEffect::Trap,
        Insn::Call { callee, number } => call(frame, sizes, callee, number),
        Insn::Exit => exit(frame),
    }
}
