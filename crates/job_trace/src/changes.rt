//! What a step of a run changed.

ghost use Rattle.std.specs.Prelude.{◌≡◌, OnOk};
ghost use Rattle.stepper.specs.Machine.{state_of};
ghost use Rattle.bpf_parts.specs.Sizes.{size_bytes};
ghost use Rattle.job_parts.specs.Printed.{Prints};
ghost use Rattle.job_trace.specs.Changes.{step_change_of, change_text, holds, jumped, number_text, region_text, stack_text, step_value_text, written};

use bpf_insn::{Comparison, Insn, MemoryOperand, Operand, Register, Size};
use job_parts::replies::print_bytes;
use machine::{Call, Region, STACK_SIZE, Value, holds_words};
use std::io::{self, Write};
use stepper::Machine;

/// What a step of a run changed.
#[derive(Clone, Copy, Debug, PartialEq, Eq)]
pub enum StepChange {
    /// A register holds a value.
    Written(Register, Value),
    /// The low bytes of a number are in the stack, from this place on.
    Stored(usize, Size, u64),
    /// A jump whose condition does not hold goes on at the next slot.
    NotTaken,
    /// A jump whose condition holds leads to the next slot.
    Taken,
    /// A jump goes on at this slot.
    Jumped(u32),
    /// A helper got its answer.
    Answered(Call),
    /// The program ended with this verdict, after this many steps of this budget.
    Ended(u64, u32, u32),
    /// Nothing that is printed.
    Nothing,
}

/// What a store changed, by the registers after it.
fn stored(machine: &Machine<'_>, size: Size, place: &MemoryOperand, src: &Operand) -> StepChange
    ensures { result ≡ step_change_of (Insn.Store size place.now src.now) 0 (state_of machine.now) }
{
    match machine.stored(size, place) {
        Some(place) => match machine.operand(src) {
            Value::Num(number) => StepChange::Stored(place, size, number),
            Value::Unset | Value::Ptr { .. } | Value::Map(_) => StepChange::Nothing,
        },
        None => StepChange::Nothing,
    }
}

/// Whether the condition of a jump holds of a register and a source. It changes neither.
fn holds(machine: &Machine<'_>, comparison: &Comparison) -> bool
    ensures { result ≡ holds comparison.now (state_of machine.now) }
{
    match machine.register(comparison.dst) {
        Value::Num(a) => match machine.operand(&comparison.src) {
            Value::Num(b) => holds_words(comparison.condition, comparison.width, a, b),
            Value::Unset | Value::Ptr { .. } | Value::Map(_) => false,
        },
        Value::Unset | Value::Ptr { .. } | Value::Map(_) => false,
    }
}

/// Where a jump at a slot led, by whether its condition holds, and the slot of the next instruction.
fn jumped(holds: bool, slot: u32, next: u32) -> StepChange
    ensures { result ≡ jumped holds slot next }
{
    if u64::from(next) == u64::from(slot) + 1 {
        if holds {
            StepChange::Taken
        } else {
            StepChange::NotTaken
        }
    } else {
        StepChange::Jumped(next)
    }
}

/// What was written to that register, if there is one.
fn written(machine: &Machine<'_>, register: Option<Register>) -> StepChange
    ensures { result ≡ written register (state_of machine.now).registers }
{
    match register {
        Some(register) => StepChange::Written(register, machine.register(register)),
        None => StepChange::Nothing,
    }
}

/// What the instruction at a slot changed, if the machine is after its step.
pub fn step_change_of(insn: &Insn, slot: u32, machine: &Machine<'_>) -> StepChange
    ensures { result ≡ step_change_of insn.now slot (state_of machine.now) }
{
    match *insn {
        Insn::Store { size, place, src } => stored(machine, size, &place, &src),
        Insn::Jump { comparison, .. } => {
            jumped(holds(machine, &comparison), slot, machine.slot())
        }
        Insn::Goto { .. } => StepChange::Jumped(machine.slot()),
        Insn::LoadAddress { .. } | Insn::Call { .. } | Insn::Exit => StepChange::Nothing,
        Insn::Alu { .. }
        | Insn::Negate { .. }
        | Insn::MoveSigned { .. }
        | Insn::ByteSwap { .. }
        | Insn::Load { .. }
        | Insn::Wide { .. }
        | Insn::LoadMap { .. } => written(machine, insn.written()),
    }
}

/// Prints a number: decimal below 4,096, else hexadecimal.
fn print_number<W: Write>(out: &mut W, number: u64) -> io::Result<()>
    ensures { OnOk result (Prints W.contents out.old out.new (number_text number)) }
{
    if number < 4096 {
        write!(out, "{number}")
    } else {
        write!(out, "0x{number:x}")
    }
}

/// The name of a region.
fn region_name(region: Region) -> &'static str
    ensures { result.now ≡ region_text region }
{
    match region {
        Region::Front => "front",
        Region::Tail => "tail",
        Region::Stack => "stack",
    }
}

/// Prints what a register holds.
fn print_value<W: Write>(out: &mut W, value: Value) -> io::Result<()>
    ensures { OnOk result (Prints W.contents out.old out.new (step_value_text value)) }
{
    match value {
        Value::Unset => write!(out, "unset"),
        Value::Num(number) => print_number(out, number),
        Value::Ptr { region, offset } => {
            let name = region_name(region);
            write!(out, "{name}{offset:+}")
        }
        Value::Map(index) => write!(out, "map {index}"),
    }
}

/// Prints where this many bytes of the stack are, from a place on.
fn print_stack<W: Write>(out: &mut W, place: usize, bytes: usize) -> io::Result<()>
    ensures { OnOk result (Prints W.contents out.old out.new (stack_text place bytes)) }
{
    let first = STACK_SIZE.saturating_sub(place);
    if bytes == 1 {
        return write!(out, "stack-{first}");
    }
    let last = (STACK_SIZE + 1).saturating_sub(place).saturating_sub(bytes);
    write!(out, "stack-{first}..-{last}")
}

/// Prints what a store changed.
fn print_stored<W: Write>(out: &mut W, place: usize, size: Size, number: u64) -> io::Result<()>
    ensures { OnOk result (Prints W.contents out.old out.new
        (change_text (StepChange.Stored place size number))) }
{
    let bytes = number.to_le_bytes();
    print_stack(out, place, size.bytes())?;
    write!(out, " = ")?;
    print_bytes(out, &bytes[..size.bytes()])
}

/// Prints what a step changed.
///
/// # Errors
///
/// The error of `out`, if it does not take all of the text.
pub fn print_change<W: Write>(out: &mut W, change: StepChange) -> io::Result<()>
    ensures { OnOk result (Prints W.contents out.old out.new (change_text change)) }
{
    match change {
        StepChange::Written(register, value) => {
            write!(out, "{register} = ")?;
            print_value(out, value)
        }
        StepChange::Stored(place, size, number) => print_stored(out, place, size, number),
        StepChange::NotTaken => write!(out, "not taken"),
        StepChange::Taken => write!(out, "taken"),
        StepChange::Jumped(slot) => write!(out, "to {slot}"),
        StepChange::Answered(call) => {
            let (map, key) = (call.question.map, call.question.key);
            write!(out, "map {map} cell {key}: told ")?;
            print_number(out, call.answer)
        }
        StepChange::Ended(verdict, steps, budget) => {
            write!(
                out,
                "verdict {verdict} after {steps} steps, budget {budget}"
            )
        }
        StepChange::Nothing => Ok(()),
    }
}
