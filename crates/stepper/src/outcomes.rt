//! The outcome of one step of a machine, and how the step is done.

ghost use Rattle.std.specs.Prelude.{◌≡◌, ◌+◌, ◌<◌, ◌≤◌};
ghost use Rattle.bpf.specs.declared.header.TheConstants.{MAX_SLOTS};
ghost use Rattle.machine.specs.declared.regions.TheConstants.{STACK_SIZE};
ghost use Rattle.stepper.specs.Bytes.{bytes_in};
ghost use Rattle.machine.specs.Memory.{byte_after};
ghost use Rattle.stepper.specs.Deeds.{IsPlaced};
ghost use Rattle.stepper.specs.Machine.{state_with, IsOutcomeOf};

use crate::deeds::InstructionEffect;
use bpf_insn::REGISTERS;
use machine::{Question, STACK_SIZE, Value};

/// The outcome of one step of a machine.
#[derive(Clone, Copy, Debug, PartialEq, Eq)]
pub enum StepOutcome {
    /// The machine is at its next instruction.
    Next,
    /// A helper asks; `Machine::answer` goes on.
    Ask(Question),
    /// The program ended with this verdict.
    Verdict(u64),
    /// A trap: the machine cannot go on.
    Trap,
}

/// Writes the low `bytes` bytes of a number to the stack from a place, the lowest first.
fn put(stack: &mut [Option<u8>; STACK_SIZE], place: usize, bytes: usize, number: u64)
    requires { place + bytes ≤ STACK_SIZE }
    ensures { bytes_in stack.new ≡ byte_after (bytes_in stack.old) bytes place number }
{
    let mut rest = number;
    for k in place..place + bytes {
        stack[k] = Some((rest % 256) as u8);
        rest /= 256;
    }
}

/// Does what an instruction does.
pub fn apply(
    slot: &mut u32,
    registers: &mut [Value; REGISTERS],
    stack: &mut [Option<u8>; STACK_SIZE],
    deed: InstructionEffect,
) -> StepOutcome
    requires inside { slot.old < MAX_SLOTS }
    requires placed { IsPlaced deed }
    ensures { IsOutcomeOf deed result (state_with slot.old registers.old stack.old)
        (state_with slot.new registers.new stack.new) }
{
    match deed {
        InstructionEffect::Write {
            register,
            value,
            slots,
        } => {
            registers[usize::from(register.number())] = value;
            *slot += slots;
            StepOutcome::Next
        }
        InstructionEffect::Put {
            place,
            bytes,
            number,
        } => {
            put(stack, place, bytes, number);
            *slot += 1;
            StepOutcome::Next
        }
        InstructionEffect::Go(target) => {
            *slot = target;
            StepOutcome::Next
        }
        InstructionEffect::Ask(asked) => StepOutcome::Ask(asked),
        InstructionEffect::Verdict(verdict) => StepOutcome::Verdict(verdict),
        InstructionEffect::Trap => StepOutcome::Trap,
    }
}
