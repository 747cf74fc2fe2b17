//! The machine that makes one step after the other.

ghost use Rattle.std.specs.Prelude.{◌≡◌, ◌+◌, ◌^◌, ◌<◌, ◌≤◌, IfSome, OnSome};
ghost use Rattle.bpf.specs.declared.header.TheConstants.{MAX_SLOTS};
ghost use Rattle.stepper.specs.Bytes.{bytes_in};
ghost use Rattle.bpf_parts.specs.Sizes.{size_bytes};
ghost use Rattle.machine.specs.declared.regions.TheConstants.{STACK_SIZE};
ghost use Rattle.stepper.specs.Deeds.{registers_in, stored_at};
ghost use Rattle.stepper.specs.Near.{AreNear};
ghost use Rattle.bpf_insn.specs.Flow.{flow_of};
ghost use Rattle.machine.specs.State.{entry_state, entry_register, register_after_call};
ghost use Rattle.machine.specs.Helpers.{helper_of};
ghost use Rattle.machine.specs.Step.{insn_at, after_answer, knows_flow, knows_helper, operand};
ghost use Rattle.stepper.specs.Machine.{state_of, step_of, IsOutcome, IsAsk, IsRunOf, IsSameRun};

use crate::deeds::{MachineView, perform, stored_at};
use crate::memory::Memory;
use crate::outcomes::{StepOutcome, apply};
use bpf::{Image, Version};
use bpf_insn::{
    Callee, FRAME_POINTER, Flow, Insn, MemoryOperand, Operand, REGISTERS, Register, Size,
};
use machine::{Helper, MapSizes, Region, STACK_SIZE, Value, steps_perform, word};
use std::marker::Model;

/// A run of a program, one instruction at a time. Every value is tagged with its kind, and every trap is reported. It
/// is for reading beside RFC 9669, and is not fast.
#[derive(Drop)]
pub struct Machine<'a> {
    image: &'a Image,
    sizes: &'a MapSizes,
    front: &'a [u8; 4],
    tail: &'a [u8; 12],
    steps: u32,
    slot: u32,
    registers: [Value; REGISTERS],
    stack: [Option<u8>; STACK_SIZE],
}

impl<'a> Model for Machine<'a> {
    ghost use Rattle.std.specs.Prelude.{◌*◌, ◌^◌};
    ghost use Rattle.stepper.specs.Machine.{MachineValue};
    ghost use Rattle.stepper.specs.Near.{AreNear};

    ghost Value = { MachineValue };

    ghost view = { λ m. record { program = m.image.now; header = record { front = m.front.now; tail = m.tail.now }; sizes = m.sizes.now; steps = m.steps; slot = m.slot; registers = m.registers; stack = m.stack } };

    // a step moves a pointer by at most 2^63, so the offsets fit in 128 bits
    ghost invariant = { λ m. AreNear (2 ^ 63 * m.steps) m.registers };
}

/// The instruction that begins at a slot.
fn fetch(image: &Image, slot: u32) -> Option<Insn>
    ensures value { result ≡ insn_at image.now slot }
    ensures inside { OnSome result (slot < MAX_SLOTS) }
{
    if slot < u32::from(image.slots()) {
        image.insn(slot as u16)
    } else {
        None
    }
}

/// Whether a version of the format has the helper of that number.
fn is_helper_in(version: Version, number: i32) -> bool
    ensures { result ≡ knows_helper version (helper_of number) }
{
    match Helper::of_number(number) {
        Some(helper) => helper.is_in(version),
        None => false,
    }
}

/// Whether a version of the format knows the instruction. If it calls a helper, the version must have that helper.
fn is_known(version: Version, insn: &Insn) -> bool
    ensures { result ≡ knows_flow version (flow_of insn.now) }
{
    match insn.flow() {
        Flow::Calls(Callee::Helper, number) => is_helper_in(version, number),
        _ => true,
    }
}

/// The registers at entry: r1 and r2 point to the parts of the header, and r10 to the end of the stack. The port is
/// in r3.
fn entry_registers(port: u8) -> [Value; REGISTERS]
    ensures value { registers_in result ≡ entry_register port }
    ensures near { AreNear 0 result }
{
    let mut registers = [Value::Unset; REGISTERS];
    registers[1] = Value::Ptr {
        region: Region::Front,
        offset: 0,
    };
    registers[2] = Value::Ptr {
        region: Region::Tail,
        offset: 0,
    };
    registers[3] = Value::Num(u64::from(port));
    registers[usize::from(FRAME_POINTER)] = Value::Ptr {
        region: Region::Stack,
        offset: 0,
    };
    registers
}

/// The stack at entry: every byte is unset.
fn entry_stack() -> [Option<u8>; STACK_SIZE]
    ensures { bytes_in result ≡ (λ place. None) }
{
    [None; STACK_SIZE]
}

impl<'a> Machine<'a> {
    /// The machine at the entry of a program, on a command's header and a port, with maps of these sizes.
    pub fn start(
        image: &'a Image,
        sizes: &'a MapSizes,
        front: &'a [u8; 4],
        tail: &'a [u8; 12],
        port: u8,
    ) -> Machine<'a>
        ensures run { IsRunOf result image.now front.now tail.now sizes.now }
        ensures state { state_of result ≡ entry_state port }
        ensures steps { result.steps ≡ 0 }
    {
        Machine {
            image,
            sizes,
            front,
            tail,
            steps: 0,
            slot: 0,
            registers: entry_registers(port),
            stack: entry_stack(),
        }
    }

    /// How many steps the machine made.
    pub fn steps(&self) -> u32
        ensures { result ≡ self.now.steps }
    {
        self.steps
    }

    /// What a register holds.
    pub fn register(&self, register: Register) -> Value
        ensures { result ≡ (state_of self.now).registers register }
    {
        self.registers[usize::from(register.number())]
    }

    /// The slot of the next instruction.
    pub fn slot(&self) -> u32
        ensures { result ≡ self.now.slot }
    {
        self.slot
    }

    /// The next instruction, or `None` if none begins at the machine's slot.
    pub fn insn(&self) -> Option<Insn>
        ensures { result ≡ insn_at self.now.program self.now.slot }
    {
        fetch(self.image, self.slot)
    }

    /// The value of an operand: a register's value, or the immediate.
    pub fn operand(&self, src: &Operand) -> Value
        ensures { result ≡ operand (state_of self.now) src.now }
    {
        match src {
            Operand::FromRegister(register) => self.register(*register),
            Operand::Immediate(value) => Value::Num(word(i64::from(*value))),
        }
    }

    /// The place of the first byte that a store of this size writes there, counted from the stack's first byte. It is
    /// `None` if its base is no pointer into the stack, or if the bytes are not wholly inside.
    pub fn stored(&self, size: Size, place: &MemoryOperand) -> Option<usize>
        ensures value { result
            ≡ stored_at ((state_of self.now).registers place.now.base)
            (size_bytes size) place.now.offset }
        ensures within { IfSome result (λ first. first + size_bytes size ≤ STACK_SIZE) }
    {
        let base = self.registers[usize::from(place.base.number())];
        stored_at(base, size.bytes(), place.offset)
    }

    /// Makes a step: what the instruction at the machine's slot does. If the outcome is not `StepOutcome::Next`, the
    /// registers and the stack stay as before.
    pub fn step(&mut self) -> StepOutcome
        requires { self.old.steps + 1 < 2 ^ 32 }
        ensures outcome { IsOutcome (step_of self.old) result (state_of self.old) (state_of self.new) }
        ensures run { IsSameRun self.old self.new }
        ensures steps { self.new.steps ≡ self.old.steps + 1 }
    {
        steps_perform();
        self.steps += 1;
        let Some(insn) = fetch(self.image, self.slot) else {
            return StepOutcome::Trap;
        };
        if !is_known(self.image.version(), &insn) {
            return StepOutcome::Trap;
        }
        let deed = {
            let memory = Memory {
                front: self.front,
                tail: self.tail,
                stack: &self.stack,
            };
            let frame = MachineView {
                slot: self.slot,
                registers: &self.registers,
                memory,
            };
            perform(frame, self.sizes, &insn)
        };
        apply(&mut self.slot, &mut self.registers, &mut self.stack, deed)
    }

    /// Answers the question that the machine asks: the answer is in r0, and r1 to r5 are unset.
    pub fn answer(&mut self, answer: u64)
        requires { IsAsk (step_of self.old) }
        ensures state { state_of self.new ≡ after_answer (state_of self.old) answer }
        ensures run { IsSameRun self.old self.new }
        ensures steps { self.new.steps ≡ self.old.steps }
    {
        if let Some(_) = fetch(self.image, self.slot) {
            self.slot += 1;
        }
        after_call(&mut self.registers, answer);
    }
}

/// The registers after a call: the answer is in r0, and r1 to r5 are unset.
fn after_call(registers: &mut [Value; REGISTERS], answer: u64)
    ensures { registers_in registers.new ≡ register_after_call (registers_in registers.old) answer }
{
    registers[5] = Value::Unset;
    registers[4] = Value::Unset;
    registers[3] = Value::Unset;
    registers[2] = Value::Unset;
    registers[1] = Value::Unset;
    registers[0] = Value::Num(answer);
}
