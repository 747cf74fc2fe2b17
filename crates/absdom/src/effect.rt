//! What an instruction does to what is known.

ghost use Rattle.std.specs.Prelude.{◌≡◌, IfSome, Ok};
ghost use Rattle.absdom_num.specs.Tables.{alu_range};
ghost use Rattle.absdom.specs.Effect.{operand_kind, alu_kind, map_kind, with_result, after_insn, Applies, Becomes};
ghost use Rattle.absdom.specs.State.{kind_at};

use crate::access::{load, store};
use crate::arithmetic::{alu, byte_swap, move_signed, negate};
use crate::cause::Cause;
use crate::kinds::AbsKind;
use crate::state::State;
use absdom_num::Range;
use absdom_stack::Spill;
use bpf_insn::{AluOp, Insn, LoadSize, MemoryOperand, Operand, Register, Size, Width};

/// What is known of an operand: a register's kind, or the number of an immediate with its sign extended.
pub(crate) fn operand(state: &State, operand: &Operand) -> AbsKind
    ensures { result ≡ operand_kind state.now operand.now }
{
    match operand {
        Operand::FromRegister(register) => state.kind(*register),
        Operand::Immediate(value) => AbsKind::Num(Range::single(machine::word(i64::from(*value)))),
    }
}

/// The map of an index. If no map has the index, nothing is known.
fn map_kind(index: i32) -> AbsKind
    ensures { result ≡ map_kind index }
{
    match u8::try_from(index) {
        Ok(index) => AbsKind::Map(index),
        Err(_) => AbsKind::Unset,
    }
}

/// Writes a register, or says why not.
#[inline(always)]
fn write(state: &mut State, register: Register, kind: Result<AbsKind, Cause>) -> Result<(), Cause>
    ensures { Becomes result state.old state.new (with_result state.old register kind) }
{
    match kind? {
        AbsKind::Num(range) => state.write_number(register, range),
        kind => state.write(register, kind),
    }
    Ok(())
}

/// The ranges of the numbers on which an operation gives one. MOV reads only the source, so they are its range twice.
#[inline(always)]
fn ranges(op: AluOp, a: &AbsKind, b: &AbsKind) -> Option<(Range, Range)>
    ensures { IfSome result (λ both. (width : Width)
        → alu_kind op width a.now b.now ≡ Ok (AbsKind.Num (alu_range op width both.0 both.1))) }
{
    let AbsKind::Num(b) = b else {
        return None;
    };
    match op {
        AluOp::Mov => Some((*b, *b)),
        _ => match a {
            AbsKind::Num(a) => Some((*a, *b)),
            _ => None,
        },
    }
}

/// Arithmetic on a register and an operand.
fn arithmetic(
    state: &mut State,
    op: AluOp,
    width: Width,
    dst: Register,
    src: &Operand,
) -> Result<(), Cause>
    ensures { Becomes result state.old state.new
        (with_result state.old dst
        (alu_kind op width (kind_at state.old dst) (operand_kind state.old src.now))) }
{
    let (a, b) = (state.kind(dst), operand(state, src));
    if let Some((a, b)) = ranges(op, &a, &b) {
        state.write_number(dst, absdom_num::alu(op, width, a, b));
        return Ok(());
    }
    let kind = alu(op, width, &a, &b);
    write(state, dst, kind)
}

/// A load from a place into a register.
fn fetch(
    state: &mut State,
    spill: Spill,
    size: LoadSize,
    dst: Register,
    place: &MemoryOperand,
) -> Result<(), Cause>
    ensures { Applies spill result state.old state.new (Insn.Load size dst place.now) }
{
    let kind = load(state, spill, size, &state.kind(place.base), place.offset);
    write(state, dst, kind)
}

/// A store of an operand to a place.
fn put(
    state: &mut State,
    spill: Spill,
    size: Size,
    place: &MemoryOperand,
    src: &Operand,
) -> Result<(), Cause>
    ensures { Applies spill result state.old state.new (Insn.Store size place.now src.now) }
{
    let pointer = state.kind(place.base);
    let value = operand(state, src);
    store(state, spill, size, &pointer, place.offset, &value)
}

impl State {
    /// Changes to what is known after an instruction that goes on to the next one. These are arithmetic, loads,
    /// stores and two-slot loads of a constant or a map (RFC 9669, sections 4.1, 4.2, 5 and 5.4). If numbers keep
    /// their ranges on the stack, a store that fills a word and a load of it carry the range. All other instructions
    /// leave the state as it is here: [`refine`] gives the edges of a comparison, and [`State::call`] is for a
    /// helper's call.
    ///
    /// # Errors
    ///
    /// Why the instruction is refused. The state is then as before.
    ///
    /// [`refine`]: crate::refine
    pub fn apply(&mut self, spill: Spill, insn: &Insn) -> Result<(), Cause>
        ensures { Becomes result self.old self.new (after_insn spill self.old insn.now) }
    {
        match insn {
            Insn::Alu {
                op,
                width,
                dst,
                src,
            } => arithmetic(self, *op, *width, *dst, src),
            Insn::Negate { width, dst } => {
                let kind = negate(*width, &self.kind(*dst));
                write(self, *dst, kind)
            }
            Insn::MoveSigned {
                extension,
                dst,
                src,
            } => {
                let kind = move_signed(*extension, &self.kind(*src));
                write(self, *dst, kind)
            }
            Insn::ByteSwap { swap, bits, dst } => {
                let kind = byte_swap(*swap, *bits, &self.kind(*dst));
                write(self, *dst, kind)
            }
            Insn::Load { size, dst, place } => fetch(self, spill, *size, *dst, place),
            Insn::Store { size, place, src } => put(self, spill, *size, place, src),
            Insn::Wide { dst, value } => {
                write(self, *dst, Ok(AbsKind::Num(Range::single(*value))))
            }
            Insn::LoadMap { dst, index } => write(self, *dst, Ok(map_kind(*index))),
            Insn::Jump { .. }
            | Insn::Goto { .. }
            | Insn::LoadAddress { .. }
            | Insn::Call { .. }
            | Insn::Exit => { Ok(()) }
        }
    }
}
