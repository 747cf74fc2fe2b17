//! What is known on the two edges of a comparison.

ghost use Rattle.std.specs.Prelude.{◌≡◌, Ok, Err, MatchResult};
ghost use Rattle.machine.specs.Words.{word, low_part};
ghost use Rattle.absdom.specs.Edges.{compared_range, with_operands, edge_states, is_itself, ranges_of, refined_edges, refined_operands};

use crate::cause::Cause;
use crate::kinds::AbsKind;
use crate::state::State;
use absdom_num::{Edges, Operands, Range};
use bpf_insn::{Condition, Operand, Register, Width};

/// The part of an immediate that a comparison of that width reads.
fn immediate(width: Width, value: i32) -> u64
    ensures { result ≡ low_part width (word value) }
{
    machine::low_part(width, machine::word(i64::from(value)))
}

/// The range of a comparison's second operand. An immediate counts by the bits that the comparison reads.
fn source(state: &State, width: Width, src: &Operand) -> Result<Range, Cause>
    ensures { result ≡ compared_range width state.now src.now }
{
    match src {
        Operand::FromRegister(register) => state.kind(*register).number(),
        Operand::Immediate(value) => Ok(Range::single(immediate(width, *value))),
    }
}

/// Whether the second operand is that register itself.
fn is_itself(dst: Register, src: &Operand) -> bool
    ensures { result ≡ is_itself dst src.now }
{
    match src {
        Operand::FromRegister(register) => dst.number() == register.number(),
        Operand::Immediate(_) => false,
    }
}

/// The ranges on the edges of a comparison of these numbers. A comparison of a register with itself leaves them as
/// they are.
fn edges_between(
    condition: Condition,
    width: Width,
    dst: Register,
    src: &Operand,
    left: Range,
    right: Range,
) -> Edges
    ensures { result ≡ ranges_of condition width dst src.now left right }
{
    if is_itself(dst, src) {
        Edges {
            taken: Some(Operands {
                dst: left,
                src: right,
            }),
            not_taken: Some(Operands {
                dst: left,
                src: right,
            }),
        }
    } else {
        absdom_num::refine(condition, width, left, right)
    }
}

/// The ranges of the operands on the two edges of a comparison (RFC 9669, section 4.3). They shrink to what holds on
/// the edge, as [`absdom_num::refine`] does it. [`State::narrow`] gives the state on an edge.
///
/// # Errors
///
/// Why the comparison is refused: both operands must be numbers.
pub fn refine(
    state: &State,
    condition: Condition,
    width: Width,
    dst: Register,
    src: &Operand,
) -> Result<Edges, Cause>
    ensures ranges { result ≡ refined_operands state.now condition width dst src.now }

    // With these ranges the state is what is known on each edge.
    ensures edges { MatchResult result
        (λ new. refined_edges state.now condition width dst src.now
        ≡ Ok (edge_states state.now dst src.now new))
        (λ cause. refined_edges state.now condition width dst src.now ≡ Err cause) }
{
    let left = state.kind(dst).number()?;
    let right = source(state, width, src)?;
    Ok(edges_between(condition, width, dst, src, left, right))
}

impl State {
    /// Changes to what is known on an edge of a comparison, with the ranges of its operands there.
    pub fn narrow(&mut self, dst: Register, src: &Operand, new: &Operands)
        ensures { self.new ≡ with_operands self.old dst src.now new.now }
    {
        self.write(dst, AbsKind::Num(new.dst));
        match src {
            Operand::FromRegister(register) => self.write(*register, AbsKind::Num(new.src)),
            Operand::Immediate(_) => {}
        }
    }
}
