//! What a comparison says of its operands, on each of its edges.

ghost use Rattle.std.specs.Prelude.{◌≡◌, ◌+◌};
ghost use Rattle.absdom_num.specs.Refinement.{nonempty_range, range_apart, when_equal, when_not_equal, when_less, when_at_most, when_greater, when_at_least, when_taken, when_not_taken, reach, refined_ranges};

use crate::ranges::Range;
use bpf_insn::{Condition, Width};

/// The ranges of a comparison's operands.
#[derive(Clone, Copy, Debug, PartialEq, Eq)]
pub struct Operands {
    /// The range of the destination register.
    pub dst: Range,
    /// The range of the source.
    pub src: Range,
}

/// The operands on the two edges of a comparison. An edge is `None` if no operands take it.
#[derive(Clone, Copy, Debug, PartialEq, Eq)]
pub struct Edges {
    /// The edge on which the comparison holds.
    pub taken: Option<Operands>,
    /// The edge on which it does not hold.
    pub not_taken: Option<Operands>,
}

/// The edge a = b: the common part.
fn when_equal(a: Range, b: Range) -> Option<Operands>
    ensures { result ≡ when_equal a b }
{
    let low = a.low().max(b.low());
    let high = a.high().min(b.high());
    if low <= high {
        let common = Range::new(low, high);
        Some(Operands {
            dst: common,
            src: common,
        })
    } else {
        None
    }
}

/// A range without the number of the other range, if that is one number and an end of this one. It is `None` if
/// nothing is left.
fn range_apart(a: Range, b: Range) -> Option<Range>
    ensures { result ≡ nonempty_range (range_apart a b) }
{
    let low = a.low();
    let high = a.high();
    let Some(n) = b.single_value() else {
        return Some(a);
    };
    if low == n && high == n {
        None
    } else if low == n {
        Some(Range::new(low + 1, high))
    } else if high == n {
        Some(Range::new(low, high - 1))
    } else {
        Some(a)
    }
}

/// The edge on which a is not b.
fn when_not_equal(a: Range, b: Range) -> Option<Operands>
    ensures { result ≡ when_not_equal a b }
{
    let dst = range_apart(a, b)?;
    let src = range_apart(b, a)?;
    Some(Operands { dst, src })
}

/// The edge a < b.
fn when_less(a: Range, b: Range) -> Option<Operands>
    ensures { result ≡ when_less a b }
{
    if a.low() < b.high() {
        let dst = Range::new(a.low(), a.high().min(b.high() - 1));
        let src = Range::new(b.low().max(a.low() + 1), b.high());
        Some(Operands { dst, src })
    } else {
        None
    }
}

/// The edge a <= b.
fn when_at_most(a: Range, b: Range) -> Option<Operands>
    ensures { result ≡ when_at_most a b }
{
    if a.low() <= b.high() {
        let dst = Range::new(a.low(), a.high().min(b.high()));
        let src = Range::new(b.low().max(a.low()), b.high());
        Some(Operands { dst, src })
    } else {
        None
    }
}

/// The edge a > b.
fn when_greater(a: Range, b: Range) -> Option<Operands>
    ensures { result ≡ when_greater a b }
{
    let Operands { dst, src } = when_less(b, a)?;
    Some(Operands { dst: src, src: dst })
}

/// The edge a >= b.
fn when_at_least(a: Range, b: Range) -> Option<Operands>
    ensures { result ≡ when_at_least a b }
{
    let Operands { dst, src } = when_at_most(b, a)?;
    Some(Operands { dst: src, src: dst })
}

/// The edge on which the comparison holds.
fn when_taken(condition: Condition, a: Range, b: Range) -> Option<Operands>
    ensures { result ≡ when_taken condition a b }
{
    match condition {
        Condition::Equal => when_equal(a, b),
        Condition::NotEqual => when_not_equal(a, b),
        Condition::Less | Condition::SignedLess => when_less(a, b),
        Condition::LessEqual | Condition::SignedLessEqual => when_at_most(a, b),
        Condition::Greater | Condition::SignedGreater => when_greater(a, b),
        Condition::GreaterEqual | Condition::SignedGreaterEqual => when_at_least(a, b),
        Condition::AnyBits => Some(Operands { dst: a, src: b }),
    }
}

/// The edge on which the comparison does not hold.
fn when_not_taken(condition: Condition, a: Range, b: Range) -> Option<Operands>
    ensures { result ≡ when_not_taken condition a b }
{
    match condition {
        Condition::Equal => when_not_equal(a, b),
        Condition::NotEqual => when_equal(a, b),
        Condition::Less | Condition::SignedLess => when_at_least(a, b),
        Condition::LessEqual | Condition::SignedLessEqual => when_greater(a, b),
        Condition::Greater | Condition::SignedGreater => when_at_most(a, b),
        Condition::GreaterEqual | Condition::SignedGreaterEqual => when_less(a, b),
        Condition::AnyBits => Some(Operands { dst: a, src: b }),
    }
}

/// The greatest number that both operands may have if a comparison is refined. Up to there a comparison of this width
/// compares them whole, and a signed one as an unsigned one.
fn greatest_refined(condition: Condition, width: Width) -> u64
    ensures { result + 1 ≡ reach condition width }
{
    match condition {
        Condition::SignedLess
        | Condition::SignedLessEqual
        | Condition::SignedGreater
        | Condition::SignedGreaterEqual => match width {
            Width::Bits32 => (1 << 31) - 1,
            Width::Bits64 => (1 << 63) - 1,
        },
        _ => match width {
            Width::Bits32 => u64::from(u32::MAX),
            Width::Bits64 => u64::MAX,
        },
    }
}

/// What a comparison of two different registers says on its two edges (RFC 9669, section 4.3). If it says nothing,
/// both edges keep the ranges. A comparison of bits says nothing.
pub fn refine(condition: Condition, width: Width, a: Range, b: Range) -> Edges
    ensures { result ≡ refined_ranges condition width a b }
{
    let greatest = greatest_refined(condition, width);
    if a.high() <= greatest && b.high() <= greatest {
        Edges {
            taken: when_taken(condition, a, b),
            not_taken: when_not_taken(condition, a, b),
        }
    } else {
        Edges {
            taken: Some(Operands { dst: a, src: b }),
            not_taken: Some(Operands { dst: a, src: b }),
        }
    }
}
