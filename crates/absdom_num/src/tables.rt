//! What arithmetic does to ranges, operation by operation.

ghost use Rattle.std.specs.Prelude.{◌≡◌, ◌+◌, ◌*◌, ◌^◌, ◌<◌, ◌≤◌};
ghost use Rattle.machine.specs.Words.{bits_of, modulus};
ghost use Rattle.absdom_num.specs.Tables.{whole_range, sign_weight, low_range, sum_range, difference_range, product_range, quotient_range, remainder_range, ones_over, and_range, or_range, xor_range, distance, left_range, right_range, signed_right_range, row, alu_range, negated_range, sign_bit, extended_range, greatest_number, swapped_range};

use crate::ranges::Range;
use bpf_insn::{AluOp, Extension, Swap, SwapBits, Width};
use machine::{alu_words, modulus, negation, sign_extension, swapped_bytes};

/// Every number of this width.
fn whole_range(width: Width) -> Range
    ensures { result ≡ whole_range width }
{
    match width {
        Width::Bits32 => Range::new(0, u64::from(u32::MAX)),
        Width::Bits64 => Range::whole(),
    }
}

/// The part of an operand that an operation of this width reads.
fn low_range(width: Width, a: Range) -> Range
    ensures value { result ≡ low_range width a }
    ensures bound { result.1 < modulus width }
{
    match width {
        Width::Bits64 => a,
        Width::Bits32 => cut_to_32(a),
    }
}

/// The low 32 bits of an operand.
fn cut_to_32(a: Range) -> Range
    ensures { result ≡ low_range Width.Bits32 a }
{
    if a.high() < 1 << 32 {
        a
    } else if let Some(n) = a.single_value() {
        Range::single(n % (1 << 32))
    } else {
        whole_range(Width::Bits32)
    }
}

/// ADD: the sums of the ends, if both wrap or none does.
fn sum(width: Width, a: Range, b: Range) -> Range
    requires a_low { a.1 < modulus width }
    requires b_low { b.1 < modulus width }
    ensures { result ≡ sum_range width a b }
{
    let modulus = modulus(width);
    let low = u128::from(a.low()) + u128::from(b.low());
    let high = u128::from(a.high()) + u128::from(b.high());
    if high < modulus {
        Range::new(low as u64, high as u64)
    } else if modulus <= low {
        Range::new((low - modulus) as u64, (high - modulus) as u64)
    } else {
        whole_range(width)
    }
}

/// SUB: the differences of the ends, if both wrap or none does.
fn difference(width: Width, a: Range, b: Range) -> Range
    requires a_low { a.1 < modulus width }
    requires b_low { b.1 < modulus width }
    ensures { result ≡ difference_range width a b }
{
    let modulus = modulus(width);
    if b.high() <= a.low() {
        Range::new(a.low() - b.high(), a.high() - b.low())
    } else if a.high() < b.low() {
        let low = u128::from(a.low()) + modulus - u128::from(b.high());
        let high = u128::from(a.high()) + modulus - u128::from(b.low());
        Range::new(low as u64, high as u64)
    } else {
        whole_range(width)
    }
}

/// MUL: the products of the ends, if the greatest does not wrap.
fn product(width: Width, a: Range, b: Range) -> Range
    ensures { result ≡ product_range width a b }
{
    let high = u128::from(a.high()) * u128::from(b.high());
    if high < modulus(width) {
        Range::new(a.low() * b.low(), high as u64)
    } else {
        whole_range(width)
    }
}

/// DIV: division by zero gives zero.
fn quotient(a: Range, b: Range) -> Range
    ensures { result ≡ quotient_range a b }
{
    let Some(high) = a.high().checked_div(b.low()) else {
        return Range::new(0, a.high());
    };
    Range::new(a.low() / b.high(), high)
}

/// MOD: a number below the divisor stays, and modulo by zero does not change the destination.
fn remainder(a: Range, b: Range) -> Range
    ensures { result ≡ remainder_range a b }
{
    if 1 <= b.low() && a.high() < b.low() {
        a
    } else if 1 <= b.low() {
        Range::new(0, a.high().min(b.high() - 1))
    } else {
        Range::new(0, a.high())
    }
}

/// The least 2^k - 1 that is at least `n`.
fn ones_over(n: u64) -> u64
    ensures { result ≡ ones_over n }
{
    ((1u128 << (64 - n.leading_zeros())) - 1) as u64
}

/// AND: at most the lesser operand.
fn and(a: Range, b: Range) -> Range
    ensures { result ≡ and_range a b }
{
    Range::new(0, a.high().min(b.high()))
}

/// OR: at least the greater operand, and no bit above both.
fn or(a: Range, b: Range) -> Range
    ensures { result ≡ or_range a b }
{
    Range::new(a.low().max(b.low()), ones_over(a.high().max(b.high())))
}

/// XOR: no bit above both operands.
fn xor(a: Range, b: Range) -> Range
    ensures { result ≡ xor_range a b }
{
    Range::new(0, ones_over(a.high().max(b.high())))
}

/// How far a shift goes: the count is masked to the width.
fn distance(width: Width, n: u64) -> u64
    ensures value { result ≡ distance width n }
    ensures bound { result < 64 }
{
    match width {
        Width::Bits32 => n % 32,
        Width::Bits64 => n % 64,
    }
}

/// LSH: by one count that loses no bit.
fn left(width: Width, a: Range, b: Range) -> Range
    ensures { result ≡ left_range width a b }
{
    let Some(count) = b.single_value() else {
        return whole_range(width);
    };
    let distance = distance(width, count);
    let low = u128::from(a.low()) << distance;
    let high = u128::from(a.high()) << distance;
    if high < modulus(width) {
        Range::new(low as u64, high as u64)
    } else {
        whole_range(width)
    }
}

/// RSH: by one count, or by any.
fn right(width: Width, a: Range, b: Range) -> Range
    ensures { result ≡ right_range width a b }
{
    match b.single_value() {
        Some(count) => {
            let distance = distance(width, count);
            Range::new(a.low() >> distance, a.high() >> distance)
        }
        None => Range::new(0, a.high()),
    }
}

/// The first number of this width that is negative when read as signed.
fn sign_weight(width: Width) -> u64
    ensures { result ≡ sign_weight width }
{
    match width {
        Width::Bits32 => 1 << 31,
        Width::Bits64 => 1 << 63,
    }
}

/// ARSH: as RSH if no number is negative.
fn signed_right(width: Width, a: Range, b: Range) -> Range
    ensures { result ≡ signed_right_range width a b }
{
    if sign_weight(width) <= a.high() {
        whole_range(width)
    } else {
        right(width, a, b)
    }
}

/// The table of an operation, for operands of this width.
fn row(op: AluOp, width: Width, a: Range, b: Range) -> Range
    requires a_low { a.1 < modulus width }
    requires b_low { b.1 < modulus width }
    ensures { result ≡ row op width a b }
{
    match op {
        AluOp::Add => sum(width, a, b),
        AluOp::Sub => difference(width, a, b),
        AluOp::Mul => product(width, a, b),
        AluOp::Div => quotient(a, b),
        AluOp::SignedDiv | AluOp::SignedMod => whole_range(width),
        AluOp::Or => or(a, b),
        AluOp::And => and(a, b),
        AluOp::Lsh => left(width, a, b),
        AluOp::Rsh => right(width, a, b),
        AluOp::Mod => remainder(a, b),
        AluOp::Xor => xor(a, b),
        AluOp::Mov => b,
        AluOp::Arsh => signed_right(width, a, b),
    }
}

/// The numbers that an operation can give on numbers of two ranges (RFC 9669, section 4.1). If both operands are one
/// number, it is one number, else a range that has them all.
pub fn alu(op: AluOp, width: Width, a: Range, b: Range) -> Range
    ensures { result ≡ alu_range op width a b }
{
    if let Some(n) = a.single_value() {
        if let Some(m) = b.single_value() {
            return Range::single(alu_words(op, width, n, m));
        }
    }
    row(op, width, low_range(width, a), low_range(width, b))
}

/// The numbers that NEG can give (RFC 9669, section 4.1).
pub fn negate(width: Width, a: Range) -> Range
    ensures { result ≡ negated_range width a }
{
    match a.single_value() {
        Some(n) => Range::single(negation(width, n)),
        None => whole_range(width),
    }
}

/// The first number that the extension reads as negative.
fn sign_bit(extension: Extension) -> u64
    ensures { result ≡ sign_bit extension }
{
    match extension {
        Extension::ByteTo32 | Extension::ByteTo64 => 1 << 7,
        Extension::HalfTo32 | Extension::HalfTo64 => 1 << 15,
        Extension::WordTo64 => 1 << 31,
    }
}

/// The numbers that a sign-extending move can give (RFC 9669, section 4.1). A number that is not negative stays.
pub fn move_signed(extension: Extension, a: Range) -> Range
    ensures { result ≡ extended_range extension a }
{
    if let Some(n) = a.single_value() {
        Range::single(sign_extension(extension, n))
    } else if a.high() < sign_bit(extension) {
        a
    } else {
        whole_range(extension.width())
    }
}

/// The greatest number of that many bits.
fn greatest_number(bits: SwapBits) -> u64
    ensures { result ≡ greatest_number bits }
{
    match bits {
        SwapBits::Swap16 => u64::from(u16::MAX),
        SwapBits::Swap32 => u64::from(u32::MAX),
        SwapBits::Swap64 => u64::MAX,
    }
}

/// The numbers that a byte swap can give (RFC 9669, section 4.2). In both classes it reads the whole
/// operand.
pub fn byte_swap(swap: Swap, bits: SwapBits, a: Range) -> Range
    ensures { result ≡ swapped_range swap bits a }
{
    match a.single_value() {
        Some(n) => Range::single(swapped_bytes(swap, bits, n)),
        None => Range::new(0, greatest_number(bits)),
    }
}
