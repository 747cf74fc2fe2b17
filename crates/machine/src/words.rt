//! Arithmetic on words (RFC 9669, section 4): what each operation does with two numbers.

ghost use Rattle.std.specs.Prelude.{◌≡◌, ◌^◌, ◌<◌, ◌≤◌};
ghost use Rattle.machine.specs.Words.{bits_of, modulus, low_part, signed_value, wrapped_number, word, quotient, remainder, signed_quotient, signed_remainder, alu_low, alu_words, negation, sign_extension, low_bits, reversed_bytes, swapped_bytes, holds_low, holds_words};

use bpf_insn::{AluOp, Condition, Extension, Swap, SwapBits, Width};

/// How many bits the operation works on.
fn bits_of(width: Width) -> u64
    ensures { result ≡ bits_of width }
{
    match width {
        Width::Bits32 => 32,
        Width::Bits64 => 64,
    }
}

/// One more than the greatest number of this width: 2^32 or 2^64.
pub fn modulus(width: Width) -> u128
    ensures value { result ≡ modulus width }
    ensures bound { result ≤ 2 ^ 64 }
{
    match width {
        Width::Bits32 => 1 << 32,
        Width::Bits64 => 1 << 64,
    }
}

/// The part of a word that an operation of this width reads.
pub fn low_part(width: Width, n: u64) -> u64
    ensures { result ≡ low_part width n }
{
    match width {
        Width::Bits32 => n % (1 << 32),
        Width::Bits64 => n,
    }
}

/// A number of this width, read as signed.
fn signed_value(width: Width, n: u64) -> i64
    requires { n < modulus width }
    ensures { result ≡ signed_value width n }
{
    match width {
        Width::Bits32 => i64::from((n as u32).cast_signed()),
        Width::Bits64 => n.cast_signed(),
    }
}

/// A signed number in this width.
fn wrapped_number(width: Width, z: i64) -> u64
    ensures { result ≡ wrapped_number width z }
{
    low_part(width, z.cast_unsigned())
}

/// A signed number as a word: an immediate is sign-extended to 64 bits (RFC 9669, section 4.1; for ST a
/// choice of this project).
pub fn word(z: i64) -> u64
    ensures { result ≡ word z }
{
    wrapped_number(Width::Bits64, z)
}

/// Division by zero gives 0.
fn quotient(a: u64, b: u64) -> u64
    ensures { result ≡ quotient a b }
{
    if b == 0 { 0 } else { a / b }
}

/// Modulo by zero does not change the destination.
fn remainder(a: u64, b: u64) -> u64
    ensures { result ≡ remainder a b }
{
    if b == 0 { a } else { a % b }
}

/// Signed division truncates toward zero. The least number divided by -1 is itself.
fn signed_quotient(width: Width, a: u64, b: u64) -> u64
    requires a_low { a < modulus width }
    requires b_low { b < modulus width }
    ensures { result ≡ signed_quotient width a b }
{
    if b == 0 {
        0
    } else {
        wrapped_number(
            width,
            signed_value(width, a).wrapping_div(signed_value(width, b)),
        )
    }
}

/// What is left of signed division, with the sign of the dividend.
fn signed_remainder(width: Width, a: u64, b: u64) -> u64
    requires a_low { a < modulus width }
    requires b_low { b < modulus width }
    ensures { result ≡ signed_remainder width a b }
{
    if b == 0 {
        a
    } else {
        wrapped_number(
            width,
            signed_value(width, a).wrapping_rem(signed_value(width, b)),
        )
    }
}

/// The operations on two numbers of this width; a shift's count is masked.
fn alu_low(op: AluOp, width: Width, a: u64, b: u64) -> u64
    requires a_low { a < modulus width }
    requires b_low { b < modulus width }
    ensures { result ≡ alu_low op width a b }
{
    match op {
        AluOp::Add => low_part(width, a.wrapping_add(b)),
        AluOp::Sub => low_part(width, a.wrapping_sub(b)),
        AluOp::Mul => low_part(width, a.wrapping_mul(b)),
        AluOp::Div => quotient(a, b),
        AluOp::SignedDiv => signed_quotient(width, a, b),
        AluOp::Or => a | b,
        AluOp::And => a & b,
        AluOp::Lsh => low_part(width, a << (b % bits_of(width))),
        AluOp::Rsh => a >> (b % bits_of(width)),
        AluOp::Mod => remainder(a, b),
        AluOp::SignedMod => signed_remainder(width, a, b),
        AluOp::Xor => a ^ b,
        AluOp::Mov => b,
        AluOp::Arsh => wrapped_number(width, signed_value(width, a) >> (b % bits_of(width))),
    }
}

/// An operation on two words (RFC 9669, section 4.1). At 32 bits it reads the low halves, and the upper half of the
/// result is zero.
///
/// - Arithmetic wraps, and a shift's count is masked to the width.
/// - Division by zero gives 0, and modulo by zero gives `a`.
/// - Signed division truncates toward zero, and the least number divided by -1 is itself.
pub fn alu_words(op: AluOp, width: Width, a: u64, b: u64) -> u64
    ensures { result ≡ alu_words op width a b }
{
    alu_low(op, width, low_part(width, a), low_part(width, b))
}

/// NEG of a word (RFC 9669, section 4.1), which wraps. At 32 bits the upper half of the result is zero.
pub fn negation(width: Width, n: u64) -> u64
    ensures { result ≡ negation width n }
{
    low_part(width, 0u64.wrapping_sub(low_part(width, n)))
}

/// MOVSX of a word (RFC 9669, section 4.1): its low 8, 16 or 32 bits, sign-extended to 32 or 64 bits. At
/// 32 bits the upper half of the result is zero.
pub fn sign_extension(extension: Extension, n: u64) -> u64
    ensures { result ≡ sign_extension extension n }
{
    match extension {
        Extension::ByteTo32 => wrapped_number(
            Width::Bits32,
            i64::from(((n % (1 << 8)) as u8).cast_signed()),
        ),
        Extension::HalfTo32 => wrapped_number(
            Width::Bits32,
            i64::from(((n % (1 << 16)) as u16).cast_signed()),
        ),
        Extension::ByteTo64 => word(i64::from(((n % (1 << 8)) as u8).cast_signed())),
        Extension::HalfTo64 => word(i64::from(((n % (1 << 16)) as u16).cast_signed())),
        Extension::WordTo64 => word(i64::from(((n % (1 << 32)) as u32).cast_signed())),
    }
}

/// The low bits of a word, and no bits above them.
fn low_bits(bits: SwapBits, n: u64) -> u64
    ensures { result ≡ low_bits bits n }
{
    match bits {
        SwapBits::Swap16 => n % (1 << 16),
        SwapBits::Swap32 => n % (1 << 32),
        SwapBits::Swap64 => n,
    }
}

/// The low bytes of a word in the other order.
fn reversed_bytes(bits: SwapBits, n: u64) -> u64
    ensures { result ≡ reversed_bytes bits n }
{
    match bits {
        SwapBits::Swap16 => u64::from(((n % (1 << 16)) as u16).swap_bytes()),
        SwapBits::Swap32 => u64::from(((n % (1 << 32)) as u32).swap_bytes()),
        SwapBits::Swap64 => n.swap_bytes(),
    }
}

/// END of a word (RFC 9669, section 4.2), on a little-endian machine. Both classes read the whole word, and only the
/// width decides. The bits above it are zero.
pub fn swapped_bytes(swap: Swap, bits: SwapBits, n: u64) -> u64
    ensures { result ≡ swapped_bytes swap bits n }
{
    match swap {
        Swap::ToLittle => low_bits(bits, n),
        Swap::ToBig | Swap::Reverse => reversed_bytes(bits, n),
    }
}

/// The conditions on two numbers of this width.
fn holds_low(condition: Condition, width: Width, a: u64, b: u64) -> bool
    requires a_low { a < modulus width }
    requires b_low { b < modulus width }
    ensures { result ≡ holds_low condition width a b }
{
    match condition {
        Condition::Equal => a == b,
        Condition::Greater => a > b,
        Condition::GreaterEqual => a >= b,
        Condition::AnyBits => a & b != 0,
        Condition::NotEqual => a != b,
        Condition::SignedGreater => signed_value(width, a) > signed_value(width, b),
        Condition::SignedGreaterEqual => signed_value(width, a) >= signed_value(width, b),
        Condition::Less => a < b,
        Condition::LessEqual => a <= b,
        Condition::SignedLess => signed_value(width, a) < signed_value(width, b),
        Condition::SignedLessEqual => signed_value(width, a) <= signed_value(width, b),
    }
}

/// A condition of two words (RFC 9669, section 4.3). At 32 bits it compares the low halves.
pub fn holds_words(condition: Condition, width: Width, a: u64, b: u64) -> bool
    ensures { result ≡ holds_words condition width a b }
{
    holds_low(condition, width, low_part(width, a), low_part(width, b))
}
