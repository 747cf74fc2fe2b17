//! Arithmetic on kinds (RFC 9669, section 4.1).

ghost use Rattle.std.specs.Prelude.{◌≡◌, ◌+◌, ◌^◌, ◌≤ℤ◌, ◌+ℤ◌, ◌-ℤ◌, pos, negsuc, Ok, IfSome};
ghost use Rattle.machine.specs.Words.{word};
ghost use Rattle.absdom_num.specs.Tables.{negated_range, extended_range, swapped_range, single_range};
ghost use Rattle.absdom.specs.Kinds.{number_of};
ghost use Rattle.absdom.specs.Effect.{binary_kind, unary_kind, copied_kind, signed_ends, pointer_kind, offsets_up, offsets_down, pointer_up, pointer_down, sum_kind, difference_kind, alu_kind};

use crate::cause::Cause;
use crate::kinds::AbsKind;
use crate::offsets::Offsets;
use absdom_num::Range;
use bpf_insn::{AluOp, Extension, Swap, SwapBits, Width};
use machine::Region;

/// An operation on two numbers.
fn compute(op: AluOp, width: Width, a: &AbsKind, b: &AbsKind) -> Result<AbsKind, Cause>
    ensures { result ≡ binary_kind op width (number_of a.now) (number_of b.now) }
{
    let a = a.number()?;
    let b = b.number()?;
    Ok(AbsKind::Num(absdom_num::alu(op, width, a, b)))
}

/// MOV: in ALU64 it copies pointers and maps too.
fn copy(width: Width, source: &AbsKind) -> Result<AbsKind, Cause>
    ensures { result ≡ copied_kind width source.now }
{
    match source {
        AbsKind::Unset => Err(Cause::UnsetOperand),
        AbsKind::Num(a) => Ok(AbsKind::Num(absdom_num::alu(AluOp::Mov, width, *a, *a))),
        AbsKind::Ptr(region, offsets) => match width {
            Width::Bits32 => Err(Cause::KindMismatch),
            Width::Bits64 => Ok(AbsKind::Ptr(*region, *offsets)),
        },
        AbsKind::Map(index) => match width {
            Width::Bits32 => Err(Cause::KindMismatch),
            Width::Bits64 => Ok(AbsKind::Map(*index)),
        },
    }
}

/// The ends of a range whose numbers, read as signed, have one sign.
fn signed(range: Range) -> Option<(i64, i64)>
    ensures value { result ≡ signed_ends range }
    ensures ordered { IfSome result (λ ends. ends.0 ≤ℤ ends.1) }
{
    let (low, high) = (range.low(), range.high());
    if high < 1 << 63 || low >= 1 << 63 {
        Some((low.cast_signed(), high.cast_signed()))
    } else {
        None
    }
}

/// An offset plus a number.
fn sum(offset: i32, number: i64) -> i128
    ensures { result ≡ offset +ℤ number }
{
    i128::from(offset) + i128::from(number)
}

/// An offset minus a number.
fn difference(offset: i32, number: i64) -> i128
    ensures { result ≡ offset -ℤ number }
{
    i128::from(offset) - i128::from(number)
}

/// The offsets after a number from `least` to `greatest` is added.
fn up(offsets: Offsets, least: i64, greatest: i64) -> Option<Offsets>
    requires { least ≤ℤ greatest }
    ensures { result ≡ offsets_up offsets (Some (least, greatest)) }
{
    let low = sum(offsets.low(), least);
    let high = sum(offsets.high(), greatest);
    Offsets::within(low, high)
}

/// The offsets after a number from `least` to `greatest` is subtracted.
fn down(offsets: Offsets, least: i64, greatest: i64) -> Option<Offsets>
    requires { least ≤ℤ greatest }
    ensures { result ≡ offsets_down offsets (Some (least, greatest)) }
{
    let low = difference(offsets.low(), greatest);
    let high = difference(offsets.high(), least);
    Offsets::within(low, high)
}

/// A pointer plus a number.
fn add_to(region: Region, offsets: Offsets, source: &AbsKind) -> Result<AbsKind, Cause>
    ensures { result ≡ pointer_up region offsets (number_of source.now) }
{
    let range = source.number()?;
    let Some((least, greatest)) = signed(range) else {
        return Err(Cause::PointerRange);
    };
    match up(offsets, least, greatest) {
        Some(moved) => Ok(AbsKind::Ptr(region, moved)),
        None => Err(Cause::PointerRange),
    }
}

/// A pointer minus a number.
fn take_from(region: Region, offsets: Offsets, source: &AbsKind) -> Result<AbsKind, Cause>
    ensures { result ≡ pointer_down region offsets (number_of source.now) }
{
    let range = source.number()?;
    let Some((least, greatest)) = signed(range) else {
        return Err(Cause::PointerRange);
    };
    match down(offsets, least, greatest) {
        Some(moved) => Ok(AbsKind::Ptr(region, moved)),
        None => Err(Cause::PointerRange),
    }
}

/// ADD: in ALU64 it moves a pointer.
fn add(width: Width, a: &AbsKind, b: &AbsKind) -> Result<AbsKind, Cause>
    ensures { result ≡ sum_kind width a.now b.now }
{
    match width {
        Width::Bits32 => compute(AluOp::Add, Width::Bits32, a, b),
        Width::Bits64 => match a {
            AbsKind::Ptr(region, offsets) => add_to(*region, *offsets, b),
            _ => compute(AluOp::Add, Width::Bits64, a, b),
        },
    }
}

/// SUB: the difference of two numbers, or in 64 bits a pointer less a number.
fn subtract(width: Width, a: &AbsKind, b: &AbsKind) -> Result<AbsKind, Cause>
    ensures { result ≡ difference_kind width a.now b.now }
{
    match width {
        Width::Bits32 => compute(AluOp::Sub, Width::Bits32, a, b),
        Width::Bits64 => match a {
            AbsKind::Ptr(region, offsets) => take_from(*region, *offsets, b),
            _ => compute(AluOp::Sub, Width::Bits64, a, b),
        },
    }
}

/// What an operation on a destination and a source gives.
pub(crate) fn alu(op: AluOp, width: Width, a: &AbsKind, b: &AbsKind) -> Result<AbsKind, Cause>
    ensures { result ≡ alu_kind op width a.now b.now }
{
    match op {
        AluOp::Mov => copy(width, b),
        AluOp::Add => add(width, a, b),
        AluOp::Sub => subtract(width, a, b),
        _ => compute(op, width, a, b),
    }
}

/// NEG: a number with the other sign.
pub(crate) fn negate(width: Width, a: &AbsKind) -> Result<AbsKind, Cause>
    ensures { result ≡ unary_kind (negated_range width) (number_of a.now) }
{
    Ok(AbsKind::Num(absdom_num::negate(width, a.number()?)))
}

/// MOVSX: the low bits of a number, sign-extended.
pub(crate) fn move_signed(extension: Extension, source: &AbsKind) -> Result<AbsKind, Cause>
    ensures { result ≡ unary_kind (extended_range extension) (number_of source.now) }
{
    Ok(AbsKind::Num(absdom_num::move_signed(extension, source.number()?)))
}

/// END: the low bits of a number, with their bytes in that order.
pub(crate) fn byte_swap(swap: Swap, bits: SwapBits, a: &AbsKind) -> Result<AbsKind, Cause>
    ensures { result ≡ unary_kind (swapped_range swap bits) (number_of a.now) }
{
    Ok(AbsKind::Num(absdom_num::byte_swap(swap, bits, a.number()?)))
}
