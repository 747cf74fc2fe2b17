//! Arithmetic on values (RFC 9669, section 4.1): words, and the moves of pointers.

ghost use Rattle.std.specs.Prelude.{◌≡◌, ◌^◌};
ghost use Rattle.stepper.specs.Near.{IsNear};
ghost use Rattle.machine.specs.Words.{negation, sign_extension, swapped_bytes};
ghost use Rattle.machine.specs.Step.{number, number_result, copied_value, moved_value, moved_pointer, alu};

use bpf_insn::{AluOp, Extension, Swap, SwapBits, Width};
use machine::{Region, Value, alu_words, low_part, negation, sign_extension, swapped_bytes};

/// The number that a value is, or `None` for another kind of value.
pub fn number(value: Value) -> Option<u64>
    ensures { result ≡ number value }
{
    match value {
        Value::Num(n) => Some(n),
        Value::Unset | Value::Ptr { .. } | Value::Map(_) => None,
    }
}

/// MOV: at 64 bits it copies pointers and maps too.
fn copied_value(width: Width, value: Value) -> Option<Value>
    ensures { result ≡ copied_value width value }
{
    match value {
        Value::Unset => None,
        Value::Num(n) => Some(Value::Num(low_part(width, n))),
        Value::Ptr { .. } | Value::Map(_) => match width {
            Width::Bits32 => None,
            Width::Bits64 => Some(value),
        },
    }
}

/// What an operation does whose destination may not be a number: only MOV gives anything.
fn moved_value(op: AluOp, width: Width, value: Value) -> Option<Value>
    ensures { result ≡ moved_value op width value }
{
    match op {
        AluOp::Mov => copied_value(width, value),
        _ => None,
    }
}

/// ADD and SUB at 64 bits move a pointer by a number that is read as signed.
fn moved_pointer(op: AluOp, region: Region, offset: i128, n: u64) -> Option<Value>
    requires { IsNear (2 ^ 126) (Value.Ptr region offset) }
    ensures { result ≡ moved_pointer op region offset n }
{
    let by = i128::from(n.cast_signed());
    match op {
        AluOp::Add => Some(Value::Ptr {
            region,
            offset: offset + by,
        }),
        AluOp::Sub => Some(Value::Ptr {
            region,
            offset: offset - by,
        }),
        AluOp::Mov => Some(Value::Num(n)),
        _ => None,
    }
}

/// An operation on a destination and a source. `None` is a trap.
pub fn alu(op: AluOp, width: Width, dst: Value, src: Value) -> Option<Value>
    requires { IsNear (2 ^ 126) dst }
    ensures { result ≡ alu op width dst src }
{
    match dst {
        Value::Num(a) => match src {
            Value::Num(b) => Some(Value::Num(alu_words(op, width, a, b))),
            Value::Unset | Value::Ptr { .. } | Value::Map(_) => moved_value(op, width, src),
        },
        Value::Ptr { region, offset } => match src {
            Value::Num(n) => match width {
                Width::Bits32 => moved_value(op, width, src),
                Width::Bits64 => moved_pointer(op, region, offset, n),
            },
            Value::Unset | Value::Ptr { .. } | Value::Map(_) => moved_value(op, width, src),
        },
        Value::Unset | Value::Map(_) => moved_value(op, width, src),
    }
}

/// NEG of a value. `None` is a trap.
pub fn negate(width: Width, value: Value) -> Option<Value>
    ensures { result ≡ number_result (negation width) value }
{
    match value {
        Value::Num(n) => Some(Value::Num(negation(width, n))),
        Value::Unset | Value::Ptr { .. } | Value::Map(_) => None,
    }
}

/// MOVSX of a value. `None` is a trap.
pub fn move_signed(extension: Extension, value: Value) -> Option<Value>
    ensures { result ≡ number_result (sign_extension extension) value }
{
    match value {
        Value::Num(n) => Some(Value::Num(sign_extension(extension, n))),
        Value::Unset | Value::Ptr { .. } | Value::Map(_) => None,
    }
}

/// END of a value. `None` is a trap.
pub fn byte_swap(swap: Swap, bits: SwapBits, value: Value) -> Option<Value>
    ensures { result ≡ number_result (swapped_bytes swap bits) value }
{
    match value {
        Value::Num(n) => Some(Value::Num(swapped_bytes(swap, bits, n))),
        Value::Unset | Value::Ptr { .. } | Value::Map(_) => None,
    }
}
