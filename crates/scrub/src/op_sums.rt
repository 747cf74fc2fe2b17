//! Sums of operations.

ghost use Rattle.std.specs.Prelude.{◌≡◌};
ghost use Rattle.scrub.specs.Numbers.{accessed_number, code_number};
ghost use Rattle.scrub.specs.Sums.{IsSummed, OneChangeIsSeen, after_op, head_sum_of, packed, sum_of};

use bver::{Accepted, Accessed, Code, Op};
use sums::{after_word, one_word_is_seen};

/// The number of a code, as it is in memory. It is no `match`, so that a byte that is none of the codes is a number,
/// too.
#[inline(always)]
fn code_number(code: Code) -> u8
    ensures { result ≡ code_number code }
{
    code as u8
}

/// The number of a region that is accessed, as it is in memory.
#[inline(always)]
fn accessed_number(accessed: Accessed) -> u8
    ensures { result ≡ accessed_number accessed }
{
    accessed as u8
}

/// Four bytes and two numbers of two bytes in one word.
#[inline(always)]
fn packed(code: u8, dst: u8, src: u8, accessed: u8, offset: u16, target: u16) -> u64
    ensures { result ≡ packed code dst src accessed offset target }
{
    let places = u64::from(target) * 65_536 + u64::from(offset);
    let registers = (places * 256 + u64::from(accessed)) * 256 + u64::from(src);
    (registers * 256 + u64::from(dst)) * 256 + u64::from(code)
}

/// The first word of an operation: all of it except its constant.
#[inline(always)]
fn head_sum_of(op: &Op) -> u64
    ensures { result ≡ head_sum_of op.now }
{
    packed(
        code_number(op.code),
        op.dst.number(),
        op.src.number(),
        accessed_number(op.accessed),
        op.offset.cast_unsigned(),
        op.target,
    )
}

/// The sum after one more operation.
#[inline(always)]
fn after_op(sum: u64, op: &Op) -> u64
    ensures { result ≡ after_op sum op.now }
{
    after_word(after_word(sum, head_sum_of(op)), op.constant)
}

/// The sum of a list of operations.
fn sum_of(operations: &[Op]) -> u64
    ensures { result ≡ sum_of operations.now }
{
    let mut sum = 0;
    for op in operations {
        sum = after_op(sum, op);
    }
    sum
}

/// The sum of the operations by which a program is run.
pub(crate) fn program_sum(program: &Accepted) -> u64
    ensures { IsSummed program.now result }
{
    sum_of(program.operations())
}

/// A law and no work: two lists of operations that differ in one word of one operation have different sums. So one
/// changed bit is seen, too.
pub fn one_change_is_seen()
    ensures { OneChangeIsSeen }
{
    one_word_is_seen();
}
