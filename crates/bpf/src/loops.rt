//! The loops of an image.

ghost use Rattle.std.specs.Prelude.{◌≡◌, ◌≤◌, ◌*◌, ◌++◌, ◌↔◌, IsTrue, length, take, IfOk, OnOk};
ghost use Rattle.bpf.specs.Program.{IsLoop, AreLoops, loop_bytes};
ghost use Rattle.std.specs.List.{flat_map};
ghost use Rattle.bpf.specs.Reading.{Gives, are_loops, is_loop, loop_in, loops_in, loops_reading};

use crate::fault::ImageFault;
use bpf_insn::{FRAME_POINTER, Register};
use std::alloc::{AllocError, Global};

/// The greatest bound of a loop.
pub const MAX_BOUND: u16 = 4_096;

/// A loop that an image declares: the slots `head` to `back`, which a run passes at most `bound` times in a row.
/// `register` counts the passes down to zero.
#[derive(Clone, Copy, Debug, PartialEq, Eq)]
pub struct Loop {
    pub head: u16,
    pub back: u16,
    /// 1 to 4,096.
    pub bound: u16,
    /// r0 to r9.
    pub register: Register,
}

impl Loop {
    /// Whether the loop is within the limits of an image of `slots` slots. Its head must be before its back, that
    /// before the end, its bound 1 to 4,096, and its register r0 to r9.
    pub fn fits(&self, slots: u16) -> bool
        ensures value { result ≡ is_loop slots self.now }
        ensures exact { IsTrue result ↔ IsLoop slots self.now }
    {
        self.head < self.back
            && self.back < slots
            && 1 <= self.bound
            && self.bound <= MAX_BOUND
            && self.register.number() < FRAME_POINTER
    }
}

/// The loops that the bytes spell, 8 bytes each, in an image of `slots` slots.
///
/// # Errors
///
/// `Loop` if a loop is out of the limits, or if the heads do not rise. `Memory` if memory is refused.
#[tactic(auto, unfolding(crate::specs::Reading::loops_reading))]
pub fn read_loops(
    alloc: Global,
    bytes: &[u8],
    count: u8,
    slots: u16,
) -> Result<Vec<Loop>, ImageFault>
    requires { length bytes.now ≡ 8 * count }
    ensures value { Gives (λ v. v.items) result (loops_reading slots count bytes.now) }
    ensures loops { IfOk result (λ loops. AreLoops slots 0 loops.items) }
    ensures length { IfOk result (λ loops. length loops.items ≡ count) }
    ensures spelled { IfOk result (λ loops. bytes.now ≡ flat_map loop_bytes loops.items) }
{
    let loops = parse_loops(alloc, bytes, count)?;
    if are_loops(slots, &loops) {
        Ok(loops)
    } else {
        Err(ImageFault::Loop)
    }
}

/// `count` loops, 8 bytes each, whatever their slots and bounds are.
fn parse_loops(alloc: Global, bytes: &[u8], count: u8) -> Result<Vec<Loop>, ImageFault>
    requires { length bytes.now ≡ 8 * count }
    ensures value { Gives (λ v. v.items) result (loops_in count bytes.now) }
    ensures length { IfOk result (λ loops. length loops.items ≡ count) }
    ensures spelled { IfOk result (λ loops. bytes.now ≡ flat_map loop_bytes loops.items) }
{
    let mut loops = Vec::with_capacity(alloc, usize::from(count))?;
    let mut rest = bytes;
    for _ in 0..count {
        let (_, after) = rest.split_at(8);
        let found = parse_loop(rest)?;
        loops.push(found)?;
        rest = after;
    }
    Ok(loops)
}

/// The loop in the first 8 bytes: its fields, and a zero after them.
#[tactic(auto, unfolding(crate::specs::Reading::loop_in))]
fn parse_loop(bytes: &[u8]) -> Result<Loop, ImageFault>
    requires { 8 ≤ length bytes.now }
    ensures value { result ≡ loop_in bytes.now }
    ensures spelled { IfOk result (λ l. take 8 bytes.now ≡ loop_bytes l) }
{
    let register = Register::new(bytes[6]).ok_or(ImageFault::Loop)?;
    if bytes[7] != 0 {
        return Err(ImageFault::Loop);
    }
    Ok(Loop {
        head: u16::from_le_bytes([bytes[0], bytes[1]]),
        back: u16::from_le_bytes([bytes[2], bytes[3]]),
        bound: u16::from_le_bytes([bytes[4], bytes[5]]),
        register,
    })
}

/// Whether the loops are within the limits of an image of `slots` slots, and their heads rise.
pub fn are_loops(slots: u16, loops: &[Loop]) -> bool
    ensures { result ≡ are_loops slots 0 loops.now }
{
    let mut least = 0;
    for found in loops {
        if found.head < least || !found.fits(slots) {
            return false;
        }
        least = found.head + 1;
    }
    true
}

/// Appends the bytes of the loops.
///
/// # Errors
///
/// Memory is refused.
pub fn write_loops(bytes: &mut Vec<u8>, loops: &[Loop]) -> Result<(), AllocError>
    ensures { OnOk result (bytes.new.items ≡ bytes.old.items ++ flat_map loop_bytes loops.now) }
{
    for found in loops {
        bytes.extend_from_slice(&loop_bytes(found))?;
    }
    Ok(())
}

/// The bytes of the loop.
fn loop_bytes(found: &Loop) -> [u8; 8]
    ensures { result ≡ loop_bytes found.now }
{
    let [h0, h1] = found.head.to_le_bytes();
    let [b0, b1] = found.back.to_le_bytes();
    let [n0, n1] = found.bound.to_le_bytes();
    [h0, h1, b0, b1, n0, n1, found.register.number(), 0]
}
