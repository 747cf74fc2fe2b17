//! Why a program is refused.

ghost use Rattle.std.specs.Prelude.{◌≡◌, ◌≤◌, Some, IfSome};
ghost use Rattle.bver_form.specs.Codes.{refusal_code, refusal_of_code};

use thiserror::Error;

const TARGET: &str = "\
A jump must land on the first slot of an instruction of the program. `lddw`, `ldmap` and `ldimm` have two
slots, and a distance counts slots, from the one after the jump.
Give the target a name in the text, so that the assembler counts; a distance that was written by hand leads
elsewhere.";

const BACK_JUMP: &str = "\
Every jump leads forward, except the last instruction of a declared loop. A jump to its own slot leads backward
too.
Declare the loop by a line `.loop HEAD, BACK, N, rK`, or turn the branch round so that it leads forward.";

const LOOP_SHAPE: &str = "\
A declared loop ends in `add r, -1` and `jne r, 0, HEAD`, where r is its counter. Nothing else in it writes r,
and a call writes r0 to r5. No jump leads to its end, and none from outside into it except to its head. Two loops
lie apart, or one inside the other.
Take the counter from r6 to r9, let what skips the rest of a round jump to the `add`, and compare HEAD and BACK
with the slots that `rmapctl dis --slots` prints.";

const LOOP_ENTRY: &str = "\
If a run comes to a loop from outside, its counter must be a number from 1 to N, the bound in `.loop`,
whatever was done before.
Set the counter to a number from 1 to N right before the head, or test it there.";

const UNSET: &str = "\
On some way to this slot nothing wrote the register that the instruction reads. At entry r1, r2, r3 and r10 are
set, and no other; a call of a helper unsets r1 to r5.
Write the register before the branch, or on each way to this slot.";

const KIND_MISMATCH: &str = "\
Pointers and maps can be copied and pointers moved by a number; all else wants numbers, as arithmetic,
comparisons, `exit` and the key in r2. What is a pointer on one way to a slot and a number on another is neither
there.
Use a register for only one kind of value, and load through the pointer before you compute.";

const OUT_OF_REGION: &str = "\
The front of the header has the 4 bytes from `[r1+0]`, its tail the 12 bytes from `[r2+0]`, and the stack the 512
bytes below r10, from `[r10-512]`. An access must lie inside wherever the pointer may point.
Count from the first byte of the region, and test an offset that was computed before you add it to the pointer.";

const UNSET_STACK: &str = "\
Each byte of the stack that a load reads must have been written on every way to it. A store through a pointer
whose offset may be one of several numbers sets none.
Store the bytes before the branch, or on each way, and at an offset that is one number.";

const HEADER_WRITE: &str = "\
The front and the tail of the header are only read; a program stores to its stack and to nothing else.
Store to `[r10-N]`, and load it from there again.";

const FRAME_WRITE: &str = "\
r10 is the end of the stack as long as the program runs, and no instruction may write it.
Copy it by `mov rK, r10`, and move the copy.";

const POINTER_RANGE: &str = "\
A pointer moves at most 65,536 bytes away from its region, and by a number of which it is known that it is not
negative, or that it is.
Test the number before it is added: after `jgt rK, 100, ..` it is at most 100.";

const MAP_KEY: &str = "\
The map of `ldmap` must be one of `--maps`, which count from 0, and the key in r2 must be less than its number
of cells.
Give the node the map, or test r2 by `jlt` before the call.";

const HELPER: &str = "\
A program may call helper 1, which answers a cell's count, and helper 2, which draws a ticket from it; in version
2 of the format also helper 3, which raises a cell to the number in r3.
Call 1 or 2, or begin the text with `.version 2` and call 3: r1 is the map and r2 the key, and the answer is in
r0.";

const FALL_OFF: &str = "\
A run that does not jump comes to the end of the program, and the last instruction must end it.
End the program with `exit`.";

const BUDGET: &str = "\
The weight of a program is how many steps a run of it may take: each instruction counts once, or in loops once
for each round of them. It must not be above the budget that the program declares.
Raise `.budget` to the weight, at most 65,536, or make loops shorter.";

const UNSUPPORTED: &str = "\
This target runs no calls within a program, no calls by a BTF number and no addresses of `ldimm`. Its maps are
reached only by `ldmap` and the helpers.
Write the program without them.";

const MEMORY: &str = "\
The process was refused memory while the program was verified. It says nothing of the program.
Give the process more memory, and verify the program again.";

const MAP_KIND: &str = "\
Helper 1 may be asked of every map, helper 2 only of counter maps, and helper 3 only of peak maps. In `--maps` a
size with a `p` after it is a peak map.
Call the helper that fits the map, or give the node a map of the other kind.";

/// What a program does that is not allowed.
#[derive(Clone, Copy, Debug, PartialEq, Eq, Error)]
pub enum Refusal {
    /// A jump leads outside the code, or to the second slot of an instruction.
    #[error("a jump leads outside the code or into an instruction")]
    Target,
    /// A jump leads backward, or to its own slot, and is not the back jump of a declared loop.
    #[error("a backward jump is not that of a declared loop")]
    BackJump,
    /// The slots of a declared loop do not count its register down and jump back.
    #[error("a declared loop does not have the shape of a loop")]
    LoopShape,
    /// A loop may begin with a counter outside its bound.
    #[error("a loop may begin with a counter outside its bound")]
    LoopEntry,
    /// An operand may be unset.
    #[error("an operand may be unset")]
    Unset,
    /// An operand may be of the wrong kind.
    #[error("an operand may be of the wrong kind")]
    KindMismatch,
    /// An access may lie outside its region.
    #[error("an access may lie outside its region")]
    OutOfRegion,
    /// A stack byte that is loaded may be unset.
    #[error("a stack byte that is loaded may be unset")]
    UnsetStack,
    /// A store may be to a header region.
    #[error("a store may be to a header region")]
    HeaderWrite,
    /// The program writes the frame pointer r10.
    #[error("the frame pointer is written")]
    FrameWrite,
    /// A pointer may move too far, or by a number of unknown sign.
    #[error("a pointer may be moved too far")]
    PointerRange,
    /// A map does not exist, or a key may lie outside its map.
    #[error("a map does not exist, or a key may lie outside it")]
    MapKey,
    /// A call is to a number that is that of no helper, or of one that the version of the format does not have.
    #[error("a call is to an unknown helper")]
    Helper,
    /// The last instruction is no exit.
    #[error("the last instruction is no exit")]
    FallOff,
    /// The program's weight is above its budget.
    #[error("the weight is above the budget")]
    Budget,
    /// An instruction is not supported.
    #[error("an instruction is not supported")]
    Unsupported,
    /// Memory was refused.
    #[error("no memory")]
    Memory,
    /// The program asks a helper of a map of the other kind.
    #[error("a helper is asked of a map of the other kind")]
    MapKind,
}

impl Refusal {
    /// The number by which outputs name the refusal, 1 to 18 in the order of the variants.
    pub fn code(self) -> u8
        ensures value { result ≡ refusal_code self }
        ensures back { refusal_of_code result ≡ Some self }
    {
        match self {
            Refusal::Target => 1,
            Refusal::BackJump => 2,
            Refusal::LoopShape => 3,
            Refusal::LoopEntry => 4,
            Refusal::Unset => 5,
            Refusal::KindMismatch => 6,
            Refusal::OutOfRegion => 7,
            Refusal::UnsetStack => 8,
            Refusal::HeaderWrite => 9,
            Refusal::FrameWrite => 10,
            Refusal::PointerRange => 11,
            Refusal::MapKey => 12,
            Refusal::Helper => 13,
            Refusal::FallOff => 14,
            Refusal::Budget => 15,
            Refusal::Unsupported => 16,
            Refusal::Memory => 17,
            Refusal::MapKind => 18,
        }
    }

    /// The refusal of a number, as [`Refusal::code`] gives it, or `None` if no refusal has it.
    pub fn from_code(code: u8) -> Option<Refusal>
        ensures value { result ≡ refusal_of_code code }
        ensures number { IfSome result (λ refusal. refusal_code refusal ≡ code) }
    {
        match code {
            1 => Some(Refusal::Target),
            2 => Some(Refusal::BackJump),
            3 => Some(Refusal::LoopShape),
            4 => Some(Refusal::LoopEntry),
            5 => Some(Refusal::Unset),
            6 => Some(Refusal::KindMismatch),
            7 => Some(Refusal::OutOfRegion),
            8 => Some(Refusal::UnsetStack),
            9 => Some(Refusal::HeaderWrite),
            10 => Some(Refusal::FrameWrite),
            11 => Some(Refusal::PointerRange),
            12 => Some(Refusal::MapKey),
            13 => Some(Refusal::Helper),
            14 => Some(Refusal::FallOff),
            15 => Some(Refusal::Budget),
            16 => Some(Refusal::Unsupported),
            17 => Some(Refusal::Memory),
            18 => Some(Refusal::MapKind),
            _ => None,
        }
    }

    /// What to say of the refusal beside its name: when it comes, and what to do. The lines have at most 114 columns.
    pub fn advice(self) -> &'static str {
        match self {
            Refusal::Target => TARGET,
            Refusal::BackJump => BACK_JUMP,
            Refusal::LoopShape => LOOP_SHAPE,
            Refusal::LoopEntry => LOOP_ENTRY,
            Refusal::Unset => UNSET,
            Refusal::KindMismatch => KIND_MISMATCH,
            Refusal::OutOfRegion => OUT_OF_REGION,
            Refusal::UnsetStack => UNSET_STACK,
            Refusal::HeaderWrite => HEADER_WRITE,
            Refusal::FrameWrite => FRAME_WRITE,
            Refusal::PointerRange => POINTER_RANGE,
            Refusal::MapKey => MAP_KEY,
            Refusal::Helper => HELPER,
            Refusal::FallOff => FALL_OFF,
            Refusal::Budget => BUDGET,
            Refusal::Unsupported => UNSUPPORTED,
            Refusal::Memory => MEMORY,
            Refusal::MapKind => MAP_KIND,
        }
    }
}

/// The refusal of a program, and its slot. The slot is 0 if the refusal is of the whole.
#[derive(Clone, Copy, Debug, PartialEq, Eq, Error)]
#[error("{code} at slot {slot}")]
pub struct Refused {
    pub code: Refusal,
    pub slot: u16,
}

impl Refused {
    /// The number by which outputs name the refusal, 1 to 18.
    pub fn number(self) -> u8
        ensures { result ≡ refusal_code self.code }
    {
        Refusal::code(self.code)
    }
}
