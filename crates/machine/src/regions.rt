//! The memory that a program sees.

ghost use Rattle.std.specs.Prelude.{◌≡◌};
ghost use Rattle.machine.specs.Memory.{region_size};

/// How many bytes the stack has.
pub const STACK_SIZE: usize = 512;

/// A region of memory (a choice of this project; RFC 9669 leaves memory to the runtime).
#[derive(Clone, Copy, Debug, PartialEq, Eq)]
pub enum Region {
    /// The first 4 bytes of a command's header, at offsets 0 to 3.
    Front,
    /// The last 12 bytes of a command's header, at offsets 0 to 11.
    Tail,
    /// The stack of 512 bytes, at offsets -512 to -1 (a choice of this project).
    Stack,
}

impl Region {
    /// How many bytes the region has: 4, 12 or 512.
    pub fn size(self) -> usize
        ensures { result ≡ region_size self }
    {
        match self {
            Region::Front => 4,
            Region::Tail => 12,
            Region::Stack => STACK_SIZE,
        }
    }
}
