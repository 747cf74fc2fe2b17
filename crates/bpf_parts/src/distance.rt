//! How far jumps go.

ghost use Rattle.std.specs.Prelude.{◌≡◌};
ghost use Rattle.bpf_parts.specs.Operands.{distance_of, IsDistance};

/// How far an unconditional jump goes, in slots from the next one: by the offset field (class JMP)
/// or by the immediate (class JMP32).
#[derive(Clone, Copy, Debug, PartialEq, Eq)]
pub enum Distance {
    Short(i16),
    Long(i32),
}

impl Distance {
    /// The distance, in slots from the next one.
    pub fn slots(self) -> i32
        ensures value { result ≡ distance_of self }
        ensures limits { IsDistance self }
    {
        match self {
            Distance::Short(offset) => i32::from(offset),
            Distance::Long(slots) => slots,
        }
    }
}
