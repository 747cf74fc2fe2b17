//! A register of the machine.

ghost use Rattle.std.specs.Prelude.{◌≡◌, ◌≤◌};
ghost use Rattle.std.specs.Option.{SomeIff};

use std::marker::Model;

/// How many registers there are: r0 to r10.
pub const REGISTERS: usize = 11;

/// The number of the frame pointer, which no instruction may write.
pub const FRAME_POINTER: u8 = 10;

/// One of the registers r0 to r10 (RFC 9669, section 3.1). r10 is the read-only frame pointer.
#[derive(Clone, Copy, Debug, PartialEq, Eq)]
pub struct Register {
    number: u8,
}

impl Model for Register {
    ghost use Rattle.std.specs.Prelude.{ℕ, ◌≤◌};

    ghost Value = { ℕ };

    ghost view = { λ r. r.number };

    ghost invariant = { λ r. r.number ≤ 10 };

    ghost inverse = { λ n. record { number = n } };
}

impl Register {
    /// The register of this number, or `None` for a number above 10.
    pub fn new(number: u8) -> Option<Register>
        ensures { SomeIff result (number ≤ 10) number }
    {
        if number <= 10 {
            Some(Register { number })
        } else {
            None
        }
    }

    /// The number of the register, 0 to 10.
    pub fn number(self) -> u8
        ensures value { result ≡ self }
        ensures bound { result ≤ 10 }
    {
        self.number
    }
}
