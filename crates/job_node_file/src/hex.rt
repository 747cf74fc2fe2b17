//! Numbers in hexadecimal digits.

ghost use Rattle.std.specs.Prelude.{Some};
ghost use Rattle.job_node_file.specs.Headers.{hex};

use std::fmt;

/// A byte that is printed as two hexadecimal digits.
#[derive(Clone, Copy, Debug)]
pub struct TwoDigits(pub u8);

impl fmt::Display for TwoDigits {
    ghost output = { λ own. Some (hex 2 own.0) };

    fn fmt<W: fmt::Write>(&self, f: &mut fmt::Formatter<W>) -> fmt::Result {
        let value = self.0;
        write!(f, "{value:02X}")
    }
}

/// An address that is printed as eight hexadecimal digits.
#[derive(Clone, Copy, Debug)]
pub struct EightDigits(pub u32);

impl fmt::Display for EightDigits {
    ghost output = { λ own. Some (hex 8 own.0) };

    fn fmt<W: fmt::Write>(&self, f: &mut fmt::Formatter<W>) -> fmt::Result {
        let value = self.0;
        write!(f, "{value:08X}")
    }
}
