//! The offsets that a pointer may have.

ghost use Rattle.std.specs.Prelude.{◌≡◌, ◌↔◌, ◌≤ℤ◌, IsTrue, pos};
ghost use Rattle.absdom.specs.Offsets.{joined_offsets, AreAmong, offsets_within, IsOffset};

use std::marker::Model;

/// The greatest distance of a pointer from offset 0 of its region.
const LIMIT: i32 = 65_536;

/// The least and the greatest offset of a pointer, in order, each within -65,536 to 65,536. They are in bytes from
/// the beginning of its region, and for the stack from its end.
#[derive(Clone, Copy, Debug, PartialEq, Eq)]
pub struct Offsets {
    low: i32,
    high: i32,
}

impl Model for Offsets {
    ghost use Rattle.std.specs.Prelude.{ℤ};
    ghost use Rattle.absdom.specs.Offsets.{AreOffsets};

    ghost Value = { ℤ × ℤ };

    ghost view = { λ o. (o.low, o.high) };

    ghost invariant = { λ o. AreOffsets o.low o.high };

    ghost inverse = { λ d. record { low = d.0; high = d.1 } };
}

impl Offsets {
    /// Only offset 0: the first byte of a region of the header, or the end of the stack.
    pub fn zero() -> Offsets
        ensures { result ≡ (pos 0, pos 0) }
    {
        Offsets { low: 0, high: 0 }
    }

    /// The offsets from `low` to `high`. The condition is that they are in order. It is `None` if one of them is
    /// outside -65,536 to 65,536.
    pub fn within(low: i128, high: i128) -> Option<Offsets>
        requires { low ≤ℤ high }
        ensures { result ≡ offsets_within low high }
    {
        let limit = i128::from(LIMIT);
        if -limit <= low && low <= limit && -limit <= high && high <= limit {
            Some(Offsets {
                low: low as i32,
                high: high as i32,
            })
        } else {
            None
        }
    }

    /// The least offset.
    pub fn low(self) -> i32
        ensures value { result ≡ self.0 }
        ensures within { IsOffset result }
        ensures ordered { self.0 ≤ℤ self.1 }
    {
        self.low
    }

    /// The greatest offset.
    pub fn high(self) -> i32
        ensures value { result ≡ self.1 }
        ensures within { IsOffset result }
        ensures ordered { self.0 ≤ℤ self.1 }
    {
        self.high
    }

    /// The smallest offsets that hold both.
    pub fn join(self, other: Offsets) -> Offsets
        ensures { result ≡ joined_offsets self other }
    {
        Offsets {
            low: self.low.min(other.low),
            high: self.high.max(other.high),
        }
    }

    /// Whether these offsets are among the others.
    pub fn leq(self, other: Offsets) -> bool
        ensures { IsTrue result ↔ AreAmong self other }
    {
        other.low <= self.low && self.high <= other.high
    }
}
