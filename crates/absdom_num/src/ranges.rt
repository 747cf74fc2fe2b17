//! A range of words.

ghost use Rattle.std.specs.Prelude.{◌≡◌, ◌≤◌, ◌↔◌, IsTrue};
ghost use Rattle.absdom_num.specs.Ranges.{IsRange, IsIn, IsWithin, single_value, joined_ranges};

use std::marker::Model;

/// The words from a low end to a high end, both included, unsigned.
#[derive(Clone, Copy, Debug, PartialEq, Eq)]
pub struct Range {
    low: u64,
    high: u64,
}

impl Model for Range {
    ghost use Rattle.std.specs.Prelude.{ℕ, ◌≤◌};

    ghost Value = { ℕ × ℕ };

    ghost view = { λ r. (r.low, r.high) };

    ghost invariant = { λ r. r.low ≤ r.high };

    ghost inverse = { λ v. record { low = v.0; high = v.1 } };
}

impl Range {
    /// The range of one word.
    pub fn single(n: u64) -> Range
        ensures { result ≡ (n, n) }
    {
        Range { low: n, high: n }
    }

    /// The words from `low` to `high`. The condition is that they are in order.
    pub fn new(low: u64, high: u64) -> Range
        requires { low ≤ high }
        ensures { result ≡ (low, high) }
    {
        Range { low, high }
    }

    /// Every word.
    pub fn whole() -> Range
        ensures { result ≡ (0, u64.MAX) }
    {
        Range {
            low: 0,
            high: u64::MAX,
        }
    }

    /// The least word of the range.
    pub fn low(self) -> u64
        ensures value { result ≡ self.0 }
        ensures proper { IsRange self }
    {
        let _ = &self.high;
        self.low
    }

    /// The greatest word of the range.
    pub fn high(self) -> u64
        ensures value { result ≡ self.1 }
        ensures proper { IsRange self }
    {
        let _ = &self.low;
        self.high
    }

    /// The one word of the range, or `None` if there are more.
    pub fn single_value(self) -> Option<u64>
        ensures { result ≡ single_value self }
    {
        if self.low == self.high {
            Some(self.low)
        } else {
            None
        }
    }

    /// Whether the word lies in the range.
    pub fn contains(self, n: u64) -> bool
        ensures { IsTrue result ↔ IsIn n self }
    {
        self.low <= n && n <= self.high
    }

    /// The least range that has the words of both.
    pub fn join(self, other: Range) -> Range
        ensures { result ≡ joined_ranges self other }
    {
        Range {
            low: self.low.min(other.low),
            high: self.high.max(other.high),
        }
    }

    /// Whether every word of this range lies in the other.
    pub fn leq(self, other: Range) -> bool
        ensures { IsTrue result ↔ IsWithin self other }
    {
        other.low <= self.low && self.high <= other.high
    }
}
