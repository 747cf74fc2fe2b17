//! Stretches of addresses.

ghost use Rattle.std.specs.Prelude.{◌≡◌, ℕ, ◌&&◌, MatchBool, max, min, nat_lt, not};
ghost use Rattle.regions.specs.Points.{HasEachAddress, HaveNoAddress, lies_on};

/// The addresses from one to before another; none, if that is not greater.
#[derive(Clone, Copy, Debug, PartialEq, Eq)]
pub struct Stretch {
    /// The first address.
    pub start: u64,
    /// The address after the last.
    pub end: u64,
}

impl Stretch {
    /// Those that are not below an address.
    pub fn from(self, start: u64) -> Stretch
        ensures start { result.start ≡ max self.start start }
        ensures end { result.end ≡ self.end }
    {
        Stretch {
            start: self.start.max(start),
            end: self.end,
        }
    }

    /// Those that are below an address.
    pub fn below(self, end: u64) -> Stretch
        ensures start { result.start ≡ self.start }
        ensures end { result.end ≡ min self.end end }
    {
        Stretch {
            start: self.start,
            end: self.end.min(end),
        }
    }

    /// Whether an address may lie on both.
    pub(crate) fn may_meet(self, other: Stretch) -> bool
        ensures { MatchBool result (Unit {0}) (HaveNoAddress self other) }
    {
        self.start < other.end && other.start < self.end
    }

    /// Whether each address of it lies on the other.
    #[tactic(auto, using(crate::proofs::Within::each_address))]
    pub(crate) fn is_within(self, other: Stretch) -> bool
        ensures { MatchBool result (HasEachAddress self other) (Unit {0}) }
    {
        other.start <= self.start && self.end <= other.end
    }
}
