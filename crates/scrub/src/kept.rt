//! What is kept of the program of a slot.

ghost use Rattle.std.specs.Prelude.{◌≡◌, ◌<◌, Some, slice_get, slice_set};
ghost use Rattle.scrub.specs.Kept.{closed_in, fresh_sums, has_sum, is_open, withdrawn_sums};

/// What is in `mark` of a slot whose program may judge. A slot that is withdrawn has 0 there. The two differ in 16
/// bits, and a mark means the nearer of them. So up to seven bits that flip change nothing, and eight withdraw the
/// slot.
pub const OPEN: u32 = 0x5A3C_96E1;

/// What is kept of the program of a slot: the sum of its operations, twice, and whether the slot is withdrawn.
#[derive(Clone, Copy, Debug, PartialEq, Eq)]
pub struct SlotSums {
    /// The sum.
    pub first: u64,
    /// The sum again. A program is whole if it has one of the two, so a sum that changes withdraws no program.
    pub second: u64,
    /// [`OPEN`], or 0 if the slot is withdrawn.
    pub mark: u32,
}

impl SlotSums {
    /// What is kept of a program with that sum, which may judge.
    pub(crate) fn of(sum: u64) -> SlotSums
        ensures { result ≡ fresh_sums sum }
    {
        SlotSums {
            first: sum,
            second: sum,
            mark: OPEN,
        }
    }

    /// The same, and the slot is withdrawn.
    pub(crate) fn withdrawn(self) -> SlotSums
        ensures { result ≡ withdrawn_sums self }
    {
        SlotSums {
            first: self.first,
            second: self.second,
            mark: 0,
        }
    }

    /// Whether the slot's program may judge: its mark is nearer to [`OPEN`] than to 0.
    pub(crate) fn is_open(&self) -> bool
        ensures { result ≡ is_open self.now }
    {
        (self.mark ^ OPEN).count_ones() < self.mark.count_ones()
    }

    /// Whether a sum is one of those that are kept.
    pub(crate) fn has(&self, sum: u64) -> bool
        ensures { result ≡ has_sum self.now sum }
    {
        sum == self.first || sum == self.second
    }
}

/// What is kept of the program of a slot. The condition is a slot below 4.
pub(crate) fn sums_at(sums: &[SlotSums; 4], slot: u8) -> SlotSums
    requires { slot < 4 }
    ensures { slice_get sums.now slot ≡ Some result }
{
    sums[usize::from(slot)]
}

/// Keeps these sums of the program of a slot. The condition is a slot below 4.
pub(crate) fn set_sums(sums: &mut [SlotSums; 4], slot: u8, new: SlotSums)
    requires { slot < 4 }
    ensures { sums.new ≡ slice_set sums.old slot new }
{
    sums[usize::from(slot)] = new;
}

/// Whether a slot is withdrawn.
pub(crate) fn is_closed_at(sums: &[SlotSums; 4], slot: u8) -> bool
    ensures { result ≡ closed_in (slice_get sums.now slot) }
{
    match sums.get(usize::from(slot)) {
        Some(kept) => !kept.is_open(),
        None => false,
    }
}
