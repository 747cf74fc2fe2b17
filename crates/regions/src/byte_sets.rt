//! Sets of bytes.

ghost use Rattle.std.specs.Prelude.{◌≡◌, ◌<◌, ◌==◌, ◌^◌, ◌&&◌, ◌||◌, ℕ, MatchBool, MatchOption, false, not, true};
ghost use Rattle.regions.specs.ByteSets.{HasEachByte, HaveNoByte, IsLeastByte, IsLowest, are_same_bytes, has_bit, has_byte};

/// How many bits a half has.
const HALF: u8 = 128;

/// A set of bytes: a bit for each of the lower 128, and for each of the higher.
#[derive(Clone, Copy, Debug, PartialEq, Eq)]
pub struct ByteSet {
    low: u128,
    high: u128,
}

/// The only bit of a half that is set.
fn bit(place: u8) -> u128
    requires { place < HALF }
    ensures { result ≡ 2 ^ place }
{
    1 << place
}

/// The place of the lowest bit of a half that is set.
fn lowest(half: u128) -> Option<u8>
    ensures { MatchOption result ((i : ℕ) → has_bit half i ≡ false)
        (IsLowest half) }
{
    if half == 0 {
        return None;
    }
    Some(half.trailing_zeros() as u8)
}

impl ByteSet {
    /// All bytes.
    pub fn all() -> ByteSet
        ensures { (byte : ℕ) → byte < 256 → has_byte result byte ≡ true }
    {
        ByteSet {
            low: u128::MAX,
            high: u128::MAX,
        }
    }

    /// Only one byte.
    pub fn only(byte: u8) -> ByteSet
        ensures { (other : ℕ) → other < 256 → has_byte result other ≡ (other == byte) }
    {
        if byte < HALF {
            return ByteSet {
                low: bit(byte),
                high: 0,
            };
        }
        ByteSet {
            low: 0,
            high: bit(byte - HALF),
        }
    }

    /// Whether the byte is one of them.
    pub fn has(&self, byte: u8) -> bool
        ensures { result ≡ has_byte self.now byte }
    {
        let half = if byte < HALF { self.low } else { self.high };
        half >> (byte % HALF) & 1 == 1
    }

    /// Whether the other set has the same bytes.
    pub fn is(&self, other: &ByteSet) -> bool
        ensures { result ≡ are_same_bytes self.now other.now }
    {
        self.low == other.low && self.high == other.high
    }

    /// Those that are in both sets.
    pub fn both(&self, other: &ByteSet) -> ByteSet
        ensures { (byte : ℕ) → has_byte result byte
            ≡ (has_byte self.now byte && has_byte other.now byte) }
    {
        ByteSet {
            low: self.low & other.low,
            high: self.high & other.high,
        }
    }

    /// Those that are in one of the sets.
    pub fn with(&self, other: &ByteSet) -> ByteSet
        ensures { (byte : ℕ) → has_byte result byte
            ≡ (has_byte self.now byte || has_byte other.now byte) }
    {
        ByteSet {
            low: self.low | other.low,
            high: self.high | other.high,
        }
    }

    /// Those that are not in the other set.
    pub fn without(&self, other: &ByteSet) -> ByteSet
        ensures { (byte : ℕ) → byte < 256
            → has_byte result byte ≡ (has_byte self.now byte && not (has_byte other.now byte)) }
    {
        ByteSet {
            low: self.low & !other.low,
            high: self.high & !other.high,
        }
    }

    /// Whether a byte may be in both sets.
    pub(crate) fn may_meet(&self, other: &ByteSet) -> bool
        ensures { MatchBool result (Unit {0}) (HaveNoByte self.now other.now) }
    {
        self.both(other).first().is_some()
    }

    /// Whether each of them is in the other set.
    #[tactic(auto, using(crate::proofs::Within::each_byte))]
    pub(crate) fn is_within(&self, other: &ByteSet) -> bool
        ensures { MatchBool result (HasEachByte self.now other.now) (Unit {0}) }
    {
        self.without(other).first().is_none()
    }

    /// The least of them.
    pub fn first(&self) -> Option<u8>
        ensures { MatchOption result ((byte : ℕ) → byte < 256 → has_byte self.now byte ≡ false)
            (IsLeastByte self.now) }
    {
        match lowest(self.low) {
            Some(place) => Some(place),
            None => match lowest(self.high) {
                Some(place) => Some(place + HALF),
                None => None,
            },
        }
    }
}
