//! Before which packets a program is scrubbed.

ghost use Rattle.std.specs.Prelude.{◌≡◌, ◌&&◌};
ghost use Rattle.scrub.specs.Counting.{agrees, complement_of_count, counted, counting_of, is_due, is_on, renewed};

/// Before each packet of how many a program is scrubbed, and how many are left until then. Beside each number is its
/// complement. No invariant says that they agree, since memory may change in one of them. If they do not, a scrub is
/// due before each packet.
#[derive(Clone, Copy, Debug, PartialEq, Eq)]
pub struct Counting {
    /// Before each `each`-th packet the program that judges it is scrubbed: 1 is each packet. If it is 0, none is.
    pub each: u32,
    /// How many packets are left until then, with that one.
    pub left: u32,
    /// The complement of `each`.
    pub each_kept: u32,
    /// That of `left`.
    pub left_kept: u32,
}

/// The complement of a number: each of its 32 bits is the other one.
fn complement_of_count(number: u32) -> u32
    ensures { result ≡ complement_of_count number }
{
    u32::MAX - number
}

impl Counting {
    /// These numbers, each beside its complement.
    pub(crate) fn of(each: u32, left: u32) -> Counting
        ensures { result ≡ counting_of each left }
    {
        Counting {
            each,
            left,
            each_kept: complement_of_count(each),
            left_kept: complement_of_count(left),
        }
    }

    /// Whether each number agrees with its complement.
    pub(crate) fn agrees(&self) -> bool
        ensures { result ≡ agrees self.now }
    {
        self.each_kept == complement_of_count(self.each)
            && self.left_kept == complement_of_count(self.left)
    }

    /// Whether a scrub is due before the next packet.
    pub(crate) fn is_due(&self) -> bool
        ensures { result ≡ is_due self.now }
    {
        if !self.agrees() {
            return true;
        }
        if self.each == 0 {
            return false;
        }
        self.left <= 1
    }

    /// Whether the node counts packets, or does not know that it does not.
    pub(crate) fn is_on(&self) -> bool
        ensures { result ≡ is_on self.now }
    {
        !(self.agrees() && self.each == 0)
    }

    /// The numbers after a packet before which no scrub is due.
    pub(crate) fn counted(self) -> Counting
        ensures { result ≡ counted self }
    {
        if self.each == 0 {
            return Counting::of(self.each, self.left);
        }
        Counting::of(self.each, self.left.saturating_sub(1))
    }

    /// The numbers after the scrub that was due. Numbers that do not agree with their complements stay.
    pub(crate) fn renewed(self) -> Counting
        ensures { result ≡ renewed self }
    {
        if self.agrees() {
            return Counting::of(self.each, self.each);
        }
        self
    }
}
