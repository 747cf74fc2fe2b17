//! The helpers that a program may call.

ghost use Rattle.std.specs.Prelude.{◌≡◌, ◌↔◌, Some, pos};
ghost use Rattle.machine.specs.Helpers.{helper_number, helper_of, since, has_helper, takes_argument, takes_kind};

use crate::kinds::MapKind;
use bpf::Version;

/// A helper: what a program may ask of a cell of a map (a choice of this project; RFC 9669, section 4.3.1, leaves the
/// helpers to the platform).
#[derive(Clone, Copy, Debug, PartialEq, Eq)]
pub enum Helper {
    /// How many tickets were drawn from a cell that counts, or the greatest number that was shown to a cell of a peak
    /// map.
    Count,
    /// Draws the next ticket of a cell that counts.
    Ticket,
    /// Shows a number to a cell of a peak map, and answers the greatest number that the cell was shown.
    Peak,
}

impl Helper {
    /// The number by which a call names the helper: 1 is `count`, 2 is `ticket`, 3 is `peak`.
    pub fn number(self) -> u8
        ensures number { result ≡ helper_number self }
        ensures inverse { helper_of (pos result) ≡ Some self }
    {
        match self {
            Helper::Count => 1,
            Helper::Ticket => 2,
            Helper::Peak => 3,
        }
    }

    /// The helper of a number, or `None` if no helper has the number.
    pub fn of_number(number: i32) -> Option<Helper>
        ensures helper { result ≡ helper_of number }
        ensures inverse { (helper : Helper) → (result ≡ Some helper) ↔ (number ≡ pos (helper_number helper)) }
    {
        match number {
            1 => Some(Helper::Count),
            2 => Some(Helper::Ticket),
            3 => Some(Helper::Peak),
            _ => None,
        }
    }

    /// The first version of the format that has the helper: each later version has it too.
    pub fn since(self) -> Version
        ensures { result ≡ since self }
    {
        match self {
            Helper::Count | Helper::Ticket => Version::One,
            Helper::Peak => Version::Two,
        }
    }

    /// Whether the version of the format has the helper: each has `count` and `ticket`, and from version 2 on also
    /// `peak`.
    pub fn is_in(self, version: Version) -> bool
        ensures { result ≡ has_helper version self }
    {
        self.since().number() <= version.number()
    }

    /// Whether the helper takes an argument, a number in r3: only `peak` does.
    pub fn takes_argument(self) -> bool
        ensures { result ≡ takes_argument self }
    {
        match self {
            Helper::Count | Helper::Ticket => false,
            Helper::Peak => true,
        }
    }
}

impl MapKind {
    /// Whether the helper may be asked of a map of this kind: `count` of both kinds, `ticket` of counter maps, `peak`
    /// of peak maps.
    pub fn takes(self, helper: Helper) -> bool
        ensures { result ≡ takes_kind helper self }
    {
        match helper {
            Helper::Count => true,
            Helper::Ticket => matches!(self, MapKind::Counter),
            Helper::Peak => matches!(self, MapKind::Peak),
        }
    }
}
