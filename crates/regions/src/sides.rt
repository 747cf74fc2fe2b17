//! The sides of a region.

ghost use Rattle.std.specs.Prelude.{◌≡◌, ◌≤◌, ◌<◌};
ghost use Rattle.regions.specs.Regions.{side_of};

/// A condition of a region on a point.
#[derive(Clone, Copy, Debug, PartialEq, Eq)]
pub enum Side {
    /// The kind is one of its kinds.
    Kind,
    /// The key is one of its keys.
    Key,
    /// The initiator is one of its initiators.
    Initiator,
    /// The extended address is one of its extended addresses.
    Extended,
    /// The first address is not below its first addresses.
    FirstFrom,
    /// The first address is not after its first addresses.
    FirstBefore,
    /// The last address is not below its last addresses.
    LastFrom,
    /// The last address is not after its last addresses.
    LastBefore,
}

/// How many sides a region has.
pub(crate) const SIDES: u8 = 8;

/// The side at which this many are left, itself counted.
pub(crate) fn side_of(left: u8) -> Side
    ensures { result ≡ side_of left }
{
    match left {
        8 => Side::Kind,
        7 => Side::Key,
        6 => Side::Initiator,
        5 => Side::Extended,
        4 => Side::FirstFrom,
        3 => Side::FirstBefore,
        2 => Side::LastFrom,
        _ => Side::LastBefore,
    }
}
