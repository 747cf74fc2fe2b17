//! What is known of a register.

ghost use Rattle.std.specs.Prelude.{◌≡◌, ◌↔◌, IsTrue};
ghost use Rattle.absdom.specs.Kinds.{joined_kinds, IsKindBelow, number_of, map_of, same_region};

use crate::cause::Cause;
use crate::offsets::Offsets;
use absdom_num::Range;
use machine::Region;

/// What is known of a register.
#[derive(Clone, Copy, Debug, PartialEq, Eq)]
pub enum AbsKind {
    /// Nothing: it may hold anything, or nothing that may be read.
    Unset,
    /// A number in this range.
    Num(Range),
    /// A pointer into this region, at one of these offsets.
    Ptr(Region, Offsets),
    /// The map of this index.
    Map(u8),
}

impl AbsKind {
    /// The least kind above both.
    pub fn join(&self, other: &AbsKind) -> AbsKind
        ensures { result ≡ joined_kinds self.now other.now }
    {
        match self {
            AbsKind::Unset => AbsKind::Unset,
            AbsKind::Num(range) => join_number(*range, other),
            AbsKind::Ptr(region, offsets) => join_pointer(*region, *offsets, other),
            AbsKind::Map(index) => join_map(*index, other),
        }
    }

    /// Whether the other kind says no more than this one.
    pub fn leq(&self, other: &AbsKind) -> bool
        ensures { IsTrue result ↔ IsKindBelow self.now other.now }
    {
        match other {
            AbsKind::Unset => true,
            AbsKind::Num(range) => is_number_below(self, *range),
            AbsKind::Ptr(region, offsets) => is_pointer_below(self, *region, *offsets),
            AbsKind::Map(index) => is_map_below(self, *index),
        }
    }

    /// The range of a number.
    ///
    /// # Errors
    ///
    /// - `UnsetOperand`: nothing is known of the register.
    /// - `KindMismatch`: it is of another kind.
    pub fn number(&self) -> Result<Range, Cause>
        ensures { result ≡ number_of self.now }
    {
        match self {
            AbsKind::Unset => Err(Cause::UnsetOperand),
            AbsKind::Num(range) => Ok(*range),
            AbsKind::Ptr(_, _) => Err(Cause::KindMismatch),
            AbsKind::Map(_) => Err(Cause::KindMismatch),
        }
    }

    /// The index of a map.
    ///
    /// # Errors
    ///
    /// - `UnsetOperand`: nothing is known of the register.
    /// - `KindMismatch`: it is of another kind.
    pub fn map(&self) -> Result<u8, Cause>
        ensures { result ≡ map_of self.now }
    {
        match self {
            AbsKind::Unset => Err(Cause::UnsetOperand),
            AbsKind::Num(_) => Err(Cause::KindMismatch),
            AbsKind::Ptr(_, _) => Err(Cause::KindMismatch),
            AbsKind::Map(index) => Ok(*index),
        }
    }
}

/// The least kind above a number of this range and the other kind.
fn join_number(range: Range, other: &AbsKind) -> AbsKind
    ensures { result ≡ joined_kinds (AbsKind.Num range) other.now }
{
    match other {
        AbsKind::Num(other) => AbsKind::Num(range.join(*other)),
        AbsKind::Unset => AbsKind::Unset,
        AbsKind::Ptr(_, _) => AbsKind::Unset,
        AbsKind::Map(_) => AbsKind::Unset,
    }
}

/// The least kind above such a pointer and the other kind.
fn join_pointer(region: Region, offsets: Offsets, other: &AbsKind) -> AbsKind
    ensures { result ≡ joined_kinds (AbsKind.Ptr region offsets) other.now }
{
    match other {
        AbsKind::Ptr(other_region, other) => {
            if is_same_region(region, *other_region) {
                AbsKind::Ptr(region, offsets.join(*other))
            } else {
                AbsKind::Unset
            }
        }
        AbsKind::Unset => AbsKind::Unset,
        AbsKind::Num(_) => AbsKind::Unset,
        AbsKind::Map(_) => AbsKind::Unset,
    }
}

/// The least kind above this map and the other kind.
fn join_map(index: u8, other: &AbsKind) -> AbsKind
    ensures { result ≡ joined_kinds (AbsKind.Map index) other.now }
{
    match other {
        AbsKind::Map(other) => {
            if index == *other {
                AbsKind::Map(index)
            } else {
                AbsKind::Unset
            }
        }
        AbsKind::Unset => AbsKind::Unset,
        AbsKind::Num(_) => AbsKind::Unset,
        AbsKind::Ptr(_, _) => AbsKind::Unset,
    }
}

/// Whether the kind is a number within this range.
fn is_number_below(kind: &AbsKind, range: Range) -> bool
    ensures { IsTrue result ↔ IsKindBelow kind.now (AbsKind.Num range) }
{
    match kind {
        AbsKind::Num(own) => own.leq(range),
        AbsKind::Unset => false,
        AbsKind::Ptr(_, _) => false,
        AbsKind::Map(_) => false,
    }
}

/// Whether the kind is a pointer into this region, among these offsets.
fn is_pointer_below(kind: &AbsKind, region: Region, offsets: Offsets) -> bool
    ensures { IsTrue result ↔ IsKindBelow kind.now (AbsKind.Ptr region offsets) }
{
    match kind {
        AbsKind::Ptr(own_region, own) => is_same_region(*own_region, region) && own.leq(offsets),
        AbsKind::Unset => false,
        AbsKind::Num(_) => false,
        AbsKind::Map(_) => false,
    }
}

/// Whether the kind is this map.
fn is_map_below(kind: &AbsKind, index: u8) -> bool
    ensures { IsTrue result ↔ IsKindBelow kind.now (AbsKind.Map index) }
{
    match kind {
        AbsKind::Map(own) => *own == index,
        AbsKind::Unset => false,
        AbsKind::Num(_) => false,
        AbsKind::Ptr(_, _) => false,
    }
}

/// Whether two regions are the same.
fn is_same_region(a: Region, b: Region) -> bool
    ensures { result ≡ same_region a b }
{
    match a {
        Region::Front => matches!(b, Region::Front),
        Region::Tail => matches!(b, Region::Tail),
        Region::Stack => matches!(b, Region::Stack),
    }
}
