//! Regions of points.

ghost use Rattle.std.specs.Prelude.{◌≡◌, ◌≤◌, ◌&&◌, MatchBool, MatchOption, not, true};
ghost use Rattle.rmap.specs.declared.kind.Kind.{Kind};
ghost use Rattle.regions.specs.Points.{HasCommand};
ghost use Rattle.regions.specs.Regions.{AreApart, AreCut, HasEachKind, IsBare, IsCommandIn, LiesWithin, are_same_kinds, is_one_of, is_same, lies_in, meets, meets_last};
ghost use Rattle.regions.specs.declared.points.Point.{Point};

use crate::byte_sets::ByteSet;
use crate::points::Point;
use crate::sides::{SIDES, Side, side_of};
use crate::spans::reach_of;
use crate::stretches::Stretch;
use rmap::Kind;

/// A set of kinds of commands.
#[derive(Clone, Copy, Debug, PartialEq, Eq)]
pub struct Kinds {
    /// Whether reads are of it.
    pub read: bool,
    /// Whether writes are of it.
    pub write: bool,
    /// Whether read-modify-writes are of it.
    pub rmw: bool,
}

/// Whether both are, or both are not.
fn is_same(one: bool, other: bool) -> bool
    ensures { result ≡ is_same one other }
{
    if one { other } else { !other }
}

impl Kinds {
    /// Whether the other set has the same kinds.
    pub fn is(self, other: Kinds) -> bool
        ensures { result ≡ are_same_kinds self other }
    {
        is_same(self.read, other.read)
            && (is_same(self.write, other.write) && is_same(self.rmw, other.rmw))
    }

    /// Whether a kind is one of them.
    pub fn has(self, kind: Kind) -> bool
        ensures { result ≡ is_one_of self kind }
    {
        match kind {
            Kind::Read => self.read,
            Kind::Write => self.write,
            Kind::Rmw => self.rmw,
            Kind::Unused => false,
        }
    }

    /// Those that are in both sets.
    fn both(self, other: Kinds) -> Kinds
        ensures { (kind : Kind) → is_one_of result kind
            ≡ (is_one_of self kind && is_one_of other kind) }
    {
        Kinds {
            read: self.read && other.read,
            write: self.write && other.write,
            rmw: self.rmw && other.rmw,
        }
    }

    /// Whether each of them is in the other set.
    #[tactic(auto, using(crate::proofs::Within::each_kind))]
    fn is_within(self, other: Kinds) -> bool
        ensures { MatchBool result (HasEachKind self other) (Unit {0}) }
    {
        (!self.read || other.read) && ((!self.write || other.write) && (!self.rmw || other.rmw))
    }

    /// Those that are not in the other set.
    fn without(self, other: Kinds) -> Kinds
        ensures { (kind : Kind) → is_one_of result kind
            ≡ (is_one_of self kind && not (is_one_of other kind)) }
    {
        Kinds {
            read: self.read && !other.read,
            write: self.write && !other.write,
            rmw: self.rmw && !other.rmw,
        }
    }
}

/// The points whose fields are each one of a set.
#[derive(Clone, Copy, Debug, PartialEq, Eq)]
pub struct PointRegion {
    /// What the commands ask for.
    pub kinds: Kinds,
    /// Their keys.
    pub keys: ByteSet,
    /// Their initiator logical addresses.
    pub initiators: ByteSet,
    /// Their extended addresses.
    pub extended: ByteSet,
    /// Their first addresses.
    pub first: Stretch,
    /// Their last addresses.
    pub last: Stretch,
}

impl PointRegion {
    /// All points that a command has.
    pub fn whole() -> PointRegion
        ensures { (p : Point) → HasCommand p → lies_in result p ≡ true }
    {
        let addresses = Stretch {
            start: 0,
            end: 1 << 32,
        };
        PointRegion {
            kinds: Kinds {
                read: true,
                write: true,
                rmw: true,
            },
            keys: ByteSet::all(),
            initiators: ByteSet::all(),
            extended: ByteSet::all(),
            first: addresses,
            last: addresses,
        }
    }

    /// The points that meet the condition of a side of another region.
    fn inside(self, shape: &PointRegion, side: Side) -> PointRegion
        ensures { (p : Point) → HasCommand p → lies_in result p
            ≡ (lies_in self p && meets side shape.now p) }
    {
        let mut left = self;
        match side {
            Side::Kind => left.kinds = self.kinds.both(shape.kinds),
            Side::Key => left.keys = self.keys.both(&shape.keys),
            Side::Initiator => left.initiators = self.initiators.both(&shape.initiators),
            Side::Extended => left.extended = self.extended.both(&shape.extended),
            Side::FirstFrom => left.first = self.first.from(shape.first.start),
            Side::FirstBefore => left.first = self.first.below(shape.first.end),
            Side::LastFrom => left.last = self.last.from(shape.last.start),
            Side::LastBefore => left.last = self.last.below(shape.last.end),
        }
        left
    }

    /// The points that do not.
    fn outside(self, shape: &PointRegion, side: Side) -> PointRegion
        ensures { (p : Point) → HasCommand p → lies_in result p
            ≡ (lies_in self p && not (meets side shape.now p)) }
    {
        let mut left = self;
        match side {
            Side::Kind => left.kinds = self.kinds.without(shape.kinds),
            Side::Key => left.keys = self.keys.without(&shape.keys),
            Side::Initiator => left.initiators = self.initiators.without(&shape.initiators),
            Side::Extended => left.extended = self.extended.without(&shape.extended),
            Side::FirstFrom => left.first = self.first.below(shape.first.start),
            Side::FirstBefore => left.first = self.first.from(shape.first.end),
            Side::LastFrom => left.last = self.last.below(shape.last.start),
            Side::LastBefore => left.last = self.last.from(shape.last.end),
        }
        left
    }

    /// Whether a point lies in the region.
    pub fn has(&self, point: &Point) -> bool
        ensures { result ≡ lies_in self.now point.now }
    {
        let (first, last) = (u64::from(point.first), u64::from(point.last));
        self.kinds.has(point.kind)
            && (self.keys.has(point.key)
                && (self.initiators.has(point.initiator)
                    && (self.extended.has(point.extended)
                        && (self.first.start <= first
                            && (first < self.first.end
                                && (self.last.start <= last && last < self.last.end))))))
    }

    /// Cuts the region by a side of another: the points that meet its condition, and those that do not.
    pub fn cut(&self, shape: &PointRegion, side: Side) -> (PointRegion, PointRegion)
        ensures { AreCut self.now shape.now side result.0 result.1 }
    {
        (self.inside(shape, side), self.outside(shape, side))
    }

    /// The points that meet the conditions of the last `left` sides of another region.
    fn met(self, shape: &PointRegion, left: u8) -> PointRegion
        requires { left ≤ SIDES }
        ensures { (p : Point) → HasCommand p → lies_in result p
            ≡ (lies_in self p && meets_last left shape.now p) }
    {
        if left == 0 {
            return self;
        }
        self.inside(shape, side_of(left)).met(shape, left - 1)
    }

    /// The points that lie in both regions.
    pub fn both(&self, other: &PointRegion) -> PointRegion
        ensures { (p : Point) → HasCommand p → lies_in result p
            ≡ (lies_in self.now p && lies_in other.now p) }
    {
        self.met(other, SIDES)
    }

    /// Whether the values of a field that lie in both regions are none.
    #[tactic(auto, using(crate::proofs::Apart::by_keys, crate::proofs::Apart::by_initiators, crate::proofs::Apart::by_extended, crate::proofs::Apart::by_first, crate::proofs::Apart::by_last))]
    fn is_apart(&self, other: &PointRegion) -> bool
        ensures { MatchBool result (AreApart self.now other.now) (Unit {0}) }
    {
        if !self.keys.may_meet(&other.keys) {
            return true;
        }
        if !self.initiators.may_meet(&other.initiators) {
            return true;
        }
        if !self.extended.may_meet(&other.extended) {
            return true;
        }
        if !self.first.may_meet(other.first) {
            return true;
        }
        !self.last.may_meet(other.last)
    }

    /// Whether the values of each field that lie in the region lie in the other too. Then so do its points.
    #[tactic(auto, using(crate::proofs::Within::within))]
    pub fn is_within(&self, other: &PointRegion) -> bool
        ensures { MatchBool result (LiesWithin self.now other.now) (Unit {0}) }
    {
        if !self.first.is_within(other.first) {
            return false;
        }
        if !self.last.is_within(other.last) {
            return false;
        }
        if !self.keys.is_within(&other.keys) {
            return false;
        }
        if !self.initiators.is_within(&other.initiators) {
            return false;
        }
        if !self.extended.is_within(&other.extended) {
            return false;
        }
        self.kinds.is_within(other.kinds)
    }

    /// Whether a command may have a point that lies in both regions.
    pub(crate) fn may_meet(&self, other: &PointRegion) -> bool
        ensures { MatchBool result (Unit {0}) (AreApart self.now other.now) }
    {
        if self.is_apart(other) {
            return false;
        }
        self.both(other).witness().is_some()
    }

    /// A point of the region that a command has.
    pub fn witness(&self) -> Option<Point>
        ensures { MatchOption result (IsBare self.now) (IsCommandIn self.now) }
    {
        let Some(key) = self.keys.first() else {
            return None;
        };
        let Some(initiator) = self.initiators.first() else {
            return None;
        };
        let Some(extended) = self.extended.first() else {
            return None;
        };
        let Some(reach) = reach_of(self.kinds, &self.first, &self.last) else {
            return None;
        };
        Some(Point {
            kind: reach.kind,
            key,
            initiator,
            extended,
            first: reach.first,
            last: reach.last,
        })
    }
}
