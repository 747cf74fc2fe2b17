//! The first and last addresses of commands.

ghost use Rattle.std.specs.Prelude.{◌≡◌, ◌≤◌, ◌<◌, ◌+◌, ◌^◌, MatchOption, true};
ghost use Rattle.rmap.specs.declared.kind.Kind.TheVariants.{Read, Rmw, Write};
ghost use Rattle.rmap.specs.Instruction.{is_used};
ghost use Rattle.regions.specs.Points.{IsSpan};
ghost use Rattle.regions.specs.Spans.{HasNoReach, HasNoSpan, HasNoWanted, HasNoneAt, IsReachOf, IsWantedReach, LieOn};

use crate::regions::Kinds;
use crate::stretches::Stretch;
use rmap::Kind;

/// How far the last address of a read or a write is from its first at most, and one more. It is the most bytes of data.
const FAR: u64 = 4096;

/// Where commands end.
const END: u64 = 1 << 32;

/// A kind, and the first and the last address of a command of it.
#[derive(Clone, Copy, Debug, PartialEq, Eq)]
pub(crate) struct Reach {
    pub(crate) kind: Kind,
    pub(crate) first: u32,
    pub(crate) last: u32,
}

/// The first and the last address of a read or a write that begins on one stretch and ends on another, if there is one.
fn far_span(one: &Stretch, other: &Stretch) -> Option<(u32, u32)>
    ensures { MatchOption result (HasNoSpan Read one.now other.now)
        (λ span. IsSpan Read span.0 span.1 × LieOn one.now other.now span.0 span.1) }
{
    let last = one.start.max(other.start);
    if one.start >= one.end || last >= other.end || last >= END {
        return None;
    }
    let first = last.min(one.end - 1);
    if last - first >= FAR {
        return None;
    }
    Some((first as u32, last as u32))
}

/// The first address of a command that begins on one stretch and ends on another, at this distance after that, if there
/// is one.
fn first_at(one: &Stretch, other: &Stretch, distance: u64) -> Option<u32>
    requires { distance < 8 }
    ensures { MatchOption result (HasNoneAt distance one.now other.now)
        (λ first. (first + distance < 2 ^ 32) × LieOn one.now other.now first (first + distance)) }
{
    let first = one.start.max(other.start.saturating_sub(distance));
    if first >= one.end || first >= END {
        return None;
    }
    let last = first + distance;
    if last >= other.end || last >= END {
        return None;
    }
    Some(first as u32)
}

/// The first and the last address of a read-modify-write that begins on one stretch and ends on another.
fn rmw_span(one: &Stretch, other: &Stretch) -> Option<(u32, u32)>
    ensures { MatchOption result (HasNoSpan Rmw one.now other.now)
        (λ span. IsSpan Rmw span.0 span.1 × LieOn one.now other.now span.0 span.1) }
{
    if let Some(first) = first_at(one, other, 0) {
        return Some((first, first));
    }
    if let Some(first) = first_at(one, other, 1) {
        return Some((first, first + 1));
    }
    if let Some(first) = first_at(one, other, 3) {
        return Some((first, first + 3));
    }
    if let Some(first) = first_at(one, other, 5) {
        return Some((first, first + 5));
    }
    if let Some(first) = first_at(one, other, 7) {
        return Some((first, first + 7));
    }
    None
}

/// A command of a kind that begins on one stretch and ends on another, if it is wanted.
fn reach_if(wanted: bool, kind: Kind, one: &Stretch, other: &Stretch) -> Option<Reach>
    requires { is_used kind ≡ true }
    ensures { MatchOption result (HasNoWanted wanted kind one.now other.now)
        (IsWantedReach wanted kind one.now other.now) }
{
    if !wanted {
        return None;
    }
    let span = match kind {
        Kind::Rmw => rmw_span(one, other),
        _ => far_span(one, other),
    };
    let Some((first, last)) = span else {
        return None;
    };
    Some(Reach { kind, first, last })
}

/// A command of one of these kinds that begins on one stretch and ends on another.
pub(crate) fn reach_of(kinds: Kinds, one: &Stretch, other: &Stretch) -> Option<Reach>
    ensures { MatchOption result (HasNoReach kinds one.now other.now)
        (IsReachOf kinds one.now other.now) }
{
    if let Some(reach) = reach_if(kinds.read, Kind::Read, one, other) {
        return Some(reach);
    }
    if let Some(reach) = reach_if(kinds.write, Kind::Write, one, other) {
        return Some(reach);
    }
    reach_if(kinds.rmw, Kind::Rmw, one, other)
}
