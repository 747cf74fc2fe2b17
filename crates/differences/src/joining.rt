//! The lines of a comparison, joined: one line has what two lines said alike.

ghost use Rattle.std.specs.Prelude.{◌≤◌, IfOk, MatchBool, length};
ghost use Rattle.charts.specs.Lines.{IsComparison};
ghost use Rattle.differences.specs.Joined.{IsShorter, SayTheSame};

use crate::decision_paths::{AskedRule, decision_path};
use charts::{ChartLine, is_in_pieces};
use policy_table::Rule;
use regions::{Kinds, PointRegion, Stretch};
use std::alloc::{AllocError, Global};

/// A line, and the rules that each table asks at its points.
#[derive(Debug, Drop)]
struct Asked {
    line: ChartLine,
    old: Vec<AskedRule>,
    new: Vec<AskedRule>,
    /// Whether a line has the rest of its sets, so that no line of them may go.
    has_rest: bool,
}

/// Whether two courses have the same rules.
fn are_same(one: &[AskedRule], other: &[AskedRule]) -> bool {
    if one.len() != other.len() {
        return false;
    }
    for (own, its) in one.iter().zip(other) {
        if own.number != its.number {
            return false;
        }
    }
    true
}

/// The kinds of either set.
fn either(one: Kinds, other: Kinds) -> Kinds {
    Kinds {
        read: one.read || other.read,
        write: one.write || other.write,
        rmw: one.rmw || other.rmw,
    }
}

/// In how many of the sets of kinds, keys, initiators and extended addresses two regions differ.
fn sets_apart(one: &PointRegion, other: &PointRegion) -> u8 {
    u8::from(one.kinds != other.kinds)
        + u8::from(one.keys != other.keys)
        + u8::from(one.initiators != other.initiators)
        + u8::from(one.extended != other.extended)
}

/// The region of the points of both, if they differ in one of these sets and in nothing else.
fn joined_region(one: &PointRegion, other: &PointRegion) -> Option<PointRegion> {
    if one.first != other.first || one.last != other.last || sets_apart(one, other) != 1 {
        return None;
    }
    Some(PointRegion {
        kinds: either(one.kinds, other.kinds),
        keys: one.keys.with(&other.keys),
        initiators: one.initiators.with(&other.initiators),
        extended: one.extended.with(&other.extended),
        first: one.first,
        last: one.last,
    })
}

/// The region of the points of both lines, if one line can say what they say.
fn joined_of(one: &Asked, other: &Asked) -> Option<PointRegion> {
    if one.has_rest || other.has_rest {
        return None;
    }
    let region = joined_region(&one.line.region, &other.line.region)?;
    if are_same(one.old.as_slice(), other.old.as_slice())
        && are_same(one.new.as_slice(), other.new.as_slice())
    {
        return Some(region);
    }
    None
}

/// The addresses of a line, and its number in a list: so few bytes are read of lines with other addresses.
#[derive(Clone, Copy, Debug, PartialEq, Eq)]
struct Place {
    first: Stretch,
    last: Stretch,
    number: usize,
}

/// Whether one line can say what a line of a list and another say.
fn can_join(lines: &[Asked], place: &Place, own: &Asked) -> bool {
    if place.first != own.line.region.first || place.last != own.line.region.last {
        return false;
    }
    match lines.get(place.number) {
        Some(line) => joined_of(line, own).is_some(),
        None => false,
    }
}

/// Adds a line to others, joined with each of them that says the same: then it is at the place of the first of these.
fn add(lines: &mut Vec<Asked>, places: &mut Vec<Place>, line: Asked) -> Result<(), AllocError> {
    let mut own = line;
    let mut earliest = places.len();
    for _join in 0..places.len() {
        let Some(other) = places
            .iter()
            .position(|it| can_join(lines.as_slice(), it, &own))
        else {
            break;
        };
        let joined = places.remove(other);
        if let Some(earlier) = lines.get(joined.number) {
            if let Some(region) = joined_of(earlier, &own) {
                own.line.region = region;
            }
        }
        earliest = earliest.min(other);
    }
    let place = Place {
        first: own.line.region.first,
        last: own.line.region.last,
        number: lines.len(),
    };
    lines.push(own)?;
    places.insert(earliest.min(places.len()), place)?;
    Ok(())
}

/// The regions of which some line has the rest of the addresses.
fn rests_of(alloc: Global, lines: &[ChartLine]) -> Result<Vec<PointRegion>, AllocError> {
    let mut rests = Vec::new(alloc);
    for line in lines {
        if line.rest {
            rests.push(line.region)?;
        }
    }
    Ok(rests)
}

/// Whether some line has the rest of the addresses of the sets of a line.
fn has_rest(rests: &[PointRegion], line: &ChartLine) -> bool {
    rests.iter().any(|rest| sets_apart(rest, &line.region) == 0)
}

/// Lines, joined as far as they say the same.
fn all_joined(
    alloc: Global,
    old: &[Rule],
    new: &[Rule],
    lines: &[ChartLine],
) -> Result<Vec<ChartLine>, AllocError> {
    let rests = rests_of(alloc, lines)?;
    let mut asked = Vec::new(alloc);
    let mut places = Vec::new(alloc);
    for line in lines {
        let own = Asked {
            line: *line,
            old: decision_path(alloc, old, &line.point)?,
            new: decision_path(alloc, new, &line.point)?,
            has_rest: has_rest(rests.as_slice(), line),
        };
        add(&mut asked, &mut places, own)?;
    }
    let mut made = Vec::new(alloc);
    for place in &places {
        if let Some(own) = asked.get(place.number) {
            made.push(own.line)?;
        }
    }
    Ok(made)
}

/// How many joined lines are tested at most: that takes one search, which looks at each of them.
const MOST_TESTED: usize = 4_000;

/// Whether joined lines are fewer, not too many to be tested, and are a comparison of the tables.
fn is_shorter(
    asked: &PointRegion,
    old: &[Rule],
    new: &[Rule],
    lines: &[ChartLine],
    made: &[ChartLine],
) -> bool
    ensures { MatchBool result
        (IsShorter asked.now old.now new.now lines.now made.now) (Unit {0}) }
{
    made.len() < lines.len()
        && (made.len() <= MOST_TESTED && is_in_pieces(asked, false, old, new, made, 0))
}

/// The lines of a comparison, with those joined whose rules are the same and whose sets differ in one field. They say of each command
/// what the lines before say.
///
/// # Errors
///
/// If memory is refused.
pub fn joined(
    alloc: Global,
    asked: &PointRegion,
    old: &[Rule],
    new: &[Rule],
    lines: Vec<ChartLine>,
) -> Result<Vec<ChartLine>, AllocError>
    requires { IsComparison asked.now old.now new.now lines.items }
    // The joined lines are a comparison, too: no command is added or left out
    ensures comparison { IfOk result (λ made. IsComparison asked.now old.now new.now made.items) }
    // They say the same of each command as the lines before
    ensures same { IfOk result (λ made. SayTheSame old.now new.now lines.items made.items) }
    // There are no more of them
    ensures fewer { IfOk result (λ made. length made.items ≤ length lines.items) }
{
    let made = all_joined(alloc, old, new, lines.as_slice())?;
    if is_shorter(asked, old, new, lines.as_slice(), made.as_slice()) {
        return Ok(made);
    }
    Ok(lines)
}
