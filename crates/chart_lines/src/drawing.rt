//! The lines of a map and of a comparison: values of fields with the same report, gathered in sets.

ghost use Rattle.std.specs.Prelude.{IfOk};
ghost use Rattle.charts.specs.Lines.{IsComparison, IsMap};

use crate::boxes::address_parts;
use crate::parts::{Part, Tables};
use charts::{ChartLine, FIELDS, comparison_cells, is_in_pieces, map_cells};
use policy_table::{Rule, agrees_with_kind};
use regions::{ByteSet, Kinds, Point, PointRegion};
use rmap::Kind;
use std::alloc::{AllocError, Global};

/// Whether two parts report the same for the same points.
fn is_same(one: &Part, other: &Part) -> bool {
    one.region == other.region && one.rest == other.rest && one.label == other.label
}

/// Whether parts report the same for the same points, in the same order.
fn are_same(ones: &[Part], others: &[Part]) -> bool {
    if ones.len() != others.len() {
        return false;
    }
    for (one, other) in ones.iter().zip(others) {
        if !is_same(one, other) {
            return false;
        }
    }
    true
}

/// The points whose fields except addresses are each one of either set.
fn joined(one: &PointRegion, other: &PointRegion) -> PointRegion {
    PointRegion {
        kinds: Kinds {
            read: one.kinds.read || other.kinds.read,
            write: one.kinds.write || other.kinds.write,
            rmw: one.kinds.rmw || other.kinds.rmw,
        },
        keys: one.keys.with(&other.keys),
        initiators: one.initiators.with(&other.initiators),
        extended: one.extended.with(&other.extended),
        first: one.first,
        last: one.last,
    }
}

/// The points whose fields except addresses are each one of both sets.
fn narrowed(one: &PointRegion, other: &PointRegion) -> PointRegion {
    PointRegion {
        kinds: Kinds {
            read: one.kinds.read && other.kinds.read,
            write: one.kinds.write && other.kinds.write,
            rmw: one.kinds.rmw && other.kinds.rmw,
        },
        keys: one.keys.both(&other.keys),
        initiators: one.initiators.both(&other.initiators),
        extended: one.extended.both(&other.extended),
        first: one.first,
        last: one.last,
    }
}

/// Values of a field, and the parts for the points that have one of them.
#[derive(Debug, Drop)]
struct Group {
    words: PointRegion,
    parts: Vec<Part>,
}

/// Adds values that have these parts: to the group with the same parts, or after all groups.
fn add(groups: &mut Vec<Group>, words: &PointRegion, parts: Vec<Part>) -> Result<(), AllocError> {
    for group in groups.iter_mut() {
        if are_same(group.parts.as_slice(), parts.as_slice()) {
            group.words = joined(&group.words, words);
            return Ok(());
        }
    }
    groups.push(Group {
        words: *words,
        parts,
    })?;
    Ok(())
}

/// All parts, each with the values of its group.
fn parts_of(alloc: Global, groups: &[Group]) -> Result<Vec<Part>, AllocError> {
    let mut all = Vec::new(alloc);
    for group in groups {
        for part in &group.parts {
            let mut reported = *part;
            reported.region = narrowed(&part.region, &group.words);
            all.push(reported)?;
        }
    }
    Ok(all)
}

/// A field of a byte.
#[derive(Clone, Copy, Debug, PartialEq, Eq)]
enum Field {
    Key,
    Initiator,
    Extended,
}

impl Field {
    /// The value of the field that a rule wants.
    fn wanted(self, rule: &Rule) -> Option<u8> {
        match self {
            Field::Key => rule.key,
            Field::Initiator => rule.initiator,
            Field::Extended => rule.extended,
        }
    }

    /// The point with this value in the field.
    fn set(self, point: &Point, byte: u8) -> Point {
        let mut set = *point;
        match self {
            Field::Key => set.key = byte,
            Field::Initiator => set.initiator = byte,
            Field::Extended => set.extended = byte,
        }
        set
    }

    /// The values of the field that points of a region have.
    fn of(self, region: &PointRegion) -> &ByteSet {
        match self {
            Field::Key => &region.keys,
            Field::Initiator => &region.initiators,
            Field::Extended => &region.extended,
        }
    }

    /// All points that have one of these values in the field.
    fn words(self, bytes: &ByteSet) -> PointRegion {
        let mut words = PointRegion::whole();
        match self {
            Field::Key => words.keys = *bytes,
            Field::Initiator => words.initiators = *bytes,
            Field::Extended => words.extended = *bytes,
        }
        words
    }
}

/// Whether some rule wants this value of a field.
fn is_named(rules: &[Rule], field: Field, byte: u8) -> bool {
    rules.iter().any(|rule| field.wanted(rule) == Some(byte))
}

/// The rules that agree with a value of a field.
fn agreeing(
    alloc: Global,
    rules: &[Rule],
    field: Field,
    byte: u8,
) -> Result<Vec<Rule>, AllocError> {
    let mut found = Vec::new(alloc);
    for rule in rules {
        if field.wanted(rule).is_none_or(|wanted| wanted == byte) {
            found.push(*rule)?;
        }
    }
    Ok(found)
}

/// The values of a field, of these, that rules want, one by one, and the others together, each with one of them.
fn values(
    alloc: Global,
    asked: &ByteSet,
    rules: &[Rule],
    field: Field,
) -> Result<Vec<(ByteSet, u8)>, AllocError> {
    let mut values = Vec::new(alloc);
    let mut others = *asked;
    for byte in 0..=u8::MAX {
        if asked.has(byte) && is_named(rules, field, byte) {
            let own = ByteSet::only(byte);
            others = others.without(&own);
            values.push((own, byte))?;
        }
    }
    if let Some(byte) = others.first() {
        values.push((others, byte))?;
    }
    Ok(values)
}

/// The parts for the points with the kind of one point, and with its fields before these. These rules agree with them.
fn field_parts(
    alloc: Global,
    tables: &Tables<'_>,
    rules: &[Rule],
    point: &Point,
    fields: &[Field],
) -> Result<Vec<Part>, AllocError> {
    let [field, following @ ..] = fields else {
        return address_parts(alloc, tables, rules, point);
    };
    let mut groups: Vec<Group> = Vec::new(alloc);
    for (bytes, byte) in &values(alloc, field.of(tables.asked), rules, *field)? {
        let found = agreeing(alloc, rules, *field, *byte)?;
        let parts = field_parts(
            alloc,
            tables,
            found.as_slice(),
            &field.set(point, *byte),
            following,
        )?;
        add(&mut groups, &field.words(bytes), parts)?;
    }
    parts_of(alloc, groups.as_slice())
}

/// The rules of both tables that agree with a kind.
fn of_kind(alloc: Global, tables: &Tables<'_>, kind: Kind) -> Result<Vec<Rule>, AllocError> {
    let mut found = Vec::new(alloc);
    for rule in tables.old {
        if agrees_with_kind(rule.kind, kind) {
            found.push(*rule)?;
        }
    }
    for rule in tables.new {
        if agrees_with_kind(rule.kind, kind) {
            found.push(*rule)?;
        }
    }
    Ok(found)
}

/// All points of a kind.
fn kind_words(kind: Kind) -> PointRegion {
    let mut words = PointRegion::whole();
    words.kinds.read = kind == Kind::Read;
    words.kinds.write = kind == Kind::Write;
    words.kinds.rmw = kind == Kind::Rmw;
    words
}

/// The parts for all points.
fn all_parts(alloc: Global, tables: &Tables<'_>) -> Result<Vec<Part>, AllocError> {
    let mut groups: Vec<Group> = Vec::new(alloc);
    for kind in [Kind::Read, Kind::Write, Kind::Rmw] {
        if !tables.asked.kinds.has(kind) {
            continue;
        }
        let rules = of_kind(alloc, tables, kind)?;
        let point = Point {
            kind,
            key: 0,
            initiator: 0,
            extended: 0,
            first: 0,
            last: 0,
        };
        let fields = [Field::Key, Field::Initiator, Field::Extended];
        let parts = field_parts(alloc, tables, rules.as_slice(), &point, &fields)?;
        add(&mut groups, &kind_words(kind), parts)?;
    }
    parts_of(alloc, groups.as_slice())
}

/// The points of both regions, with no first address after all last ones, and no last one before all first ones.
fn within(region: &PointRegion, asked: &PointRegion) -> PointRegion {
    let mut own = region.both(asked);
    own.first = own.first.below(own.last.end);
    own.last = own.last.from(own.first.start);
    own
}

/// The lines of the parts that are reported.
fn lines(alloc: Global, tables: &Tables<'_>) -> Result<Vec<ChartLine>, AllocError> {
    let mut lines = Vec::new(alloc);
    for part in &all_parts(alloc, tables)? {
        if part.label.reported {
            lines.push(ChartLine {
                region: within(&part.region, tables.asked),
                rest: part.rest,
                point: part.point,
            })?;
        }
    }
    Ok(lines)
}

/// The lines of a map of a table for the points of a region: what it decides. Each point of them that a command has is
/// in only one line.
///
/// Addresses with the same report are gathered in boxes, bytes and kinds in sets. The addresses that have the most
/// boxes are reported as the rest of the others.
///
/// # Errors
///
/// Only if memory is refused.
pub fn map_of(
    alloc: Global,
    asked: &PointRegion,
    rules: &[Rule],
) -> Result<Vec<ChartLine>, AllocError>
    ensures { IfOk result (λ lines. IsMap asked.now rules.now lines.items) }
{
    let all = true;
    let lines = lines(
        alloc,
        &Tables {
            asked,
            old: rules,
            new: &[],
            all,
        },
    )?;
    if is_in_pieces(asked, all, rules, &[], lines.as_slice(), FIELDS) {
        return Ok(lines);
    }
    map_cells(alloc, asked, rules)
}

/// The lines of a comparison of two tables for the points of a region: where they decide differently. Each such point
/// that a command has is in only one line, and no other is in any.
///
/// They are gathered as those of [`map_of`]. The points that both decide alike are the rest, which is not reported.
///
/// # Errors
///
/// Only if memory is refused.
pub fn comparison_of(
    alloc: Global,
    asked: &PointRegion,
    old: &[Rule],
    new: &[Rule],
) -> Result<Vec<ChartLine>, AllocError>
    ensures { IfOk result (λ lines. IsComparison asked.now old.now new.now lines.items) }
{
    let all = false;
    let lines = lines(
        alloc,
        &Tables {
            asked,
            old,
            new,
            all,
        },
    )?;
    if is_in_pieces(asked, all, old, new, lines.as_slice(), FIELDS) {
        return Ok(lines);
    }
    comparison_cells(alloc, asked, old, new)
}
