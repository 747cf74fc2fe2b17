//! Rules as regions.

ghost use Rattle.std.specs.Prelude.{◌≡◌, ◌≤◌, ◌<◌, ◌++◌, ℕ, MatchOption, length, true};
ghost use Rattle.rmap.specs.Instruction.{is_used};
ghost use Rattle.rmap.specs.declared.kind.Kind.{Kind};
ghost use Rattle.policy_table.specs.Meaning.{agrees, agrees_with_kind};
ghost use Rattle.regions.specs.ByteSets.{has_byte};
ghost use Rattle.regions.specs.Points.{HasCommand};
ghost use Rattle.regions.specs.Regions.{is_one_of, lies_in};
ghost use Rattle.regions.specs.declared.points.Point.{Point};
ghost use Rattle.charts.specs.Points.{IsRuleAt, holds_at};

use policy_table::{Rule, RuleKind};
use regions::{ByteSet, Kinds, PointRegion, Stretch};

/// The kinds that agree with a rule's.
fn kinds_of(wanted: RuleKind) -> Kinds
    ensures { (kind : Kind) → is_used kind ≡ true → is_one_of result kind ≡
        agrees_with_kind wanted kind }
{
    let any = wanted == RuleKind::Any;
    Kinds {
        read: any || wanted == RuleKind::Read,
        write: any || wanted == RuleKind::Write,
        rmw: any || wanted == RuleKind::Rmw,
    }
}

/// The bytes that agree with a field.
fn bytes_of(wanted: Option<u8>) -> ByteSet
    ensures { (byte : ℕ) → byte < 256 → has_byte result byte ≡ agrees wanted byte }
{
    match wanted {
        None => ByteSet::all(),
        Some(byte) => ByteSet::only(byte),
    }
}

/// The points at which the conditions of a rule hold.
pub fn region_of(rule: &Rule) -> PointRegion
    ensures { (p : Point) → HasCommand p → lies_in result p ≡ holds_at rule.now p }
{
    let kinds = kinds_of(rule.kind);
    let keys = bytes_of(rule.key);
    let initiators = bytes_of(rule.initiator);
    let extended = bytes_of(rule.extended);
    PointRegion {
        kinds,
        keys,
        initiators,
        extended,
        first: Stretch {
            start: u64::from(rule.low),
            end: 1 << 32,
        },
        last: Stretch {
            start: 0,
            end: u64::from(rule.high) + 1,
        },
    }
}

/// The rule of that number of two tables, one after the other.
pub(crate) fn rule_at(old: &[Rule], new: &[Rule], number: usize) -> Option<Rule>
    ensures { MatchOption result (length (old.now ++ new.now) ≤ number)
        (IsRuleAt old.now new.now number) }
{
    if number < old.len() {
        return Some(old[number]);
    }
    let number = number - old.len();
    if number < new.len() {
        return Some(new[number]);
    }
    None
}
