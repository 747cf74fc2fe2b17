//! The words of a rule, one function a field.

ghost use Rattle.std.specs.Prelude.{◌≡◌, ℕ, MatchOption, Option, [], ◌∷◌, length};
ghost use Rattle.std.specs.Char.{is_ascii_digit};
ghost use Rattle.std.specs.List.{list_all};
ghost use Rattle.policy_table.specs.Fields.{IsAddress, IsDigits, IsField, IsKind, IsQuota, IsVerdictWord, WritesCount, WritesHex, parts_of};
ghost use Rattle.policy_table.specs.declared.rules.Quota.{Quota};
ghost use Rattle.policy_table.specs.declared.rules.RuleKind.{RuleKind};
ghost use Rattle.rmap.specs.declared.verdict.Verdict.{Verdict};

use crate::rules::{Quota, RuleKind};
use rmap::Verdict;

/// The greatest limit of a quota: what an instruction compares a ticket with is a signed number of 32 bits.
const MAX_LIMIT: u32 = i32::MAX as u32;

/// The kind that a word writes.
pub fn kind_of(word: &str) -> Option<RuleKind>
    ensures { MatchOption result ((kind : RuleKind) → ¬ IsKind word.now kind) (IsKind word.now) }
{
    match word {
        "read" => Some(RuleKind::Read),
        "write" => Some(RuleKind::Write),
        "rmw" => Some(RuleKind::Rmw),
        "any" => Some(RuleKind::Any),
        _ => None,
    }
}

/// The number that two hexadecimal digits write.
fn byte_of(word: &str) -> Option<u8>
    ensures { MatchOption result ((n : ℕ) → ¬ WritesHex 2 word.now n) (WritesHex 2 word.now) }
{
    if word.len() != 2 || word.starts_with('+') {
        return None;
    }
    u8::from_str_radix(word, 16).ok()
}

/// What a word says of a field of one byte: `*` for any, or two hexadecimal digits.
pub fn field_of(word: &str) -> Option<Option<u8>>
    ensures { MatchOption result ((field : Option ℕ) → ¬ IsField word.now field)
        (IsField word.now) }
{
    if word == "*" {
        return Some(None);
    }
    Some(Some(byte_of(word)?))
}

/// The address that eight hexadecimal digits write.
pub fn address_of(word: &str) -> Option<u32>
    ensures { MatchOption result ((address : ℕ) → ¬ IsAddress word.now address)
        (IsAddress word.now) }
{
    if word.len() != 8 || word.starts_with('+') {
        return None;
    }
    u32::from_str_radix(word, 16).ok()
}

/// Whether a word has only decimal digits.
fn has_digits_alone(word: &str) -> bool
    ensures { result ≡ list_all is_ascii_digit word.now }
{
    word.bytes().all(|byte| byte.is_ascii_digit())
}

/// The number that decimal digits write, however many there are. A number past the greatest of 32 bits is read as the
/// greatest.
fn count_of(word: &str) -> Option<u32>
    ensures { MatchOption result (¬ IsDigits word.now) (WritesCount word.now) }
{
    if word.is_empty() || !has_digits_alone(word) {
        return None;
    }
    Some(word.parse().unwrap_or(u32::MAX))
}

/// The three parts of a word between its colons, if it has three.
fn three_parts(word: &str) -> Option<(&str, &str, &str)>
    ensures { MatchOption result (¬ (length (parts_of word.now) ≡ 3))
        (λ parts. parts_of word.now ≡ parts.0.now ∷ parts.1.now ∷ parts.2.now ∷ []) }
{
    let mut parts = word.split(':');
    let first = parts.next()?;
    let second = parts.next()?;
    let third = parts.next()?;
    match parts.next() {
        None => Some((first, second, third)),
        Some(_) => None,
    }
}

/// The quota that a word writes: `-` for none, or `MAP:CELL:LIMIT` in decimal. A map past 255 is read as 255 and a cell
/// past 65,535 as 65,535, which no node has.
pub fn quota_of(word: &str) -> Option<Option<Quota>>
    ensures { MatchOption result ((quota : Option Quota) → ¬ IsQuota word.now quota)
        (IsQuota word.now) }
{
    if word == "-" {
        return Some(None);
    }
    let (map, cell, limit) = three_parts(word)?;
    let map = count_of(map)?.min(u32::from(u8::MAX)) as u8;
    let cell = count_of(cell)?.min(u32::from(u16::MAX)) as u16;
    let limit = count_of(limit)?;
    if limit > MAX_LIMIT {
        return None;
    }
    Some(Some(Quota { map, cell, limit }))
}

/// The verdict whose number a word writes in decimal, without a leading zero.
pub fn verdict_of(word: &str) -> Option<Verdict>
    ensures { MatchOption result ((verdict : Verdict) → ¬ IsVerdictWord word.now verdict)
        (IsVerdictWord word.now) }
{
    if word.len() > 1 && word.starts_with('0') {
        return None;
    }
    let number = count_of(word)?;
    let verdict = Verdict::of_word(u64::from(number));
    if number == u32::from(verdict.number()) {
        Some(verdict)
    } else {
        None
    }
}
