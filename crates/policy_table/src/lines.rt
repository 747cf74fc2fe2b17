//! The lines of a policy table, one rule a line.

ghost use Rattle.std.specs.Prelude.{◌≡◌, [], ◌∷◌, length, MatchOption, MatchResult, IfErr, IfOk};
ghost use Rattle.spw.specs.Line.{lines_of, words_of};
ghost use Rattle.policy_table.specs.Lines.{IsReadFault, IsRule, IsTable};
ghost use Rattle.policy_table.specs.NoRules.{IsNoRule};
ghost use Rattle.policy_table.specs.Words.{AreWordsOf, IsFirstBad, texts_of};
ghost use Rattle.policy_table.specs.declared.faults.PolicyFault.TheVariants.{BadLine};
ghost use Rattle.policy_table.specs.declared.rules.Rule.{Rule};

use crate::faults::PolicyFault;
use crate::fields::{address_of, field_of, kind_of, quota_of, verdict_of};
use crate::rules::Rule;
use crate::statement_faults::StatementFault;
use crate::words::RuleWord;
use spw::lines_of;
use std::alloc::{AllocError, Global};

/// The words of a line that writes a rule.
#[derive(Drop)]
pub struct Words<'a> {
    /// What the command asks for.
    pub kind: &'a str,
    /// The key.
    pub key: &'a str,
    /// The initiator logical address.
    pub initiator: &'a str,
    /// The extended address.
    pub extended: &'a str,
    /// The first address.
    pub low: &'a str,
    /// The last address.
    pub high: &'a str,
    /// The quota.
    pub quota: &'a str,
    /// The verdict.
    pub verdict: &'a str,
}

/// The eight words of a line, if it has eight.
fn eight_words(line: &str) -> Option<Words<'_>>
    ensures { MatchOption result (¬ (length (words_of line.now) ≡ 8)) (λ words. words_of line.now
        ≡ words.kind.now ∷ words.key.now ∷ words.initiator.now ∷ words.extended.now
        ∷ words.low.now ∷ words.high.now ∷ words.quota.now ∷ words.verdict.now ∷ []) }
{
    let mut words = line.split(' ').filter(|word| !word.is_empty());
    let kind = words.next()?;
    let key = words.next()?;
    let initiator = words.next()?;
    let extended = words.next()?;
    let low = words.next()?;
    let high = words.next()?;
    let quota = words.next()?;
    let verdict = words.next()?;
    match words.next() {
        None => Some(Words {
            kind,
            key,
            initiator,
            extended,
            low,
            high,
            quota,
            verdict,
        }),
        Some(_) => None,
    }
}

/// How many words a line has.
pub fn words_in(line: &str) -> usize
    ensures { result ≡ length (words_of line.now) }
{
    let words = line.split(' ').filter(|word| !word.is_empty());
    words.count()
}

/// The rule that eight words write.
///
/// # Errors
///
/// The first of the words that is none of its field.
pub fn rule_of(words: &Words) -> Result<Rule, RuleWord>
    ensures { MatchResult result (AreWordsOf (texts_of words.now))
        (IsFirstBad (texts_of words.now)) }
{
    let Some(kind) = kind_of(words.kind) else {
        return Err(RuleWord::Kind);
    };
    let Some(key) = field_of(words.key) else {
        return Err(RuleWord::Key);
    };
    let Some(initiator) = field_of(words.initiator) else {
        return Err(RuleWord::Initiator);
    };
    let Some(extended) = field_of(words.extended) else {
        return Err(RuleWord::Extended);
    };
    let Some(low) = address_of(words.low) else {
        return Err(RuleWord::Low);
    };
    let Some(high) = address_of(words.high) else {
        return Err(RuleWord::High);
    };
    let Some(quota) = quota_of(words.quota) else {
        return Err(RuleWord::Quota);
    };
    let Some(verdict) = verdict_of(words.verdict) else {
        return Err(RuleWord::Verdict);
    };
    Ok(Rule {
        kind,
        key,
        initiator,
        extended,
        low,
        high,
        quota,
        verdict,
    })
}

/// The rule that a line writes.
///
/// # Errors
///
/// How many words the line has, if these are not eight; else the first of them that is none of its field.
pub fn read_rule(line: &str) -> Result<Rule, StatementFault>
    ensures { MatchResult result (IsRule line.now) (IsNoRule line.now) }
{
    let Some(words) = eight_words(line) else {
        return Err(StatementFault::LineCount(words_in(line)));
    };
    match rule_of(&words) {
        Ok(rule) => Ok(rule),
        Err(word) => Err(StatementFault::Word { word, named: false }),
    }
}

/// The rule that a line of a table writes.
fn rule_in(line: &str) -> Result<Rule, PolicyFault>
    ensures read { IfOk result (IsRule line.now) }
    ensures fault { IfErr result (λ fault. (fault ≡ BadLine)
        × ((rule : Rule) → ¬ IsRule line.now rule)) }
{
    match read_rule(line) {
        Ok(rule) => Ok(rule),
        Err(_) => Err(PolicyFault::BadLine),
    }
}

/// The rules of the lines of a text. A line is ended by a line feed, which the last may lack.
///
/// # Errors
///
/// `BadLine` if a line writes no rule; `Memory` if memory is refused.
pub fn read_rules(alloc: Global, text: &str) -> Result<Vec<Rule>, PolicyFault>
    ensures read { IfOk result (λ rules. IsTable text.now rules.items) }
    ensures fault { IfErr result (IsReadFault (lines_of text.now)) }
{
    let mut rules = Vec::new(alloc);
    for line in lines_of(text) {
        let rule = rule_in(line)?;
        rules.push(rule).map_err(AllocError::from)?;
    }
    Ok(rules)
}
