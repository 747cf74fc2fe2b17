//! The words of the lines of a table of version 2: ranges that have names, and rules with ports.

ghost use Rattle.std.specs.Prelude.{◌≡◌, Some, None, option_map, MatchOption, MatchResult, IfOk, IfErr, codes, bytes_eq, length, [], ◌∷◌};
ghost use Rattle.spw.specs.Line.{words_of};
ghost use Rattle.policy_table.specs.Ranges.{range_named, range_text};
ghost use Rattle.policy_table.specs.Statements.{IsBadPortWord, IsNoRange, IsNoRuleLine, IsPortSuffix, IsRangeLine, IsRuleLine, is_version_two, has_version, is_version, next_word, parts_text, range_words, rule_parts, span_text, three_words, word_kind};

use crate::fields::address_of;
use crate::lines::{Words, rule_of, words_in};
use crate::ranges::{NamedRange, NamedRanges, is_range_name};
use crate::rules::Rule;
use crate::statement_faults::StatementFault;
use basm_lex::before_comment;
use spw::{first_word, read_port};

/// The first word of a text, and what comes after it.
pub fn next_word(text: &str) -> Option<(&str, &str)>
    ensures { option_map (λ r. (r.0.now, words_of r.1.now)) result ≡ next_word (words_of text.now) }
{
    first_word(text)
}

/// What the first word of a line makes it.
#[derive(Clone, Copy, Debug, PartialEq, Eq)]
pub enum WordKind {
    /// A line that says a version.
    Version,
    /// A line that gives a name to a range.
    Range,
    /// A line of an unknown directive.
    Other,
    /// A rule.
    Rule,
}

/// Whether a word is `.version`, also after the mark with which some editors begin a file.
fn is_version(word: &str) -> bool
    ensures { result ≡ is_version word.now }
{
    word == ".version" || word == "\u{feff}.version"
}

/// What the first word of a line makes it.
pub fn word_kind(word: &str) -> WordKind
    ensures { result ≡ word_kind word.now }
{
    if is_version(word) {
        WordKind::Version
    } else if word == ".range" {
        WordKind::Range
    } else if word.starts_with('.') {
        WordKind::Other
    } else {
        WordKind::Rule
    }
}

/// Whether the first word of a line says a version.
pub fn has_version(line: &str) -> bool
    ensures { result ≡ has_version line.now }
{
    match first_word(before_comment(line)) {
        Some((word, _rest)) => is_version(word),
        None => false,
    }
}

/// Whether a line is `.version 2`.
#[tactic(auto, unfolding(crate::specs::Statements::is_version_two))]
pub fn is_version_two(line: &str) -> bool
    ensures { result ≡ is_version_two line.now }
{
    let Some((first, rest)) = next_word(before_comment(line)) else {
        return false;
    };
    let Some((second, rest)) = next_word(rest) else {
        return false;
    };
    first == ".version" && second == "2" && next_word(rest).is_none()
}

/// The two words of a range, whether the line has a name for it, and what comes after it.
#[derive(Drop)]
struct Span<'a> {
    low: &'a str,
    high: &'a str,
    named: bool,
    rest: &'a str,
}

/// The range that begins with this word, before a rest. If the word is a name that no range has, both words are that
/// name.
#[tactic(auto, unfolding(crate::specs::Statements::range_words))]
fn range_words<'a>(ranges: &NamedRanges<'a>, word: &'a str, rest: &'a str) -> Option<Span<'a>>
    ensures { option_map span_text result
        ≡ range_words ranges.now word.now (words_of rest.now) }
{
    if !is_range_name(word) {
        let (high, rest) = next_word(rest)?;
        return Some(Span {
            low: word,
            high,
            named: false,
            rest,
        });
    }
    let (low, high) = match ranges.named(word) {
        Some(range) => (range.low, range.high),
        None => (word, word),
    };
    Some(Span {
        low,
        high,
        named: true,
        rest,
    })
}

/// The words of a rule, with the two of its range, and what comes after its verdict.
#[derive(Drop)]
struct RuleParts<'a> {
    words: Words<'a>,
    named: bool,
    rest: &'a str,
}

/// The words of a rule, if there are enough.
#[tactic(auto, unfolding(crate::specs::Statements::rule_parts))]
fn rule_parts<'a>(ranges: &NamedRanges<'a>, text: &'a str) -> Option<RuleParts<'a>>
    ensures { option_map parts_text result
        ≡ rule_parts ranges.now (words_of text.now) }
{
    let (kind, rest) = next_word(text)?;
    let (key, rest) = next_word(rest)?;
    let (initiator, rest) = next_word(rest)?;
    let (extended, rest) = next_word(rest)?;
    let (range, rest) = next_word(rest)?;
    let span = range_words(ranges, range, rest)?;
    let (quota, rest) = next_word(span.rest)?;
    let (verdict, rest) = next_word(rest)?;
    Some(RuleParts {
        words: Words {
            kind,
            key,
            initiator,
            extended,
            low: span.low,
            high: span.high,
            quota,
            verdict,
        },
        named: span.named,
        rest,
    })
}

/// The port that comes after a verdict: `port P`, or nothing.
fn port_in(text: &str) -> Option<Option<u8>>
    ensures { MatchOption result (IsBadPortWord (words_of text.now))
        (IsPortSuffix (words_of text.now)) }
{
    let Some((word, rest)) = first_word(text) else {
        return Some(None);
    };
    let (number, rest) = first_word(rest)?;
    if word != "port" || first_word(rest).is_some() {
        return None;
    }
    match read_port(number) {
        Ok(port) => Some(Some(port)),
        Err(_) => None,
    }
}

/// A rule, its port, and whether its line has a name for the range.
#[derive(Drop)]
pub struct RuleLine {
    /// The rule.
    pub rule: Rule,
    /// The port, if it has one.
    pub port: Option<u8>,
    /// Whether the line has a name for the range.
    pub named: bool,
}

/// The rule that a text writes, if these ranges have names.
///
/// # Errors
///
/// How many words the text has, if it ends before its verdict; else the first of its words that is none of its field.
/// Else `Port`, if the words after its verdict are not `port P`.
pub fn read_rule_line<'a>(
    ranges: &NamedRanges<'a>,
    text: &'a str,
) -> Result<RuleLine, StatementFault>
    ensures { MatchResult result
        (λ r. IsRuleLine ranges.now (words_of text.now) r.rule r.port r.named)
        (IsNoRuleLine ranges.now (words_of text.now)) }
{
    let Some(parts) = rule_parts(ranges, text) else {
        return Err(StatementFault::RuleCount(words_in(text)));
    };
    let named = parts.named;
    let rule = match rule_of(&parts.words) {
        Ok(rule) => rule,
        Err(word) => return Err(StatementFault::Word { word, named }),
    };
    match port_in(parts.rest) {
        Some(port) => Ok(RuleLine { rule, port, named }),
        None => Err(StatementFault::Port { named }),
    }
}

/// The three words of a text, if it has no more and no fewer.
#[tactic(auto, unfolding(crate::specs::Statements::three_words))]
fn three_words(text: &str) -> Option<NamedRange<'_>>
    ensures { option_map range_text result ≡ three_words (words_of text.now) }
{
    let (name, rest) = next_word(text)?;
    let (low, rest) = next_word(rest)?;
    let (high, rest) = next_word(rest)?;
    match next_word(rest) {
        None => Some(NamedRange { name, low, high }),
        Some(_) => None,
    }
}

/// The range that the text after `.range` defines, if these ranges have names already, and whether its last address is
/// before its first.
///
/// # Errors
///
/// The first of these faults: the text does not have three words, its first word is no name, a range has that name, or
/// an address is none.
pub fn read_range<'a>(
    ranges: &NamedRanges<'a>,
    text: &'a str,
) -> Result<(NamedRange<'a>, bool), StatementFault>
    ensures { MatchResult result
        (λ r. IsRangeLine ranges.now (words_of text.now) (range_text r.0) r.1)
        (IsNoRange ranges.now (words_of text.now)) }
{
    let Some(range) = three_words(text) else {
        return Err(StatementFault::RangeCount(words_in(text)));
    };
    if !is_range_name(range.name) {
        return Err(StatementFault::RangeName);
    }
    if ranges.named(range.name).is_some() {
        return Err(StatementFault::RangeTwice);
    }
    let Some(low) = address_of(range.low) else {
        return Err(StatementFault::RangeLow);
    };
    let Some(high) = address_of(range.high) else {
        return Err(StatementFault::RangeHigh);
    };
    Ok((range, high < low))
}
