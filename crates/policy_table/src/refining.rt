//! Lines that are no statement, but are commonly written so.

ghost use Rattle.std.specs.Prelude.{◌≡◌, option_map};
ghost use Rattle.spw.specs.Line.{words_of};
ghost use Rattle.policy_table.specs.Refined.{begins_comment, fifth_word, is_joined, is_joined_at, refined, third_word};

use crate::statement_faults::StatementFault;
use crate::statements::next_word;
use spw::first_word;

/// The third word of a text.
#[tactic(auto, unfolding(crate::specs::Refined::third_word))]
fn third_word(text: &str) -> Option<&str>
    ensures { option_map (λ word. word.now) result ≡ third_word (words_of text.now) }
{
    let (_first, rest) = next_word(text)?;
    let (_second, rest) = next_word(rest)?;
    let (third, _rest) = next_word(rest)?;
    Some(third)
}

/// The fifth word of a text.
#[tactic(auto, unfolding(crate::specs::Refined::fifth_word))]
pub fn fifth_word(text: &str) -> Option<&str>
    ensures { option_map (λ word. word.now) result ≡ fifth_word (words_of text.now) }
{
    let (_first, rest) = next_word(text)?;
    let (_second, rest) = next_word(rest)?;
    third_word(rest)
}

/// Whether a word is of the form of two addresses with a dash between them.
fn is_joined(word: &str) -> bool
    ensures { result ≡ is_joined word.now }
{
    let bytes = word.as_bytes();
    bytes.len() == 17 && bytes[8] == b'-'
}

/// Whether there is a word that is so.
fn is_joined_at(word: Option<&str>) -> bool
    ensures { result ≡ is_joined_at (option_map (λ word. word.now) word.entry) }
{
    match word {
        Some(word) => is_joined(word),
        None => false,
    }
}

/// Whether a word begins a comment elsewhere, or in version 2.
fn begins_comment(word: &str) -> bool
    ensures { result ≡ begins_comment word.now }
{
    word.starts_with('#') || word.starts_with('/') || word.starts_with(';')
}

/// The fault to report for words that are no statement because of this fault.
pub fn refined(text: &str, fault: StatementFault) -> StatementFault
    ensures { result ≡ refined (words_of text.now) fault }
{
    let Some((first, _rest)) = first_word(text) else {
        return fault;
    };
    if begins_comment(first) {
        return StatementFault::Comment;
    }
    if first == ".range" {
        return if is_joined_at(third_word(text)) {
            StatementFault::RangeJoined
        } else {
            fault
        };
    }
    if is_joined_at(fifth_word(text)) {
        StatementFault::RuleJoined
    } else {
        fault
    }
}
