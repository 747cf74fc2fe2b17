//! The words of a text: what is between its spaces.

ghost use Rattle.std.specs.Prelude.{◌≡◌, [], ◌∷◌, ◌++◌, MatchOption};
ghost use Rattle.spw.specs.Line.{words_of};
ghost use Rattle.spw.specs.Spaces.{HasNoSpace, IsCut};

use memchr::{memchr, memrchr};

/// A text at its first space: what is before it and after it. It is `None` if the text has no space.
#[inline(always)]
fn at_first_space(text: &str) -> Option<(&str, &str)>
    ensures { MatchOption result (HasNoSpace text.now)
        (λ r. IsCut text.now r.0.now r.1.now × HasNoSpace r.0.now) }
{
    match memchr(b' ', text.as_bytes()) {
        Some(place) => Some((&text[..place], &text[place + 1..])),
        None => None,
    }
}

/// A text at its last space, in the same way.
#[inline(always)]
fn at_last_space(text: &str) -> Option<(&str, &str)>
    ensures { MatchOption result (HasNoSpace text.now)
        (λ r. IsCut text.now r.0.now r.1.now × HasNoSpace r.1.now) }
{
    match memrchr(b' ', text.as_bytes()) {
        Some(place) => Some((&text[..place], &text[place + 1..])),
        None => None,
    }
}

/// The first word of a text and what is after it, or `None` if there is no word.
pub fn first_word(text: &str) -> Option<(&str, &str)>
    ensures { MatchOption result (words_of text.now ≡ [])
        (λ r. words_of text.now ≡ r.0.now ∷ words_of r.1.now) }
{
    let mut rest = text;
    while let Some((word, following)) = at_first_space(rest) {
        if !word.is_empty() {
            return Some((word, following));
        }
        rest = following;
    }
    if rest.is_empty() {
        None
    } else {
        Some((rest, ""))
    }
}

/// What is before the last word of a text, and that word, or `None` if there is no word.
#[inline(always)]
pub(crate) fn last_word(text: &str) -> Option<(&str, &str)>
    ensures { MatchOption result (words_of text.now ≡ [])
        (λ r. words_of text.now ≡ words_of r.0.now ++ r.1.now ∷ []) }
{
    let mut rest = text;
    while let Some((before, word)) = at_last_space(rest) {
        if !word.is_empty() {
            return Some((before, word));
        }
        rest = before;
    }
    if rest.is_empty() {
        None
    } else {
        Some(("", rest))
    }
}
