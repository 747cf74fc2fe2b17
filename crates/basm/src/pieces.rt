//! The lines of a text.

ghost use Rattle.std.specs.Prelude.{◌≡◌, ◌∷◌};
ghost use Rattle.basm_lex.specs.Lines.{pieces_of};
ghost use Rattle.basm.specs.Pieces.{pieces_left};

use memchr::memchr;
use std::marker::Model;

/// The lines of a text that are still to come, in order: the parts between its line feeds.
#[derive(Drop)]
pub struct Pieces<'a> {
    rest: Option<&'a str>,
}

impl<'a> Model for Pieces<'a> {
    ghost use Rattle.std.specs.Prelude.{List, ℕ};
    ghost use Rattle.basm.specs.Pieces.{pieces_left};

    ghost Value = { List (List ℕ) };

    ghost view = { λ p. pieces_left p.rest };
}

impl<'a> Iterator for Pieces<'a> {
    ghost use Rattle.std.specs.Iterator.{YieldsFirstRef, item_count};

    type Item = &'a str;

    ghost next_gives = { YieldsFirstRef (λ lines. lines) };

    ghost remaining = { item_count (λ lines. lines) };

    fn next(&mut self) -> Option<&'a str> {
        let text = self.rest?;
        let (line, rest) = cut(text);
        self.rest = rest;
        Some(line)
    }
}

/// The first line of a text, and what follows its line feed.
fn cut(text: &str) -> (&str, Option<&str>)
    ensures { pieces_of text.now ≡ result.0.now ∷ pieces_left result.1 }
{
    match memchr(b'\n', text.as_bytes()) {
        Some(end) => (&text[..end], Some(&text[end + 1..])),
        None => (text, None),
    }
}

/// The lines of a text.
pub fn pieces_of(text: &str) -> Pieces<'_>
    ensures { result ≡ pieces_of text.now }
{
    Pieces { rest: Some(text) }
}
