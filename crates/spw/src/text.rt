//! Lines of a text.

ghost use Rattle.std.specs.Prelude.{◌≡◌, ◌≢◌, ◌≤◌, [], ◌∷◌, length};
ghost use Rattle.spw.specs.Line.{lines_of};

use memchr::memchr;
use std::marker::Model;

/// The lines of a text that are still to come, in order. A line feed ends a line, and the last may lack its own. No
/// line has its line feed.
#[derive(Debug, Drop)]
pub struct TextLines<'a> {
    rest: &'a str,
}

impl<'a> Model for TextLines<'a> {
    ghost use Rattle.std.specs.Prelude.{List, ℕ};
    ghost use Rattle.spw.specs.Line.{lines_of};

    ghost Value = { List (List ℕ) };

    ghost view = { λ l. lines_of l.rest.now };
}

impl<'a> Iterator for TextLines<'a> {
    ghost use Rattle.std.specs.Iterator.{YieldsFirstRef, item_count};

    type Item = &'a str;

    ghost next_gives = { YieldsFirstRef (λ lines. lines) };

    ghost remaining = { item_count (λ lines. lines) };

    fn next(&mut self) -> Option<&'a str> {
        if self.rest.is_empty() {
            return None;
        }
        let (line, rest) = cut(self.rest);
        self.rest = rest;
        Some(line)
    }
}

/// The first line of a text that is not empty, and what is after its line feed.
fn cut(text: &str) -> (&str, &str)
    ensures { text.now ≢ [] → lines_of text.now ≡ result.0.now ∷ lines_of result.1.now }
{
    match memchr(b'\n', text.as_bytes()) {
        Some(end) => (&text[..end], &text[end + 1..]),
        None => (text, ""),
    }
}

/// The lines of a text: no more than it has bytes.
pub fn lines_of(text: &str) -> TextLines<'_>
    ensures lines { result ≡ lines_of text.now }
    ensures few { length result ≤ length text.now }
{
    TextLines { rest: text }
}
