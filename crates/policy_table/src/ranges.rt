//! Ranges of addresses that have names.

ghost use Rattle.std.specs.Prelude.{◌≡◌, ◌++◌, ◌∷◌, [], ℕ, List, None, OnErr, OnOk, Some, bytes_eq, if◌then◌else◌, option_map, slice_get};
ghost use Rattle.std.specs.List.{list_all};
ghost use Rattle.std.specs.Char.{is_ascii_hexdigit};
ghost use Rattle.std.specs.Option.{option_or};
ghost use Rattle.policy_table.specs.Ranges.{is_eight_digits, is_range_name, place_in, range_named, range_text};

use std::alloc::{AllocError, Global};
use std::collections::BTreeMap;
use std::marker::Model;

/// A range that has a name, by the words that define it.
#[derive(Clone, Copy, Debug, PartialEq, Eq)]
pub struct NamedRange<'a> {
    /// The name.
    pub name: &'a str,
    /// The word of the first address.
    pub low: &'a str,
    /// The word of the last address.
    pub high: &'a str,
}

/// Whether a word has hexadecimal digits only.
fn has_hex_digits_only(word: &str) -> bool
    ensures { result ≡ list_all is_ascii_hexdigit word.now }
{
    word.bytes().all(|byte| byte.is_ascii_hexdigit())
}

/// Whether a word reads as an address: it is eight hexadecimal digits.
fn is_eight_digits(word: &str) -> bool
    ensures { result ≡ is_eight_digits word.now }
{
    word.len() == 8 && has_hex_digits_only(word)
}

/// Whether a word is the name of a range: a letter, then letters, digits and underscores, and not eight hexadecimal
/// digits.
pub fn is_range_name(word: &str) -> bool
    ensures { result ≡ is_range_name word.now }
{
    basm_lex::is_name(word) && !is_eight_digits(word)
}

/// The range of a place, if there is one.
fn range_at<'a>(ranges: &[NamedRange<'a>], place: usize) -> Option<NamedRange<'a>>
    ensures { result ≡ slice_get ranges.now place }
{
    ranges.get(place).copied()
}

/// Gives a name this place, unless it has one.
pub(crate) fn add_place<'a>(
    places: &mut BTreeMap<&'a str, usize>,
    name: &'a str,
    place: usize,
) -> Result<(), AllocError>
    ensures added { OnOk result ((other : List ℕ) → place_in places.new.entries other
        ≡ option_or (place_in places.old.entries other)
        (if bytes_eq name.now other then Some place else None)) }
    ensures err { OnErr result (places.new.entries ≡ places.old.entries) }
{
    if places.contains_key(name) {
        return Ok(());
    }
    match places.insert(name, place) {
        Ok(_) => Ok(()),
        Err(_) => Err(AllocError),
    }
}

/// Ranges that have names, in order. The first range of a name is found by the name.
#[derive(Debug, Drop)]
pub struct NamedRanges<'a> {
    ranges: Vec<NamedRange<'a>>,
    places: BTreeMap<&'a str, usize>,
}

impl<'a> Model for NamedRanges<'a> {
    ghost use Rattle.std.specs.Prelude.{List};
    ghost use Rattle.policy_table.specs.Ranges.{ArePlaces, RangeText, range_texts};

    ghost Value = { List RangeText };

    ghost view = { λ n. range_texts n.ranges.items };

    ghost invariant = { λ n. ArePlaces n.places.entries (range_texts n.ranges.items) };
}

impl<'a> NamedRanges<'a> {
    /// No ranges.
    pub fn new(alloc: Global) -> NamedRanges<'a>
        ensures { result ≡ [] }
    {
        NamedRanges {
            ranges: Vec::new(alloc),
            places: BTreeMap::new(alloc),
        }
    }

    /// The first range that has the name.
    pub fn named(&self, name: &str) -> Option<NamedRange<'a>>
        ensures { option_map range_text result ≡ range_named self.now name.now }
    {
        match self.places.get(name) {
            Some(place) => range_at(self.ranges.as_slice(), *place),
            None => None,
        }
    }

    /// Takes one range more.
    ///
    /// # Errors
    ///
    /// An error if memory is refused.
    pub fn push(&mut self, range: NamedRange<'a>) -> Result<(), AllocError>
        ensures { OnOk result (self.new ≡ self.old ++ range_text range.entry ∷ []) }
    {
        self.ranges.reserve(1)?;
        let place = self.ranges.as_slice().len();
        add_place(&mut self.places, range.name, place)?;
        if self.ranges.push(range).is_err() {
            unreachable!()
        }
        Ok(())
    }
}
