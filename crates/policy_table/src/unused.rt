//! Ranges of a table that no rule names.

ghost use Rattle.std.specs.Prelude.{◌≡◌, ◌++◌, ◌||◌, ℕ, List, IfOk, OnOk, is_some, option_map};
ghost use Rattle.spw.specs.Line.{lines_of, words_of};
ghost use Rattle.policy_table.specs.Ranges.{place_in};
ghost use Rattle.policy_table.specs.Unused.{AreUsed, has_name, is_named_by_none, is_unused, number_if, range_name, unused_ranges};

use crate::ranges::add_place;
use crate::refining::fifth_word;
use basm_lex::before_comment;
use spw::{first_word, lines_of};
use std::alloc::{AllocError, Global};
use std::collections::BTreeMap;

/// The name that a text gives to a range, if it gives one.
fn range_name(text: &str) -> Option<&str>
    ensures { option_map (λ name. name.now) result ≡ range_name (words_of text.now) }
{
    let (first, rest) = first_word(text)?;
    let (name, _rest) = first_word(rest)?;
    if first == ".range" { Some(name) } else { None }
}

/// Adds the word that a line has in place of two addresses, if it has one.
fn add_used<'a>(
    used: &mut BTreeMap<&'a str, usize>,
    line: &'a str,
    number: usize,
) -> Result<(), AllocError>
    ensures { OnOk result ((name : List ℕ) → is_some (place_in used.new.entries name)
        ≡ (is_some (place_in used.old.entries name) || has_name name line.now)) }
{
    match fifth_word(before_comment(line)) {
        Some(word) => add_place(used, word, number),
        None => Ok(()),
    }
}

/// The words that the lines of a text have in place of two addresses, each with the number of a line.
fn used_in<'a>(alloc: Global, text: &'a str) -> Result<BTreeMap<&'a str, usize>, AllocError>
    ensures { IfOk result (λ used. AreUsed used.entries (lines_of text.now)) }
{
    let mut used = BTreeMap::new(alloc);
    let mut number: usize = 0;
    for line in lines_of(text) {
        number += 1;
        add_used(&mut used, line, number)?;
    }
    Ok(used)
}

/// Whether there is a name, and it is none of these words.
fn is_named_by_none(used: &BTreeMap<&str, usize>, name: Option<&str>) -> bool
    ensures { (lines : List (List ℕ)) → AreUsed used.now.entries lines
        → result ≡ is_named_by_none lines (option_map (λ name. name.now) name.entry) }
{
    match name {
        Some(name) => !used.contains_key(name),
        None => false,
    }
}

/// Whether a line gives a name to a range that is none of the words that lines have in place of two addresses.
fn is_unused(used: &BTreeMap<&str, usize>, line: &str) -> bool
    ensures { (lines : List (List ℕ)) → AreUsed used.now.entries lines
        → result ≡ is_unused lines line.now }
{
    is_named_by_none(used, range_name(before_comment(line)))
}

/// Adds a number, if it is wanted.
fn push_if(numbers: &mut Vec<usize>, wanted: bool, number: usize) -> Result<(), AllocError>
    ensures { OnOk result (numbers.new.items ≡ numbers.old.items ++ number_if wanted number) }
{
    if wanted {
        numbers.push(number)?;
    }
    Ok(())
}

/// The numbers of the lines of a table of version 2 that give names to ranges which no rule names.
///
/// # Errors
///
/// An error if memory is refused.
pub fn unused_ranges(alloc: Global, text: &str) -> Result<Vec<usize>, AllocError>
    ensures { IfOk result (λ lines. lines.items ≡ unused_ranges (lines_of text.now)) }
{
    let used = used_in(alloc, text)?;
    let mut unused = Vec::new(alloc);
    let mut number: usize = 0;
    for line in lines_of(text) {
        number += 1;
        push_if(&mut unused, is_unused(&used, line), number)?;
    }
    Ok(unused)
}
