//! The words of a line.

ghost use Rattle.std.specs.Prelude.{◌≡◌, ◌==◌, IfOk, MatchOption, length};
ghost use Rattle.std.specs.List.{before_first};
ghost use Rattle.basm_lex.specs.Lines.{IsLabel, IsNoLabel, code_of, without_trailing_spaces, is_semicolon, operands_of, rest_of_line, parts_between_commas, texts, without_leading_spaces, trimmed_text, word_of};

use crate::names::label_name;
use std::alloc::{AllocError, Global};

/// What a line says, without its comment.
#[derive(Debug, Drop)]
pub struct InstructionLine<'a> {
    /// The first word. It is empty in a line without words.
    pub word: &'a str,
    /// The parts between the commas after it, without the spaces around them.
    pub operands: Vec<&'a str>,
}

/// The beginning of a line, without its comment.
#[derive(Debug, Drop)]
pub struct LineHead<'a> {
    /// The first word. It is empty in a line without words.
    pub word: &'a str,
    /// The name that the line defines, if the line is a label with nothing after it.
    pub label: Option<&'a str>,
}

/// The line without its comment and the spaces around it.
#[tactic(auto, unfolding(crate::specs::Lines::code_of))]
fn code_of(line: &str) -> &str
    ensures { result.now ≡ code_of line.now }
{
    let begun = trim_start(line);
    if is_bare(begun) {
        return "";
    }
    trim_end(before_comment(begun))
}

/// Whether the text has nothing except a comment.
fn is_bare(text: &str) -> bool
    ensures { result ≡ (length (before_first is_semicolon text.now) == 0) }
{
    match text.as_bytes() {
        [first, ..] => *first == b';',
        [] => true,
    }
}

/// The text of a line before its comment.
pub fn before_comment(line: &str) -> &str
    ensures { result.now ≡ before_first is_semicolon line.now }
{
    match line.split_once(';') {
        Some((code, _)) => code,
        None => line,
    }
}

/// The first word of a line, and what follows it.
#[tactic(auto, unfolding(crate::specs::Lines::word_of, crate::specs::Lines::rest_of_line))]
fn split_word(line: &str) -> (&str, &str)
    ensures word { result.0.now ≡ word_of line.now }
    ensures rest { result.1.now ≡ rest_of_line line.now }
{
    let code = code_of(line);
    if code.is_empty() {
        return ("", "");
    }
    match code.split_once(' ') {
        Some((word, rest)) => (word, rest),
        None => (code, ""),
    }
}

/// The first word of a line, and the name that it defines.
pub fn read_head(line: &str) -> LineHead<'_>
    ensures word { result.word.now ≡ word_of line.now }
    ensures label { MatchOption result.label (IsNoLabel line.now)
        (λ name. IsLabel line.now name.now) }
{
    let (word, after) = split_word(line);
    if after.is_empty() {
        LineHead {
            word,
            label: label_name(word),
        }
    } else {
        LineHead { word, label: None }
    }
}

/// The first word and the operands of a line. Spaces separate words; a comma and spaces separate operands. A comment
/// begins with a semicolon. A tab or a carriage return is part of a word.
///
/// # Errors
///
/// Memory is refused.
pub fn read_statement<'a>(alloc: Global, line: &'a str) -> Result<InstructionLine<'a>, AllocError>
    ensures word { IfOk result (λ found. found.word.now ≡ word_of line.now) }
    ensures operands { IfOk result (λ found. texts found.operands.items ≡ operands_of line.now) }
{
    let (word, rest) = split_word(line);
    let operands = read_operands(alloc, rest)?;
    Ok(InstructionLine { word, operands })
}

/// The parts between commas, without the spaces around them.
fn read_operands(alloc: Global, rest: &str) -> Result<Vec<&str>, AllocError>
    ensures { IfOk result (λ operands. texts operands.items ≡ parts_between_commas rest.now) }
{
    if rest.is_empty() {
        Ok(Vec::new(alloc))
    } else {
        rest.split(',').map(trim).collect(alloc)
    }
}

/// The text without the spaces before and after it.
fn trim(text: &str) -> &str
    ensures { result.now ≡ trimmed_text text.now }
{
    trim_end(trim_start(text))
}

fn trim_start(text: &str) -> &str
    ensures { result.now ≡ without_leading_spaces text.now }
{
    let mut rest = text;
    while let Some(after) = rest.strip_prefix(' ') {
        rest = after;
    }
    rest
}

fn trim_end(text: &str) -> &str
    ensures { result.now ≡ without_trailing_spaces text.now }
{
    let mut rest = text;
    while let Some(before) = rest.strip_suffix(' ') {
        rest = before;
    }
    rest
}
