//! Reading what a host hands over.

ghost use Rattle.std.specs.Prelude.{◌≡◌, ◌<◌, IfOk, MatchOption, length};
ghost use Rattle.page_format.specs.Given.{IsHostGiven, IsNotGiven};
ghost use Rattle.page_format.specs.Pieces.{words_value};
ghost use Rattle.page_format.specs.Reading.{BeginsFile, BeginsNoFile, BeginsNoPiece, BeginsNoWord, BeginsNoWords, BeginsNumber, BeginsPiece, BeginsWord, BeginsWords, IsFolderOf, IsNoFolder};

use folders::Folder;
use std::alloc::{AllocError, Global};

/// How many bytes a number takes.
const WIDTH: usize = 4;

/// The number at the beginning of bytes, and what comes after it.
fn number_of(bytes: &[u8]) -> Option<(usize, &[u8])>
    ensures { MatchOption result (length bytes.now < WIDTH)
        (λ found. BeginsNumber found.0 found.1.now bytes.now) }
{
    let (head, rest) = bytes.split_first_chunk::<WIDTH>()?;
    Some((u32::from_le_bytes(*head) as usize, rest))
}

/// The piece at the beginning of bytes, and what comes after it.
#[tactic(auto, using(crate::proofs::Found::piece_found, crate::proofs::Refused::few_no_piece, crate::proofs::Refused::short_no_piece))]
fn piece_of(bytes: &[u8]) -> Option<(&[u8], &[u8])>
    ensures { MatchOption result (BeginsNoPiece bytes.now)
        (λ found. BeginsPiece found.0.now found.1.now bytes.now) }
{
    let (length, rest) = number_of(bytes)?;
    if rest.len() < length {
        return None;
    }
    Some(rest.split_at(length))
}

/// The word at the beginning of bytes, and what comes after it.
#[tactic(auto, using(crate::proofs::Found::word_found, crate::proofs::Refused::no_piece_no_word, crate::proofs::Refused::no_text_no_word))]
fn word_of(bytes: &[u8]) -> Option<(&str, &[u8])>
    ensures { MatchOption result (BeginsNoWord bytes.now)
        (λ found. BeginsWord found.0.now found.1.now bytes.now) }
{
    let (piece, rest) = piece_of(bytes)?;
    match str::from_utf8(piece) {
        Ok(word) => Some((word, rest)),
        Err(_) => None,
    }
}

/// This many words at the beginning of bytes, and what comes after them.
#[tactic(auto, using(crate::proofs::Found::no_words_found))]
fn words_of(
    alloc: Global,
    count: usize,
    bytes: &[u8],
) -> Result<Option<(Vec<&str>, &[u8])>, AllocError>
    ensures { IfOk result (λ found. MatchOption found (BeginsNoWords count bytes.now)
        (λ it. BeginsWords count (words_value it.0.items) it.1.now bytes.now)) }
{
    let mut words = Vec::new(alloc);
    let mut rest = bytes;
    for _word in 0..count {
        let Some((word, after)) = word_of(rest) else {
            return Ok(None);
        };
        words.push(word)?;
        rest = after;
    }
    Ok(Some((words, rest)))
}

/// Name and bytes of the file at the beginning of bytes, and what comes after it.
#[tactic(auto, using(crate::proofs::Found::file_found, crate::proofs::Refused::no_word_no_file, crate::proofs::Refused::no_piece_no_file))]
fn file_of(bytes: &[u8]) -> Option<(&str, &[u8], &[u8])>
    ensures { MatchOption result (BeginsNoFile bytes.now)
        (λ found. BeginsFile found.0.now found.1.now found.2.now bytes.now) }
{
    let (name, rest) = word_of(bytes)?;
    let (content, rest) = piece_of(rest)?;
    Some((name, content, rest))
}

/// The folder whose files the bytes are, in which the file `held` cannot be written.
#[tactic(auto, using(crate::proofs::Found::none_read, crate::proofs::Found::all_read))]
fn folder_of(
    alloc: Global,
    held: &'static str,
    bytes: &[u8],
) -> Result<Option<Folder<'static>>, AllocError>
    ensures { IfOk result (λ found. MatchOption found (IsNoFolder bytes.now)
        (λ folder. IsFolderOf folder bytes.now)) }
{
    let mut folder = Folder::new(alloc, held);
    let mut rest = bytes;
    while !rest.is_empty() {
        let Some((name, content, after)) = file_of(rest) else {
            return Ok(None);
        };
        folder.put(name, content)?;
        rest = after;
    }
    Ok(Some(folder))
}

/// The words of a command line and a folder of files, which a host hands over.
#[derive(Drop)]
pub struct Given<'a> {
    /// The words.
    pub words: Vec<&'a str>,
    /// The files. If two have one name, the one that comes later is the file.
    pub folder: Folder<'static>,
}

/// The words and files that bytes are, or `None` if they are none. In the folder the file `held` cannot be written.
///
/// # Errors
///
/// If memory is refused.
#[tactic(auto, using(crate::proofs::Found::given_found, crate::proofs::Refused::few_not_given, crate::proofs::Refused::no_words_not_given))]
pub fn given_of<'a>(
    alloc: Global,
    held: &'static str,
    bytes: &'a [u8],
) -> Result<Option<Given<'a>>, AllocError>
    ensures { IfOk result (λ found. MatchOption found (IsNotGiven bytes.now)
        (λ given. IsHostGiven (words_value given.words.items) given.folder bytes.now)) }
{
    let Some((count, rest)) = number_of(bytes) else {
        return Ok(None);
    };
    let Some((words, rest)) = words_of(alloc, count, rest)? else {
        return Ok(None);
    };
    let Some(folder) = folder_of(alloc, held, rest)? else {
        return Ok(None);
    };
    Ok(Some(Given { words, folder }))
}
