//! Lines of which no packet is a part: those of `sim`, those that `live` prints beside answers, and the times of a
//! journal's file.

use frames::FrameFault;
use rmap::Discard;
use std::alloc::AllocError;

/// How many letters the time of a line of a journal's file has: `2026-11-30T12:00:00.000Z`.
const TIME_LENGTH: usize = 24;

/// The number that a word writes in decimal digits, if it does.
pub fn decimal(word: &str) -> Option<u64> {
    if word.starts_with('+') {
        return None;
    }
    word.parse().ok()
}

/// The reason to discard a packet whose number a word is, in one digit.
pub fn reason_written(word: &str) -> Option<Discard> {
    match word.as_bytes() {
        [digit @ b'0'..=b'9'] => Discard::from_code(*digit - b'0'),
        _ => None,
    }
}

/// Adds how many bytes an instrument set, or how many entries of a journal were handed out. Reports whether the word is a
/// number.
///
/// # Errors
///
/// An error if memory is refused.
pub fn add_count(text: &mut String, count: &str, what: &str) -> Result<bool, AllocError> {
    let Some(count) = decimal(count) else {
        return Ok(false);
    };
    write!(text, "{what} {count}")?;
    Ok(true)
}

/// Whether a letter may be at this place of a time.
fn is_of_time(place: usize, letter: u8) -> bool {
    match place {
        4 | 7 => letter == b'-',
        10 => letter == b'T',
        13 | 16 => letter == b':',
        19 => letter == b'.',
        23 => letter == b'Z',
        _ => matches!(letter, b'0'..=b'9'),
    }
}

/// Whether a word is the time before a line of a journal's file.
pub fn is_time(word: &str) -> bool {
    let mut place: usize = 0;
    for letter in word.as_bytes() {
        if !is_of_time(place, *letter) {
            return false;
        }
        place = place.saturating_add(1);
    }
    place == TIME_LENGTH
}

/// Whether a word has this many hexadecimal digits, and nothing else.
fn has_digits(word: &str, count: usize) -> bool {
    for letter in word.as_bytes() {
        if !matches!(*letter, b'0'..=b'9' | b'A'..=b'F' | b'a'..=b'f') {
            return false;
        }
    }
    word.len() == count
}

/// Adds that the lines after this one are of that bank. Reports whether the words are of a bank.
fn add_bank(text: &mut String, number: &str, base: &str) -> Result<bool, AllocError> {
    if !has_digits(number, 2) || !has_digits(base, 8) {
        return Ok(false);
    }
    write!(text, "entries of bank {number} at {base} follow")?;
    Ok(true)
}

/// Adds what a scrub found in a slot. Reports whether the words are of a scrub.
fn add_scrub(text: &mut String, slot: &str, state: &str) -> Result<bool, AllocError> {
    let Some(slot) = decimal(slot) else {
        return Ok(false);
    };
    match state {
        "mended" => write!(
            text,
            "scrub: the program of slot {slot} was made again of its image"
        )?,
        "withdrawn" => write!(text, "scrub: the program of slot {slot} was withdrawn")?,
        _ => return Ok(false),
    }
    Ok(true)
}

/// Adds why a packet was discarded. Reports whether the word is the number of a reason.
fn add_reason(text: &mut String, code: &str) -> Result<bool, AllocError> {
    let Some(why) = reason_written(code) else {
        return Ok(false);
    };
    write!(text, "discard {code} {why}")?;
    Ok(true)
}

/// The fault of a frame whose number a word is.
fn fault_written(word: &str) -> Option<FrameFault> {
    match word.as_bytes() {
        [digit @ b'0'..=b'9'] => FrameFault::from_code(*digit - b'0'),
        _ => None,
    }
}

/// Adds what became of a frame: its fault, or why its packet was discarded. Reports whether the words are such.
fn add_frame(text: &mut String, number: &str, what: &str, code: &str) -> Result<bool, AllocError> {
    let Some(number) = decimal(number) else {
        return Ok(false);
    };
    match what {
        "fault" => {
            let Some(fault) = fault_written(code) else {
                return Ok(false);
            };
            write!(text, "frame {number} fault {code} {fault}")?;
        }
        "discard" => {
            let Some(why) = reason_written(code) else {
                return Ok(false);
            };
            write!(text, "frame {number} discard {code} {why}")?;
        }
        _ => return Ok(false),
    }
    Ok(true)
}

/// Adds these words. They are always such.
fn add_words(text: &mut String, words: &str) -> Result<bool, AllocError> {
    text.push_str(words)?;
    Ok(true)
}

/// Adds what an event of `sim` came to, except for one that has a reply. Reports whether the words are such.
fn add_step(text: &mut String, words: &[&str]) -> Result<bool, AllocError> {
    match words {
        ["refused"] => add_words(text, "refused: no step of this moment"),
        ["discard", code] => add_reason(text, code),
        ["taken", generation] => {
            add_count(
                text,
                generation,
                "taken, and judged by the program of generation",
            )
        }
        ["told", number] => add_count(text, number, "the program got"),
        _ => Ok(false),
    }
}

/// Adds what a line of these words is that has no packet: of a journal's beginning, a scrub, a damaged entry, a frame, or an event.
/// Reports whether it is.
///
/// # Errors
///
/// An error if memory is refused.
pub fn add_other(text: &mut String, words: &[&str]) -> Result<bool, AllocError> {
    match words {
        ["bank", number, base] => add_bank(text, number, base),
        ["journal", "damaged"] => add_words(text, "entry that is damaged in memory"),
        ["journal", "scrub", slot, state] => add_scrub(text, slot, state),
        ["frame", number, what, code] => add_frame(text, number, what, code),
        _ => add_step(text, words),
    }
}

/// Adds that a node began, as a line of a journal's file has it: its version, and the sum of its words and files.
/// Reports whether the words are such.
///
/// # Errors
///
/// An error if memory is refused.
pub fn add_begin(text: &mut String, words: &[&str]) -> Result<bool, AllocError> {
    match words {
        ["begin", version, sum] => {
            write!(text, "a node of version {version} began, with sum {sum}")?;
            Ok(true)
        }
        _ => Ok(false),
    }
}
