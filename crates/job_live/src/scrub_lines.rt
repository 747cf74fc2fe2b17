//! The line of a scrub.

ghost use Rattle.std.specs.Prelude.{◌≡◌, ◌≤◌, ◌+◌, ◌++◌, length};
ghost use Rattle.std.specs.Vec.{vec_capacity, vec_len};
ghost use Rattle.job_live.specs.ScrubLines.{found_text, scrub_line};

use crate::putting::{put, put_port};
use scrub::{Health, ScrubFindings};

/// How many bytes the longest line of a scrub has: `journal scrub SLOT withdrawn`, with a slot of three digits.
pub const MOST_OF_SCRUB: usize = 28;

/// How many bytes such a line has besides its last word: its first words, a slot of three digits, a space and the line feed.
const BESIDE_STATE: usize = 19;

/// Puts the line of a slot in such a state after a text. The condition is room for it.
fn put_scrub(text: &mut Vec<u8>, slot: u8, state: &[u8])
    requires { vec_len text.old + (BESIDE_STATE + length state.now) ≤ vec_capacity text.old }
    ensures items { text.new.items ≡ text.old.items ++ scrub_line slot state.now }
    ensures len { vec_len text.new ≤ vec_len text.old + (BESIDE_STATE + length state.now) }
    ensures room { vec_capacity text.old ≤ vec_capacity text.new }
{
    put(text, b"journal scrub ");
    put_port(text, slot);
    put(text, b" ");
    put(text, state);
    put(text, b"\n");
}

/// Puts the line of what a scrub found after a text: `journal scrub SLOT mended` or `journal scrub SLOT withdrawn`. It
/// puts nothing for a program that was whole. The condition is room for the longest ([`MOST_OF_SCRUB`]).
#[tactic(auto, using(crate::proofs::PutText::none_more))]
pub fn put_found(text: &mut Vec<u8>, found: Option<ScrubFindings>)
    requires { vec_len text.old + MOST_OF_SCRUB ≤ vec_capacity text.old }
    ensures items { text.new.items ≡ text.old.items ++ found_text found }
    ensures len { vec_len text.new ≤ vec_len text.old + MOST_OF_SCRUB }
    ensures room { vec_capacity text.old ≤ vec_capacity text.new }
{
    let Some(ScrubFindings { slot, health }) = found else {
        return;
    };
    match health {
        Health::Whole => {}
        Health::Mended => put_scrub(text, slot, b"mended"),
        Health::Withdrawn | Health::Unmended => put_scrub(text, slot, b"withdrawn"),
    }
}
