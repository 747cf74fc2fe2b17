//! Text with room after it: what is put there takes no memory.

ghost use Rattle.hex.specs.Hex.{encode_upper};
ghost use Rattle.job_nodes.specs.JudgeJob.{discard_line};
ghost use Rattle.job_nodes.specs.Lines.{served_line};
ghost use Rattle.job_parts.specs.Replies.{reply_line};
ghost use Rattle.rmap.specs.Codes.{discard_code};
ghost use Rattle.std.specs.Prelude.{◌≡◌, ◌≤◌, ◌<◌, ◌+◌, ◌*◌, ◌++◌, ◌∷◌, [], ℕ, List, decimal, length};
ghost use Rattle.std.specs.Vec.{vec_capacity, vec_len};

use node_parts::{Served, Stop};
use rmap::{Discard, MAX_REPLY};

/// The digits of hexadecimal numbers, with upper case letters.
const DIGITS: [u8; 16] = *b"0123456789ABCDEF";

/// The most bytes of a line that reports what became of a packet: `PORT HEX EOP`, with the longest reply.
pub const MOST_OF_PACKET: usize = 2 * MAX_REPLY + 9;

/// Puts bytes after a text. The condition is room for them.
pub fn put(text: &mut Vec<u8>, bytes: &[u8])
    requires { vec_len text.old + length bytes.now ≤ vec_capacity text.old }
    ensures items { text.new.items ≡ text.old.items ++ bytes.now }
    ensures len { vec_len text.new ≡ vec_len text.old + length bytes.now }
    ensures room { vec_capacity text.old ≤ vec_capacity text.new }
{
    text.extend_from_slice(bytes).unwrap();
}

/// The two digits of a byte.
fn digits_of(byte: u8) -> [u8; 2]
    ensures { result ≡ encode_upper (byte ∷ []) }
{
    [
        DIGITS[usize::from(byte / 16)],
        DIGITS[usize::from(byte % 16)],
    ]
}

/// Puts bytes after a text as hexadecimal digits, in upper case. The condition is room for two digits a byte.
pub(crate) fn put_hex(text: &mut Vec<u8>, bytes: &[u8])
    requires { vec_len text.old + 2 * length bytes.now ≤ vec_capacity text.old }
    ensures items { text.new.items ≡ text.old.items ++ encode_upper bytes.now }
    ensures len { vec_len text.new ≡ vec_len text.old + 2 * length bytes.now }
    ensures room { vec_capacity text.old ≤ vec_capacity text.new }
{
    for byte in bytes {
        put(text, &digits_of(*byte));
    }
}

/// Puts a number below 10 after the words of a line, and ends it. The condition is room for two bytes.
pub fn put_code(text: &mut Vec<u8>, code: u8)
    requires small { code < 10 }
    requires room { vec_len text.old + 2 ≤ vec_capacity text.old }
    ensures items { text.new.items ≡ text.old.items ++ (decimal code ++ 10 ∷ []) }
    ensures following { (begun words : List ℕ) → text.old.items ≡ begun ++ words
        → text.new.items ≡ begun ++ (words ++ decimal code ++ 10 ∷ []) }
{
    put(text, &[b'0' + code, b'\n']);
}

/// Puts the number of a discard after the words of a line, and ends it. The condition is room for two bytes.
#[tactic(auto, using(crate::proofs::PutText::small_discard))]
pub fn put_discard_code(text: &mut Vec<u8>, discard: Discard)
    requires { vec_len text.old + 2 ≤ vec_capacity text.old }
    ensures items { text.new.items ≡ text.old.items ++ (decimal (discard_code discard) ++ 10 ∷ []) }
    ensures following { (begun words : List ℕ) → text.old.items ≡ begun ++ words
        → text.new.items ≡ begun ++ (words ++ decimal (discard_code discard) ++ 10 ∷ []) }
{
    put_code(text, discard.code());
}

/// Puts a number after a text. The condition is room for three digits.
pub(crate) fn put_port(text: &mut Vec<u8>, port: u8)
    requires { vec_len text.old + 3 ≤ vec_capacity text.old }
    ensures items { text.new.items ≡ text.old.items ++ decimal port }
    ensures len { vec_len text.new ≤ vec_len text.old + 3 }
    ensures room { vec_capacity text.old ≤ vec_capacity text.new }
{
    let last = b'0' + port % 10;
    if port < 10 {
        put(text, &[last]);
    } else if port < 100 {
        put(text, &[b'0' + port / 10, last]);
    } else {
        put(text, &[b'0' + port / 100, b'0' + port / 10 % 10, last]);
    }
}

/// Puts the line of a reply after a text: `PORT HEX EOP`, or `PORT -` if none is due and it has no bytes.
fn put_reply(text: &mut Vec<u8>, port: u8, reply: &[u8])
    requires { vec_len text.old + (2 * length reply.now + 9) ≤ vec_capacity text.old }
    ensures { text.new.items ≡ text.old.items ++ reply_line port reply.now }
{
    put_port(text, port);
    if reply.is_empty() {
        put(text, b" -\n");
        return;
    }
    put(text, b" ");
    put_hex(text, reply);
    put(text, b" EOP\n");
}

/// Puts the line of a packet that is discarded after a text: `PORT discard C`. The condition is room for 14 bytes.
fn put_discard(text: &mut Vec<u8>, port: u8, discard: Discard)
    requires { vec_len text.old + 14 ≤ vec_capacity text.old }
    ensures { text.new.items ≡ text.old.items ++ discard_line port discard }
{
    put_port(text, port);
    put(text, b" discard ");
    put_discard_code(text, discard);
}

/// Puts the line of what became of a packet after a text, with the reply that was due. Conditions: a reply that is no
/// longer than any ([`MAX_REPLY`]), and room for the longest line ([`MOST_OF_PACKET`]).
pub fn put_served(text: &mut Vec<u8>, port: u8, served: Served, reply: &[u8])
    requires reply { length reply.now ≤ MAX_REPLY }
    requires room { vec_len text.old + MOST_OF_PACKET ≤ vec_capacity text.old }
    ensures { text.new.items ≡ text.old.items ++ served_line port served reply.now }
{
    match served {
        Served::Stopped(Stop::Discarded(discard)) => put_discard(text, port, discard),
        Served::Stopped(Stop::Answered(_)) | Served::Unread | Served::Done(_) | Served::Window(_) =>
            { put_reply(text, port, reply) }
    }
}
