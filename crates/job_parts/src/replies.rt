//! The lines of replies.

ghost use Rattle.std.specs.Prelude.{OnOk};
ghost use Rattle.hex.specs.Hex.{encode_upper};
ghost use Rattle.job_parts.specs.Replies.{reply_line, reply_text};
ghost use Rattle.job_parts.specs.Printed.{Prints};

use crate::pending::{Pending, number_text, print_joined};
use std::io::{self, Write};

/// Prints bytes as hexadecimal digits, in upper case, without memory of its own.
///
/// # Errors
///
/// The error of `out`, if it does not take all of the text.
pub fn print_hex<W: Write>(out: &mut W, bytes: &[u8]) -> io::Result<()>
    ensures { OnOk result (Prints W.contents out.old out.new (encode_upper bytes.now)) }
{
    print_joined(out, Pending::new(), bytes, b"")
}

/// Prints the bytes of a reply as hexadecimal digits, or `-` if none is due and it has no bytes.
///
/// # Errors
///
/// The error of `out`, if it does not take all of the text.
pub fn print_bytes<W: Write>(out: &mut W, reply: &[u8]) -> io::Result<()>
    ensures { OnOk result (Prints W.contents out.old out.new (reply_text reply.now)) }
{
    if reply.is_empty() {
        return write!(out, "-");
    }
    print_hex(out, reply)
}

/// Prints a reply: `PORT HEX EOP`, or `PORT -` if none is due and it has no bytes.
///
/// # Errors
///
/// The error of `out`, if it does not take all of the line.
pub fn print_reply<W: Write>(out: &mut W, port: u8, reply: &[u8]) -> io::Result<()>
    ensures { OnOk result (Prints W.contents out.old out.new (reply_line port reply.now)) }
{
    if reply.is_empty() {
        return writeln!(out, "{port} -");
    }
    print_joined(out, number_text(port), reply, b" EOP\n")
}
