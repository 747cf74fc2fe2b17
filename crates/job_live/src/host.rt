//! The talk of this machine: standard input and standard output.

ghost use Rattle.std.specs.Prelude.{◌≡◌, ◌<◌, IfOk, OnErr, OnOk, string_bytes};
ghost use Rattle.std.specs.Io.KnownBytes.{Appends, Keeps};
ghost use Rattle.job_live.specs.HostLines.{LosesLine, ReadsByte, ReadsLine, given_byte, text_with};
ghost use Rattle.job_live.specs.Talking.{line_given};

use crate::answering::MAX_LINE;
use crate::talk::Talk;
use job_parts::storage::Cannot;
use std::alloc::AllocError;
use std::io::{self, BufRead, ErrorKind, Read, Write};

/// The character for a byte that is no ASCII character. No word of a line may have it.
const FOREIGN: u8 = b'?';

/// A talk over a reader and a writer. A line that comes is what the reader has up to the next line feed, or to its end.
/// What is sent is appended to what the writer has. A byte that is no ASCII character is read as `?`. If a line is over
/// [`MAX_LINE`] bytes long, one byte more than those is kept.
///
/// The reader has a buffer, since bytes are taken from it one by one.
#[derive(Drop)]
pub struct HostTalk<I: BufRead + Drop, W: Write + Drop> {
    input: I,
    output: W,
    lost: io::Result<()>,
}

/// What is given of a byte.
fn given_byte(byte: u8) -> u8
    ensures value { result ≡ given_byte byte }
    ensures ascii { result < 128 }
{
    if byte.is_ascii() { byte } else { FOREIGN }
}

/// Puts what is given of a byte after the text of its line, if that is not too long already.
fn put_byte(line: &mut String, byte: u8) -> Result<(), AllocError>
    ensures { OnOk result (string_bytes line.new ≡ text_with (string_bytes line.old) byte) }
{
    if line.len() > MAX_LINE {
        return Ok(());
    }
    line.push(char::from(given_byte(byte)))
}

/// Reads the next byte, or `None` at the end. A read that a signal interrupts is tried again.
#[tactic(auto, using(crate::proofs::HostReading::keeps_same, crate::proofs::HostReading::keeps_on, crate::proofs::HostReading::keeps_read))]
fn read_byte<I: Read>(input: &mut I) -> io::Result<Option<u8>>
    ensures read { IfOk result (λ byte. ReadsByte (I.remaining input.old) byte (I.remaining input.new)) }
    ensures kept { OnErr result (Keeps (I.remaining input.old) (I.remaining input.new)) }
{
    let mut room = [0];
    for _try in 0..u64::MAX {
        match input.read(&mut room) {
            Ok(0) => return Ok(None),
            Ok(_) => return Ok(Some(room[0])),
            Err(refused) => {
                if refused.kind() != ErrorKind::Interrupted {
                    return Err(refused);
                }
            }
        }
    }
    Err(io::Error::from(ErrorKind::Interrupted))
}

/// Puts the next line of a reader in the place of what `line` holds. Returns whether there was one.
fn read_line<I: Read>(input: &mut I, line: &mut String) -> io::Result<bool>
    ensures read { IfOk result (λ is_given. ReadsLine (I.remaining input.old)
        (line_given is_given (string_bytes line.new)) (I.remaining input.new)) }
    ensures lost { OnErr result (LosesLine (I.remaining input.old) (I.remaining input.new)) }
{
    line.clear();
    for _count in 0..u64::MAX {
        match read_byte(input)? {
            None => return Ok(!line.is_empty()),
            Some(b'\n') => return Ok(true),
            Some(byte) => put_byte(line, byte)?,
        }
    }
    Err(io::Error::from(ErrorKind::Other))
}

impl<I: BufRead + Drop, W: Write + Drop> HostTalk<I, W> {
    /// The talk that reads from the one, and writes to the other.
    pub fn new(input: I, output: W) -> HostTalk<I, W>
        ensures input { result.input ≡ input }
        ensures output { result.output ≡ output }
    {
        HostTalk {
            input,
            output,
            lost: Ok(()),
        }
    }

    /// The writer, and why the last text could not be sent, if it could not.
    pub fn into_output(self) -> (W, io::Result<()>)
        ensures output { result.0 ≡ self.output }
        ensures lost { result.1 ≡ self.lost }
    {
        (self.output, self.lost)
    }

    /// Writes all of a text, and holds none of it back.
    fn write(&mut self, text: &[u8]) -> io::Result<()>
        ensures { OnOk result
            (Appends (W.contents self.old.output) (W.contents self.new.output) text.now) }
    {
        self.output.write_all(text)?;
        self.output.flush()
    }
}

impl<I: BufRead + Drop, W: Write + Drop> Talk for HostTalk<I, W> {
    ghost use Rattle.std.specs.Prelude.{ℕ, List, Option, ⊤};
    ghost use Rattle.std.specs.Io.KnownBytes.{Appends};
    ghost use Rattle.job_live.specs.HostLines.{LosesLine, ReadsLine};

    ghost received = { λ before line after.
        ReadsLine (I.remaining before.input) line (I.remaining after.input) };

    ghost sent = { λ before text after.
        Appends (W.contents before.output) (W.contents after.output) text };

    ghost missed = { λ before after.
        LosesLine (I.remaining before.input) (I.remaining after.input) };

    ghost unsent = { λ _ _ _. ⊤ };

    fn next(&mut self, line: &mut String) -> Result<bool, Cannot> {
        read_line(&mut self.input, line).map_err(|_| Cannot)
    }

    fn send(&mut self, text: &[u8]) -> Result<(), Cannot> {
        self.lost = self.write(text);
        match self.lost {
            Ok(()) => Ok(()),
            Err(_) => Err(Cannot),
        }
    }
}
