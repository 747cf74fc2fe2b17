//! The link of this machine: standard input, standard output, and standard error.

ghost use Rattle.std.specs.Prelude.{◌≡◌, OnOk};
ghost use Rattle.std.specs.Io.KnownBytes.{Appends};

use linking::{CannotTransfer, Link};
use std::io::{self, Read, Write};

/// A link over a reader and a writer, and a writer for what is reported, as standard error. It asks the reader for what
/// there is: a buffer that waits to be filled would hold a command back. If a text cannot be reported, nothing ends.
/// The link counts such texts, and the talk then ends with status 1.
#[derive(Drop)]
pub struct HostLink<I: Read + Drop, W: Write + Drop, E: Write + Drop> {
    input: I,
    output: W,
    errors: E,
    lost: io::Result<()>,
    unreported: u64,
}

/// Writes all of the bytes, and holds none of them back.
fn write_through<W: Write>(output: &mut W, bytes: &[u8]) -> io::Result<()>
    ensures { OnOk result (Appends (W.contents output.old) (W.contents output.new) bytes.now) }
{
    output.write_all(bytes)?;
    output.flush()
}

impl<I: Read + Drop, W: Write + Drop, E: Write + Drop> HostLink<I, W, E> {
    /// The link that reads from the first, sends to the second, and reports to the third.
    pub fn new(input: I, output: W, errors: E) -> HostLink<I, W, E>
        ensures input { result.input ≡ input }
        ensures output { result.output ≡ output }
        ensures errors { result.errors ≡ errors }
        ensures unreported { result.unreported ≡ 0 }
    {
        HostLink {
            input,
            output,
            errors,
            lost: Ok(()),
            unreported: 0,
        }
    }

    /// How many texts could not be reported.
    pub fn unreported(&self) -> u64
        ensures { result ≡ self.now.unreported }
    {
        self.unreported
    }

    /// The writer, and why the last bytes could not be sent, if they could not.
    pub fn into_output(self) -> (W, io::Result<()>)
        ensures { result ≡ (self.output, self.lost) }
    {
        (self.output, self.lost)
    }
}

impl<I: Read + Drop, W: Write + Drop, E: Write + Drop> Link for HostLink<I, W, E> {
    ghost use Rattle.std.specs.Prelude.{ℕ, List, Option, nat_lt, ⊤};
    ghost use Rattle.std.specs.Io.KnownBytes.{Appends, Consumes, Keeps};
    ghost use Rattle.job_frames.specs.Reported.{IsTextReported};

    ghost received = { λ before bytes after.
        Consumes (I.remaining before.input) (I.remaining after.input) bytes };

    ghost sent = { λ before bytes after.
        Appends (W.contents before.output) (W.contents after.output) bytes };

    ghost reported = { λ before text after.
        IsTextReported (E.contents before.errors) (E.contents after.errors) text before.unreported after.unreported };

    ghost unread = { λ before after. Keeps (I.remaining before.input) (I.remaining after.input) };

    ghost unsent = { λ _ _ _. ⊤ };

    ghost unreported = { λ _ _ _. ⊥ };

    ghost lost = { λ link. nat_lt 0 link.unreported };

    fn receive(&mut self, room: &mut [u8]) -> Result<usize, CannotTransfer> {
        self.input.read(room).map_err(|_| CannotTransfer)
    }

    fn send(&mut self, bytes: &[u8]) -> Result<(), CannotTransfer> {
        self.lost = write_through(&mut self.output, bytes);
        match self.lost {
            Ok(()) => Ok(()),
            Err(_) => Err(CannotTransfer),
        }
    }

    fn report(&mut self, text: &[u8]) -> Result<(), CannotTransfer> {
        match write_through(&mut self.errors, text) {
            Ok(()) => Ok(()),
            Err(_) => {
                self.unreported = self.unreported.saturating_add(1);
                Ok(())
            }
        }
    }

    fn has_lost(&self) -> bool {
        0 < self.unreported
    }
}
