//! Lines of a dump: each has only the bytes of a packet, without port and marker.

ghost use Rattle.std.specs.Prelude.{◌≡◌, ◌++◌, OnOk, option_map, string_bytes};
ghost use Rattle.commands.specs.Desks.{packet_line};
ghost use Rattle.job_live.specs.Talking.{line_given};

use job_live::talk::Talk;
use job_parts::storage::Cannot;
use spw::lines_of;
use std::alloc::{AllocError, Global};

/// Adds the packet line of a line of a dump: that of port 0, whose packet ends in EOP.
fn add_line(text: &mut String, line: &str) -> Result<(), AllocError>
    ensures { OnOk result (string_bytes text.new ≡ string_bytes text.old ++ packet_line line.now) }
{
    write!(text, "0 {line} EOP")
}

/// The packet lines of a dump, as many as it has lines.
///
/// # Errors
///
/// An error if memory is refused.
pub fn dump_lines(alloc: Global, dump: &str) -> Result<String, AllocError> {
    let mut text = String::new(alloc);
    for line in lines_of(dump) {
        add_line(&mut text, line)?;
        text.push('\n')?;
    }
    Ok(text)
}

/// Puts the packet line of a line of a dump in the place of what `line` holds, if one came.
fn put_line(line: &mut String, is_given: bool, held: &str) -> Result<(), AllocError>
    ensures { OnOk result (line_given is_given (string_bytes line.new)
        ≡ option_map packet_line (line_given is_given held.now)) }
{
    line.clear();
    if is_given {
        add_line(line, held)?;
    }
    Ok(())
}

/// A talk whose lines are those of a dump, if it is said so: what comes is the packet line of each.
#[derive(Drop)]
pub struct DumpTalk<T: Drop> {
    talk: T,
    is_dump: bool,
    held: String,
}

impl<T: Talk + Drop> DumpTalk<T> {
    /// The talk, whose lines are those of a dump or come as they are.
    pub fn new(alloc: Global, talk: T, is_dump: bool) -> DumpTalk<T>
        ensures talk { result.talk ≡ talk }
        ensures dump { result.is_dump ≡ is_dump }
    {
        DumpTalk {
            talk,
            is_dump,
            held: String::new(alloc),
        }
    }

    /// The talk itself.
    pub fn into_talk(self) -> T
        ensures { result ≡ self.talk }
    {
        self.talk
    }
}

impl<T: Talk + Drop> Talk for DumpTalk<T> {
    ghost use Rattle.commands.specs.Desks.{DumpComes, DumpMisses, DumpSends};

    ghost received = { DumpComes T.received };

    ghost sent = { DumpSends T.sent };

    ghost missed = { DumpMisses T.received T.missed };

    ghost unsent = { DumpSends T.unsent };

    fn next(&mut self, line: &mut String) -> Result<bool, Cannot> {
        if !self.is_dump {
            return self.talk.next(line);
        }
        let is_given = self.talk.next(&mut self.held)?;
        match put_line(line, is_given, self.held.as_str()) {
            Ok(()) => Ok(is_given),
            Err(_) => Err(Cannot),
        }
    }

    fn send(&mut self, text: &[u8]) -> Result<(), Cannot> {
        self.talk.send(text)
    }
}
