//! The lines of a journal.

ghost use Rattle.std.specs.Prelude.{OnOk};
ghost use Rattle.job_parts.specs.Printed.{Prints};
ghost use Rattle.job_live.specs.Reporting.{damaged_line, entry_line, entry_words, journal_text, portless_packet_line, whole_line};

use bank::Entry;
use job_parts::replies::print_hex;
use spw::{End, Packet};
use std::io::{self, Write};

/// Prints the words of a packet, and ends the line: its bytes in hexadecimal digits, and its end marker.
fn print_packet<W: Write>(out: &mut W, packet: &Packet) -> io::Result<()>
    ensures { OnOk result (Prints W.contents out.old out.new (portless_packet_line packet.now)) }
{
    print_hex(out, packet.bytes())?;
    match packet.end() {
        End::Eop => writeln!(out, " EOP"),
        End::Eep => writeln!(out, " EEP"),
    }
}

/// Prints the words before the packet of an entry.
fn print_words<W: Write>(
    out: &mut W,
    port: u8,
    number: u64,
    generation: u32,
    verdict: u64,
    status: u8,
) -> io::Result<()>
    ensures { OnOk result (Prints W.contents out.old out.new
        (entry_words port number generation verdict status)) }
{
    write!(
        out,
        "journal {port} {number} {generation} {verdict} {status} "
    )
}

/// Prints an entry that is as it was made: `journal PORT NUMBER GENERATION VERDICT STATUS PACKET`.
fn print_whole<W: Write>(out: &mut W, entry: &Entry) -> io::Result<()>
    ensures { OnOk result (Prints W.contents out.old out.new (whole_line entry.now)) }
{
    let status = entry.status().code();
    print_words(
        out,
        entry.port(),
        entry.number(),
        entry.generation(),
        entry.verdict(),
        status,
    )?;
    print_packet(out, entry.packet())
}

/// Prints that an entry is not as it was made: `journal damaged`.
fn print_damaged<W: Write>(out: &mut W) -> io::Result<()>
    ensures { OnOk result (Prints W.contents out.old out.new damaged_line) }
{
    writeln!(out, "journal damaged")
}

/// Prints an entry, or that it is not as it was made.
fn print_entry<W: Write>(out: &mut W, entry: &Entry) -> io::Result<()>
    ensures { OnOk result (Prints W.contents out.old out.new (entry_line entry.now)) }
{
    if entry.is_whole() {
        return print_whole(out, entry);
    }
    print_damaged(out)
}

/// Prints the entries of a journal, oldest first, and how many they are: `journal N entries`.
///
/// # Errors
///
/// The error of `out`, if it does not take all of the text.
pub fn print_journal<W: Write>(out: &mut W, entries: &[Entry]) -> io::Result<()>
    ensures { OnOk result (Prints W.contents out.old out.new (journal_text entries.now)) }
{
    for entry in entries {
        print_entry(out, entry)?;
    }
    let count = entries.len();
    writeln!(out, "journal {count} entries")
}
