//! What is printed on standard error of a job that ended, after what it printed.

use crate::foreign::Foreign;
use crate::in_place::add_source;
use crate::jobs::{Job, JobEnd};
use crate::line_paths::{LinePaths, may_have_paths};
use crate::noted::{FileCause, FileNotes};
use crate::odd::add_odd;
use crate::short_quotas::add_short_quotas;
use crate::slips::{self, output_report};
use crate::{denied_loads, hints};
use job_config::sources::NodeSource;
use job_nodes::full_journals::FullJournals;
use job_packets::orders::Order;
use job_packets::packet::PacketWords;
use job_parts::bad_lines::BadLine;
use job_parts::faults::Fault;
use job_parts::forms::form_line;
use job_parts::status::ExitStatus;
use job_rehearse::table_loads::{loader_lines, policy_lines};
use spw::{LineFault, lines_of};
use std::alloc::{AllocError, Global};

/// What an event line lacks that has no end marker.
const WHOLE_MARKER: &str = "no end marker: EOP or EEP, since an event has a whole packet";

/// The word before the packet line of an event.
const TAKE: &str = "take";

/// Adds why the file of this name could not be read or written. If the system says nothing, there is only what the job
/// said of its content.
fn add_cause(text: &mut String, name: &str, cause: Option<&FileCause>) -> Result<(), AllocError> {
    match cause {
        Some(FileCause::System(refused)) => write!(text, "    {refused}\n"),
        Some(FileCause::Image) => text.push_str("    this is an image\n"),
        Some(FileCause::Input) => text.push_str("    this is standard input\n"),
        Some(FileCause::TooLong) => write!(text, "    {name} has over 1,048,576 bytes\n"),
        Some(FileCause::NoText) | None => text.push_str("    this is no text: it is not UTF-8\n"),
    }
}

/// Adds what bytes are that are no image: the text of a program, or a table.
fn add_form(text: &mut String, alloc: Global, bytes: Option<&[u8]>) -> Result<(), AllocError> {
    let Some(bytes) = bytes else {
        return Ok(());
    };
    let line = form_line(alloc, bytes);
    if line.is_empty() {
        return Ok(());
    }
    write!(text, "    {line}")
}

/// If a text is in the place of an image, adds the place in it for which it was refused, or why it is none.
fn add_place_in(text: &mut String, alloc: Global, noted: &FileNotes<'_>) -> Result<(), AllocError> {
    match noted.source() {
        Some((source, maps)) => add_source(text, alloc, source, maps, noted.is_on_node()),
        None => Ok(()),
    }
}

/// Adds what bytes are that are no image: why a text is none, if one may be in its place, or else what a text is.
fn add_no_image(text: &mut String, alloc: Global, noted: &FileNotes<'_>) -> Result<(), AllocError> {
    match noted.source() {
        Some(_) => add_place_in(text, alloc, noted),
        None => add_form(text, alloc, noted.last()),
    }
}

/// Adds what the line of that number has of another system, if it was kept.
fn add_foreign(text: &mut String, lines: Option<&str>, number: usize) -> Result<(), AllocError> {
    let Some(lines) = lines else {
        return Ok(());
    };
    let mut at = 0usize;
    for line in lines_of(lines) {
        at = at.saturating_add(1);
        if at == number {
            return text.push_str(Foreign::of(line, at == 1).words());
        }
    }
    Ok(())
}

/// Adds what is wrong with the line of that number.
fn add_bad_line(
    text: &mut String,
    job: &Job,
    number: usize,
    bad: BadLine,
) -> Result<(), AllocError> {
    let code = bad.number();
    let reported = match (job, bad) {
        (Job::Simulate(_), BadLine::Line(LineFault::BadMarker)) => WHOLE_MARKER,
        _ => bad.title(),
    };
    write!(text, "    line {number} fault {code}: {reported}\n")
}

/// Adds where a node's file has its fault, and what it must have there.
fn add_place(text: &mut String, place: &str) -> Result<(), AllocError> {
    write!(text, "    {place}\n")
}

/// Adds that a map was cut after this many lines, and how the user asks for fewer commands.
fn add_cut(text: &mut String, lines: u32) -> Result<(), AllocError> {
    write!(text, "    the map has over {lines} lines: ")?;
    text.push_str(
        "ask of fewer commands by --kind, --key, --initiator, --extended, --address or --port, ",
    )?;
    text.push_str("or of more lines by --lines\n")
}

/// Adds what is printed of a job that failed over a text. If a table has no fault, its map was cut.
fn add_text(
    text: &mut String,
    alloc: Global,
    job: &Job,
    read: &str,
    noted: &FileNotes<'_>,
) -> Result<(), AllocError> {
    if let Job::Map(words) = job {
        if hints::is_drawn(alloc, read, &words.sizes)? {
            add_cut(text, words.lines)?;
            return add_done(text, alloc, job, noted);
        }
    }
    let more = hints::advice(alloc, job, read, noted.is_on_node())?;
    text.push_str(more.as_str())?;
    add_place_in(text, alloc, noted)
}

/// Adds what is printed of a job that failed.
fn add_failed(
    text: &mut String,
    alloc: Global,
    job: &Job,
    fault: &Option<Fault<'_>>,
    noted: &FileNotes<'_>,
) -> Result<(), AllocError> {
    match fault {
        Some(Fault::CannotRead(name)) => add_cause(text, *name, noted.cause()),
        Some(Fault::CannotWrite(name)) => match noted.cause() {
            Some(cause) => add_cause(text, *name, Some(cause)),
            None => text.push_str(output_report(job)),
        },
        Some(Fault::BadLine { number, fault }) => {
            add_bad_line(text, job, *number, *fault)?;
            add_foreign(text, noted.lines(), *number)
        }
        Some(Fault::BadNode { place, .. }) => add_place(text, place.as_str()),
        Some(Fault::BadImage(_)) => add_no_image(text, alloc, noted),
        Some(Fault::BadText(_) | Fault::BadTable(_)) | None => match noted.text() {
            Some(read) => add_text(text, alloc, job, read, noted),
            None => Ok(()),
        },
        Some(Fault::Refused(_)) => add_place_in(text, alloc, noted),
        Some(Fault::NoMemory | Fault::Damaged) => Ok(()),
    }
}

/// The packet line that a line of the job holds.
fn packet_part<'a>(job: &Job, line: &'a str) -> &'a str {
    match job {
        Job::Simulate(_) => line.trim_start().strip_prefix(TAKE).unwrap_or(""),
        _ => line,
    }
}

/// Adds the first path that is before the packet of a line.
fn add_first_path(
    text: &mut String,
    alloc: Global,
    job: &Job,
    lines: &str,
) -> Result<(), AllocError> {
    if !may_have_paths(lines) {
        return Ok(());
    }
    let mut paths = LinePaths::new();
    for line in lines_of(lines) {
        if paths.take(alloc, packet_part(job, line), text)? {
            return Ok(());
        }
    }
    Ok(())
}

/// Adds that the journal of this bank, which has a name if there are several, was full at this line.
fn add_full_at(
    text: &mut String,
    bank: u8,
    is_named: bool,
    number: usize,
) -> Result<(), AllocError> {
    if is_named {
        write!(text, "    the journal of bank {bank:02X} is full: ")?;
    } else {
        text.push_str("    the journal of the bank is full: ")?;
    }
    write!(text, "from line {number} on ")?;
    text.push_str("a command for it has status 1 in place of 0; live has no such end\n")
}

/// Adds, for each journal that was found full, the first line whose command found it so.
fn add_full(text: &mut String, full: Option<FullJournals>) -> Result<(), AllocError> {
    let Some(full) = full else {
        return Ok(());
    };
    for bank in 0..full.banks() {
        if let Some(number) = full.line(bank) {
            add_full_at(text, bank, full.banks() > 1, number)?;
        }
    }
    Ok(())
}

/// Adds what is printed of loads that were made into packets. It is that the file is no image, which nothing looked at,
/// or that the same load is denied after them.
fn add_load(
    text: &mut String,
    alloc: Global,
    words: &PacketWords,
    image: Option<&[u8]>,
) -> Result<(), AllocError> {
    add_form(text, alloc, image)?;
    match image {
        Some(image) => text.push_str(denied_loads::advice(alloc, words, image)?),
        None => Ok(()),
    }
}

/// Adds what is printed of a job that is done:
///
/// - of `policy`, that its table lets nobody load another, unless that is meant
/// - of `map`, whose loads pass
/// - of both, what is odd in the table; `map` itself prints the rules that never match
/// - of `map` and of NEW of `compare`, that a table is too long for a program
/// - of loads, what [`add_load`] adds
fn add_done(
    text: &mut String,
    alloc: Global,
    job: &Job,
    noted: &FileNotes<'_>,
) -> Result<(), AllocError> {
    match (job, noted.text()) {
        (Job::Packet(words), _) if matches!(words.order, Order::Load { .. }) => {
            add_load(text, alloc, words, noted.last())
        }
        (Job::Policy(words), Some(table)) if !words.is_quiet => {
            if !words.is_final {
                let reported = policy_lines(alloc, table, &words.sizes, noted.ports())?;
                text.push_str(reported.as_str())?;
                add_short_quotas(text, alloc, table, &words.sizes, noted.ports())?;
            }
            add_odd(text, alloc, table, &words.sizes, noted.node(), true)
        }
        (Job::Map(words), Some(table)) if !words.is_quiet => {
            let reported = hints::length_report(alloc, table, &words.sizes)?;
            text.push_str(reported.as_str())?;
            let reported = loader_lines(alloc, table, &words.sizes, noted.ports())?;
            text.push_str(reported.as_str())?;
            add_short_quotas(text, alloc, table, &words.sizes, noted.ports())?;
            add_odd(text, alloc, table, &words.sizes, noted.node(), false)
        }
        (Job::Compare(words), Some(table)) => {
            let reported = hints::length_report(alloc, table, &words.sizes)?;
            text.push_str(reported.as_str())
        }
        _ => Ok(()),
    }
}

/// Adds how many replies were lost, if some were, and why.
fn add_lost(text: &mut String, lost: u64) -> Result<(), AllocError> {
    if lost == 0 {
        return Ok(());
    }
    write!(
        text,
        "    lost {lost}: memory to keep a reply was refused\n"
    )
}

/// What is printed of a job that ended so, after what it printed itself. It is empty if there is nothing to say.
///
/// - The cause of its fault: what the system says of a file, or what the line of a text holds.
/// - What a file is that is not what it must be.
/// - The first path that is before a packet.
/// - Which journals `judge` found full.
/// - How many replies of `serve` were lost.
///
/// # Errors
///
/// An error if memory is refused.
pub fn end_report(
    alloc: Global,
    job: &Job,
    end: &JobEnd<'_>,
    noted: &FileNotes<'_>,
) -> Result<String, AllocError> {
    let mut text = String::new(alloc);
    match end.status {
        ExitStatus::Done => add_done(&mut text, alloc, job, noted)?,
        ExitStatus::Misused => text.push_str(slips::advice(job))?,
        ExitStatus::Failed => add_failed(&mut text, alloc, job, &end.fault, noted)?,
    }
    if let Some(lines) = noted.lines() {
        add_first_path(&mut text, alloc, job, lines)?;
    }
    add_full(&mut text, end.full)?;
    add_lost(&mut text, end.lost)?;
    Ok(text)
}

/// Adds why the first file of a node could not be read, or what it is that is none.
fn add_unread(
    text: &mut String,
    alloc: Global,
    node: &NodeSource,
    noted: &FileNotes<'_>,
) -> Result<(), AllocError> {
    match (node.input(), noted.cause()) {
        (Some(file), Some(cause)) => add_cause(text, file.name, Some(cause)),
        _ => add_no_image(text, alloc, noted),
    }
}

/// What is printed of a talk whose node could not be made of this source, after its fault was sent. It is where the
/// node's file has its fault, why a file could not be read, or what the file is instead. It is empty if there is
/// nothing to say.
///
/// # Errors
///
/// An error if memory is refused.
pub fn node_report(
    alloc: Global,
    node: &NodeSource,
    place: Option<&str>,
    noted: &FileNotes<'_>,
) -> Result<String, AllocError> {
    let mut text = String::new(alloc);
    match place {
        Some(place) => add_place(&mut text, place)?,
        None => add_unread(&mut text, alloc, node, noted)?,
    }
    Ok(text)
}
