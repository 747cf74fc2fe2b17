//! What more is printed of words that name no work, and of a job that failed, after the line that says so.

use crate::jobs::Job;
use crate::node_jobs::beside_file;
use crate::usage::command_line;
use clap::ArgMatches;
use job_charts::map::lines_wanted;
use job_codes::topics::{CodeKind, KINDS};
use job_config::sources::beside_node;
use job_live::words::scrub_of;
use job_packets::orders::Order;
use job_packets::packet::packet_words;
use job_packets::slips::{PacketFault, PacketWord, Slip};
use job_parts::arguments::{is_flag_set, text_of};
use job_parts::options::{ports_of, sizes_of};
use job_parts::usage::UsageFault;
use job_rehearse::loaders::{is_any_beside, loader_of};
use job_rehearse::rehearse::slots_of;
use job_suite::words::{rows_written, seed_of, table_of, within_of, without_written};
use job_weigh::times::times_of;
use std::alloc::{AllocError, Global};

/// What `--maps` may be.
const MAPS: &str =
    "numbers of cells with commas between them, as 5,1p with a p for a peak map: at most 8, at most 256 in all";

/// What `--ports` may be.
const PORTS: &str = "a decimal number from 1 to 32";

/// What `--scrub` may be.
const SCRUB: &str = "a decimal number from 1 to 4294967295";

/// What `--lines` may be.
const LINES: &str = "a decimal number from 1 to 4294967295";

/// What `--ports` may be beside `--frames`.
const ONE_PORT: &str = "1 if frames come";

/// What may not be there beside `--any`.
const ANY_ALONE: &str = "    --any is there: without --port, --initiator, --key and --slot\n";

/// The name of standard input.
const STANDARD_INPUT: &str = "-";

/// What names a file that is read.
#[derive(Clone, Copy, Debug)]
struct Named {
    /// Its name among the matches.
    id: &'static str,
    /// The user's word for it.
    title: &'static str,
}

/// What `verify`, `why` and `weigh` read, in this order.
const OF_IMAGE: [Named; 2] = [
    Named {
        id: "image",
        title: "FILE",
    },
    Named {
        id: "node",
        title: "--node",
    },
];

/// What the jobs that take lines on a node read.
const OF_LINES: [Named; 3] = [
    Named {
        id: "lines",
        title: "LINES",
    },
    Named {
        id: "image",
        title: "--image",
    },
    Named {
        id: "node",
        title: "--node",
    },
];

/// What `policy` reads.
const OF_POLICY: [Named; 2] = [
    Named {
        id: "table",
        title: "FILE",
    },
    Named {
        id: "node",
        title: "--node",
    },
];

/// What `decide` reads.
const OF_DECIDE: [Named; 3] = [
    Named {
        id: "lines",
        title: "LINES",
    },
    Named {
        id: "table",
        title: "TABLE",
    },
    Named {
        id: "node",
        title: "--node",
    },
];

/// What `compare` and `rehearse` read.
const OF_TWO: [Named; 3] = [
    Named {
        id: "old",
        title: "OLD",
    },
    Named {
        id: "new",
        title: "NEW",
    },
    Named {
        id: "node",
        title: "--node",
    },
];

/// What `map` reads.
const OF_MAP: [Named; 2] = [
    Named {
        id: "table",
        title: "TABLE",
    },
    Named {
        id: "node",
        title: "--node",
    },
];

/// What `node` reads.
const OF_NODE: [Named; 2] = [
    Named {
        id: "node",
        title: "FILE",
    },
    Named {
        id: "table",
        title: "--table",
    },
];

/// What the node's file of `packet` is beside its data or its image.
const OWN_FILE: &str = "    --node is -: the name of a file if the data or the image are - too\n";

/// What the node's file of `suite` is beside its table.
const OWN_NODE: &str = "    --node is -: the name of a file if the table is - too\n";

/// What `--ns` may be.
const TIMES: &str =
    "four decimal numbers of nanoseconds with commas between them, as 13.5,14,6,2: of a division, a call, a jump and the rest";

/// What `--seed` may be.
const SEED: &str = "a decimal number from 0 to 4294967295";

/// What `--rows` may be.
const ROWS: &str = "the beginning of the name of a row, as header-crc";

/// What `--without` of `suite` may be.
const WITHOUT: &str = "beginnings of names of rows with commas between them, as boot-window,load";

/// What `--table` of `suite` may be.
const TABLE: &str =
    "slots from 0 to 3 with commas between them, or all, and a file, as 0,1:instrument.policy";

/// What `--within` may be.
const WITHIN: &str =
    "ranges of addresses in hexadecimal digits with commas between them, first not above last, as 00:A0000000-A000FFFF";

/// What is printed of an OUT that is the file that is read.
pub const OWN_SOURCE: &str = "    this is the file that is read\n";

/// What is printed of an OUT that a bank begins with.
pub const OWN_CONTENTS: &str = "    a bank of the node's file begins with this file\n";

/// The words of the jobs that may be left to a node's file.
const LEFT: [&str; 8] = [
    "verify", "why", "weigh", "policy", "packet", "decide", "compare", "map",
];

/// What CODE may be.
const CODE: &str = "one of the codes that explain lists without CODE, as V5 or load12";

/// What is printed of a node's file whose banks do not begin with zeros, if a job steps through a schedule.
const CONTENTS: &str =
    "bad option\n    contents is there in the node's file: the banks of a schedule begin with zeros\n";

/// What is printed of a loader at a port that the node of a file does not have.
const FEW_PORTS: &str = "bad option\n    --port is there: the node of the file has fewer ports\n";

/// The line that says what a word is for, how it was written, and what is wanted.
fn line_of(
    alloc: Global,
    name: &str,
    word: Option<&str>,
    wanted: &str,
) -> Result<String, AllocError> {
    match word {
        Some("") => format!(in alloc; "    {name} is empty: {wanted}\n"),
        Some(word) => {
            let spelled = word.escape_debug();
            format!(in alloc; "    {name} is {spelled}: {wanted}\n")
        }
        None => format!(in alloc; "    {name} is missing: {wanted}\n"),
    }
}

/// The line of the slip of words of `packet`.
fn slip_line(alloc: Global, found: &ArgMatches, slip: Slip) -> Result<String, AllocError> {
    let (word, wanted) = (slip.word(), slip.advice());
    let name = word.title();
    if word.is_flag() {
        return format!(in alloc; "    {name} is there: {wanted}\n");
    }
    line_of(alloc, name, text_of(found, word.id()), wanted)
}

/// What the word of this name names among the files that are read. `packet` names one more after KIND.
fn read_by(name: &str) -> &'static [Named] {
    match name {
        "verify" | "why" | "weigh" => &OF_IMAGE,
        "judge" | "serve" | "sim" | "trace" => &OF_LINES,
        "policy" => &OF_POLICY,
        "decide" => &OF_DECIDE,
        "compare" | "rehearse" => &OF_TWO,
        "map" => &OF_MAP,
        "node" => &OF_NODE,
        _ => &[],
    }
}

/// The line of two files that are standard input, which one read ends.
fn input_line(alloc: Global, name: &str, found: &ArgMatches) -> Result<String, AllocError> {
    let mut first: Option<&str> = None;
    for named in read_by(name) {
        if text_of(found, named.id) != Some(STANDARD_INPUT) {
            continue;
        }
        let title = named.title;
        if let Some(first) = first {
            return format!(in alloc; "    {title} is -: the name of a file if {first} is - too\n");
        }
        first = Some(title);
    }
    Ok(String::new(alloc))
}

/// The line of words of which each is one that it may be, but not beside the other. These are `--frames` and `--ports`,
/// `--any` and options of loads that are done or the file of a node, or two files that are standard input.
fn pair_line(alloc: Global, name: &str, found: &ArgMatches) -> Result<String, AllocError> {
    if is_flag_set(found, "frames") {
        return line_of(alloc, "--ports", text_of(found, "ports"), ONE_PORT);
    }
    if is_any_beside(found) {
        return String::from_str(alloc, ANY_ALONE);
    }
    input_line(alloc, name, found)
}

/// The codes that have this number, with commas between them.
fn codes_of(alloc: Global, number: u8) -> Result<String, AllocError> {
    let mut text = String::new(alloc);
    for place in 0..KINDS {
        let kind = CodeKind::at(place);
        if kind.topic(number).is_some() {
            let (comma, word) = (if text.is_empty() { "" } else { ", " }, kind.word());
            write!(text, "{comma}{word}{number}")?;
        }
    }
    Ok(text)
}

/// The line of a code that is none: if it is a number, with the codes that have it.
fn code_line(alloc: Global, code: &str) -> Result<String, AllocError> {
    let codes = match code.parse::<u8>() {
        Ok(number) if !code.starts_with('+') => codes_of(alloc, number)?,
        _ => String::new(alloc),
    };
    if codes.is_empty() {
        return line_of(alloc, "CODE", Some(code), CODE);
    }
    format!(in alloc; "    CODE is {code}: the number of {codes}\n")
}

/// The line of an option of the node that is beside its file.
fn beside_line(alloc: Global, name: &str) -> Result<String, AllocError> {
    format!(in alloc; "    --{name} is there beside --node: the node's file says it\n")
}

/// The option that says what the node's file says, if the subcommand of this name has both.
fn beside(name: &str, found: &ArgMatches) -> Option<&'static str> {
    if !LEFT.iter().any(|word| *word == name) {
        return beside_node(found);
    }
    text_of(found, "node")?;
    beside_file(found)
}

/// The line of words that order no packet.
fn packet_line(alloc: Global, found: &ArgMatches) -> Result<String, AllocError> {
    match packet_words(alloc, found) {
        Err(PacketFault::Words(slip)) => slip_line(alloc, found, slip),
        Ok(_) if text_of(found, "node") == Some(STANDARD_INPUT) => String::from_str(
            alloc, OWN_FILE,
        ),
        Err(PacketFault::Memory) | Ok(_) => Ok(String::new(alloc)),
    }
}

/// The line of an option of `suite`.
fn suite_line(alloc: Global, found: &ArgMatches) -> Result<String, AllocError> {
    if let Err(UsageFault::BadOption) = seed_of(found) {
        return line_of(alloc, "--seed", text_of(found, "seed"), SEED);
    }
    if let Err(UsageFault::BadOption) = rows_written(alloc, found) {
        return line_of(alloc, "--rows", text_of(found, "rows"), ROWS);
    }
    if let Err(UsageFault::BadOption) = without_written(alloc, found) {
        return line_of(alloc, "--without", text_of(found, "without"), WITHOUT);
    }
    if let Err(UsageFault::BadOption) = table_of(alloc, found) {
        return line_of(alloc, "--table", text_of(found, "table"), TABLE);
    }
    if let Err(UsageFault::BadOption) = within_of(alloc, found) {
        return line_of(alloc, "--within", text_of(found, "within"), WITHIN);
    }
    if text_of(found, "node") == Some(STANDARD_INPUT) {
        return String::from_str(alloc, OWN_NODE);
    }
    Ok(String::new(alloc))
}

/// The line of an option of `map`. A number of lines is looked at after the maps, as the job does.
fn map_line(alloc: Global, name: &str, found: &ArgMatches) -> Result<String, AllocError> {
    match (sizes_of(alloc, found), lines_wanted(found)) {
        (Ok(_), Err(UsageFault::BadOption)) => {
            line_of(alloc, "--lines", text_of(found, "lines"), LINES)
        }
        _ => option_line(alloc, name, found),
    }
}

/// The line of an option that words of any other job have.
fn option_line(alloc: Global, name: &str, found: &ArgMatches) -> Result<String, AllocError> {
    if let Err(UsageFault::BadOption) = sizes_of(alloc, found) {
        return line_of(alloc, "--maps", text_of(found, "maps"), MAPS);
    }
    if let Err(UsageFault::BadOption) = ports_of(found) {
        return line_of(alloc, "--ports", text_of(found, "ports"), PORTS);
    }
    if let Err(UsageFault::BadOption) = scrub_of(found) {
        return line_of(alloc, "--scrub", text_of(found, "scrub"), SCRUB);
    }
    if let Err(UsageFault::BadOption) = slots_of(alloc, found) {
        let wanted = Slip::Bad(PacketWord::Slot).advice();
        return line_of(alloc, "--slot", text_of(found, "slot"), wanted);
    }
    if let Err(PacketFault::Words(slip)) = loader_of(found) {
        return slip_line(alloc, found, slip);
    }
    if let Err(UsageFault::BadOption) = times_of(alloc, found) {
        return line_of(alloc, "--ns", text_of(found, "ns"), TIMES);
    }
    match text_of(found, "code") {
        Some(code) => code_line(alloc, code),
        None => pair_line(alloc, name, found),
    }
}

/// The line after `bad option`: the word, what it is for and what is wanted. It is empty if `clap` refuses the words.
///
/// # Errors
///
/// An error if memory is refused.
pub fn option_report(alloc: Global, words: &[&str]) -> Result<String, AllocError> {
    let Ok(found) = command_line(alloc)?.try_get_matches_from(words) else {
        return Ok(String::new(alloc));
    };
    let Some((name, found)) = found.subcommand() else {
        return Ok(String::new(alloc));
    };
    if let Some(option) = beside(name, found) {
        return beside_line(alloc, option);
    }
    match name {
        "packet" => packet_line(alloc, found),
        "suite" => suite_line(alloc, found),
        "map" => map_line(alloc, name, found),
        _ => option_line(alloc, name, found),
    }
}

/// `bad option` of a job that was begun, and the line after it: what of a packet is too long, or what the node's file
/// may not say.
pub(crate) fn advice(job: &Job) -> &'static str {
    match job {
        Job::Simulate(_) | Job::Trace(_) => CONTENTS,
        Job::Rehearse(_) => FEW_PORTS,
        Job::Packet(words) => match &words.order {
            Order::Load { .. } =>
                "bad option\n    IMAGE is too long: the staging has 16,384 bytes\n",
            Order::Read { .. } | Order::Write { .. } | Order::Rmw { .. } => {
                "bad option\n    DATA is too long: a packet has at most 4,200 bytes\n"
            }
        },
        _ => "",
    }
}

/// The line after `cannot write NAME` of a job that reads nothing, because its OUT is the file that it would read.
pub(crate) fn output_report(job: &Job) -> &'static str {
    let inputs = job.inputs();
    match (inputs.first, inputs.output) {
        (Some(input), Some(output)) if input.name == output => OWN_SOURCE,
        _ => "",
    }
}
