//! The words of the job `live`.

ghost use Rattle.std.specs.Prelude.{◌≡◌, IfErr, IfOk, MatchResult, codes, false};
ghost use Rattle.clap.specs.Walk.{first_of};
ghost use Rattle.job_parts.specs.Options.{IsBadValue, WritesSuch};
ghost use Rattle.job_parts.specs.Matched.{app_of, fields_of, found_of, rows_of};
ghost use Rattle.job_live.specs.Words.{GivesScrub, IsScrubCount, NamesLive, RefusesLive, RefusesScrub, live_app, serves_frames};

use clap::{ArgMatches, Command};
use job_config::sources::{NodeSource, source_arguments, source_of};
use job_parts::arguments::{flag, is_flag_set, option, text_of};
use job_parts::usage::UsageFault;
use std::alloc::{AllocError, Global};

/// The words of the job `live`.
#[derive(Debug, Drop)]
pub struct LiveWords {
    /// Where the node comes from.
    pub node: NodeSource,
    /// If there is a number N, from 1 to 4,294,967,295, the program that judges a packet is scrubbed before each N-th
    /// packet.
    pub scrub: Option<u32>,
    /// Whether each entry is handed out at once, before the answer to its packet.
    pub entries: bool,
    /// Whether frames come, and not packet lines. They come in at port 0; a node without a file has no other port then.
    pub frames: bool,
}

/// `live [--image FILE] [--maps LIST] [--ports N] [--scrub N] [--entries] [--frames]` or `live --node FILE [--scrub N]
/// [--entries] [--frames]`.
///
/// # Errors
///
/// An error if memory is refused.
pub fn live_command<'a>(alloc: Global) -> Result<Command<'a>, AllocError>
    ensures shape { IfOk result (λ c. app_of c ≡ live_app) }
    ensures local { IfOk result (λ c. (fields_of c).has_globals ≡ false) }
{
    let about = "Answers packet lines, or frames, at standard input as they come";
    let help = "Scrubs the program that judges, before each N-th packet; without it none";
    let scrub = option(alloc, "scrub", "N", help);
    let help = "Hands each entry of the journal out before the answer to its packet";
    let entries = flag(alloc, "entries", help);
    let help = "Answers frames, in bytes, of an initiator on a link, which is port 0";
    let frames = flag(alloc, "frames", help);
    source_arguments(alloc, Command::new(alloc, "live").about(about))?
        .arg(scrub)?
        .arg(entries)?
        .arg(frames)
}

/// Whether a node has one port, or a file that says how many.
fn serves_frames(node: &NodeSource) -> bool
    ensures { result ≡ serves_frames node.now }
{
    match node {
        NodeSource::File(_) => true,
        NodeSource::Words(words) => words.ports == 1,
    }
}

/// The count that a word writes, or `BadOption`.
fn scrub_count(word: &str) -> Result<u32, UsageFault>
    ensures { MatchResult result (WritesSuch IsScrubCount word.now)
        (IsBadValue (IsScrubCount word.now)) }
{
    if word.starts_with('+') {
        return Err(UsageFault::BadOption);
    }
    let count: u32 = word.parse().map_err(|_| UsageFault::BadOption)?;
    if count >= 1 {
        Ok(count)
    } else {
        Err(UsageFault::BadOption)
    }
}

/// The N of `--scrub`: a program is scrubbed before each N-th packet. It is a decimal number from 1 to 4,294,967,295,
/// and `None` without the option.
///
/// # Errors
///
/// `BadOption` if the value of the option is no such number.
pub fn scrub_of(found: &ArgMatches) -> Result<Option<u32>, UsageFault>
    ensures ok { IfOk result
        (GivesScrub (first_of (codes "scrub") (rows_of (found_of found.now)))) }
    ensures err { IfErr result (RefusesScrub (rows_of (found_of found.now))) }
{
    match text_of(found, "scrub") {
        Some(word) => Ok(Some(scrub_count(word)?)),
        None => Ok(None),
    }
}

/// The words of `live` with these matches.
///
/// # Errors
///
/// Those of [`source_of`] and [`scrub_of`]. `BadOption` also if frames are to come at another number of ports than one.
pub fn live_job(alloc: Global, found: &ArgMatches) -> Result<LiveWords, UsageFault>
    ensures ok { IfOk result (NamesLive (rows_of (found_of found.now))) }
    ensures err { IfErr result (RefusesLive (rows_of (found_of found.now))) }
{
    let node = source_of(alloc, found)?;
    let scrub = scrub_of(found)?;
    let entries = is_flag_set(found, "entries");
    let frames = is_flag_set(found, "frames");
    if frames && !serves_frames(&node) {
        return Err(UsageFault::BadOption);
    }
    Ok(LiveWords {
        node,
        scrub,
        entries,
        frames,
    })
}
