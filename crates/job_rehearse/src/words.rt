//! The words for what becomes of a load.

ghost use Rattle.std.specs.Prelude.{◌≡◌, OnOk};
ghost use Rattle.job_parts.specs.Printed.{Prints};
ghost use Rattle.job_rehearse.specs.Words.{is_step_success, load_result_in, outcome_text, result_text, result_words, status_in, status_words, step_line, step_words};

use crate::steps::LoadStep;
use node_parts::{Served, Stop};
use rmap::{LOAD_RESULT_SIZE, LoadResult, Status};
use std::io::{self, Write};

/// How many bytes come before the data of a reply to a read, without a path (ECSS-E-ST-50-52C, read reply format).
const REPLY_HEADER: usize = 12;

/// How many bytes the reply to a read of the load result has, without a path: its header, the load result and a CRC.
const RESULT_REPLY: usize = REPLY_HEADER + LOAD_RESULT_SIZE as usize + 1;

/// What a packet of a load is.
fn step_words(step: LoadStep) -> &'static str
    ensures { result.now ≡ step_words step }
{
    match step {
        LoadStep::Part => "write of the image",
        LoadStep::Control => "load",
        LoadStep::Result => "read of the load result",
    }
}

/// The words for a status (ECSS-E-ST-50-52C, error and status codes).
fn status_words(status: Status) -> &'static str
    ensures { result.now ≡ status_words status }
{
    match status {
        Status::Success => "success",
        Status::GeneralError => "general error",
        Status::UnusedCode => "unused packet type or command code",
        Status::InvalidKey => "invalid key",
        Status::InvalidDataCrc => "invalid data CRC",
        Status::EarlyEndOfPacket => "early EOP",
        Status::TooMuchData => "too much data",
        Status::ErrorEndOfPacket => "EEP",
        Status::VerifyBufferOverrun => "verify buffer overrun",
        Status::NotAuthorised => "not implemented or not authorised",
        Status::RmwDataLength => "RMW data length error",
        Status::InvalidLogicalAddress => "invalid target logical address",
    }
}

/// With which status a packet ended, if it did with one.
fn status_in(served: Served) -> Option<Status>
    ensures { result ≡ status_in served }
{
    match served {
        Served::Stopped(Stop::Discarded(_)) | Served::Unread => None,
        Served::Stopped(Stop::Answered(status)) | Served::Window(status) => Some(status),
        Served::Done(applied) => Some(applied.status),
    }
}

/// Whether a packet ended with status 0.
fn is_step_success(status: Option<Status>) -> bool
    ensures { result ≡ is_step_success status }
{
    match status {
        Some(status) => status.code() == 0,
        None => false,
    }
}

/// Whether a packet was answered with status 0.
pub fn succeeds(served: Served) -> bool
    ensures { result ≡ is_step_success (status_in served) }
{
    is_step_success(status_in(served))
}

/// Prints how a packet ended.
fn print_outcome<W: Write>(out: &mut W, status: Option<Status>) -> io::Result<()>
    ensures { OnOk result (Prints W.contents out.old out.new (outcome_text status)) }
{
    let Some(status) = status else {
        return write!(out, "no reply");
    };
    let (code, words) = (status.code(), status_words(status));
    write!(out, "status {code} {words}")
}

/// The load result that a reply has, if it has one.
fn load_result_in(reply: &[u8]) -> Option<LoadResult>
    ensures { result ≡ load_result_in reply.now }
{
    if reply.len() != RESULT_REPLY {
        return None;
    }
    let (data, _crc) = reply.split_at(REPLY_HEADER).1.split_first_chunk::<8>()?;
    LoadResult::read(data)
}

/// Prints a load result.
#[tactic(auto, unfolding(crate::specs::Words::result_words))]
fn print_words<W: Write>(out: &mut W, loaded: LoadResult) -> io::Result<()>
    ensures { OnOk result (Prints W.contents out.old out.new (result_words loaded)) }
{
    let (code, place, generation) = (loaded.code, loaded.place, loaded.generation);
    if generation != 0 {
        return write!(out, ", generation {generation}");
    }
    if code == 0 {
        return write!(out, ", nothing was loaded");
    }
    write!(out, ", load fault {code} slot {place}")
}

/// Prints the load result that a reply has, if it has one.
fn print_result<W: Write>(out: &mut W, reply: &[u8]) -> io::Result<()>
    ensures { OnOk result
        (Prints W.contents out.old out.new (result_text (load_result_in reply.now))) }
{
    if let Some(loaded) = load_result_in(reply) {
        print_words(out, loaded)?;
    }
    Ok(())
}

/// Prints the line of a packet of a load: what it is, and how it ended.
///
/// # Errors
///
/// The error of `out`, if it does not take all of the text.
pub fn print_step<W: Write>(
    out: &mut W,
    step: LoadStep,
    served: Served,
    reply: &[u8],
) -> io::Result<()>
    ensures { OnOk result (Prints W.contents out.old out.new (step_line step served reply.now)) }
{
    let words = step_words(step);
    write!(out, "    {words}: ")?;
    print_outcome(out, status_in(served))?;
    print_result(out, reply)?;
    writeln!(out)
}
