//! What a packet comes to at a node, and whether that is what its row wants.

ghost use Rattle.std.specs.Prelude.{◌≡◌, IsTrue, Some, None};
ghost use Rattle.job_suite.specs.Comings.{FitsWanted, FitsJudged, FitsStopped};

use crate::checks::Check;
use crate::rows::Wanted;
use rmap::Status;

/// What a packet comes to at a node.
#[derive(Clone, Copy, Debug, PartialEq, Eq)]
pub enum PacketOutcome {
    /// This line of the order of checks is the first that holds.
    Stopped(Check),
    /// Its program gives this verdict, and the first check of its body that holds has this status; `None` if none holds.
    Judged(u64, Option<Status>),
}

/// Whether a status was found, and is this one.
fn is_status(found: Option<Status>, status: Status) -> bool
    ensures { IsTrue result → found ≡ Some status }
{
    match found {
        Some(own) => own == status,
        None => false,
    }
}

/// Whether no status was found.
fn is_no_status(found: Option<Status>) -> bool
    ensures { IsTrue result → found ≡ None }
{
    match found {
        Some(_) => false,
        None => true,
    }
}

/// Whether the first line that holds is what is wanted.
fn fits_stopped(check: Check, wanted: Wanted) -> bool
    ensures { IsTrue result → FitsStopped check wanted }
{
    match wanted {
        Wanted::Stopped(line) => check == line,
        Wanted::Brought | Wanted::Judged(_) | Wanted::Spoilt(_) | Wanted::Whole => false,
    }
}

/// Whether a verdict and the first check of a body that holds are what is wanted.
fn fits_judged(verdict: u64, fault: Option<Status>, wanted: Wanted) -> bool
    ensures { IsTrue result → FitsJudged verdict fault wanted }
{
    match wanted {
        Wanted::Stopped(_) => false,
        Wanted::Brought => true,
        Wanted::Judged(number) => verdict == number,
        Wanted::Spoilt(status) => verdict == 0 && is_status(fault, status),
        Wanted::Whole => verdict == 0 && is_no_status(fault),
    }
}

/// Whether what a packet comes to is what is wanted.
pub fn fits(received: PacketOutcome, wanted: Wanted) -> bool
    ensures { IsTrue result → FitsWanted received wanted }
{
    match received {
        PacketOutcome::Stopped(check) => fits_stopped(check, wanted),
        PacketOutcome::Judged(verdict, fault) => fits_judged(verdict, fault, wanted),
    }
}
