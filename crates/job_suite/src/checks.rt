//! The lines of the order of checks that come before the program, and which of them a packet meets.

ghost use Rattle.std.specs.Prelude.{◌≡◌, MatchResult};
ghost use Rattle.rmap.specs.Checks.{HasPlace};
ghost use Rattle.job_suite.specs.Checks.{PassesHeader, IsStoppedBy, Meets, check_of_discard, check_of_fault};

use rmap::{Command, Discard, HeaderFault, Place, Windows, header_check};
use spw::Packet;

/// A line of the order of checks before the program.
#[derive(Clone, Copy, Debug, PartialEq, Eq)]
pub enum Check {
    /// Line 1: fewer bytes than the header has.
    Short,
    /// Line 1: another protocol identifier than that of RMAP.
    Protocol,
    /// Line 1: the packet type of replies.
    ReplyType,
    /// Line 1: a wrong header CRC.
    HeaderCrc,
    /// Line 2: a reserved packet type, or an unused command code.
    UnusedCode,
    /// Line 3: another target logical address than the node's.
    OtherTarget,
    /// Line 4: a wrong length of a read-modify-write.
    RmwLength,
    /// Line 5: more bytes than the verify buffer takes.
    VerifyBuffer,
    /// Line 6: more bytes than a command may have.
    Length,
    /// Line 6: a place that is not allowed.
    Place,
}

/// The line of a reason to discard.
fn check_of_discard(reason: Discard) -> Check
    ensures { result ≡ check_of_discard reason }
{
    match reason {
        Discard::Short => Check::Short,
        Discard::Protocol => Check::Protocol,
        Discard::Reply => Check::ReplyType,
        Discard::HeaderCrc => Check::HeaderCrc,
    }
}

/// The line of a fault of a header.
fn check_of_fault(fault: HeaderFault) -> Check
    ensures { result ≡ check_of_fault fault }
{
    match fault {
        HeaderFault::UnusedCode { .. } => Check::UnusedCode,
        HeaderFault::OtherNode { .. } => Check::OtherTarget,
        HeaderFault::WrongRmwLength { .. } => Check::RmwLength,
        HeaderFault::TooManyToVerify { .. } => Check::VerifyBuffer,
        HeaderFault::TooManyBytes { .. } => Check::Length,
        HeaderFault::NoPlace(_) => Check::Place,
    }
}

/// Where a command goes on to its program at a node with these windows.
///
/// # Errors
///
/// The first line of the order of checks that holds of its header.
fn placed_command(command: &Command, windows: &Windows) -> Result<Place, Check>
    ensures { MatchResult result (HasPlace command.now windows.now)
        (IsStoppedBy windows.now command.now) }
{
    match header_check(command, windows) {
        Ok(place) => Ok(place),
        Err(fault) => Err(check_of_fault(fault)),
    }
}

/// Where the command of a packet goes on to its program at a node with these windows.
///
/// # Errors
///
/// The first line of the order of checks that holds before that.
#[tactic(auto, using(crate::proofs::Meeting::discarded, crate::proofs::Meeting::stopped, crate::proofs::Meeting::going_on))]
pub fn placed(packet: &Packet, windows: &Windows) -> Result<Place, Check>
    ensures { MatchResult result (PassesHeader windows.now packet.now)
        (Meets windows.now packet.now) }
{
    match Command::view(packet) {
        Ok(command) => placed_command(&command, windows),
        Err(reason) => Err(check_of_discard(reason)),
    }
}
