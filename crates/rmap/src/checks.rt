//! The checks of a command that need no program.

ghost use Rattle.std.specs.Prelude.{◌≡◌, IfOk, MatchResult, length, None, Some};
ghost use Rattle.rmap.specs.Windows.{IsWithinBank, begins_inside, place_of};
ghost use Rattle.rmap.specs.Command.{length_of};
ghost use Rattle.rmap.specs.Checks.{Faults, HasPlace, Passes, Stops, body_check, body_line, content_check, has_wrong_rmw_length, header_line, is_at_register, miss_of, wanted_length};

use crate::body_faults::BodyFault;
use crate::boot::{BOOT_WINDOW, LOAD_REGISTER, LOAD_RESULT_SIZE, boot_place};
use crate::command::Command;
use crate::header_faults::{HeaderFault, NoPlace};
use crate::kind::Kind;
use crate::places::Place;
use crate::status::Status;
use crate::windows::Windows;
use rcrc::crc;
use spw::End;

/// The most bytes of data that a command with the verify bit may have.
pub const VERIFY_BUFFER: u32 = 1024;

/// The most bytes of data that a command may have.
pub const MAX_DATA: u32 = 4096;

/// Where the command's bytes lie, or `None` if the command is not allowed there. The place of a read-modify-write
/// covers its whole data length, data and mask.
pub fn place(command: &Command, windows: &Windows) -> Option<Place>
    ensures { result ≡ place_of command.now windows.now }
{
    let extended = command.extended();
    match windows.bank(extended) {
        Some((base, size)) => command
            .lies_inside(base, size)
            .then_some(Place::Bank(extended)),
        None if extended == BOOT_WINDOW => boot_place(command),
        None => None,
    }
}

/// Whether the command is a read-modify-write whose length is not that of at most four bytes of data and a mask of as
/// many.
fn has_wrong_rmw_length(kind: Kind, length: u32) -> bool
    ensures { result ≡ has_wrong_rmw_length kind length }
{
    match kind {
        Kind::Rmw => !matches!(length, 0 | 2 | 4 | 6 | 8),
        Kind::Read | Kind::Write | Kind::Unused => false,
    }
}

/// Whether the address is that of a byte of the load register.
fn is_at_register(command: &Command) -> bool
    ensures { result ≡ is_at_register command.now }
{
    let address = command.address();
    LOAD_REGISTER <= address && address < LOAD_REGISTER + LOAD_RESULT_SIZE
}

/// Whether the first address is in the range of that base and size.
fn begins_inside(command: &Command, base: u32, size: u32) -> bool
    ensures { result ≡ begins_inside base size command.now }
{
    let address = u64::from(command.address());
    u64::from(base) <= address && address < u64::from(base) + u64::from(size)
}

/// Why the command's bytes have no place, if [`place`] gives none.
fn miss(command: &Command, windows: &Windows) -> NoPlace
    ensures { result ≡ miss_of command.now windows.now }
{
    let extended = command.extended();
    let address = command.address();
    let length = command.length();
    match windows.bank(extended) {
        Some((base, size)) if command.increments() && begins_inside(command, base, size) => {
            NoPlace::AfterBank { address, length }
        }
        Some(_) => NoPlace::OutsideBank { address },
        None if extended != BOOT_WINDOW => NoPlace::NoBank { extended },
        None if is_at_register(command) => NoPlace::OtherAtRegister { address },
        None => NoPlace::OutsideBootWindow { address, length },
    }
}

/// The place of the command's bytes, if the header passes all checks.
///
/// # Errors
///
/// The first check that stops the command (ECSS-E-ST-50-52C, error and status codes):
///
/// 1. `UnusedCode`: the packet type is reserved, or the command code is unused.
/// 2. `OtherNode`: the target logical address is not the node's.
/// 3. `WrongRmwLength`: the data length of a read-modify-write is not 0, 2, 4, 6 or 8.
/// 4. `TooManyToVerify`: there are more than 1,024 bytes to verify.
/// 5. `TooManyBytes`: there are more than 4,096 bytes.
/// 6. `NoPlace`: the bytes have no place, or the command is not allowed there.
pub fn header_check(command: &Command, windows: &Windows) -> Result<Place, HeaderFault>
    ensures { MatchResult result (HasPlace command.now windows.now) (Faults command.now windows.now) }
{
    let length = command.length();
    let kind = command.kind();
    if matches!(kind, Kind::Unused) {
        let instruction = command.instruction();
        return Err(HeaderFault::UnusedCode { instruction });
    }
    let (target, node) = (command.target(), windows.node_address());
    if target != node {
        return Err(HeaderFault::OtherNode { target, node });
    }
    if has_wrong_rmw_length(kind, length) {
        return Err(HeaderFault::WrongRmwLength { length });
    }
    if command.verifies() && length > VERIFY_BUFFER {
        return Err(HeaderFault::TooManyToVerify { length });
    }
    if length > MAX_DATA {
        return Err(HeaderFault::TooManyBytes { length });
    }
    match place(command, windows) {
        Some(place) => Ok(place),
        None => Err(HeaderFault::NoPlace(miss(command, windows))),
    }
}

/// The place of the command's bytes, if the header passes all checks. If the place is a bank, the windows have that
/// bank, and the bytes lie in it.
///
/// # Errors
///
/// The status of the fault that [`header_check`] gives.
pub fn checked_place(command: &Command, windows: &Windows) -> Result<Place, Status>
    ensures checked { MatchResult result (Passes command.now windows.now) (Stops command.now windows.now) }
    ensures inside { IfOk result (IsWithinBank windows.now command.now) }
{
    match header_check(command, windows) {
        Ok(place) => Ok(place),
        Err(fault) => Err(fault.status()),
    }
}

/// The status of the first check of the header that stops the command, or `None`. It is that of [`checked_place`].
pub fn header_fault(command: &Command, windows: &Windows) -> Option<Status>
    ensures { result ≡ header_line command.now windows.now }
{
    checked_place(command, windows).err()
}

/// How many bytes should follow the header: the data and one byte of CRC for a write and a read-modify-write, else
/// none.
fn wanted_length(command: &Command) -> usize
    ensures { result ≡ wanted_length command.now }
{
    match command.kind() {
        Kind::Write | Kind::Rmw => command.length() as usize + 1,
        Kind::Read | Kind::Unused => 0,
    }
}

/// The first check of what follows the header that stops the command, however the packet ended. The checks are, in
/// this order: too few bytes, too many bytes, a wrong data CRC (ECSS-E-ST-50-52C, error and status codes).
pub fn content_check(command: &Command) -> Option<BodyFault>
    ensures { result ≡ content_check command.now }
{
    let body = command.body();
    let found = body.len();
    let wanted = wanted_length(command);
    if found < wanted {
        return Some(BodyFault::TooFewBytes { found, wanted });
    }
    if found > wanted {
        return Some(BodyFault::TooManyBytes { found, wanted });
    }
    let (sent, data) = body.split_last()?;
    let (found, right) = (*sent, crc(data));
    (found != right).then_some(BodyFault::WrongDataCrc { found, right })
}

/// The first check of the body that stops the command, or `None`: an error end of packet, then those of
/// [`content_check`].
pub fn body_check(command: &Command) -> Option<BodyFault>
    ensures { result ≡ body_check command.now }
{
    match command.end() {
        End::Eep => Some(BodyFault::ErrorEnd),
        End::Eop => content_check(command),
    }
}

/// The status of the first check of the body that stops the command, or `None`. It is that of [`body_check`].
pub fn body_fault(command: &Command) -> Option<Status>
    ensures { result ≡ body_line command.now }
{
    body_check(command).map(BodyFault::status)
}
