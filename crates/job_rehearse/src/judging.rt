//! What a program says of the writes of a load, in turn.

ghost use Rattle.std.specs.Prelude.{◌≡◌, ◌≤◌, ◌<◌, ◌^◌, ◌&&◌, IfOk, length};
ghost use Rattle.rmap.specs.declared.boot.TheConstants.{STAGING_SIZE};
ghost use Rattle.job_rehearse.specs.Judging.{HasAnswered, IsAnswer, LetsLoad, LetsPart, LetsPacketPass, LetsWrites};
ghost use Rattle.job_rehearse.specs.Starts.{asked_so_far, home_of};

use crate::loaders::{LoadSender, header_of};
use crate::starts::{LoadCells, Start};
use brun::run;
use bver::Accepted;
use initiator::{PART_SIZE, Request, control_request, part_of, stage_request};
use job_packets::requests::command_bytes;
use machine::STACK_SIZE;
use rmap::{Command, discard_is_exact};
use spw::End;
use std::alloc::{AllocError, Global};

/// The verdict of a program on the header of a command, at a port below 32, on cells with its maps.
fn verdict_on(judge: &Accepted, port: u8, command: &Command, cells: &mut LoadCells) -> u64
    requires port { port < 32 }
    requires sizes { cells.old.cells.sizes ≡ judge.now.sizes }
    ensures verdict { HasAnswered judge.now port command.now result
        (asked_so_far cells.old) (asked_so_far cells.new) }
    ensures sizes { cells.new.cells.sizes ≡ cells.old.cells.sizes }
    ensures home { home_of cells.new.start ≡ home_of cells.old.start }
{
    let mut stack = [0; STACK_SIZE];
    let (front, tail) = (command.front(), command.tail());
    run(judge, front, tail, port, &mut stack, cells)
}

/// The verdict of a program on a command that is requested by a loader. Its body is left out: a program sees only the
/// header.
fn answer_to(
    alloc: Global,
    judge: &Accepted,
    loader: LoadSender,
    request: Request,
    cells: &mut LoadCells,
) -> Result<u64, AllocError>
    requires port { loader.port < 32 }
    requires code { request.code < 16 }
    requires count { request.count < 2 ^ 24 }
    requires sizes { cells.old.cells.sizes ≡ judge.now.sizes }
    ensures answer { IfOk result (λ verdict.
        IsAnswer judge.now loader request verdict
        (asked_so_far cells.old) (asked_so_far cells.new)) }
    ensures sizes { cells.new.cells.sizes ≡ cells.old.cells.sizes }
    ensures home { home_of cells.new.start ≡ home_of cells.old.start }
{
    discard_is_exact();
    let header = header_of(alloc, loader);
    let bytes = command_bytes(alloc, &header, request, &[])?;
    let command = Command::of_bytes(bytes.as_slice(), End::Eop);
    Ok(verdict_on(judge, loader.port, &command, cells))
}

/// Whether a program lets a command pass that is requested by a loader.
fn lets_pass(
    alloc: Global,
    judge: &Accepted,
    loader: LoadSender,
    request: Request,
    cells: &mut LoadCells,
) -> Result<bool, AllocError>
    requires port { loader.port < 32 }
    requires code { request.code < 16 }
    requires count { request.count < 2 ^ 24 }
    requires sizes { cells.old.cells.sizes ≡ judge.now.sizes }
    ensures passes { IfOk result (λ passes.
        LetsPacketPass judge.now loader request passes
        (asked_so_far cells.old) (asked_so_far cells.new)) }
    ensures sizes { cells.new.cells.sizes ≡ cells.old.cells.sizes }
    ensures home { home_of cells.new.start ≡ home_of cells.old.start }
{
    let verdict = answer_to(alloc, judge, loader, request, cells)?;
    Ok(verdict == 0)
}

/// Whether a program lets the write of a part of an image pass, if the image has such a part.
fn lets_part(
    alloc: Global,
    judge: &Accepted,
    loader: LoadSender,
    image: &[u8],
    number: u16,
    cells: &mut LoadCells,
) -> Result<bool, AllocError>
    requires port { loader.port < 32 }
    requires number { number < 4 }
    requires sizes { cells.old.cells.sizes ≡ judge.now.sizes }
    ensures passes { IfOk result (λ passes.
        LetsPart judge.now loader image.now number passes
        (asked_so_far cells.old) (asked_so_far cells.new)) }
    ensures sizes { cells.new.cells.sizes ≡ cells.old.cells.sizes }
    ensures home { home_of cells.new.start ≡ home_of cells.old.start }
{
    if image.len() <= PART_SIZE * usize::from(number) {
        return Ok(true);
    }
    let part = part_of(image, number);
    lets_pass(alloc, judge, loader, stage_request(0, part, number), cells)
}

/// Whether each of five packets passes.
fn all_pass(first: bool, second: bool, third: bool, fourth: bool, fifth: bool) -> bool
    ensures { result ≡ (first && second && third && fourth && fifth) }
{
    first && second && third && fourth && fifth
}

/// Whether a program lets each write of a load of an image pass, in turn. The program is not asked about the read of
/// the load result, which does nothing.
fn lets_writes(
    alloc: Global,
    judge: &Accepted,
    loader: LoadSender,
    image: &[u8],
    cells: &mut LoadCells,
) -> Result<bool, AllocError>
    requires port { loader.port < 32 }
    requires short { length image.now ≤ STAGING_SIZE }
    requires sizes { cells.old.cells.sizes ≡ judge.now.sizes }
    ensures passes { IfOk result (λ passes.
        LetsWrites judge.now loader image.now passes
        (asked_so_far cells.old) (asked_so_far cells.new)) }
    ensures sizes { cells.new.cells.sizes ≡ cells.old.cells.sizes }
    ensures home { home_of cells.new.start ≡ home_of cells.old.start }
{
    let first = lets_part(alloc, judge, loader, image, 0, cells)?;
    let second = lets_part(alloc, judge, loader, image, 1, cells)?;
    let third = lets_part(alloc, judge, loader, image, 2, cells)?;
    let fourth = lets_part(alloc, judge, loader, image, 3, cells)?;
    let control = lets_pass(alloc, judge, loader, control_request(0, image), cells)?;
    Ok(all_pass(first, second, third, fourth, control))
}

/// Whether a program lets the whole load of an image pass, on cells that began so.
///
/// # Errors
///
/// An error if memory is refused.
pub fn lets_load(
    alloc: Global,
    judge: &Accepted,
    loader: LoadSender,
    image: &[u8],
    start: Start,
) -> Result<bool, AllocError>
    requires port { loader.port < 32 }
    requires short { length image.now ≤ STAGING_SIZE }
    ensures { IfOk result (LetsLoad start judge.now loader image.now) }
{
    let mut cells = LoadCells::new(alloc, &judge.sizes(), start)?;
    let passes = lets_writes(alloc, judge, loader, image, &mut cells)?;
    cells.answer_in_order();
    Ok(passes)
}
