//! Laws of histories. Each function does no work: its contract is the law.

ghost use Rattle.std.specs.Prelude.{◌<◌, ◌^◌, All};
ghost use Rattle.machine.specs.Memory.{IsProgramHeader};
ghost use Rattle.brun.specs.Runs.{header};
ghost use Rattle.sched.specs.Agreement.{PublishedAgrees};
ghost use Rattle.sched.specs.Headline.{BringsBytes, EveryHistoryJudgesOnce, EveryScheduleJudgesOnce, OpenedAreTaken, OpenedAfterDone};
ghost use Rattle.sched.specs.Turns.{TurnsArePaths};

use crate::event::Event;
use bpf::image_laws;
use bver::justified_programs;
use node_programs::published_programs;

/// A law and no work: a safe program that got some answers, which are words, is where its paths lead.
pub fn turns_are_paths()
    ensures { TurnsArePaths }
{}

/// A law and no work: a byte is below 256.
fn bytes_are_small(bytes: &[u8])
    ensures { All (λ byte. byte < 256) bytes.now }
{
    let _ = bytes.len();
}

/// A law and no work: a word is below 2^64.
pub(crate) fn words_are_small(word: u64)
    ensures { word < 2 ^ 64 }
{}

/// A law and no work: the packet that an event brings has only bytes.
pub(crate) fn event_brings_bytes(event: &Event)
    ensures { BringsBytes event.now }
{
    if let Event::Take(_, packet) = event {
        bytes_are_small(packet.bytes());
    }
}

/// A law and no work: the first four and the last twelve bytes of a command's header are what a program may see.
pub fn arrays_are_headers(front: &[u8; 4], tail: &[u8; 12])
    ensures { IsProgramHeader (header front.now tail.now) }
{
    bytes_are_small(front);
    bytes_are_small(tail);
}

/// A law and no work: the open command of a port was taken, and after that the port took none and did none. If a
/// command was done, what is open after it was taken after it. So no command is done twice.
pub fn opened_are_taken()
    ensures taken { OpenedAreTaken }
    ensures following { OpenedAfterDone }
{}

/// A law and no work: over every schedule each command that is done was judged once. The program that was published
/// when it was taken judged it, and that program is safe. Outcome, memory, stagings and programs are what the
/// definition gives for its verdict.
pub fn every_schedule_judges_once()
    ensures { EveryScheduleJudgesOnce }
{
    every_history_judges_once();
}

/// A law and no work: the same over each history that is lawful apart from what cells answered, as that of threads is.
pub fn every_history_judges_once()
    ensures { EveryHistoryJudgesOnce }
{
    turns_are_paths();
    justified_programs();
    image_laws();
}

/// A law and no work: what is published in a slot is what judges there, with its generation. It is so by each list of
/// publishes that has the factory program first and after it what was published, in order.
pub fn published_agrees()
    ensures { PublishedAgrees }
{
    published_programs();
}
