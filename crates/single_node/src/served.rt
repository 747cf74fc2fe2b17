//! The whole way of a packet.

ghost use Rattle.std.specs.Prelude.{◌≡◌, ◌<◌, List, length};
ghost use mathlib.Core.List.{IsPrefix};
ghost use Rattle.bank.specs.Admission.{IsPlacedBy};
ghost use Rattle.node_programs.specs.Published.{sizes_of};
ghost use Rattle.node_programs.specs.declared.publishes.Publish.{Publish};
ghost use Rattle.node_parts.specs.Pairs.{IsPaired};
ghost use Rattle.node_parts.specs.Served.{parts};
ghost use Rattle.node_parts.specs.declared.served.Served.TheVariants.{Stopped};
ghost use Rattle.single_node.specs.Nodes.{IsInformed};
ghost use Rattle.single_node.specs.Judging.{EndsJudged, IsAppliedAt, ServesAt};

use crate::port::SinglePort;
use crate::programs::SlotPrograms;
use bank::{Applied, Judged};
use node_parts::{Banks, Served, Stop, admit, paired_commands_fit};
use plain_cells::PlainCells;
use rmap::{Place, ReplyBuf, Windows};
use spw::Packet;
use std::alloc::Global;

/// What became of a packet, with the program that judged its command and that program's verdict.
#[derive(Clone, Copy, Debug, PartialEq, Eq)]
pub struct ServedDetail {
    /// What became of it.
    pub served: Served,
    /// The generation of the program that judged its command: its place in the list of what was published. If the
    /// packet's header stopped it, this is 0.
    pub generation: u32,
    /// The verdict of that program: 0 is yes. If the packet's header stopped it, this is 0 too.
    pub verdict: u64,
}

/// What the node reports of a packet that its header stops.
fn stopped(stop: Stop) -> ServedDetail
    ensures { result ≡ record { served = Stopped stop; generation = 0; verdict = 0 } }
{
    ServedDetail {
        served: Served::Stopped(stop),
        generation: 0,
        verdict: 0,
    }
}

/// Ends a judged command at the bank of its place, and leaves the reply. What the node knows of its banks may be
/// damaged, so the call tests whether there is that bank. If there is none, the command ends with a general error, and
/// leaves no entry.
fn end_at(
    banks: &mut Banks,
    port: &mut SinglePort,
    k: u8,
    judged: Judged,
    reply: &mut ReplyBuf,
) -> Applied
    requires paired { IsPaired banks.old port.old }
    requires port { judged.port ≡ port.old.port }
    requires placed { IsPlacedBy port.old.windows judged.packet judged.place }
    requires place { judged.place ≡ Place.Bank k }
    ensures { (programs : List Publish) → IsAppliedAt (parts banks.old programs)
        (parts banks.new programs) port.old port.new judged result reply.new }
{
    paired_commands_fit();
    if !port.has_bank(banks, k) {
        let status = judged.answer_elsewhere(k, reply);
        return Applied {
            status,
            number: None,
        };
    }
    port.apply(banks.bank_mut(k), k, judged, reply)
}

/// Ends a judged command where its bytes lie, and leaves the reply.
fn end(
    alloc: Global,
    banks: &mut Banks,
    programs: &mut SlotPrograms,
    port: &mut SinglePort,
    judged: Judged,
    reply: &mut ReplyBuf,
) -> Served
    requires paired { IsPaired banks.old port.old }
    requires port { judged.port ≡ port.old.port }
    requires placed { IsPlacedBy port.old.windows judged.packet judged.place }
    requires begins { IsPrefix port.old.programs programs.old }
    ensures { EndsJudged result (parts banks.old programs.old) (parts banks.new programs.new)
        port.old port.new judged reply.new }
{
    match judged.place() {
        Place::Bank(k) => Served::Done(end_at(banks, port, k, judged, reply)),
        Place::Staging | Place::LoadResult => Served::Window(port.stage(judged, reply)),
        Place::Control => Served::Window(port.load(alloc, programs, judged, reply)),
    }
}

/// Serves one packet that came in at a port under the windows of the node, which are lent. The last program that was
/// published for its slot judges its command. Then the verdict is applied to the bank that it names, or to the port's
/// staging, or what is staged there is loaded.
pub(crate) fn serve_at(
    alloc: Global,
    windows: &Windows,
    banks: &mut Banks,
    cells: &mut PlainCells,
    programs: &mut SlotPrograms,
    port: &mut SinglePort,
    packet: Packet,
    reply: &mut ReplyBuf,
) -> ServedDetail
    requires paired { IsPaired banks.old port.old }
    requires informed { IsInformed programs.old port.old }
    requires sizes { cells.old.sizes ≡ sizes_of programs.old }
    requires windows { windows.now ≡ port.old.windows }
    ensures served { ServesAt result.served result.generation result.verdict packet
        cells.old.words cells.new.words (parts banks.old programs.old)
        (parts banks.new programs.new) port.old port.new reply.new }
    ensures sizes { cells.new.sizes ≡ cells.old.sizes }
    ensures some { 0 < length programs.old }
{
    let _list = programs.list();
    let admitted = match admit(packet, windows, reply) {
        Ok(admitted) => admitted,
        Err((stop, _packet)) => return stopped(stop),
    };
    let judged = port.judge(cells, programs, admitted);
    let generation = judged.generation();
    let verdict = judged.verdict();
    let served = end(alloc, banks, programs, port, judged, reply);
    ServedDetail {
        served,
        generation,
        verdict,
    }
}
