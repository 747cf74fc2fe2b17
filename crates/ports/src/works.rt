//! The loop of a worker.

ghost use Rattle.std.specs.Prelude.{◌≡◌, ◌∷◌, [], length};
ghost use Rattle.ports.specs.Queue.{IsServePassOf, IsServePassAfter};
ghost use Rattle.ports.specs.Due.{due_of, standing};
ghost use Rattle.ports.specs.Sinks.{sent_at};
ghost use Rattle.ports.specs.Worked.{HasServed, HasTaken, IsWorked};

use crate::gate::Gate;
use crate::item::Item;
use crate::packet::serve_packet;
use crate::port::Port;
use crate::sink::Sink;
use crate::worker::{Report, Worker};
use rmap::ReplyBuf;
use spw::Packet;
use std::alloc::Global;
use std::sync::Wait;
use target::{Family, Front, Node, Pass};

/// Hands a reply to the sink, if there is one. It gives how many replies were lost: 0 or 1.
#[tactic(auto, using(crate::proofs::Sending::lost_one))]
fn send<S: Sink>(sink: &mut S, port: u8, reply: &[u8]) -> u64
    ensures { HasTaken (S.sent sink.old) (S.sent sink.new) (S.failed sink.old) (S.failed sink.new)
        (sent_at port (due_of (reply.now ∷ []))) result }
{
    if reply.is_empty() {
        return 0;
    }
    match sink.send(port, reply) {
        Ok(()) => 0,
        Err(_fault) => 1,
    }
}

/// Serves one packet, and hands the reply that is due to the sink. It gives the report of only this packet. `reply` is
/// where the reply is written. The condition is a pass with a share of each bank of the node.
fn one_more<R: Wait, J: Family, Q: Wait + Drop, S: Sink>(
    rt: &R,
    alloc: Global,
    node: &Node<J, Q>,
    pass: &mut Pass<J>,
    front: &mut Front<J>,
    sink: &mut S,
    packet: Packet,
    reply: &mut ReplyBuf,
) -> Report
    requires { length pass.old.pass.shares ≡ node.now }
    ensures served { HasServed S.sent S.failed (standing pass.old front.old)
        (standing pass.new front.new) sink.old sink.new (packet ∷ []) result }
    ensures banks { length pass.new.pass.shares ≡ length pass.old.pass.shares }
{
    let port = pass.port();
    let discarded = u64::from(serve_packet(rt, alloc, node, pass, front, packet, reply));
    let lost = send(sink, port, reply.bytes());
    Report { discarded, lost }
}

/// Serves a port until the end mark: takes packet after packet, serves each, and hands the reply that is due to the
/// worker's sink. Round each packet it calls the gate, with the port and the number of the packet, which wraps past
/// 2^64 - 1. It waits for packets, and for the locks of banks and of the publisher. It holds none while it calls the
/// gate or the sink, or while a program runs. The condition is a worker of that port, whose pass has a share of each
/// bank of the node.
///
/// A command that left an entry at a bank is in the one history of the node's banks, after all that the port knew. Its
/// status and reply are the definition's on the replay of what is before it there. The port asks in its line for each
/// entry and each publish of its commands, in the order of its packets, and for nothing else. Any other command at a
/// bank met some bank, and a load met some list of publishes: a lock hides which. It is tested what the gate is given,
/// and that the worker holds no lock meanwhile.
pub fn work<R: Wait, J: Family, Q: Wait + Drop, S: Sink + Drop, G: Gate>(
    rt: &R,
    alloc: Global,
    node: &Node<J, Q>,
    port: &Port,
    worker: &mut Worker<J, S>,
    gate: &G,
) -> Report
    requires served { IsServePassOf port.now worker.old.serve_pass }
    requires banks { length worker.old.pass.pass.shares ≡ node.now }
    ensures served { IsServePassOf port.now worker.new.serve_pass }
    ensures same { IsServePassAfter worker.old.serve_pass worker.new.serve_pass }
    ensures banks { length worker.new.pass.pass.shares ≡ node.now }
    ensures worked { IsWorked S.sent S.failed worker.old worker.new result }
{
    let mut report = Report {
        discarded: 0,
        lost: 0,
    };
    let mut reply = ReplyBuf::new();
    let mut number: u64 = 0;
    for _ in rt.forever() {
        let Item::Data(packet) = port.take(rt, &mut worker.serve_pass) else {
            return report;
        };
        let at = worker.pass.port();
        gate.before(at, number);
        let Worker {
            pass,
            front,
            sink,
            ..
        } = worker;
        let one = one_more(rt, alloc, node, pass, front, sink, packet, &mut reply);
        report = report.plus(one);
        gate.after(at, number);
        number = number.wrapping_add(1);
    }
    unreachable!()
}
