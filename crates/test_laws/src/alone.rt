//! Runs of a node of one thread.

ghost use Rattle.std.specs.Prelude.{◌≡◌, IfOk};
ghost use Rattle.test_laws.specs.Runs.{KeepsQuotasAlone, ServesLoad, ServesRefusal};

use bver::Accepted;
use node_parts::{NodeConfig, Served, loads_are_taken, refusals_say_why};
use quotas::quotas_hold_alone;
use rmap::{ReplyBuf, Status};
use single_node::SingleNode;
use spw::{Packet, read_line};
use std::alloc::Global;
use std::test::Fail;

/// The packet of a line.
fn packet(alloc: Global, line: &str) -> Result<Packet, Fail> {
    let (_, packet) = read_line(alloc, line)?;
    Ok(packet)
}

/// Serves a packet of that line at the ports 0 and 1 in turn, `times` times, at a fresh node of one thread. Returns the
/// node, and how many commands were done at a bank with status 0, modulo 256. Quotas were kept.
///
/// # Errors
///
/// It fails if no node can be made, if the node has one port, if the line is none, or if memory is refused.
pub fn served_alone(
    alloc: Global,
    config: &NodeConfig,
    factory: Accepted,
    line: &str,
    times: u8,
) -> Result<(SingleNode, u8), Fail>
    requires { factory.sizes ≡ config.now.sizes }
    ensures { IfOk result (λ made. KeepsQuotasAlone config.now factory made.0) }
{
    quotas_hold_alone();
    let mut node = SingleNode::new(alloc, config, factory)?;
    let mut reply = ReplyBuf::new();
    let mut passed: u8 = 0;
    for turn in 0..times {
        let sent = packet(alloc, line)?;
        let port = turn % 2;
        if port >= node.ports() {
            return Err("no port".into());
        }
        let served = node.serve(alloc, port, sent, &mut reply);
        passed = passed.wrapping_add(u8::from(is_success(served)));
    }
    Ok((node, passed))
}

/// Whether a command was done at a bank with status 0.
fn is_success(served: Served) -> bool {
    match served {
        Served::Done(applied) => applied.status == Status::Success,
        Served::Stopped(_) | Served::Unread | Served::Window(_) => false,
    }
}

/// Serves a packet at port 0. A load that is refused says why.
///
/// # Errors
///
/// It fails at a node without a port.
pub fn reported(
    alloc: Global,
    node: &mut SingleNode,
    sent: Packet,
    reply: &mut ReplyBuf,
) -> Result<Served, Fail>
    ensures { IfOk result (λ served. ServesRefusal served 0 sent node.old node.new reply.new) }
{
    refusals_say_why();
    if node.ports() == 0 {
        return Err("no port".into());
    }
    let served = node.serve(alloc, 0, sent, reply);
    Ok(served)
}

/// Serves two packets at port 0. What the first one loaded, or what was loaded later, judges the second one.
///
/// # Errors
///
/// It fails at a node without a port.
pub fn taken(
    alloc: Global,
    node: &mut SingleNode,
    first: Packet,
    second: Packet,
    reply: &mut ReplyBuf,
) -> Result<Served, Fail>
    ensures { IfOk result (λ served. ServesLoad served 0 second node.old node.new reply.new) }
{
    loads_are_taken();
    reported(alloc, node, first, reply)?;
    if node.ports() == 0 {
        return Err("no port".into());
    }
    let served = node.serve(alloc, 0, second, reply);
    Ok(served)
}
