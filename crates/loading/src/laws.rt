//! The laws of loads. Each function does no work: its contract is the law.

ghost use Rattle.std.specs.Prelude.{◌<◌, length};
ghost use Rattle.loading.specs.Asked.{ControlDataAreRead};
ghost use Rattle.loading.specs.Reported.{LoadsAreReported};

use initiator::{load_packets_are_taken, made_commands_are_read};
use node_programs::published_programs;
use rmap::discard_is_exact;
use single_node::SingleNode;

/// A law and no work: a target reads the data of the control write of a load as what asks for that load. They are the
/// slot, a zero byte, and the bytes of the image.
pub fn control_data_are_read()
    ensures { ControlDataAreRead }
{}

/// A law and no work: let a node of one thread serve the packets of a load in turn at a port, and let each pass. Then
/// the load result of that port is the verdict on the image. The image is published in the slot of the load, or
/// refused. The packet that reads the load result is answered with it, and no bank changes. The condition is a port of
/// the node ([`SingleNode::ports`]).
pub fn loads_are_reported(node: &SingleNode, port: u8)
    requires { port < length node.now.passes }
    ensures { LoadsAreReported port node.now }
{
    discard_is_exact();
    made_commands_are_read();
    load_packets_are_taken();
    published_programs();
    let _ports = node.ports();
    let _bytes = node.staging(port).bytes();
}
