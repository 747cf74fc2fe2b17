//! The journals of a node of one thread.

ghost use Rattle.std.specs.Prelude.{◌≡◌, ◌<◌, length, slice_get};
ghost use Rattle.job_nodes.specs.JobNode.{first_address_of, is_full, journal_of};

use bank::Entry;
use single_node::SingleNode;

/// The address of the first byte of a bank. The condition is a number below [`SingleNode::banks`].
pub fn first(node: &SingleNode, bank: u8) -> u32
    requires { bank < length node.now.banks }
    ensures { result ≡ first_address_of (slice_get node.now.banks bank) }
{
    node.bank(bank).range().0
}

/// The entries of the journal of a bank, oldest first. The condition is a number below [`SingleNode::banks`].
pub fn entries(node: &SingleNode, bank: u8) -> &[Entry]
    requires { bank < length node.now.banks }
    ensures { result.now ≡ (journal_of (slice_get node.now.banks bank)).entries }
{
    node.bank(bank).entries()
}

/// Whether the journal of a bank has no room for another entry. A command for the bank is then answered with a general
/// error, and leaves none, until an empty journal begins. The condition is a number below [`SingleNode::banks`].
pub fn is_full(node: &SingleNode, bank: u8) -> bool
    requires { bank < length node.now.banks }
    ensures { result ≡ is_full (slice_get node.now.banks bank) }
{
    let bank = node.bank(bank);
    bank.entries().len() >= bank.room() as usize
}
