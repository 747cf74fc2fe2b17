//! The node that is served: that of the words of a command line, or that of a file.

ghost use Rattle.std.specs.Prelude.{◌≡◌, IfErr, IfOk};
ghost use Rattle.job_config.specs.Reads.{ReadsNode};
ghost use Rattle.job_nodes.specs.Sources.{HoldsNoNode, IsNoFileNode, IsNoPlainNode};
ghost use Rattle.job_ports.specs.OwnNodes.{HoldsOwn, IsPlainOwn};

use job_config::own_node::OwnNode;
use job_config::reading::{ReadNode, node_in};
use job_config::sources::NodeSource;
use job_parts::factory::judging_program;
use job_parts::faults::Fault;
use job_parts::options::NodeWords;
use job_parts::storage::Files;
use std::alloc::Global;

/// The node of these words, and the program of its image file, or the factory program.
fn plain_own<'a, F: Files>(
    alloc: Global,
    words: &'a NodeWords,
    files: &mut F,
) -> Result<ReadNode, Fault<'a>>
    ensures own { IfOk result (λ made.
        IsPlainOwn F.reads words.now files.old made.node made.program files.new) }
    ensures sizes { IfOk result (λ made. made.program.sizes ≡ made.node.sizes) }
    ensures none { IfErr result (IsNoPlainNode F.reads words.now files.old files.new) }
{
    let image = words.image.as_deref();
    let program = judging_program(alloc, files, image, words.sizes)?;
    let node = OwnNode::plain(alloc, words.ports, words.sizes)?;
    Ok(ReadNode { node, program })
}

/// The node of the node's file of this name.
fn file_own<'a, F: Files>(
    alloc: Global,
    name: &'a str,
    files: &mut F,
) -> Result<ReadNode, Fault<'a>>
    ensures own { IfOk result (λ made.
        ReadsNode F.reads name.now files.old made.node made.program files.new) }
    ensures sizes { IfOk result (λ made. made.program.sizes ≡ made.node.sizes) }
    ensures none { IfErr result (IsNoFileNode F.reads name.now files.old files.new) }
{
    node_in(alloc, files, name)
}

/// The node of the words or of the file that a command line names, and the program that judges in all slots at first.
///
/// # Errors
///
/// Faults of words are those of [`judging_program`], those of a file those of [`node_in`]; and `NoMemory`.
pub(crate) fn own_from<'a, F: Files>(
    alloc: Global,
    source: &'a NodeSource,
    files: &mut F,
) -> Result<ReadNode, Fault<'a>>
    ensures own { IfOk result (λ made.
        HoldsOwn F.reads source.now files.old made.node made.program files.new) }
    ensures sizes { IfOk result (λ made. made.program.sizes ≡ made.node.sizes) }
    ensures none { IfErr result (HoldsNoNode F.reads source.now files.old files.new) }
{
    match source {
        NodeSource::Words(words) => plain_own(alloc, words, files),
        NodeSource::File(name) => file_own(alloc, name.as_str(), files),
    }
}
