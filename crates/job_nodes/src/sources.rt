//! The node that a job runs on: that of the words of its command line, or that of a file.

ghost use Rattle.std.specs.Prelude.{IfErr, IfOk, MatchOption, string_bytes};
ghost use Rattle.sched.specs.Looking.{Node};
ghost use Rattle.job_nodes.specs.Beginning.{BeginsWithBytes, GivesNoWorld, GivesSchedule, HasContents, HoldsWorld, IsBegunWorld, IsFileBeginning, IsNoFileWorld, IsPlainBeginning, IsUnscheduled};
ghost use Rattle.job_nodes.specs.Sources.{HoldsNoNode, HoldsNode, IsFileNode, IsNoFileNode, IsNoPlainNode, IsPlainNode};

use crate::node::{JobNode, node_config};
use crate::worlds::{are_empty, world_of};
use job_config::node_lines::NodeLines;
use job_config::reading::{ReadNode, node_in};
use job_config::sources::NodeSource;
use job_parts::factory::judging_program;
use job_parts::faults::Fault;
use job_parts::options::NodeWords;
use job_parts::programs::text_in;
use job_parts::storage::Files;
use sched::World;
use std::alloc::{AllocError, Global};

/// A fresh node of these words. The program of its image file, or the factory program, judges its commands.
fn plain_node<'a, F: Files>(
    alloc: Global,
    words: &'a NodeWords,
    files: &mut F,
) -> Result<JobNode, Fault<'a>>
    ensures node { IfOk result (λ node. IsPlainNode F.reads words.now files.old node files.new) }
    ensures refused { IfErr result (IsNoPlainNode F.reads words.now files.old files.new) }
{
    let image = words.image.as_deref();
    let program = judging_program(alloc, files, image, words.sizes)?;
    Ok(JobNode::new(alloc, words.ports, program)?)
}

/// Where the node's file is bad, for the user, if that ended a job.
pub fn place_of(fault: Fault<'_>) -> Option<String> {
    if let Fault::BadNode { place, .. } = fault {
        Some(place)
    } else {
        None
    }
}

/// The node of the node's file of this name.
fn file_node<'a, F: Files>(
    alloc: Global,
    name: &'a str,
    files: &mut F,
) -> Result<JobNode, Fault<'a>>
    ensures node { IfOk result (λ node. IsFileNode F.reads name.now files.old node files.new) }
    ensures none { IfErr result (IsNoFileNode F.reads name.now files.old files.new) }
{
    let ReadNode { node: own, program } = node_in(alloc, files, name)?;
    Ok(JobNode::of(alloc, &own, program)?)
}

/// The node of the words or of the file that a command line names.
///
/// # Errors
///
/// Faults of words are those of [`judging_program`], those of a file those of [`node_in`]; and `NoMemory`.
pub fn node_from<'a, F: Files>(
    alloc: Global,
    source: &'a NodeSource,
    files: &mut F,
) -> Result<JobNode, Fault<'a>>
    ensures node { IfOk result (λ node. HoldsNode F.reads source.now files.old node files.new) }
    ensures none { IfErr result (HoldsNoNode F.reads source.now files.old files.new) }
{
    match source {
        NodeSource::Words(words) => plain_node(alloc, words, files),
        NodeSource::File(name) => file_node(alloc, name.as_str(), files),
    }
}

/// The world of the node of these words at its beginning. The program of its image file, or the factory program, judges
/// its commands.
fn plain_world<'a, F: Files>(
    alloc: Global,
    words: &'a NodeWords,
    files: &mut F,
) -> Result<World, Fault<'a>>
    ensures world { IfOk result (IsBegunWorld (λ (n : Node).
        IsPlainBeginning F.reads words.now files.old n files.new)) }
    ensures refused { IfErr result (IsNoPlainNode F.reads words.now files.old files.new) }
{
    let image = words.image.as_deref();
    let program = judging_program(alloc, files, image, words.sizes)?;
    let config = node_config(words.ports, words.sizes);
    // Only memory can be refused to it: the command line gives no number of ports that a node cannot have.
    match World::with_factory(alloc, &config, program) {
        Ok(world) => Ok(world),
        Err(_) => Err(Fault::NoMemory),
    }
}

/// The world of the node's file of this name after what it publishes, or `None` if a bank begins with bytes.
#[tactic(auto, using(crate::proofs::FirstWorlds::file_begun))]
fn file_world<'a, F: Files>(
    alloc: Global,
    name: &'a str,
    files: &mut F,
) -> Result<Option<World>, Fault<'a>>
    ensures world { IfOk result (λ made. MatchOption made
        (BeginsWithBytes F.reads name.now files.old files.new)
        (IsBegunWorld (λ (n : Node).
        IsFileBeginning F.reads name.now files.old n files.new))) }
    ensures none { IfErr result (IsNoFileWorld F.reads name.now files.old files.new) }
{
    let ReadNode { node: own, program } = node_in(alloc, files, name)?;
    if !are_empty(own.contents()) {
        return Ok(None);
    }
    match world_of(alloc, &own, program) {
        Ok(world) => Ok(Some(world)),
        Err(AllocError) => Err(Fault::NoMemory),
    }
}

/// The world of the words or of the file that a command line names, after what the file publishes. Or `None` if a bank
/// begins with bytes, which no world has.
///
/// Faults are those of [`node_from`].
fn world_from<'a, F: Files>(
    alloc: Global,
    source: &'a NodeSource,
    files: &mut F,
) -> Result<Option<World>, Fault<'a>>
    ensures world { IfOk result (λ made. MatchOption made
        (HasContents F.reads source.now files.old files.new)
        (λ world. HoldsWorld F.reads source.now files.old world files.new)) }
    ensures none { IfErr result (GivesNoWorld F.reads source.now files.old files.new) }
{
    match source {
        NodeSource::Words(words) => Ok(Some(plain_world(alloc, words, files)?)),
        NodeSource::File(name) => file_world(alloc, name.as_str(), files),
    }
}

/// The text of the file of lines, and the world of these arguments. The world is that of their words at its beginning,
/// or that of a file after what it publishes. `None` in place of a world if a bank begins with bytes, which no world
/// has.
///
/// # Errors
///
/// Faults are found in this order: those of the file of lines (`CannotRead`, also if it is not UTF-8), and those of
/// [`node_from`].
pub fn lines_and_world<'a, F: Files>(
    alloc: Global,
    args: &'a NodeLines,
    files: &mut F,
) -> Result<(String, Option<World>), Fault<'a>>
    ensures given { IfOk result (λ made.
        GivesSchedule F.reads args.now files.old (string_bytes made.0) made.1 files.new) }
    ensures refused { IfErr result (IsUnscheduled F.reads args.now files.old files.new) }
{
    let text = text_in(alloc, files, args.lines.as_str())?;
    let world = world_from(alloc, &args.node, files)?;
    Ok((text, world))
}
