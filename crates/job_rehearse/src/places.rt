//! The node at which is rehearsed: one with some maps, of which nothing else is said, or that of a file.

ghost use Rattle.std.specs.Prelude.{◌≡◌, ◌≤◌, IfErr, IfOk};
ghost use Rattle.clap.specs.Walk.{rows_of};
ghost use Rattle.clap.specs.Matches.{found_of};
ghost use Rattle.job_rehearse.specs.Places.{GivesRehearsalNode, HoldsNoPlace, HoldsPlace, IsBegunAt, RefusesPlace, has_port, loaded_at, loader_on, sizes_at};

use crate::loaders::{LoadSender, loader_in, ports_in};
use crate::open_ports::LoadedNode;
use crate::steps::Rehearsing;
use bver::Accepted;
use clap::ArgMatches;
use job_config::own_node::{NODE_ADDRESS, OwnNode};
use job_config::reading::node_in;
use job_nodes::node::JobNode;
use job_parts::arguments::text_of;
use job_parts::faults::Fault;
use job_parts::options::sizes_of;
use job_parts::storage::Files;
use job_parts::usage::UsageFault;
use machine::MapSizes;
use spw::PORTS;
use std::alloc::{AllocError, Global};

/// What the words say of the node.
#[derive(Debug, Drop)]
pub enum PlaceWords {
    /// Its maps; it has logical address FE and one bank, and nothing is published.
    Maps(MapSizes),
    /// The name of its file.
    File(String),
}

/// The node.
#[derive(Debug, Drop)]
pub enum RehearsalNode {
    /// One with these maps, logical address FE and one bank, for which nothing is published.
    Plain(MapSizes),
    /// That of a file.
    Own(OwnNode),
}

/// The node by the options. `BadOption` if `--node` is beside `--maps`, and if the maps are none.
pub(crate) fn place_of(alloc: Global, found: &ArgMatches) -> Result<PlaceWords, UsageFault>
    ensures ok { IfOk result (GivesRehearsalNode (rows_of (found_of found.now))) }
    ensures err { IfErr result (RefusesPlace (rows_of (found_of found.now))) }
{
    let Some(name) = text_of(found, "node") else {
        return Ok(PlaceWords::Maps(sizes_of(alloc, found)?));
    };
    if text_of(found, "maps").is_some() {
        return Err(UsageFault::BadOption);
    }
    Ok(PlaceWords::File(String::from_str(alloc, name)?))
}

/// The node that the words say.
pub(crate) fn place_in<'a, F: Files>(
    alloc: Global,
    words: &'a PlaceWords,
    files: &mut F,
) -> Result<RehearsalNode, Fault<'a>>
    ensures place { IfOk result (λ place. HoldsPlace F.reads words.now files.old place files.new) }
    ensures none { IfErr result (HoldsNoPlace F.reads words.now files.old files.new) }
{
    match words {
        PlaceWords::Maps(sizes) => Ok(RehearsalNode::Plain(*sizes)),
        PlaceWords::File(name) => {
            let read = node_in(alloc, files, name.as_str())?;
            Ok(RehearsalNode::Own(read.node))
        }
    }
}

impl RehearsalNode {
    /// How many cells each map has, and of which kind it is.
    pub fn sizes(&self) -> MapSizes
        ensures { result ≡ sizes_at self.now }
    {
        match self {
            RehearsalNode::Plain(sizes) => *sizes,
            RehearsalNode::Own(own) => own.sizes(),
        }
    }

    /// Whether the node has the port of the loader that is named.
    pub fn has_port(&self, named: Option<LoadSender>) -> bool
        ensures { result ≡ has_port self.now named }
    {
        match self {
            RehearsalNode::Plain(_) => true,
            RehearsalNode::Own(own) => loader_in(named).port < own.ports(),
        }
    }

    /// Who loads at the node: the one that is named, or port 0, initiator 67 and key 00.
    pub fn loader(&self, named: Option<LoadSender>) -> LoadSender
        ensures { result ≡ loader_on self.now named }
    {
        let mut loader = loader_in(named);
        if let RehearsalNode::Own(own) = self {
            loader.target = own.address();
        }
        loader
    }
}

impl RehearsalNode {
    /// The node about whose loads a program is asked. If nothing else is said of it, it has logical address FE and 32
    /// ports. No file gives more ports.
    pub fn loaded(&self) -> LoadedNode
        ensures value { result ≡ loaded_at self.now }
        ensures ports { result.ports ≤ 32 }
    {
        match self {
            RehearsalNode::Plain(_) => LoadedNode {
                target: NODE_ADDRESS,
                ports: PORTS,
            },
            RehearsalNode::Own(own) => LoadedNode {
                target: own.address(),
                ports: own.ports().min(PORTS),
            },
        }
    }
}

/// The node before the first load, and after what its file publishes. This program judges in all slots at first. The
/// condition is a program that was accepted for its maps.
pub(crate) fn begun_at(
    alloc: Global,
    place: &RehearsalNode,
    program: Accepted,
    named: Option<LoadSender>,
) -> Result<Rehearsing, AllocError>
    requires { program.sizes ≡ sizes_at place.now }
    ensures { IfOk result (IsBegunAt place.now program named) }
{
    match place {
        RehearsalNode::Plain(_) => Rehearsing::new(alloc, program, ports_in(named)),
        RehearsalNode::Own(own) => Ok(Rehearsing::at(JobNode::of(alloc, own, program)?)),
    }
}
