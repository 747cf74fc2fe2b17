//! Whose loads a program lets pass, and at which ports of a node.

ghost use Rattle.std.specs.Prelude.{◌≡◌, ◌≤◌, ◌<◌, ◌+◌, ◌++◌, IfOk, OnOk, if◌then◌else◌, length, string_bytes};
ghost use Rattle.rmap.specs.declared.boot.TheConstants.{STAGING_SIZE};
ghost use Rattle.job_rehearse.specs.OpenPorts.{AreOpen, IsAskerAt, PassesAt, PrintsAsker, PrintsAskers, PrintsFirstAskers, PrintsPlace, port_answer_at, ends_run, is_port_open, run_line, with_end, with_kinds, with_runs};

use crate::askers::{LoadInitiator, asker_text};
use crate::loaders::LoadSender;
use crate::passing::{Passing, is_kind, kind_words, loader_passing};
use bver::Accepted;
use std::alloc::{AllocError, Global};

/// The node that would be loaded.
#[derive(Clone, Copy, Debug, PartialEq, Eq)]
pub struct LoadedNode {
    /// Its logical address.
    pub target: u8,
    /// How many ports it has, 1 to 32.
    pub ports: u8,
}

/// Whether a program lets the load of an image pass, if the asker loads it at a port of the node.
fn passing_at(
    alloc: Global,
    judge: &Accepted,
    image: &[u8],
    node: LoadedNode,
    asker: LoadInitiator,
    port: u8,
) -> Result<Passing, AllocError>
    requires port { port < 32 }
    requires short { length image.now ≤ STAGING_SIZE }
    ensures { IfOk result (PassesAt judge.now image.now node asker port) }
{
    let loader = LoadSender {
        port,
        initiator: asker.initiator.byte,
        key: asker.key.byte,
        target: node.target,
    };
    loader_passing(alloc, judge, loader, image)
}

/// Whether a program lets the load of an asker pass at each port of the node, from 0 on.
fn port_answers(
    alloc: Global,
    judge: &Accepted,
    image: &[u8],
    node: LoadedNode,
    asker: LoadInitiator,
) -> Result<Vec<Passing>, AllocError>
    requires ports { node.ports ≤ 32 }
    requires short { length image.now ≤ STAGING_SIZE }
    ensures { IfOk result (λ answers.
        AreOpen judge.now image.now node asker node.ports answers.items) }
{
    let mut answers = Vec::new(alloc);
    for port in 0..node.ports {
        answers.push(passing_at(alloc, judge, image, node, asker, port)?)?;
    }
    Ok(answers)
}

/// The answer at a port; after the last it is none of those that are printed.
fn port_answer_at(answers: &[Passing], port: usize) -> Passing
    ensures { result ≡ port_answer_at answers.now port }
{
    answers.get(port).copied().unwrap_or(Passing::Never)
}

/// Whether the answer at a port is that one.
fn is_port_open(answers: &[Passing], kind: Passing, port: usize) -> bool
    ensures { result ≡ is_port_open answers.now kind port }
{
    is_kind(kind, port_answer_at(answers, port))
}

/// Whether a port is the last of a run of ports with that answer.
fn ends_run(answers: &[Passing], kind: Passing, port: u8) -> bool
    ensures { result ≡ ends_run answers.now kind port }
{
    is_port_open(answers, kind, usize::from(port))
        && !is_port_open(answers, kind, usize::from(port) + 1)
}

/// Adds the line of a run of ports.
fn add_run(
    text: &mut String,
    lead: &str,
    words: &str,
    more: &str,
    first: u8,
    last: u8,
) -> Result<(), AllocError>
    ensures { OnOk result (string_bytes text.new
        ≡ string_bytes text.old ++ run_line lead.now words.now more.now first last) }
{
    writeln!(text, "{lead} by port {first}-{last}{words}{more}")
}

/// Adds the line of the run that ends at a port, if one does.
fn add_end(
    text: &mut String,
    answers: &[Passing],
    kind: Passing,
    lead: &str,
    words: &str,
    first: u8,
    port: u8,
) -> Result<(), AllocError>
    ensures { OnOk result (string_bytes text.new
        ≡ with_end (string_bytes text.old) answers.now kind lead.now words.now first port) }
{
    if ends_run(answers, kind, port) {
        add_run(text, lead, words, kind_words(kind), first, port)?;
    }
    Ok(())
}

/// The first port of the run after this port. `first` is the first port of the run in which this one is.
fn first_after(answers: &[Passing], kind: Passing, first: u8, port: u8) -> u8
    requires { port < 32 }
    ensures { result ≡ if is_port_open answers.now kind port then first else port + 1 }
{
    if is_port_open(answers, kind, usize::from(port)) {
        first
    } else {
        port + 1
    }
}

/// Adds a line for each run of ports with that answer, of this many ports.
fn add_runs(
    text: &mut String,
    answers: &[Passing],
    kind: Passing,
    lead: &str,
    words: &str,
    ports: u8,
) -> Result<(), AllocError>
    requires { ports ≤ 32 }
    ensures { OnOk result (string_bytes text.new
        ≡ with_runs (string_bytes text.old) answers.now kind lead.now words.now ports) }
{
    let mut first = 0;
    for port in 0..ports {
        add_end(text, answers, kind, lead, words, first, port)?;
        first = first_after(answers, kind, first, port);
    }
    Ok(())
}

/// Adds the runs of each answer except the last.
fn add_kinds(
    text: &mut String,
    answers: &[Passing],
    lead: &str,
    words: &str,
    ports: u8,
) -> Result<(), AllocError>
    requires { ports ≤ 32 }
    ensures { OnOk result (string_bytes text.new
        ≡ with_kinds (string_bytes text.old) answers.now lead.now words.now ports) }
{
    add_runs(text, answers, Passing::Always, lead, words, ports)?;
    add_runs(text, answers, Passing::UntilSpent, lead, words, ports)?;
    add_runs(text, answers, Passing::OnceSpent, lead, words, ports)
}

/// Adds a line for each run of the node's ports at which a program lets the load of an asker pass, in one way.
fn add_asker(
    text: &mut String,
    alloc: Global,
    judge: &Accepted,
    image: &[u8],
    node: LoadedNode,
    lead: &str,
    asker: LoadInitiator,
) -> Result<(), AllocError>
    requires ports { node.ports ≤ 32 }
    requires short { length image.now ≤ STAGING_SIZE }
    ensures { OnOk result (PrintsAsker judge.now image.now node lead.now asker
        (string_bytes text.old) (string_bytes text.new)) }
{
    let answers = port_answers(alloc, judge, image, node, asker)?;
    let words = asker_text(alloc, asker)?;
    add_kinds(text, answers.as_slice(), lead, words.as_str(), node.ports)
}

/// The asker of a place, from 0 on.
fn asker_at(askers: &[LoadInitiator], place: usize) -> LoadInitiator
    requires { place < length askers.now }
    ensures { IsAskerAt askers.now place result }
{
    askers[place]
}

/// Adds a line for each run of the node's ports at which a program lets the load of the asker of a place pass.
fn add_asker_at(
    text: &mut String,
    alloc: Global,
    judge: &Accepted,
    image: &[u8],
    node: LoadedNode,
    lead: &str,
    askers: &[LoadInitiator],
    place: usize,
) -> Result<(), AllocError>
    requires ports { node.ports ≤ 32 }
    requires short { length image.now ≤ STAGING_SIZE }
    requires place { place < length askers.now }
    ensures { OnOk result (PrintsPlace judge.now image.now node lead.now askers.now place
        (string_bytes text.old) (string_bytes text.new)) }
{
    let asker = asker_at(askers, place);
    add_asker(text, alloc, judge, image, node, lead, asker)
}

/// Adds the lines of each asker.
fn add_askers(
    text: &mut String,
    alloc: Global,
    judge: &Accepted,
    image: &[u8],
    node: LoadedNode,
    lead: &str,
    askers: &[LoadInitiator],
) -> Result<(), AllocError>
    requires ports { node.ports ≤ 32 }
    requires short { length image.now ≤ STAGING_SIZE }
    ensures { OnOk result
        (PrintsFirstAskers judge.now image.now node lead.now askers.now (length askers.now)
        (string_bytes text.old) (string_bytes text.new)) }
{
    for place in 0..askers.len() {
        add_asker_at(text, alloc, judge, image, node, lead, askers, place)?;
    }
    Ok(())
}

/// Whose loads of an image a program in slot 3 lets pass, of these askers. There is a line for each run of the node's
/// ports at which it lets two loads pass, or only the first, or only the second. The first comes on cells that nobody
/// asked, and the second on cells that are past every quota. Each line begins with `lead`; who is in none of them
/// cannot load.
///
/// # Errors
///
/// An error if memory is refused.
pub fn loaders(
    alloc: Global,
    judge: &Accepted,
    image: &[u8],
    node: LoadedNode,
    lead: &str,
    askers: &[LoadInitiator],
) -> Result<String, AllocError>
    requires ports { node.ports ≤ 32 }
    requires short { length image.now ≤ STAGING_SIZE }
    ensures { IfOk result (λ text.
        PrintsAskers judge.now image.now node lead.now askers.now (string_bytes text)) }
{
    let mut text = String::new(alloc);
    add_askers(&mut text, alloc, judge, image, node, lead, askers)?;
    Ok(text)
}
