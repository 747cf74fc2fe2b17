//! The load of an image at the node of a rehearsal.

ghost use Rattle.std.specs.Prelude.{◌≡◌, ◌≤◌, ◌+◌, Decides, IfErr, IfOk, OnOk, length};
ghost use Rattle.std.specs.List.{list_all, list_any};
ghost use Rattle.rmap.specs.declared.boot.TheConstants.{STAGING_SIZE};
ghost use Rattle.job_parts.specs.Stops.{StopsBy};
ghost use Rattle.job_rehearse.specs.Loads.{AreLoaded, IsImageLoaded, Loads, StopsLoad, StopsTaking, TakesLoad, ending_of};

use crate::loaders::{LoadSender, header_of};
use crate::steps::Rehearsing;
use job_packets::loads::add_loads;
use job_parts::stops::JobStop;
use job_parts::turns::take_lines;
use single_node::SingleNode;
use std::alloc::{AllocError, Global};
use std::io::Write;

/// How the loads of an image ended.
#[derive(Clone, Copy, Debug, PartialEq, Eq)]
pub enum LoadEnd {
    /// Each write was answered with status 0, and the program of each slot is the image's.
    Loaded,
    /// A program did not let a write be done, and the program of some slot is the image's.
    InPart,
    /// A program did not let a write be done, and the program of no slot is the image's.
    LockedOut,
    /// It was not loaded into each slot, though each write was let pass.
    NotLoaded,
}

/// An image that is loaded.
#[derive(Clone, Copy)]
pub struct LoadOf<'a> {
    /// What the image is called.
    pub name: &'a str,
    /// Who loads it.
    pub loader: LoadSender,
    /// The slots of its program, in the order of the loads.
    pub slots: &'a [u8],
    /// Its bytes, at most as many as the staging has.
    pub image: &'a [u8],
}

/// Lets the node take the packets of the loads of an image.
fn take_load<'a, W: Write>(
    alloc: Global,
    rehearsing: &mut Rehearsing,
    load: LoadOf<'_>,
    out: &mut W,
) -> Result<(), JobStop<'a>>
    requires { length load.image.now ≤ STAGING_SIZE }
    ensures taken { OnOk result (TakesLoad load.entry.loader load.entry.slots.now
        load.entry.image.now rehearsing.old rehearsing.new (W.contents out.old) (W.contents out.new)) }
    ensures stops { IfErr result (StopsBy (StopsTaking load.entry.loader load.entry.slots.now
        load.entry.image.now rehearsing.old rehearsing.new (W.contents out.old) (W.contents out.new))) }
{
    let header = header_of(alloc, load.loader);
    let mut text = String::new(alloc);
    add_loads(&mut text, alloc, &header, load.slots, load.image)?;
    take_lines(alloc, rehearsing, text.as_str(), out)
}

/// Whether bytes are those of an image.
fn are_bytes(bytes: &[u8], image: &[u8]) -> bool
    ensures { Decides result (bytes.now ≡ image.now) }
{
    bytes == image
}

/// Whether an image is loaded into a slot: the last program that was published for it is that of the image, and its generation is
/// above that one.
fn is_loaded(node: &SingleNode, image: &[u8], generation: u32, slot: u8) -> Result<bool, AllocError>
    ensures { IfOk result (λ is.
        Decides is (IsImageLoaded image.now (generation + 1) node.now.programs slot)) }
{
    if slot > 3 {
        return Ok(false);
    }
    if node.generation(slot) <= generation {
        return Ok(false);
    }
    let bytes = node.program(slot).image().write()?;
    Ok(are_bytes(bytes.as_slice(), image))
}

/// Whether an image is loaded into each of these slots, in turn.
fn are_loaded(
    alloc: Global,
    node: &SingleNode,
    image: &[u8],
    generation: u32,
    slots: &[u8],
) -> Result<Vec<bool>, AllocError>
    ensures { IfOk result (λ loaded.
        AreLoaded image.now (generation + 1) node.now.programs slots.now loaded.items) }
{
    let mut loaded = Vec::new(alloc);
    for slot in slots {
        loaded.push(is_loaded(node, image, generation, *slot)?)?;
    }
    Ok(loaded)
}

/// Whether an image is loaded into some slot.
fn is_any(loaded: &[bool]) -> bool
    ensures { result ≡ list_any (λ is. is) loaded.now }
{
    loaded.iter().any(|is| *is)
}

/// Whether an image is loaded into each slot.
fn is_each(loaded: &[bool]) -> bool
    ensures { result ≡ list_all (λ is. is) loaded.now }
{
    loaded.iter().all(|is| *is)
}

/// How loads of an image into slots ended. That depends on whether it is loaded into each, whether a program did not
/// let a write of them be done, and whether one was not answered with status 0.
fn ending_of(loaded: &[bool], is_refused: bool, is_failed: bool) -> LoadEnd
    ensures { result ≡ ending_of loaded.now is_refused is_failed }
{
    if is_refused {
        if is_any(loaded) {
            return LoadEnd::InPart;
        }
        return LoadEnd::LockedOut;
    }
    if is_each(loaded) && !is_failed {
        LoadEnd::Loaded
    } else {
        LoadEnd::NotLoaded
    }
}

/// Loads an image at the node of a rehearsal. It prints the name of the image, and what becomes of each packet, and
/// returns how the load ended.
///
/// # Errors
///
/// The fault that ended the load, or that the writer failed.
pub fn load<'a, W: Write>(
    alloc: Global,
    rehearsing: &mut Rehearsing,
    load: LoadOf<'_>,
    out: &mut W,
) -> Result<LoadEnd, JobStop<'a>>
    requires { length load.image.now ≤ STAGING_SIZE }
    ensures loads { IfOk result (λ ending. Loads load.entry.name.now load.entry.loader
        load.entry.slots.now load.entry.image.now ending rehearsing.old rehearsing.new
        (W.contents out.old) (W.contents out.new)) }
    ensures stops { IfErr result (StopsBy (StopsLoad load.entry.name.now load.entry.loader
        load.entry.slots.now load.entry.image.now rehearsing.old (W.contents out.old) (W.contents out.new))) }
{
    let name = load.name;
    writeln!(out, "{name}")?;
    rehearsing.refused = false;
    rehearsing.failed = false;
    let before = rehearsing.node.loaded();
    take_load(alloc, rehearsing, load, out)?;
    let loaded = are_loaded(alloc, &rehearsing.node, load.image, before, load.slots)?;
    Ok(ending_of(loaded.as_slice(), rehearsing.refused, rehearsing.failed))
}
