//! Whether the packets of a load are denied after that load.

ghost use Rattle.std.specs.Prelude.{◌≡◌, Decides, IfOk};
ghost use Rattle.bver.specs.Justified.{IsJustified};
ghost use Rattle.machine.specs.Sizes.{counter_maps};
ghost use Rattle.job_rehearse.specs.Again.{IsAcceptable, IsDeniedAgain, IsDeniedSomewhere, IsNewNode, IsTriedOn, TakesAll, lacks_memory};

use crate::steps::Rehearsing;
use bpf::{Image, ImageFault};
use bver::{Refusal, verify};
use job_nodes::node::node_config;
use job_parts::factory::factory_program;
use job_parts::turns::take_lines;
use machine::MapSizes;
use rmap::ReplyBuf;
use single_node::SingleNode;
use spw::PORTS;
use std::alloc::{AllocError, Global};
use std::io;

/// A fresh node of that logical address, with 32 ports and these maps, at which the factory program judges all.
fn new_node(alloc: Global, address: u8, sizes: MapSizes) -> Result<Rehearsing, AllocError>
    ensures { IfOk result (IsNewNode address sizes) }
{
    // Only memory can be refused to the factory program, and to its node.
    let Ok(program) = factory_program(alloc, sizes) else {
        return Err(AllocError);
    };
    let mut config = node_config(PORTS, sizes);
    config.address = address;
    let Ok(node) = SingleNode::new(alloc, &config, program) else {
        return Err(AllocError);
    };
    Ok(Rehearsing {
        node,
        reply: ReplyBuf::new(),
        refused: false,
        failed: false,
    })
}

/// Lets the node take the packets of these lines. Returns whether a program did not let one be done.
fn take_all(alloc: Global, rehearsing: &mut Rehearsing, lines: &str) -> Result<bool, AllocError>
    ensures { IfOk result (TakesAll lines.now rehearsing.old rehearsing.new) }
{
    rehearsing.refused = false;
    rehearsing.failed = false;
    match take_lines(alloc, rehearsing, lines, &mut io::sink()) {
        Ok(()) => Ok(rehearsing.refused),
        Err(_) => Err(AllocError),
    }
}

/// Whether a program denies the packets of these lines at a fresh node with these maps that took them before.
fn is_denied_again(
    alloc: Global,
    address: u8,
    sizes: MapSizes,
    lines: &str,
) -> Result<bool, AllocError>
    ensures { IfOk result (IsDeniedAgain address sizes lines.now) }
{
    let mut rehearsing = new_node(alloc, address, sizes)?;
    take_all(alloc, &mut rehearsing, lines)?;
    take_all(alloc, &mut rehearsing, lines)
}

/// Whether a program is accepted for a node with these maps.
#[tactic(auto, using(crate::proofs::Trying::justified_is, crate::proofs::Trying::unjustified_is))]
fn is_accepted(alloc: Global, image: Image, sizes: &MapSizes) -> Result<bool, AllocError>
    ensures { IfOk result (λ is. Decides is (IsJustified image sizes.now)) }
{
    match verify(alloc, image, sizes) {
        Ok(_) => Ok(true),
        Err(refused) if refused.code == Refusal::Memory => Err(AllocError),
        Err(_refused) => Ok(false),
    }
}

/// Whether memory was refused to what reads an image.
fn lacks_memory(fault: ImageFault) -> bool
    ensures { result ≡ lacks_memory fault }
{
    match fault {
        ImageFault::Memory => true,
        ImageFault::Magic
        | ImageFault::Version
        | ImageFault::Length
        | ImageFault::Count
        | ImageFault::Budget
        | ImageFault::Loop
        | ImageFault::Insn { .. } => false,
    }
}

/// Whether bytes are an image of a program that is accepted for a node with these maps.
#[tactic(auto, using(crate::proofs::Trying::unread_is))]
fn is_acceptable(alloc: Global, bytes: &[u8], sizes: &MapSizes) -> Result<bool, AllocError>
    ensures { IfOk result (λ is. Decides is (IsAcceptable bytes.now sizes.now)) }
{
    match Image::read(alloc, bytes) {
        Ok(image) => is_accepted(alloc, image, sizes),
        Err(fault) if lacks_memory(fault) => Err(AllocError),
        Err(_fault) => Ok(false),
    }
}

/// Counter maps of these sizes, which a node may have.
fn counter_maps(cells: &[u16]) -> Result<MapSizes, AllocError>
    ensures { IfOk result (λ sizes. sizes ≡ counter_maps cells.now) }
{
    match MapSizes::new(cells) {
        Ok(sizes) => Ok(sizes),
        Err(_) => Err(AllocError),
    }
}

/// The maps on which an image is tried: the first of none, one of 256 cells and eight of 32 for which it is accepted.
/// `None` if it is accepted for none of them.
#[tactic(auto, using(crate::proofs::Trying::first_of_none, crate::proofs::Trying::first_of_one, crate::proofs::Trying::first_of_eight, crate::proofs::Trying::first_of_all))]
fn sizes_for(alloc: Global, image: &[u8]) -> Result<Option<MapSizes>, AllocError>
    ensures { IfOk result (IsTriedOn image.now) }
{
    let none = counter_maps(&[])?;
    if is_acceptable(alloc, image, &none)? {
        return Ok(Some(none));
    }
    let one = counter_maps(&[256])?;
    if is_acceptable(alloc, image, &one)? {
        return Ok(Some(one));
    }
    let eight = counter_maps(&[32; 8])?;
    if is_acceptable(alloc, image, &eight)? {
        return Ok(Some(eight));
    }
    Ok(None)
}

/// Whether the packets of a load of this image are denied after that load. That is so if a program does not let a write
/// of them be done at a fresh node that took the packet lines before. The node has that logical address. The node has
/// no maps, or else one map of 256 cells, or else eight of 32. An image that none of these accepts is not tried.
///
/// # Errors
///
/// An error if memory is refused.
pub fn denies_again(
    alloc: Global,
    address: u8,
    image: &[u8],
    lines: &str,
) -> Result<bool, AllocError>
    ensures { IfOk result (IsDeniedSomewhere address image.now lines.now) }
{
    match sizes_for(alloc, image)? {
        Some(sizes) => is_denied_again(alloc, address, sizes, lines),
        None => Ok(false),
    }
}
