//! Programs that are published without a packet.

ghost use Rattle.std.specs.Prelude.{◌≡◌, IfErr, IfSome, OnOk};
ghost use Rattle.std.specs.declared.option.Option.TheVariants.{None};
ghost use Rattle.single_node_c.specs.Held.{BecomesGuarded};
ghost use Rattle.single_node_c.specs.Publishing.{AnswersPublish, IsImageUnpublished, Publishes, publish_code, publish_why};
ghost use Rattle.single_node_c.specs.declared.codes.TheConstants.{NO_NODE};

use crate::codes::{BAD_SLOT, NO_GENERATION, NO_NODE, OK};
use crate::handle::Handle;
use crate::held::{put, take};
use crate::numbers::Why;
use crate::opening::program_of;
use crate::unfit::{Unfit, no_why};
use node_programs::{LAST_SLOT, PublishFault};
use scrub::GuardedNode;
use std::alloc::Global;

/// Why a program was not published.
#[derive(Clone, Copy, Debug, PartialEq, Eq)]
pub enum Unpublished {
    /// There is no such slot.
    Slot,
    /// The image may not judge on the node's maps, or memory was refused.
    Unfit(Unfit),
    /// No generation is left.
    Full,
}

impl From<PublishFault> for Unpublished {
    ghost use Rattle.single_node_c.specs.Publishing.{publish_fault_of};

    ghost from_gives = { λ fault unpublished. unpublished ≡ publish_fault_of fault };

    fn from(fault: PublishFault) -> Unpublished {
        match fault {
            PublishFault::Memory => Unpublished::Unfit(Unfit::Memory),
            PublishFault::Slot => Unpublished::Slot,
            PublishFault::GenerationsFull => Unpublished::Full,
        }
    }
}

/// Publishes the program of an image for a slot of a node.
fn try_publish(
    alloc: Global,
    guarded: &mut GuardedNode,
    slot: u8,
    image: &[u8],
) -> Result<(), Unpublished>
    ensures published { OnOk result (Publishes slot image.now None guarded.old guarded.new) }
    ensures unpublished { IfErr result (λ fault. IsImageUnpublished slot image.now guarded.old fault) }
    ensures same { IfErr result (λ _. guarded.new ≡ guarded.old) }
{
    if slot > LAST_SLOT {
        return Err(Unpublished::Slot);
    }
    let sizes = guarded.node.sizes();
    let program = match program_of(alloc, image, &sizes) {
        Ok(program) => program,
        Err(unfit) => return Err(Unpublished::Unfit(unfit)),
    };
    guarded.install(slot, program)?;
    Ok(())
}

/// Publishes the program of an image for a slot of a node, and says why not, if it was not published.
fn publish(alloc: Global, guarded: &mut GuardedNode, slot: u8, image: &[u8]) -> Option<Unpublished>
    ensures { Publishes slot image.now result guarded.old guarded.new }
{
    match try_publish(alloc, guarded, slot, image) {
        Ok(()) => None,
        Err(fault) => Some(fault),
    }
}

/// The code of a publish, by why it did nothing, if it did nothing.
fn publish_code(fault: Option<Unpublished>) -> u32
    ensures { result ≡ publish_code fault }
{
    match fault {
        None => OK,
        Some(Unpublished::Slot) => BAD_SLOT,
        Some(Unpublished::Unfit(unfit)) => unfit.code(),
        Some(Unpublished::Full) => NO_GENERATION,
    }
}

/// What the call reports of the image of a publish.
fn publish_why(fault: Option<Unpublished>) -> Why
    ensures { result ≡ publish_why fault }
{
    match fault {
        Some(Unpublished::Unfit(unfit)) => unfit.why(),
        Some(Unpublished::Slot | Unpublished::Full) | None => no_why(),
    }
}

/// Publishes the program of an image for a slot of a node, without a packet. The program has the next generation, and
/// judges there from the next command on. What is kept of the slot for scrubs is then that of the new program.
///
/// The tests are, in this order: the node is open, there is the slot, and the image may judge on the node's maps. At
/// another code than `OK` the node stays as it is. `why` is written at each code except `NO_NODE`.
#[unsafe(no_mangle)]
pub extern "C" fn sandbar_publish(
    alloc: Global,
    handle: &mut Handle,
    slot: u8,
    image: &[u8],
    why: &mut Why,
) -> u32
    ensures closed { handle.old.kept ≡ None
        → (result ≡ NO_NODE) × (handle.new.kept ≡ None) × (why.new ≡ why.old) }
    ensures open { IfSome handle.old.kept (λ _. BecomesGuarded
        (AnswersPublish slot image.now result why.new) handle.old.kept handle.new.kept) }
{
    let Some(mut guarded) = take(alloc, handle) else {
        return NO_NODE;
    };
    let fault = publish(alloc, &mut guarded, slot, image);
    put(alloc, handle, guarded);
    *why = publish_why(fault);
    publish_code(fault)
}
