//! The node of a handle, taken out of it for the time of a call.

ghost use Rattle.std.specs.Prelude.{◌≡◌, MatchOption};
ghost use Rattle.std.specs.declared.option.Option.TheVariants.{None, Some};
ghost use Rattle.single_node_c.specs.declared.codes.TheConstants.{NO_NODE, OK};

use crate::codes::{NO_NODE, OK};
use crate::handle::Handle;
use scrub::GuardedNode;
use std::alloc::Global;
use std::mem::replace;

/// The node of a handle, which then holds none.
pub fn take(alloc: Global, handle: &mut Handle) -> Option<Box<GuardedNode>>
    ensures node { MatchOption result (handle.old.kept ≡ None)
        (λ node. handle.old.kept ≡ Some node.value) }
    ensures left { handle.new.kept ≡ None }
{
    replace(handle, Handle::none()).into_box(alloc)
}

/// Gives a handle a node. If it held one before, that one is ended.
pub fn put(alloc: Global, handle: &mut Handle, node: Box<GuardedNode>)
    ensures { handle.new.kept ≡ Some node.value }
{
    let _ended = replace(handle, Handle::of(node)).into_box(alloc);
}

/// Ends a node, and gives back all its memory.
#[unsafe(no_mangle)]
pub extern "C" fn sandbar_close(alloc: Global, handle: &mut Handle) -> u32
    ensures code { MatchOption handle.old.kept (result ≡ NO_NODE) (λ _. result ≡ OK) }
    ensures closed { handle.new.kept ≡ None }
{
    match take(alloc, handle) {
        Some(_ended) => OK,
        None => NO_NODE,
    }
}
