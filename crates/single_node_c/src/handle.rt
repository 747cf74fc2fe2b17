//! A boxed node as C holds it.

ghost use Rattle.std.specs.Prelude.{◌≡◌, MatchOption, Option};
ghost use Rattle.std.specs.declared.option.Option.TheVariants.{None, Some};
ghost use Rattle.scrub.specs.Guarded.{GuardedValue};

use loose::Loose;
use scrub::GuardedNode;
use std::alloc::Global;
use std::marker::Model;
use std::ptr::null_mut;

/// What `live` holds if there is a node.
const LIVE: u32 = 0x3A9;

/// What C holds of a node. It is all zeros if there is none.
///
/// It is not `Drop`: one that is forgotten does not compile.
#[repr(C)]
pub struct Handle {
    inside: *mut u8,
    live: u32,
    pub ghost kept: { Option GuardedValue },
}

impl Model for Handle {
    ghost use Rattle.loose.specs.Held.{held_handle};
    ghost use Rattle.single_node_c.specs.Held.{mark};
    ghost use Rattle.scrub.specs.contracts.guarded.GuardedNode.{the_row};

    ghost also_owns = { λ h. held_handle mark the_row h.inside h.live h.kept };
}

impl Handle {
    /// No node.
    pub fn none() -> Handle
        ensures { result.kept ≡ None }
    {
        Handle {
            inside: null_mut(),
            live: 0,
        }
    }

    /// The handle of a block.
    fn of_loose(loose: Loose<GuardedNode, Global>) -> Handle
        ensures { result.kept ≡ Some loose.value }
    {
        let Loose { at, alloc: _ } = loose;
        Handle {
            inside: at as *mut u8,
            live: LIVE,
        }
    }

    /// The block of a handle, if it holds one.
    fn into_loose(self, alloc: Global) -> Option<Loose<GuardedNode, Global>>
        ensures { MatchOption result (self.kept ≡ None) (λ loose. self.kept ≡ Some loose.value) }
    {
        let Handle { inside, live } = self;
        if live == LIVE {
            Some(Loose {
                at: inside as *mut GuardedNode,
                alloc,
            })
        } else {
            None
        }
    }

    /// The handle of a node.
    pub fn of(node: Box<GuardedNode>) -> Handle
        ensures { result.kept ≡ Some node.value }
    {
        Handle::of_loose(Loose::of(node))
    }

    /// The node again, if there is one.
    pub fn into_box(self, alloc: Global) -> Option<Box<GuardedNode>>
        ensures { MatchOption result (self.kept ≡ None) (λ node. self.kept ≡ Some node.value) }
    {
        match self.into_loose(alloc) {
            Some(loose) => Some(loose.into_box()),
            None => None,
        }
    }
}
