//! A boxed reader as C holds it.

ghost use Rattle.std.specs.Prelude.{◌≡◌, MatchOption, Option};
ghost use Rattle.std.specs.declared.option.Option.TheVariants.{None, Some};
ghost use Rattle.frames_c.specs.Whole.{CheckedReading};

use crate::checked::CheckedFrames;
use loose::Loose;
use std::alloc::Global;
use std::marker::Model;
use std::ptr::null_mut;

/// What `live` holds if there is a reader.
const LIVE: u32 = 0x3AA;

/// What C holds of a reader. It is all zeros if there is none.
///
/// It is not `Drop`: one that is forgotten does not compile.
#[repr(C)]
pub struct FramesHandle {
    inside: *mut u8,
    live: u32,
    pub ghost kept: { Option CheckedReading },
}

impl Model for FramesHandle {
    ghost use Rattle.loose.specs.Held.{held_handle};
    ghost use Rattle.frames_c.specs.Held.{reader_mark};
    ghost use Rattle.frames_c.specs.contracts.checked.CheckedFrames.{the_row};

    ghost also_owns = { λ h. held_handle reader_mark the_row h.inside h.live h.kept };
}

impl FramesHandle {
    /// No reader.
    pub fn none() -> FramesHandle
        ensures { result.kept ≡ None }
    {
        FramesHandle {
            inside: null_mut(),
            live: 0,
        }
    }

    /// The handle of a block.
    fn of_loose(loose: Loose<CheckedFrames, Global>) -> FramesHandle
        ensures { result.kept ≡ Some loose.value }
    {
        let Loose { at, alloc: _ } = loose;
        FramesHandle {
            inside: at as *mut u8,
            live: LIVE,
        }
    }

    /// The block of a handle, if it holds one.
    fn into_loose(self, alloc: Global) -> Option<Loose<CheckedFrames, Global>>
        ensures { MatchOption result (self.kept ≡ None) (λ loose. self.kept ≡ Some loose.value) }
    {
        let FramesHandle { inside, live } = self;
        if live == LIVE {
            Some(Loose {
                at: inside as *mut CheckedFrames,
                alloc,
            })
        } else {
            None
        }
    }

    /// The handle of a reader.
    pub fn of(frames: Box<CheckedFrames>) -> FramesHandle
        ensures { result.kept ≡ Some frames.value }
    {
        FramesHandle::of_loose(Loose::of(frames))
    }

    /// The reader again, if there is one.
    pub fn into_box(self, alloc: Global) -> Option<Box<CheckedFrames>>
        ensures { MatchOption result (self.kept ≡ None) (λ frames. self.kept ≡ Some frames.value) }
    {
        match self.into_loose(alloc) {
            Some(loose) => Some(loose.into_box()),
            None => None,
        }
    }
}
