//! The reader of a handle, taken out of it for the time of a call.

ghost use Rattle.std.specs.Prelude.{◌≡◌, MatchOption};
ghost use Rattle.std.specs.declared.option.Option.TheVariants.{None, Some};

use crate::checked::CheckedFrames;
use crate::handle::FramesHandle;
use std::alloc::Global;
use std::mem::replace;

/// The reader of a handle, which then holds none.
pub fn take_out(alloc: Global, handle: &mut FramesHandle) -> Option<Box<CheckedFrames>>
    ensures frames { MatchOption result (handle.old.kept ≡ None)
        (λ frames. handle.old.kept ≡ Some frames.value) }
    ensures left { handle.new.kept ≡ None }
{
    replace(handle, FramesHandle::none()).into_box(alloc)
}

/// Gives a handle a reader. If it held one before, that one is ended.
pub fn put_in(alloc: Global, handle: &mut FramesHandle, frames: Box<CheckedFrames>)
    ensures { handle.new.kept ≡ Some frames.value }
{
    let _ended = replace(handle, FramesHandle::of(frames)).into_box(alloc);
}
