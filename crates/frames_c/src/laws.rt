//! What a stream is taken as, and which changes of memory are seen.

ghost use Rattle.frames_c.specs.Whole.{ChangesAreSeen};
ghost use Rattle.frames_c.specs.Taking.{FramesAreTaken};

use sums::one_word_is_seen;

/// A law and no work: frames that are taken one after the other are those of the whole stream.
pub fn frames_are_taken()
    ensures { FramesAreTaken }
{}

/// A law and no work: a reader is whole after each call. It is not if one word of it is another, or its count of bytes
/// is.
pub fn changes_are_seen()
    ensures { ChangesAreSeen }
{
    one_word_is_seen();
}
