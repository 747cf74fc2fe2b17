//! Laws of histories.

ghost use Rattle.std.specs.Prelude.{◌≡◌};
ghost use mathlib.Core.List.{IsPrefix};

use crate::publisher::Publisher;
use crate::reader::Reader;
use annals::Family;
use std::sync::Wait;

/// What a reader knows is a beginning of what was published.
pub fn readers_know_a_beginning<J: Family, R: Wait + Drop>(
    reader: &Reader<J>,
    publisher: &mut Publisher<J, R>,
)
    ensures begins { IsPrefix reader.now.programs publisher.old }
    ensures same { publisher.new ≡ publisher.old }
{
    publisher.begins_with(reader.front());
}
