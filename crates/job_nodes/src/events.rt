//! Event lines: text that writes one step of one port.

ghost use Rattle.std.specs.Prelude.{MatchResult};
ghost use Rattle.job_nodes.specs.EventLines.{IsEventLine, IsNoEvent, IsNoLonePort, IsNoTake, IsTakeLine, WritesLonePort};

use job_parts::bad_lines::BadLine;
use sched::Event;
use spw::{LineFault, first_word, read_line, read_port, words_of};
use std::alloc::Global;

/// The packet that is taken, by the text after the word `take`.
pub(crate) fn taken(alloc: Global, text: &str) -> Result<Event, BadLine>
    ensures { MatchResult result (IsTakeLine text.now) (IsNoTake text.now) }
{
    let (port, packet) = read_line(alloc, text)?;
    Ok(Event::Take(port, packet))
}

/// The port that the one word of a text writes.
fn lone_port(alloc: Global, text: &str) -> Result<u8, BadLine>
    ensures { MatchResult result (WritesLonePort text.now) (IsNoLonePort text.now) }
{
    let words = words_of(alloc, text)?;
    let [port, more @ ..] = words.as_slice() else {
        return Err(BadLine::Line(LineFault::NoPort));
    };
    let port = read_port(port)?;
    if more.is_empty() {
        Ok(port)
    } else {
        Err(BadLine::NoEvent)
    }
}

/// The event that a line writes: `take` and a packet line after it, or `count`, `ticket`, `peak`, `effect` or `publish`
/// and a port after it. Words are what spaces separate, as in packet lines.
///
/// # Errors
///
/// The first of these, in this order. `NoEvent` if the first word is that of no event, or there is none. The fault of
/// the port. After `take` those of the rest of the packet line, as [`read_line`] has them. `NoEvent` if there are too
/// many words. `Memory` of a line if memory was refused.
pub fn read_event(alloc: Global, line: &str) -> Result<Event, BadLine>
    ensures { MatchResult result (IsEventLine line.now) (IsNoEvent line.now) }
{
    let Some((word, text)) = first_word(line) else {
        return Err(BadLine::NoEvent);
    };
    match word {
        "take" => taken(alloc, text),
        "count" => Ok(Event::Count(lone_port(alloc, text)?)),
        "ticket" => Ok(Event::Ticket(lone_port(alloc, text)?)),
        "peak" => Ok(Event::Peak(lone_port(alloc, text)?)),
        "effect" => Ok(Event::Effect(lone_port(alloc, text)?)),
        "publish" => Ok(Event::Publish(lone_port(alloc, text)?)),
        _ => Err(BadLine::NoEvent),
    }
}
