//! A link that is held to its end.

ghost use Rattle.std.specs.Prelude.{◌≡◌, ◌≢◌, ◌≤◌, ◌<◌, [], IfErr, IfOk, OnErr, OnOk, length, take};
ghost use Rattle.frames.specs.Streams.{reading_after, received_in};
ghost use Rattle.linking.specs.Linking.{AnswersAll, AnswersFrame, Exchanges, IsCutOff, IsMoved, IsWholeLink, StopsAt, StopsExchange, StopsIn, StopsNext};

use crate::link::{CannotTransfer, Link, LinkEnd, Target};
use frames::{FrameReader, Received, frames_are_read};

/// How many bytes the link is asked for at a time. Any number above 0 gives the same answers.
const CHUNK: usize = 8192;

/// Sends what is due, if anything is.
fn send_pending<L: Link>(bytes: &[u8], link: &mut L) -> Result<(), CannotTransfer>
    ensures ok { OnOk result (IsMoved L.sent bytes.now link.old link.new) }
    ensures err { OnErr result (L.unsent link.old bytes.now link.new) }
{
    if bytes.is_empty() {
        return Ok(());
    }
    link.send(bytes)
}

/// Reports the text that is due, if any is.
fn report_due<L: Link>(text: &[u8], link: &mut L) -> Result<(), CannotTransfer>
    ensures ok { OnOk result (IsMoved L.reported text.now link.old link.new) }
    ensures err { OnErr result (L.unreported link.old text.now link.new) }
{
    if text.is_empty() {
        return Ok(());
    }
    link.report(text)
}

/// Serves what came with a frame, sends the reply that is due, and then reports the text.
fn answer<N: Target, L: Link>(
    received: Received,
    target: &mut N,
    link: &mut L,
) -> Result<(), LinkEnd>
    ensures ok { OnOk result (AnswersFrame N.served L.sent L.reported received
        target.old target.new link.old link.new) }
    ensures err { IfErr result (λ why. StopsAt N.served N.unserved L.sent L.reported L.unsent L.unreported
        why received target.old target.new link.old link.new) }
{
    let Ok(due) = target.serve(received) else {
        return Err(LinkEnd::NoMemory);
    };
    if send_pending(due.reply.as_slice(), link).is_err() {
        return Err(LinkEnd::Unsent);
    }
    if report_due(due.text.as_slice(), link).is_err() {
        return Err(LinkEnd::Unreported);
    }
    Ok(())
}

/// Takes bytes up to the end of a frame, or some of them, answers what came with them, and gives how many it took.
fn answer_next<N: Target, L: Link>(
    bytes: &[u8],
    reader: &mut FrameReader,
    target: &mut N,
    link: &mut L,
) -> Result<usize, LinkEnd>
    requires { bytes.now ≢ [] }
    ensures some { IfOk result (λ count. 0 < count) }
    ensures few { IfOk result (λ count. count ≤ length bytes.now) }
    ensures read { IfOk result (λ count. reader.new ≡ reading_after reader.old (take count bytes.now)) }
    ensures answered { IfOk result (λ count. AnswersAll N.served L.sent L.reported
        (received_in reader.old (take count bytes.now)) target.old target.new link.old link.new) }
    ensures err { IfErr result (λ why.
        StopsNext N.served N.unserved L.sent L.reported L.unsent L.unreported
        why bytes.now reader.old reader.new target.old target.new link.old link.new) }
{
    match reader.take(bytes) {
        Ok((count, None)) => Ok(count),
        Ok((count, Some(received))) => {
            answer(received, target, link)?;
            Ok(count)
        }
        Err(_) => Err(LinkEnd::NoMemory),
    }
}

/// Takes some bytes in turn, and answers what came with each before it takes the next.
fn answer_bytes<N: Target, L: Link>(
    bytes: &[u8],
    reader: &mut FrameReader,
    target: &mut N,
    link: &mut L,
) -> Result<(), LinkEnd>
    ensures read { OnOk result (reader.new ≡ reading_after reader.old bytes.now) }
    ensures answered { OnOk result (AnswersAll N.served L.sent L.reported (received_in reader.old bytes.now)
        target.old target.new link.old link.new) }
    ensures err { IfErr result (λ why. StopsIn N.served N.unserved L.sent L.reported L.unsent L.unreported
        why bytes.now reader.old reader.new target.old target.new link.old link.new) }
{
    frames_are_read();
    let mut rest = bytes;
    while !rest.is_empty() {
        let count = answer_next(rest, reader, target, link)?;
        rest = &rest[count..];
    }
    Ok(())
}

/// Takes the bytes that come next, and answers what came with them: whether any came.
fn exchange<N: Target, L: Link>(
    room: &mut [u8],
    reader: &mut FrameReader,
    target: &mut N,
    link: &mut L,
) -> Result<bool, LinkEnd>
    ensures ok { IfOk result (λ more. Exchanges N.served L.received L.sent L.reported more
        reader.old reader.new target.old target.new link.old link.new) }
    ensures err { IfErr result (λ why. StopsExchange N.served N.unserved L.received L.sent L.reported
        L.unread L.unsent L.unreported why
        reader.old reader.new target.old target.new link.old link.new) }
{
    let Ok(count) = link.receive(room) else {
        return Err(LinkEnd::Unread);
    };
    if count == 0 {
        return Ok(false);
    }
    answer_bytes(&room[..count], reader, target, link)?;
    Ok(true)
}

/// Holds a link to its end. For the bytes that came it sends and reports what is due, packet for packet, before it asks
/// for others.
///
/// # Errors
///
/// Why the link was cut off: the bytes cannot be read, or something due cannot be sent or reported, or memory was
/// refused.
pub fn hold<N: Target, L: Link>(
    reader: &mut FrameReader,
    target: &mut N,
    link: &mut L,
) -> Result<(), LinkEnd>
    ensures ok { OnOk result (IsWholeLink N.served L.received L.sent L.reported
        reader.old reader.new target.old target.new link.old link.new) }
    ensures err { IfErr result (λ why. IsCutOff N.served N.unserved L.received L.sent L.reported
        L.unread L.unsent L.unreported why
        reader.old reader.new target.old target.new link.old link.new) }
{
    let mut room = [0; CHUNK];
    for _count in 0..u64::MAX {
        if !exchange(&mut room, reader, target, link)? {
            return Ok(());
        }
    }
    Ok(())
}
