//! A reader of frames.

ghost use Rattle.std.specs.Prelude.{◌≡◌, ◌≢◌, ◌<◌, ◌≤◌, [], length, min, take, IfErr, IfOk, OnErr, OnOk};
ghost use Rattle.frames.specs.Streams.{reading_after, received_in, keep_all, onto};
ghost use Rattle.frames.specs.Runs.{EndsPacket, EndsUnpacked, IsRun, in_run};
ghost use Rattle.frames.specs.Reading.{after_end, received_of, first_reading, in_head, is_between};

use crate::flags::Flag;
use crate::heads::{HEAD_LENGTH, take_head};
use crate::received::Received;
use arrayvec::ArrayVec;
use spw::{Feed, without_path};
use std::alloc::{AllocError, Global};
use std::marker::Model;

/// Reads frames from bytes as they come, and gives the packets that they carry. It holds the head of a frame, and at
/// most 4,200 bytes of a packet, however many a frame says that it has.
#[derive(Drop)]
pub struct FrameReader {
    head: ArrayVec<u8, HEAD_LENGTH>,
    flag: Flag,
    left: u128,
    held: Feed,
}

impl Model for FrameReader {
    ghost use Rattle.std.specs.Prelude.{◌<◌, length};
    ghost use Rattle.frames.specs.Reading.{Reading};
    ghost use Rattle.frames.specs.declared.heads.TheConstants.{HEAD_LENGTH};

    ghost Value = { Reading };

    ghost view = { λ r. record { head = r.head.items; flag = r.flag; left = r.left; held = r.held } };

    ghost invariant = { λ r. length r.head.items < HEAD_LENGTH };
}

/// Puts bytes of a packet after what is held of it. Path address bytes before the packet begins are dropped, and so is
/// what would be past [`MAX_PACKET`](spw::MAX_PACKET) bytes.
#[tactic(auto, using(crate::proofs::Streaming::kept_first, crate::proofs::Streaming::kept_from))]
fn keep_run(held: &mut Feed, bytes: &[u8])
    ensures { held.new ≡ keep_all held.old bytes.now }
{
    if held.is_empty() {
        held.fill(without_path(bytes));
    } else {
        held.fill(bytes);
    }
}

impl FrameReader {
    /// A reader that has read nothing.
    ///
    /// # Errors
    ///
    /// `AllocError` if memory was refused.
    pub fn new(alloc: Global) -> Result<FrameReader, AllocError>
        ensures { IfOk result (λ r. r ≡ first_reading) }
    {
        Ok(FrameReader {
            head: ArrayVec::new(),
            flag: Flag::Part,
            left: 0,
            held: Feed::new(alloc)?,
        })
    }

    /// Whether the last frame has ended, and no byte of another came.
    pub fn is_between(&self) -> bool
        ensures { result ≡ is_between self.now }
    {
        self.left == 0 && self.head.is_empty()
    }

    /// Takes a byte of a head.
    fn take_head(&mut self, byte: u8)
        requires { self.old.left ≡ 0 }
        ensures { self.new ≡ in_head self.old byte }
    {
        take_head(&mut self.head, &mut self.flag, &mut self.left, byte);
    }

    /// Takes bytes of a body, as many as are left of it, or are there, and gives how many.
    fn take_body(&mut self, bytes: &[u8]) -> usize
        requires left { self.old.left ≢ 0 }
        requires some { bytes.now ≢ [] }
        ensures count { result ≡ min self.old.left (length bytes.now) }
        ensures run { self.new ≡ in_run self.old (take result bytes.now) }
    {
        let count = match usize::try_from(self.left) {
            Ok(left) => left.min(bytes.len()),
            Err(_) => bytes.len(),
        };
        self.left -= count as u128;
        if self.flag.is_cargo() {
            keep_run(&mut self.held, &bytes[..count]);
        }
        count
    }

    /// Takes bytes up to the end of a head or of a body, and gives how many.
    fn take_next(&mut self, bytes: &[u8]) -> usize
        requires { bytes.now ≢ [] }
        ensures count { 0 < result }
        ensures few { result ≤ length bytes.now }
        ensures run { IsRun self.old (take result bytes.now) self.new }
    {
        if self.left == 0 {
            self.take_head(bytes[0]);
            1
        } else {
            self.take_body(bytes)
        }
    }

    /// Ends a frame, and gives what it brings. After a packet nothing is held. If memory is refused, nothing changes.
    fn end(&mut self) -> Result<Received, AllocError>
        ensures ok { IfOk result (λ received. received ≡ received_of self.old.flag self.old.held) }
        ensures following { OnOk result (self.new ≡ after_end self.old) }
        ensures kept { OnErr result (self.new ≡ self.old) }
        ensures packet { OnErr result (EndsPacket self.old.flag) }
    {
        match self.flag {
            Flag::Last(end) => Ok(Received::Whole(self.held.close(end)?)),
            Flag::Part => Ok(Received::Piece),
            Flag::SendTime | Flag::GotTime => Ok(Received::Time),
            Flag::Other(code) => Ok(Received::Other(code)),
        }
    }

    /// Takes bytes up to one that ends a frame, or some of them if none does. It gives how many, and what came with the
    /// last, or `None` if that ends no frame. It takes at least one. The condition is that there is one.
    ///
    /// # Errors
    ///
    /// `AllocError` if memory was refused for a packet that ends. Its bytes are then still held.
    pub fn take(&mut self, bytes: &[u8]) -> Result<(usize, Option<Received>), AllocError>
        requires { bytes.now ≢ [] }
        ensures some { IfOk result (λ r. 0 < r.0) }
        ensures few { IfOk result (λ r. r.0 ≤ length bytes.now) }
        ensures received { IfOk result (λ r. received_in self.old (take r.0 bytes.now) ≡ onto r.1 []) }
        ensures read { IfOk result (λ r. self.new ≡ reading_after self.old (take r.0 bytes.now)) }
        ensures cut { IfErr result (λ _. EndsUnpacked self.old bytes.now self.new) }
    {
        let count = self.take_next(bytes);
        if !self.is_between() {
            return Ok((count, None));
        }
        let received = self.end()?;
        Ok((count, Some(received)))
    }
}
