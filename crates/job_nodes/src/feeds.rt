//! The packets that have not ended, one for each port of a node.

ghost use Rattle.std.specs.Prelude.{◌≡◌, ◌<◌, ◌≤◌, ◌+◌, [], ◌++◌, length, replicate, IfOk, IfErr, IfSome, OnOk};
ghost use Rattle.job_nodes.specs.Feeds.{IsFed, IsNotFed, IsUnended};
ghost use Rattle.spw.specs.declared.packets.TheConstants.{MAX_PACKET};

use job_parts::bad_lines::BadLine;
use spw::{End, Feed, LineFault, Packet, read_part};
use std::alloc::{AllocError, Global};
use std::marker::Model;

/// What the ports of a node hold of packets that have not ended, by the number of the port. Contracts see the
/// bytes that each holds.
#[derive(Drop)]
pub struct Feeds {
    feeds: Vec<Feed>,
}

impl Model for Feeds {
    ghost use Rattle.std.specs.Prelude.{ℕ, List};

    ghost Value = { List (List ℕ) };

    ghost view = { λ f. f.feeds.items };
}

impl Feeds {
    /// This many ports that hold nothing.
    ///
    /// # Errors
    ///
    /// An error if memory is refused.
    pub fn new(alloc: Global, ports: u8) -> Result<Feeds, AllocError>
        ensures { IfOk result (λ feeds. feeds ≡ replicate ports []) }
    {
        let mut feeds = Vec::with_capacity(alloc, usize::from(ports))?;
        for _port in 0..ports {
            let feed = Feed::new(alloc)?;
            feeds.push(feed)?;
        }
        Ok(Feeds { feeds })
    }

    /// Gives the piece that a line writes to its port. Returns the port and the packet that ends with the piece, or
    /// `None` if the packet goes on. [`read_part`] reads the line.
    ///
    /// # Errors
    ///
    /// The first of these, in this order: the faults of the line, and `NoPort` for a port that does not exist. Then
    /// `TooLong` if the piece and what its port holds are over [`MAX_PACKET`](spw::MAX_PACKET) bytes. `Memory` if
    /// memory was refused. If it was refused to a packet that ends, the port still holds its bytes.
    pub fn take_line(&mut self, alloc: Global, line: &str) -> Result<Option<(u8, Packet)>, BadLine>
        ensures fed { IfOk result (IsFed line.now self.old self.new) }
        ensures own_port { IfOk result (λ received. IfSome received (λ own. own.0 < length self.old)) }
        ensures refused { IfErr result (IsNotFed line.now self.old self.new) }
        ensures ports { length self.new ≡ length self.old }
    {
        let (port, piece, mark) = read_part(alloc, line)?;
        let place = usize::from(port);
        if place >= self.feeds.len() {
            return Err(BadLine::NoPort);
        }
        let feed = &mut self.feeds[place];
        let Some(end) = mark else {
            feed.piece(&piece)?;
            return Ok(None);
        };
        let packet = ended(feed, piece, end)?;
        Ok(Some((port, packet)))
    }
}

/// The packet that ends with a piece: what its port holds, and the piece. The port then holds nothing. If it held
/// nothing before, the piece is the packet as it is, and needs no memory. The faults are those of [`Feed::piece`] and
/// [`Feed::close`], which also say what is held then.
fn ended(feed: &mut Feed, piece: Vec<u8>, end: End) -> Result<Packet, LineFault>
    ensures ok { IfOk result (λ p. p ≡ record { bytes = feed.old ++ piece.items; end = end }) }
    ensures short { OnOk result (length feed.old + length piece.items ≤ MAX_PACKET) }
    ensures empty { OnOk result (feed.new ≡ []) }
    ensures err { IfErr result (IsUnended feed.old piece.items feed.new) }
{
    if feed.is_empty() {
        return Packet::new(piece, end);
    }
    feed.piece(&piece)?;
    Ok(feed.close(end)?)
}
