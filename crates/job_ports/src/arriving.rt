//! The packets that the lines of a text bring to each port of a node.

ghost use Rattle.std.specs.Prelude.{IfErr, IfOk};
ghost use Rattle.job_parts.specs.Stops.{StopsBy};
ghost use Rattle.job_ports.specs.Arrivals.{AreNotTaken, ArriveAll};
ghost use Rattle.spw.specs.Line.{lines_of};

use crate::arrivals::Arrivals;
use job_nodes::feeds::Feeds;
use job_parts::bad_lines::BadLine;
use job_parts::stops::{JobStop, LineStop};
use job_parts::turns::{TakesLines, take_lines};
use std::alloc::Global;
use std::io::{self, Write};

/// Takes each line: what it writes goes to the feed of its port, and the packet that it ends to the others of that
/// port. It prints nothing.
#[derive(Drop)]
pub struct Arriving {
    feeds: Feeds,
    arrivals: Arrivals,
}

impl TakesLines for Arriving {
    ghost use Rattle.job_ports.specs.Arriving.{Arrives, IsLineRefused};

    ghost takes = { Arrives };

    ghost stops = { IsLineRefused };

    fn take<W: Write>(&mut self, alloc: Global, line: &str, _out: &mut W) -> Result<(), LineStop> {
        let Some((port, packet)) = self.feeds.take_line(alloc, line)? else {
            return Ok(());
        };
        if !self.arrivals.has_room(port) {
            return Err(LineStop::from(BadLine::NoRoom));
        }
        self.arrivals.add(port, packet)?;
        Ok(())
    }
}

/// The packets of each port of a node with this many ports, in the order of their lines. It reads all lines. A line
/// feed ends a line, and the last line may lack it. Lines may write packets in pieces. Bytes that a port holds after
/// the last line are no packet.
///
/// # Errors
///
/// The fault of the first line that has one, with the number of the line. On one line the faults are found in this
/// order: those of [`Feeds::take_line`], and `NoRoom` if it ends a packet of a port to which 1,023 came before.
/// `NoMemory` if memory was refused for a packet that was read.
pub fn read_lines<'a>(alloc: Global, text: &str, ports: u8) -> Result<Arrivals, JobStop<'a>>
    ensures arrive { IfOk result (ArriveAll (lines_of text.now) ports) }
    ensures refused { IfErr result (StopsBy (AreNotTaken (lines_of text.now) ports)) }
{
    let feeds = Feeds::new(alloc, ports)?;
    let arrivals = Arrivals::new(alloc, ports)?;
    let mut arriving = Arriving { feeds, arrivals };
    take_lines(alloc, &mut arriving, text, &mut io::sink())?;
    Ok(arriving.arrivals)
}
