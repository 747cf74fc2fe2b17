//! Lines that are taken in turn.

ghost use Rattle.std.specs.Prelude.{ℕ, List, IfErr, OnOk};
ghost use Rattle.spw.specs.Line.{lines_of};
ghost use Rattle.job_parts.specs.Stops.{StopsBy, StopsLineBy};
ghost use Rattle.job_parts.specs.Turns.{AreTaken, SeesPrinted, SeesEnd, StopsLinesAt, StopsInLines};

use crate::stops::{JobStop, LineStop};
use spw::lines_of;
use std::alloc::Global;
use std::io::Write;

/// What takes lines, one after the other, and prints what comes of each.
pub trait TakesLines {
    /// What a line does, between two states, and what was printed before and after it.
    ghost takes: { List ℕ → SeesPrinted Self };

    /// What ends the job at a line, between two states, and what was printed before and after.
    ghost stops: { List ℕ → SeesEnd Self };

    /// Takes a line, and prints what comes of it.
    fn take<W: Write>(&mut self, alloc: Global, line: &str, out: &mut W) -> Result<(), LineStop>
        ensures taken { OnOk result (takes line.now self.old self.new
            (W.contents out.old) (W.contents out.new)) }
        ensures stops { IfErr result (StopsLineBy (stops line.now self.old self.new
            (W.contents out.old) (W.contents out.new))) };
}

/// Takes the line of that number, from 1.
fn take_line<'a, T: TakesLines, W: Write>(
    alloc: Global,
    taker: &mut T,
    line: &str,
    number: usize,
    out: &mut W,
) -> Result<(), JobStop<'a>>
    ensures taken { OnOk result (T.takes line.now taker.old taker.new
        (W.contents out.old) (W.contents out.new)) }
    ensures stops { IfErr result (StopsBy (StopsLinesAt T.stops line.now number taker.old taker.new
        (W.contents out.old) (W.contents out.new))) }
{
    match taker.take(alloc, line, out) {
        Ok(()) => Ok(()),
        Err(halt) => Err(halt.at(number)),
    }
}

/// Takes each line of a text in turn.
///
/// # Errors
///
/// Why the job stops at a line, with the number of the line. No line after it is taken.
pub fn take_lines<'a, T: TakesLines, W: Write>(
    alloc: Global,
    taker: &mut T,
    text: &str,
    out: &mut W,
) -> Result<(), JobStop<'a>>
    ensures taken { OnOk result (AreTaken T.takes (lines_of text.now) taker.old taker.new
        (W.contents out.old) (W.contents out.new)) }
    ensures stops { IfErr result (StopsBy (StopsInLines T.takes T.stops (lines_of text.now)
        taker.old taker.new (W.contents out.old) (W.contents out.new))) }
{
    let mut number: usize = 0;
    for line in lines_of(text) {
        number += 1;
        take_line(alloc, taker, line, number, out)?;
    }
    Ok(())
}
