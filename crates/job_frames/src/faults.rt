//! What is reported of a frame.

ghost use Rattle.std.specs.Prelude.{OnOk};
ghost use Rattle.job_frames.specs.Reported.{frame_fault_line};
ghost use Rattle.job_parts.specs.Printed.{Prints};

use frames::FrameFault;
use std::io::{self, Write};

/// Prints what is wrong with the frame of that number: `frame K fault C`.
///
/// # Errors
///
/// The error of `out`, if it does not take all of the text.
pub fn print_fault<W: Write>(out: &mut W, frame: u64, fault: FrameFault) -> io::Result<()>
    ensures { OnOk result (Prints W.contents out.old out.new (frame_fault_line frame fault)) }
{
    let code = fault.code();
    writeln!(out, "frame {frame} fault {code}")
}
