//! Why a job stops.

ghost use Rattle.std.specs.Prelude.{◌≡◌, MatchResult};
ghost use Rattle.job_parts.specs.Stops.{fault_at, halt_at};
ghost use Rattle.job_parts.specs.declared.faults.Fault.TheVariants.{NoMemory};
ghost use Rattle.job_parts.specs.declared.stops.JobStop.TheVariants.{Ended, Unwritten};
ghost use Rattle.job_parts.specs.declared.stops.LineEnd.TheVariants.{Bad, NoMemory as OutOfMemory};
ghost use Rattle.job_parts.specs.declared.stops.LineStop.TheVariants.{Ended as EndedAt, Unwritten as UnwrittenAt};

use crate::bad_lines::BadLine;
use crate::faults::Fault;
use std::alloc::AllocError;
use std::io;

/// The writer failed: nothing more is written.
#[derive(Clone, Copy, Debug, PartialEq, Eq)]
pub struct WriteFault;

impl From<io::Error> for WriteFault {
    fn from(_refused: io::Error) -> Self {
        WriteFault
    }
}

/// Why a job stops before its end.
#[derive(Debug, Drop)]
pub enum JobStop<'a> {
    /// A fault, which is still to be printed.
    Ended(Fault<'a>),
    /// The writer failed.
    Unwritten(WriteFault),
}

impl<'a> JobStop<'a> {
    /// The fault that is still to be printed.
    ///
    /// # Errors
    ///
    /// `WriteFault` if the writer failed.
    pub fn fault(self) -> Result<Fault<'a>, WriteFault>
        ensures { MatchResult result
            (λ fault. self.entry ≡ Ended fault)
            (λ refused. self.entry ≡ Unwritten refused) }
    {
        match self {
            JobStop::Ended(fault) => Ok(fault),
            JobStop::Unwritten(refused) => Err(refused),
        }
    }
}

impl<'a> From<Fault<'a>> for JobStop<'a> {
    ghost from_gives = { λ fault stop. stop ≡ Ended fault };

    fn from(fault: Fault<'a>) -> Self {
        JobStop::Ended(fault)
    }
}

impl From<AllocError> for JobStop<'_> {
    ghost from_gives = { λ _ stop. stop ≡ Ended NoMemory };

    fn from(_refused: AllocError) -> Self {
        JobStop::Ended(Fault::NoMemory)
    }
}

impl From<io::Error> for JobStop<'_> {
    ghost from_gives = { λ _ stop. stop ≡ Unwritten (record {}) };

    fn from(_refused: io::Error) -> Self {
        JobStop::Unwritten(WriteFault)
    }
}

/// What ends a job at one of its lines.
#[derive(Clone, Copy, Debug, PartialEq, Eq)]
pub enum LineEnd {
    /// This is wrong with the line.
    Bad(BadLine),
    /// Memory was refused to what comes of the line.
    NoMemory,
}

impl LineEnd {
    /// The fault that ends the job, if the line is the one of that number, from 1.
    pub fn at<'a>(self, number: usize) -> Fault<'a>
        ensures { result ≡ fault_at number self }
    {
        match self {
            LineEnd::Bad(fault) => Fault::BadLine { number, fault },
            LineEnd::NoMemory => Fault::NoMemory,
        }
    }
}

/// Why a job stops at one of its lines.
#[derive(Clone, Copy, Debug, PartialEq, Eq)]
pub enum LineStop {
    /// What ends it, which is still to be printed.
    Ended(LineEnd),
    /// The writer failed.
    Unwritten(WriteFault),
}

impl LineStop {
    /// Why the job stops, if the line is the one of that number, from 1.
    pub fn at<'a>(self, number: usize) -> JobStop<'a>
        ensures { result ≡ halt_at number self }
    {
        match self {
            LineStop::Ended(end) => JobStop::Ended(end.at(number)),
            LineStop::Unwritten(fault) => JobStop::Unwritten(fault),
        }
    }
}

impl From<LineEnd> for LineStop {
    ghost from_gives = { λ end stop. stop ≡ EndedAt end };

    fn from(end: LineEnd) -> Self {
        LineStop::Ended(end)
    }
}

impl From<BadLine> for LineStop {
    ghost from_gives = { λ fault stop. stop ≡ EndedAt (Bad fault) };

    fn from(fault: BadLine) -> Self {
        LineStop::Ended(LineEnd::Bad(fault))
    }
}

impl From<AllocError> for LineStop {
    ghost from_gives = { λ _ stop. stop ≡ EndedAt OutOfMemory };

    fn from(_refused: AllocError) -> Self {
        LineStop::Ended(LineEnd::NoMemory)
    }
}

impl From<io::Error> for LineStop {
    ghost from_gives = { λ _ stop. stop ≡ UnwrittenAt (record {}) };

    fn from(_refused: io::Error) -> Self {
        LineStop::Unwritten(WriteFault)
    }
}
