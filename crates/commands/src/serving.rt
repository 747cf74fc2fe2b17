//! Who serves all ports at once.

ghost use Rattle.std.specs.Prelude.{◌≡◌, Bool, IfErr, IfOk, true};
ghost use Rattle.job_parts.specs.Statuses.{IsDoneWith};
ghost use Rattle.job_parts.specs.Stops.{StopsBy};
ghost use Rattle.job_ports.specs.ServedFile.{IsNotServed, ServesFile};

use job_config::node_lines::NodeLines;
use job_parts::faults::Fault;
use job_parts::status::ExitStatus;
use job_parts::stops::JobStop;
use job_parts::storage::Files;
use job_ports::serve::serve_file;
use std::alloc::Global;
use std::io::Write;
use std::marker::Brand;
use std::sync::Wait;
use std::thread::Threads;
use target::NodeHistory;

/// Who serves all ports at once, if anybody does: that takes threads.
pub trait Serves {
    /// Whether it serves.
    ghost serves: { Bool };

    /// What its threads ask of what they share.
    ghost shares: { Type 0 };

    /// Whether it serves.
    fn serves(&self) -> bool
        ensures { result ≡ serves };

    /// Does the job `serve`, if it serves. `lost` is then how many replies were lost.
    fn serve<'a, F: Files, W: Write>(
        &self,
        alloc: Global,
        args: &'a NodeLines,
        files: &mut F,
        out: &mut W,
        lost: &mut u64,
    ) -> Result<ExitStatus, JobStop<'a>>
        requires { shares }
        ensures done { serves ≡ true → IfOk result (IsDoneWith (ServesFile F.reads args.now
            files.old files.new (W.contents out.old) (W.contents out.new))) }
        ensures stops { serves ≡ true → IfErr result (StopsBy (λ fault.
            IsNotServed F.reads args.now files.old files.new fault
            × (W.contents out.new ≡ W.contents out.old))) };
}

/// Who serves in threads.
#[derive(Drop)]
pub struct Threaded<'a, R> {
    rt: &'a R,
}

impl<'a, R> Threaded<'a, R> {
    /// The threads of this machine.
    pub fn new(rt: &'a R) -> Threaded<'a, R> {
        Threaded { rt }
    }
}

impl<R: Threads + Wait + Sync> Serves for Threaded<'_, R> {
    ghost use Rattle.std.specs.Prelude.{true};
    ghost use Rattle.std.specs.Thread.{IsSync};

    ghost serves = { true };

    ghost shares = { IsSync R.row };

    fn serves(&self) -> bool {
        true
    }

    fn serve<'a, F: Files, W: Write>(
        &self,
        alloc: Global,
        args: &'a NodeLines,
        files: &mut F,
        out: &mut W,
        lost: &mut u64,
    ) -> Result<ExitStatus, JobStop<'a>> {
        serve_file::<Brand, _, _, _>(self.rt, alloc, NodeHistory::new(), args, files, out, lost)
    }
}

/// Nobody, if no thread can start.
#[derive(Clone, Copy, Debug)]
pub struct Nobody;

impl Serves for Nobody {
    ghost use Rattle.std.specs.Prelude.{false};

    ghost serves = { false };

    ghost shares = { Unit {0} };

    fn serves(&self) -> bool {
        false
    }

    fn serve<'a, F: Files, W: Write>(
        &self,
        _alloc: Global,
        _args: &'a NodeLines,
        _files: &mut F,
        _out: &mut W,
        _lost: &mut u64,
    ) -> Result<ExitStatus, JobStop<'a>> {
        Err(JobStop::Ended(Fault::NoMemory))
    }
}
